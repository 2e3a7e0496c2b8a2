// What gives way to a new paper: an empty file, and a paper that this book accepts for the same
// claim. Other papers do only where the call says `--replace`, and what is no paper never does: a
// slip in a file's name must not cost anybody a file, nor put one name in place of another, nor a
// name in place of a clearance.
use checker::{Rejected, check};
use meaning::{Claim, Kind};
use talk::complain;

// Whether the two claims are one.
fn is_same(claim: Claim, other: Claim) -> bool {
    match (claim, other) {
        (Claim::About(Kind::Naming, a), Claim::About(Kind::Naming, b)) => a == b,
        (Claim::About(Kind::Clearing, a), Claim::About(Kind::Clearing, b)) => a == b,
        (Claim::NoReading, Claim::NoReading) => true,
        _ => false,
    }
}

// Whether the bytes that stand at the path give way to a paper for the claim. Where they do not a
// line says so. Bytes are no paper, whatever the book, by their length, their mark or their trailer.
pub fn gives_way(
    rt: &impl Print,
    path: &[u8],
    book: &[u8],
    claim: Claim,
    old: &[u8],
    is_replacing: bool,
) -> bool {
    if old.is_empty() {
        return true;
    }
    let why: &[u8] = match check(book, old) {
        Err(Rejected::Length | Rejected::Mark(_) | Rejected::Trailer(_)) => {
            b"it is there and is no paper"
        }
        _ if is_replacing => return true,
        Ok(other) if is_same(claim, other) => return true,
        Ok(_) => b"it is a paper for another claim; see --replace",
        Err(_) => b"it is a paper that this book refuses; see --replace",
    };
    complain(rt, path, why);
    false
}
