// Bytes written as hexadecimal digits, two to a byte, in either case; `-` for none.
ghost use Rattle.std.specs.Prelude.{◌≡◌, ◌*◌, ◌≤◌, length, IfSome, MatchOption};
ghost use Rattle.system.specs.Counts.{IsPrefixLen};
ghost use Rattle.talk.specs.Hexadecimal.{digit_of, all_digits, filled, decoded_of};

// The value of a digit; 16 for a byte that is none.
fn digit(x: u8) -> u8
    ensures { result ≡ digit_of x }
{
    match x {
        b'0'..=b'9' => x - b'0',
        b'A'..=b'F' => x - b'A' + 10,
        b'a'..=b'f' => x - b'a' + 10,
        _ => 16,
    }
}

fn all_digits(word: &[u8]) -> bool
    ensures { result ≡ all_digits word.now }
{
    word.iter().all(|x| digit(*x) < 16)
}

// Writes the n bytes that the word's first digits say from byte 0 on.
fn fill(word: &[u8], n: usize, out: &mut [u8])
    requires { (2 * n ≤ length word.now) × (n ≤ length out.old) }
    ensures { out.new ≡ filled n word.now out.old }
{
    for i in 0..n {
        out[i] = 16 * (digit(word[2 * i]) % 16) + digit(word[2 * i + 1]) % 16;
    }
}

// How many bytes the word says, where it says bytes and there is room for them.
fn count_bytes(word: &[u8], room: usize) -> Option<usize>
    ensures value { result ≡ decoded_of word.now room }
    ensures count_in_bounds { IfSome result (λ n. (2 * n ≤ length word.now) × (n ≤ room)) }
{
    if word.len() == 1 {
        return if word[0] == b'-' { Some(0) } else { None };
    }
    if word.len() == 0 || word.len() % 2 == 1 {
        return None;
    }
    let n = word.len() / 2;
    if room < n || !all_digits(word) {
        return None;
    }
    Some(n)
}

// Writes the bytes that the word says from byte 0 on. Where it says none, or more than there is
// room for, nothing is written.
pub fn read_bytes(word: &[u8], out: &mut [u8]) -> Option<usize>
    ensures value { result ≡ decoded_of word.now (length out.old) }
    ensures out_after { MatchOption result (out.new ≡ out.old)
        (λ n. out.new ≡ filled n word.now out.old) }
    ensures prefix_len { IfSome result (λ n. IsPrefixLen n out.new) }
{
    let n = count_bytes(word, out.len())?;
    fill(word, n, out);
    Some(n)
}
