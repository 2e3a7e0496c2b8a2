// Writes the paper that a book has no reading, where that is so. Nothing is written on a refusal, and a
// paper file that was there before stays as it was.
//
//     contradicting BOOKFILE PAPERFILE [LIMIT] [--replace]
#![tactic(auto)]

fn main(rt: HostRuntime) {
    filing::file_no_reading(&rt);
}
