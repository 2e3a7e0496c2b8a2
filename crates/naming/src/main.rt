// Writes the paper that an atom is certain, for a book, where there is one. Nothing is written on a
// refusal, and a paper file that was there before stays as it was.
//
//     naming BOOKFILE ATOM PAPERFILE [LIMIT] [--replace]
#![tactic(auto)]

use meaning::Kind;

fn main(rt: HostRuntime) {
    filing::file_paper(&rt, Kind::Naming);
}
