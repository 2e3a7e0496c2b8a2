// Prints the quarterly table of the books that standard input names, one name a line, or of files of
// rules in words or of grounders' texts.
//
//     table < NAMESFILE
//     table --words < NAMESFILE
//     table --text < NAMESFILE
#![tactic(auto)]

mod names;
mod turn;

use system::arg_count;

fn main(rt: HostRuntime) {
    if arg_count(&rt) != 1 + calling::shift(&rt) {
        talk::complain_of_call(&rt, b"table < NAMESFILE");
        return;
    }
    let mut input = [0u8; names::ROOM];
    let Some(n) = talk::read_input(&rt, &mut input) else {
        return;
    };
    names::print_table(&rt, &rt.stderr(), &input[..n]);
}
