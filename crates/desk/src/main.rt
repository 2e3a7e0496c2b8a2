// Answers commands from standard input, one a line, with one line each, until the input ends. This
// is how other software calls the engine.
//
// Every answer is written before more of the input is read, so that a program on a pipe may wait
// for it. A line that is no command is answered `bad line`.
#![tactic(auto)]

use system::arg_count;

mod buffers;
mod call;
mod fewer;
mod find;
mod given;
mod input;
mod levelsk;
mod line;
mod numbers;
mod paper_check;
mod paper_name;
mod readings;
mod settled;
mod solver_text;
mod some_shown;
mod table;
mod text_import;
mod two_books;
mod words_text;

fn main(rt: HostRuntime) {
    if arg_count(&rt) != 1 {
        talk::complain_of_call(&rt, b"desk takes its commands from standard input");
        return;
    }
    // The longest line that is taken has `check`, a book of 16,384 bytes and a paper of 65,536.
    let mut line = [0u8; 163847];
    let mut book = [0u8; 16384];
    let mut other = [0u8; 65536];
    let mut room = [0u8; 65536];
    // The longest answer but `readings` has `paper`, two numbers and the digits of all of the room.
    let mut out = [0u8; 131200];
    let mut buffers = buffers::Buffers {
        book: &mut book,
        other: &mut other,
        room: &mut room,
        out: &mut out,
    };
    input::answer_all(&rt, &mut line, &mut buffers);
}
