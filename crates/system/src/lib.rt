// What the programs ask of the system, over std: their arguments, standard input, files and standard
// output. And the small work on bytes and numbers that all of them do.
//
// No contract can say what an argument, a file or the input holds, nor what is written: the comments
// do. No function here allocates. Where a write fails there is nobody left to tell, so `print` does
// not say so; every other failure is told.
#![tactic(auto)]

mod arguments;
mod files;
mod number;
mod output;
mod reading;
mod seek;

pub use arguments::{arg, arg_count};
pub use files::{PATH_ROOM, create, is_link, open_read, open_update, remove, rename};
pub use number::decimal;
pub use output::print;
pub use reading::read_full;
pub use seek::find;
