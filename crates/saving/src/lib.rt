// Saving a file whole or not at all. What stands at its place is handed out first, so that the
// program that saves can ask whether it may give way; what is no file never does. What gives way to
// a book is told here, for all programs that save one. Stands on talk and book.
//
// No contract can say what a file holds or what is written to it: the comments do.
#![tactic(auto)]

mod argument;
mod book_file;
mod place;
mod save;

pub use argument::{is_replacing, is_right, take_path};
pub use book_file::save_book;
pub use place::{Forbidden, look_at};
pub use save::save_file;
