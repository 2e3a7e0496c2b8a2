// The grounder's texts: any bytes are read as a text of Lparse's format or refused with a number
// and a place, and a book is made of what the text says. Stands on imported, which says what a text
// means, and on book.
#![tactic(auto)]

mod adding;
mod answer;
mod due;
mod form;
mod free;
mod gather;
mod importer;
mod named;
mod nth;
mod numbering;
mod rule;
mod step;
mod word;

pub use answer::Unimported;
pub use free::free_head;
pub use gather::collect;
pub use importer::import;
pub use named::{atom_at, nth_name};
pub use numbering::number_of;
