// What the programs share: words, numbers and bytes taken from a line, files read, and words,
// numbers, bytes, rules and refusals written to standard output, a line at once. Stands on the
// answers of book, checker and writer, and on decimal.
//
// Functions that give a value promise which. Of those that read or write a file no contract can say
// what they read or write; their comments do.
#![tactic(auto)]

mod checked;
mod file;
mod hexadecimal;
mod hints;
mod line;
mod name;
mod numbers;
mod output;
mod part;
mod refusals;
mod rule;
mod sentences;
mod size;
mod words;

pub use checked::tell_checked;
pub use file::{
    BOOK_ROOM, PAPER_ROOM, complain, complain_of_call, open_call, read_argument, read_input,
    read_quietly,
};
pub use hexadecimal::read_bytes;
pub use line::Line;
pub use name::{NAME_ROOM, NAMES_ROOM, name_of, put_called, put_subject};
pub use numbers::read_number;
pub use part::{common, first_bytes};
pub use refusals::{Refused, refused_book, refused_name, refused_paper};
pub use rule::{count_rules, put_rule, show_rule};
pub use sentences::{
    explain, explain_book, explain_book_of, explain_paper, explain_text_of, put_refused,
};
pub use size::{put_size, show_size};
pub use system::print;
pub use words::{first_word, other_words};
