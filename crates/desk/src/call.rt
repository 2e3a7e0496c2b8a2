// The words that `find`, `name` and others have in common: a number, L, ROOM and BOOK.
ghost use Rattle.std.specs.Prelude.{IfSome};
ghost use Rattle.system.specs.Counts.{IsPrefixLen};

use crate::given::read_size;
use talk::{first_word, other_words, read_bytes, read_number};

// What the first three words say: the number, L and ROOM.
#[derive(Clone, Copy)]
pub struct Numbers {
    pub first: u32,
    pub limit: u32,
    pub size: usize,
}

// All of them: the numbers, and how many bytes the book has.
#[derive(Clone, Copy)]
pub struct Call {
    pub numbers: Numbers,
    pub count: usize,
}

// The words behind the first three.
pub fn behind_numbers<'a>(words: &'a [u8]) -> &'a [u8] {
    other_words(other_words(other_words(words)))
}

// Reads the first three words; none where they are not right, or ask for more room than there is.
pub fn read_numbers(words: &[u8], room: &[u8]) -> Option<Numbers>
    ensures { IfSome result (λ it. IsPrefixLen it.size room.now) }
{
    let first = read_number(first_word(words))?;
    let others = other_words(words);
    let limit = read_number(first_word(others))?;
    let size = read_size(other_words(others), room)?;
    Some(Numbers { first, limit, size })
}

// Reads the words, and writes the book from byte 0 on. Where they are not right, or ask for more
// room than there is, nothing is written.
pub fn read_call(words: &[u8], book: &mut [u8], room: &[u8]) -> Option<Call>
    ensures { IfSome result (λ it. IsPrefixLen it.count book.new
        × IsPrefixLen it.numbers.size room.now) }
{
    let numbers = read_numbers(words, room)?;
    let count = read_bytes(behind_numbers(words), book)?;
    Some(Call { numbers, count })
}
