// The words ROOM and BYTES, which several commands take, and bytes that were made, as an answer.
ghost use Rattle.std.specs.Prelude.{IfSome};
ghost use Rattle.system.specs.Counts.{IsPrefixLen};

use talk::{Line, first_word, other_words, read_bytes, read_number};

// What the words say: ROOM, and how many bytes there are.
#[derive(Clone, Copy)]
pub struct Given {
    pub size: usize,
    pub count: usize,
}

// The number that the first word says, where there is that much room.
pub fn read_size(words: &[u8], room: &[u8]) -> Option<usize>
    ensures { IfSome result (λ size. IsPrefixLen size room.now) }
{
    let size = read_number(first_word(words))? as usize;
    if room.len() < size {
        return None;
    }
    Some(size)
}

// Reads ROOM, and the bytes into their buffer from byte 0 on; none where the words are not right.
pub fn read_given(words: &[u8], bytes: &mut [u8], room: &[u8]) -> Option<Given>
    ensures { IfSome result (λ it. IsPrefixLen it.count bytes.new
        × IsPrefixLen it.size room.now) }
{
    let size = read_size(words, room)?;
    let count = read_bytes(other_words(words), bytes)?;
    Some(Given { size, count })
}

// A word and the bytes behind it.
pub fn put_made(word: &[u8], bytes: &[u8], out: &mut Line) {
    out.text(word);
    out.bytes(bytes);
}
