// Why no book is made of words.
#[derive(Clone, Copy)]
pub enum Unworded {
    // 40: the first byte of a word that cannot stand there, or the line's end where one is missing.
    Form(usize),
    // 41: the first byte of a name that is not listed, or is listed twice.
    Name(usize),
    // 42: the first byte of the 256th name, of the 256th rule, or of the 17th atom in a part.
    TooMany(usize),
    // 43: the buffer is too short for the book.
    NoRoom,
}
