// The buffers that every command may use.
#[derive(Drop)]
pub struct Buffers<'a> {
    // A book is read into this one.
    pub book: &'a mut [u8],
    // What comes beside a book, another book, a text or a list.
    pub other: &'a mut [u8],
    // This one is lent to the engine.
    pub room: &'a mut [u8],
    // The answer.
    pub out: &'a mut [u8],
}
