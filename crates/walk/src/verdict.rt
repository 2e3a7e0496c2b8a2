// What a search for the first reading that matches a given one comes to.
#[derive(Clone, Copy)]
pub enum Verdict {
    // No reading matches it.
    Nobody,
    // The first one that does is the given one itself.
    This,
    // The first one that does is another.
    Another,
}
