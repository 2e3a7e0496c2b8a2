// Standard output.

// Writes the text as it stands, at once where the system takes it at once.
pub fn print(rt: &impl Print, text: &[u8]) {
    let _ = rt.write_all(text);
}
