// Numbers of one byte and of two bytes, as the book has them.
ghost use Rattle.std.specs.Prelude.{◌≡◌, ◌+◌, ◌<◌, ◌≤◌, length};
ghost use Rattle.book.specs.Format.{u16_at};

// A byte at the machine's width. Its callers have the bound from its promise.
pub fn wide(x: u8) -> usize
    ensures { (result ≡ x) × (result < 256) }
{
    x as usize
}

// The number of two bytes at `at`, the low byte first.
pub fn u16_at(s: &[u8], at: usize) -> usize
    requires { at + 2 ≤ length s.now }
    ensures { (result ≡ u16_at s.now at) × (result < 65536) }
{
    wide(s[at]) + 256 * wide(s[at + 1])
}
