// Where a byte stands.
ghost use Rattle.std.specs.Prelude.{◌≡◌, ◌+◌, ◌==◌, ◌≤◌, length, position};
ghost use Rattle.system.specs.Places.{index_of, slice};

// The first place that has the byte.
fn place_of(bytes: &[u8], byte: u8) -> Option<usize>
    ensures { result ≡ position (λ x. x == byte) bytes.now }
{
    bytes.iter().position(|x| *x == byte)
}

// The first place from `from` on that has the byte, or `to` where none below `to` has it.
pub fn find(bytes: &[u8], from: usize, to: usize, byte: u8) -> usize
    requires { (from ≤ to) × (to ≤ length bytes.now) }
    ensures value { result ≡ from + index_of byte (slice from to bytes.now) }
    ensures bound { (from ≤ result) × (result ≤ to) }
{
    match place_of(&bytes[from..to], byte) {
        Some(i) => from + i,
        None => to,
    }
}
