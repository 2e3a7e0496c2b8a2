// Parts of bytes.
ghost use Rattle.std.specs.Prelude.{◌≡◌, ◌≤◌, eqb, length, take};
ghost use Rattle.std.specs.List.{common_prefix_len};

// The first n bytes; all of them where there are fewer.
pub fn first_bytes<'a>(bytes: &'a [u8], n: usize) -> &'a [u8]
    ensures { result.now ≡ take n bytes.now }
{
    &bytes[..bytes.len().min(n)]
}

// How many bytes the two have in common before they differ.
pub fn common<'a>(one: &'a [u8], other: &'a [u8]) -> usize
    ensures value { result ≡ common_prefix_len eqb one.now other.now }
    ensures bounds { (result ≤ length one.now) × (result ≤ length other.now) }
{
    one.iter().zip(other).take_while(|(x, y)| x == y).count()
}
