// How bytes look on standard output.
ghost use Rattle.std.specs.Prelude.{◌≡◌, ◌*◌, ◌≤◌, length};
ghost use Rattle.std.specs.Char.{is_ascii_control};
ghost use Rattle.meaning.specs.Choice.{ifb};
ghost use Rattle.talk.specs.Hexadecimal.{digit_for, spelled};

// A digit of a byte in hexadecimal, in lower case.
fn digit(value: u8) -> u8
    ensures { result ≡ digit_for value }
{
    if value < 10 {
        return b'0' + value;
    }
    b'a' + (value - 10) % 6
}

// The bytes, two digits each, at the start of out. Gives how many digits.
pub fn put_digits(bytes: &[u8], out: &mut [u8]) -> usize
    requires { 2 * length bytes.now ≤ length out.old }
    ensures count { result ≡ 2 * length bytes.now }
    ensures digits { out.new ≡ spelled (length bytes.now) bytes.now out.old }
{
    for (i, byte) in bytes.iter().enumerate() {
        let at = 2 * i;
        out[at] = digit(*byte / 16);
        out[at + 1] = digit(*byte % 16);
    }
    2 * bytes.len()
}

// The byte, or `?` for one that could break a line or write over it.
pub fn plain(x: u8) -> u8
    ensures { result ≡ ifb (is_ascii_control x) 63 x }
{
    if x.is_ascii_control() { b'?' } else { x }
}
