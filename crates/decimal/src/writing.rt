// Decimal numbers written.
ghost use Rattle.std.specs.Prelude.{◌+◌, ◌≤◌, length};
ghost use Rattle.decimal.specs.Fewest.{decimal, Stored};

// Writes the number's digits from place `at` on; where they end.
pub fn put_number(n: usize, out: &mut [u8], at: usize) -> usize
    requires { at + length (decimal n) ≤ length out.old }
    ensures { Stored (decimal n) at out.old result out.new }
{
    if n < 10 {
        out[at] = b'0' + n as u8;
        return at + 1;
    }
    let end = put_number(n / 10, out, at);
    out[end] = b'0' + (n % 10) as u8;
    end + 1
}
