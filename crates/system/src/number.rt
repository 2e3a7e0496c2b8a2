// A number as text, in ASCII.
ghost use Rattle.std.specs.Prelude.{◌≡◌, ◌<◌, ◌≤◌, length, take, drop};
ghost use Rattle.system.specs.Counts.{IsPrefixLen};
ghost use Rattle.system.specs.Digits.{last_digits, IsDigitCount, digit_ascii};

// Puts n's decimal digits at the start of out, and gives how many there are.
pub fn decimal(n: u64, out: &mut [u8; 20]) -> usize
    ensures in_bounds { IsPrefixLen result out.new }
    ensures len { IsDigitCount 10 1 n result }
    ensures digits { take result out.new ≡ last_digits 10 result n }
    ensures rest { drop result out.new ≡ drop result out.old }
{
    let k = digit_count(n);
    write_digits(n, k, out);
    k
}

// How many decimal digits n takes.
fn digit_count(n: u64) -> usize
    ensures fewest { IsDigitCount 10 1 n result }
    ensures bound { result ≤ 20 }
{
    n.max(1).ilog10() as usize + 1
}

// Puts the last k decimal digits of n at the start of out.
fn write_digits(n: u64, k: usize, out: &mut [u8])
    requires { k ≤ length out.old }
    ensures digits { take k out.new ≡ last_digits 10 k n }
    ensures rest { drop k out.new ≡ drop k out.old }
{
    let mut rest = n;
    for i in (0..k).rev() {
        out[i] = digit_to_ascii(rest % 10);
        rest /= 10;
    }
}

fn digit_to_ascii(d: u64) -> u8
    requires { d < 10 }
    ensures { result ≡ digit_ascii d }
{
    b'0' + d as u8
}
