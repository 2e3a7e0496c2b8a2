// Decimal numbers, read from digits up to a bound that the caller names, and written. Stands on
// meaning, whose choices its definitions go by.
#![tactic(auto)]

ghost use Rattle.std.specs.Prelude.{◌≡◌};
ghost use Rattle.decimal.specs.Digits.{value_from, plain_of};

mod writing;

pub use writing::put_number;

// The number that the digits say, up to `most`; zeros may stand in front, and no digits say 0.
pub fn read_digits(word: &[u8], most: u64) -> Option<u64>
    ensures { result ≡ value_from most 0 word.now }
{
    let mut value: u64 = 0;
    for x in word {
        let x = *x;
        if !x.is_ascii_digit() {
            return None;
        }
        let digit = (x - b'0') as u64;
        value = value.checked_mul(10)?.checked_add(digit)?;
        if most < value {
            return None;
        }
    }
    Some(value)
}

// The number that the word says, up to `most`: at least one digit, no sign, no zero in front of
// another digit.
pub fn read_plain(word: &[u8], most: u64) -> Option<u64>
    ensures { result ≡ plain_of most word.now }
{
    if word.len() == 0 {
        return None;
    }
    if word.len() == 1 {
        return read_digits(word, most);
    }
    if word[0] == b'0' {
        return None;
    }
    read_digits(word, most)
}
