// Pieces of a text, read: what stands between numbers, and numbers.
ghost use Rattle.std.specs.Prelude.{◌≡◌, ◌+◌, ◌≤◌, length, drop};
ghost use Rattle.aspif.specs.Reading.{skip, digit_count, number_in, item_in};
ghost use Rattle.aspif.specs.Scanning.{went, seen, Reaches, Behind};

use decimal::read_plain;

// Past the word, if it stands at `at`: where the text goes on.
pub fn skip_text(text: &[u8], at: usize, word: &[u8]) -> Option<usize>
    requires { at ≤ length text.now }
    ensures result_value { went text.now result
        ≡ skip word.now (drop at text.now) }
    ensures reaches { Reaches (at + length word.now) (length text.now) result }
{
    if !text[at..].starts_with(word) {
        return None;
    }
    Some(at + word.len())
}

// Where the digits that stand at `at` end.
fn digits_end(text: &[u8], at: usize) -> usize
    requires { at ≤ length text.now }
    ensures { (result ≡ at + digit_count (drop at text.now))
        × (result ≤ length text.now) }
{
    match text[at..].iter().position(|x| !x.is_ascii_digit()) {
        Some(count) => at + count,
        None => text.len(),
    }
}

// The number at `at`, in the fewest digits, and where the text goes on. None is above the text's length: no book's text has
// such a number.
fn read_number(text: &[u8], at: usize) -> Option<(usize, usize)>
    requires { at ≤ length text.now }
    ensures result_value { seen text.now result
        ≡ number_in (length text.now) (drop at text.now) }
    ensures behind { Behind at (length text.now) result }
{
    let end = digits_end(text, at);
    let value = read_plain(&text[at..end], text.len() as u64)?;
    Some((value as usize, end))
}

// The number at least `least` that stands behind the word at `at`.
pub fn read_item(text: &[u8], at: usize, word: &[u8], least: usize) -> Option<(usize, usize)>
    requires { at ≤ length text.now }
    ensures result_value { seen text.now result
        ≡ item_in (length text.now) word.now least
        (drop at text.now) }
    ensures behind { Behind at (length text.now) result }
{
    let next = skip_text(text, at, word)?;
    let (value, end) = read_number(text, next)?;
    if value < least {
        return None;
    }
    Some((value, end))
}
