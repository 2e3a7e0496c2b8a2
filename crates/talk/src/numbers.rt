// Decimal numbers, as people and programs write them.
ghost use Rattle.std.specs.Prelude.{◌≡◌};
ghost use Rattle.talk.specs.Decimal.{number_of};

use decimal::read_plain;

// The number that the word says, up to 4,294,967,295: at least one digit, no sign, no zero in front
// of another digit. None where the word is no number, or one that is out of range.
pub fn read_number(word: &[u8]) -> Option<u32>
    ensures { result ≡ number_of word.now }
{
    let value = read_plain(word, 4294967295)?;
    Some(value as u32)
}
