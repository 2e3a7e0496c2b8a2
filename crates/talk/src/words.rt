// The words of a line, which are parted by single spaces.
ghost use Rattle.std.specs.Prelude.{◌≡◌};
ghost use Rattle.talk.specs.Words.{first_word, other_words};

use system::find;

// The bytes before the first space; all of them where there is none.
pub fn first_word<'a>(line: &'a [u8]) -> &'a [u8]
    ensures { result.now ≡ first_word line.now }
{
    let end = find(line, 0, line.len(), b' ');
    &line[..end]
}

// The bytes behind the first space; none where there is no space.
pub fn other_words<'a>(line: &'a [u8]) -> &'a [u8]
    ensures { result.now ≡ other_words line.now }
{
    let end = find(line, 0, line.len(), b' ');
    if end == line.len() {
        return &line[end..];
    }
    let next = end + 1;
    &line[next..]
}
