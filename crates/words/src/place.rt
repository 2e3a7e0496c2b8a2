// Where a place of a text is, for people.
ghost use Rattle.std.specs.Prelude.{◌≡◌};
ghost use Rattle.words.specs.Lines.{one_more, line_behind, column_behind, line_in, column_in};

#[tactic(auto, unfolding(crate::specs::Lines::one_more, meaning::specs::Choice::ifb, meaning::specs::Choice::if_lt))]
fn one_more(n: usize) -> usize
    ensures { result ≡ one_more n }
{
    n.saturating_add(1)
}

// The line behind the byte, on line n.
#[tactic(auto, unfolding(crate::specs::Lines::line_behind, meaning::specs::Choice::ifb, meaning::specs::Choice::if_eq))]
fn line_behind(n: usize, x: u8) -> usize
    ensures { result ≡ line_behind n x }
{
    if x == b'\n' { one_more(n) } else { n }
}

// The column behind the byte, in column n.
#[tactic(auto, unfolding(crate::specs::Lines::column_behind, meaning::specs::Choice::ifb, meaning::specs::Choice::if_eq))]
fn column_behind(n: usize, x: u8) -> usize
    ensures { result ≡ column_behind n x }
{
    if x == b'\n' { 1 } else { one_more(n) }
}

// The line of a place, counted from 1.
pub fn line_of(text: &[u8], place: usize) -> usize
    ensures { result ≡ line_in text.now place }
{
    text.iter().take(place).fold(1, |n, x| line_behind(n, *x))
}

// The column of a place, counted from 1.
pub fn column_of(text: &[u8], place: usize) -> usize
    ensures { result ≡ column_in text.now place }
{
    text.iter().take(place).fold(1, |n, x| column_behind(n, *x))
}
