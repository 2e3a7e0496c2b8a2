// The k-th of what the words of a text say, counted from 0 and found one by one.
ghost use Rattle.std.specs.Prelude.{◌≡◌};
ghost use Rattle.lparse.specs.Nth.{kth_found, kth_left};

// What is found behind a word that says `here`, where `left` are passed over yet.
#[tactic(auto, unfolding(crate::specs::Nth::kth_found, meaning::specs::Choice::ifb, meaning::specs::Choice::if_eq))]
pub fn kth_found<T: Copy>(found: Option<T>, here: Option<T>, left: usize) -> Option<T>
    ensures { result ≡ kth_found found here left }
{
    match found {
        None if left == 0 => here,
        _ => found,
    }
}

// How many are passed over yet behind the word.
#[tactic(auto, unfolding(crate::specs::Nth::kth_left))]
pub fn kth_left<T: Copy>(left: usize, here: Option<T>) -> usize
    ensures { result ≡ kth_left left here }
{
    match here {
        None => left,
        Some(_) => left.saturating_sub(1),
    }
}
