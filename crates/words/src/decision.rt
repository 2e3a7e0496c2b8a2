// Whether a word may stand where it stands, and what is done with it.
ghost use Rattle.std.specs.Prelude.{◌≡◌, ◌≤◌, ◌<◌};
ghost use Rattle.words.specs.Reading.{stands, named, noted, begun, on_said, decided};

use crate::due::{Due, Said, Standing};
use crate::opened::{Open, is_full};

// What is done with a word that may stand where it stands.
#[derive(Clone, Copy)]
pub enum Act {
    Nothing,
    // From here on names are listed.
    Fix,
    // The name is listed.
    Note,
    // The atom of this number stands in the open rule; the name gets the number if it is new.
    Stand(Standing, usize),
}

// Why a word may not stand there.
#[derive(Clone, Copy)]
pub enum Misplaced {
    // 40
    Form,
    // 41
    Name,
    // 42
    TooMany,
}

// The atom stands in the rule, if there is room for it.
#[tactic(auto, unfolding(crate::specs::Reading::stands, meaning::specs::Choice::ifb))]
fn stand(
    rule: Open,
    standing: Standing,
    due: Due,
    rules: usize,
    a: usize,
) -> Result<(Due, Act), Misplaced>
    requires { a < 255 }
    ensures { result ≡ stands standing due rules a rule }
{
    if is_full(rule, standing, rules, a) {
        return Err(Misplaced::TooMany);
    }
    Ok((due, Act::Stand(standing, a)))
}

// A name in a rule: `a` is its number among so many names, or how many there are.
#[tactic(auto, unfolding(crate::specs::Reading::named, meaning::specs::Choice::ifb, meaning::specs::Choice::if_lt))]
fn name_atom(
    rule: Open,
    standing: Standing,
    due: Due,
    fixed: bool,
    rules: usize,
    count: usize,
    a: usize,
) -> Result<(Due, Act), Misplaced>
    requires { (a ≤ count) × (count ≤ 255) }
    ensures { result ≡ named fixed count a (stands standing due rules a rule) }
{
    if a < count {
        return stand(rule, standing, due, rules, a);
    }
    if fixed {
        return Err(Misplaced::Name);
    }
    if 255 <= count {
        return Err(Misplaced::TooMany);
    }
    stand(rule, standing, due, rules, a)
}

// A name in an `atoms:` line.
#[tactic(auto, unfolding(crate::specs::Reading::noted, meaning::specs::Choice::ifb, meaning::specs::Choice::if_lt))]
fn list_name(due: Due, count: usize, a: usize) -> Result<(Due, Act), Misplaced>
    ensures { result ≡ noted due count a }
{
    if a < count {
        return Err(Misplaced::Name);
    }
    if 255 <= count {
        return Err(Misplaced::TooMany);
    }
    Ok((due, Act::Note))
}

// `atoms:` stands before the first rule.
#[tactic(auto, unfolding(crate::specs::Reading::begun, meaning::specs::Choice::ifb, meaning::specs::Choice::if_eq))]
fn begin_list(due: Due, rules: usize) -> Result<(Due, Act), Misplaced>
    ensures { result ≡ begun due rules }
{
    if rules == 0 {
        return Ok((due, Act::Fix));
    }
    Err(Misplaced::Form)
}

#[tactic(auto, unfolding(crate::specs::Reading::on_said))]
fn on_said(
    said: Said,
    due: Due,
    rule: Open,
    fixed: bool,
    rules: usize,
    count: usize,
    a: usize,
) -> Result<(Due, Act), Misplaced>
    requires { (a ≤ count) × (count ≤ 255) }
    ensures { result ≡ on_said said due fixed rules count a rule }
{
    match said {
        Said::Nothing => Ok((due, Act::Nothing)),
        Said::Lists => begin_list(due, rules),
        Said::Listed => list_name(due, count, a),
        Said::Atom(standing) => name_atom(rule, standing, due, fixed, rules, count, a),
    }
}

// What is due behind the word, and what is done with it.
#[tactic(auto, unfolding(crate::specs::Reading::decided))]
pub fn decide(
    m: Option<(Due, Said)>,
    rule: Open,
    fixed: bool,
    rules: usize,
    count: usize,
    a: usize,
) -> Result<(Due, Act), Misplaced>
    requires { (a ≤ count) × (count ≤ 255) }
    ensures { result ≡ decided m fixed rules count a rule }
{
    match m {
        Some((due, said)) => on_said(said, due, rule, fixed, rules, count, a),
        None => Err(Misplaced::Form),
    }
}
