// What may stand next in a text, and what a word does there.
ghost use Rattle.std.specs.Prelude.{◌≡◌};
ghost use Rattle.words.specs.Moves.{
  remarked as remarked_at,
  only_at,
  on_unless,
  on_name,
  move_of,
  ended_of,
};

use crate::term::Term;

#[derive(Clone, Copy, PartialEq, Eq)]
pub enum Due {
    // The first word of a line.
    Line,
    // More words of a remark.
    Remark,
    // More names of an `atoms:` line.
    Listing,
    // Behind a rule's head.
    AfterHead,
    // An atom of the body, or `not`.
    Literal,
    // The atom behind `not`.
    Negative,
    // Behind an atom of the body.
    AfterAtom,
    // The atom behind `unless`, or behind its `or`.
    Exception,
    // Behind such an atom.
    AfterException,
}

// Where an atom stands in its rule.
#[derive(Clone, Copy)]
pub enum Standing {
    Head,
    Positive,
    Negative,
}

// What a word says: nothing, that names are listed, one of these names, or an atom of a rule.
#[derive(Clone, Copy)]
pub enum Said {
    Nothing,
    Lists,
    Listed,
    Atom(Standing),
}

// What the end of a line ends: nothing, or a rule; or a word is missing.
#[derive(Clone, Copy)]
pub enum Ended {
    Nothing,
    Rule,
    Missing,
}

// A word with no other meaning here: only a remark goes on with it.
fn remarked(due: Due) -> Option<(Due, Said)>
    ensures { result ≡ remarked_at due }
{
    if due == Due::Remark {
        return Some((Due::Remark, Said::Nothing));
    }
    None
}

// A word that may stand at one place only.
fn only_at(due: Due, place: Due, next: Due, said: Said) -> Option<(Due, Said)>
    ensures { result ≡ only_at due place next said }
{
    if due == place {
        return Some((next, said));
    }
    remarked(due)
}

// `unless` stands behind the head or behind an atom of the body.
fn on_unless(due: Due) -> Option<(Due, Said)>
    ensures { result ≡ on_unless due }
{
    if due == Due::AfterHead {
        return Some((Due::Exception, Said::Nothing));
    }
    only_at(due, Due::AfterAtom, Due::Exception, Said::Nothing)
}

#[tactic(auto, unfolding(crate::specs::Moves::on_name))]
fn on_name(due: Due) -> Option<(Due, Said)>
    ensures { result ≡ on_name due }
{
    match due {
        Due::Line => Some((Due::AfterHead, Said::Atom(Standing::Head))),
        Due::Remark => Some((Due::Remark, Said::Nothing)),
        Due::Listing => Some((Due::Listing, Said::Listed)),
        Due::Literal => Some((Due::AfterAtom, Said::Atom(Standing::Positive))),
        Due::Negative => Some((Due::AfterAtom, Said::Atom(Standing::Negative))),
        Due::Exception => Some((Due::AfterException, Said::Atom(Standing::Negative))),
        Due::AfterHead | Due::AfterAtom | Due::AfterException => None,
    }
}

// What is due behind a word of that kind and what it says, where this is due; none where it cannot
// stand.
#[tactic(auto, unfolding(crate::specs::Moves::move_of))]
pub fn move_of(due: Due, term: Term) -> Option<(Due, Said)>
    ensures { result ≡ move_of due term }
{
    match term {
        Term::If => only_at(due, Due::AfterHead, Due::Literal, Said::Nothing),
        Term::And => only_at(due, Due::AfterAtom, Due::Literal, Said::Nothing),
        Term::Not => only_at(due, Due::Literal, Due::Negative, Said::Nothing),
        Term::Unless => on_unless(due),
        Term::Or => only_at(due, Due::AfterException, Due::Exception, Said::Nothing),
        Term::Atoms => only_at(due, Due::Line, Due::Listing, Said::Lists),
        Term::Remark => only_at(due, Due::Line, Due::Remark, Said::Nothing),
        Term::Name => on_name(due),
        Term::Other => remarked(due),
    }
}

// What the end of a line ends where this is due.
#[tactic(auto, unfolding(crate::specs::Moves::ended_of))]
pub fn end_line(due: Due) -> Ended
    ensures { result ≡ ended_of due }
{
    match due {
        Due::Line | Due::Remark | Due::Listing => Ended::Nothing,
        Due::AfterHead | Due::AfterAtom | Due::AfterException => Ended::Rule,
        Due::Literal | Due::Negative | Due::Exception => Ended::Missing,
    }
}
