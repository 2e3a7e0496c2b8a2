// What may stand next in a text, and what a number does there. The rows are those of the format.
ghost use Rattle.std.specs.Prelude.{◌≡◌};
ghost use Rattle.lparse.specs.Reading.{
  body_of,
  heads_of,
  on_kind,
  on_atom,
  on_listed,
  on_head_count,
  on_negatives,
  on_number,
};

use imported::TextAtom;

// What a number that is due is there for. The counts are of the atoms behind this one.
#[derive(Clone, Copy)]
pub enum Role {
    // A rule's type, or the 0 that closes the rules.
    Kind,
    Head,
    // The number of a choice's heads.
    HeadCount,
    // A head of a choice; so many heads more.
    Heads(u32),
    // The number of literals.
    Literals,
    // The number of negatives, of so many literals.
    Negatives(u32),
    // A negative atom; so many negatives and positives more.
    Negative(u32, u32),
    // A positive atom; so many more.
    Positive(u32),
    // An atom of the symbol table, or the 0 that ends it.
    Table,
    // An atom of B+ or of B-, or the 0 that ends the list.
    Plus,
    Minus,
    // The number of models.
    Models,
}

// What is due: a number, the name of an atom, one of the words B+ and B-, or nothing any more.
#[derive(Clone, Copy)]
pub enum Due {
    Number(Role),
    Name(TextAtom),
    PlusWord,
    MinusWord,
    End,
}

// Where an atom stands.
#[derive(Clone, Copy)]
pub enum Standing {
    Head,
    // A head of a choice.
    Free,
    Negative,
    Positive,
    Table,
    Plus,
    Minus,
}

// What a word says of the text's rules, table and lists. An atom of the table is said by its name.
#[derive(Clone, Copy)]
pub enum Said {
    Nothing,
    // A choice begins.
    Choice,
    Atom(TextAtom, Standing),
}

// Why a word cannot stand there: it is no word of the format, or no rule's type.
#[derive(Clone, Copy)]
pub enum Misplaced {
    Format,
    Kind,
}

// What is due where so many negatives and positives are left.
#[tactic(auto, unfolding(crate::specs::Reading::body_of, meaning::specs::Choice::ifb, meaning::specs::Choice::if_eq))]
fn body(negatives: u32, positives: u32) -> Role
    ensures { result ≡ body_of negatives positives }
{
    match (negatives, positives) {
        (0, 0) => Role::Kind,
        (0, _) => Role::Positive(positives - 1),
        _ => Role::Negative(negatives - 1, positives),
    }
}

// What is due where so many heads of a choice are left.
#[tactic(auto, unfolding(crate::specs::Reading::heads_of, meaning::specs::Choice::ifb, meaning::specs::Choice::if_eq))]
fn heads(left: u32) -> Role
    ensures { result ≡ heads_of left }
{
    if left == 0 {
        Role::Literals
    } else {
        Role::Heads(left - 1)
    }
}

// A rule's type: 0 closes the rules, 1 opens a basic rule, 3 a choice.
#[tactic(auto, unfolding(crate::specs::Reading::on_kind, meaning::specs::Choice::ifb, meaning::specs::Choice::if_eq))]
fn on_kind(n: u32) -> Result<(Due, Said), Misplaced>
    ensures { result ≡ on_kind n }
{
    match n {
        0 => Ok((Due::Number(Role::Table), Said::Nothing)),
        1 => Ok((Due::Number(Role::Head), Said::Nothing)),
        3 => Ok((Due::Number(Role::HeadCount), Said::Choice)),
        _ => Err(Misplaced::Kind),
    }
}

// An atom, and so not 0, of a rule.
#[tactic(auto, unfolding(crate::specs::Reading::on_atom, meaning::specs::Choice::ifb, meaning::specs::Choice::if_eq))]
fn on_atom(n: u32, next: Role, standing: Standing) -> Result<(Due, Said), Misplaced>
    ensures { result ≡ on_atom n next standing }
{
    if n == 0 {
        return Err(Misplaced::Format);
    }
    Ok((Due::Number(next), Said::Atom(TextAtom(n), standing)))
}

// An atom, or the 0 that ends the list.
#[tactic(auto, unfolding(crate::specs::Reading::on_listed, meaning::specs::Choice::ifb, meaning::specs::Choice::if_eq))]
fn on_listed(n: u32, end: Due, next: Due, said: Said) -> Result<(Due, Said), Misplaced>
    ensures { result ≡ on_listed n end next said }
{
    if n == 0 {
        return Ok((end, Said::Nothing));
    }
    Ok((next, said))
}

// The number of a choice's heads, and so not 0. No room is kept for them: they are read one by one.
#[tactic(auto, unfolding(crate::specs::Reading::on_head_count, meaning::specs::Choice::ifb, meaning::specs::Choice::if_eq))]
fn on_head_count(n: u32) -> Result<(Due, Said), Misplaced>
    ensures { result ≡ on_head_count n }
{
    if n == 0 {
        return Err(Misplaced::Format);
    }
    Ok((Due::Number(heads(n)), Said::Nothing))
}

// The number of negatives, of so many literals.
#[tactic(auto, unfolding(crate::specs::Reading::on_negatives, meaning::specs::Choice::ifb, meaning::specs::Choice::if_lt))]
fn on_negatives(n: u32, literals: u32) -> Result<(Due, Said), Misplaced>
    ensures { result ≡ on_negatives n literals }
{
    if literals < n {
        return Err(Misplaced::Format);
    }
    Ok((Due::Number(body(n, literals - n)), Said::Nothing))
}

// What a number does where it is due.
#[tactic(auto, unfolding(crate::specs::Reading::on_number))]
pub fn on_number(role: Role, n: u32) -> Result<(Due, Said), Misplaced>
    ensures { result ≡ on_number role n }
{
    let a = TextAtom(n);
    match role {
        Role::Kind => on_kind(n),
        Role::Head => on_atom(n, Role::Literals, Standing::Head),
        Role::HeadCount => on_head_count(n),
        Role::Heads(left) => on_atom(n, heads(left), Standing::Free),
        Role::Literals => Ok((Due::Number(Role::Negatives(n)), Said::Nothing)),
        Role::Negatives(literals) => on_negatives(n, literals),
        Role::Negative(negatives, positives) => {
            on_atom(n, body(negatives, positives), Standing::Negative)
        }
        Role::Positive(positives) => on_atom(n, body(0, positives), Standing::Positive),
        Role::Table => on_listed(n, Due::PlusWord, Due::Name(a), Said::Nothing),
        Role::Plus => {
            let said = Said::Atom(a, Standing::Plus);
            on_listed(n, Due::MinusWord, Due::Number(Role::Plus), said)
        }
        Role::Minus => {
            let said = Said::Atom(a, Standing::Minus);
            on_listed(n, Due::Number(Role::Models), Due::Number(Role::Minus), said)
        }
        Role::Models => Ok((Due::End, Said::Nothing)),
    }
}
