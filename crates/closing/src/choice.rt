// The choice at which a walk goes on from a colouring.
use meaning::RuleNo;

#[derive(Clone, Copy)]
pub enum Choice {
    // No rule is chosen, and nothing is known of the colouring.
    Nothing,
    // The rule is put on, or off, in a colouring that is closed.
    On(RuleNo),
    Off(RuleNo),
}
