// How far a call has come along its walk.
ghost use Rattle.std.specs.Prelude.{◌≡◌, ◌+◌, ◌<◌};
ghost use Rattle.walk.specs.declared.tally.Halt.TheVariants.{Going, Limit};

use meaning::RuleNo;

// Why it goes no further.
#[derive(Clone, Copy)]
pub enum Halt {
    Going,
    // As many readings were written as there was room for.
    Full,
    // One more try would pass the limit.
    Limit,
}

#[derive(Clone, Copy)]
pub struct Tally {
    pub tries: u32,
    pub sets: u32,
    // The rule of the last contradictory try, 255 before there is one: no rule has that number.
    pub clash: RuleNo,
    pub halt: Halt,
}

impl Tally {
    // Before the first try.
    pub const START: Tally = Tally {
        tries: 0,
        sets: 0,
        clash: RuleNo(255),
        halt: Halt::Going,
    };

    // One try more, and what it came to: so many readings by now, and why the call goes no further.
    pub fn tried(self, sets: u32, halt: Halt) -> Tally
        requires { self.tries < 4294967295 }
        ensures { result ≡
            record { tries = self.tries + 1; sets = sets; clash = self.clash; halt = halt } }
    {
        Tally {
            tries: self.tries + 1,
            sets,
            halt,
            ..self
        }
    }

    // One try more would pass the limit.
    pub fn stopped(self) -> Tally
        ensures { result ≡
            record { tries = self.tries; sets = self.sets; clash = self.clash; halt = Limit } }
    {
        Tally {
            halt: Halt::Limit,
            ..self
        }
    }

    // One try more, which ended in a contradiction at that rule.
    pub fn clashed(self, r: RuleNo) -> Tally
        requires { self.tries < 4294967295 }
        ensures { result ≡
            record { tries = self.tries + 1; sets = self.sets; clash = r; halt = Going } }
    {
        Tally {
            tries: self.tries + 1,
            clash: r,
            halt: Halt::Going,
            ..self
        }
    }
}
