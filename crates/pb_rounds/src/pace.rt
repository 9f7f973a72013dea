//! When a jump over raises is tried, and how far it goes. No outcome depends on it, but the time does: a jump
//! that fails was in vain, and costs about as much as a trial.

ghost use Rattle.std.specs.Prelude.{◌≤◌};

/// The most trials that have to elect for the same money before a jump is tried.
const LONGEST_WAIT: u32 = 64;

/// The pace of a completion by raises.
#[derive(Drop)]
pub(crate) struct Pace {
    /// What the elected of the last trial cost together, in hundredths.
    spent: u128,
    /// How many trials in a row elected for as much as the one before.
    same: u32,
    /// How many have to before a jump is tried: once, and after each one that fails twice as many as before.
    wait: u32,
    /// How many raises the next jump goes.
    distance: u32,
}

impl Pace {
    pub(crate) fn new() -> Pace {
        Pace {
            spent: 0,
            same: 0,
            wait: 1,
            distance: 2,
        }
    }

    /// After a trial whose elected cost this much.
    pub(crate) fn tried(&mut self, spent: u128) {
        if spent == self.spent {
            self.same = self.same.saturating_add(1);
        } else {
            self.spent = spent;
            self.same = 0;
        }
    }

    /// Whether a jump is tried after the trials so far.
    pub(crate) fn is_due(&self) -> bool {
        self.same >= self.wait
    }

    /// The raise that the next jump goes to, where the next one to be tried is this one.
    pub(crate) fn target(&self, next: u32, max_raises: u32) -> u32
        ensures { result ≤ max_raises }
    {
        next.saturating_add(self.distance.saturating_sub(1))
            .min(max_raises)
    }

    /// After a jump that succeeded the next one goes twice as far.
    pub(crate) fn won(&mut self) {
        self.distance = self.distance.saturating_mul(2);
        self.wait = 1;
    }

    /// After a jump that failed the next one goes a quarter as far. Whether it is tried at once, without
    /// another trial.
    pub(crate) fn lost(&mut self) -> bool {
        if self.distance >= 8 {
            self.distance /= 4;
            return true;
        }
        self.distance = 2;
        self.same = 0;
        self.wait = self.wait.saturating_mul(2).min(LONGEST_WAIT);
        false
    }
}
