//! A contactor that is watched.
ghost use Rattle.std.specs.Prelude.{◌≡◌, false};
ghost use Rattle.fb_lib.specs.Steps.{next_feedback};

use crate::delays::risen;

/// Whether the output is on, for how many ticked cycles the contactor hasn't followed, and whether that was too long.
#[derive(Drop)]
pub(crate) struct Feedback {
    on: bool,
    age: u16,
    bad: bool,
}

impl Feedback {
    pub(crate) fn new() -> Feedback
        ensures { result ≡ record { on = false; age = 0; bad = false } }
    {
        Feedback {
            on: false,
            age: 0,
            bad: false,
        }
    }

    /// Returns true if the contactor is switched on: `cmd` is true, and it hasn't been late since it was last released
    /// without `cmd`. `fb` is true while it is released.
    pub(crate) fn step(&mut self, n: u16, ticked: bool, cmd: bool, fb: bool) -> bool
        ensures next { self.new ≡ next_feedback n self.old ticked cmd fb }
        ensures told { result ≡ self.new.on }
    {
        self.age = if fb == self.on {
            risen(self.age, ticked)
        } else {
            0
        };
        let released = !cmd && fb;
        self.bad = !released && (self.age > n || self.bad);
        self.on = cmd && !self.bad;
        self.on
    }
}
