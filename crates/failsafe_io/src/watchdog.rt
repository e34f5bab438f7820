//! The count of ticks since the last frame.
use std::marker::Model;

/// Counts ticks up to a limit. Its age is always below the limit.
#[derive(Drop)]
pub struct Watchdog {
    limit: u16,
    age: u16,
}

impl Model for Watchdog {
    ghost use Rattle.std.specs.Prelude.{◌<◌};
    ghost use Rattle.failsafe_io.specs.Timer.{Timer};

    ghost Value = { Timer };

    ghost view = { λ w. record { limit = w.limit; age = w.age } };

    ghost invariant = { λ w. w.age < w.limit };
}

impl Watchdog {
    ghost use Rattle.std.specs.Prelude.{◌≡◌, ◌<◌};
    ghost use Rattle.failsafe_io.specs.Timer.{started, expires, ticked};

    /// A watchdog that expires at this limit, in ticks, and that has counted `age` ticks, fewer than the limit.
    pub fn new(limit: u16, age: u16) -> Watchdog
        requires { age < limit }
        ensures limit { result.limit ≡ limit }
        ensures age { result.age ≡ age }
    {
        Watchdog { limit, age }
    }

    /// Counts from 0 again, up to this limit, in ticks and not 0.
    pub fn restart(&mut self, limit: u16)
        requires { 0 < limit }
        ensures { self.new ≡ started limit }
    {
        self.limit = limit;
        self.age = 0;
    }

    /// Counts a tick. Returns true if the age reached the limit with it; the age is then 0.
    pub fn tick(&mut self) -> bool
        ensures expired { result ≡ expires self.old }
        ensures counted { self.new ≡ ticked self.old }
    {
        if self.age + 1 == self.limit {
            self.age = 0;
            true
        } else {
            self.age += 1;
            false
        }
    }

    /// The ticks counted since the last start.
    pub fn age(&self) -> u16
        ensures value { result ≡ self.now.age }
        ensures below { result < self.now.limit }
    {
        self.age
    }
}
