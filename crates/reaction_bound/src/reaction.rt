//! Whether a drive was switched off in time.
use std::marker::Model;

/// Finds the first tick at which a drive is on although its stop was pressed (its bit is 0) for `limit` ticks. Doesn't
/// allocate.
#[derive(Drop)]
pub struct Reaction {
    limit: u32,
    ticks: u64,
    quiet_from: Option<u64>,
    broken: Option<u64>,
}

impl Model for Reaction {
    ghost use Rattle.reaction_bound.specs.Kept.{ReactionView};

    ghost Value = { ReactionView };

    ghost view = { λ r. record { limit = r.limit; ticks = r.ticks; quiet_from = r.quiet_from; broken = r.broken } };
}

impl Reaction {
    ghost use Rattle.std.specs.Prelude.{◌≡◌, ◌<◌, ◌+◌, ◌^◌, ◌&&◌, ℕ, List, []};
    ghost use Rattle.exchange_model.specs.Other.{first_of_both};
    ghost use Rattle.reaction_bound.specs.Reaction.{Heard, Quiet, Tick, broken_of};
    ghost use Rattle.reaction_bound.specs.Kept.{Hears, is_long, view_of};

    /// Creates a reaction that observed nothing. The drive must be off at the `limit`-th tick after the stop was
    /// pressed.
    pub fn new(limit: u32) -> Reaction
        ensures { result ≡ view_of limit [] }
    {
        Reaction {
            limit,
            ticks: 0,
            quiet_from: None,
            broken: None,
        }
    }

    /// Sets whether the stop is pressed from now on. To set the same again changes nothing.
    #[tactic(auto, using(crate::proofs::Kept::broken_quiet))]
    pub fn quiet(&mut self, is: bool)
        ensures hears { Hears self.old (Quiet is) self.new }
        ensures ticks { self.new.ticks ≡ self.old.ticks }
    {
        if !is {
            self.quiet_from = None;
        } else if self.quiet_from.is_none() {
            self.quiet_from = Some(self.ticks);
        }
    }

    /// Notes a tick that ended with the drive on, or off. Fewer than 2^64 - 1 ticks were noted before.
    #[tactic(auto, using(crate::proofs::Kept::broken_tick))]
    pub fn tick(&mut self, on: bool)
        requires { self.old.ticks + 1 < 2 ^ 64 }
        ensures hears { Hears self.old (Tick on) self.new }
        ensures ticks { self.new.ticks ≡ self.old.ticks + 1 }
    {
        self.ticks += 1;
        if self.broken.is_none() && on && self.is_long() {
            self.broken = Some(self.ticks);
        }
    }

    /// Whether the stop was pressed for `limit` ticks, the newest one counted.
    fn is_long(&self) -> bool
        ensures { result ≡ is_long self.now.limit self.now.ticks self.now.quiet_from }
    {
        match self.quiet_from {
            // `from` is at most `ticks`: this is the number of ticks since the stop was pressed.
            Some(from) => self.ticks.saturating_sub(from) >= u64::from(self.limit),
            None => false,
        }
    }

    /// Returns the number, from 1, of the first late tick, or None if there is none. A tick is late if the drive is on,
    /// and at least `limit` ticks, itself counted, came since the stop was pressed, without a break.
    pub fn broken(&self) -> Option<u64>
        ensures { (limit : ℕ) (heard : List Heard) → self.now ≡ view_of limit heard → result ≡ broken_of limit heard }
    {
        self.broken
    }
}
