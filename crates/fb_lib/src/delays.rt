//! The two delays, and how a count of ticks rises.
ghost use Rattle.std.specs.Prelude.{◌≡◌};
ghost use Rattle.fb_lib.specs.Steps.{risen, on_age, on_told, off_left, off_told};

/// A count of ticks after one more cycle. It stays at 65,535.
pub(crate) fn risen(count: u16, ticked: bool) -> u16
    ensures { result ≡ risen count ticked }
{
    if ticked {
        count.saturating_add(1)
    } else {
        count
    }
}

/// How many ticked cycles, up to `n`, the input has been true.
#[derive(Drop)]
pub(crate) struct OnDelay {
    age: u16,
}

impl OnDelay {
    pub(crate) fn new() -> OnDelay
        ensures { result.age ≡ 0 }
    {
        OnDelay { age: 0 }
    }

    /// Tells whether the input has been true for at least `n` ticked cycles.
    pub(crate) fn step(&mut self, n: u16, ticked: bool, x: bool) -> bool
        ensures age { self.new.age ≡ on_age n self.old.age ticked x }
        ensures told { result ≡ on_told n self.new.age x }
    {
        if !x {
            self.age = 0;
            return false;
        }
        if ticked && self.age < n {
            self.age += 1;
        }
        self.age >= n
    }
}

/// After how many more ticked cycles the output is false; in the last of them it is.
#[derive(Drop)]
pub(crate) struct OffDelay {
    left: u16,
}

impl OffDelay {
    pub(crate) fn new() -> OffDelay
        ensures { result.left ≡ 0 }
    {
        OffDelay { left: 0 }
    }

    /// Tells whether the input is true, or was and fewer than `n` cycles since are ticked.
    pub(crate) fn step(&mut self, n: u16, ticked: bool, x: bool) -> bool
        ensures left { self.new.left ≡ off_left n self.old.left ticked x }
        ensures told { result ≡ off_told self.new.left x }
    {
        if x {
            self.left = n;
            return true;
        }
        if ticked && self.left > 0 {
            self.left -= 1;
        }
        self.left > 0
    }
}
