//! A latch.
ghost use Rattle.std.specs.Prelude.{◌≡◌, false};
ghost use Rattle.fb_lib.specs.Steps.{next_latch};

/// Whether a latch is on.
#[derive(Drop)]
pub(crate) struct Latch {
    on: bool,
}

impl Latch {
    pub(crate) fn new() -> Latch
        ensures { result ≡ record { on = false } }
    {
        Latch { on: false }
    }

    /// Turns on where `set` is true, and stays on, while `enable` is true. Tells whether it is on.
    pub(crate) fn step(&mut self, set: bool, enable: bool) -> bool
        ensures next { self.new ≡ next_latch self.old set enable }
        ensures told { result ≡ self.new.on }
    {
        self.on = enable && (set || self.on);
        self.on
    }
}
