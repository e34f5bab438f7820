//! An emergency stop.
ghost use Rattle.std.specs.Prelude.{◌≡◌, false};
ghost use Rattle.fb_lib.specs.Steps.{next_estop};

/// Whether an emergency stop is on, and what `ack` was in the last cycle.
#[derive(Drop)]
pub(crate) struct Estop {
    on: bool,
    ack: bool,
}

impl Estop {
    pub(crate) fn new() -> Estop
        ensures { result ≡ record { on = false; ack = false } }
    {
        Estop {
            on: false,
            ack: false,
        }
    }

    /// Turns on where `ack` rises, and stays on, while `input` is true. Tells whether it is on.
    pub(crate) fn step(&mut self, input: bool, ack: bool) -> bool
        ensures next { self.new ≡ next_estop self.old input ack }
        ensures told { result ≡ self.new.on }
    {
        let rises = ack && !self.ack;
        self.ack = ack;
        self.on = input && (rises || self.on);
        self.on
    }
}
