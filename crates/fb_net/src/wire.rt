//! Where a value comes from.
ghost use Rattle.std.specs.Prelude.{◌≡◌};

use failsafe_io::Bit;
use std::alloc::{Allocator, Global};
use std::marker::Model;

/// What a block's input or an output bit reads.
#[derive(Clone, Copy, PartialEq, Eq)]
pub enum Wire {
    /// A bit of the inputs.
    Input(Bit),
    /// The value of a block in this cycle. Blocks are numbered from 1.
    Block(u16),
}

/// The wires of a block's inputs, in their order. Contracts see it as a list.
#[derive(Drop)]
pub struct Wires<M: Allocator = Global> {
    ins: Vec<Wire, M>,
}

impl<M: Allocator> Model for Wires<M> {
    ghost use Rattle.std.specs.Prelude.{List};
    ghost use Rattle.fb_net.specs.declared.wire.Wire.{Wire};

    ghost Value = { List Wire };

    ghost view = { λ w. w.ins.items };
}

impl<M: Allocator> Wires<M> {
    /// These wires.
    pub fn new(ins: Vec<Wire, M>) -> Wires<M>
        ensures { result ≡ ins.items }
    {
        Wires { ins }
    }

    /// The wires.
    pub fn list(&self) -> &[Wire]
        ensures { result.now ≡ self.now }
    {
        self.ins.as_slice()
    }
}
