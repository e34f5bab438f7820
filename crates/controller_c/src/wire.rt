//! Bits, wires and faults of a net, as C code names them.
ghost use Rattle.std.specs.Prelude.{◌≡◌, map, IfOk};
ghost use Rattle.controller_c.specs.Wire.{wire_of};

use crate::controller_room::InRegion;
use failsafe_io::Bit;
use fb_net::{NetFault, Wire, Wires};
use std::alloc::AllocError;

/// A bit of the safe data of a connection, which is numbered from 1.
#[repr(C)]
#[derive(Drop)]
pub struct GpBit {
    pub connection: u16,
    pub bit: u16,
}

/// What an input of a block or an output bit reads: the value of the block with this number if `connection` is 0, else
/// the input bit with this number of that connection.
#[repr(C)]
#[derive(Drop)]
pub struct GpWire {
    pub connection: u16,
    pub number: u16,
}

/// Where a net has a fault: at this block, where 0 stands for a drive, or at this bit of this connection. What doesn't
/// apply is 0.
#[repr(C)]
#[derive(Drop)]
pub struct GpFault {
    pub block: u16,
    pub connection: u16,
    pub bit: u16,
}

impl GpBit {
    ghost use Rattle.controller_c.specs.Wire.{named_bit};

    /// The bit that is named.
    pub(crate) fn named(&self) -> Bit
        ensures { result ≡ named_bit self.now }
    {
        Bit {
            link: self.connection,
            bit: self.bit,
        }
    }
}

impl GpWire {
    /// The wire that is named.
    pub(crate) fn named(&self) -> Wire
        ensures { result ≡ wire_of self.now }
    {
        if self.connection == 0 {
            return Wire::Block(self.number);
        }
        Wire::Input(Bit {
            link: self.connection,
            bit: self.number,
        })
    }
}

impl GpFault {
    ghost use Rattle.controller_c.specs.Wire.{fault_place};

    /// Says where this fault is.
    pub(crate) fn set(&mut self, fault: NetFault)
        ensures { self.new ≡ fault_place fault }
    {
        (self.block, self.connection, self.bit) = match fault {
            NetFault::Arity { block } | NetFault::Later { block } => (block, 0, 0),
            NetFault::NoInput { bit } | NetFault::NoOutput { bit } | NetFault::Twice { bit } => {
                (0, bit.link, bit.bit)
            }
            NetFault::Memory => (0, 0, 0),
        };
    }
}

/// The wires that are named.
pub(crate) fn wires_of(region: InRegion, named: &[GpWire]) -> Result<Wires<InRegion>, AllocError>
    ensures { IfOk result (λ wires. wires ≡ map wire_of named.now) }
{
    let mut wires = Vec::with_capacity(region, named.len())?;
    for wire in named {
        wires.push(wire.named())?;
    }
    Ok(Wires::new(wires))
}
