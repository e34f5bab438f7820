//! What is wrong with a net that is to be made.
ghost use Rattle.std.specs.Prelude.{◌≡◌, ◌≤◌, ◌<◌, [], length, None};
ghost use Rattle.std.specs.List.{All, list_any};
ghost use Rattle.failsafe_io.specs.Bits.{has_bit, is_same_bit};
ghost use Rattle.fb_net.specs.Fault.{wire_fault, wires_fault, block_fault, blocks_fault, drive_fault, drives_fault, first_fault};
ghost use Rattle.fb_net.specs.NetView.{new_net};
ghost use Rattle.fb_net.specs.New.{IsNew};
ghost use Rattle.fb_net.specs.Standing.{IsNewNet};

use crate::fault::NetFault;
use crate::guards::is_same_bit;
use crate::spec::{BlockSpec, Drive};
use crate::wire::Wire;
use failsafe_io::Bit;
use std::alloc::Allocator;

/// Whether images of these lengths, in bytes, of connections from 1 on, have this bit.
pub fn has_bit(lens: &[u8], bit: Bit) -> bool
    ensures { result ≡ has_bit lens.now bit }
{
    if bit.link == 0 {
        return false;
    }
    let place = usize::from(bit.link) - 1;
    if place >= lens.len() {
        return false;
    }
    bit.bit < 8 * u16::from(lens[place])
}

/// What is wrong with a wire of the block with this number, which may read the blocks before.
fn wire_fault(wire: Wire, ins: &[u8], before: u16, number: u16) -> Option<NetFault>
    ensures { result ≡ wire_fault ins.now before number wire }
{
    match wire {
        Wire::Input(bit) if has_bit(ins, bit) => None,
        Wire::Input(bit) => Some(NetFault::NoInput { bit }),
        Wire::Block(k) if 1 <= k && k <= before => None,
        Wire::Block(_) => Some(NetFault::Later { block: number }),
    }
}

/// What is wrong with the first of these wires that has a fault.
fn wires_fault(wires: &[Wire], ins: &[u8], before: u16, number: u16) -> Option<NetFault>
    ensures { result ≡ wires_fault ins.now before number wires.now }
{
    for wire in wires {
        let fault = wire_fault(*wire, ins, before, number);
        if fault.is_some() {
            return fault;
        }
    }
    None
}

/// What is wrong with a block that has so many blocks before it.
fn block_fault<M: Allocator>(spec: &BlockSpec<M>, ins: &[u8], before: u16) -> Option<NetFault>
    requires { before < 256 }
    ensures { result ≡ block_fault ins.now before spec.now }
{
    let wires = spec.ins.list();
    if spec.block.takes(wires.len()) {
        wires_fault(wires, ins, before, before + 1)
    } else {
        Some(NetFault::Arity { block: before + 1 })
    }
}

/// What is wrong with the first block that has a fault.
fn blocks_fault<M: Allocator>(blocks: &[BlockSpec<M>], ins: &[u8]) -> Option<NetFault>
    requires { length blocks.now ≤ 256 }
    ensures { result ≡ blocks_fault ins.now 0 blocks.now }
{
    for (before, spec) in blocks.iter().enumerate() {
        let fault = block_fault(spec, ins, before as u16);
        if fault.is_some() {
            return fault;
        }
    }
    None
}

/// Whether one of these drives sets this bit.
fn is_driven(drives: &[Drive], out: Bit) -> bool
    ensures { result ≡ list_any (λ x. is_same_bit x.out out) drives.now }
{
    drives.iter().any(|drive| is_same_bit(drive.out, out))
}

/// What is wrong with a drive after these ones, in a net of so many blocks.
fn drive_fault(
    drive: Drive,
    earlier: &[Drive],
    ins: &[u8],
    outs: &[u8],
    count: u16,
) -> Option<NetFault>
    ensures { result ≡ drive_fault ins.now outs.now count earlier.now drive }
{
    if !has_bit(outs, drive.out) {
        return Some(NetFault::NoOutput { bit: drive.out });
    }
    if is_driven(earlier, drive.out) {
        return Some(NetFault::Twice { bit: drive.out });
    }
    wire_fault(drive.from, ins, count, 0)
}

/// What is wrong with the first drive that has a fault.
fn drives_fault(drives: &[Drive], ins: &[u8], outs: &[u8], count: u16) -> Option<NetFault>
    ensures { result ≡ drives_fault ins.now outs.now count [] drives.now }
{
    for (before, drive) in drives.iter().enumerate() {
        let fault = drive_fault(*drive, &drives[..before], ins, outs, count);
        if fault.is_some() {
            return fault;
        }
    }
    None
}

/// The first fault of a net of at most 256 blocks, with input and output images of these lengths in bytes, as `Net::new`
/// returns it. Without one, there is such a net.
pub fn first_fault<M: Allocator>(
    blocks: &[BlockSpec<M>],
    drives: &[Drive],
    ins: &[u8],
    outs: &[u8],
) -> Option<NetFault>
    requires { length blocks.now ≤ 256 }
    ensures first { result ≡ first_fault ins.now outs.now blocks.now drives.now }
    ensures none { result ≡ None → All IsNew blocks.now → IsNewNet (new_net blocks.now drives.now) }
{
    let fault = blocks_fault(blocks, ins);
    if fault.is_some() {
        return fault;
    }
    drives_fault(drives, ins, outs, blocks.len() as u16)
}
