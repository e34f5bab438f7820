//! Which output bits of a net are guarded by which input bits, by cases on the blocks. A guarded bit is 0 whenever its
//! input bit is; not every such bit is guarded.
ghost use Rattle.std.specs.Prelude.{◌≡◌, ◌≤◌, false, not, ◌||◌, map, length, get_or};
ghost use Rattle.std.specs.List.{list_all, list_any};
ghost use Rattle.fb_lib.specs.Guarded.{is_guarded};
ghost use Rattle.failsafe_io.specs.Bits.{is_same_bit};
ghost use Rattle.fb_net.specs.NetView.{plan};
ghost use Rattle.fb_net.specs.Guarded.{is_wire_guarded, guarded_blocks, is_output_guarded};

use crate::cycle::number_value;
use crate::spec::{BlockSpec, Drive};
use crate::wire::Wire;
use arrayvec::ArrayVec;
use failsafe_io::Bit;
use fb_lib::BlockKind;
use std::alloc::Allocator;

pub(crate) fn is_same_bit(a: Bit, b: Bit) -> bool
    ensures { result ≡ is_same_bit a b }
{
    a.link == b.link && a.bit == b.bit
}

/// Whether a wire is guarded by an input bit, where `guarded` tells which blocks are.
fn is_wire_guarded(wire: Wire, inp: Bit, guarded: &[bool]) -> bool
    ensures { result ≡ is_wire_guarded inp guarded.now wire }
{
    match wire {
        Wire::Input(bit) => is_same_bit(bit, inp),
        Wire::Block(number) => number_value(guarded, number),
    }
}

fn all_guarded(wires: &[Wire], inp: Bit, guarded: &[bool]) -> bool
    ensures { result ≡ list_all (is_wire_guarded inp guarded.now) wires.now }
{
    wires
        .iter()
        .all(|wire| is_wire_guarded(*wire, inp, guarded))
}

fn any_guarded(wires: &[Wire], inp: Bit, guarded: &[bool]) -> bool
    ensures { result ≡ list_any (is_wire_guarded inp guarded.now) wires.now }
{
    wires
        .iter()
        .any(|wire| is_wire_guarded(*wire, inp, guarded))
}

/// Whether the wire of this input is guarded.
fn is_input_guarded(wires: &[Wire], place: usize, inp: Bit, guarded: &[bool]) -> bool
    ensures { result ≡ get_or (map (is_wire_guarded inp guarded.now) wires.now) place false }
{
    place < wires.len() && is_wire_guarded(wires[place], inp, guarded)
}

/// Whether a block of this kind is guarded, by its wires.
fn is_guarded(kind: BlockKind, wires: &[Wire], inp: Bit, guarded: &[bool]) -> bool
    ensures { result ≡ is_guarded kind (map (is_wire_guarded inp guarded.now) wires.now) }
{
    match kind {
        BlockKind::Const0 => true,
        BlockKind::Const1 | BlockKind::OffDelay => false,
        BlockKind::And => any_guarded(wires, inp, guarded),
        BlockKind::Or => all_guarded(wires, inp, guarded),
        BlockKind::Latch => is_input_guarded(wires, 1, inp, guarded),
        BlockKind::Estop | BlockKind::OnDelay | BlockKind::Feedback => {
            is_input_guarded(wires, 0, inp, guarded)
        }
        BlockKind::TwoHand => {
            is_input_guarded(wires, 0, inp, guarded) || is_input_guarded(wires, 1, inp, guarded)
        }
    }
}

/// Which blocks, of at most 256, are guarded by an input bit.
fn guarded_blocks<M: Allocator>(blocks: &[BlockSpec<M>], inp: Bit) -> ArrayVec<bool, 256>
    requires { length blocks.now ≤ 256 }
    ensures { result.items ≡ guarded_blocks inp (plan blocks.now) }
{
    let mut guarded = ArrayVec::new();
    for i in 0..blocks.len() {
        let spec = &blocks[i];
        let this = is_guarded(spec.block.kind(), spec.ins.list(), inp, guarded.as_slice());
        guarded.push(this);
    }
    guarded
}

/// Whether no drive sets this output bit, or only drives whose wires are guarded.
fn are_drives_guarded(drives: &[Drive], out: Bit, inp: Bit, guarded: &[bool]) -> bool
    ensures { result
        ≡ list_all (λ d. not (is_same_bit d.out out) || is_wire_guarded inp guarded.now d.from) drives.now }
{
    drives.iter().all(|drive| !is_same_bit(drive.out, out)
        || is_wire_guarded(drive.from, inp, guarded))
}

/// Whether an output bit is guarded by an input bit, in a net of at most 256 blocks.
pub(crate) fn is_output_guarded<M: Allocator>(
    blocks: &[BlockSpec<M>],
    drives: &[Drive],
    out: Bit,
    inp: Bit,
) -> bool
    requires { length blocks.now ≤ 256 }
    ensures { result ≡ is_output_guarded (plan blocks.now) drives.now out inp }
{
    let guarded = guarded_blocks(blocks, inp);
    are_drives_guarded(drives, out, inp, guarded.as_slice())
}
