//! One cycle of a net.
ghost use Rattle.std.specs.Prelude.{◌≡◌, ◌≤◌, IsTrue, false, [], map, length, take};
ghost use Rattle.failsafe_io.specs.Bits.{at_number};
ghost use Rattle.fb_lib.specs.declared.kind.TheConstants.{MOST_INPUTS};
ghost use Rattle.fb_lib.specs.Kind.{takes_inputs};
ghost use Rattle.fb_net.specs.Values.{wire_value};
ghost use Rattle.fb_net.specs.Outputs.{driven_images};
ghost use Rattle.fb_net.specs.Standing.{CanRun};
ghost use Rattle.fb_net.specs.Steps.{block_after, given, run_values, run_blocks};

use crate::images::{bit_at, clear, set_bit};
use crate::spec::{BlockSpec, Drive};
use crate::wire::Wire;
use arrayvec::ArrayVec;
use fb_lib::MOST_INPUTS;
use fsoe_base::Image;
use std::alloc::Allocator;

/// What a wire reads, by the values of the blocks in their order.
pub(crate) fn wire_value(wire: Wire, inputs: &[Image], values: &[bool]) -> bool
    ensures { result ≡ wire_value values.now inputs.now wire }
{
    match wire {
        Wire::Input(bit) => bit_at(inputs, bit),
        Wire::Block(number) => number_value(values, number),
    }
}

/// The value of a block by its number from 1, false where there is none.
pub(crate) fn number_value(values: &[bool], number: u16) -> bool
    ensures { result ≡ at_number values.now number false }
{
    if number == 0 {
        return false;
    }
    let place = usize::from(number) - 1;
    place < values.len() && values[place]
}

/// What the wires of a block read.
fn read_wires(wires: &[Wire], inputs: &[Image], values: &[bool]) -> ArrayVec<bool, MOST_INPUTS>
    requires { length wires.now ≤ MOST_INPUTS }
    ensures { result.items ≡ map (wire_value values.now inputs.now) wires.now }
{
    let mut ins = ArrayVec::new();
    for wire in wires {
        ins.push(wire_value(*wire, inputs, values));
    }
    ins
}

/// Steps a block, and gives its value.
fn step_block<M: Allocator>(
    spec: &mut BlockSpec<M>,
    ticked: bool,
    inputs: &[Image],
    values: &[bool],
) -> bool
    requires { IsTrue (takes_inputs spec.old.block.kind (length spec.old.ins)) }
    ensures block_after { spec.new
        ≡ block_after values.now (record { ticked = ticked; inputs = inputs.now }) spec.old }
    ensures given { result
        ≡ given values.now (record { ticked = ticked; inputs = inputs.now }) spec.old }
{
    let ins = read_wires(spec.ins.list(), inputs, values);
    spec.block.step(ticked, ins.as_slice())
}

/// Steps the blocks in their order, and writes their values to the front of `values`.
pub(crate) fn run_blocks<M: Allocator>(
    blocks: &mut [BlockSpec<M>],
    ticked: bool,
    inputs: &[Image],
    values: &mut [bool],
)
    requires can_run { CanRun blocks.old }
    requires fits { length blocks.old ≤ length values.old }
    ensures blocks { blocks.new
        ≡ run_blocks [] (record { ticked = ticked; inputs = inputs.now }) blocks.old }
    ensures can_run { CanRun blocks.new }
    ensures values { take (length blocks.old) values.new
        ≡ run_values [] (record { ticked = ticked; inputs = inputs.now }) blocks.old }
{
    for i in 0..blocks.len() {
        values[i] = step_block(&mut blocks[i], ticked, inputs, &values[..i]);
    }
}

/// Sets the driven bits whose wires read true, and makes every other bit 0.
pub(crate) fn drive_outputs(
    drives: &[Drive],
    values: &[bool],
    inputs: &[Image],
    outputs: &mut [Image],
)
    ensures { outputs.new ≡ driven_images drives.now values.now inputs.now (map length outputs.old) }
{
    clear(outputs);
    for drive in drives {
        if wire_value(drive.from, inputs, values) {
            set_bit(outputs, drive.out);
        }
    }
}
