//! A net of function blocks.
ghost use Rattle.std.specs.Prelude.{◌≡◌, map, length};
ghost use Rattle.failsafe_io.specs.Application.{GuardsBy};
ghost use Rattle.fb_net.specs.Meaning.{net_holds, rule_of, guards_of, net_answer};
ghost use Rattle.fb_net.specs.Standing.{NetFollows, NetGives, KeepsPlan};

use crate::cycle::{drive_outputs, number_value, run_blocks};
use crate::fault::NetFault;
use crate::guards::is_output_guarded;
use crate::making::first_fault;
use crate::spec::{BlockSpec, Drive};
use failsafe_io::{Application, Bit};
use fsoe_base::Image;
use std::alloc::{Allocator, Global};
use std::marker::Model;

/// A net: blocks that are stepped in order in each cycle, and output bits that are driven. A cycle doesn't allocate.
#[derive(Drop)]
pub struct Net<M: Allocator = Global> {
    blocks: Vec<BlockSpec<M>, M>,
    drives: Vec<Drive, M>,
    values: [bool; 256],
}

impl<M: Allocator> Model for Net<M> {
    ghost use Rattle.std.specs.Prelude.{◌≤◌, length, take};
    ghost use Rattle.fb_net.specs.NetView.{NetView};
    ghost use Rattle.fb_net.specs.Standing.{CanRun};

    ghost Value = { NetView };

    ghost view = { λ n. record {
      blocks = n.blocks.items;
      drives = n.drives.items;
      values = take (length n.blocks.items) n.values;
    } };

    ghost invariant = { λ n. (length n.blocks.items ≤ 256) × CanRun n.blocks.items };
}

impl<M: Allocator> Net<M> {
    ghost use Rattle.std.specs.Prelude.{◌≡◌, ◌≤◌, [], IfOk, false, map, length, vec_len};
    ghost use Rattle.std.specs.List.{All};
    ghost use Rattle.std.specs.Result.{result_err};
    ghost use Rattle.fb_net.specs.Fault.{first_fault};
    ghost use Rattle.failsafe_io.specs.Bits.{at_number};
    ghost use Rattle.fb_net.specs.NetView.{new_net, plan};
    ghost use Rattle.fb_net.specs.New.{IsNew};
    ghost use Rattle.fb_net.specs.Standing.{CanRun, IsNewNet, ShowsValue};
    ghost use Rattle.fb_net.specs.Steps.{held_values, run_blocks, run_values};
    ghost use Rattle.fb_net.specs.Outputs.{driven_images};

    /// Creates a net of at most 256 blocks, which have had no cycle yet, and of drives. `ins` and `outs` are the
    /// lengths in bytes of the input and output images of each connection. The first fault is returned: first of the
    /// blocks in their order, each by its number of inputs and then wire by wire. Then of the drives in their order:
    /// the bit doesn't exist, an earlier drive sets it, or the wire is wrong. Doesn't allocate.
    pub fn new(
        blocks: Vec<BlockSpec<M>, M>,
        drives: Vec<Drive, M>,
        ins: &[u8],
        outs: &[u8],
    ) -> Result<Net<M>, NetFault>
        requires most { vec_len blocks ≤ 256 }
        requires new { All IsNew blocks.items }
        ensures first { result_err result ≡ first_fault ins.now outs.now blocks.items drives.items }
        ensures made { IfOk result (λ net. net ≡ new_net blocks.items drives.items) }
        ensures is_new { IfOk result (λ net. IsNewNet net) }
    {
        match first_fault(blocks.as_slice(), drives.as_slice(), ins, outs) {
            Some(fault) => Err(fault),
            None => Ok(Net::of_faultless(blocks, drives)),
        }
    }

    /// Creates a net of such blocks and drives, as `new` does, where `first_fault` found no fault. Doesn't allocate.
    pub fn of_faultless(blocks: Vec<BlockSpec<M>, M>, drives: Vec<Drive, M>) -> Net<M>
        requires most { vec_len blocks ≤ 256 }
        requires faultless { IsNewNet (new_net blocks.items drives.items) }
        ensures made { result ≡ new_net blocks.items drives.items }
        ensures is_new { IsNewNet result }
    {
        Net {
            blocks,
            drives,
            values: [false; 256],
        }
    }

    // A cycle in the machine's words, from which the rest follows.
    fn run(&mut self, ticked: bool, inputs: &[Image], outputs: &mut [Image])
        ensures can_run { CanRun self.old.blocks }
        ensures blocks { self.new.blocks
            ≡ run_blocks [] (record { ticked = ticked; inputs = inputs.now }) self.old.blocks }
        ensures drives { self.new.drives ≡ self.old.drives }
        ensures values { self.new.values
            ≡ run_values [] (record { ticked = ticked; inputs = inputs.now }) self.old.blocks }
        ensures outputs { outputs.new
            ≡ driven_images self.old.drives
            (run_values [] (record { ticked = ticked; inputs = inputs.now }) self.old.blocks)
            inputs.now (map length outputs.old) }
    {
        run_blocks(self.blocks.as_mut_slice(), ticked, inputs, &mut self.values);
        let values = &self.values[..self.blocks.len()];
        drive_outputs(self.drives.as_slice(), values, inputs, outputs);
    }

    /// The number of blocks, which are numbered from 1.
    pub fn blocks(&self) -> u16
        ensures { result ≡ length self.now.blocks }
    {
        self.blocks.len() as u16
    }

    /// Returns the value of a block in the last cycle, by its number from 1. It is false before the first cycle, and
    /// where there is no such block.
    #[tactic(auto, using(crate::proofs::Holding::values_back))]
    pub fn value(&self, block: u16) -> bool
        ensures shown { ShowsValue self.now block result }
        ensures held { result ≡ at_number (held_values (net_holds self.now)) block false }
    {
        number_value(&self.values[..self.blocks.len()], block)
    }
}

impl<M: Allocator> Application for Net<M> {
    ghost use Rattle.fb_net.specs.Meaning.{net_holds, rule_of, guards_of};

    ghost holds = { net_holds };

    ghost rule = { rule_of };

    ghost guards = { guards_of };

    /// Steps the blocks in order, then sets the driven bits whose wires read true, and makes every other bit 0.
    fn cycle(&mut self, ticked: bool, inputs: &[Image], outputs: &mut [Image])
        ensures answers { outputs.new
            ≡ (net_answer self.old ticked inputs.now (map length outputs.old)).outputs }
        ensures holds { net_holds self.new
            ≡ (net_answer self.old ticked inputs.now (map length outputs.old)).holds }
        ensures rule_stays { rule_of self.new ≡ rule_of self.old }
        ensures lengths { map length outputs.new ≡ map length outputs.old }
        ensures guarded { GuardsBy (guards_of self.old) inputs.now outputs.new }
        ensures guards_stay { guards_of self.new ≡ guards_of self.old }
        ensures gives { NetGives self.old (record { ticked = ticked; inputs = inputs.now })
            (map length outputs.old) outputs.new }
        ensures follows { NetFollows self.old
            (record { ticked = ticked; inputs = inputs.now }) self.new }
        ensures keeps { KeepsPlan self.old self.new }
    {
        self.run(ticked, inputs, outputs);
    }

    fn guards(&self, out: Bit, inp: Bit) -> bool {
        is_output_guarded(self.blocks.as_slice(), self.drives.as_slice(), out, inp)
    }
}
