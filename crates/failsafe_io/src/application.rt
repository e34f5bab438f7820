//! What decides the outputs of all connections.
ghost use Rattle.std.specs.Prelude.{◌≡◌, ℕ, Bool, List, map, length};
ghost use Rattle.failsafe_io.specs.declared.bit.Bit.{Bit};
ghost use Rattle.failsafe_io.specs.Application.{Answer, GuardsBy};

use crate::bit::Bit;
use fsoe_base::Image;

/// Decides the outputs of all connections from their inputs, once in each cycle.
pub trait Application: Drop {
    // What it holds between cycles.
    ghost holds: { Self → List ℕ };

    // The answer of a cycle, by what is held before it, whether it is ticked, the inputs, and the lengths of the
    // outputs.
    ghost rule: { Self → List ℕ → Bool → List (List ℕ) → List ℕ → Answer };

    // Which output bits it guards by which input bits: a guarded bit is 0 whenever the input bit is.
    ghost guards: { Self → Bit → Bit → Bool };

    /// One cycle: each output image becomes the answer to the inputs and keeps its length. `ticked` says whether the
    /// cycle counts as one unit of time. There may be any number of images, of any lengths.
    fn cycle(&mut self, ticked: bool, inputs: &[Image], outputs: &mut [Image])
        ensures answers { outputs.new ≡ (rule self.old (holds self.old) ticked inputs.now (map length outputs.old)).outputs }
        ensures holds { holds self.new ≡ (rule self.old (holds self.old) ticked inputs.now (map length outputs.old)).holds }
        ensures rule_stays { rule self.new ≡ rule self.old }
        ensures lengths { map length outputs.new ≡ map length outputs.old }
        ensures guarded { GuardsBy (guards self.old) inputs.now outputs.new }
        ensures guards_stay { guards self.new ≡ guards self.old };

    /// Returns true only if the output bit is 0 after each cycle in which the input bit is 0; false promises nothing.
    /// An input bit that doesn't exist counts as 0, and an output bit that doesn't exist is ignored.
    fn guards(&self, out: Bit, inp: Bit) -> bool
        ensures { result ≡ guards self.now out inp };
}

impl Application for Box<dyn Application> {
    ghost holds = { λ b. (Application-box b).holds b.value };

    ghost rule = { λ b. (Application-box b).rule b.value };

    ghost guards = { λ b. (Application-box b).guards b.value };

    fn cycle(&mut self, ticked: bool, inputs: &[Image], outputs: &mut [Image]) {
        (**self).cycle(ticked, inputs, outputs)
    }

    fn guards(&self, out: Bit, inp: Bit) -> bool {
        (**self).guards(out, inp)
    }
}
