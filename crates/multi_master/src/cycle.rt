//! All masters tick, and the results of a cycle are put.
ghost use Rattle.std.specs.Prelude.{◌≡◌, ◌≤◌, false, length, map, All};
ghost use Rattle.master_core.specs.Now.{is_due};
ghost use Rattle.multi_master.specs.Standing.{due_in, own_len, settings_in, AreNumbers};
ghost use Rattle.multi_master.specs.Calls.{app_view};
ghost use Rattle.multi_master.specs.Puts.{PutsAnswer, PutsEach, RunsCycle, TicksOne, TicksEach};

use crate::making::{Connections, MOST_LINKS};
use arrayvec::ArrayVec;
use failsafe_io::Application;
use fsoe_base::{Did, FrameBuf, Image};
use master_core::Master;
use std::alloc::Allocator;

/// Puts a result as the offer of a master if it isn't the offer already. Returns true if it wasn't.
fn put_answer(master: &mut Master, answer: &[u8]) -> bool
    requires { length answer.now ≡ own_len master.old }
    ensures { PutsAnswer master.old answer.now master.new result }
{
    if master.offer() == answer {
        return false;
    }
    master.put(answer);
    true
}

/// Puts each result as the offer of its master if it isn't already, and lists the connections where it wasn't.
fn put_answers(masters: &mut [Master], answers: &[Image], changed: &mut ArrayVec<u16, MOST_LINKS>)
    requires fits { map length answers.now ≡ map own_len masters.old }
    requires most { length masters.old ≤ MOST_LINKS }
    ensures puts { PutsEach 1 masters.old answers.now masters.new changed.new.items }
    ensures numbers { AreNumbers (length masters.new) changed.new.items }
    ensures settings { map settings_in masters.new ≡ map settings_in masters.old }
    ensures due { map due_in masters.new ≡ map due_in masters.old }
{
    changed.clear();
    for i in 0..masters.len() {
        if put_answer(&mut masters[i], answers[i].bytes()) {
            changed.push(i as u16 + 1);
        }
    }
}

impl<M: Allocator> Connections<M> {
    /// Runs one cycle of the application over the inputs, and puts its results as the offers of the masters. The
    /// connections with a changed offer are listed.
    pub(crate) fn run_cycle<A: Application>(&mut self, app: &mut A, ticked: bool)
        requires fits { map length self.old.answers.items ≡ map own_len self.old.masters.items }
        requires most { length self.old.masters.items ≤ MOST_LINKS }
        ensures runs { let view = app_view A.rule A.holds A.guards in RunsCycle (view app.old) ticked self.new.inputs.items self.old.masters.items (view app.new) self.new.masters.items self.new.changed.items }
        ensures numbers { AreNumbers (length self.new.masters.items) self.new.changed.items }
        ensures fit { map length self.new.answers.items ≡ map own_len self.new.masters.items }
        ensures long { length self.new.masters.items ≡ length self.old.masters.items }
        ensures inputs { self.new.inputs.items ≡ self.old.inputs.items }
        ensures settings { map settings_in self.new.masters.items ≡ map settings_in self.old.masters.items }
        ensures due { map due_in self.new.masters.items ≡ map due_in self.old.masters.items }
    {
        app.cycle(ticked, self.inputs.as_slice(), self.answers.as_mut_slice());
        put_answers(
            self.masters.as_mut_slice(),
            self.answers.as_slice(),
            &mut self.changed,
        );
    }
}

/// Counts a tick at a master, and reads its outputs if its session ended.
fn tick_one(master: &mut Master, input: &mut Image, did: &mut Did, out: &mut FrameBuf)
    requires { is_due master.old.state ≡ false }
    ensures { TicksOne master.old input.old master.new input.new did.new out.new }
{
    master.tick_into(did, out);
    if did.reset.is_some() {
        input.set(master.outputs());
    }
}

/// Counts a tick at each master, and writes its result and its frame, empty if it sent none, to its places. Outputs are
/// read only where a session ended, since a tick changes no others.
pub(crate) fn tick_all(
    masters: &mut [Master],
    inputs: &mut [Image],
    outs: &mut [FrameBuf],
    dids: &mut [Did],
)
    requires rest { All (λ m. due_in m ≡ false) masters.old }
    requires inputs { length inputs.old ≡ length masters.old }
    requires outs { length outs.old ≡ length masters.old }
    requires dids { length dids.old ≡ length masters.old }
    ensures ticks { TicksEach masters.old inputs.old masters.new inputs.new dids.new outs.new }
    ensures settings { map settings_in masters.new ≡ map settings_in masters.old }
    ensures rest { All (λ m. due_in m ≡ false) masters.new }
{
    for i in 0..masters.len() {
        tick_one(&mut masters[i], &mut inputs[i], &mut dids[i], &mut outs[i]);
    }
}
