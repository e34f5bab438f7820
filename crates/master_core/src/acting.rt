//! An event at a master, whichever it is.
ghost use Rattle.std.specs.Prelude.{◌≡◌, false};
ghost use Rattle.param_load.specs.MoveRef.{owned_move};
ghost use Rattle.end_model.specs.Setup.{OfMaster};
ghost use Rattle.end_model.specs.Runs.{IsProper};
ghost use Rattle.master_core.specs.Now.{is_due};
ghost use Rattle.master_core.specs.Standing.{Follows, Answers};

use crate::master::Master;
use param_load::{Answer, MoveRef};

impl Master {
    /// Lets this event happen. Writes what the master did, and the frame to send, over `answer`.
    #[tactic(auto, using(crate::proofs::Law::set_answers))]
    #[inline(always)]
    pub fn act(&mut self, event: MoveRef<'_>, answer: &mut Answer)
        requires proper { IsProper (OfMaster self.old.kit.settings) (owned_move event) }
        requires rest { is_due self.old.state ≡ false }
        ensures follows { Follows self.old (owned_move event.entry) self.new }
        ensures answers { Answers self.old (owned_move event.entry) answer.new.did answer.new.sent }
        ensures settings { self.new.kit.settings ≡ self.old.kit.settings }
        ensures rest { is_due self.new.state ≡ false }
    {
        match event {
            MoveRef::Deliver(frame) => self.deliver_into(frame, &mut answer.did, &mut answer.sent),
            MoveRef::Tick => self.tick_into(&mut answer.did, &mut answer.sent),
            MoveRef::Local => answer.did = self.reset(&mut answer.sent),
            MoveRef::Put(load) => {
                self.put(load);
                answer.clear();
            }
            MoveRef::Hold(failsafe) => {
                self.hold(failsafe);
                answer.clear();
            }
            MoveRef::Nonce(id) => {
                self.nonce(id);
                answer.clear();
            }
        }
    }
}
