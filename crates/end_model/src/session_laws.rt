//! What holds of the frames of a session in all runs. The calls do nothing: each law is a contract.

ghost use Rattle.std.specs.Prelude.{◌≡◌, ◌≢◌, ◌<◌, ◌≤◌, ℕ, ◌%◌, List, [], ◌∷◌, length, Some, None};
ghost use Rattle.fsoe_base.specs.declared.command.Command.{Command};
ghost use Rattle.fsoe_base.specs.declared.command.Command.TheVariants as command;
ghost use Rattle.fsoe_base.specs.declared.command.State.TheVariants as state;
ghost use Rattle.fsoe_base.specs.declared.did.Dropped.TheVariants as why;
ghost use Rattle.fsoe_base.specs.Did.{dropped};
ghost use Rattle.fsoe_base.specs.Lengths.{frame_len};
ghost use Rattle.param_load.specs.declared.entry.Move.TheVariants as move;
ghost use Rattle.param_load.specs.declared.master_settings.MasterSettings.{MasterSettings};
ghost use Rattle.param_load.specs.declared.slave_settings.SlaveSettings.{SlaveSettings};
ghost use Rattle.param_load.specs.Profile.{id_len};
ghost use Rattle.end_model.specs.Chain.{since, own, taken, kept};
ghost use Rattle.end_model.specs.Setup.{Setup, OfMaster, OfSlave, sends, receives, piece_len};
ghost use Rattle.end_model.specs.Deed.{Deed};
ghost use Rattle.end_model.specs.Neighbours.{NeighboursDiffer};
ghost use Rattle.end_model.specs.Payloads.{session_id};
ghost use Rattle.end_model.specs.Readiness.{state_of};
ghost use Rattle.end_model.specs.Verdict.{Valid, verdict};
ghost use Rattle.end_model.specs.Step.{step};
ghost use Rattle.end_model.specs.Runs.{IsRun};
ghost use Rattle.end_model.specs.Again.{LeavesEnd, once_more};
ghost use Rattle.end_model.specs.FreshIds.{DifferInFront, NotByStep, EndsByCrcs};
ghost use Rattle.end_model.specs.WorkedRuns.{IdsByStep};

/// In every run of an end two frames that it sends after one another in a session have different CRC_0.
#[tactic(auto, using(crate::proofs::Neighbours::neighbours))]
pub fn consecutive()
    ensures { (s : Setup) (e : List Deed) → IsRun s e → NeighboursDiffer (sends s) (own (since e)) }
{}

/// A frame whose bytes are those of the last accepted frame is never taken: it is dropped, as a repeat if it has the
/// length of the peer's frames.
#[tactic(auto, using(crate::proofs::Repeats::never_again, crate::proofs::Repeats::repeat_dropped))]
pub fn no_repeat()
    ensures never_taken { (s : Setup) (e : List Deed) (bytes : List ℕ) → kept (since e) ≡ Some bytes → (step s e (move.Deliver bytes)).did.took ≡ None }
    ensures dropped { (s : Setup) (e : List Deed) (bytes : List ℕ) → length bytes ≡ frame_len (receives s) → kept (since e) ≡ Some bytes → (step s e (move.Deliver bytes)).did ≡ dropped why.Repeat }
{}

/// Bytes that came twice to an end with nothing in between leave it as it is when they come again, in every state and
/// whatever they are: its state, its outputs and its age stay. It sends nothing then, with one exception: a slave in
/// state Reset takes a Reset frame each time that it comes, and answers it with the same Reset frame. So an end may be
/// handed the bytes of an image in every cycle.
pub fn again()
    ensures { (s : Setup) (e : List Deed) (bytes : List ℕ) → IsRun s e → LeavesEnd s (step s (once_more s bytes (once_more s bytes e)) (move.Deliver bytes)) (once_more s bytes (once_more s bytes e)) }
{}

/// What a fresh session id excludes at a slave. Let two of its sessions have begun with the same Session frame, and
/// have taken no other frame yet. Let a frame of a session come that one of them would take next, as it took an old
/// frame. The other refuses it with code 04h, if their ids differ in their low 16 bits (low 8 if a length is 1), and
/// the exclusive-or of these isn't 9985h.
pub fn old_frames()
    ensures { (ss : SlaveSettings) (e e' : List Deed) (first bytes load : List ℕ) (c : Command) → IsRun (OfSlave ss) e → IsRun (OfSlave ss) e' → taken (since e) ≡ first ∷ [] → taken (since e') ≡ first ∷ [] → DifferInFront (OfSlave ss) (session_id (OfSlave ss) e) (session_id (OfSlave ss) e') → NotByStep (OfSlave ss) (session_id (OfSlave ss) e) (session_id (OfSlave ss) e') → c ≢ command.Reset → verdict (OfSlave ss) e bytes ≡ Valid c load → EndsByCrcs (OfSlave ss) e' bytes }
{}

/// The frame of a session that a slave takes next after its first Session frame. It is the first Connection frame if a
/// piece has room for the whole session id, else the second Session frame.
pub fn after_first()
    ensures connection { (ss : SlaveSettings) (e : List Deed) (first bytes load : List ℕ) (c : Command) → IsRun (OfSlave ss) e → taken (since e) ≡ first ∷ [] → id_len ss.profile ≤ piece_len (OfSlave ss) → c ≢ command.Reset → verdict (OfSlave ss) e bytes ≡ Valid c load → c ≡ command.Connection }
    ensures session { (ss : SlaveSettings) (e : List Deed) (first bytes load : List ℕ) (c : Command) → IsRun (OfSlave ss) e → taken (since e) ≡ first ∷ [] → piece_len (OfSlave ss) < id_len ss.profile → c ≢ command.Reset → verdict (OfSlave ss) e bytes ≡ Valid c load → c ≡ command.Session }
{}

/// The exclusive-or of two session ids, in the part that the first group of a frame carries, isn't 9985h if both are
/// even or both are odd. If a length is 1 it never is, since the group carries 8 bits.
#[tactic(auto, using(crate::proofs::IdFront::even_not_by_step, crate::proofs::IdFront::byte_not_by_step))]
pub fn never_by_step()
    ensures even { (s : Setup) (id id' : ℕ) → id % 2 ≡ id' % 2 → NotByStep s id id' }
    ensures one_byte { (s : Setup) (id id' : ℕ) → piece_len s ≡ 1 → NotByStep s id id' }
{}

/// That condition is needed: two slaves with ids of exclusive-or 9985h take the same Connection frame after the same
/// Session frame.
#[tactic(auto, using(crate::proofs::WorkedRuns::ids_by_step))]
pub fn condition_is_needed()
    ensures { IdsByStep }
{}

/// What a fresh session id excludes at a master. In two sessions let a master have sent its first Session frame and
/// taken no answer yet. Let a frame of a session come that one of them would take as this answer, as it took an old
/// one. The other refuses it with code 04h, if their session ids differ in their low 16 bits (low 8 if a length is 1).
pub fn old_answers()
    ensures { (ms : MasterSettings) (e e' : List Deed) (bytes load : List ℕ) (c : Command) → IsRun (OfMaster ms) e → IsRun (OfMaster ms) e' → state_of (OfMaster ms) e ≡ state.Session → state_of (OfMaster ms) e' ≡ state.Session → taken (since e) ≡ [] → taken (since e') ≡ [] → DifferInFront (OfMaster ms) (session_id (OfMaster ms) e) (session_id (OfMaster ms) e') → c ≢ command.Reset → verdict (OfMaster ms) e bytes ≡ Valid c load → EndsByCrcs (OfMaster ms) e' bytes }
{}
