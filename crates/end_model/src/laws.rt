//! What holds of the definitions. The calls do nothing: each law is a contract.

ghost use Rattle.std.specs.Prelude.{◌≡◌, ◌≢◌, ◌<◌, ◌≤◌, ℕ, nat_le, true, not, List, ◌∷◌, ◌++◌, length, All, Some};
ghost use Rattle.fsoe_base.specs.declared.command.State.TheVariants as state;
ghost use Rattle.param_load.specs.declared.entry.Move.{Move};
ghost use Rattle.fsoe_base.specs.declared.command.Code.{Code};
ghost use Rattle.fsoe_base.specs.declared.command.Command.{Command};
ghost use Rattle.fsoe_base.specs.declared.command.Command.TheVariants as command;
ghost use Rattle.fsoe_base.specs.declared.did.Cause.TheVariants as cause;
ghost use Rattle.fsoe_base.specs.Did.{at_most_one};
ghost use Rattle.fsoe_base.specs.Command.{command_byte};
ghost use Rattle.fsoe_frame.specs.Parts.{frame_of};
ghost use Rattle.seq_chain.specs.Numbers.{last_crc};
ghost use Rattle.seq_chain.specs.Sealing.{sealed};
ghost use Rattle.end_model.specs.Chain.{own, taken, newest_crc, own_link, taken_link, seal};
ghost use Rattle.end_model.specs.Setup.{Setup, OfSlave, sends, receives};
ghost use Rattle.end_model.specs.Phases.{has_command};
ghost use Rattle.end_model.specs.Deed.{Deed, is_empty};
ghost use Rattle.param_load.specs.declared.contents.Expected.TheVariants as expected;
ghost use Rattle.param_load.specs.declared.slave_settings.SlaveSettings.{SlaveSettings};
ghost use Rattle.param_load.specs.AppRule.{rule_len};
ghost use Rattle.param_load.specs.Contents.{expected_len};
ghost use Rattle.end_model.specs.Payloads.{uploaded, whole};
ghost use Rattle.end_model.specs.Readiness.{state_of, age, limit, upload_is_whole};
ghost use Rattle.end_model.specs.Outputs.{zeros, outputs, out};
ghost use Rattle.end_model.specs.Step.{step, run, continued};
ghost use Rattle.end_model.specs.Runs.{IsProper, IsRun};
ghost use Rattle.end_model.specs.Reactions.{HasNoSession, IsReaction};
ghost use Rattle.end_model.specs.Codes.{IsOwnReset};
ghost use Rattle.end_model.specs.WorkedRuns.{FirstTick, MasterHandshake, MasterStepsNumber, MasterIsReset, SlaveHandshake, SlaveExpires, SlaveGoesOn, SlaveRefusesOldFrame, SlaveResetItself, WrongAddress, WrongWatchdog, WrongParameters, LongSessionIds, MasterOfOtherProfile, QuietInReset, QuietAtItsLimit, SlaveTestsInOrder, MasterTestsInOrder, IdSetLater, OutlastsReset, SlaveExpiresInParameter, SlaveExpiresInSession, SlaveTestsConnection, MasterContents, OldFrames};

/// Worked runs of a master: each line of its report, with its state, its outputs and the frame that it sent.
#[tactic(auto, using(crate::proofs::WorkedRuns::master_runs))]
pub fn worked_master_runs()
    ensures first_tick { FirstTick }
    ensures handshake { MasterHandshake }
    ensures steps_number { MasterStepsNumber }
    ensures is_reset { MasterIsReset }
{}

/// Worked runs of a slave, in the same way.
#[tactic(auto, using(crate::proofs::WorkedRuns::slave_runs))]
pub fn worked_slave_runs()
    ensures handshake { SlaveHandshake }
    ensures expires { SlaveExpires }
    ensures goes_on { SlaveGoesOn }
    ensures refuses_old_frame { SlaveRefusesOldFrame }
    ensures reset_itself { SlaveResetItself }
    ensures quiet_in_reset { QuietInReset }
    ensures quiet_at_its_limit { QuietAtItsLimit }
    ensures long_session_ids { LongSessionIds }
    ensures id_set_later { IdSetLater }
    ensures outlasts_reset { OutlastsReset }
    ensures expires_in_parameter { SlaveExpiresInParameter }
    ensures expires_in_session { SlaveExpiresInSession }
{}

/// Worked runs of a slave that ends a handshake, in the same way.
#[tactic(auto, using(crate::proofs::WorkedRuns::refusals))]
pub fn worked_refusals()
    ensures wrong_address { WrongAddress }
    ensures wrong_watchdog { WrongWatchdog }
    ensures wrong_parameters { WrongParameters }
    ensures other_profile { MasterOfOtherProfile }
{}

/// Frames that fail several tests, at a slave and at a master in Data: the first of the tests decides. The connection
/// ids that a slave refuses in a handshake, and the contents that a master refuses. Old frames, which both ends take
/// again with their session ids as they were, and refuse with fresh ones.
#[tactic(auto, using(crate::proofs::WorkedRuns::verdicts))]
pub fn worked_verdicts()
    ensures slave { SlaveTestsInOrder }
    ensures master { MasterTestsInOrder }
    ensures connection { SlaveTestsConnection }
    ensures contents { MasterContents }
    ensures old_frames { OldFrames }
{}

/// A run of moves is the run of its front, continued, and a run of proper moves is a run: each deed is the step of
/// those before it.
#[tactic(auto, using(crate::proofs::Runs::run_append, crate::proofs::Runs::run_is_run))]
pub fn runs()
    ensures continued { (s : Setup) (front rest : List Move) → run s (front ++ rest) ≡ continued s (run s front) rest }
    ensures proper { (s : Setup) (moves : List Move) → All (IsProper s) moves → IsRun s (run s moves) }
{}

/// In every run of an end, what it did at each event, and what it does at the next, is one of the reactions. Each says
/// in which state, at which age and after which tests of a frame it comes, and what the end does and sends then. In
/// state Reset nothing is of a session, and in state Data a slave has the complete parameters.
#[tactic(auto, using(crate::proofs::SoundRuns::reacts, crate::proofs::SoundRuns::reacted, crate::proofs::SoundRuns::outside_session, crate::proofs::SoundRuns::loaded))]
pub fn reactions()
    ensures complete { (s : Setup) (e : List Deed) (what : Move) → IsRun s e → IsProper s what → IsReaction s e (step s e what) }
    ensures each { (s : Setup) (x : Deed) (e : List Deed) → IsRun s (x ∷ e) → IsReaction s e x }
    ensures outside_session { (s : Setup) (e : List Deed) → IsRun s e → state_of s e ≡ state.Reset → HasNoSession e }
    ensures loaded { (ss : SlaveSettings) (e : List Deed) → IsRun (OfSlave ss) e → state_of (OfSlave ss) e ≡ state.Data → upload_is_whole ss state.Parameter e ≡ true }
{}

/// In every run of an end a deed reports a sent frame if and only if one was sent. It reports at most one of these: a
/// frame that was taken, a reset, a drop.
#[tactic(auto, using(crate::proofs::Told::told_sent, crate::proofs::Told::told_one))]
pub fn told()
    ensures sent { (s : Setup) (e : List Deed) (event : Move) → IsRun s e → IsProper s event → (step s e event).did.sent ≡ not (is_empty (step s e event).sent) }
    ensures one { (s : Setup) (e : List Deed) (event : Move) → IsRun s e → IsProper s event → at_most_one (step s e event).did ≡ true }
{}

/// In every run of an end what it finds has a code of at most 0Bh. Each Reset frame that it sends has such a code, with
/// zeros after it.
#[tactic(auto, using(crate::proofs::Codes::sent_low))]
pub fn codes()
    ensures found { (s : Setup) (e : List Deed) (event : Move) (found : Code) → IsRun s e → IsProper s event → (step s e event).did.reset ≡ Some (cause.Found found) → found.0 ≤ 0x0B }
    ensures sent { (s : Setup) (e : List Deed) (event : Move) → IsRun s e → IsProper s event → has_command command.Reset (step s e event).sent ≡ true → IsOwnReset s (step s e event).sent }
{}

/// In every run the age of an end is below its limit, so that a watchdog expires in the tick that reaches the limit. A
/// slave in state Reset has age 0.
#[tactic(auto, using(crate::proofs::AgeBelow::age_below, crate::proofs::AgeBelow::no_age_in_reset))]
pub fn ages()
    ensures below_limit { (s : Setup) (e : List Deed) → IsRun s e → age s e < limit s e }
    ensures in_reset { (ss : SlaveSettings) (e : List Deed) → state_of (OfSlave ss) e ≡ state.Reset → age (OfSlave ss) e ≡ 0 }
{}

/// The values stored of the last frame that an end sent, and of the last that it took, have that frame's CRC_0. The
/// frame that an end seals is read back as it was made.
#[tactic(auto, using(crate::proofs::Links::own_crc, crate::proofs::Links::taken_crc, crate::proofs::ReadBack::read_back))]
pub fn links()
    ensures own_crc { (s : Setup) (e : List Deed) → last_crc (own_link s e) ≡ newest_crc (sends s) (own e) }
    ensures taken_crc { (s : Setup) (e : List Deed) → last_crc (taken_link s e) ≡ newest_crc (receives s) (taken e) }
    ensures read_back { (s : Setup) (e : List Deed) (conn : ℕ) (c : Command) (load : List ℕ) → length load ≡ sends s → frame_of (sends s) (seal s e conn c load) ≡ sealed (newest_crc (receives s) (taken e)) (own_link s e) conn (command_byte c) load }
{}

/// In every run of an end its outputs are those that the definition gives. They are the load of the last frame taken,
/// if that was ProcessData and neither a reset nor as many ticks as the watchdog came after it. In every other case,
/// and outside Data, they are zeros.
#[tactic(auto, using(crate::proofs::Shown::looking_back, crate::proofs::Shown::fail_safe))]
pub fn outputs()
    ensures looking_back { (s : Setup) (e : List Deed) → IsRun s e → outputs s e ≡ out s e }
    ensures fail_safe { (s : Setup) (e : List Deed) → IsRun s e → state_of s e ≢ state.Data → outputs s e ≡ zeros s }
{}

/// In every run of a slave the uploaded parameters are complete if and only if as many bytes came as its settings ask
/// for. The reason: the number of application parameters that the master sends is that of the rule.
#[tactic(auto, using(crate::proofs::WholeUploads::whole_parameters))]
pub fn uploads()
    ensures whole { (ss : SlaveSettings) (e : List Deed) → IsRun (OfSlave ss) e → whole ss.profile state.Parameter (uploaded ss state.Parameter e) ≡ nat_le (expected_len (expected.Parameter ss.most (rule_len ss.rule) ss.profile)) (length (uploaded ss state.Parameter e)) }
{}
