//! What holds of the definitions. The calls do nothing: each law is a contract.

ghost use Rattle.std.specs.Prelude.{◌≡◌, ◌+◌, ◌-◌, ◌*◌, ℕ, suc, nat_eq, IsTrue, List, All, Some, IsSomeAnd, length, map};
ghost use Rattle.std.specs.List.{IsDistinct};
ghost use Rattle.fsoe_base.specs.declared.command.End.{End};
ghost use Rattle.fsoe_base.specs.declared.command.State.TheVariants as state;
ghost use Rattle.fsoe_base.specs.Image.{bit_of};
ghost use Rattle.param_load.specs.declared.entry.Entry.{Entry};
ghost use Rattle.param_load.specs.declared.master_settings.MasterSettings.{MasterSettings};
ghost use Rattle.param_load.specs.declared.slave_settings.SlaveSettings.{SlaveSettings};
ghost use Rattle.schedule_file.specs.declared.event.Event.{Event};
ghost use Rattle.end_model.specs.Setup.{Setup, OfMaster, receives, piece_len};
ghost use Rattle.end_model.specs.Deed.{Deed};
ghost use Rattle.end_model.specs.Payloads.{pay, pieces};
ghost use Rattle.end_model.specs.Readiness.{told_terms};
ghost use Rattle.end_model.specs.Outputs.{out};
ghost use Rattle.end_model.specs.Step.{run};
ghost use Rattle.end_model.specs.Runs.{IsRun, entries};
ghost use Rattle.exchange_model.specs.Ends.{of_end};
ghost use Rattle.exchange_model.specs.World.{setup_of, deeds, frames_of, world, SameLengths};
ghost use Rattle.exchange_model.specs.Schedules.{moves};
ghost use Rattle.exchange_model.specs.Worlds.{IsProperEvent, IsWorld};
ghost use Rattle.exchange_model.specs.Items.{items_of, items};
ghost use Rattle.exchange_model.specs.Other.{first_other, NoOther, before_other};
ghost use Rattle.exchange_model.specs.Fair.{received_len, TakesAwaited, numbers_taken, outputs_due, OutputsAreDue, Fair};
ghost use Rattle.exchange_model.specs.Offering.{WasOffered};
ghost use Rattle.exchange_model.specs.Honest.{Match, exchanges, IsSteady, IsHonest};
ghost use Rattle.exchange_model.specs.Serving.{Serves, ServesSteadily};
ghost use Rattle.exchange_model.specs.WorkedOffering.{BothShowLongest};
ghost use Rattle.exchange_model.specs.WorkedItems.{WorkedItems};
ghost use Rattle.exchange_model.specs.WorkedSchedules.{SteadyRuns, HonestRuns, DishonestRuns};
ghost use Rattle.exchange_model.specs.WorkedRuns.{Handshakes, Refusals, DataRuns, FairRuns};

/// A schedule of proper events makes a world, each of whose entries is the next one of its end. In each world the
/// entries of an end are those of the run of only that end's own events.
#[tactic(auto, using(crate::proofs::Worlds::Projection::world_is_world, crate::proofs::Worlds::Projection::projection))]
pub fn worlds()
    ensures schedule { (ms : MasterSettings) (ss : SlaveSettings) (events : List Event) → All (IsProperEvent ms ss) events → IsWorld ms ss (world ms ss events) }
    ensures projection { (ms : MasterSettings) (ss : SlaveSettings) (which : End) (w : List Entry) → IsWorld ms ss w → of_end which w ≡ entries (setup_of ms ss which) (run (setup_of ms ss which) (moves which w)) }
{}

/// The items of an end are the frames that it sent.
#[tactic(auto, using(crate::proofs::Worlds::Frames::frames))]
pub fn frames()
    ensures { (which : End) (w : List Entry) → map (λ i. i.bytes) (items_of which (items w)) ≡ frames_of which w }
{}

/// In each world of ends with equal lengths the outputs after each entry are those that the definition gives, whatever
/// comes: this part of a fair run needs no premise. The definition gives the same from the entries of an end as from
/// its deeds.
#[tactic(auto, using(crate::proofs::Fairness::Shown::outputs_are_due, crate::proofs::Fairness::Shown::due_is_out))]
pub fn outputs()
    ensures shown { (ms : MasterSettings) (ss : SlaveSettings) (w : List Entry) → SameLengths ms ss → IsWorld ms ss w → OutputsAreDue ms.lengths w }
    ensures of_deeds { (s : Setup) (e : List Deed) → IsRun s e → outputs_due (receives s) (entries s e) ≡ out s e }
{}

/// In each world no item is awaited at two entries in which its awaiter takes data, whatever comes: this part of a fair
/// run needs no premise either.
#[tactic(auto, using(crate::proofs::Fairness::Once::at_most_once))]
pub fn data_once()
    ensures { (ms : MasterSettings) (ss : SlaveSettings) (which : End) (w : List Entry) → IsWorld ms ss w → IsDistinct nat_eq (numbers_taken which w) }
{}

/// The law of the pair, for both ends' settings with equal lengths and every schedule of proper events. If the awaited
/// frame is the only guarded frame that passes a receiver's CRC test, the run is fair. Then an end takes only data that
/// its peer put into its answer to the last frame of this end, under equal terms and once. All other outputs are
/// fail-safe. Without that premise the entries before the first `other` entry are fair. In each world without an
/// `other` entry data are taken only from the awaited item.
#[tactic(auto, using(crate::proofs::Fairness::Headline::fair_run, crate::proofs::Fairness::Headline::fair_before, crate::proofs::Fairness::Headline::takes_awaited))]
pub fn headline()
    ensures fair { (ms : MasterSettings) (ss : SlaveSettings) (events : List Event) → SameLengths ms ss → All (IsProperEvent ms ss) events → NoOther (world ms ss events) → Fair ms.lengths (world ms ss events) }
    ensures fair_before { (ms : MasterSettings) (ss : SlaveSettings) (events : List Event) → SameLengths ms ss → All (IsProperEvent ms ss) events → Fair ms.lengths (before_other (world ms ss events)) }
    ensures from_awaited { (ms : MasterSettings) (ss : SlaveSettings) (w : List Entry) → SameLengths ms ss → IsWorld ms ss w → NoOther w → TakesAwaited ms.lengths w }
{}

/// What the outputs of an end rest on, for equal lengths and each world without an `other` entry. If a bit of the
/// outputs is 1, the peer sent a data frame while it offered that bit as 1 and wasn't held. After that came at most
/// twice the master's watchdog, less 2, of the end's own ticks. Fewer than the watchdog came from the end's frame,
/// which the data frame answers, until the end took the answer, and fewer after that. The terms of the end have the
/// master's watchdog. Both ends share no clock.
#[tactic(auto, using(crate::proofs::Offering::Offered::was_offered, crate::proofs::Offering::Offered::told_watchdog))]
pub fn offers()
    ensures lately { (ms : MasterSettings) (ss : SlaveSettings) (which : End) (bit : ℕ) (w : List Entry) → SameLengths ms ss → IsWorld ms ss w → NoOther w → IsTrue (bit_of (outputs_due (received_len ms.lengths which) (of_end which w)) bit) → WasOffered which bit (2 * ms.watchdog - 2) w }
    ensures watchdog { (ms : MasterSettings) (ss : SlaveSettings) (which : End) (bit : ℕ) (w : List Entry) → SameLengths ms ss → IsWorld ms ss w → NoOther w → IsTrue (bit_of (outputs_due (received_len ms.lengths which) (of_end which w)) bit) → IsSomeAnd (told_terms (setup_of ms ss which) (deeds which w)) (λ terms. terms.watchdog ≡ ms.watchdog) }
{}

/// No entry before the first `other` entry is `other`; if there is none, these are all entries. They are a world if the
/// run is one, and the first `other` entry has the next number.
#[tactic(auto, using(crate::proofs::Worlds::Others::before_is_clean, crate::proofs::Worlds::Others::clean_is_before, crate::proofs::Worlds::Others::before_is_world, crate::proofs::Worlds::Others::number_of_first))]
pub fn others()
    ensures none_before { (w : List Entry) → NoOther (before_other w) }
    ensures whole { (w : List Entry) → NoOther w → before_other w ≡ w }
    ensures is_world { (ms : MasterSettings) (ss : SlaveSettings) (w : List Entry) → IsWorld ms ss w → IsWorld ms ss (before_other w) }
    ensures number { (w : List Entry) (n : ℕ) → first_other w ≡ Some n → n ≡ suc (length (before_other w)) }
{}

/// The exchanges before the first data are one of Reset frames and one for each piece of a payload that the master
/// downloads.
#[tactic(auto, using(crate::proofs::Honest::Turns::are_pieces))]
pub fn exchanges_before_data()
    ensures { (ms : MasterSettings) (id : ℕ) → exchanges ms ≡ 1 + pieces (pay ms id state.Session) (piece_len (OfMaster ms)) + pieces (pay ms id state.Connection) (piece_len (OfMaster ms)) + pieces (pay ms id state.Parameter) (piece_len (OfMaster ms)) }
{}

/// Over a steady schedule of proper events the run of matching ends is complete, no entry is `other`, and no session
/// ends. Each frame is taken when it comes for the first time. When it comes again it is dropped as a repeat, or it is a
/// Reset frame that a slave in state Reset answers with the same Reset frame again. The master is in Data from the last
/// of the exchanges before the first data, the slave from the next frame that comes to it for the first time, and
/// neither before. From then on each frame that comes for the first time gives data, which the peer put, as the run is
/// fair.
pub fn steady_schedules()
    ensures serves { (ms : MasterSettings) (ss : SlaveSettings) (events : List Event) → Match ms ss → All (IsProperEvent ms ss) events → IsSteady ms ss events → ServesSteadily ms events (world ms ss events) }
    ensures fair { (ms : MasterSettings) (ss : SlaveSettings) (events : List Event) → Match ms ss → All (IsProperEvent ms ss) events → IsSteady ms ss events → Fair ms.lengths (world ms ss events) }
{}

/// Over an honest schedule of proper events the run of matching ends is complete, no entry is `other`, no session ends
/// and each delivery is taken. The master is in Data from the last of the exchanges before the first data, the slave
/// from the next delivery, and neither before. From then on each delivery takes data, which the peer put, as the run is
/// fair.
pub fn honest_schedules()
    ensures serves { (ms : MasterSettings) (ss : SlaveSettings) (events : List Event) → Match ms ss → All (IsProperEvent ms ss) events → IsHonest ms ss events → Serves ms events (world ms ss events) }
    ensures fair { (ms : MasterSettings) (ss : SlaveSettings) (events : List Event) → Match ms ss → All (IsProperEvent ms ss) events → IsHonest ms ss events → Fair ms.lengths (world ms ss events) }
{}

/// Worked handshakes of both ends, over frames of several lengths and in both profiles, and those that a slave ends: the
/// lines of the report, and the number of the first `other` entry.
pub fn worked_handshakes()
    ensures handshakes { Handshakes }
    ensures refusals { Refusals }
{}

/// Worked exchanges of data in the same way, with frames that come again, late, altered or forged, and with resets and
/// ticks. Among them is an old session, whose frames come to the slave again after its reset: with the same session id
/// as before it is taken, and `other`; with a fresh one it is refused at its first Connection frame.
pub fn worked_data()
    ensures { DataRuns }
{}

/// The items of worked runs: what they answer and carry, which is awaited, and which gave data.
pub fn worked_items()
    ensures { WorkedItems }
{}

/// Worked runs in which each end shows its peer's offer for as many ticks after the peer's last frame as the law of
/// offers allows, and no longer.
pub fn worked_offers()
    ensures { BothShowLongest }
{}

/// Worked runs that are fair, those with an `other` entry before it.
pub fn fair_runs()
    ensures { FairRuns }
{}

/// Worked schedules that are steady, one of them with each frame twice, and honest ones, the exchanges before the first
/// data, and when both ends are in Data; and settings that don't match and schedules that aren't honest, each for only
/// one reason.
pub fn honest_runs()
    ensures steady { SteadyRuns }
    ensures honest { HonestRuns }
    ensures dishonest { DishonestRuns }
{}
