//! What holds of images over all their calls, and of example runs. The calls do nothing: each law is a contract.
ghost use Rattle.std.specs.Prelude.{◌≡◌, ℕ, ◌∷◌, ◌++◌, List, None, codes, false, length, replicate};
ghost use Rattle.fsoe_base.specs.Lengths.{frame_len};
ghost use Rattle.param_load.specs.declared.entry.Move.{Move};
ghost use Rattle.end_model.specs.Deed.{Deed, is_empty};
ghost use Rattle.end_model.specs.Setup.{Setup, sends};
ghost use Rattle.end_model.specs.Step.{step};
ghost use Rattle.end_model.specs.Runs.{IsProper, IsRun};
ghost use Rattle.process_image.specs.Calls.{slot_contents, moves, output};
ghost use Rattle.process_image.specs.Own.{Unwritten, WritesFit, at_samples, distinct_after, frames_in};
ghost use Rattle.process_image.specs.Image.{input};
ghost use Rattle.image_file.specs.Places.{Place, Plan, share, spans_of};
ghost use Rattle.process_image.specs.Standing.{told};
ghost use Rattle.process_image.specs.Worked.{one_slave, two_frames, two_halves, side_by_side, first_exchange, Reports};
ghost use Rattle.image_file.specs.declared.event.ImageEvent.{ImageEvent};
ghost use Rattle.image_file.specs.declared.event.ImageEvent.TheVariants as event;

/// A frame that an end sends has as many bytes as its frames have, so that it fills its place in the output image.
#[tactic(auto, using(crate::proofs::SentLength::step_long))]
pub fn frames_fill()
    ensures { (s : Setup) (e : List Deed) (what : Move) → IsProper s what → IsRun s e → is_empty (step s e what).sent ≡ false → length (step s e what).sent ≡ frame_len (sends s) }
{}

/// Worked reports of images. A slot is delivered only if its bytes changed. Half of a frame is dropped in state Reset,
/// and the whole frame then taken. A master and a slave are side by side.
pub fn worked_reports()
    ensures changes_alone { Reports one_slave two_frames (codes "2 1 took Reset Reset 0000 > 2a0000c42d0000\n5 1 took Session Session 0000 > 4e020090470000\nevents 5\nout 4e020090470000\n") }
    ensures half_written { Reports one_slave two_halves (codes "2 1 took Reset Reset 0000 > 2a0000c42d0000\n4 1 drop InReset Reset 0000\n6 1 took Session Session 0000 > 4e020090470000\nevents 6\nout 4e020090470000\n") }
    ensures both_ends { Reports side_by_side first_exchange (codes "1 1 again Reset 0000 > 2a0000c42d0000\n1 2 quiet Reset 0000\n3 2 took Reset Reset 0000 > 2a0000c42d0000\n5 1 took Reset Session 0000 > 4e0100123e0000\nevents 5\nout 4e0100123e00002a0000c42d0000\n") }
{}

/// The frames that are delivered to a slot are its contents at the samples, in their order, except those that equal the
/// sample before, and zeros at the first one.
#[tactic(auto, using(crate::proofs::Distinct::distinct))]
pub fn distinct()
    ensures { (size : ℕ) (p : Place) (calls : List ImageEvent) → frames_in (moves size p calls) ≡ distinct_after (slot_contents p (replicate size 0)) (at_samples size p calls) }
{}

/// A sample with no write after the last one reports nothing and changes nothing, whatever comes after it.
#[tactic(auto, using(crate::proofs::Distinct::quiet_moves, crate::proofs::Distinct::quiet_output, crate::proofs::Distinct::quiet_told))]
pub fn quiet_samples()
    ensures moves { (size : ℕ) (p : Place) (calls later : List ImageEvent) → Unwritten calls → moves size p (later ++ event.Sample ∷ calls) ≡ moves size p (later ++ calls) }
    ensures output { (plan : Plan) (calls later : List ImageEvent) → Unwritten calls → output plan (later ++ event.Sample ∷ calls) ≡ output plan (later ++ calls) }
    ensures told { (size : ℕ) (p : Place) (calls : List ImageEvent) → Unwritten calls → told size calls event.Sample p ≡ None }
{}

/// A write beside a slot changes nothing of it.
#[tactic(auto, using(crate::proofs::Frames::write_beside))]
pub fn writes_beside()
    ensures { (size at : ℕ) (bytes : List ℕ) (p : Place) (calls : List ImageEvent) → WritesFit size (event.Write at bytes ∷ calls) → share p.at_in (spans_of p).len_in at (length bytes) ≡ false → slot_contents p (input size (event.Write at bytes ∷ calls)) ≡ slot_contents p (input size calls) }
{}
