//! Worked lines. The call does nothing: the lines are its contract.
ghost use Rattle.std.specs.Prelude.{◌≡◌, Some, Ok, Err, codes, take};
ghost use Rattle.schedule_file.specs.declared.line_cause.LineCause.TheVariants as cause;
ghost use Rattle.image_file.specs.Fault.{first_fault};
ghost use Rattle.image_file.specs.Worked.{sharing, crowded, one_uneven, two_slots, stage_after, one_said, w};
ghost use Rattle.image_file.specs.declared.event.ImageLine.TheVariants as line;
ghost use Rattle.image_file.specs.declared.fault.SlotFault.TheVariants as fault;
ghost use Rattle.image_file.specs.declared.header.Stage.TheVariants as stage;

/// Worked lines of a header and of events, and slots that share a byte: the line that says a slot's lengths is refused.
/// Then the first fault of slots that have several.
#[tactic(auto, unfolding(hex::proofs::OnLiterals::hex_on_literals))]
pub fn worked_lines()
    ensures apart { stage_after (two_slots (codes "slot 2 7 7")) ≡ Ok stage.Slots }
    ensures shared { stage_after (two_slots (codes "slot 2 6 7")) ≡ Err cause.Range }
    ensures not_before { stage_after (take 8 (two_slots (codes "slot 2 6 7"))) ≡ Ok stage.Slots }
    ensures slave_fits { stage_after (one_uneven (codes "slave 2 200 1000 2")) ≡ Ok stage.Slots }
    ensures master_too_long { stage_after (one_uneven (codes "master 1 2 100 1")) ≡ Err cause.Range }
    ensures out_of_turn { stage_after (two_slots (codes "slot 3 7 7")) ≡ Err cause.Range }
    ensures fault { first_fault sharing ≡ Some (fault.Overlap 1 2) }
    ensures fault_outside { first_fault (record sharing { size_out = 13 }) ≡ Some (fault.Bounds 2) }
    ensures too_many { first_fault crowded ≡ Some fault.TooMany }
    ensures write { one_said (codes "w 7 2a0000c42d0000") ≡ Ok (line.Step (w 7 (codes "2a0000c42d0000"))) }
    ensures outside { one_said (codes "w 8 2a0000c42d0000") ≡ Err cause.Position }
    ensures no_slot { one_said (codes "p 2 zz") ≡ Err cause.NoLink }
    ensures no_number { one_said (codes "n 2 65536") ≡ Err cause.Number }
    ensures length { one_said (codes "p 1 010203") ≡ Err cause.Length }
{}
