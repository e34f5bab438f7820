//! What holds of all nets. The calls do nothing: each law is a contract.
ghost use Rattle.std.specs.Prelude.{◌≡◌, ℕ, true, false, Bool, ◌&&◌, List, [], ◌∷◌};
ghost use Rattle.std.specs.List.{list_any};
ghost use Rattle.failsafe_io.specs.declared.bit.Bit.{Bit};
ghost use Rattle.failsafe_io.specs.Bits.{bit_at, has_bit, is_same_bit};
ghost use Rattle.fb_lib.specs.LookBack.{run_until_now};
ghost use Rattle.fb_net.specs.declared.spec.Drive.{Drive};
ghost use Rattle.fb_net.specs.Steps.{held_values};
ghost use Rattle.fb_net.specs.Values.{NetCycle, NetBlock, wire_value, block_values, shown_values};
ghost use Rattle.fb_net.specs.Outputs.{driven_images, net_outputs};
ghost use Rattle.fb_net.specs.NetView.{NetView, plan};
ghost use Rattle.fb_net.specs.Guarded.{is_output_guarded};
ghost use Rattle.fb_net.specs.Standing.{IsNewNet, NetStands};
ghost use Rattle.fb_net.specs.Meaning.{rule_of, net_holds};
ghost use Rattle.fb_net.specs.Calls.{Call, Called, cycles_of, all_outputs, held_after};
ghost use Rattle.fb_net.specs.Acknowledged.{stop_blocks, stop_drives, is_on, may_run, is_acknowledged, is_let_go, StopRow, GuardRow};

/// A new net that has any calls gives in each what looking back over its cycles says, and stands for them all.
#[tactic(auto, using(crate::proofs::Ruled::outputs_are, crate::proofs::Ruled::stands))]
pub fn calls()
    ensures given { (first last : NetView) (e : List Call) (outputs : List (List (List ℕ)))
        → NetStands first [] → Called first e outputs last
        → outputs ≡ all_outputs (plan first.blocks) first.drives e }
    ensures stands { (first last : NetView) (e : List Call) (outputs : List (List (List ℕ)))
        → NetStands first [] → Called first e outputs last → NetStands last (cycles_of e) }
{}

/// The rule of a new net gives the same: from what it holds after any calls, its answer to one more is that of the
/// definition over the cycles. What it holds then has the values of its blocks.
pub fn rule()
    ensures outputs { (v : NetView) (a : Call) (e : List Call) → IsNewNet v
        → (rule_of v (held_after (rule_of v) (net_holds v) e) a.cycle.ticked a.cycle.inputs a.lens).outputs
        ≡ net_outputs v (a.cycle ∷ cycles_of e) a.lens }
    ensures values { (v : NetView) (e : List Call) → IsNewNet v
        → held_values (held_after (rule_of v) (net_holds v) e) ≡ shown_values (plan v.blocks) (cycles_of e) }
{}

/// A guarded output bit is 0 in each cycle in which its input bit is 0, whatever came before.
pub fn guards()
    ensures { (ps : List NetBlock) (ds : List Drive) (c : NetCycle) (e : List NetCycle) (lens : List ℕ) (o i : Bit)
        → is_output_guarded ps ds o i ≡ true → bit_at c.inputs i ≡ false
        → bit_at (driven_images ds (block_values ps (c ∷ e)) c.inputs lens) o ≡ false }
{}

/// An output bit that is there is 1 exactly where a drive of it reads true.
#[tactic(auto, using(crate::proofs::Bits::driven_bit))]
pub fn outputs()
    ensures { (ds : List Drive) (values : List Bool) (inputs : List (List ℕ)) (lens : List ℕ) (o : Bit)
        → has_bit lens o ≡ true
        → bit_at (driven_images ds values inputs lens) o
        ≡ list_any (λ d. is_same_bit d.out o && wire_value values inputs d.from) ds }
{}

/// The drive of an emergency stop whose acknowledgement comes as two bits is on exactly where the acknowledgement was
/// seen released, then pressed, then released again since the stop was last pressed or the drive last lost, or since
/// the first cycle. So it is switched on at a release, and an acknowledgement that wasn't seen pressed, or wasn't seen
/// released, leaves it off. The stop and the drive's bit guard it, and the acknowledgement doesn't.
#[tactic(auto, unfolding(crate::specs::Acknowledged::StopRow, crate::specs::Acknowledged::GuardRow))]
pub fn acknowledged()
    ensures on { (stop there pressed released drive : Bit) (lens : List ℕ) (c : NetCycle) (e : List NetCycle) → has_bit lens drive ≡ true
        → bit_at (driven_images (stop_drives drive) (block_values (stop_blocks stop there pressed released) (c ∷ e)) c.inputs lens) drive
        ≡ is_acknowledged stop there pressed released (c ∷ e) }
    ensures at_release { (stop there pressed released : Bit) (c : NetCycle) (e : List NetCycle)
        → is_acknowledged stop there pressed released (c ∷ e) ≡ true → is_acknowledged stop there pressed released e ≡ false
        → is_let_go pressed released (c ∷ e) ≡ true }
    ensures stuck { (stop there pressed released : Bit) (e : List NetCycle) → let since : List NetCycle = run_until_now (may_run stop there) e in
        (list_any (is_on pressed) since && list_any (is_on released) since) ≡ false → is_acknowledged stop there pressed released e ≡ false }
    ensures row { StopRow }
    ensures guards { GuardRow }
{}
