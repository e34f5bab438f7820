//! What C code reads of a master. Reading changes nothing.
ghost use Rattle.std.specs.Prelude.{◌≡◌, ◌≢◌, ◌==◌, ◌||◌, IsTrue, None, true, false, drop, length};
ghost use Rattle.end_model.specs.Setup.{OfMaster, sends, receives};
ghost use Rattle.end_model.specs.Readiness as model;
ghost use Rattle.end_model.specs.Outputs as looking_back;
ghost use Rattle.master_core.specs.Standing.{Shows};
ghost use Rattle.master_core.specs.Waiting.{ShowsDue};
ghost use Rattle.fsoe_c.specs.Handle.{IsSoundMaster};
ghost use Rattle.c_values.specs.Numbers.{flag, state_number};
ghost use Rattle.c_values.specs.Place.{IfThere, answered, served};
ghost use Rattle.fsoe_c.specs.Told.{MasterShowsTerms, MasterShowsTermsDue};

use crate::lent::lent;
use crate::master::GpMaster;
use c_values::numbers::{BAD_LENGTH, NO_END, NOT_IN_DATA, OK, flag, state_number};
use c_values::told::{GpTerms, copied, tells};

/// Writes the number of the state, from 0 for Reset to 4 for Data. A frame that is due is treated as already sent.
#[unsafe(no_mangle)]
#[tactic(auto, using(c_values::proofs::Places::vacuous))]
pub extern "C" fn gp_master_state(master: &mut GpMaster, state: &mut u8) -> u8
    requires { IsSoundMaster master.old }
    ensures unchanged { master.new ≡ master.old }
    ensures answer { result ≡ served master.old.live }
    ensures shown { result ≡ OK → IfThere master.old.place.master (λ old. Shows old.core state.new (λ setup deeds. state_number (model.state_of setup deeds))) }
    ensures shown_due { result ≡ OK → IfThere master.old.place.master (λ old. ShowsDue old.core state.new (λ setup deeds. state_number (model.state_of setup deeds))) }
    ensures refused { result ≢ OK → state.new ≡ state.old }
{
    let room = lent!(master);
    *state = state_number(room.master.state());
    OK
}

/// Copies the outputs, which came from the slave: as many bytes as its frames carry.
#[unsafe(no_mangle)]
#[tactic(auto, using(c_values::proofs::Places::vacuous, c_values::proofs::Places::unserved, c_values::proofs::Places::passes, c_values::proofs::Places::fails))]
pub extern "C" fn gp_master_outputs(master: &mut GpMaster, outputs: &mut [u8]) -> u8
    requires { IsSoundMaster master.old }
    ensures unchanged { master.new ≡ master.old }
    ensures answer { result ≡ answered master.old.place.master (λ old. length outputs.old == receives (OfMaster old.core.kit.settings)) BAD_LENGTH }
    ensures shown { result ≡ OK → IfThere master.old.place.master (λ old. Shows old.core outputs.new looking_back.out) }
    ensures shown_due { result ≡ OK → IfThere master.old.place.master (λ old. ShowsDue old.core outputs.new looking_back.out) }
    ensures refused { result ≢ OK → outputs.new ≡ outputs.old }
{
    let room = lent!(master);
    if !copied(room.master.outputs(), outputs) {
        return BAD_LENGTH;
    }
    OK
}

/// Copies the safe data that were put last, zeros at first, as many bytes as the master's frames carry.
#[unsafe(no_mangle)]
#[tactic(auto, using(c_values::proofs::Places::vacuous, c_values::proofs::Places::unserved, c_values::proofs::Places::passes, c_values::proofs::Places::fails))]
pub extern "C" fn gp_master_offer(master: &mut GpMaster, offer: &mut [u8]) -> u8
    requires { IsSoundMaster master.old }
    ensures unchanged { master.new ≡ master.old }
    ensures answer { result ≡ answered master.old.place.master (λ old. length offer.old == sends (OfMaster old.core.kit.settings)) BAD_LENGTH }
    ensures shown { result ≡ OK → IfThere master.old.place.master (λ old. Shows old.core offer.new model.offer) }
    ensures shown_due { result ≡ OK → IfThere master.old.place.master (λ old. ShowsDue old.core offer.new model.offer) }
    ensures refused { result ≢ OK → offer.new ≡ offer.old }
{
    let room = lent!(master);
    if !copied(room.master.offer(), offer) {
        return BAD_LENGTH;
    }
    OK
}

/// Writes the terms of the session, only in state Data.
#[unsafe(no_mangle)]
#[tactic(auto, using(c_values::proofs::Places::vacuous))]
pub extern "C" fn gp_master_terms(master: &mut GpMaster, terms: &mut GpTerms) -> u8
    requires { IsSoundMaster master.old }
    ensures unchanged { master.new ≡ master.old }
    ensures none { master.old.live ≡ false → result ≡ NO_END }
    ensures either { master.old.live ≡ true → IsTrue (result == OK || result == NOT_IN_DATA) }
    ensures other { result ≡ NOT_IN_DATA → IfThere master.old.place.master (λ old. Shows old.core None model.told_terms) }
    ensures other_due { result ≡ NOT_IN_DATA → IfThere master.old.place.master (λ old. ShowsDue old.core None model.told_terms) }
    ensures shown { result ≡ OK → IfThere master.old.place.master (λ old. MasterShowsTerms old.core terms.new) }
    ensures shown_due { result ≡ OK → IfThere master.old.place.master (λ old. MasterShowsTermsDue old.core terms.new) }
    ensures past { drop terms.new.app_len terms.new.app ≡ drop terms.new.app_len terms.old.app }
    ensures refused { result ≢ OK → terms.new ≡ terms.old }
{
    let room = lent!(master);
    if !tells(room.master.terms(), terms) {
        return NOT_IN_DATA;
    }
    OK
}

/// Writes the ticks since the last frame was sent, 0 while a frame is due. A new master has its watchdog less 1.
#[unsafe(no_mangle)]
#[tactic(auto, using(c_values::proofs::Places::vacuous))]
pub extern "C" fn gp_master_age(master: &mut GpMaster, age: &mut u16) -> u8
    requires { IsSoundMaster master.old }
    ensures unchanged { master.new ≡ master.old }
    ensures answer { result ≡ served master.old.live }
    ensures shown { result ≡ OK → IfThere master.old.place.master (λ old. Shows old.core age.new model.age) }
    ensures shown_due { result ≡ OK → IfThere master.old.place.master (λ old. ShowsDue old.core age.new model.age) }
    ensures refused { result ≢ OK → age.new ≡ age.old }
{
    let room = lent!(master);
    *age = room.master.age();
    OK
}

/// Writes 1 if zeros are sent in place of the offer, else 0.
#[unsafe(no_mangle)]
#[tactic(auto, using(c_values::proofs::Places::vacuous))]
pub extern "C" fn gp_master_held(master: &mut GpMaster, held: &mut u8) -> u8
    requires { IsSoundMaster master.old }
    ensures unchanged { master.new ≡ master.old }
    ensures answer { result ≡ served master.old.live }
    ensures shown { result ≡ OK → IfThere master.old.place.master (λ old. Shows old.core held.new (λ setup deeds. flag (model.held deeds))) }
    ensures shown_due { result ≡ OK → IfThere master.old.place.master (λ old. ShowsDue old.core held.new (λ setup deeds. flag (model.held deeds))) }
    ensures refused { result ≢ OK → held.new ≡ held.old }
{
    let room = lent!(master);
    *held = flag(room.master.held());
    OK
}
