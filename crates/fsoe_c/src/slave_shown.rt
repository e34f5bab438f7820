//! What C code reads of a slave. Reading changes nothing.
ghost use Rattle.std.specs.Prelude.{◌≡◌, ◌≢◌, ◌==◌, ◌||◌, IsTrue, None, true, false, drop, length};
ghost use Rattle.end_model.specs.Setup.{OfSlave, sends, receives};
ghost use Rattle.end_model.specs.Readiness as model;
ghost use Rattle.end_model.specs.Outputs as looking_back;
ghost use Rattle.slave_core.specs.Standing.{Shows};
ghost use Rattle.fsoe_c.specs.Handle.{IsSoundSlave};
ghost use Rattle.c_values.specs.Numbers.{flag, state_number};
ghost use Rattle.c_values.specs.Place.{IfThere, answered, served};
ghost use Rattle.fsoe_c.specs.Told.{SlaveShowsTerms};

use crate::lent::lent;
use crate::slave::GpSlave;
use c_values::numbers::{BAD_LENGTH, NO_END, NOT_IN_DATA, OK, flag, state_number};
use c_values::told::{GpTerms, copied, tells};

/// Writes the number of the state, from 0 for Reset to 4 for Data.
#[unsafe(no_mangle)]
#[tactic(auto, using(c_values::proofs::Places::vacuous))]
pub extern "C" fn gp_slave_state(slave: &mut GpSlave, state: &mut u8) -> u8
    requires { IsSoundSlave slave.old }
    ensures unchanged { slave.new ≡ slave.old }
    ensures answer { result ≡ served slave.old.live }
    ensures shown { result ≡ OK → IfThere slave.old.place.slave (λ old. Shows old.core state.new (λ setup deeds. state_number (model.state_of setup deeds))) }
    ensures refused { result ≢ OK → state.new ≡ state.old }
{
    let room = lent!(slave);
    *state = state_number(room.slave.state());
    OK
}

/// Copies the outputs, as many bytes as the master's frames carry.
#[unsafe(no_mangle)]
#[tactic(auto, using(c_values::proofs::Places::vacuous, c_values::proofs::Places::unserved, c_values::proofs::Places::passes, c_values::proofs::Places::fails))]
pub extern "C" fn gp_slave_outputs(slave: &mut GpSlave, outputs: &mut [u8]) -> u8
    requires { IsSoundSlave slave.old }
    ensures unchanged { slave.new ≡ slave.old }
    ensures answer { result ≡ answered slave.old.place.slave (λ old. length outputs.old == receives (OfSlave old.core.kit.settings)) BAD_LENGTH }
    ensures shown { result ≡ OK → IfThere slave.old.place.slave (λ old. Shows old.core outputs.new looking_back.out) }
    ensures refused { result ≢ OK → outputs.new ≡ outputs.old }
{
    let room = lent!(slave);
    if !copied(room.slave.outputs(), outputs) {
        return BAD_LENGTH;
    }
    OK
}

/// Copies the safe data that were put last, zeros at first, as many bytes as the slave's frames carry.
#[unsafe(no_mangle)]
#[tactic(auto, using(c_values::proofs::Places::vacuous, c_values::proofs::Places::unserved, c_values::proofs::Places::passes, c_values::proofs::Places::fails))]
pub extern "C" fn gp_slave_offer(slave: &mut GpSlave, offer: &mut [u8]) -> u8
    requires { IsSoundSlave slave.old }
    ensures unchanged { slave.new ≡ slave.old }
    ensures answer { result ≡ answered slave.old.place.slave (λ old. length offer.old == sends (OfSlave old.core.kit.settings)) BAD_LENGTH }
    ensures shown { result ≡ OK → IfThere slave.old.place.slave (λ old. Shows old.core offer.new model.offer) }
    ensures refused { result ≢ OK → offer.new ≡ offer.old }
{
    let room = lent!(slave);
    if !copied(room.slave.offer(), offer) {
        return BAD_LENGTH;
    }
    OK
}

/// Writes the terms of the session, only in state Data.
#[unsafe(no_mangle)]
#[tactic(auto, using(c_values::proofs::Places::vacuous))]
pub extern "C" fn gp_slave_terms(slave: &mut GpSlave, terms: &mut GpTerms) -> u8
    requires { IsSoundSlave slave.old }
    ensures unchanged { slave.new ≡ slave.old }
    ensures none { slave.old.live ≡ false → result ≡ NO_END }
    ensures either { slave.old.live ≡ true → IsTrue (result == OK || result == NOT_IN_DATA) }
    ensures other { result ≡ NOT_IN_DATA → IfThere slave.old.place.slave (λ old. Shows old.core None model.told_terms) }
    ensures shown { result ≡ OK → IfThere slave.old.place.slave (λ old. SlaveShowsTerms old.core terms.new) }
    ensures past { drop terms.new.app_len terms.new.app ≡ drop terms.new.app_len terms.old.app }
    ensures refused { result ≢ OK → terms.new ≡ terms.old }
{
    let room = lent!(slave);
    if !tells(room.slave.terms(), terms) {
        return NOT_IN_DATA;
    }
    OK
}

/// Writes the ticks since the last frame was sent, 0 in state Reset.
#[unsafe(no_mangle)]
#[tactic(auto, using(c_values::proofs::Places::vacuous))]
pub extern "C" fn gp_slave_age(slave: &mut GpSlave, age: &mut u16) -> u8
    requires { IsSoundSlave slave.old }
    ensures unchanged { slave.new ≡ slave.old }
    ensures answer { result ≡ served slave.old.live }
    ensures shown { result ≡ OK → IfThere slave.old.place.slave (λ old. Shows old.core age.new model.age) }
    ensures refused { result ≢ OK → age.new ≡ age.old }
{
    let room = lent!(slave);
    *age = room.slave.age();
    OK
}

/// Writes 1 if zeros are sent in place of the offer, else 0.
#[unsafe(no_mangle)]
#[tactic(auto, using(c_values::proofs::Places::vacuous))]
pub extern "C" fn gp_slave_held(slave: &mut GpSlave, held: &mut u8) -> u8
    requires { IsSoundSlave slave.old }
    ensures unchanged { slave.new ≡ slave.old }
    ensures answer { result ≡ served slave.old.live }
    ensures shown { result ≡ OK → IfThere slave.old.place.slave (λ old. Shows old.core held.new (λ setup deeds. flag (model.held deeds))) }
    ensures refused { result ≢ OK → held.new ≡ held.old }
{
    let room = lent!(slave);
    *held = flag(room.slave.held());
    OK
}
