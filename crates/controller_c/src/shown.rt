//! What C code reads of a controller. Reading changes nothing.
ghost use Rattle.std.specs.Prelude.{◌≡◌, ◌≢◌, ◌==◌, ◌-◌, None, Some, false, slice_get, drop, length, if◌then◌else◌};
ghost use Rattle.end_model.specs.Readiness as model;
ghost use Rattle.end_model.specs.Setup.{OfMaster, receives, sends};
ghost use Rattle.failsafe_io.specs.Bits.{at_number};
ghost use Rattle.fb_net.specs.Steps.{held_values};
ghost use Rattle.multi_master.specs.Connection.{connection_outputs, offer_at, setup};
ghost use Rattle.multi_master.specs.Standing.{ShowsApp, ShowsAt, links};
ghost use Rattle.c_values.specs.Numbers.{flag, state_number};
ghost use Rattle.c_values.specs.Place.{IfThere};
ghost use Rattle.controller_c.specs.Answers.{if_bits, if_block, if_connected, if_running, if_set, if_stepping};
ghost use Rattle.controller_c.specs.ControllerView.{masters_of};
ghost use Rattle.controller_c.specs.Handle.{IsSoundController, answer_by};
ghost use Rattle.controller_c.specs.Wire.{named_bit};
ghost use Rattle.controller_c.specs.Shown.{ShowsChangedAt, ShowsFlag, ShowsTermsAt};

use crate::controller::GpController;
use crate::counts::GpCounts;
use crate::lent::{connected, lent, running};
use crate::numbers::{NO_BLOCK, NO_CONNECTION, NO_INPUT, NO_OUTPUT, NOT_RUNNING};
use crate::start::data_lengths;
use crate::wire::GpBit;
use c_values::numbers::{BAD_LENGTH, NO_END, NOT_IN_DATA, OK, flag, state_number};
use c_values::told::{GpTerms, copied, tells};
use fb_net::has_bit;

/// Writes the number of connections.
#[unsafe(no_mangle)]
#[tactic(auto, using(c_values::proofs::Places::vacuous))]
pub extern "C" fn gp_controller_connections(controller: &mut GpController, count: &mut u16) -> u8
    requires { IsSoundController controller.old }
    ensures unchanged { controller.new ≡ controller.old }
    ensures answer { result ≡ answer_by controller.old.place.controller (λ old. OK) }
    ensures shown { result ≡ OK → IfThere controller.old.place.controller (λ old. count.new ≡ links old.multi) }
    ensures refused { result ≢ OK → count.new ≡ count.old }
{
    let room = lent!(controller);
    *count = room.multi().links();
    OK
}

/// Writes the number of the state of this connection, from 0 for Reset to 4 for Data.
#[unsafe(no_mangle)]
#[tactic(auto, using(c_values::proofs::Places::vacuous, crate::proofs::Places::shown_as))]
pub extern "C" fn gp_controller_state(
    controller: &mut GpController,
    connection: u16,
    state: &mut u8,
) -> u8
    requires { IsSoundController controller.old }
    ensures unchanged { controller.new ≡ controller.old }
    ensures answer { result ≡ answer_by controller.old.place.controller (λ old. if_connected old connection OK) }
    ensures shown { result ≡ OK → IfThere controller.old.place.controller (λ old. ShowsAt (masters_of old.multi) connection state.new (λ c. state_number (model.state_of (setup c) c.deeds))) }
    ensures refused { result ≢ OK → state.new ≡ state.old }
{
    let room = connected!(lent!(controller), connection);
    *state = state_number(room.multi().state(connection));
    OK
}

/// Writes the ticks since the last frame of this connection's master was sent.
#[unsafe(no_mangle)]
#[tactic(auto, using(c_values::proofs::Places::vacuous))]
pub extern "C" fn gp_controller_age(
    controller: &mut GpController,
    connection: u16,
    age: &mut u16,
) -> u8
    requires { IsSoundController controller.old }
    ensures unchanged { controller.new ≡ controller.old }
    ensures answer { result ≡ answer_by controller.old.place.controller (λ old. if_connected old connection OK) }
    ensures shown { result ≡ OK → IfThere controller.old.place.controller (λ old. ShowsAt (masters_of old.multi) connection age.new (λ c. model.age (setup c) c.deeds)) }
    ensures refused { result ≢ OK → age.new ≡ age.old }
{
    let room = connected!(lent!(controller), connection);
    *age = room.multi().age(connection);
    OK
}

/// Writes 1 if this connection sends zeros in place of the offer, else 0.
#[unsafe(no_mangle)]
#[tactic(auto, using(c_values::proofs::Places::vacuous, crate::proofs::Places::shown_as))]
pub extern "C" fn gp_controller_held(
    controller: &mut GpController,
    connection: u16,
    held: &mut u8,
) -> u8
    requires { IsSoundController controller.old }
    ensures unchanged { controller.new ≡ controller.old }
    ensures answer { result ≡ answer_by controller.old.place.controller (λ old. if_connected old connection OK) }
    ensures shown { result ≡ OK → IfThere controller.old.place.controller (λ old. ShowsAt (masters_of old.multi) connection held.new (λ c. flag (model.held c.deeds))) }
    ensures refused { result ≢ OK → held.new ≡ held.old }
{
    let room = connected!(lent!(controller), connection);
    *held = flag(room.multi().held(connection));
    OK
}

/// Copies the outputs of this connection's master, which came from its slave, as many bytes as its slave's frames carry.
/// They are zeros in every state except Data.
#[unsafe(no_mangle)]
#[tactic(auto, using(c_values::proofs::Places::vacuous))]
pub extern "C" fn gp_controller_inputs(
    controller: &mut GpController,
    connection: u16,
    inputs: &mut [u8],
) -> u8
    requires { IsSoundController controller.old }
    ensures unchanged { controller.new ≡ controller.old }
    ensures answer { result ≡ answer_by controller.old.place.controller (λ old. if_connected old connection (if_set old connection (λ s. length inputs.old == receives (OfMaster s)) BAD_LENGTH)) }
    ensures shown { result ≡ OK → IfThere controller.old.place.controller (λ old. ShowsAt (masters_of old.multi) connection inputs.new connection_outputs) }
    ensures refused { result ≢ OK → inputs.new ≡ inputs.old }
{
    let room = connected!(lent!(controller), connection);
    if !copied(room.multi().outputs(connection), inputs) {
        return BAD_LENGTH;
    }
    OK
}

/// Copies the last result of the net for this connection, which its next data frame carries unless it is held, as many
/// bytes as its master's frames carry.
#[unsafe(no_mangle)]
#[tactic(auto, using(c_values::proofs::Places::vacuous))]
pub extern "C" fn gp_controller_offer(
    controller: &mut GpController,
    connection: u16,
    offer: &mut [u8],
) -> u8
    requires { IsSoundController controller.old }
    ensures unchanged { controller.new ≡ controller.old }
    ensures answer { result ≡ answer_by controller.old.place.controller (λ old. if_connected old connection (if_set old connection (λ s. length offer.old == sends (OfMaster s)) BAD_LENGTH)) }
    ensures shown { result ≡ OK → IfThere controller.old.place.controller (λ old. ShowsAt (masters_of old.multi) connection offer.new offer_at) }
    ensures refused { result ≢ OK → offer.new ≡ offer.old }
{
    let room = connected!(lent!(controller), connection);
    if !copied(room.multi().offer(connection), offer) {
        return BAD_LENGTH;
    }
    OK
}

/// Writes the terms of this connection's session, only in state Data.
#[unsafe(no_mangle)]
#[tactic(auto, using(c_values::proofs::Places::vacuous, crate::proofs::Places::shows_terms))]
pub extern "C" fn gp_controller_terms(
    controller: &mut GpController,
    connection: u16,
    terms: &mut GpTerms,
) -> u8
    requires { IsSoundController controller.old }
    ensures unchanged { controller.new ≡ controller.old }
    ensures answer { result ≡ answer_by controller.old.place.controller (λ old. if_connected old connection (if result == OK then OK else NOT_IN_DATA)) }
    ensures other { result ≡ NOT_IN_DATA → IfThere controller.old.place.controller (λ old. ShowsAt (masters_of old.multi) connection None (λ c. model.told_terms (setup c) c.deeds)) }
    ensures shown { result ≡ OK → IfThere controller.old.place.controller (λ old. ShowsTermsAt (masters_of old.multi) connection terms.new) }
    ensures past { drop terms.new.app_len terms.new.app ≡ drop terms.new.app_len terms.old.app }
    ensures refused { result ≢ OK → terms.new ≡ terms.old }
{
    let room = connected!(lent!(controller), connection);
    if !tells(room.multi().terms(connection), terms) {
        return NOT_IN_DATA;
    }
    OK
}

/// Writes 1 if the last call that stepped the controller changed the offer of this connection, else 0.
#[unsafe(no_mangle)]
#[tactic(auto, using(c_values::proofs::Places::vacuous, crate::proofs::Places::shows_changed))]
pub extern "C" fn gp_controller_changed(
    controller: &mut GpController,
    connection: u16,
    changed: &mut u8,
) -> u8
    requires { IsSoundController controller.old }
    ensures unchanged { controller.new ≡ controller.old }
    ensures answer { result ≡ answer_by controller.old.place.controller (λ old. if_connected old connection OK) }
    ensures shown { result ≡ OK → IfThere controller.old.place.controller (λ old. ShowsChangedAt (masters_of old.multi) connection changed.new) }
    ensures refused { result ≢ OK → changed.new ≡ changed.old }
{
    let room = connected!(lent!(controller), connection);
    *changed = flag(room.multi().changed().contains(&connection));
    OK
}

/// Writes 1 if the value of this block was true in the last cycle, else 0. It is read from what the net holds, and
/// `fb_net::laws::rule` says that this is the value by looking back.
#[unsafe(no_mangle)]
#[tactic(auto, using(c_values::proofs::Places::vacuous, crate::proofs::Places::shows_app))]
pub extern "C" fn gp_controller_value(
    controller: &mut GpController,
    block: u16,
    value: &mut u8,
) -> u8
    requires { IsSoundController controller.old }
    ensures unchanged { controller.new ≡ controller.old }
    ensures answer { result ≡ answer_by controller.old.place.controller (λ old. if_running old (if_block old block OK)) }
    ensures shown { result ≡ OK → IfThere controller.old.place.controller (λ old. ShowsFlag value.new (λ told. ShowsApp (masters_of old.multi) told (λ app. at_number (held_values app.holds) block false))) }
    ensures refused { result ≢ OK → value.new ≡ value.old }
{
    let room = running!(controller);
    let net = room.multi().app();
    if block == 0 || block > net.blocks() {
        return NO_BLOCK;
    }
    *value = flag(net.value(block));
    OK
}

/// Writes 1 if the net that runs keeps this output bit 0 whenever this input bit is 0, by its blocks and wires, else 0.
/// Both bits are there.
#[unsafe(no_mangle)]
#[tactic(auto, using(c_values::proofs::Places::vacuous))]
pub extern "C" fn gp_controller_guards(
    controller: &mut GpController,
    output: &GpBit,
    input: &GpBit,
    guards: &mut u8,
) -> u8
    requires { IsSoundController controller.old }
    ensures unchanged { controller.new ≡ controller.old }
    ensures answer { result ≡ answer_by controller.old.place.controller (λ old. if_stepping old output.now.connection (if_connected old input.now.connection (if_bits old (named_bit output.now) (named_bit input.now) OK))) }
    ensures shown { result ≡ OK → IfThere controller.old.place.controller (λ old. ShowsFlag guards.new (λ told. ShowsApp (masters_of old.multi) told (λ app. app.guards (named_bit output.now) (named_bit input.now)))) }
    ensures refused { result ≢ OK → guards.new ≡ guards.old }
{
    let room = connected!(running!(controller), output.connection);
    let room = connected!(room, input.connection);
    let lengths = data_lengths(room.multi());
    if !has_bit(lengths.outputs.as_slice(), output.named()) {
        return NO_OUTPUT;
    }
    if !has_bit(lengths.inputs.as_slice(), input.named()) {
        return NO_INPUT;
    }
    *guards = flag(room.multi().guards(output.named(), input.named()));
    OK
}

/// Copies the counts of this connection: what it did since they were cleared.
#[unsafe(no_mangle)]
#[tactic(auto, using(c_values::proofs::Places::vacuous))]
pub extern "C" fn gp_controller_counts(
    controller: &mut GpController,
    connection: u16,
    counts: &mut GpCounts,
) -> u8
    requires { IsSoundController controller.old }
    ensures unchanged { controller.new ≡ controller.old }
    ensures answer { result ≡ answer_by controller.old.place.controller (λ old. if_connected old connection OK) }
    ensures shown { result ≡ OK → IfThere controller.old.place.controller (λ old. slice_get old.counts (connection - 1) ≡ Some counts.new) }
    ensures refused { result ≢ OK → counts.new ≡ counts.old }
{
    let room = connected!(lent!(controller), connection);
    *counts = room.counts[usize::from(connection) - 1];
    OK
}
