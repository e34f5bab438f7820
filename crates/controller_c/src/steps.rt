//! The calls by which C code steps a controller that runs.
ghost use Rattle.std.specs.Prelude.{◌≡◌, ◌≢◌};
ghost use Rattle.param_load.specs.Profile.{allows_id};
ghost use Rattle.multi_master.specs.Calls.{Deliver, Tick, Reset, Nonce, Hold};
ghost use Rattle.multi_master.specs.Standing.{AnswersFrame, AnswersTick, AnswersReset, Follows};
ghost use Rattle.c_values.specs.Place.{Between, IfThere};
ghost use Rattle.controller_c.specs.Answers.{if_connected, if_running, if_set, if_stepping};
ghost use Rattle.controller_c.specs.ControllerView.{masters_of};
ghost use Rattle.controller_c.specs.Counts.{CountsEach};
ghost use Rattle.controller_c.specs.Handle.{IsSoundController, answer_by};
ghost use Rattle.controller_c.specs.Told.{AnswersCounted, ClearsAt, DidAtTick, GuardsOffers, Leaves, TellsStep};

use crate::controller::GpController;
use crate::counts::{GpCounts, count_each};
use crate::lent::{connected, lent, running};
use crate::numbers::{NO_CONNECTION, NOT_RUNNING};
use c_values::numbers::{BAD_NONCE, NO_END, OK};
use c_values::told::{GpDid, GpFrame};

/// Delivers a frame of the slave of this connection, of any number of bytes. Writes the result to `did`, and the frame
/// to send to `out`, empty if none is sent.
#[unsafe(no_mangle)]
#[tactic(auto, using(c_values::proofs::Places::vacuous, crate::proofs::Places::guards))]
pub extern "C" fn gp_controller_deliver(
    controller: &mut GpController,
    connection: u16,
    frame: &[u8],
    out: &mut GpFrame,
    did: &mut GpDid,
) -> u8
    requires { IsSoundController controller.old }
    ensures sound { IsSoundController controller.new }
    ensures same { controller.new.live ≡ controller.old.live }
    ensures place { controller.new.place.at ≡ controller.old.place.at }
    ensures answer { result ≡ answer_by controller.old.place.controller (λ old. if_stepping old connection OK) }
    ensures follows { result ≡ OK → Between controller.old.place.controller controller.new.place.controller (λ old new. Follows (masters_of old.multi) (Deliver connection frame.now) (masters_of new.multi)) }
    ensures guarded { result ≡ OK → IfThere controller.old.place.controller (λ old. GuardsOffers (masters_of old.multi) (Deliver connection frame.now)) }
    ensures rest { result ≡ OK → Between controller.old.place.controller controller.new.place.controller (λ old new. Leaves old (record old { multi = new.multi; counts = new.counts }) new) }
    ensures tells { result ≡ OK → Between controller.old.place.controller controller.new.place.controller (λ old new. TellsStep (AnswersCounted (AnswersFrame (masters_of old.multi) connection frame.now) connection old new) did.old did.new out.old out.new) }
    ensures refused { result ≢ OK → (controller.new ≡ controller.old) × (out.new ≡ out.old) × (did.new ≡ did.old) }
{
    let room = connected!(running!(controller), connection);
    room.multi
        .deliver_into(connection, frame, &mut room.heard, &mut room.sent);
    out.set(&room.sent);
    did.set(&room.heard);
    room.counts[usize::from(connection) - 1].add(&room.heard);
    OK
}

/// Counts a tick at all connections. `gp_controller_ticked` tells then what each of them did and sent.
#[unsafe(no_mangle)]
#[tactic(auto, using(c_values::proofs::Places::vacuous, crate::proofs::Places::guards))]
pub extern "C" fn gp_controller_tick(controller: &mut GpController) -> u8
    requires { IsSoundController controller.old }
    ensures sound { IsSoundController controller.new }
    ensures same { controller.new.live ≡ controller.old.live }
    ensures place { controller.new.place.at ≡ controller.old.place.at }
    ensures answer { result ≡ answer_by controller.old.place.controller (λ old. if_running old OK) }
    ensures follows { result ≡ OK → Between controller.old.place.controller controller.new.place.controller (λ old new. Follows (masters_of old.multi) Tick (masters_of new.multi)) }
    ensures guarded { result ≡ OK → IfThere controller.old.place.controller (λ old. GuardsOffers (masters_of old.multi) Tick) }
    ensures rest { result ≡ OK → Between controller.old.place.controller controller.new.place.controller (λ old new. Leaves old (record old { multi = new.multi; dids = new.dids; frames = new.frames; counts = new.counts }) new) }
    ensures answers { result ≡ OK → Between controller.old.place.controller controller.new.place.controller (λ old new. AnswersTick (masters_of old.multi) new.dids new.frames) }
    ensures counted { result ≡ OK → Between controller.old.place.controller controller.new.place.controller (λ old new. CountsEach old.counts new.dids new.counts) }
    ensures refused { result ≢ OK → controller.new ≡ controller.old }
{
    let room = running!(controller);
    room.multi
        .tick(room.frames.as_mut_slice(), room.dids.as_mut_slice());
    count_each(room.counts.as_mut_slice(), room.dids.as_slice());
    OK
}

/// Writes what this connection did at the last tick to `did`, and the frame that it is to send to `out`, empty if it
/// sends none.
#[unsafe(no_mangle)]
#[tactic(auto, using(c_values::proofs::Places::vacuous))]
pub extern "C" fn gp_controller_ticked(
    controller: &mut GpController,
    connection: u16,
    out: &mut GpFrame,
    did: &mut GpDid,
) -> u8
    requires { IsSoundController controller.old }
    ensures unchanged { controller.new ≡ controller.old }
    ensures answer { result ≡ answer_by controller.old.place.controller (λ old. if_stepping old connection OK) }
    ensures tells { result ≡ OK → IfThere controller.old.place.controller (λ old. TellsStep (DidAtTick old connection) did.old did.new out.old out.new) }
    ensures refused { result ≢ OK → (out.new ≡ out.old) × (did.new ≡ did.old) }
{
    let room = connected!(running!(controller), connection);
    let place = usize::from(connection) - 1;
    out.set(&room.frames[place]);
    did.set(&room.dids[place]);
    OK
}

/// Ends the session of this connection, if there is one. Writes the result to `did`, and the Reset frame to send to
/// `out`.
#[unsafe(no_mangle)]
#[tactic(auto, using(c_values::proofs::Places::vacuous, crate::proofs::Places::guards))]
pub extern "C" fn gp_controller_reset(
    controller: &mut GpController,
    connection: u16,
    out: &mut GpFrame,
    did: &mut GpDid,
) -> u8
    requires { IsSoundController controller.old }
    ensures sound { IsSoundController controller.new }
    ensures same { controller.new.live ≡ controller.old.live }
    ensures place { controller.new.place.at ≡ controller.old.place.at }
    ensures answer { result ≡ answer_by controller.old.place.controller (λ old. if_stepping old connection OK) }
    ensures follows { result ≡ OK → Between controller.old.place.controller controller.new.place.controller (λ old new. Follows (masters_of old.multi) (Reset connection) (masters_of new.multi)) }
    ensures guarded { result ≡ OK → IfThere controller.old.place.controller (λ old. GuardsOffers (masters_of old.multi) (Reset connection)) }
    ensures rest { result ≡ OK → Between controller.old.place.controller controller.new.place.controller (λ old new. Leaves old (record old { multi = new.multi; counts = new.counts }) new) }
    ensures tells { result ≡ OK → Between controller.old.place.controller controller.new.place.controller (λ old new. TellsStep (AnswersCounted (AnswersReset (masters_of old.multi) connection) connection old new) did.old did.new out.old out.new) }
    ensures refused { result ≢ OK → (controller.new ≡ controller.old) × (out.new ≡ out.old) × (did.new ≡ did.old) }
{
    let room = connected!(running!(controller), connection);
    let done = room.multi.reset(connection, &mut room.sent);
    out.set(&room.sent);
    did.set(&done);
    room.counts[usize::from(connection) - 1].add(&done);
    OK
}

/// Switches fail-safe data of this connection on or off: while on, its master sends zeros in place of the offer. It
/// outlasts resets.
#[unsafe(no_mangle)]
#[tactic(auto, using(c_values::proofs::Places::vacuous))]
pub extern "C" fn gp_controller_hold(
    controller: &mut GpController,
    connection: u16,
    failsafe: bool,
) -> u8
    requires { IsSoundController controller.old }
    ensures sound { IsSoundController controller.new }
    ensures same { controller.new.live ≡ controller.old.live }
    ensures place { controller.new.place.at ≡ controller.old.place.at }
    ensures answer { result ≡ answer_by controller.old.place.controller (λ old. if_stepping old connection OK) }
    ensures follows { result ≡ OK → Between controller.old.place.controller controller.new.place.controller (λ old new. Follows (masters_of old.multi) (Hold connection failsafe) (masters_of new.multi)) }
    ensures rest { result ≡ OK → Between controller.old.place.controller controller.new.place.controller (λ old new. Leaves old (record old { multi = new.multi }) new) }
    ensures refused { result ≢ OK → controller.new ≡ controller.old }
{
    let room = connected!(running!(controller), connection);
    room.multi.hold(connection, failsafe);
    OK
}

/// Sets the id of all sessions of this connection whose first Session frame is sent after this call, at most 65,535 in
/// profile One. It outlasts resets: give a fresh one before each session.
#[unsafe(no_mangle)]
#[tactic(auto, using(c_values::proofs::Places::vacuous))]
pub extern "C" fn gp_controller_nonce(controller: &mut GpController, connection: u16, id: u32) -> u8
    requires { IsSoundController controller.old }
    ensures sound { IsSoundController controller.new }
    ensures same { controller.new.live ≡ controller.old.live }
    ensures place { controller.new.place.at ≡ controller.old.place.at }
    ensures answer { result ≡ answer_by controller.old.place.controller (λ old. if_stepping old connection (if_set old connection (λ s. allows_id s.profile id) BAD_NONCE)) }
    ensures follows { result ≡ OK → Between controller.old.place.controller controller.new.place.controller (λ old new. Follows (masters_of old.multi) (Nonce connection id) (masters_of new.multi)) }
    ensures rest { result ≡ OK → Between controller.old.place.controller controller.new.place.controller (λ old new. Leaves old (record old { multi = new.multi }) new) }
    ensures refused { result ≢ OK → controller.new ≡ controller.old }
{
    let room = connected!(running!(controller), connection);
    if !room.multi.settings(connection).profile().allows_id(id) {
        return BAD_NONCE;
    }
    room.multi.session_id(connection, id);
    OK
}

/// Clears the counts of this connection.
#[unsafe(no_mangle)]
#[tactic(auto, using(c_values::proofs::Places::vacuous))]
pub extern "C" fn gp_controller_clear_counts(controller: &mut GpController, connection: u16) -> u8
    requires { IsSoundController controller.old }
    ensures sound { IsSoundController controller.new }
    ensures same { controller.new.live ≡ controller.old.live }
    ensures place { controller.new.place.at ≡ controller.old.place.at }
    ensures answer { result ≡ answer_by controller.old.place.controller (λ old. if_connected old connection OK) }
    ensures cleared { result ≡ OK → Between controller.old.place.controller controller.new.place.controller (λ old new. ClearsAt connection old.counts new.counts) }
    ensures rest { result ≡ OK → Between controller.old.place.controller controller.new.place.controller (λ old new. Leaves old (record old { counts = new.counts }) new) }
    ensures refused { result ≢ OK → controller.new ≡ controller.old }
{
    let room = connected!(lent!(controller), connection);
    room.counts[usize::from(connection) - 1] = GpCounts::none();
    OK
}
