//! The calls that C code makes of a master.
ghost use Rattle.std.specs.Prelude.{◌≡◌, ◌≢◌, ◌≤◌, ◌==◌, true, false, not, drop, length, nat_le, if◌then◌else◌};
ghost use Rattle.param_load.specs.Profile.{allows_id};
ghost use Rattle.param_load.specs.declared.entry.Move.TheVariants as event;
ghost use Rattle.end_model.specs.Setup.{OfMaster, sends};
ghost use Rattle.master_core.specs.Now.{is_due};
ghost use Rattle.master_core.specs.Standing.{Follows, MasterIsAfter};
ghost use Rattle.master_core.specs.Waiting.{Keeps, Replies};
ghost use Rattle.fsoe_c.specs.Handle.{IsAtRest, IsSoundMaster};
ghost use Rattle.c_values.specs.Numbers.{flag};
ghost use Rattle.c_values.specs.Place.{Between, IfThere, answered, has_memory, served};
ghost use Rattle.c_values.specs.Settings.{master_refusal};
ghost use Rattle.fsoe_c.specs.Ids.{IdsFollow, IdsKeep, IdsReply};
ghost use Rattle.fsoe_c.specs.Settings.{IsNewMaster};
ghost use Rattle.c_values.specs.Told.{frame_of, leads_on};
ghost use Rattle.fsoe_c.specs.Told.{AcceptsTelling, MasterTells};

use crate::lent::{lent, vacant};
use crate::master_place::MasterPlace;
use crate::master_room::MasterRoom;
use c_values::numbers::{
    BAD_APP, BAD_LENGTH, BAD_NONCE, BUSY, FRAME_DUE, NO_END, NO_ROOM, NONE_DUE, OK, flag,
};
use c_values::settings::{GpMasterSettings, app_of, master_settings};
use c_values::told::{GpDid, GpFrame};
use std::mem::{align_of, size_of};

/// The handle of a master: where its memory lies, and whether a master is there.
#[repr(C)]
pub struct GpMaster {
    pub place: MasterPlace,
    pub live: bool,
}

/// The bytes of memory that a master takes, `GP_MASTER_SIZE` in the header.
#[unsafe(no_mangle)]
pub extern "C" fn gp_master_size() -> usize
    ensures { result ≡ 2336 }
{
    size_of::<MasterRoom>()
}

/// The alignment of that memory.
#[unsafe(no_mangle)]
pub extern "C" fn gp_master_align() -> usize
    ensures { result ≡ 8 }
{
    align_of::<MasterRoom>()
}

/// Makes a master with these application parameters, which it sends to its slave.
#[unsafe(no_mangle)]
pub extern "C" fn gp_master_init(master: &mut GpMaster, set: &GpMasterSettings, app: &[u8]) -> u8
    requires { IsSoundMaster master.old }
    ensures sound { IsSoundMaster master.new }
    ensures answer { result ≡ (if master.old.live then BUSY else if has_memory master.old.place.at then if nat_le (length app.now) 512 then master_refusal set.now else BAD_APP else NO_ROOM) }
    ensures live { result ≡ OK → master.new.live ≡ true }
    ensures made { result ≡ OK → IfThere master.new.place.master (IsNewMaster set.now app.now) }
    ensures rest { result ≡ OK → IsAtRest master.new.place.master }
    ensures refused { result ≢ OK → master.new ≡ master.old }
{
    vacant!(master);
    let Some(app) = app_of(app) else {
        return BAD_APP;
    };
    match master_settings(set, app) {
        Ok(settings) => {
            master.place.put(MasterRoom::new(settings));
            master.live = true;
            OK
        }
        Err(number) => number,
    }
}

/// Ends the use of the master. The memory is the caller's again.
#[unsafe(no_mangle)]
pub extern "C" fn gp_master_end(master: &mut GpMaster) -> u8
    requires { IsSoundMaster master.old }
    ensures sound { IsSoundMaster master.new }
    ensures over { master.new.live ≡ false }
    ensures answer { result ≡ served master.old.live }
    ensures refused { result ≢ OK → master.new ≡ master.old }
{
    if !master.live {
        return NO_END;
    }
    master.place.clear();
    master.live = false;
    OK
}

/// Delivers a frame of the slave, of any number of bytes. Writes the result to `did`, and the frame to send to `out`,
/// empty if none is sent.
#[unsafe(no_mangle)]
#[tactic(auto, using(c_values::proofs::Places::vacuous, c_values::proofs::Places::unserved, c_values::proofs::Places::passes, c_values::proofs::Places::fails))]
pub extern "C" fn gp_master_deliver(
    master: &mut GpMaster,
    frame: &[u8],
    out: &mut GpFrame,
    did: &mut GpDid,
) -> u8
    requires { IsSoundMaster master.old }
    ensures sound { IsSoundMaster master.new }
    ensures same { master.new.live ≡ master.old.live }
    ensures answer { result ≡ answered master.old.place.master (λ old. not (is_due old.core.state)) FRAME_DUE }
    ensures rest { result ≡ OK → IsAtRest master.new.place.master }
    ensures follows { result ≡ OK → Between master.old.place.master master.new.place.master (λ old new. Follows old.core (event.Deliver frame.now) new.core) }
    ensures ids { result ≡ OK → Between master.old.place.master master.new.place.master (λ old new. IdsFollow MasterIsAfter OfMaster old (event.Deliver frame.now) new) }
    ensures tells { result ≡ OK → IfThere master.old.place.master (λ old. MasterTells old (event.Deliver frame.now) did.old did.new out.old out.new) }
    ensures refused { result ≢ OK → (master.new ≡ master.old) × (out.new ≡ out.old) × (did.new ≡ did.old) }
{
    let room = lent!(master);
    if room.master.due() {
        return FRAME_DUE;
    }
    room.master
        .deliver_into(frame, &mut room.heard, &mut room.sent);
    let used = room.ids.note(room.master.state());
    out.set(&room.sent);
    did.set_with_id(&room.heard, used);
    OK
}

/// Accepts a frame of the slave, of any number of bytes, in the first half of a delivery. Writes the result to `did`.
/// If a frame is due then, `reply` writes it.
#[unsafe(no_mangle)]
#[tactic(auto, using(c_values::proofs::Places::vacuous, c_values::proofs::Places::unserved, c_values::proofs::Places::passes, c_values::proofs::Places::fails, crate::proofs::Places::master_accepts))]
pub extern "C" fn gp_master_accept(master: &mut GpMaster, frame: &[u8], did: &mut GpDid) -> u8
    requires { IsSoundMaster master.old }
    ensures sound { IsSoundMaster master.new }
    ensures same { master.new.live ≡ master.old.live }
    ensures answer { result ≡ answered master.old.place.master (λ old. not (is_due old.core.state)) FRAME_DUE }
    ensures accepts { result ≡ OK → Between master.old.place.master master.new.place.master (λ old new. AcceptsTelling old frame.now did.new new) }
    ensures due_told { result ≡ OK → IfThere master.new.place.master (λ new. is_due new.core.state ≡ leads_on did.new) }
    ensures unsent { result ≡ OK → did.new.sent ≡ 0 }
    ensures past_load { drop did.new.load_len did.new.load ≡ drop did.new.load_len did.old.load }
    ensures refused { result ≢ OK → (master.new ≡ master.old) × (did.new ≡ did.old) }
{
    let room = lent!(master);
    if room.master.due() {
        return FRAME_DUE;
    }
    room.master.accept_into(frame, &mut room.heard);
    let used = room
        .ids
        .note_accepted(room.master.state(), room.master.due());
    did.set_with_id(&room.heard, used);
    OK
}

/// Writes 1 if a frame is due, else 0.
#[unsafe(no_mangle)]
#[tactic(auto, using(c_values::proofs::Places::vacuous))]
pub extern "C" fn gp_master_due(master: &mut GpMaster, due: &mut u8) -> u8
    requires { IsSoundMaster master.old }
    ensures unchanged { master.new ≡ master.old }
    ensures answer { result ≡ served master.old.live }
    ensures due { result ≡ OK → IfThere master.old.place.master (λ old. due.new ≡ flag (is_due old.core.state)) }
    ensures refused { result ≢ OK → due.new ≡ due.old }
{
    let room = lent!(master);
    *due = flag(room.master.due());
    OK
}

/// Writes the due frame to `out`, in the second half of a delivery. It carries what was put last.
#[unsafe(no_mangle)]
#[tactic(auto, using(c_values::proofs::Places::vacuous, c_values::proofs::Places::unserved, c_values::proofs::Places::passes, c_values::proofs::Places::fails))]
pub extern "C" fn gp_master_reply(master: &mut GpMaster, out: &mut GpFrame) -> u8
    requires { IsSoundMaster master.old }
    ensures sound { IsSoundMaster master.new }
    ensures same { master.new.live ≡ master.old.live }
    ensures answer { result ≡ answered master.old.place.master (λ old. is_due old.core.state) NONE_DUE }
    ensures rest { result ≡ OK → IsAtRest master.new.place.master }
    ensures replies { result ≡ OK → Between master.old.place.master master.new.place.master (λ old new. Replies old.core new.core (frame_of out.new)) }
    ensures ids { result ≡ OK → Between master.old.place.master master.new.place.master IdsReply }
    ensures len { result ≡ OK → out.new.len ≤ 255 }
    ensures past_out { drop out.new.len out.new.bytes ≡ drop out.new.len out.old.bytes }
    ensures refused { result ≢ OK → (master.new ≡ master.old) × (out.new ≡ out.old) }
{
    let room = lent!(master);
    if !room.master.due() {
        return NONE_DUE;
    }
    room.master.reply(&mut room.sent);
    room.ids.note(room.master.state());
    out.set(&room.sent);
    OK
}

/// Counts a tick. Writes the result to `did`, and the frame to send to `out`, empty if none is sent.
#[unsafe(no_mangle)]
#[tactic(auto, using(c_values::proofs::Places::vacuous, c_values::proofs::Places::unserved, c_values::proofs::Places::passes, c_values::proofs::Places::fails))]
pub extern "C" fn gp_master_tick(master: &mut GpMaster, out: &mut GpFrame, did: &mut GpDid) -> u8
    requires { IsSoundMaster master.old }
    ensures sound { IsSoundMaster master.new }
    ensures same { master.new.live ≡ master.old.live }
    ensures answer { result ≡ answered master.old.place.master (λ old. not (is_due old.core.state)) FRAME_DUE }
    ensures rest { result ≡ OK → IsAtRest master.new.place.master }
    ensures follows { result ≡ OK → Between master.old.place.master master.new.place.master (λ old new. Follows old.core event.Tick new.core) }
    ensures ids { result ≡ OK → Between master.old.place.master master.new.place.master (λ old new. IdsFollow MasterIsAfter OfMaster old event.Tick new) }
    ensures tells { result ≡ OK → IfThere master.old.place.master (λ old. MasterTells old event.Tick did.old did.new out.old out.new) }
    ensures refused { result ≢ OK → (master.new ≡ master.old) × (out.new ≡ out.old) × (did.new ≡ did.old) }
{
    let room = lent!(master);
    if room.master.due() {
        return FRAME_DUE;
    }
    room.master.tick_into(&mut room.ticked, &mut room.sent);
    let used = room.ids.note(room.master.state());
    out.set(&room.sent);
    did.set_with_id(&room.ticked, used);
    OK
}

/// Ends the session, if there is one. Writes the result to `did`, and the Reset frame to send to `out`.
#[unsafe(no_mangle)]
#[tactic(auto, using(c_values::proofs::Places::vacuous, c_values::proofs::Places::unserved, c_values::proofs::Places::passes, c_values::proofs::Places::fails))]
pub extern "C" fn gp_master_reset(master: &mut GpMaster, out: &mut GpFrame, did: &mut GpDid) -> u8
    requires { IsSoundMaster master.old }
    ensures sound { IsSoundMaster master.new }
    ensures same { master.new.live ≡ master.old.live }
    ensures answer { result ≡ answered master.old.place.master (λ old. not (is_due old.core.state)) FRAME_DUE }
    ensures rest { result ≡ OK → IsAtRest master.new.place.master }
    ensures follows { result ≡ OK → Between master.old.place.master master.new.place.master (λ old new. Follows old.core event.Local new.core) }
    ensures ids { result ≡ OK → Between master.old.place.master master.new.place.master (λ old new. IdsFollow MasterIsAfter OfMaster old event.Local new) }
    ensures tells { result ≡ OK → IfThere master.old.place.master (λ old. MasterTells old event.Local did.old did.new out.old out.new) }
    ensures refused { result ≢ OK → (master.new ≡ master.old) × (out.new ≡ out.old) × (did.new ≡ did.old) }
{
    let room = lent!(master);
    if room.master.due() {
        return FRAME_DUE;
    }
    let done = room.master.reset(&mut room.sent);
    let used = room.ids.note(room.master.state());
    out.set(&room.sent);
    did.set_with_id(&done, used);
    OK
}

/// Sets the safe data to send from now on, as many bytes as the master's frames carry. The offer outlasts resets.
#[unsafe(no_mangle)]
#[tactic(auto, using(c_values::proofs::Places::vacuous, c_values::proofs::Places::unserved, c_values::proofs::Places::passes, c_values::proofs::Places::fails, crate::proofs::Places::ids_keep))]
pub extern "C" fn gp_master_put(master: &mut GpMaster, load: &[u8]) -> u8
    requires { IsSoundMaster master.old }
    ensures sound { IsSoundMaster master.new }
    ensures same { master.new.live ≡ master.old.live }
    ensures answer { result ≡ answered master.old.place.master (λ old. length load.now == sends (OfMaster old.core.kit.settings)) BAD_LENGTH }
    ensures follows { result ≡ OK → Between master.old.place.master master.new.place.master (λ old new. Follows old.core (event.Put load.now) new.core) }
    ensures ids { result ≡ OK → Between master.old.place.master master.new.place.master (λ old new. IdsKeep OfMaster old.ids (event.Put load.now) new.ids) }
    ensures keeps { result ≡ OK → Between master.old.place.master master.new.place.master (λ old new. Keeps old.core (event.Put load.now) new.core) }
    ensures due { Between master.old.place.master master.new.place.master (λ old new. is_due new.core.state ≡ is_due old.core.state) }
    ensures refused { result ≢ OK → master.new ≡ master.old }
{
    let room = lent!(master);
    if load.len() != room.master.settings().own_len() {
        return BAD_LENGTH;
    }
    room.master.put(load);
    OK
}

/// Switches fail-safe data on or off: while on, zeros are sent in place of the offer. It outlasts resets.
#[unsafe(no_mangle)]
#[tactic(auto, using(c_values::proofs::Places::vacuous, crate::proofs::Places::ids_keep))]
pub extern "C" fn gp_master_hold(master: &mut GpMaster, failsafe: bool) -> u8
    requires { IsSoundMaster master.old }
    ensures sound { IsSoundMaster master.new }
    ensures same { master.new.live ≡ master.old.live }
    ensures answer { result ≡ served master.old.live }
    ensures follows { result ≡ OK → Between master.old.place.master master.new.place.master (λ old new. Follows old.core (event.Hold failsafe) new.core) }
    ensures ids { result ≡ OK → Between master.old.place.master master.new.place.master (λ old new. IdsKeep OfMaster old.ids (event.Hold failsafe) new.ids) }
    ensures keeps { result ≡ OK → Between master.old.place.master master.new.place.master (λ old new. Keeps old.core (event.Hold failsafe) new.core) }
    ensures due { Between master.old.place.master master.new.place.master (λ old new. is_due new.core.state ≡ is_due old.core.state) }
    ensures refused { result ≢ OK → master.new ≡ master.old }
{
    let room = lent!(master);
    room.master.hold(failsafe);
    OK
}

/// Sets the id of all sessions whose first Session frame is sent after this call, at most 65,535 in profile One. It
/// outlasts resets: give a fresh one before each session.
#[unsafe(no_mangle)]
#[tactic(auto, using(c_values::proofs::Places::vacuous, c_values::proofs::Places::unserved, c_values::proofs::Places::passes, c_values::proofs::Places::fails, crate::proofs::Places::ids_keep))]
pub extern "C" fn gp_master_nonce(master: &mut GpMaster, id: u32) -> u8
    requires { IsSoundMaster master.old }
    ensures sound { IsSoundMaster master.new }
    ensures same { master.new.live ≡ master.old.live }
    ensures answer { result ≡ answered master.old.place.master (λ old. allows_id old.core.kit.settings.profile id) BAD_NONCE }
    ensures follows { result ≡ OK → Between master.old.place.master master.new.place.master (λ old new. Follows old.core (event.Nonce id) new.core) }
    ensures ids { result ≡ OK → Between master.old.place.master master.new.place.master (λ old new. IdsKeep OfMaster old.ids (event.Nonce id) new.ids) }
    ensures keeps { result ≡ OK → Between master.old.place.master master.new.place.master (λ old new. Keeps old.core (event.Nonce id) new.core) }
    ensures due { Between master.old.place.master master.new.place.master (λ old new. is_due new.core.state ≡ is_due old.core.state) }
    ensures refused { result ≢ OK → master.new ≡ master.old }
{
    let room = lent!(master);
    if !room.master.settings().profile().allows_id(id) {
        return BAD_NONCE;
    }
    room.master.nonce(id);
    room.ids.nonce = id;
    OK
}
