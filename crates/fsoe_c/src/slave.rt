//! The calls that C code makes of a slave.
ghost use Rattle.std.specs.Prelude.{◌≡◌, ◌≢◌, ◌==◌, ◌&&◌, IsTrue, true, false, length, nat_le, if◌then◌else◌};
ghost use Rattle.param_load.specs.Profile.{allows_id};
ghost use Rattle.param_load.specs.declared.app_rule.AppRule.TheVariants as rule;
ghost use Rattle.param_load.specs.declared.entry.Move.TheVariants as event;
ghost use Rattle.end_model.specs.Setup.{OfSlave, sends};
ghost use Rattle.slave_core.specs.Standing.{Follows, SlaveIsAfter};
ghost use Rattle.fsoe_c.specs.Handle.{IsSoundSlave};
ghost use Rattle.c_values.specs.Place.{Between, IfThere, answered, has_memory, served};
ghost use Rattle.c_values.specs.Settings.{slave_refusal};
ghost use Rattle.fsoe_c.specs.Ids.{IdsFollow, IdsKeep};
ghost use Rattle.fsoe_c.specs.Settings.{IsNewSlave};
ghost use Rattle.fsoe_c.specs.Told.{SlaveTells};

use crate::lent::{lent, vacant};
use crate::slave_place::SlavePlace;
use crate::slave_room::SlaveRoom;
use c_values::numbers::{BAD_APP, BAD_LENGTH, BAD_NONCE, BUSY, NO_END, NO_ROOM, OK};
use c_values::settings::{GpSlaveSettings, app_of, slave_settings};
use c_values::told::{GpDid, GpFrame};
use param_load::AppRule;
use std::mem::{align_of, size_of};

/// The handle of a slave: where its memory lies, and whether a slave is there.
#[repr(C)]
pub struct GpSlave {
    pub place: SlavePlace,
    pub live: bool,
}

/// The bytes of memory that a slave takes, `GP_SLAVE_SIZE` in the header.
#[unsafe(no_mangle)]
pub extern "C" fn gp_slave_size() -> usize
    ensures { result ≡ 2888 }
{
    size_of::<SlaveRoom>()
}

/// The alignment of that memory.
#[unsafe(no_mangle)]
pub extern "C" fn gp_slave_align() -> usize
    ensures { result ≡ 8 }
{
    align_of::<SlaveRoom>()
}

/// Makes a slave with this rule if none is there. Returns the number of the first fault of the settings, else 0.
fn start(slave: &mut GpSlave, set: &GpSlaveSettings, rule: AppRule) -> u8
    requires sound { IsSoundSlave slave.old }
    requires free { slave.old.live ≡ false }
    requires memory { IsTrue (has_memory slave.old.place.at) }
    ensures sound { IsSoundSlave slave.new }
    ensures refusal { result ≡ slave_refusal set.now rule }
    ensures live { result ≡ OK → slave.new.live ≡ true }
    ensures made { result ≡ OK → IfThere slave.new.place.slave (IsNewSlave set.now rule) }
    ensures refused { result ≢ OK → slave.new ≡ slave.old }
{
    match slave_settings(set, rule) {
        Ok(settings) => {
            slave.place.put(SlaveRoom::new(settings));
            slave.live = true;
            OK
        }
        Err(number) => number,
    }
}

/// Makes a slave that accepts any list of `app_len` application parameters.
#[unsafe(no_mangle)]
pub extern "C" fn gp_slave_init(slave: &mut GpSlave, set: &GpSlaveSettings, app_len: u16) -> u8
    requires { IsSoundSlave slave.old }
    ensures sound { IsSoundSlave slave.new }
    ensures answer { result ≡ (if slave.old.live then BUSY else if has_memory slave.old.place.at then slave_refusal set.now (rule.Any app_len) else NO_ROOM) }
    ensures live { result ≡ OK → slave.new.live ≡ true }
    ensures made { result ≡ OK → IfThere slave.new.place.slave (IsNewSlave set.now (rule.Any app_len)) }
    ensures refused { result ≢ OK → slave.new ≡ slave.old }
{
    vacant!(slave);
    start(slave, set, AppRule::Any(app_len))
}

/// Makes a slave that accepts only these application parameters.
#[unsafe(no_mangle)]
pub extern "C" fn gp_slave_init_exact(slave: &mut GpSlave, set: &GpSlaveSettings, app: &[u8]) -> u8
    requires { IsSoundSlave slave.old }
    ensures sound { IsSoundSlave slave.new }
    ensures answer { result ≡ (if slave.old.live then BUSY else if has_memory slave.old.place.at then if nat_le (length app.now) 512 then slave_refusal set.now (rule.Exact app.now) else BAD_APP else NO_ROOM) }
    ensures live { result ≡ OK → slave.new.live ≡ true }
    ensures made { result ≡ OK → IfThere slave.new.place.slave (IsNewSlave set.now (rule.Exact app.now)) }
    ensures refused { result ≢ OK → slave.new ≡ slave.old }
{
    vacant!(slave);
    let Some(want) = app_of(app) else {
        return BAD_APP;
    };
    start(slave, set, AppRule::Exact(want))
}

/// Makes a slave that accepts application parameters if each is from the lowest to the highest value at its place.
#[unsafe(no_mangle)]
pub extern "C" fn gp_slave_init_ranges(
    slave: &mut GpSlave,
    set: &GpSlaveSettings,
    low: &[u8],
    high: &[u8],
) -> u8
    requires { IsSoundSlave slave.old }
    ensures sound { IsSoundSlave slave.new }
    ensures answer { result ≡ (if slave.old.live then BUSY else if has_memory slave.old.place.at then if nat_le (length low.now) 512 && nat_le (length high.now) 512 then slave_refusal set.now (rule.Ranges low.now high.now) else BAD_APP else NO_ROOM) }
    ensures live { result ≡ OK → slave.new.live ≡ true }
    ensures made { result ≡ OK → IfThere slave.new.place.slave (IsNewSlave set.now (rule.Ranges low.now high.now)) }
    ensures refused { result ≢ OK → slave.new ≡ slave.old }
{
    vacant!(slave);
    let Some(lowest) = app_of(low) else {
        return BAD_APP;
    };
    let Some(highest) = app_of(high) else {
        return BAD_APP;
    };
    start(slave, set, AppRule::Ranges(lowest, highest))
}

/// Ends the use of the slave. The memory is the caller's again.
#[unsafe(no_mangle)]
pub extern "C" fn gp_slave_end(slave: &mut GpSlave) -> u8
    requires { IsSoundSlave slave.old }
    ensures sound { IsSoundSlave slave.new }
    ensures over { slave.new.live ≡ false }
    ensures answer { result ≡ served slave.old.live }
    ensures refused { result ≢ OK → slave.new ≡ slave.old }
{
    if !slave.live {
        return NO_END;
    }
    slave.place.clear();
    slave.live = false;
    OK
}

/// Delivers a frame of the master, of any number of bytes. Writes the result to `did`, and the frame to send to `out`,
/// empty if none is sent.
#[unsafe(no_mangle)]
#[tactic(auto, using(c_values::proofs::Places::vacuous))]
pub extern "C" fn gp_slave_deliver(
    slave: &mut GpSlave,
    frame: &[u8],
    out: &mut GpFrame,
    did: &mut GpDid,
) -> u8
    requires { IsSoundSlave slave.old }
    ensures sound { IsSoundSlave slave.new }
    ensures same { slave.new.live ≡ slave.old.live }
    ensures answer { result ≡ served slave.old.live }
    ensures follows { result ≡ OK → Between slave.old.place.slave slave.new.place.slave (λ old new. Follows old.core (event.Deliver frame.now) new.core) }
    ensures ids { result ≡ OK → Between slave.old.place.slave slave.new.place.slave (λ old new. IdsFollow SlaveIsAfter OfSlave old (event.Deliver frame.now) new) }
    ensures tells { result ≡ OK → IfThere slave.old.place.slave (λ old. SlaveTells old (event.Deliver frame.now) did.old did.new out.old out.new) }
    ensures refused { result ≢ OK → (slave.new ≡ slave.old) × (out.new ≡ out.old) × (did.new ≡ did.old) }
{
    let room = lent!(slave);
    room.slave
        .deliver_into(frame, &mut room.heard, &mut room.sent);
    let used = room.ids.note(room.slave.state());
    out.set(&room.sent);
    did.set_with_id(&room.heard, used);
    OK
}

/// Counts a tick. Writes the result to `did`, and the frame to send to `out`, empty if none is sent.
#[unsafe(no_mangle)]
#[tactic(auto, using(c_values::proofs::Places::vacuous))]
pub extern "C" fn gp_slave_tick(slave: &mut GpSlave, out: &mut GpFrame, did: &mut GpDid) -> u8
    requires { IsSoundSlave slave.old }
    ensures sound { IsSoundSlave slave.new }
    ensures same { slave.new.live ≡ slave.old.live }
    ensures answer { result ≡ served slave.old.live }
    ensures follows { result ≡ OK → Between slave.old.place.slave slave.new.place.slave (λ old new. Follows old.core event.Tick new.core) }
    ensures ids { result ≡ OK → Between slave.old.place.slave slave.new.place.slave (λ old new. IdsFollow SlaveIsAfter OfSlave old event.Tick new) }
    ensures tells { result ≡ OK → IfThere slave.old.place.slave (λ old. SlaveTells old event.Tick did.old did.new out.old out.new) }
    ensures refused { result ≢ OK → (slave.new ≡ slave.old) × (out.new ≡ out.old) × (did.new ≡ did.old) }
{
    let room = lent!(slave);
    room.slave.tick_into(&mut room.ticked, &mut room.sent);
    let used = room.ids.note(room.slave.state());
    out.set(&room.sent);
    did.set_with_id(&room.ticked, used);
    OK
}

/// Ends the session, if there is one. Writes the result to `did`, and the Reset frame to send to `out`.
#[unsafe(no_mangle)]
#[tactic(auto, using(c_values::proofs::Places::vacuous))]
pub extern "C" fn gp_slave_reset(slave: &mut GpSlave, out: &mut GpFrame, did: &mut GpDid) -> u8
    requires { IsSoundSlave slave.old }
    ensures sound { IsSoundSlave slave.new }
    ensures same { slave.new.live ≡ slave.old.live }
    ensures answer { result ≡ served slave.old.live }
    ensures follows { result ≡ OK → Between slave.old.place.slave slave.new.place.slave (λ old new. Follows old.core event.Local new.core) }
    ensures ids { result ≡ OK → Between slave.old.place.slave slave.new.place.slave (λ old new. IdsFollow SlaveIsAfter OfSlave old event.Local new) }
    ensures tells { result ≡ OK → IfThere slave.old.place.slave (λ old. SlaveTells old event.Local did.old did.new out.old out.new) }
    ensures refused { result ≢ OK → (slave.new ≡ slave.old) × (out.new ≡ out.old) × (did.new ≡ did.old) }
{
    let room = lent!(slave);
    let done = room.slave.reset(&mut room.sent);
    let used = room.ids.note(room.slave.state());
    out.set(&room.sent);
    did.set_with_id(&done, used);
    OK
}

/// Sets the safe data to send from now on, as many bytes as the slave's frames carry. The offer outlasts resets.
#[unsafe(no_mangle)]
#[tactic(auto, using(c_values::proofs::Places::vacuous, c_values::proofs::Places::unserved, c_values::proofs::Places::passes, c_values::proofs::Places::fails, crate::proofs::Places::ids_keep))]
pub extern "C" fn gp_slave_put(slave: &mut GpSlave, load: &[u8]) -> u8
    requires { IsSoundSlave slave.old }
    ensures sound { IsSoundSlave slave.new }
    ensures same { slave.new.live ≡ slave.old.live }
    ensures answer { result ≡ answered slave.old.place.slave (λ old. length load.now == sends (OfSlave old.core.kit.settings)) BAD_LENGTH }
    ensures follows { result ≡ OK → Between slave.old.place.slave slave.new.place.slave (λ old new. Follows old.core (event.Put load.now) new.core) }
    ensures ids { result ≡ OK → Between slave.old.place.slave slave.new.place.slave (λ old new. IdsKeep OfSlave old.ids (event.Put load.now) new.ids) }
    ensures refused { result ≢ OK → slave.new ≡ slave.old }
{
    let room = lent!(slave);
    if load.len() != room.slave.settings().own_len() {
        return BAD_LENGTH;
    }
    room.slave.put(load);
    OK
}

/// Switches fail-safe data on or off: while on, zeros are sent in place of the offer. It outlasts resets.
#[unsafe(no_mangle)]
#[tactic(auto, using(c_values::proofs::Places::vacuous, crate::proofs::Places::ids_keep))]
pub extern "C" fn gp_slave_hold(slave: &mut GpSlave, failsafe: bool) -> u8
    requires { IsSoundSlave slave.old }
    ensures sound { IsSoundSlave slave.new }
    ensures same { slave.new.live ≡ slave.old.live }
    ensures answer { result ≡ served slave.old.live }
    ensures follows { result ≡ OK → Between slave.old.place.slave slave.new.place.slave (λ old new. Follows old.core (event.Hold failsafe) new.core) }
    ensures ids { result ≡ OK → Between slave.old.place.slave slave.new.place.slave (λ old new. IdsKeep OfSlave old.ids (event.Hold failsafe) new.ids) }
    ensures refused { result ≢ OK → slave.new ≡ slave.old }
{
    let room = lent!(slave);
    room.slave.hold(failsafe);
    OK
}

/// Sets the id of all sessions whose first Session frame is sent after this call, at most 65,535 in profile One. It
/// outlasts resets: give a fresh one before each session.
#[unsafe(no_mangle)]
#[tactic(auto, using(c_values::proofs::Places::vacuous, c_values::proofs::Places::unserved, c_values::proofs::Places::passes, c_values::proofs::Places::fails, crate::proofs::Places::ids_keep))]
pub extern "C" fn gp_slave_nonce(slave: &mut GpSlave, id: u32) -> u8
    requires { IsSoundSlave slave.old }
    ensures sound { IsSoundSlave slave.new }
    ensures same { slave.new.live ≡ slave.old.live }
    ensures answer { result ≡ answered slave.old.place.slave (λ old. allows_id old.core.kit.settings.profile id) BAD_NONCE }
    ensures follows { result ≡ OK → Between slave.old.place.slave slave.new.place.slave (λ old new. Follows old.core (event.Nonce id) new.core) }
    ensures ids { result ≡ OK → Between slave.old.place.slave slave.new.place.slave (λ old new. IdsKeep OfSlave old.ids (event.Nonce id) new.ids) }
    ensures refused { result ≢ OK → slave.new ≡ slave.old }
{
    let room = lent!(slave);
    if !room.slave.settings().profile().allows_id(id) {
        return BAD_NONCE;
    }
    room.slave.nonce(id);
    room.ids.nonce = id;
    OK
}
