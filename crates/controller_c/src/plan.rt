//! The calls by which C code says what a controller is to have: connections, blocks and drives. They answer
//! `GP_NO_MEMORY` where the region has no room.
ghost use Rattle.std.specs.Prelude.{◌≡◌, ◌≢◌, ◌<◌, ◌++◌, ◌∷◌, [], length, IfSome, None, Some};
ghost use Rattle.c_values.specs.Place.{Between};
ghost use Rattle.controller_c.specs.Handle.{IsSoundController, answer_by};
ghost use Rattle.controller_c.specs.Making.{AddsBlock, ConnectsBy, block_answer, connect_answer, connection_number, drive_answer, highest_kind, kind_number};
ghost use Rattle.controller_c.specs.Wire.{named_bit, wire_of};

use crate::controller::GpController;
use crate::lent::{idle, lent};
use crate::numbers::{BAD_KIND, NO_MEMORY, RUNNING, SAME_CONN, TOO_MANY};
use crate::wire::{GpBit, GpWire, wires_of};
use c_values::numbers::{BAD_APP, NO_END, OK};
use c_values::settings::{GpMasterSettings, app_of, master_settings};
use fb_lib::{BlockKind, MOST_INPUTS};
use fb_net::{BlockSpec, Drive};
use multi_master::NewFault;

/// The most blocks of a net.
const MOST_BLOCKS: usize = 256;

/// The most drives of a net.
const MOST_DRIVES: usize = 1024;

/// The number of why a connection is refused.
fn connection_number(fault: NewFault) -> u8
    ensures { result ≡ connection_number (Some fault) }
{
    match fault {
        NewFault::TooMany => TOO_MANY,
        NewFault::SameConn { .. } => SAME_CONN,
        NewFault::Memory => NO_MEMORY,
    }
}

/// The kind of block with this number, if there is one.
fn numbered_kind(number: u8) -> Option<BlockKind>
    ensures some { IfSome result (λ kind. kind_number kind ≡ number) }
    ensures none { result ≡ None → highest_kind < number }
{
    Some(match number {
        0 => BlockKind::Const0,
        1 => BlockKind::Const1,
        2 => BlockKind::And,
        3 => BlockKind::Or,
        4 => BlockKind::Latch,
        5 => BlockKind::Estop,
        6 => BlockKind::TwoHand,
        7 => BlockKind::OnDelay,
        8 => BlockKind::OffDelay,
        9 => BlockKind::Feedback,
        _ => return None,
    })
}

/// Adds a connection with these settings and application parameters, the last one, and writes its number. The first
/// connection has number 1.
#[unsafe(no_mangle)]
#[tactic(auto, using(c_values::proofs::Places::vacuous))]
pub extern "C" fn gp_controller_connect(
    controller: &mut GpController,
    set: &GpMasterSettings,
    app: &[u8],
    connection: &mut u16,
) -> u8
    requires { IsSoundController controller.old }
    ensures sound { IsSoundController controller.new }
    ensures same { controller.new.live ≡ controller.old.live }
    ensures place { controller.new.place.at ≡ controller.old.place.at }
    ensures answer { result ≢ NO_MEMORY → result ≡ answer_by controller.old.place.controller (connect_answer set.now app.now) }
    ensures memory_alone { result ≡ NO_MEMORY → answer_by controller.old.place.controller (connect_answer set.now app.now) ≡ OK }
    ensures connects { result ≡ OK → Between controller.old.place.controller controller.new.place.controller (ConnectsBy set.now app.now connection.new) }
    ensures refused { result ≢ OK → (controller.new ≡ controller.old) × (connection.new ≡ connection.old) }
{
    let room = idle!(controller);
    let Some(app) = app_of(app) else {
        return BAD_APP;
    };
    let settings = match master_settings(set, app) {
        Ok(settings) => settings,
        Err(number) => return number,
    };
    match room.connect(settings) {
        Ok(()) => {
            *connection = room.multi.links();
            OK
        }
        Err(fault) => connection_number(fault),
    }
}

/// Adds a block of this kind, the last one, with its number `n` of ticked cycles, which some kinds don't use, and its
/// inputs in their order. Writes its number. The first block has number 1.
#[unsafe(no_mangle)]
#[tactic(auto, using(c_values::proofs::Places::vacuous))]
pub extern "C" fn gp_controller_block(
    controller: &mut GpController,
    kind: u8,
    n: u16,
    inputs: &[GpWire],
    block: &mut u16,
) -> u8
    requires { IsSoundController controller.old }
    ensures sound { IsSoundController controller.new }
    ensures same { controller.new.live ≡ controller.old.live }
    ensures place { controller.new.place.at ≡ controller.old.place.at }
    ensures answer { result ≢ NO_MEMORY → result ≡ answer_by controller.old.place.controller (block_answer kind (length inputs.now)) }
    ensures memory_alone { result ≡ NO_MEMORY → answer_by controller.old.place.controller (block_answer kind (length inputs.now)) ≡ OK }
    ensures adds { result ≡ OK → Between controller.old.place.controller controller.new.place.controller (AddsBlock kind n inputs.now block.new) }
    ensures refused { result ≢ OK → (controller.new ≡ controller.old) × (block.new ≡ block.old) }
{
    let room = idle!(controller);
    if room.blocks.len() >= MOST_BLOCKS || inputs.len() > MOST_INPUTS {
        return TOO_MANY;
    }
    let Some(kind) = numbered_kind(kind) else {
        return BAD_KIND;
    };
    let Ok(ins) = wires_of(*room.blocks.allocator(), inputs) else {
        return NO_MEMORY;
    };
    if room.blocks.reserve(1).is_err() {
        return NO_MEMORY;
    }
    room.blocks.push_reserved(BlockSpec::new(kind, n, ins));
    *block = room.blocks.len() as u16;
    OK
}

/// Adds a drive: in each cycle this output bit is what this wire reads.
#[unsafe(no_mangle)]
#[tactic(auto, using(c_values::proofs::Places::vacuous))]
pub extern "C" fn gp_controller_drive(
    controller: &mut GpController,
    output: &GpBit,
    from: &GpWire,
) -> u8
    requires { IsSoundController controller.old }
    ensures sound { IsSoundController controller.new }
    ensures same { controller.new.live ≡ controller.old.live }
    ensures place { controller.new.place.at ≡ controller.old.place.at }
    ensures answer { result ≢ NO_MEMORY → result ≡ answer_by controller.old.place.controller drive_answer }
    ensures memory_alone { result ≡ NO_MEMORY → answer_by controller.old.place.controller drive_answer ≡ OK }
    ensures adds { result ≡ OK → Between controller.old.place.controller controller.new.place.controller (λ old new. new ≡ record old { drives = old.drives ++ record { out = named_bit output.now; from = wire_of from.now } ∷ [] }) }
    ensures refused { result ≢ OK → controller.new ≡ controller.old }
{
    let room = idle!(controller);
    if room.drives.len() >= MOST_DRIVES {
        return TOO_MANY;
    }
    let drive = Drive {
        out: output.named(),
        from: from.named(),
    };
    if room.drives.push(drive).is_err() {
        return NO_MEMORY;
    }
    OK
}
