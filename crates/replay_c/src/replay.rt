//! The call that C code makes.
ghost use Rattle.std.specs.Prelude.{◌≡◌, ◌≤◌, length, take, drop};
ghost use Rattle.schedule_file.specs.Input.{input_of};
ghost use Rattle.schedule_file.specs.declared.header_kind.HeaderKind.TheVariants as kind;
ghost use Rattle.duo_run.specs.Replay.{RunsFairly, ServesIfHonest, ServesIfSteady};
ghost use Rattle.replay_c.specs.Replayed.{EndedAs, Replayed};

use crate::room::Room;
use crate::text::Text;
use duo_run::run_pair;
use fsoe_io::{Ended, Status};

/// How a replay ended.
#[repr(C)]
#[derive(Drop)]
pub struct GpEnded {
    /// With status 1 the number of the first `other` entry, with 4 that of the refused line, with 7 the bytes of the
    /// report that were written, else 0.
    pub place: u64,
    /// The bytes of the report that were written.
    pub len: usize,
}

/// Runs both ends over the text, and writes their report into a room that is new.
fn replay_into(text: &[u8], room: &mut Room<'_>) -> Ended
    requires empty { room.old.len ≡ 0 }
    requires none { room.old.refusals ≡ 0 }
    ensures same_memory { room.new.memory.ghost_name ≡ room.old.memory.ghost_name }
    ensures same_before { room.new.before.bytes ≡ room.old.before.bytes }
    ensures replayed { Replayed text.now result (take room.new.len room.new.memory.now) }
    ensures full { result.status ≡ Status.Write → room.new.len ≡ length room.new.memory.now }
    ensures fair { RunsFairly (input_of kind.Pair text.now) }
    ensures serves { ServesIfHonest (input_of kind.Pair text.now) }
    ensures serves_steadily { ServesIfSteady (input_of kind.Pair text.now) }
{
    run_pair(&mut Text::new(text), room)
}

/// Runs both ends over the text of a pair file, as `replay` does, and writes their report to the front of `report`. The
/// status is 0, 1 if an entry is `other`, 4 if a line is refused, or 7 if only a first part of the report fitted into
/// the memory. `ended` has the place and the bytes of the report; those behind don't change.
#[unsafe(no_mangle)]
pub extern "C" fn gp_replay(text: &[u8], report: &mut [u8], ended: &mut GpEnded) -> u8
    ensures ended { EndedAs text.now result ended.new.place (take ended.new.len report.new) }
    ensures bound { ended.new.len ≤ length report.old }
    ensures full { result ≡ 7 → ended.new.len ≡ length report.old }
    ensures past { drop ended.new.len report.new ≡ drop ended.new.len report.old }
    ensures fair { RunsFairly (input_of kind.Pair text.now) }
    ensures serves { ServesIfHonest (input_of kind.Pair text.now) }
    ensures serves_steadily { ServesIfSteady (input_of kind.Pair text.now) }
{
    let mut room = Room::new(report);
    let how = replay_into(text, &mut room);
    ended.place = how.place;
    ended.len = room.len;
    how.status.number()
}
