//! Writing a frame.

ghost use Rattle.std.specs.Prelude.{◌≡◌, ◌+◌, ◌*◌, length, IsTrue};
ghost use Rattle.fsoe_base.specs.Command.{command_byte};
ghost use Rattle.fsoe_base.specs.Lengths.{is_length, group_count, frame_len};
ghost use Rattle.fsoe_frame.specs.Layout.{groups, layout, with_crcs};

use byteorder::{ByteOrder, LittleEndian};
use fsoe_base::{Command, FrameBuf, frame_len};

/// Writes a frame to `out`, whose old contents are lost. `load` must have 1 byte, or an even number from 2 to 126, and
/// `crcs` one CRC for each group, which is a single byte or a pair of bytes.
pub fn write(command: Command, load: &[u8], crcs: &[u16], conn: u16, out: &mut FrameBuf)
    requires valid { IsTrue (is_length (length load.now)) }
    requires one_each { length crcs.now ≡ group_count (length load.now) }
    ensures { out.new ≡ layout (command_byte command) load.now crcs.now conn }
{
    out.resize(frame_len(load.len()));
    write_over(command.byte(), load, crcs, conn, out.bytes_mut());
}

/// Writes a frame over bytes that are as many.
fn write_over(command: u8, load: &[u8], crcs: &[u16], conn: u16, out: &mut [u8])
    requires valid { IsTrue (is_length (length load.now)) }
    requires one_each { length crcs.now ≡ group_count (length load.now) }
    requires room { length out.old ≡ frame_len (length load.now) }
    ensures { out.new ≡ layout command load.now crcs.now conn }
{
    let end = out.len() - 2;
    out[0] = command;
    write_groups(load, crcs, &mut out[1..end]);
    LittleEndian::write_u16(&mut out[end..], conn);
}

/// Writes each group followed by its CRC, low byte first, over bytes that are as many.
fn write_groups(load: &[u8], crcs: &[u16], out: &mut [u8])
    requires valid { IsTrue (is_length (length load.now)) }
    requires one_each { length crcs.now ≡ group_count (length load.now) }
    requires room { length out.old ≡ length load.now + 2 * length crcs.now }
    ensures { out.new ≡ with_crcs (groups load.now) crcs.now }
{
    if load.len() == 1 {
        out[0] = load[0];
        LittleEndian::write_u16(&mut out[1..], crcs[0]);
        return;
    }
    for group in 0..crcs.len() {
        let at = 4 * group;
        let pair = [load[2 * group], load[2 * group + 1]];
        out[at..at + 2].copy_from_slice(&pair);
        LittleEndian::write_u16(&mut out[at + 2..], crcs[group]);
    }
}
