//! Reset frames, which don't belong to the chain: no frame was taken before, the connection id is 0, the number 1.

ghost use Rattle.std.specs.Prelude.{◌≡◌, length, IsTrue};
ghost use Rattle.fsoe_base.specs.Command.{command_byte};
ghost use Rattle.fsoe_base.specs.Lengths.{is_length};
ghost use Rattle.seq_chain.specs.Numbered.{IsNumbered};
ghost use Rattle.seq_chain.specs.Reset as reset;

use crate::cover::{crcs_are, write_frame};
use crate::link::{Numbered, number_frame};
use fsoe_base::{Code, Command, FrameBuf, Image, MOST_DATA, is_all_zero};
use fsoe_frame::FrameView;

/// Writes the Reset frame with this code and `l` safe data bytes, 1 or an even number from 2 to 126, to `out`, whose
/// old contents are lost. The data are the code and zeros.
#[cold]
#[inline(never)]
pub fn reset_frame(code: Code, l: usize, out: &mut FrameBuf)
    requires { IsTrue (is_length l) }
    ensures { out.new ≡ reset.reset_frame code.0 l }
{
    let mut data = [0; MOST_DATA];
    data[0] = code.0;
    let load = &data[..l];
    write_frame(&number_reset(load), Command::Reset, 0, load, out);
}

/// Returns the code of a frame whose command is Reset. The first refusal counts: 03h if the connection id isn't 0, 04h
/// if a CRC is wrong, 07h if a byte after the code isn't 0.
pub fn reset_view(view: &FrameView<'_>) -> Result<Code, Code>
    requires { view.now.cmd ≡ command_byte Command.Reset }
    ensures { result ≡ reset.reset_view view.now }
{
    if view.conn() != 0 {
        return Err(Code::WRONG_CONNECTION);
    }
    let mut load = Image::new();
    view.load_into(&mut load);
    if !crcs_are(view, &number_reset(load.bytes()), load.bytes()) {
        return Err(Code::WRONG_CRC);
    }
    if !is_all_zero(&load.bytes()[1..]) {
        return Err(Code::WRONG_DATA);
    }
    Ok(Code(load.bytes()[0]))
}

/// The number of a Reset frame with this load, which is that of a first frame, and what its CRCs are made of.
fn number_reset(load: &[u8]) -> Numbered
    requires { IsTrue (is_length (length load.now)) }
    ensures number { result.number ≡ 1 }
    ensures frame { IsNumbered result 0 0 0x2A load.now }
{
    number_frame(None, 0, 0, Command::Reset.byte(), load)
}
