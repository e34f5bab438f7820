//! The chain of a session at one end.

ghost use Rattle.std.specs.Prelude.{◌≡◌, length, IsTrue, Some};
ghost use Rattle.fsoe_base.specs.Lengths.{is_length, group_count};
ghost use Rattle.seq_chain.specs.Numbers.{following};
ghost use Rattle.seq_chain.specs.Session.{crc_noted, chain_sent, frame_sent, fits_next, tested};
ghost use Rattle.seq_chain.specs.Chain.{fresh, after_taken, turned};

use crate::cover::{crcs_are, write_frame};
use crate::link::{Link, crc_of, crc_or_zero, following_number, number_frame};
use crate::session_frame::SessionFrame;
use fsoe_base::{Command, FrameBuf, Image};
use fsoe_frame::FrameView;

/// The sequence number and the CRC_0 of the last frame that an end sent in a session, and of the last that it took.
/// Reset frames don't belong to it, so a session begins with a new chain.
#[derive(Clone, Copy, PartialEq, Eq)]
pub struct Chain {
    own: Option<Link>,
    taken: Option<Link>,
}

impl Chain {
    /// The chain of a session without frames. Both numbers are 1.
    pub fn new() -> Chain
        ensures { result ≡ fresh }
    {
        Chain {
            own: None,
            taken: None,
        }
    }

    /// Returns the CRC_0 of the last frame that this end sent, or None if it sent none.
    pub fn own_prev(&self) -> Option<u16>
        ensures { result ≡ crc_noted self.now.own }
    {
        crc_of(self.own)
    }

    /// Returns the CRC_0 of the last frame that this end took, or None if it took none.
    pub fn taken_prev(&self) -> Option<u16>
        ensures { result ≡ crc_noted self.now.taken }
    {
        crc_of(self.taken)
    }

    /// Returns the sequence number of the next frame of this end, without the extra increment for an equal CRC_0.
    pub fn own_seq(&self) -> u16
        ensures { result ≡ following self.now.own }
    {
        following_number(self.own)
    }

    /// Returns the sequence number of the next frame of the peer, without the extra increment for an equal CRC_0.
    pub fn peer_seq(&self) -> u16
        ensures { result ≡ following self.now.taken }
    {
        following_number(self.taken)
    }

    /// Returns the mirrored chain, with sent and taken frames exchanged. It is the peer's chain if each end took all
    /// that the other sent.
    pub fn turned(&self) -> Chain
        ensures { result ≡ turned self.now }
    {
        Chain {
            own: self.taken,
            taken: self.own,
        }
    }

    /// Seals the next frame of this end into `out`, whose old contents are lost, and stores its sequence number and
    /// CRC_0. The load has 1 byte, or an even number from 2 to 126.
    pub fn seal(&mut self, command: Command, conn: u16, load: &[u8], out: &mut FrameBuf)
        requires { IsTrue (is_length (length load.now)) }
        ensures frame { out.new ≡ frame_sent self.old conn command load.now }
        ensures chain { self.new ≡ chain_sent self.old conn command load.now }
    {
        let last = crc_or_zero(self.taken);
        let next = number_frame(self.own, last, conn, command.byte(), load);
        write_frame(&next, command, conn, load, out);
        self.own = Some(Link {
            number: next.number,
            crc: next.first,
        });
    }

    /// Returns true if `view` is the peer's next frame: each CRC is the one that the peer computes if it took the last
    /// frame of this end. `conn` is the frame's connection id.
    pub fn test(&self, view: &FrameView<'_>, conn: u16) -> bool
        requires { conn ≡ view.now.conn }
        ensures { result ≡ fits_next self.now view.now }
    {
        let mut load = Image::new();
        view.load_into(&mut load);
        self.link(view, conn, load.bytes()).is_some()
    }

    /// Stores the number and CRC_0 of a frame of the peer that passed the test. `conn` is the frame's connection id.
    pub fn take(&mut self, view: &FrameView<'_>, conn: u16)
        requires connection { conn ≡ view.now.conn }
        requires tested { IsTrue (fits_next self.old view.now) }
        ensures { self.new ≡ after_taken self.old view.now }
    {
        let mut load = Image::new();
        view.load_into(&mut load);
        self.taken = self.link(view, conn, load.bytes());
    }

    /// Does the same test for a frame whose safe data are already copied. Returns the values to store when the frame is
    /// taken, or None if a CRC is wrong.
    pub fn test_frame(&self, frame: &SessionFrame<'_>) -> Option<Link>
        ensures { result ≡ tested self.now frame.now.frame }
    {
        self.link(frame.view(), frame.conn(), frame.load())
    }

    /// Stores the values that the test of this chain gave for a frame of the peer.
    pub(crate) fn note(&mut self, link: Link)
        ensures { self.new ≡ record self.old { taken = Some link } }
    {
        self.taken = Some(link);
    }

    /// Returns the values to store when the next frame of the peer is taken, or None if this frame isn't that one.
    fn link(&self, view: &FrameView<'_>, conn: u16, load: &[u8]) -> Option<Link>
        requires connection { conn ≡ view.now.conn }
        requires load { load.now ≡ view.now.load }
        requires valid { IsTrue (is_length (length load.now)) }
        requires groups { length view.now.crcs ≡ group_count (length load.now) }
        ensures { result ≡ tested self.now view.now }
    {
        let last = crc_or_zero(self.own);
        let byte = view.command_byte();
        let next = number_frame(self.taken, last, conn, byte, load);
        if !crcs_are(view, &next, load) {
            return None;
        }
        Some(Link {
            number: next.number,
            crc: next.first,
        })
    }
}
