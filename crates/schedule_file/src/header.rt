//! The header of an input, line by line.
ghost use Rattle.std.specs.Prelude.{◌≡◌, ◌<◌, IsTrue, IfOk, OnOk};
ghost use Rattle.schedule_file.specs.Field.{fields_of};
ghost use Rattle.schedule_file.specs.FieldsRead.{Becomes};
ghost use Rattle.schedule_file.specs.Header.{heading_new, heading_after, wants_profile, profile_given, heading_with, profile_taken, heading_is_whole, rule_place, IsMasterOf, IsSlaveOf};
ghost use Rattle.schedule_file.specs.HeaderKind.{has_end};
ghost use Rattle.schedule_file.specs.Event.{InRange};
ghost use Rattle.schedule_file.specs.LinesLeft.{lines_left};
ghost use Rattle.schedule_file.specs.NodeHeader.{heading_begun, kind_after, node_heading_after, is_end_line, may_end};
ghost use Rattle.schedule_file.specs.PairsHeader.{pair_begun};

use crate::field::cut;
use crate::header_kind::HeaderKind;
use crate::header_line::{
    HeaderLine, LengthsLine, MasterLine, RuleLine, SlaveLine, read_header_line,
};
use crate::header_part::{MasterPart, SlavePart};
use crate::line_cause::LineCause;
use crate::place::{Place, Word};
use fsoe_base::{End, Lengths};
use param_load::{MasterSettings, Profile, Profiles, SlaveSettings};
use std::marker::Model;

/// A header that is read line by line, without newlines, from its first line to `go`. The fields of a line are
/// separated by exactly one space. The lines stand in this order:
///
/// - `fsoe 1 pair`, `fsoe 1 node master` or `fsoe 1 node slave`, as the kind is;
/// - `lengths <master> <slave>`, the numbers of safe data bytes that the ends send;
/// - of a pair or a master, `master <conn> <address> <watchdog> <nonce>`, at most one `profile <word>`, and any
///   number of `app <hex>`, which have 512 bytes in all at most;
/// - of a pair or a slave, `slave <address> <hand> <most> <nonce>`, at most one `profile <word>`, and a rule. That is
///   `rule any <n>`, `rule exact` and any number of `bytes <hex>`, or `rule ranges` and any number of `range <hex>`,
///   pairs of a lowest and a highest value;
/// - `go`.
///
/// A nonce above 65,535 is one of profile Two, so the `profile` of its end has to come next.
#[derive(Drop)]
pub struct Header {
    kind: HeaderKind,
    place: Place,
    lengths: LengthsLine,
    master: MasterPart,
    slave: SlavePart,
}

impl Model for Header {
    ghost use Rattle.std.specs.Prelude.{IsTrue};
    ghost use Rattle.fsoe_base.specs.Lengths.{is_length};
    ghost use Rattle.schedule_file.specs.Header.{Heading};

    ghost Value = { Heading };

    ghost view = { λ h.
        record {
          kind = h.kind;
          place = h.place;
          lengths = h.lengths;
          master = h.master;
          slave = h.slave;
        } };

    ghost invariant = { λ h.
        IsTrue (is_length h.lengths.master) × IsTrue (is_length h.lengths.slave) };
}

impl Header {
    /// A header of this kind of which no line is read.
    pub fn new(kind: HeaderKind) -> Header
        ensures { result ≡ heading_new kind }
    {
        Header {
            kind,
            place: Place::Start,
            lengths: LengthsLine {
                master: 1,
                slave: 1,
            },
            master: MasterPart::of(MasterLine {
                conn: 1,
                address: 0,
                watchdog: 1,
                nonce: 0,
            }),
            slave: SlavePart::of(SlaveLine {
                address: 0,
                hand: 1,
                most: 1,
                nonce: 0,
            }),
        }
    }

    /// A header of a node within a longer input, of which no line is read. It has no first line: `lengths` comes next.
    pub fn begun() -> Header
        ensures { result ≡ heading_begun }
    {
        let mut header = Header::new(HeaderKind::Node(End::Slave));
        header.place = Place::Title;
        header
    }

    /// A header of a pair within a longer input, of which no line is read. It has no first line: `lengths` comes next.
    pub fn begun_pair() -> Header
        ensures { result ≡ pair_begun }
    {
        let mut header = Header::new(HeaderKind::Pair);
        header.place = Place::Title;
        header
    }

    /// Whether the line `go` is read.
    pub fn is_done(&self) -> bool
        ensures { result ≡ heading_is_whole self.now }
    {
        matches!(self.place, Place::Done)
    }

    /// Reads the next line. Returns true if and only if it is `go`, which ends the header. An error is the first of
    /// these causes that applies: `Header` if its first word isn't allowed here, `Fields`, `Number`, `Hex`, `Length`,
    /// `Range`. `Range` also if a `profile` line had to come. Every line after `go` is refused as `Header`; after a
    /// refused line don't read further. Each line leaves fewer to come: a header has at most 1,032.
    #[tactic(auto, using(crate::proofs::Sound::said_in_range, crate::proofs::LinesLeft::heading_fewer))]
    pub fn line(&mut self, line: &[u8]) -> Result<bool, LineCause>
        ensures next { Becomes result self.new (heading_after self.old line.now) }
        ensures done { IfOk result (λ done. done ≡ heading_is_whole self.new) }
        ensures kind { self.new.kind ≡ self.old.kind }
        ensures fewer { OnOk result (lines_left self.new < lines_left self.old) }
    {
        if self.place.is_start() {
            if line != self.kind.title() {
                return Err(LineCause::Header);
            }
            self.place = Place::Title;
            return Ok(false);
        }
        let (first, fields) = cut(line);
        let word = self.place.admit(self.kind, first)?;
        let says = read_header_line(word, fields)?;
        self.accept_after_nonce(word)?;
        self.take(says)?;
        Ok(self.is_done())
    }

    /// Reads the next line of a header that is `begun`, as `line` does: its `master` or `slave` line says of which end
    /// the node is.
    pub fn node_line(&mut self, line: &[u8]) -> Result<bool, LineCause>
        ensures next { Becomes result self.new (node_heading_after self.old line.now) }
        ensures done { IfOk result (λ done. done ≡ heading_is_whole self.new) }
        ensures fewer { OnOk result (lines_left self.new < lines_left self.old) }
    {
        self.kind = self.kind_after(line);
        self.line(line)
    }

    /// The node that this line says, if it comes next.
    fn kind_after(&self, line: &[u8]) -> HeaderKind
        ensures { result ≡ kind_after self.now.place (fields_of line.now) self.now.kind }
    {
        if !matches!(self.place, Place::Lengths) {
            return self.kind;
        }
        let (first, _) = cut(line);
        match Word::read(first) {
            Some(Word::Master) => HeaderKind::Node(End::Master),
            Some(Word::Slave) => HeaderKind::Node(End::Slave),
            _ => self.kind,
        }
    }

    /// Whether the line that was read last is `master` or `slave`, which says what an end is set to.
    pub fn is_end_line(&self) -> bool
        ensures { result ≡ is_end_line self.now.place }
    {
        matches!(self.place, Place::Master | Place::Slave)
    }

    /// Whether the lines may end here, so that `go` may come next. Where `wants_profile` holds, the line after them is
    /// refused as `Range`.
    pub fn may_end(&self) -> bool
        ensures { result ≡ may_end self.now }
    {
        self.place.admits(self.kind, Word::Go)
    }

    /// Whether the end whose line was read last is in profile Two for its nonce, so that its `profile` has to come
    /// next.
    pub fn wants_profile(&self) -> bool
        ensures { result ≡ wants_profile self.now.place self.now.master self.now.slave }
    {
        match self.place {
            Place::Master => matches!(self.master.profile(), Profile::Two(_)),
            Place::Slave => matches!(self.slave.profile(), Profile::Two(_)),
            _ => false,
        }
    }

    /// Whether a line with this word may stand after the nonce that was read last. Else it is refused as `Range`.
    fn accept_after_nonce(&self, word: Word) -> Result<(), LineCause>
        ensures { result ≡ profile_given self.now word }
    {
        match word {
            Word::Profile => Ok(()),
            _ if self.wants_profile() => Err(LineCause::Range),
            _ => Ok(()),
        }
    }

    /// Takes what a line says.
    fn take(&mut self, says: HeaderLine) -> Result<(), LineCause>
        requires { InRange says }
        ensures next { Becomes result self.new (heading_with self.old says) }
        ensures kind { self.new.kind ≡ self.old.kind }
    {
        match says {
            HeaderLine::Lengths(line) => {
                self.lengths = line;
                self.place = Place::Lengths;
            }
            HeaderLine::Master(line) => {
                self.place = Place::Master;
                self.master = MasterPart::of(line);
            }
            HeaderLine::Profile(word) => self.take_profile(word),
            HeaderLine::App(bytes) => {
                self.master.append(bytes.bytes())?;
                self.place = Place::App;
            }
            HeaderLine::Slave(line) => {
                self.place = Place::Slave;
                self.slave = SlavePart::of(line);
            }
            HeaderLine::Rule(line) => {
                self.slave.set_rule(line);
                self.place = rule_place(line);
            }
            HeaderLine::Bytes(bytes) => {
                self.slave.append(bytes.bytes())?;
                self.place = Place::RuleExact;
            }
            HeaderLine::Range(pairs) => {
                self.slave.append_pairs(pairs.bytes())?;
                self.place = Place::RuleRanges;
            }
            HeaderLine::Go => self.place = Place::Done,
        }
        Ok(())
    }

    /// Takes the word of a `profile` line for the end whose line stands before it.
    fn take_profile(&mut self, word: u16)
        ensures { self.new ≡ profile_taken self.old.place self.old word }
    {
        match self.place {
            Place::Slave => {
                self.slave.set_profile(word);
                self.place = Place::SlaveProfile;
            }
            _ => {
                self.master.set_profile(word);
                self.place = Place::App;
            }
        }
    }

    /// The kind of the header.
    pub fn kind(&self) -> HeaderKind
        ensures { result ≡ self.now.kind }
    {
        self.kind
    }

    /// The profiles that the lines read so far say; that of an end of which none speaks is One.
    pub fn profiles(&self) -> Profiles
        ensures master { result.master ≡ self.now.master.profile }
        ensures slave { result.slave ≡ self.now.slave.profile }
    {
        Profiles {
            master: self.master.profile(),
            slave: self.slave.profile(),
        }
    }

    /// The lengths of the `lengths` line.
    pub fn lengths(&self) -> Lengths
        ensures master { result.master ≡ self.now.lengths.master }
        ensures slave { result.slave ≡ self.now.lengths.slave }
    {
        let LengthsLine { master, slave } = self.lengths;
        Lengths::new(usize::from(master), usize::from(slave)).unwrap()
    }

    /// What the master is set to, where the header describes one. Until its lines are read, settings hold values that
    /// no line says.
    pub fn master(&self) -> MasterSettings
        requires { IsTrue (has_end self.now.kind End.Master) }
        ensures { IsMasterOf self.now result }
    {
        self.master.settings(self.lengths())
    }

    /// What the slave is set to, where the header describes one. Until its lines are read, settings hold values that no
    /// line says.
    pub fn slave(&self) -> SlaveSettings
        requires { IsTrue (has_end self.now.kind End.Slave) }
        ensures { IsSlaveOf self.now result }
    {
        self.slave.settings(self.lengths())
    }
}

/// Where a header is after a `rule` line.
fn rule_place(line: RuleLine) -> Place
    ensures { result ≡ rule_place line }
{
    match line {
        RuleLine::Any(_) => Place::RuleAny,
        RuleLine::Exact => Place::RuleExact,
        RuleLine::Ranges => Place::RuleRanges,
    }
}
