//! The header of several pairs, line by line.
ghost use Rattle.std.specs.Prelude.{◌≡◌, ◌+◌, ◌<◌, ◌≤◌, IfOk, IfSome, IsTrue, OnOk, Some, length, map};
ghost use Rattle.fsoe_base.specs.LengthsOf.{length_of};
ghost use Rattle.schedule_file.specs.Event.{profile_of};
ghost use Rattle.schedule_file.specs.FieldsRead.{fields_after, Becomes};
ghost use Rattle.schedule_file.specs.Header.{IsMasterOf, IsSlaveOf};
ghost use Rattle.schedule_file.specs.Input.{heading_profile, own_length};
ghost use Rattle.schedule_file.specs.NodeHeader.{may_end};
ghost use Rattle.schedule_file.specs.PairsEvent.{numbered};
ghost use Rattle.schedule_file.specs.PairsHeader.{last_taken, pair_begun, next_pair, pair_taken, pairs_heading_after, pairs_heading_is_whole, pairs_heading_new, pairs_of};
ghost use Rattle.schedule_file.specs.PairsFit.{IsPair};
ghost use Rattle.schedule_file.specs.PairsLinesLeft.{pairs_lines_left};

use crate::field::{cut, number_16, one_field};
use crate::header::Header;
use crate::line_cause::LineCause;
use crate::pairs_ends::PairsEnds;
use fsoe_base::Memory;
use param_load::{MasterSettings, SlaveSettings};
use std::alloc::Global;
use std::marker::Model;
use std::mem;

/// The most pairs of a header.
pub const MOST_PAIRS: usize = 16;

/// How far a header is read.
#[derive(Clone, Copy)]
pub enum PairsStage {
    /// No line yet.
    Start,
    /// The first line.
    Title,
    /// A line of the last pair.
    Pairs,
    /// `go`.
    Done,
}

/// A header that is read line by line, without newlines, from its first line to `go`. The fields of a line are
/// separated by exactly one space. The lines stand in this order:
///
/// - `fsoe 2 pairs`;
/// - from 1 to 16 pairs, each with `pair <k>`, its number, from 1 in their order without a gap. Then come the lines
///   that the header of a pair has from `lengths` to before `go`;
/// - `go`.
///
/// Room for all pairs is allocated when the header is made, so that no line allocates.
#[derive(Drop)]
pub struct PairsHeader {
    stage: PairsStage,
    before: Vec<Header>,
    last: Header,
}

impl Model for PairsHeader {
    ghost use Rattle.std.specs.Prelude.{◌≤◌, ◌<◌, All, vec_capacity, vec_len};
    ghost use Rattle.schedule_file.specs.PairsHeader.{PairsHeading};
    ghost use Rattle.schedule_file.specs.PairsFit.{IsPair};
    ghost use Rattle.schedule_file.specs.declared.pairs_header.TheConstants.{MOST_PAIRS};

    ghost Value = { PairsHeading };

    ghost view = { λ h.
        record {
          stage = h.stage;
          before = h.before.items;
          last = h.last;
        } };

    ghost invariant = { λ h.
        (MOST_PAIRS ≤ vec_capacity h.before)
        × (vec_len h.before < MOST_PAIRS)
        × All IsPair h.before.items
        × IsPair h.last };
}

/// `<k>`: the pair of this number.
fn read_pair(number: u16, fields: Option<&[u8]>) -> Result<(), LineCause>
    ensures value { result ≡ next_pair number (fields_after fields.entry) }
    ensures most { OnOk result (number ≤ MOST_PAIRS) }
{
    let field = one_field(fields)?;
    let n = number_16(field)?;
    if n == number && usize::from(n) <= MOST_PAIRS {
        Ok(())
    } else {
        Err(LineCause::Range)
    }
}

impl PairsHeader {
    /// A header of which no line is read, with room for all pairs.
    pub fn new(alloc: Global) -> Result<PairsHeader, Memory>
        ensures { IfOk result (λ h. h ≡ pairs_heading_new) }
    {
        let Ok(before) = Vec::with_capacity(alloc, MOST_PAIRS) else {
            return Err(Memory);
        };
        Ok(PairsHeader {
            stage: PairsStage::Start,
            before,
            last: Header::begun_pair(),
        })
    }

    /// Whether the line `go` is read.
    pub fn is_done(&self) -> bool
        ensures { result ≡ pairs_heading_is_whole self.now }
    {
        matches!(self.stage, PairsStage::Done)
    }

    /// Reads the next line. Returns true if and only if it is `go`, which ends the header. An error is the first of
    /// these causes that applies: `Header` if its first word isn't allowed here, `Fields`, `Number`, `Hex`, `Length`,
    /// `Range`. `Header` also at `pair` and `go` before the lines of a pair may end, `Range` also at a `pair` line
    /// whose number isn't the next or is above 16. Every line after `go` is refused as `Header`; after a refused line
    /// don't read further. Each line leaves fewer to come: a header has at most 16,513.
    pub fn line(&mut self, line: &[u8]) -> Result<bool, LineCause>
        ensures next { Becomes result self.new (pairs_heading_after self.old line.now) }
        ensures done { IfOk result (λ done. done ≡ pairs_heading_is_whole self.new) }
        ensures fewer { OnOk result (pairs_lines_left self.new < pairs_lines_left self.old) }
    {
        let (first, fields) = cut(line);
        match self.stage {
            PairsStage::Start if line == b"fsoe 2 pairs".as_slice() => {
                self.stage = PairsStage::Title;
            }
            PairsStage::Title if first == b"pair".as_slice() => self.take_pair(fields)?,
            PairsStage::Pairs if first == b"pair".as_slice() && self.last.may_end() => {
                self.take_pair(fields)?;
            }
            PairsStage::Pairs => self.take_last(line)?,
            _ => return Err(LineCause::Header),
        }
        Ok(self.is_done())
    }

    /// The number of pairs of which a line was read.
    pub fn count(&self) -> u16
        ensures value { result ≡ length (pairs_of self.now) }
        ensures most { result ≤ MOST_PAIRS }
    {
        match self.stage {
            PairsStage::Pairs | PairsStage::Done => self.before.len() as u16 + 1,
            PairsStage::Start | PairsStage::Title => 0,
        }
    }

    /// Takes a `pair` line.
    fn take_pair(&mut self, fields: Option<&[u8]>) -> Result<(), LineCause>
        ensures next { Becomes result self.new (pair_taken self.old (fields_after fields.entry)) }
        ensures fewer { OnOk result (pairs_lines_left self.new < pairs_lines_left self.old) }
    {
        read_pair(self.count() + 1, fields)?;
        self.begin_pair();
        Ok(())
    }

    /// Goes on with the next pair.
    #[tactic(auto, using(crate::proofs::Pairs::room_before, crate::proofs::Pairs::pairs_pushed))]
    fn begin_pair(&mut self)
        requires { length (pairs_of self.old) < MOST_PAIRS }
        ensures { self.new ≡ record { stage = PairsStage.Pairs; before = pairs_of self.old; last = pair_begun } }
    {
        let last = mem::replace(&mut self.last, Header::begun_pair());
        match self.stage {
            PairsStage::Pairs | PairsStage::Done => self.before.push_reserved(last),
            PairsStage::Start | PairsStage::Title => self.before.clear(),
        }
        self.stage = PairsStage::Pairs;
    }

    /// Takes a line of the last pair.
    fn take_last(&mut self, line: &[u8]) -> Result<(), LineCause>
        requires { self.old.stage ≡ PairsStage.Pairs }
        ensures next { Becomes result self.new (last_taken self.old line.now) }
        ensures fewer { OnOk result (pairs_lines_left self.new < pairs_lines_left self.old) }
    {
        if self.last.line(line)? {
            self.stage = PairsStage::Done;
        }
        Ok(())
    }

    /// The lines of a pair.
    fn pair(&self, number: u16) -> &Header
        requires first { 0 < number }
        requires last { number ≤ length (pairs_of self.now) }
        ensures value { numbered number (pairs_of self.now) ≡ Some result.now }
        ensures pair { IsPair result.now }
    {
        let at = usize::from(number) - 1;
        if at < self.before.len() {
            &self.before[at]
        } else {
            &self.last
        }
    }

    /// What the master of the pair of this number, from 1, is set to. Until its lines are read, settings hold values
    /// that no line says.
    pub fn master(&self, pair: u16) -> MasterSettings
        requires first { 0 < pair }
        requires last { pair ≤ length (pairs_of self.now) }
        ensures { IfSome (numbered pair (pairs_of self.now)) (λ h. IsMasterOf h result) }
    {
        self.pair(pair).master()
    }

    /// What the slave of the pair of this number, from 1, is set to. Until its lines are read, settings hold values
    /// that no line says.
    pub fn slave(&self, pair: u16) -> SlaveSettings
        requires first { 0 < pair }
        requires last { pair ≤ length (pairs_of self.now) }
        ensures { IfSome (numbered pair (pairs_of self.now)) (λ h. IsSlaveOf h result) }
    {
        self.pair(pair).slave()
    }

    /// What the ends of the pairs send, and their profiles, in the order of pairs: event lines are read by them.
    pub fn ends(&self) -> PairsEnds
        ensures lengths { map length_of result.lengths ≡ map own_length (pairs_of self.now) }
        ensures profiles { map profile_of result.profiles ≡ map heading_profile (pairs_of self.now) }
        ensures same { length result.lengths ≡ length result.profiles }
    {
        let mut ends = PairsEnds::none(self.last.lengths(), self.last.profiles());
        for before in 0..self.count() {
            let pair = self.pair(before + 1);
            ends.push(pair.lengths(), pair.profiles());
        }
        ends
    }
}
