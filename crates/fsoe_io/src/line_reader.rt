//! Lines from a source.
ghost use Rattle.std.specs.Prelude.{◌≡◌, ◌+◌, ◌-◌, ◌^◌, ◌≤◌, ◌<◌, false, [], length, take, drop, IsTrue, IfSome, Some};
ghost use Rattle.std.specs.Io.KnownBytes.{prepend_known};
ghost use Rattle.fsoe_io.specs.Calls.{HasCause};
ghost use Rattle.fsoe_io.specs.Line.{IsLine, most_held};
ghost use Rattle.fsoe_io.specs.LineReader.{Reads, given, last_line, BeginsAs, Fills, Counts, Blames, Stalls};

use crate::line::{Line, LineFault};
use crate::source::{Failed, Source};
use memchr::memchr;
use std::marker::Model;

/// The most bytes of a line, without its newline.
const MOST: usize = 640;

/// How the bytes begin that are held.
#[derive(Clone, Copy)]
enum Front {
    /// With a line of this many bytes, and its newline.
    Line(usize),
    /// With more bytes than a line may have.
    Long,
    /// With neither: more bytes have to come.
    Open,
}

#[tactic(auto, using(crate::proofs::Newline::near, crate::proofs::Newline::nowhere_yet))]
fn begins(bytes: &[u8]) -> Front
    ensures { BeginsAs result bytes.now }
{
    match memchr(b'\n', bytes) {
        Some(at) if at <= MOST => Front::Line(at),
        Some(_) => Front::Long,
        None if bytes.len() > MOST => Front::Long,
        None => Front::Open,
    }
}

/// Reads lines from a source in large blocks. In contracts the value is the bytes read that belong to no returned line
/// yet, the number of returned lines, and the last of these, until the next is requested.
#[derive(Drop)]
pub struct LineReader {
    buffer: [u8; 4096],
    start: usize,
    end: usize,
    lines: u64,
    /// Where the last line begins and ends. It stays in the buffer until the next one is requested.
    line_start: usize,
    line_end: usize,
    /// How what is held begins: a newline is sought once.
    front: Front,
}

impl Model for LineReader {
    ghost use Rattle.std.specs.Prelude.{◌-◌, ◌≤◌, take, drop};
    ghost use Rattle.fsoe_io.specs.LineReader.{Held, BeginsAs};

    ghost Value = { Held };

    ghost view = { λ r. record { bytes = take (r.end - r.start) (drop r.start r.buffer); lines = r.lines; line = take (r.line_end - r.line_start) (drop r.line_start r.buffer) } };

    ghost invariant = { λ r. (r.start ≤ r.end) × (r.end ≤ 4096) × (r.line_start ≤ r.line_end) × (r.line_end ≤ 4096) × BeginsAs r.front (take (r.end - r.start) (drop r.start r.buffer)) };
}

impl LineReader {
    /// A reader that holds nothing and gave no line.
    pub fn new() -> LineReader
        ensures bytes { result.bytes ≡ [] }
        ensures lines { result.lines ≡ 0 }
        ensures line { result.line ≡ [] }
    {
        LineReader {
            buffer: [0; 4096],
            start: 0,
            end: 0,
            lines: 0,
            line_start: 0,
            line_end: 0,
            front: Front::Open,
        }
    }

    /// Returns how many lines it gave.
    pub fn lines(&self) -> u64
        ensures { result ≡ self.now.lines }
    {
        self.lines
    }

    /// The line that the last `advance` took, without its newline.
    pub fn line(&self) -> &[u8]
        ensures { result.now ≡ self.now.line }
    {
        &self.buffer[self.line_start..self.line_end]
    }

    fn held(&self) -> &[u8]
        ensures { result.now ≡ self.now.bytes }
    {
        &self.buffer[self.start..self.end]
    }

    fn front(&self) -> Front
        ensures begins { BeginsAs result self.now.bytes }
        ensures most { length self.now.bytes ≤ most_held }
    {
        self.front
    }

    /// Returns true if the buffer has the next complete line, or so many bytes that this line is too long. Then `next`
    /// doesn't read from the source.
    pub fn holds_line(&self) -> bool
        ensures whole { IsTrue result → ¬ IsLine self.now.bytes }
        ensures open_line { result ≡ false → IsLine self.now.bytes }
    {
        !matches!(self.front(), Front::Open)
    }

    /// Takes a line of this length, and its newline, from the buffer.
    fn take_line(&mut self, len: usize)
        requires held { len < length self.old.bytes }
        requires lines { self.old.lines < 2 ^ 64 - 1 }
        ensures line { self.new.line ≡ take len self.old.bytes }
        ensures held { self.new.bytes ≡ drop (len + 1) self.old.bytes }
        ensures lines { self.new.lines ≡ self.old.lines + 1 }
    {
        self.line_start = self.start;
        self.line_end = self.start + len;
        self.start += len + 1;
        self.lines += 1;
        self.front = begins(&self.buffer[self.start..self.end]);
    }

    /// Takes more bytes from the source, none only at its end.
    #[inline(never)]
    fn fill<S: Source>(&mut self, source: &mut S) -> Result<usize, Failed>
        requires { length self.old.bytes ≤ 640 }
        ensures lines { self.new.lines ≡ self.old.lines }
        ensures bytes { Fills result self.old.bytes self.new.bytes (S.left source.old) (S.left source.new) }
        ensures most { length self.new.bytes ≤ most_held }
        ensures cause { HasCause (S.faults source.old) (S.faults source.new) result }
    {
        let held = self.end - self.start;
        self.buffer.copy_within(self.start..self.end, 0);
        self.start = 0;
        self.end = held;
        let count = source.read(&mut self.buffer[held..])?;
        self.end += count;
        self.front = begins(&self.buffer[..self.end]);
        Ok(count)
    }

    /// Reads the next line, which `line` returns then. Returns false if and only if the input ends where a line would
    /// begin. Don't call it after a fault, or after 2^64 - 1 lines.
    pub fn advance<S: Source>(&mut self, source: &mut S) -> Result<bool, LineFault>
        requires { self.old.lines < 2 ^ 64 - 1 }
        ensures bytes { Reads (given result (last_line self.new))
            (prepend_known self.old.bytes (S.left source.old))
            (prepend_known self.new.bytes (S.left source.new)) }
        ensures lines { Counts (given result (last_line self.new)) self.old.lines self.new.lines }
        ensures stalls { Stalls (given result (last_line self.new)) self.new.bytes }
        ensures most { length self.new.bytes ≤ most_held }
        // The source is read only if more bytes must come.
        ensures unread { ¬ IsLine self.old.bytes → source.new ≡ source.old }
        ensures later { S.faults source.old ≤ S.faults source.new }
        ensures cause { Blames (given result (last_line self.new)) (S.faults source.old) (S.faults source.new) }
    {
        loop {
            match self.front() {
                Front::Line(len) => {
                    self.take_line(len);
                    return Ok(true);
                }
                Front::Long => return Err(LineFault::Long),
                Front::Open => {}
            }
            match self.fill(source) {
                Ok(0) if self.held().is_empty() => return Ok(false),
                Ok(0) => return Err(LineFault::NoNewline),
                Ok(_) => {}
                Err(_) => return Err(LineFault::Read),
            }
        }
    }

    /// Returns the next line, or None if and only if the input ends where a line would begin. Don't call it after a
    /// fault, or after 2^64 - 1 lines.
    pub fn next<S: Source>(&mut self, source: &mut S) -> Result<Option<Line>, LineFault>
        requires { self.old.lines < 2 ^ 64 - 1 }
        ensures bytes { Reads result
            (prepend_known self.old.bytes (S.left source.old))
            (prepend_known self.new.bytes (S.left source.new)) }
        ensures lines { Counts result self.old.lines self.new.lines }
        ensures stalls { Stalls result self.new.bytes }
        // The source is read only if more bytes must come.
        ensures unread { ¬ IsLine self.old.bytes → source.new ≡ source.old }
        ensures later { S.faults source.old ≤ S.faults source.new }
        ensures cause { Blames result (S.faults source.old) (S.faults source.new) }
    {
        match self.advance(source) {
            Ok(true) => Ok(Some(Line::of(self.lines, self.line()))),
            Ok(false) => Ok(None),
            Err(fault) => Err(fault),
        }
    }
}
