//! Runs whose input comes line by line: all that the lines before say is with the sink before more is asked for, and
//! after the last line, or a write that fails, nothing is.
ghost use Rattle.std.specs.Prelude.{None, if◌then◌else◌};

use black_channel::{Channel, PerfectChannel};
use duo_run::run_replay;
use fsoe_base::End;
use fsoe_io::{Ended, Failed, Sink, Source, Status, SureDesk};
use node_runner::run_node;
use pair_convert::run_convert;
use plant_file::{Wanted, run_file};
use plant_run::Journal;
use process_image::run_image;
use std::alloc::Global;
use std::cell::Cell;
use trace_diag::run_diagnose;

/// A line of an input, or a part of one, and what is written of it. An empty one is the end of the input.
type Line<'a> = (&'a str, &'a str);

/// Counts the bytes that it is handed, or fails at each write.
#[derive(Drop)]
struct Counting<'a> {
    count: &'a Cell<u64>,
    fails: bool,
    faults: u64,
}

impl Sink for Counting<'_> {
    ghost written = { λ _. None };

    ghost faults = { λ s. s.faults };

    fn write(&mut self, piece: &[u8]) -> Result<usize, Failed> {
        if self.fails {
            self.faults = self.faults.saturating_add(1);
            return Err(Failed);
        }
        let count = self.count.get().saturating_add(piece.len() as u64);
        self.count.set(count);
        Ok(piece.len())
    }
}

/// Gives a line, or a part of one, in a call. It counts the calls at which not exactly what the lines before say was
/// written, and those after the last line, at each of which it may fail.
#[derive(Drop)]
struct Asked<'a> {
    lines: &'a [Line<'a>],
    given: usize,
    due: u64,
    written: &'a Cell<u64>,
    otherwise: u32,
    fails: bool,
    after: u64,
}

impl Source for Asked<'_> {
    ghost left = { λ _. None };

    ghost faults = { λ s. if s.fails then s.after else 0 };

    fn read(&mut self, buffer: &mut [u8]) -> Result<usize, Failed> {
        if self.written.get() != self.due {
            self.otherwise = self.otherwise.saturating_add(1);
        }
        let Some((line, report)) = self.lines.get(self.given) else {
            self.after = self.after.saturating_add(1);
            return if self.fails { Err(Failed) } else { Ok(0) };
        };
        self.given = self.given.saturating_add(1);
        self.due = self.due.saturating_add(report.len() as u64);
        let count = buffer.len().min(line.len());
        buffer[..count].copy_from_slice(&line.as_bytes()[..count]);
        Ok(count)
    }
}

/// 80 bytes inside a line.
const PART: &str =
    "00000000000000000000000000000000000000000000000000000000000000000000000000000000";

const ROWS: &[(&str, &[Line<'static>])] = &[
    (
        "node slave",
        &[
            ("fsoe 1 node slave\n", ""),
            ("lengths 2 2\n", ""),
            ("slave 2 200 1000 2\n", ""),
            ("rule any 0\n", ""),
            ("go\n", ""),
            (
                "d 2a0000c42d0000\n",
                "1 took Reset Reset 0000 > 2a0000c42d0000\n",
            ),
            (
                "d 4e0100123e0000\n",
                "2 took Session Session 0000 > 4e020090470000\n",
            ),
            ("end\n", "events 2\n"),
        ],
    ),
    (
        "node master",
        &[
            ("fsoe 1 node master\n", ""),
            ("lengths 2 2\n", ""),
            ("master 1 2 100 1\n", ""),
            ("go\n", ""),
            ("p 0100\n", "1 quiet Reset 0000\n"),
            ("t\n", "2 again Reset 0000 > 2a0000c42d0000\n"),
            ("", "refused 7 End\n"),
        ],
    ),
    ("node master", &[("", "refused 1 End\n")]),
    (
        "replay",
        &[
            ("fsoe 1 pair\n", ""),
            ("lengths 2 2\n", ""),
            ("master 1 2 100 1\n", ""),
            ("slave 2 200 1000 2\n", ""),
            ("rule any 0\n", ""),
            ("go\n", ""),
            ("tm\n", "1 m again Reset 0000 > 2a0000c42d0000\n"),
            ("ds -1\n", "2 s took Reset Reset 0000 > 2a0000c42d0000\n"),
            ("end\n", "events 2\nother none\n"),
        ],
    ),
    (
        "replay",
        &[
            ("fsoe 2 pairs\n", ""),
            ("pair 1\n", ""),
            ("lengths 2 2\n", ""),
            ("master 1 2 100 1\n", ""),
            ("slave 2 200 1000 2\n", ""),
            ("rule any 0\n", ""),
            ("go\n", ""),
            (
                "t\n",
                "1 1 s quiet Reset 0000\n1 1 m again Reset 0000 > 2a0000c42d0000\n",
            ),
            (
                "1 ds -1\n",
                "2 1 s took Reset Reset 0000 > 2a0000c42d0000\n",
            ),
            ("end\n", "events 2\npair 1 other none\n"),
        ],
    ),
    (
        "convert",
        &[
            ("fsoe 1 pair\n", "fsoe 2 pairs\npair 1\n"),
            ("lengths 2 2\n", "lengths 2 2\n"),
            ("master 1 2 100 1\n", "master 1 2 100 1\n"),
            ("slave 2 200 1000 2\n", "slave 2 200 1000 2\n"),
            ("rule any 0\n", "rule any 0\n"),
            ("go\n", "go\n"),
            ("tm\n", "1 tm\n"),
            ("end\n", "end\n"),
        ],
    ),
    (
        "image",
        &[
            ("fsoe 1 image\n", ""),
            ("size 7 7\n", ""),
            ("slot 1 0 0\n", ""),
            ("lengths 2 2\n", ""),
            ("slave 2 200 1000 2\n", ""),
            ("rule any 0\n", ""),
            ("go\n", ""),
            ("w 0 2a0000c42d0000\n", ""),
            ("s\n", "2 1 took Reset Reset 0000 > 2a0000c42d0000\n"),
            ("end\n", "events 2\nout 2a0000c42d0000\n"),
        ],
    ),
    (
        "diagnose",
        &[
            ("fsoe 1 trace\n", ""),
            ("lengths 2 2\n", ""),
            ("go\n", ""),
            ("m 2a0000c42d0000\n", ""),
            ("end\n", "frames 1\nread - - - -\nconforms\n"),
        ],
    ),
    (
        "replay",
        &[("fsoe 1 pair", ""), ("", "refused 1 NoNewline\n")],
    ),
    (
        "diagnose",
        &[
            ("fsoe 1 trace\n", ""),
            ("lengths 2 2\n", ""),
            ("go\n", ""),
            ("end", ""),
            ("", "refused 4 NoNewline\n"),
        ],
    ),
    (
        "diagnose",
        &[
            ("fsoe 1 trace\n", ""),
            ("lengths 2 2\n", ""),
            ("go\n", ""),
            (PART, ""),
            (PART, ""),
            (PART, ""),
            (PART, ""),
            (PART, ""),
            (PART, ""),
            (PART, ""),
            (PART, ""),
            ("0", "refused 4 Long\n"),
        ],
    ),
    (
        "plant",
        &[
            ("fsoe 1 plant\n", ""),
            (
                "t\n",
                "tick 1\n1 Data 0000 Data 0000\n2 Data 0000 Data 0000\n",
            ),
            ("p 1 0300\n", ""),
            (
                "t\n",
                "tick 2\n1 Data 0300 Data 0000\n2 Data 0000 Data 0100\n",
            ),
            ("end\n", "ticks 2\nother none\n"),
        ],
    ),
];

/// Headers, and an event that comes so often that its text fills more than a buffer while all lines are held.
const HELD: &[(&str, &str, &str)] = &[
    (
        "node slave",
        "fsoe 1 node slave\nlengths 2 2\nslave 2 200 1000 2\nrule any 0\ngo\n",
        "t\n",
    ),
    (
        "node master",
        "fsoe 1 node master\nlengths 2 2\nmaster 1 2 100 1\ngo\n",
        "t\n",
    ),
    (
        "replay",
        "fsoe 1 pair\nlengths 2 2\nmaster 1 2 100 1\nslave 2 200 1000 2\nrule any 0\ngo\n",
        "tm\n",
    ),
    (
        "replay",
        "fsoe 2 pairs\npair 1\nlengths 2 2\nmaster 1 2 100 1\nslave 2 200 1000 2\nrule any 0\ngo\n",
        "t\n",
    ),
    (
        "convert",
        "fsoe 1 pair\nlengths 2 2\nmaster 1 2 100 1\nslave 2 200 1000 2\nrule any 0\ngo\n",
        "tm\n",
    ),
    (
        "image",
        "fsoe 1 image\nsize 7 7\nslot 1 0 0\nlengths 2 2\nslave 2 200 1000 2\nrule any 0\ngo\n",
        "t\n",
    ),
    ("plant", "fsoe 1 plant\n", "t\n"),
];

/// The rows. A test that named them itself would be proved with all their text.
fn rows() -> &'static [(&'static str, &'static [Line<'static>])] {
    ROWS
}

/// The rows of `HELD`, behind a call for the same reason.
fn held() -> &'static [(&'static str, &'static str, &'static str)] {
    HELD
}

fn node(end: End, source: &mut Asked<'_>, sink: &mut Counting<'_>) -> Ended {
    run_node(end, source, sink)
}

fn replay(alloc: Global, source: &mut Asked<'_>, sink: &mut Counting<'_>) -> Ended {
    run_replay(alloc, source, sink)
}

fn convert(source: &mut Asked<'_>, sink: &mut Counting<'_>) -> Ended {
    run_convert(source, sink)
}

fn image(alloc: Global, source: &mut Asked<'_>, sink: &mut Counting<'_>) -> Ended {
    run_image(alloc, source, sink)
}

fn diagnose(source: &mut Asked<'_>, sink: &mut Counting<'_>) -> Ended {
    run_diagnose(source, sink)
}

/// A plant in which an emergency stop at the first connection drives a bit of the second.
const PLANT: &[u8] = b"plant = { app = 'net', channel = 'perfect' }
connection = [
  { id = 1, address = 11, watchdog = 5, master_length = 2, slave_length = 2 },
  { id = 2, address = 12, watchdog = 5, master_length = 2, slave_length = 2 },
]
block = [{ kind = 'estop', ins = ['i1.0', 'i1.1'] }]
drive = [{ out = 'o2.0', from = 'b1' }]
";

/// None where there is no memory for what it is handed.
fn plant(alloc: Global, source: &mut Asked<'_>, sink: &mut Counting<'_>) -> Option<Ended> {
    let text = PLANT.to_vec(alloc).ok()?;
    let channel = PerfectChannel::new(alloc).ok()?;
    let channel: Box<dyn Channel> = Box::new(alloc, channel).ok()?;
    let mut channels = vec![in alloc; channel].ok()?;
    let mut desk = SureDesk::new(text);
    let mut journal = Journal::new(alloc);
    Some(run_file(
        alloc,
        "plant",
        &mut desk,
        source,
        sink,
        Vec::new(alloc),
        &mut channels,
        &mut journal,
        Wanted::Report,
    ))
}

fn run_of(
    alloc: Global,
    words: &str,
    source: &mut Asked<'_>,
    sink: &mut Counting<'_>,
) -> Option<Ended> {
    match words {
        "node slave" => Some(node(End::Slave, source, sink)),
        "node master" => Some(node(End::Master, source, sink)),
        "replay" => Some(replay(alloc, source, sink)),
        "convert" => Some(convert(source, sink)),
        "image" => Some(image(alloc, source, sink)),
        "diagnose" => Some(diagnose(source, sink)),
        "plant" => plant(alloc, source, sink),
        _ => None,
    }
}

/// The calls that fail: none, the read after the last line, or each write.
#[derive(Clone, Copy)]
enum Fails {
    Nothing,
    Read,
    Write,
}

/// Whether a run over these lines reads and writes as it must, where these calls fail. Nothing is written before a
/// write that fails, so that a read after it is counted.
fn runs_well(alloc: Global, words: &str, lines: &[Line<'_>], fails: Fails) -> Option<bool> {
    let written = Cell::new(0);
    let mut source = Asked {
        lines,
        given: 0,
        due: 0,
        written: &written,
        otherwise: 0,
        fails: matches!(fails, Fails::Read),
        after: 0,
    };
    let mut sink = Counting {
        count: &written,
        fails: matches!(fails, Fails::Write),
        faults: 0,
    };
    let Ended { status, place } = run_of(alloc, words, &mut source, &mut sink)?;
    let all = source.given == lines.len() && written.get() == source.due;
    let ends = match fails {
        Fails::Nothing => all && source.after == 0,
        Fails::Read => all && source.after == 1 && status == Status::Read,
        Fails::Write => sink.faults == 1 && status == Status::Write && place == 0,
    };
    Some(ends && source.otherwise == 0)
}

#[test]
fn all_is_written_before_more_is_asked_for(rt: HostRuntime) {
    for (words, lines) in rows() {
        let well = runs_well(rt.alloc(), words, lines, Fails::Nothing);
        assert!(rt; well == Some(true), "{words}");
    }
}

/// Whether a run that holds a thousand events ends with its first write, which fails.
fn ends_held(alloc: Global, words: &str, header: &str, event: &str) -> Option<bool> {
    let events = event.repeat(alloc, 1_000).ok()?;
    let text = format!(in alloc; "{header}{events}").ok()?;
    let lines = [(text.as_str(), "more"), ("end\n", "")];
    runs_well(alloc, words, &lines, Fails::Write)
}

/// Neither where the next line is to come, nor where lines are held.
#[test]
fn nothing_is_asked_for_or_written_after_a_failed_call(rt: HostRuntime) {
    for (words, lines) in rows() {
        let before = &lines[..lines.len().saturating_sub(1)];
        let read = runs_well(rt.alloc(), words, before, Fails::Read);
        let write = runs_well(rt.alloc(), words, lines, Fails::Write);
        assert!(rt; read == Some(true) && write == Some(true), "{words}");
    }
    for (words, header, event) in held() {
        let well = ends_held(rt.alloc(), words, header, event);
        assert!(rt; well == Some(true), "{words}");
    }
}
