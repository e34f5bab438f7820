//! Runs of a plant over channels that are handed in. Its application answers zeros.
ghost use Rattle.std.specs.Prelude.{◌≡◌, None, codes};
ghost use Rattle.black_channel.specs.Told.{ChannelTold};

use black_channel::{Channel, ListChannel, Parcel, PerfectChannel, Place};
use fb_net::{KindOf, Zeros};
use fsoe_base::{End, FrameBuf};
use fsoe_io::{Ended, MemSink, Status, SureSource};
use plant_conf::read_conf;
use plant_run::{Journal, run_plant};
use std::alloc::{AllocError, Global};

/// A drive and its stop.
const PLANT: &[u8] = b"plant = { app = 'zeros', channel = 'list' }
connection = [
  { id = 1, address = 2, watchdog = 5, master_length = 2, slave_length = 2 },
  { id = 2, address = 3, watchdog = 5, master_length = 2, slave_length = 2 },
]
bound = [{ estop = 'i2.0', drive = 'o1.0' }]
";

/// A script in which the stop is let go for a moment between so many ticks and so many more.
fn script(alloc: Global, before: usize, after: usize) -> Result<String, AllocError> {
    let first = "t\n".repeat(alloc, before)?;
    let last = "t\n".repeat(alloc, after)?;
    format!(in alloc; "fsoe 1 plant\n{first}p 2 0300\np 2 0000\n{last}end\n")
}

/// How the plant ends over a channel, a script and a sink, and how many steps are in its journal.
fn run<C: Channel>(
    alloc: Global,
    channel: &mut C,
    script: &str,
    sink: &mut MemSink,
) -> Option<(Ended, usize)> {
    let conf = read_conf(alloc, PLANT).ok()?;
    let mut source = SureSource::new(script.as_bytes().to_vec(alloc).ok()?);
    let mut journal = Journal::new(alloc);
    let ended = run_plant(
        alloc,
        &conf,
        KindOf::Handed(Zeros),
        channel,
        Vec::new(alloc),
        &mut source,
        sink,
        &mut journal,
    );
    Some((ended, journal.steps().len()))
}

/// The room of a sink that takes at most 900 bytes in a call, the calls that fail, and the bytes that it takes before.
const SINKS: &[(usize, &[u64], u64)] = &[
    (0, &[], 0),
    (1, &[], 1),
    (2_000, &[], 2_000),
    (4_000, &[], 4_000),
    (8_000, &[3], 1_800),
];

/// Runs the script with 74 ticks before the stop is let go, into such a sink.
fn run_into(alloc: Global, room: usize, fails: &[u64]) -> Option<(Ended, usize)> {
    let lines = script(alloc, 74, 0).ok()?;
    let mut channel = ListChannel::new(alloc, Vec::new(alloc), 0).ok()?;
    let mut sink = MemSink::new(alloc, room, 900, fails.to_vec(alloc).ok()?).ok()?;
    run(alloc, &mut channel, &lines, &mut sink)
}

/// The text of 73 ticks waits, 4,079 bytes, and that of one more doesn't fit. The lines after it write nothing.
#[test]
fn no_event_is_done_after_a_failed_write(rt: HostRuntime) {
    for (room, fails, place) in SINKS {
        let (status, place) = (Status::Write, *place);
        let ran = run_into(rt.alloc(), *room, fails);
        assert!(rt; ran == Some((Ended { status, place }, 74)), "{place}");
    }
}

/// The frames that a master sent up to its first data, in a worked run.
const FRAMES: [[u8; 7]; 8] = [
    [0x2A, 0x00, 0x00, 0xC4, 0x2D, 0x00, 0x00],
    [0x4E, 0x01, 0x00, 0x12, 0x3E, 0x00, 0x00],
    [0x64, 0x01, 0x00, 0x64, 0x2A, 0x01, 0x00],
    [0x64, 0x02, 0x00, 0x62, 0x5F, 0x01, 0x00],
    [0x52, 0x02, 0x00, 0xEE, 0x74, 0x01, 0x00],
    [0x52, 0x64, 0x00, 0x58, 0xDA, 0x01, 0x00],
    [0x52, 0x00, 0x00, 0x71, 0x99, 0x01, 0x00],
    [0x36, 0x01, 0x00, 0xFC, 0x43, 0x01, 0x00],
];

/// A channel that gives these frames to the slave of the drive, and nothing else.
fn forger(alloc: Global) -> Option<ListChannel> {
    let mut gifts = Vec::new(alloc);
    for bytes in FRAMES {
        let mut frame = FrameBuf::new();
        frame.set(&bytes);
        let to = Place {
            link: 1,
            end: End::Slave,
        };
        gifts.push(Parcel { to, frame }).ok()?;
    }
    ListChannel::new(alloc, gifts, 0).ok()
}

fn run_forged(alloc: Global, lines: &str) -> Option<(Ended, MemSink)> {
    let mut channel = forger(alloc)?;
    let mut sink = MemSink::new(alloc, 2_000, 2_000, Vec::new(alloc)).ok()?;
    let (ended, _) = run(alloc, &mut channel, lines, &mut sink)?;
    Some((ended, sink))
}

/// Whether a run over forged frames tells that the connection of the drive has an `other` entry, and ends with this
/// text. The stop is let go for a moment between so many ticks and so many more.
fn ends_forged(alloc: Global, before: usize, after: usize, last: &str) -> Option<bool> {
    let lines = script(alloc, before, after).ok()?;
    let (ended, sink) = run_forged(alloc, &lines)?;
    let (status, place) = (Status::Other, 1);
    Some(ended == Ended { status, place } && sink.bytes().ends_with(last.as_bytes()))
}

/// Frames that fit keep the drive on though the stop is pressed, and the bound's line tells the first tick at which
/// that is so for 20 ticks without a break.
#[test]
fn forged_frames_break_a_bound(rt: HostRuntime) {
    for (before, after, last) in [
        (3, 19, "bound i2.0 o1.0 20 worst - - kept\n"),
        (3, 20, "bound i2.0 o1.0 20 worst - - broken 23\n"),
        (3, 30, "bound i2.0 o1.0 20 worst - - broken 23\n"),
        (21, 3, "bound i2.0 o1.0 20 worst - - broken 20\n"),
    ] {
        let told = ends_forged(rt.alloc(), before, after, last);
        assert!(rt; told == Some(true), "{last}");
    }
}

/// A channel between two connections, which keeps order and counts how often it begins. What is for the slave of one
/// comes to the master of the other, and what is for a master to the slave of the other. Nothing is known of it.
#[derive(Drop)]
struct Crossed {
    channel: PerfectChannel,
    begins: u8,
}

fn across(to: Place) -> Place {
    Place {
        link: if to.link == 1 { 2 } else { 1 },
        end: match to.end {
            End::Master => End::Slave,
            End::Slave => End::Master,
        },
    }
}

impl Channel for Crossed {
    ghost name = { λ _. codes "crossed" };

    ghost told = { λ c. record { holds = None; empties = c.channel.empties; pushed = None; given = None } };

    fn name(&self) -> &str {
        "crossed"
    }

    fn begin(&mut self, seed: u64) {
        self.begins = self.begins.saturating_add(1);
        self.channel.begin(seed)
    }

    fn push(&mut self, to: Place, frame: &[u8]) {
        self.channel.push(across(to), frame)
    }

    fn pull(&mut self, out: &mut FrameBuf) -> Option<Place> {
        self.channel.pull(out)
    }
}

/// Whether a run over crossed connections ends well and tells of no end in Data; and how often its channel began.
fn run_crossed(alloc: Global) -> Option<(bool, u8)> {
    let lines = script(alloc, 50, 0).ok()?;
    let channel = PerfectChannel::new(alloc).ok()?;
    let mut channel = Crossed { channel, begins: 0 };
    let mut sink = MemSink::new(alloc, 5_000, 5_000, Vec::new(alloc)).ok()?;
    let (ended, _) = run(alloc, &mut channel, &lines, &mut sink)?;
    let report = std::str::from_utf8(sink.bytes()).ok()?;
    let well = ended.status == Status::Ok && !report.contains("Data");
    Some((well, channel.begins))
}

#[test]
fn no_end_of_crossed_connections_comes_to_data(rt: HostRuntime) {
    assert!(rt; run_crossed(rt.alloc()) == Some((true, 1)));
}
