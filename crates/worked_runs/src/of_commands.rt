//! Runs of `replay` over an input in memory, also with failing input or output; and the events of a seed.
use duo_run::{run_bulk, run_replay};
use fsoe_io::{Ended, MemSink, MemSource, Status};
use schedule_file::{LineBuf, Maker, write_event};
use std::alloc::{AllocError, Global};
use std::test::Fail;

/// The header of a pair file, of six lines.
const HEADER: &str =
    "fsoe 1 pair\nlengths 2 2\nmaster 1 2 100 1\nslave 2 200 1000 2\nrule any 0\ngo\n";

/// The events up to the first data of both ends, after a whole handshake.
pub(crate) const UNTIL_DATA: &str =
    "pm 0100\nps 8000\ntm\nds -1\ndm -1\nds -1\ndm -1\nds -1\ndm -1\nds -1\ndm -1\nds -1\ndm -1\nds -1\ndm -1\nds -1\ndm -1\nds -1\ndm -1\n";

/// These parts of a text, joined.
fn joined(alloc: Global, parts: &[&str]) -> Result<Vec<u8>, AllocError> {
    let mut text = Vec::new(alloc);
    for part in parts {
        text.extend_from_slice(part.as_bytes())?;
    }
    Ok(text)
}

/// A source that gives `most` bytes of an input in a call, and fails at the read of this number, of 0 at none.
fn source_of(alloc: Global, input: &[u8], most: usize, fails: u64) -> Option<MemSource> {
    let fails = vec![in alloc; fails].ok()?;
    Some(MemSource::new(input.to_vec(alloc).ok()?, most.max(1), fails))
}

/// A sink that takes `most` bytes in a call, and fails at the write of this number, of 0 at none.
fn sink_of(alloc: Global, most: usize, fails: u64) -> Option<MemSink> {
    MemSink::new(alloc, 100_000, most.max(1), vec![in alloc; fails].ok()?).ok()
}

/// Replays an input, of which `most` bytes come and go in a call; the read and the write of these numbers fail, of 0
/// none. None where there is no memory for it.
fn run_over(
    alloc: Global,
    input: &[u8],
    most: usize,
    read_fails: u64,
    write_fails: u64,
) -> Option<(Ended, MemSink)> {
    let mut source = source_of(alloc, input, most, read_fails)?;
    let mut sink = sink_of(alloc, most, write_fails)?;
    let ended = run_replay(alloc, &mut source, &mut sink);
    Some((ended, sink))
}

/// Whether a replay with 8 bytes in a call ends as it must at its third write, which fails.
fn ends_with_write(alloc: Global) -> Option<bool> {
    let input = joined(alloc, &[HEADER, UNTIL_DATA, "end\n"]).ok()?;
    let (ended, sink) = run_over(alloc, &input, 8, 0, 3)?;
    let (status, place) = (Status::Write, 16);
    Some(ended == Ended { status, place } && sink.bytes() == b"1 m quiet Reset ".as_slice())
}

#[test]
fn a_write_that_fails_ends_a_replay(rt: HostRuntime) {
    assert!(rt; ends_with_write(rt.alloc()) == Some(true));
}

/// What is written after the first `lines` lines of an input with one tick or none.
fn written(ticks: bool, lines: usize) -> &'static str {
    match (ticks, lines) {
        (false, 7) => "events 0\nother none\n",
        (true, 7) => "1 m again Reset 0000 > 2a0000c42d0000\n",
        (true, 8) => "1 m again Reset 0000 > 2a0000c42d0000\nevents 1\nother none\n",
        _ => "",
    }
}

/// Whether the replay of an input with one tick or none ends as it must: one byte comes in a call, and the read after
/// `read` bytes fails. It ends after the complete lines that were read, with what is written then.
fn ends_with_read(alloc: Global, ticks: bool, input: &[u8], read: usize) -> Option<bool> {
    let fails = (read as u64).saturating_add(1);
    let (ended, sink) = run_over(alloc, input, 1, fails, 0)?;
    let came = &input[..read.min(input.len())];
    let lines = came.iter().filter(|byte| **byte == b'\n').count();
    let (status, place) = if read < input.len() {
        (Status::Read, lines as u64)
    } else {
        (Status::Ok, 0)
    };
    let report = written(ticks, lines).as_bytes();
    Some(ended == Ended { status, place } && sink.bytes() == report)
}

/// With a byte in a call an input is read as a whole one is, up to the call that fails.
#[test]
fn each_read_that_fails_ends_a_replay_after_the_whole_lines(rt: HostRuntime) -> Result<(), Fail> {
    for (ticks, events) in [(false, "end\n"), (true, "tm\nend\n")] {
        let input = joined(rt.alloc(), &[HEADER, events])?;
        for read in 0..=input.len() {
            let ends = ends_with_read(rt.alloc(), ticks, &input, read).ok_or("not run")?;
            assert!(rt; ends, "read {read}");
        }
    }
    Ok(())
}

/// Appends the first `count` events of a seed, each a line.
fn push_events(text: &mut Vec<u8>, number: u64, count: u16) -> Result<(), AllocError> {
    let mut maker = Maker::new(number);
    let mut line = LineBuf::new();
    for _ in 0..count {
        write_event(&maker.next(), &mut line);
        text.extend_from_slice(line.bytes())?;
        text.push(b'\n')?;
    }
    Ok(())
}

/// A pair file with the first 500 events of seed 3.
fn input_of_3(alloc: Global) -> Result<Vec<u8>, AllocError> {
    let header = "fsoe 1 pair\nlengths 2 2\nmaster 1 2 100 1\nslave 2 100 1000 2\nrule any 0\ngo\n";
    let mut input = joined(alloc, &[header])?;
    push_events(&mut input, 3, 500)?;
    input.extend_from_slice(b"end\n")?;
    Ok(input)
}

/// How these events end.
const OTHER_154: Ended = Ended {
    status: Status::Other,
    place: 154,
};

fn replay_of_3_ends(alloc: Global) -> Option<bool> {
    let input = input_of_3(alloc).ok()?;
    let (ended, sink) = run_over(alloc, &input, 1000, 0, 0)?;
    Some(ended == OTHER_154 && sink.bytes().ends_with(b"\nevents 500\nother 154\n"))
}

fn bulk_of_3_ends(alloc: Global) -> Option<bool> {
    let mut sink = sink_of(alloc, 1000, 0)?;
    let ended = run_bulk(3, 500, &mut sink);
    Some(ended == OTHER_154 && sink.bytes().ends_with(b"\nother 154\n"))
}

#[test]
fn a_replay_of_the_events_of_a_number_ends_alike(rt: HostRuntime) {
    assert!(rt; replay_of_3_ends(rt.alloc()) == Some(true));
    assert!(rt; bulk_of_3_ends(rt.alloc()) == Some(true));
}
