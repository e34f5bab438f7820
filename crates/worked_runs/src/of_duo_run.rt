ghost use Rattle.std.specs.Prelude.{◌≡◌, ◌<◌, ◌≤◌, ◌+◌, ◌^◌, length, IfOk};
ghost use Rattle.duo_run.specs.Duo.{steps_done};

use crate::fairness::first_unfair;
use crate::of_commands::UNTIL_DATA;
use crate::pairs::Played;
use duo_run::Duo;
use exchange_model::{ListMonitor, Monitor};
use fsoe_base::Lengths;
use param_load::{AppBytes, AppRule, Entry, MasterSettings, Profiles, SlaveSettings};
use schedule_file::{ScheduleLine, read_event};
use std::alloc::Global;
use std::test::Fail;

/// Two new ends with two data bytes each way, connection 1, address 2, watchdog 100, no parameters, and nonces 1 and 2.
/// The slave has the handshake timeout `hand`.
fn pair(alloc: Global, hand: u16) -> Result<Played, Fail>
    ensures { IfOk result (λ pair. steps_done pair.duo ≤ length pair.entries.items) }
{
    let lengths = Lengths::new(2, 2)?;
    let master = MasterSettings::new(lengths, 1, 2, 100, AppBytes::new(), 1)?;
    let slave = SlaveSettings::new(lengths, 2, hand, 1000, AppRule::Any(0), 2)?;
    Ok(Played {
        duo: Duo::new(master, slave),
        entries: Vec::new(alloc),
    })
}

/// Does the event of a line.
pub(crate) fn step(duo: &mut Duo, line: &[u8]) -> Option<Entry>
    requires { steps_done duo.old + 1 < 2 ^ 64 }
    ensures { steps_done duo.new ≤ steps_done duo.old + 1 }
{
    let profiles = Profiles {
        master: duo.master().settings().profile(),
        slave: duo.slave().settings().profile(),
    };
    let lengths = duo.master().settings().lengths();
    match read_event(line, lengths, &profiles).ok()? {
        ScheduleLine::Step(event) => duo.step(&event).ok(),
        ScheduleLine::End => None,
    }
}

/// Two new ends after the events until the first data and these.
fn after_first_data(alloc: Global, events: &str) -> Result<Played, Fail> {
    let mut pair = pair(alloc, 200)?;
    pair.lines(UNTIL_DATA)?;
    pair.lines(events)?;
    Ok(pair)
}

/// The first unfair entry among the first `count` of a run after the first data.
fn unfair_of(alloc: Global, events: &str, count: usize) -> Result<Option<usize>, Fail> {
    let pair = after_first_data(alloc, events)?;
    first_unfair(alloc, pair.entries.get(..count).ok_or("few entries")?)
}

#[test]
fn worked_runs_are_fair_before_a_foreign_frame(rt: HostRuntime) -> Result<(), Fail> {
    for (events, count, unfair) in [
        ("ds -1\nzs\ndm -2\ndm -1", 23, None),
        ("zs\nds -8\nds -1", 22, None),
        ("rs 36ff004ee90100", 19, None),
        ("rs 36ff004ee90100", 20, Some(20)),
        ("zs\nds -8\nds -7", 21, None),
    ] {
        assert_eq!(rt; unfair_of(rt.alloc(), events, count)?, unfair, "{events}");
    }
    Ok(())
}

/// The first `other` entry of these. None if the monitors differ after one of them, or memory ran out.
fn judged(alloc: Global, entries: &[Entry]) -> Option<Option<u64>> {
    let mut monitor = Monitor::new();
    let mut plain = ListMonitor::new(alloc);
    if entries.len() > 10_000 {
        return None;
    }
    for entry in entries {
        monitor.note(entry);
        plain.note(entry).ok()?;
        if plain.other() != monitor.other() {
            return None;
        }
    }
    Some(monitor.other())
}

/// Whether 5,000 events of seed 5 make as many entries, of which both monitors find the same first `other` entry.
fn find_of_5(alloc: Global) -> Result<bool, Fail> {
    let mut pair = pair(alloc, 100)?;
    pair.number(5, 5000)?;
    Ok(pair.entries.len() == 5000 && judged(alloc, &pair.entries) == Some(Some(1668)))
}

#[test]
fn both_monitors_find_the_first_other_entry(rt: HostRuntime) -> Result<(), Fail> {
    assert!(rt; find_of_5(rt.alloc())?);
    Ok(())
}
