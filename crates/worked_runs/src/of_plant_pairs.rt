//! A plant over a hostile channel: the entries of its pairs, played anew by its journal, are fair by a plain program.
use crate::fairness::first_unfair;
use crate::pairs::play_pair;
use black_channel::{Channel, HostileChannel};
use fsoe_base::State;
use fsoe_io::{Ended, Status, SureDesk, SureSink, SureSource};
use plant_conf::{PlantConf, read_conf};
use plant_file::{Wanted, run_file};
use plant_run::Journal;
use std::alloc::{AllocError, Global};
use std::test::Fail;

/// A plant in which an emergency stop at the first connection drives a bit of the second, but for its first table.
const LINKS: &str = "
connection = [
  { id = 1, address = 11, watchdog = 5, master_length = 2, slave_length = 2 },
  { id = 2, address = 12, watchdog = 5, master_length = 2, slave_length = 2 },
]
block = [{ kind = 'estop', ins = ['i1.0', 'i1.1'] }]
drive = [{ out = 'o2.0', from = 'b1' }]
";

/// Its configuration with this seed.
fn text_of(alloc: Global, seed: u64) -> Result<String, AllocError> {
    format!(in alloc; "{LINKS}[plant]\napp = 'net'\nchannel = 'hostile'\nseed = {seed}\n")
}

/// A script of 200 ticks.
fn script(alloc: Global) -> Option<SureSource> {
    let ticks = "t\n".repeat(alloc, 200).ok()?;
    let script = format!(in alloc; "fsoe 1 plant\n{ticks}end\n").ok()?;
    Some(SureSource::new(script.into_bytes()))
}

fn hostile_channel(alloc: Global) -> Option<Vec<Box<dyn Channel>>> {
    let channel = HostileChannel::new(alloc).ok()?;
    let channel: Box<dyn Channel> = Box::new(alloc, channel).ok()?;
    vec![in alloc; channel].ok()
}

/// How it runs over these ticks, and its journal. None where there is no memory for what it is handed.
fn run(alloc: Global, text: &str) -> Option<(Ended, Journal)> {
    let mut source = script(alloc)?;
    let mut channels = hostile_channel(alloc)?;
    let mut desk = SureDesk::new(text.as_bytes().to_vec(alloc).ok()?);
    let mut sink = SureSink::new(alloc, 20_000).ok()?;
    let mut journal = Journal::new(alloc);
    let ended = run_file(
        alloc,
        "plant",
        &mut desk,
        &mut source,
        &mut sink,
        Vec::new(alloc),
        &mut channels,
        &mut journal,
        Wanted::Report,
    );
    Some((ended, journal))
}

/// The first unfair entry of the pair of connection k, and whether an end of it ever was in Data.
fn judged(
    alloc: Global,
    conf: &PlantConf,
    k: u16,
    journal: &Journal,
) -> Result<(Option<usize>, bool), Fail> {
    let links = conf.links();
    let place = usize::from(k.saturating_sub(1));
    if place >= links.len() {
        return Err("connection".into());
    }
    let pair = play_pair(alloc, &links[place], k, journal.steps())?;
    let in_data = pair.entries.iter().any(|entry| entry.state == State::Data);
    Ok((first_unfair(alloc, pair.entries.as_slice())?, in_data))
}

/// Whether both pairs of a run that ended well are fair, and whether an end of them ever was in Data.
fn both_judged(alloc: Global, conf: &PlantConf, journal: &Journal) -> Result<(bool, bool), Fail> {
    let (first, data_in_first) = judged(alloc, conf, 1, journal)?;
    let (second, data_in_second) = judged(alloc, conf, 2, journal)?;
    let are_fair = first.is_none() && second.is_none();
    Ok((are_fair, data_in_first || data_in_second))
}

/// The same of the run with this seed, in which both are fair if it doesn't end well.
fn seed_judged(alloc: Global, seed: u64) -> Result<(bool, bool), Fail> {
    let text = text_of(alloc, seed)?;
    let conf = read_conf(alloc, text.as_bytes()).ok().ok_or("refused")?;
    let (ended, journal) = run(alloc, text.as_str()).ok_or("not run")?;
    if ended.status != Status::Ok {
        return Ok((true, false));
    }
    both_judged(alloc, &conf, &journal)
}

#[test]
fn pairs_over_a_hostile_channel_are_fair(rt: HostRuntime) -> Result<(), Fail> {
    let mut data_came = false;
    for seed in 1..21 {
        let (are_fair, in_data) = seed_judged(rt.alloc(), seed)?;
        assert!(rt; are_fair, "seed {seed}");
        data_came = data_came || in_data;
    }
    assert!(rt; data_came);
    Ok(())
}
