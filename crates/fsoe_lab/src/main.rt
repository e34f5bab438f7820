//! A second program for trials. Its commands `rates` and `journal` run a plant over a script from standard input. The
//! user may give four rates: about how many of 10,000 frames are lost, altered and repeated, and about how many of
//! 10,000 pulls give nothing. `rates` writes the report of the plant, `journal` its journal. Two commands only write a
//! text: `crc` how many changes of data turn how many bits of them and of their CRC, `build` what the program was made
//! of.
#![tactic(auto)]

ghost use Rattle.std.specs.Prelude.{◌≡◌, ◌⊎◌, IfSome, None, map, string_bytes};
ghost use Rattle.fsoe_io.specs.declared.status.Status.TheVariants.{Usage, Write};
ghost use Rattle.fsoe_lab.specs.Command.{text_asked, trial_said};

mod command;
mod counts;
mod run;

use black_channel::{HostileChannel, PerfectChannel};
use command::trial_said;
use fb_net::{Mirror, Zeros};
use fsoe_base::Memory;
use fsoe_io::{FileDesk, Status, StdSink, StdSource, words_of};
use plant_file::{apps_by_name, channels_by_name};
use plant_run::Journal;
use rate_channel::{RateChannel, Rates};
use run::run;
use std::process::ExitCode;

/// Runs the command of all these words, with the applications and the channels that the program has for plants. None if
/// there is no memory for these.
fn run_program(rt: HostRuntime, words: &[String]) -> Option<Status>
    ensures usage { trial_said (map string_bytes words.now) ≡ None → text_asked (map string_bytes words.now) ≡ None → IfSome result (λ s. (s ≡ Usage) ⊎ (s ≡ Write)) }
{
    let alloc = rt.alloc();
    let zeros = Box::new(alloc, Zeros).ok()?;
    let mirror = Box::new(alloc, Mirror).ok()?;
    let apps = apps_by_name(alloc, zeros, mirror).ok()?;
    let perfect = Box::new(alloc, PerfectChannel::new(alloc).ok()?).ok()?;
    let hostile = Box::new(alloc, HostileChannel::new(alloc).ok()?).ok()?;
    let mut channels = channels_by_name(alloc, perfect, hostile).ok()?;
    let rates = trial_said(words).map_or(Rates::default(), |trial| trial.rates);
    channels
        .push(Box::new(alloc, RateChannel::new(alloc, rates).ok()?).ok()?)
        .ok()?;
    let mut desk = FileDesk::new(rt);
    let mut source = StdSource::new(rt.stdin());
    let mut sink = StdSink::new(rt.stdout());
    let mut journal = Journal::new(alloc);
    let ended = run(
        alloc,
        words,
        &mut desk,
        &mut source,
        &mut sink,
        apps,
        &mut channels,
        &mut journal,
    );
    Some(ended.status)
}

fn main(rt: HostRuntime) -> ExitCode {
    let status = match words_of(&rt) {
        Ok(words) => run_program(rt, words.as_slice()),
        Err(_) => None,
    };
    ExitCode::from(status.unwrap_or(Status::Memory).number())
}
