//! The program for trials: `node`, `replay`, `bulk`, `plant`, `image`, `diagnose` and `convert`. It runs one command
//! over standard input, standard output and files, and exits with the status of the command.
#![tactic(auto)]

ghost use Rattle.std.specs.Prelude.{◌≡◌, ◌⊎◌, IfSome, None, map, string_bytes};
ghost use Rattle.fsoe_io.specs.declared.status.Status.TheVariants.{Usage, Write};
ghost use Rattle.fsoe_tool.specs.Command.{command_said};

mod command;
mod run;

use black_channel::{HostileChannel, PerfectChannel};
use fb_net::{Mirror, Zeros};
use fsoe_base::Memory;
use fsoe_io::{FileDesk, Status, StdSink, StdSource, words_of};
use plant_file::{apps_by_name, channels_by_name};
use run::run;
use std::process::ExitCode;

/// Runs the command of all these words, with the applications and the channels that the program has for plants. None if
/// there is no memory for these.
fn run_program(rt: HostRuntime, words: &[String]) -> Option<Status>
    ensures usage { command_said (map string_bytes words.now) ≡ None → IfSome result (λ s. (s ≡ Usage) ⊎ (s ≡ Write)) }
{
    let alloc = rt.alloc();
    let zeros = Box::new(alloc, Zeros).ok()?;
    let mirror = Box::new(alloc, Mirror).ok()?;
    let apps = apps_by_name(alloc, zeros, mirror).ok()?;
    let perfect = Box::new(alloc, PerfectChannel::new(alloc).ok()?).ok()?;
    let hostile = Box::new(alloc, HostileChannel::new(alloc).ok()?).ok()?;
    let mut channels = channels_by_name(alloc, perfect, hostile).ok()?;
    let mut desk = FileDesk::new(rt);
    let mut source = StdSource::new(rt.stdin());
    let mut sink = StdSink::new(rt.stdout());
    let outcome = run(
        alloc,
        words,
        &mut desk,
        &mut source,
        &mut sink,
        apps,
        &mut channels,
    );
    Some(outcome.status)
}

fn main(rt: HostRuntime) -> ExitCode {
    let status = match words_of(&rt) {
        Ok(words) => run_program(rt, words.as_slice()),
        Err(_) => None,
    };
    ExitCode::from(status.unwrap_or(Status::Memory).number())
}
