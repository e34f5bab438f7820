//! The arguments that name a command.
ghost use Rattle.std.specs.Prelude.{◌≡◌, ◌≤◌, IfSome, map, string_bytes};
ghost use Rattle.fsoe_lab.specs.Command.{build_asked, counts_asked, file_named, rates_of, rates_said, trial_said};

use plant_file::Wanted;
use rate_channel::Rates;
use schedule_file::{find_word, read_number};

/// A plant that the program must run.
#[derive(Clone, Copy)]
pub struct Trial {
    /// What is written of it.
    pub wanted: Wanted,
    /// The rates of the channel `rates`.
    pub rates: Rates,
}

/// What an argument asks for: the journal or the report.
const WANTED: [(&[u8], Wanted); 2] = [(b"journal", Wanted::Journal), (b"rates", Wanted::Report)];

/// The rates of four numbers, which are at most 10,000 together.
fn rates_of(
    lose: Option<u64>,
    alter: Option<u64>,
    repeat: Option<u64>,
    late: Option<u64>,
) -> Option<Rates>
    requires lose { IfSome lose (λ n. n ≤ 10000) }
    requires alter { IfSome alter (λ n. n ≤ 10000) }
    requires repeat { IfSome repeat (λ n. n ≤ 10000) }
    requires late { IfSome late (λ n. n ≤ 10000) }
    ensures { result ≡ rates_of lose alter repeat late }
{
    let (lose, alter, repeat, late) = (lose?, alter?, repeat?, late?);
    if lose + alter + repeat + late > 10_000 {
        return None;
    }
    Some(Rates {
        lose: lose as u16,
        alter: alter as u16,
        repeat: repeat as u16,
        late: late as u16,
    })
}

/// The rates that arguments name: four, or none, where all are 0.
#[tactic(auto, using(crate::proofs::Words::no_rates))]
fn rates_said(words: &[String]) -> Option<Rates>
    ensures { result ≡ rates_said (map string_bytes words.now) }
{
    match words {
        [] => Some(Rates::default()),
        [lose, alter, repeat, late] => rates_of(
            read_number(lose.as_bytes(), 10_000),
            read_number(alter.as_bytes(), 10_000),
            read_number(repeat.as_bytes(), 10_000),
            read_number(late.as_bytes(), 10_000),
        ),
        _ => None,
    }
}

/// Returns what the arguments after the program's name ask for. They are `journal <file>` or `rates <file>`, and then
/// `<lose> <alter> <repeat> <late>`, at most 10,000 together, or nothing, where all rates are 0.
#[tactic(auto, using(crate::proofs::Words::too_few))]
pub fn trial_said(words: &[String]) -> Option<Trial>
    ensures { result ≡ trial_said (map string_bytes words.now) }
{
    match words {
        [word, _, rates @ ..] => Some(Trial {
            wanted: find_word(&WANTED, word.as_bytes())?,
            rates: rates_said(rates)?,
        }),
        _ => None,
    }
}

/// Whether the arguments ask for the counts of the changes of data.
pub fn counts_asked(words: &[String]) -> bool
    ensures { result ≡ counts_asked (map string_bytes words.now) }
{
    match words {
        [word] => word.as_bytes() == b"crc".as_slice(),
        _ => false,
    }
}

/// Whether the arguments ask what the program was made of.
pub fn build_asked(words: &[String]) -> bool
    ensures { result ≡ build_asked (map string_bytes words.now) }
{
    match words {
        [word] => word.as_bytes() == b"build".as_slice(),
        _ => false,
    }
}

/// Returns the file that the arguments name: the second of them, or else an empty name.
pub fn file_named(words: &[String]) -> &str
    ensures { result.now ≡ file_named (map string_bytes words.now) }
{
    match words {
        [_, file, ..] => file.as_str(),
        _ => "",
    }
}
