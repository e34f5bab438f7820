//! The arguments that name a command.
ghost use Rattle.std.specs.Prelude.{◌≡◌, ◌-◌, ◌^◌, map, string_bytes};
ghost use Rattle.schedule_file.specs.Field.{number_said};
ghost use Rattle.fsoe_tool.specs.Command.{bulk_of, command_said, file_named};

use fsoe_base::End;
use schedule_file::{MAX_EVENTS, find_word, read_number};

/// What the program must do.
#[derive(Clone, Copy)]
pub enum Command {
    /// To run this end over a node file.
    Node(End),
    /// To run both ends over a schedule.
    Replay,
    /// To run both ends over the first `events` events of the schedule of this seed.
    Bulk { number: u64, events: u64 },
    /// To run ends on fixed places of a cyclic image.
    Image,
    /// To judge a recorded trace.
    Diagnose,
    /// To write a pair file as a file of several pairs.
    Convert,
    /// To run a plant by its configuration, whose file the second argument names.
    Plant,
}

/// The commands of one argument.
const ALONE: [(&[u8], Command); 4] = [
    (b"replay", Command::Replay),
    (b"image", Command::Image),
    (b"diagnose", Command::Diagnose),
    (b"convert", Command::Convert),
];

/// The nodes that an argument names by their end.
const NODES: [(&[u8], Command); 2] = [
    (b"master", Command::Node(End::Master)),
    (b"slave", Command::Node(End::Slave)),
];

/// The schedule of a seed and its number of events, by two arguments.
fn bulk_of(number: &str, events: &str) -> Option<Command>
    ensures { result ≡ bulk_of (number_said (2 ^ 64 - 1) number.now) (number_said MAX_EVENTS events.now) }
{
    let number = read_number(number.as_bytes(), u64::MAX)?;
    let events = read_number(events.as_bytes(), MAX_EVENTS)?;
    if events == 0 {
        None
    } else {
        Some(Command::Bulk { number, events })
    }
}

/// Returns the command that the arguments after the program's name give. They are `node master`, `node slave`,
/// `replay`, `image`, `diagnose`, `convert`, `plant <file>`, or `bulk <number> <events>` with a seed of at most 64 bits
/// and from 1 to 200,000 events.
pub fn command_said(words: &[String]) -> Option<Command>
    ensures { result ≡ command_said (map string_bytes words.now) }
{
    match words {
        [word] => find_word(&ALONE, word.as_bytes()),
        [first, word] => {
            if first.as_str() == "node" {
                find_word(&NODES, word.as_bytes())
            } else if first.as_str() == "plant" {
                Some(Command::Plant)
            } else {
                None
            }
        }
        [first, number, events] => {
            if first.as_str() == "bulk" {
                bulk_of(number.as_str(), events.as_str())
            } else {
                None
            }
        }
        _ => None,
    }
}

/// Returns the file that the arguments name: the second of two, or else an empty name.
pub fn file_named(words: &[String]) -> &str
    ensures { result.now ≡ file_named (map string_bytes words.now) }
{
    match words {
        [_, file] => file.as_str(),
        _ => "",
    }
}
