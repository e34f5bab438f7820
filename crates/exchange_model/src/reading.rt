//! What a monitor reads of an entry.
ghost use Rattle.std.specs.Prelude.{◌≡◌};
ghost use Rattle.fsoe_base.specs.declared.command.Command.TheVariants as command;
ghost use Rattle.end_model.specs.Phases.{is_guarded_command, is_guarded_frame, has_command};
ghost use Rattle.end_model.specs.Deed.{delivered};

use fsoe_base::Command;
use param_load::Move;

/// The bytes that came, none if nothing did.
pub fn delivered(what: &Move) -> &[u8]
    ensures { result.now ≡ delivered what.now }
{
    match what {
        Move::Deliver(frame) => frame.bytes(),
        _ => &[],
    }
}

/// Whether frames of this command are guarded.
pub(crate) fn is_guarded(command: Command) -> bool
    ensures { result ≡ is_guarded_command command }
{
    match command {
        Command::Reset | Command::Session => false,
        _ => true,
    }
}

/// Whether these bytes are a guarded frame, by the first of them.
pub(crate) fn is_guarded_frame(bytes: &[u8]) -> bool
    ensures { result ≡ is_guarded_frame bytes.now }
{
    match bytes {
        [first, ..] => match Command::of(*first) {
            Some(command) => is_guarded(command),
            None => false,
        },
        [] => false,
    }
}

/// Whether these bytes are a Reset frame, by the first of them.
pub(crate) fn is_reset_frame(bytes: &[u8]) -> bool
    ensures { result ≡ has_command command.Reset bytes.now }
{
    match bytes {
        [first, ..] => *first == Command::Reset.byte(),
        [] => false,
    }
}
