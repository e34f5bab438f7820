//! The text of one step in the reports of `replay`, `node` and `image`: what the end did, state, outputs, sent frame.
//!
//! ```rust
//! use entry_text::push_entry;
//! use fsoe_base::{Command, Did, State};
//! use fsoe_io::LineText;
//! let mut text = LineText::new();
//! let did = Did::took(Command::Session, &[0x01, 0x00], true);
//! push_entry(&did, State::Session, &[0x00, 0x00], &[0x4E, 0x02, 0x00, 0x90, 0x47, 0x00, 0x00], &mut text);
//! assert_eq!(rt; text.bytes(), b"took Session Session 0000 > 4e020090470000".as_slice());
//! ```
#![tactic(auto)]

ghost use Rattle.std.specs.Prelude.{◌≡◌, ◌+◌, ◌*◌, ◌≤◌, ◌++◌, length, codes};
ghost use Rattle.fsoe_base.specs.Command.{command_name, state_name};
ghost use Rattle.entry_text.specs.EntryText.{code_text, cause_text, dropped_text, did_text, sent_text, entry_text};

use fsoe_base::{Cause, Code, Command, Did, Dropped, MOST_DATA, MOST_FRAME, State};
use fsoe_io::LineText;

/// Appends `word`, which says who reset the end, and the code.
fn push_coded(word: &[u8], code: Code, text: &mut LineText)
    requires word { length word.now ≤ 20 }
    requires room { length text.old ≤ 80 }
    ensures text { text.new ≡ text.old ++ (word.now ++ code_text code) }
    ensures size { length text.new ≡ length text.old + length word.now + 2 }
{
    text.push(word);
    text.push_hex(&[code.0]);
}

fn push_cause(cause: Cause, text: &mut LineText)
    requires { length text.old ≤ 80 }
    ensures text { text.new ≡ text.old ++ cause_text cause }
    ensures most { length text.new ≤ length text.old + 20 }
{
    match cause {
        Cause::Local => text.push(b"reset own"),
        Cause::Peer(code) => push_coded(b"reset peer ", code, text),
        Cause::Found(code) => push_coded(b"reset found ", code, text),
    }
}

fn dropped_name(dropped: Dropped) -> &'static [u8]
    ensures text { result.now ≡ dropped_text dropped }
    ensures most { length result.now ≤ 20 }
{
    match dropped {
        Dropped::Length => b"drop Length",
        Dropped::Repeat => b"drop Repeat",
        Dropped::InReset => b"drop InReset",
    }
}

fn push_took(command: Command, text: &mut LineText)
    requires { length text.old ≤ 80 }
    ensures text { text.new ≡ text.old ++ (codes "took " ++ command_name command) }
    ensures most { length text.new ≤ length text.old + 20 }
{
    match command {
        Command::Reset => text.push(b"took Reset"),
        Command::Session => text.push(b"took Session"),
        Command::Connection => text.push(b"took Connection"),
        Command::Parameter => text.push(b"took Parameter"),
        Command::FailSafeData => text.push(b"took FailSafeData"),
        Command::ProcessData => text.push(b"took ProcessData"),
    }
}

fn push_did(did: &Did, text: &mut LineText)
    requires { length text.old ≤ 80 }
    ensures text { text.new ≡ text.old ++ did_text did.now }
    ensures most { length text.new ≤ length text.old + 20 }
{
    if let Some(dropped) = did.dropped {
        text.push(dropped_name(dropped));
    } else if let Some(cause) = did.reset {
        push_cause(cause, text);
    } else if let Some(took) = &did.took {
        push_took(took.command, text);
    } else if did.sent {
        text.push(b"again");
    } else {
        text.push(b"quiet");
    }
}

/// Appends the name of a state between two spaces. Each name has a copy of its own, also in `push_took`: a copy whose
/// length is constant takes few instructions.
fn push_state(state: State, text: &mut LineText)
    requires { length text.old ≤ 100 }
    ensures text { text.new ≡ text.old ++ (codes " " ++ state_name state ++ codes " ") }
    ensures most { length text.new ≤ length text.old + 12 }
{
    match state {
        State::Reset => text.push(b" Reset "),
        State::Session => text.push(b" Session "),
        State::Connection => text.push(b" Connection "),
        State::Parameter => text.push(b" Parameter "),
        State::Data => text.push(b" Data "),
    }
}

fn push_sent(sent: &[u8], text: &mut LineText)
    requires bytes { length sent.now ≤ MOST_FRAME }
    requires room { length text.old ≤ 500 }
    ensures text { text.new ≡ text.old ++ sent_text sent.now }
    ensures most { length text.new ≤ length text.old + 3 + 2 * length sent.now }
{
    if !sent.is_empty() {
        text.push(b" > ");
        text.push_hex(sent);
    }
}

/// Appends what an entry did, the state and the outputs after it, and the frame that it sent, if any: `took Session
/// Session 0000 > 4e020090470000`. Outputs and frames are lower-case hexadecimal, two digits a byte. There are at
/// most 126 output bytes and 255 bytes sent, and the text holds at most 80 bytes before.
pub fn push_entry(did: &Did, state: State, outputs: &[u8], sent: &[u8], text: &mut LineText)
    requires outputs { length outputs.now ≤ MOST_DATA }
    requires sent { length sent.now ≤ MOST_FRAME }
    requires room { length text.old ≤ 80 }
    ensures text { text.new ≡ text.old ++ entry_text did.now state outputs.now sent.now }
    ensures most { length text.new ≤ length text.old + 900 }
{
    push_did(did, text);
    push_state(state, text);
    text.push_hex(outputs);
    push_sent(sent, text);
}
