//! How the lines of an input are parsed.
ghost use Rattle.std.specs.Prelude.{◌≡◌, ◌<◌, ◌≤◌, ℕ, Bool, List, Result, IsTrue, MatchOption, OnOk, Some, None, length};
ghost use Rattle.schedule_file.specs.Input.{InputFormat};
ghost use Rattle.schedule_file.specs.declared.line_buf.TheConstants.{MAX_LINE};
ghost use Rattle.schedule_file.specs.declared.line_cause.LineCause.{LineCause};
ghost use Rattle.file_run.specs.Machine.{what_says, TakesLine};

use schedule_file::LineCause;

/// How the lines of an input are parsed: those of its header, and then those of its events, up to a line that is the
/// last. Implement this for a new kind of input.
pub trait Format {
    /// What the lines of a header said so far.
    type Header: Drop;

    /// What a line after the header is read by.
    type Grammar: Drop;

    /// What a line after the header says.
    type Line: Drop;

    /// What an event line says.
    type Event;

    // What is known of an input before its first line is read.
    ghost Kind: { Type 0 };

    // What an input of a kind says.
    ghost format: { Kind → InputFormat Self.Header Self.Line Self.Event };

    // The kind of a header, which no line changes.
    ghost kind: { Self.Header → Kind };

    // How many lines a header may still have at most.
    ghost lines_left: { Self.Header → ℕ };

    // What a line says by a grammar.
    ghost says: { Self.Grammar → List ℕ → Result Self.Line LineCause };

    /// Takes the next header line, and returns whether it is the last, or why it is refused; then don't read further.
    fn line(header: &mut Self::Header, line: &[u8]) -> Result<bool, LineCause>
        ensures next { TakesLine (format (kind header.old)).is_whole result header.new ((format (kind header.old)).header_line header.old line.now) }
        ensures kind { kind header.new ≡ kind header.old }
        ensures fewer { OnOk result (lines_left header.new < lines_left header.old) };

    /// How the lines after a complete header are parsed.
    fn grammar(header: &Self::Header) -> Self::Grammar
        requires { IsTrue ((format (kind header.now)).is_whole header.now) }
        ensures { (text : List ℕ) → says result text ≡ (format (kind header.now)).line header.now text };

    /// The last line.
    fn end() -> Self::Line
        ensures { (k : Kind) → (format k).event result ≡ None };

    /// Parses a line after the header, and writes its meaning over `said`, or returns why it is refused.
    fn read(grammar: &Self::Grammar, line: &[u8], said: &mut Self::Line) -> Result<(), LineCause>
        requires { length line.now ≤ MAX_LINE }
        ensures { what_says result said.new ≡ says grammar.now line.now };

    /// The event of a line. A line without one is the last.
    fn event(line: &Self::Line) -> Option<&Self::Event>
        ensures { (k : Kind) → MatchOption result ((format k).event line.now ≡ None) (λ event. (format k).event line.now ≡ Some event.now) };
}
