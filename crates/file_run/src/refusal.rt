//! Why a line of an input is refused.
ghost use Rattle.std.specs.Prelude.{◌≡◌, ◌≤◌, length};
ghost use Rattle.file_run.specs.Refusal.{refusal_name, input_cause};

use schedule_file::LineCause;

/// Why a line is refused: by itself, or by where it stands in the input.
#[derive(Clone, Copy)]
pub enum Refusal {
    /// It has more than 640 bytes.
    Long,
    /// The input ends inside it.
    NoNewline,
    /// The input ends before this line.
    NoLine,
    /// The input has as many events as it may, and this line isn't `end`.
    TooMany,
    /// It names a frame that wasn't sent.
    NoFrame,
    /// It names an application, and all of this name are used.
    NoApp,
    /// Its content isn't allowed there, for this cause.
    Line(LineCause),
}

impl Refusal {
    /// The name as reports write it.
    pub fn name(self) -> &'static str
        ensures text { result.now ≡ refusal_name (input_cause self) }
        ensures most { length result.now ≤ 10 }
    {
        match self {
            Refusal::Long => "Long",
            Refusal::NoNewline => "NoNewline",
            Refusal::NoLine => "End",
            Refusal::TooMany => "TooMany",
            Refusal::NoFrame => "NoFrame",
            Refusal::NoApp => "NoApp",
            Refusal::Line(cause) => cause.name(),
        }
    }
}
