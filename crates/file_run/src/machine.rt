//! What a command runs over the events of its input.
ghost use Rattle.std.specs.Prelude.{◌≡◌, ◌≢◌, ◌<◌, ◌≤◌, ◌^◌, ℕ, ◌++◌, Bool, List, [], IsTrue, IfOk, IfErr, OnOk, OnErr, false, length};
ghost use Rattle.fsoe_io.specs.declared.status.Ended.{Ended};
ghost use Rattle.schedule_file.specs.Input.{InputCause, Refused, input_read};
ghost use Rattle.schedule_file.specs.declared.event.TheConstants.{MAX_EVENTS};
ghost use Rattle.file_run.specs.Machine.{most_lines, IsStanding, StandsAsBefore, MayCome, TakesEvent, most_parts, EndsReport, EndsStopped, input_headless};
ghost use Rattle.file_run.specs.Ran.{EndsWhole};
ghost use Rattle.file_run.specs.Report.{refused_line};
ghost use Rattle.file_run.specs.Reporting.{Reporting, ReportsSoFar, TakesMemory, refused_at};

use crate::format::Format;
use crate::stopped::Stopped;
use fsoe_base::Memory;
use fsoe_io::{Ended, LineText};

/// What a command runs over the events of its input: implement this for a new command.
pub trait Machine: Drop {
    /// How its inputs are parsed.
    type Format: Format;

    /// The command's other parameters, which it has back after the run.
    type Handed;

    // What the command reports of its inputs, by what it was handed.
    ghost reporting: { Self.Handed → Reporting Self.Format.Header Self.Format.Line Self.Format.Event };

    // Handed this first and now that, it has the settings of a header and did these events. This is their whole text:
    // what it wrote and what is pending.
    ghost stands: { Self.Handed → Self → Self.Handed → Self.Format.Header → List Self.Format.Event → List ℕ → Type 0 };

    // What is still to be written of the last event, or of the end.
    ghost waits: { Self → Self.Handed → List ℕ };

    // In how many parts that comes at most.
    ghost parts: { Self → Self.Handed → ℕ };

    // Handed this first and now that, it did these events after this header: then this is the whole report and the
    // ending.
    ghost closes: { Self.Handed → Self.Handed → Self.Format.Header → List Self.Format.Event → List ℕ → Ended → Type 0 };

    /// States the laws of the reports, which each machine proves. The call does nothing: the laws are its contract.
    fn laws()
        // Each input has a report; without a whole header it is one line.
        ensures some { (handed : Self.Handed) (bytes : List ℕ) → (report : List ℕ) × (ended : Ended) × (reporting handed).reports (input_read (reporting handed).format bytes) ended report }
        ensures headless { (handed : Self.Handed) (number : ℕ) (why : InputCause) → (reporting handed).reports (input_headless (Refused number why)) (refused_at number) (refused_line number why) }
        ensures so_far { (first : Self.Handed) (v : Self) (now : Self.Handed) (h : Self.Format.Header) (log : List Self.Format.Event) (text : List ℕ) → stands first v now h log text → ReportsSoFar (reporting first) h log text }
        ensures whole { (first : Self.Handed) (now : Self.Handed) (h : Self.Format.Header) (log : List Self.Format.Event) (text : List ℕ) (ended : Ended) → closes first now h log text ended → EndsReport (reporting first) h log text ended };

    /// The header of an input, of which no line is read.
    fn open(handed: &Self::Handed) -> Result<<Self::Format as Format>::Header, Memory>
        ensures start { IfOk result (λ h. h ≡ (reporting handed.now).format.start) }
        ensures format { IfOk result (λ h. Self.Format.format (Self.Format.kind h) ≡ (reporting handed.now).format) }
        ensures few { IfOk result (λ h. Self.Format.lines_left h ≤ most_lines) }
        ensures memory { OnErr result (TakesMemory (reporting handed.now).memory) };

    /// Creates a machine from a complete header.
    fn begin(
        header: &<Self::Format as Format>::Header,
        handed: &mut Self::Handed,
    ) -> Result<Self, Memory>
        requires done { IsTrue ((reporting handed.old).format.is_whole header.now) }
        requires kind { Self.Format.kind header.now ≡ Self.Format.kind (reporting handed.old).format.start }
        ensures stands { IfOk result (λ v. stands handed.old v handed.new header.now [] []) }
        ensures memory { OnErr result (TakesMemory (reporting handed.old).memory) }
        ensures kept { OnErr result (handed.new ≡ handed.old) };

    /// Returns true if no event is allowed after `events` events. No input has more than 200,000.
    fn is_full(&self, handed: &Self::Handed, events: u64) -> bool
        requires { events ≤ MAX_EVENTS }
        ensures full { (first : Self.Handed) (h : Self.Format.Header) (log : List Self.Format.Event) (text : List ℕ) → length log ≡ events → stands first self.now handed.now h log text → result ≡ (reporting first).format.is_full h log }
        ensures few { result ≡ false → events < MAX_EVENTS };

    /// Does the event of this number, from 1, and writes the first part of its text, or returns why the run stops here.
    fn report(
        &mut self,
        handed: &mut Self::Handed,
        event: &<Self::Format as Format>::Event,
        number: u64,
        text: &mut LineText,
    ) -> Result<(), Stopped>
        requires { (first : Self.Handed) × MayCome (stands first self.old handed.old) (reporting first).format event.now number }
        ensures takes_event { OnOk result ((first : Self.Handed) → TakesEvent (stands first self.old handed.old) (stands first self.new handed.new) event.now number (text.new ++ waits self.new handed.new)) }
        ensures most { OnOk result (parts self.new handed.new ≤ most_parts) }
        ensures stopped { IfErr result (λ why. (first : Self.Handed) (h : Self.Format.Header) (log : List Self.Format.Event) (text : List ℕ) → stands first self.old handed.old h log text → EndsStopped (reporting first) h log text event.now why) }
        ensures kept { OnErr result ((first : Self.Handed) → StandsAsBefore (stands first self.old handed.old) (stands first self.new handed.new)) };

    /// Writes the first part of the last lines, after `events` events, and returns how the run ends.
    fn close(&mut self, handed: &Self::Handed, events: u64, text: &mut LineText) -> Ended
        ensures closes { (first : Self.Handed) (h : Self.Format.Header) (log : List Self.Format.Event) (lines : List ℕ) → length log ≡ events → stands first self.old handed.now h log lines → closes first handed.now h log (lines ++ (text.new ++ waits self.new handed.now)) result }
        ensures ends { (first : Self.Handed) (h : Self.Format.Header) (log : List Self.Format.Event) (lines : List ℕ) → stands first self.old handed.now h log lines → EndsWhole (reporting first).judges result.status result.place }
        ensures most { parts self.new handed.now ≤ most_parts }
        ensures kept { (first : Self.Handed) → StandsAsBefore (stands first self.old handed.now) (stands first self.new handed.now) };

    /// Writes the next part of the pending text, and nothing only if none is pending.
    fn more(&mut self, handed: &Self::Handed, text: &mut LineText)
        requires { (first : Self.Handed) × IsStanding (stands first self.old handed.now) }
        ensures part { waits self.old handed.now ≡ text.new ++ waits self.new handed.now }
        ensures some { text.new ≡ [] → waits self.old handed.now ≡ [] }
        ensures fewer { text.new ≢ [] → parts self.new handed.now < parts self.old handed.now }
        ensures kept { (first : Self.Handed) → StandsAsBefore (stands first self.old handed.now) (stands first self.new handed.now) };
}
