//! What holds of worked lines. The call does nothing: the law is its contract.

ghost use Rattle.plant_file.specs.WorkedLines.{EventsReadBack, StepLines};

/// Worked lines: those of a journal, and what a script says that has the line of an event.
pub fn worked_lines()
    ensures steps { StepLines }
    ensures events { EventsReadBack }
{}
