//! What holds of worked scripts. The call does nothing: the law is its contract.

ghost use Rattle.plant_run.specs.WorkedScripts.{SevenTicksScript, Stops, NoTitles};

/// Worked scripts: what they say, and how they stop.
pub fn worked_scripts()
    ensures seven_ticks { SevenTicksScript }
    ensures stops { Stops }
    ensures no_titles { NoTitles }
{}
