//! Tests of complete runs. They show when input is read and output written, also if a call fails. They run both ends
//! over a schedule, and a plant over channels that are handed in. A plain program judges the entries of both ends.
//! A test of a call in `schedule_file` is here too, since the runs need this crate anyway. The expected values were
//! found without this code.
#![tactic(auto)]

#[cfg(test)]
mod fairness;
#[cfg(test)]
mod line_by_line;
#[cfg(test)]
mod of_commands;
#[cfg(test)]
mod of_duo_run;
#[cfg(test)]
mod of_plant_conf;
#[cfg(test)]
mod of_plant_pairs;
#[cfg(test)]
mod of_plant_run;
#[cfg(test)]
mod of_schedule_file;
#[cfg(test)]
mod pairs;
