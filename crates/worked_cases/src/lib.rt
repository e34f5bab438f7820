//! Tests of single calls: worked values and the texts of errors, which no contract states. They have a crate of their
//! own, since a crate would be proved twice if it had tests. Tests of complete runs are in `worked_runs`.
#![tactic(auto)]

#[cfg(test)]
mod error_texts;
#[cfg(test)]
mod of_fsoe_crc;
#[cfg(test)]
mod of_fsoe_io;
#[cfg(test)]
mod of_multi_master;
#[cfg(test)]
mod of_param_load;
