//! The first difference of a trace.
use crate::field::Field;

/// The first frame of a trace with which it doesn't conform.
#[derive(Clone, Copy, Debug, PartialEq, Eq)]
pub struct Difference {
    /// The number of the frame, from 1.
    pub number: u64,
    /// The first of its fields that isn't as it must be.
    pub field: Field,
}
