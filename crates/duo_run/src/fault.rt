//! Why a step is refused.

use thiserror::Error;

/// Why a step is refused.
#[derive(Clone, Copy, Debug, PartialEq, Eq, Error)]
pub enum StepFault {
    #[error("the peer didn't send so many frames")]
    NoSuchFrame,
}
