//! Why settings are refused.

use thiserror::Error;

/// Why settings are refused. If there are several reasons, the first in this order is returned.
#[derive(Clone, Copy, Debug, PartialEq, Eq, Error)]
pub enum BadSetting {
    /// The connection id is 0.
    #[error("the connection id is 0")]
    Conn,
    /// The watchdog is 0.
    #[error("the watchdog is 0")]
    Watchdog,
    /// The handshake timeout is 0.
    #[error("the limit of a handshake is 0")]
    Hand,
    /// The longest watchdog that is accepted is 0.
    #[error("the longest watchdog that is accepted is 0")]
    Most,
    /// Settings may not have this rule (`AppRule::is_acceptable`).
    #[error("the rule is for more than 512 bytes, or its ranges don't match")]
    Rule,
}
