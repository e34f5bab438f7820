//! What the ends of a connection agreed on.
ghost use Rattle.std.specs.Prelude.{◌≡◌};

use crate::app_rule::AppBytes;
use crate::profile::Profile;

/// The parameters that both ends agreed on in the handshake, and that apply in state Data.
#[derive(Drop)]
pub struct Terms {
    /// The connection id.
    pub conn: u16,
    /// The slave's address.
    pub address: u16,
    /// The watchdog in ticks.
    pub watchdog: u16,
    /// The application parameters.
    pub app: AppBytes,
    /// The profile of parameters.
    pub profile: Profile,
}

impl Terms {
    /// Returns a copy of the terms. Doesn't allocate.
    pub fn copy(&self) -> Terms
        ensures { result ≡ self.now }
    {
        Terms {
            app: self.app.copy(),
            ..*self
        }
    }
}
