//! What a slave has in every state.
ghost use Rattle.std.specs.Prelude.{◌≡◌};

use failsafe_io::Offer;
use param_load::SlaveSettings;
use std::marker::Model;

/// What a slave has in every state: its settings, its offer, and its nonce. It is made and changed by the slave
/// alone.
#[derive(Drop)]
pub struct Kit {
    pub(crate) settings: SlaveSettings,
    pub(crate) offer: Offer,
    pub(crate) nonce: u32,
}

impl Model for Kit {
    ghost use Rattle.slave_core.specs.Kit.{KitView, IsKit};

    ghost Value = { KitView };

    ghost view = { λ k. record { settings = k.settings; offer = k.offer; nonce = k.nonce } };

    ghost invariant = { λ k. IsKit (record { settings = k.settings; offer = k.offer; nonce = k.nonce }) };
}

impl Kit {
    ghost use Rattle.slave_core.specs.Kit.{first_kit};

    pub(crate) fn new(settings: SlaveSettings) -> Kit
        ensures { result ≡ first_kit settings }
    {
        let offer = Offer::new(settings.own_len());
        let nonce = settings.nonce();
        Kit {
            settings,
            offer,
            nonce,
        }
    }

    pub(crate) fn settings(&self) -> &SlaveSettings
        ensures { result.now ≡ self.now.settings }
    {
        &self.settings
    }
}
