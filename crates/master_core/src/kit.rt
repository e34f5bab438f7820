//! What a master has in every state.
ghost use Rattle.std.specs.Prelude.{◌≡◌};

use failsafe_io::Offer;
use param_load::MasterSettings;
use std::marker::Model;

/// What a master has in every state: its settings, its offer, and its nonce. It is made and changed by the master
/// alone.
#[derive(Drop)]
pub(crate) struct Kit {
    pub(crate) settings: MasterSettings,
    pub(crate) offer: Offer,
    pub(crate) nonce: u32,
}

impl Model for Kit {
    ghost use Rattle.master_core.specs.Kit.{KitView, IsKit};

    ghost Value = { KitView };

    ghost view = { λ k. record { settings = k.settings; offer = k.offer; nonce = k.nonce } };

    ghost invariant = { λ k. IsKit (record { settings = k.settings; offer = k.offer; nonce = k.nonce }) };
}

impl Kit {
    ghost use Rattle.master_core.specs.Kit.{first_kit};

    pub(crate) fn new(settings: MasterSettings) -> Kit
        ensures { result ≡ first_kit settings }
    {
        let offer = Offer::new(settings.own_len());
        let nonce = settings.nonce();
        Kit {
            settings,
            offer,
            nonce,
        }
    }
}
