//! A master, with room for the results of its steps.
ghost use Rattle.std.specs.Prelude.{◌≡◌, [], false};
ghost use Rattle.master_core.specs.Now.{is_due};
ghost use Rattle.end_model.specs.Setup.{OfMaster};
ghost use Rattle.fsoe_c.specs.Ids.{ids_of};
ghost use Rattle.master_core.specs.Standing.{MasterIsAfter};

use crate::ids::Ids;
use fsoe_base::{Did, FrameBuf};
use master_core::Master;
use param_load::MasterSettings;
use std::marker::Model;

/// A master and its session ids, and where its steps write their results before C code gets them, so that nothing is
/// blanked for a step. Contracts see only the master and the ids.
#[derive(Drop)]
pub struct MasterRoom {
    pub(crate) master: Master,
    pub(crate) ids: Ids,
    /// What was done at the last frame. Its place for data stays, since ticks have a place of their own.
    pub(crate) heard: Did,
    pub(crate) ticked: Did,
    pub(crate) sent: FrameBuf,
}

impl Model for MasterRoom {
    ghost use Rattle.master_core.specs.MasterView.{MasterView};
    ghost use Rattle.fsoe_c.specs.Ids.{WithIds};

    ghost Value = { WithIds MasterView };

    ghost view = { λ room. record { core = room.master; ids = room.ids } };
}

impl MasterRoom {
    /// A new master.
    pub(crate) fn new(settings: MasterSettings) -> MasterRoom
        ensures stands { MasterIsAfter settings result.core [] }
        ensures rest { is_due result.core.state ≡ false }
        ensures ids { result.ids ≡ ids_of (OfMaster settings) [] }
    {
        let ids = Ids::new(settings.nonce());
        MasterRoom {
            master: Master::new(settings),
            ids,
            heard: Did::nothing(),
            ticked: Did::nothing(),
            sent: FrameBuf::new(),
        }
    }
}
