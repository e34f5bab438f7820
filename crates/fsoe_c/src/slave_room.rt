//! A slave, with room for the results of its steps.
ghost use Rattle.std.specs.Prelude.{◌≡◌, []};
ghost use Rattle.end_model.specs.Setup.{OfSlave};
ghost use Rattle.fsoe_c.specs.Ids.{ids_of};
ghost use Rattle.slave_core.specs.Standing.{SlaveIsAfter};

use crate::ids::Ids;
use fsoe_base::{Did, FrameBuf};
use param_load::SlaveSettings;
use slave_core::Slave;
use std::marker::Model;

/// A slave and its session ids, and where its steps write their results before C code gets them, so that nothing is
/// blanked for a step. Contracts see only the slave and the ids.
#[derive(Drop)]
pub struct SlaveRoom {
    pub(crate) slave: Slave,
    pub(crate) ids: Ids,
    /// What was done at the last frame. Its place for data stays, since ticks have a place of their own.
    pub(crate) heard: Did,
    pub(crate) ticked: Did,
    pub(crate) sent: FrameBuf,
}

impl Model for SlaveRoom {
    ghost use Rattle.slave_core.specs.SlaveView.{SlaveView};
    ghost use Rattle.fsoe_c.specs.Ids.{WithIds};

    ghost Value = { WithIds SlaveView };

    ghost view = { λ room. record { core = room.slave; ids = room.ids } };
}

impl SlaveRoom {
    /// A new slave.
    pub(crate) fn new(settings: SlaveSettings) -> SlaveRoom
        ensures stands { SlaveIsAfter settings result.core [] }
        ensures ids { result.ids ≡ ids_of (OfSlave settings) [] }
    {
        let ids = Ids::new(settings.nonce());
        SlaveRoom {
            slave: Slave::new(settings),
            ids,
            heard: Did::nothing(),
            ticked: Did::nothing(),
            sent: FrameBuf::new(),
        }
    }
}
