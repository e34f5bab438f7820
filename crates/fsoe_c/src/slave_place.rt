//! Memory of the caller's that holds a slave, or has room for one. A place at null has none.
ghost use Rattle.std.specs.Prelude.{◌≡◌, not, Option, Some, None, IsSome, IsTrue};
ghost use Rattle.std.specs.Coded.{coded_option};
ghost use Rattle.std.specs.Borrow.{sem};
ghost use Rattle.slave_core.specs.SlaveView.{SlaveView};
ghost use Rattle.fsoe_c.specs.Ids.{WithIds};
ghost use Rattle.fsoe_c.specs.contracts.slave_room.SlaveRoom.{the_row};

use crate::slave_room::SlaveRoom;
use std::marker::Model;

/// Where the memory lies, and the slave in it, if one is there.
#[repr(C)]
pub struct SlavePlace {
    at: *mut u8,
    pub ghost slave: { Option (WithIds SlaveView) } by { coded_option the_row.coded },
}

impl Model for SlavePlace {
    ghost use Rattle.c_values.specs.Place.{place_owns};
    ghost use Rattle.fsoe_c.specs.contracts.slave_room.SlaveRoom.{the_row};

    ghost also_owns = { λ place. place_owns the_row place.at place.slave };
}

impl SlavePlace {
    ghost use Rattle.c_values.specs.Place.{has_memory};
    ghost use Rattle.fsoe_c.specs.Lent.{lends_slave};

    /// Whether it has no memory.
    pub(crate) fn is_null(&mut self) -> bool
        ensures { (self.new ≡ self.old) × (result ≡ not (has_memory self.old.at)) }
    {
        self.at.is_null()
    }

    /// Lets the slave go: its memory is room again.
    pub(crate) fn clear(&mut self)
        requires { IsSome self.old.slave }
        ensures { self.new ≡ record self.old { slave = None } }
    {}

    /// Moves a slave in.
    pub(crate) fn put(&mut self, x: SlaveRoom)
        requires { (self.old.slave ≡ None) × IsTrue (has_memory self.old.at) }
        ensures { self.new ≡ record self.old { slave = Some x } }
    {
        unsafe { (self.at as *mut SlaveRoom).write(x) }
    }

    /// The slave, for calls of its own.
    pub(crate) fn lend(&mut self) -> &mut SlaveRoom
        requires { IsSome self.old.slave }
        ensures* writes_back { sem 𝓛 (lends_slave self.entry result) }
        ensures value { (self.old.slave ≡ Some result.now) × (record self.old { slave = Some result.now } ≡ self.old) }
    {
        unsafe { &mut *(self.at as *mut SlaveRoom) }
    }
}
