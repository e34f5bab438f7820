//! Memory of the caller's that holds a master, or has room for one. A place at null has none.
ghost use Rattle.std.specs.Prelude.{◌≡◌, not, Option, Some, None, IsSome, IsTrue};
ghost use Rattle.std.specs.Coded.{coded_option};
ghost use Rattle.std.specs.Borrow.{sem};
ghost use Rattle.master_core.specs.MasterView.{MasterView};
ghost use Rattle.fsoe_c.specs.Ids.{WithIds};
ghost use Rattle.fsoe_c.specs.contracts.master_room.MasterRoom.{the_row};

use crate::master_room::MasterRoom;
use std::marker::Model;

/// Where the memory lies, and the master in it, if one is there.
#[repr(C)]
pub struct MasterPlace {
    at: *mut u8,
    pub ghost master: { Option (WithIds MasterView) } by { coded_option the_row.coded },
}

impl Model for MasterPlace {
    ghost use Rattle.c_values.specs.Place.{place_owns};
    ghost use Rattle.fsoe_c.specs.contracts.master_room.MasterRoom.{the_row};

    ghost also_owns = { λ place. place_owns the_row place.at place.master };
}

impl MasterPlace {
    ghost use Rattle.c_values.specs.Place.{has_memory};
    ghost use Rattle.fsoe_c.specs.Lent.{lends_master};

    /// Whether it has no memory.
    pub(crate) fn is_null(&mut self) -> bool
        ensures { (self.new ≡ self.old) × (result ≡ not (has_memory self.old.at)) }
    {
        self.at.is_null()
    }

    /// Lets the master go: its memory is room again.
    pub(crate) fn clear(&mut self)
        requires { IsSome self.old.master }
        ensures { self.new ≡ record self.old { master = None } }
    {}

    /// Moves a master in.
    pub(crate) fn put(&mut self, x: MasterRoom)
        requires { (self.old.master ≡ None) × IsTrue (has_memory self.old.at) }
        ensures { self.new ≡ record self.old { master = Some x } }
    {
        unsafe { (self.at as *mut MasterRoom).write(x) }
    }

    /// The master, for calls of its own.
    pub(crate) fn lend(&mut self) -> &mut MasterRoom
        requires { IsSome self.old.master }
        ensures* writes_back { sem 𝓛 (lends_master self.entry result) }
        ensures value { (self.old.master ≡ Some result.now) × (record self.old { master = Some result.now } ≡ self.old) }
    {
        unsafe { &mut *(self.at as *mut MasterRoom) }
    }
}
