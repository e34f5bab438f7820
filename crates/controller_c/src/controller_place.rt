//! Memory of the caller's that holds a controller, or has room for one.
ghost use Rattle.std.specs.Prelude.{◌≡◌, not, Option, Some, None, IsSome, IsTrue};
ghost use Rattle.std.specs.Coded.{coded_option};
ghost use Rattle.std.specs.Borrow.{sem};
ghost use Rattle.controller_c.specs.ControllerView.{ControllerView};
ghost use Rattle.controller_c.specs.contracts.controller_room.ControllerRoom.{the_row};

use crate::controller_room::ControllerRoom;
use std::marker::Model;

/// Where the memory lies, and the controller in it, if one is there.
#[repr(C)]
pub struct ControllerPlace {
    at: *mut u8,
    pub ghost controller: { Option ControllerView } by { coded_option the_row.coded },
}

impl Model for ControllerPlace {
    ghost use Rattle.c_values.specs.Place.{place_owns};
    ghost use Rattle.controller_c.specs.contracts.controller_room.ControllerRoom.{the_row};

    ghost also_owns = { λ place. place_owns the_row place.at place.controller };
}

impl ControllerPlace {
    ghost use Rattle.c_values.specs.Place.{has_memory};
    ghost use Rattle.controller_c.specs.Lent.{lends_controller};

    /// Whether it has no memory.
    pub(crate) fn is_null(&mut self) -> bool
        ensures { (self.new ≡ self.old) × (result ≡ not (has_memory self.old.at)) }
    {
        self.at.is_null()
    }

    /// Moves the controller out: its memory is room again.
    pub(crate) fn take(&mut self) -> ControllerRoom
        requires { IsSome self.old.controller }
        ensures { (self.old.controller ≡ Some result) × (self.new ≡ record self.old { controller = None }) }
    {
        unsafe { (self.at as *mut ControllerRoom).read() }
    }

    /// Moves a controller in.
    pub(crate) fn put(&mut self, x: ControllerRoom)
        requires { (self.old.controller ≡ None) × IsTrue (has_memory self.old.at) }
        ensures { self.new ≡ record self.old { controller = Some x } }
    {
        unsafe { (self.at as *mut ControllerRoom).write(x) }
    }

    /// The controller, for calls of its own.
    pub(crate) fn lend(&mut self) -> &mut ControllerRoom
        requires { IsSome self.old.controller }
        ensures* writes_back { sem 𝓛 (lends_controller self.entry result) }
        ensures value { (self.old.controller ≡ Some result.now) × (record self.old { controller = Some result.now } ≡ self.old) }
    {
        unsafe { &mut *(self.at as *mut ControllerRoom) }
    }
}
