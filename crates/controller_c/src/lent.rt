//! How a call comes by its controller.
ghost use Rattle.std.specs.Prelude.{◌≡◌, true};

use crate::controller_room::ControllerRoom;

/// The controller behind this handle, lent for a call, which returns `NO_END` where there is none.
macro_rules! lent {
    ($handle:expr) => {{
        if !$handle.live {
            return NO_END;
        }
        $handle.place.lend()
    }};
}

/// The controller behind this handle, lent for a call that wants one that doesn't run. The call returns `RUNNING`
/// where it runs.
macro_rules! idle {
    ($handle:expr) => {{
        let room = lent!($handle);
        if room.running {
            return RUNNING;
        }
        room
    }};
}

/// The controller behind this handle, lent for a call that wants one that runs. The call returns `NOT_RUNNING` where
/// it doesn't.
macro_rules! running {
    ($handle:expr) => {{
        let room = lent!($handle);
        if !room.running {
            return NOT_RUNNING;
        }
        room
    }};
}

/// This controller, if it has a connection with this number. The call returns `NO_CONNECTION` where it has none.
macro_rules! connected {
    ($room:expr, $connection:expr) => {{
        let room = $room;
        if !room.has($connection) {
            return NO_CONNECTION;
        }
        room
    }};
}

pub(crate) use connected;
pub(crate) use idle;
pub(crate) use lent;
pub(crate) use running;

impl ControllerRoom {
    ghost use Rattle.controller_c.specs.Answers.{has_number};
    ghost use Rattle.multi_master.specs.Standing.{HasLink, links};

    /// Whether there is a connection with this number.
    pub(crate) fn has(&self, connection: u16) -> bool
        ensures told { result ≡ has_number (links self.now.multi) connection }
        ensures link { result ≡ true → HasLink self.now.multi connection }
    {
        connection >= 1 && connection <= self.multi.links()
    }
}
