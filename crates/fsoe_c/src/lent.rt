//! How a call comes by its end, or by memory for one.

/// The end behind this handle, lent for a call, which returns `NO_END` where there is none.
macro_rules! lent {
    ($handle:expr) => {{
        if !$handle.live {
            return NO_END;
        }
        $handle.place.lend()
    }};
}

/// Goes on where memory is there and no end. A call returns `BUSY` where an end is there, and `NO_ROOM` where no memory is.
macro_rules! vacant {
    ($handle:expr) => {
        if $handle.live {
            return BUSY;
        }
        if $handle.place.is_null() {
            return NO_ROOM;
        }
    };
}

pub(crate) use lent;
pub(crate) use vacant;
