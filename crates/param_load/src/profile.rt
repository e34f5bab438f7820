//! The two profiles of parameters.
ghost use Rattle.std.specs.Prelude.{◌≡◌};
ghost use Rattle.param_load.specs.Profile.{id_len, allows_id};

/// Which parameters the ends agree on.
#[derive(Clone, Copy, Debug, PartialEq, Eq)]
pub enum Profile {
    /// Session ids have 16 bits, and the one communication parameter is the watchdog.
    One,
    /// Session ids have 32 bits, and the communication parameters are the watchdog and this profile word.
    Two(u16),
}

impl Profile {
    /// Returns the number of bytes of a session id: 2 in profile One, 4 in profile Two. The communication parameters
    /// have the same number.
    pub fn id_len(self) -> usize
        ensures { result ≡ id_len self }
    {
        match self {
            Profile::One => 2,
            Profile::Two(_) => 4,
        }
    }

    /// Whether a session id may be this number: in profile One it is at most 65,535.
    pub fn allows_id(self, id: u32) -> bool
        ensures { result ≡ allows_id self id }
    {
        match self {
            Profile::One => id <= 65_535,
            Profile::Two(_) => true,
        }
    }
}

/// The profiles of both ends of a connection.
#[derive(Clone, Copy, PartialEq, Eq)]
pub struct Profiles {
    /// The master's.
    pub master: Profile,
    /// The slave's.
    pub slave: Profile,
}
