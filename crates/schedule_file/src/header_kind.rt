//! For which ends a header is.
ghost use Rattle.std.specs.Prelude.{◌≡◌};

use fsoe_base::End;

/// What a header describes: both ends of a pair, or the node at one end.
#[derive(Clone, Copy)]
pub enum HeaderKind {
    /// Both ends of a pair.
    Pair,
    /// The node at this end.
    Node(End),
}

impl HeaderKind {
    ghost use Rattle.schedule_file.specs.HeaderKind.{has_end, title_of};

    /// Whether the header describes this end.
    pub fn has(self, end: End) -> bool
        ensures { result ≡ has_end self end }
    {
        match self {
            HeaderKind::Pair => true,
            HeaderKind::Node(own) => own == end,
        }
    }

    /// The first line of the header, without its newline.
    pub fn title(self) -> &'static [u8]
        ensures { result.now ≡ title_of self }
    {
        match self {
            HeaderKind::Pair => b"fsoe 1 pair",
            HeaderKind::Node(End::Master) => b"fsoe 1 node master",
            HeaderKind::Node(End::Slave) => b"fsoe 1 node slave",
        }
    }
}
