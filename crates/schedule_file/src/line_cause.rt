//! Why a line by itself is refused.
ghost use Rattle.std.specs.Prelude.{◌≡◌};
ghost use Rattle.schedule_file.specs.LineCause.{cause_name, cause_order};

use thiserror::Error;

/// Why a line of a schedule is refused. Where several causes apply, the first of these counts.
#[derive(Clone, Copy, Debug, PartialEq, Eq, Error)]
pub enum LineCause {
    /// A line of the header, and its first word may not stand here.
    #[error("the line may not stand here")]
    Header,
    /// A line of an event, and its first word is none of them.
    #[error("the first word is not that of an event")]
    Word,
    /// The number of fields is not that of the word.
    #[error("the number of fields is not that of the word")]
    Fields,
    /// A field is not the number, the switch or the letter that it has to be.
    #[error("a field is not a number in its range")]
    Number,
    /// The connection does not exist.
    #[error("there is no such connection")]
    NoLink,
    /// The reference is not one of the last 64 frames.
    #[error("a reference is not -1 to -64")]
    Reference,
    /// A field is not hexadecimal, or has fewer or more bytes than one line may have.
    #[error("a field is not hexadecimal with as many bytes as a line may have")]
    Hex,
    /// A length is not valid, or a put does not have its end's number of bytes.
    #[error("a length is not valid")]
    Length,
    /// A value of the header is outside its range.
    #[error("a value is outside its range")]
    Range,
    /// The place is not one of that direction's frame.
    #[error("a place is not one of the frame")]
    Position,
}

impl LineCause {
    /// The name of the cause, as reports write it.
    pub fn name(self) -> &'static str
        ensures { result.now ≡ cause_name self }
    {
        match self {
            LineCause::Header => "Header",
            LineCause::Word => "Word",
            LineCause::Fields => "Fields",
            LineCause::Number => "Number",
            LineCause::NoLink => "NoLink",
            LineCause::Reference => "Reference",
            LineCause::Hex => "Hex",
            LineCause::Length => "Length",
            LineCause::Range => "Range",
            LineCause::Position => "Position",
        }
    }

    /// The place of the cause in the order in which causes count.
    pub fn order(self) -> u8
        ensures { result ≡ cause_order self }
    {
        self as u8
    }
}
