//! Which header line may stand where.
ghost use Rattle.std.specs.Prelude.{◌≡◌, IsTrue, IfOk};

use crate::field::find_word;
use crate::header_kind::HeaderKind;
use crate::line_cause::LineCause;
use fsoe_base::End;

/// The first field of a line of a header, from its second line on.
#[derive(Clone, Copy)]
pub enum Word {
    Lengths,
    Master,
    Profile,
    App,
    Slave,
    Rule,
    Bytes,
    Range,
    Go,
}

/// The words of a header.
const WORDS: [(&[u8], Word); 9] = [
    (b"lengths", Word::Lengths),
    (b"master", Word::Master),
    (b"profile", Word::Profile),
    (b"app", Word::App),
    (b"slave", Word::Slave),
    (b"rule", Word::Rule),
    (b"bytes", Word::Bytes),
    (b"range", Word::Range),
    (b"go", Word::Go),
];

impl Word {
    ghost use Rattle.schedule_file.specs.Place.{header_word_of};

    /// The word that begins a line of a header.
    pub fn read(text: &[u8]) -> Option<Word>
        ensures { result ≡ header_word_of text.now }
    {
        find_word(&WORDS, text)
    }
}

/// How far a header is read: the line that was read last.
#[derive(Clone, Copy)]
pub enum Place {
    /// No line yet.
    Start,
    /// The first line.
    Title,
    Lengths,
    /// `master`, whose `profile` may come next.
    Master,
    /// The master's `profile`, or `app`.
    App,
    /// `slave`, whose `profile` may come next.
    Slave,
    /// The slave's `profile`.
    SlaveProfile,
    /// `rule any`.
    RuleAny,
    /// `rule exact`, or `bytes`.
    RuleExact,
    /// `rule ranges`, or `range`.
    RuleRanges,
    /// `go`.
    Done,
}

impl Place {
    ghost use Rattle.schedule_file.specs.Place.{header_word_of, is_start, may_stand, admitted};

    /// Whether no line is read.
    pub fn is_start(self) -> bool
        ensures { result ≡ is_start self }
    {
        matches!(self, Place::Start)
    }

    /// Whether a line with this first word may come next in a header of this kind.
    pub fn admits(self, kind: HeaderKind, word: Word) -> bool
        ensures { result ≡ may_stand kind self word }
    {
        match (self, word) {
            (Place::Title, Word::Lengths)
            | (Place::Master, Word::Profile | Word::App)
            | (Place::App, Word::App)
            | (Place::Slave, Word::Profile | Word::Rule)
            | (Place::SlaveProfile, Word::Rule)
            | (Place::RuleExact, Word::Bytes)
            | (Place::RuleRanges, Word::Range)
            | (Place::RuleAny | Place::RuleExact | Place::RuleRanges, Word::Go) => true,
            (Place::Lengths, Word::Master) => kind.has(End::Master),
            (Place::Lengths, Word::Slave) => !kind.has(End::Master),
            (Place::Master | Place::App, Word::Slave) => kind.has(End::Slave),
            (Place::Master | Place::App, Word::Go) => !kind.has(End::Slave),
            _ => false,
        }
    }

    /// The first word of a line, where a line with it may come next. Else the line is refused as `Header`.
    pub fn admit(self, kind: HeaderKind, first: &[u8]) -> Result<Word, LineCause>
        ensures value { result ≡ admitted kind self (header_word_of first.now) }
        ensures stands { IfOk result (λ word. IsTrue (may_stand kind self word)) }
    {
        match Word::read(first) {
            Some(word) if self.admits(kind, word) => Ok(word),
            _ => Err(LineCause::Header),
        }
    }
}
