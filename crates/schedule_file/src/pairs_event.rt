//! What an event line of several pairs says.
ghost use Rattle.std.specs.Prelude.{◌≡◌, IfOk, MatchOption, None, OnErr, OnOk, Some, map};
ghost use Rattle.std.specs.Char.{is_ascii_digit};
ghost use Rattle.std.specs.List.{list_all};
ghost use Rattle.fsoe_base.specs.LengthsOf.{length_of};
ghost use Rattle.schedule_file.specs.Event.{profile_of};
ghost use Rattle.schedule_file.specs.FieldsRead.{fields_after, Becomes};
ghost use Rattle.schedule_file.specs.PairsEvent.{first_cause, is_digits, numbered, numbered_line, pairs_line, refused_for, unlinked};
ghost use Rattle.schedule_file.specs.PairsFit.{PairsLineFits};

use crate::event::Event;
use crate::event_line::{EventWord, read_step};
use crate::field::{cut, next_field, read_number};
use crate::line_cause::LineCause;
use crate::pair_event::read_pair_word;
use crate::pairs_line::{PairsLine, PairsSaid};
use fsoe_base::{End, Lengths};
use param_load::{Profile, Profiles};

/// Whether all bytes are digits.
fn are_digits(text: &[u8]) -> bool
    ensures { result ≡ list_all is_ascii_digit text.now }
{
    text.iter().all(|byte| byte.is_ascii_digit())
}

/// Whether a field is digits alone, also with leading zeros.
#[tactic(auto, using(crate::proofs::Pairs::all_digits))]
fn is_digits(text: &[u8]) -> bool
    ensures { result ≡ is_digits text.now }
{
    !text.is_empty() && are_digits(text)
}

/// Of two causes of a line the one that counts.
fn first_cause(a: LineCause, b: LineCause) -> LineCause
    ensures { result ≡ first_cause a b }
{
    if a.order() <= b.order() { a } else { b }
}

/// Why a line is refused that has this cause, and maybe another by its event, which is one of a pair that isn't there.
#[cold]
#[inline(never)]
fn refused_for(found: LineCause, word: (EventWord, End), fields: Option<&[u8]>) -> LineCause
    ensures { result ≡ refused_for found (unlinked word (fields_after fields.entry)) }
{
    let lengths = Lengths::new(1, 1).unwrap();
    let mut event = Event::Tick { at: word.1 };
    match read_step(word, fields, &lengths, Profile::One, &mut event) {
        Ok(()) => found,
        Err(other) => first_cause(found, other),
    }
}

/// What is kept of the pair of this number, where there is one.
fn find<T>(pair: u16, kept: &[T]) -> Option<&T>
    ensures { MatchOption result (numbered pair kept.now ≡ None) (λ found. numbered pair kept.now ≡ Some found.now) }
{
    if pair == 0 {
        return None;
    }
    kept.get(usize::from(pair) - 1)
}

/// The lengths of the pair of this number, where there is one.
#[tactic(auto, using(crate::proofs::Pairs::numbered_map))]
fn find_lengths(pair: u16, lengths: &[Lengths]) -> Option<&Lengths>
    ensures { MatchOption result (numbered pair (map length_of lengths.now) ≡ None) (λ found. numbered pair (map length_of lengths.now) ≡ Some (length_of found.now)) }
{
    find(pair, lengths)
}

/// The profiles of the pair of this number, where there is one.
#[tactic(auto, using(crate::proofs::Pairs::numbered_map))]
fn find_profiles(pair: u16, profiles: &[Profiles]) -> Option<&Profiles>
    ensures { MatchOption result (numbered pair (map profile_of profiles.now) ≡ None) (λ found. numbered pair (map profile_of profiles.now) ≡ Some (profile_of found.now)) }
{
    find(pair, profiles)
}

/// The word of an event and its fields, where the field before them is digits.
fn read_numbered(
    digits: &[u8],
    fields: Option<&[u8]>,
    lengths: &[Lengths],
    profiles: &[Profiles],
    said: &mut PairsSaid,
) -> Result<(), LineCause>
    ensures value { Becomes result said.new (numbered_line (map length_of lengths.now) (map profile_of profiles.now) digits.now (fields_after fields.entry)) }
    ensures unwritten { OnErr result (said.new ≡ said.old) }
{
    let (second, rest) = next_field(fields)?;
    let word = read_pair_word(second).ok_or(LineCause::Word)?;
    let Some(pair) = read_number(digits, u64::from(u16::MAX)) else {
        return Err(refused_for(LineCause::Number, word, rest));
    };
    let pair = pair as u16;
    match (find_lengths(pair, lengths), find_profiles(pair, profiles)) {
        (Some(lengths), Some(profiles)) => said.read_one(pair, word, rest, lengths, profiles),
        _ => Err(refused_for(LineCause::NoLink, word, rest)),
    }
}

/// Parses a line after the header of several pairs, without its newline: `t` (a tick of all pairs), `<k> <event>` (an
/// event of pair `k`, from 1), or `end`. An event is a line that `read_event` reads, except `end`. The lists have the
/// lengths and the profiles of the pairs, in their order. An error is the first of these causes that applies to the
/// whole line: `Word`, `Fields`, `Number`, `NoLink`, `Reference`, `Hex`, `Length`, `Position`. `Word` also if the first
/// field is only digits and the second is there and no word of an event.
pub fn read_pairs_event(
    line: &[u8],
    lengths: &[Lengths],
    profiles: &[Profiles],
) -> Result<PairsLine, LineCause>
    ensures value { result ≡ pairs_line (map length_of lengths.now) (map profile_of profiles.now) line.now }
    ensures fits { IfOk result (PairsLineFits (map length_of lengths.now) (map profile_of profiles.now)) }
{
    let mut said = PairsSaid::end();
    read_pairs_event_into(line, lengths, profiles, &mut said)?;
    Ok(said.into_line())
}

/// Parses a line as `read_pairs_event` does, and writes what it says over `said`, which is as it was after an error. A
/// frame stays in its place where `said` has one.
pub fn read_pairs_event_into(
    line: &[u8],
    lengths: &[Lengths],
    profiles: &[Profiles],
    said: &mut PairsSaid,
) -> Result<(), LineCause>
    ensures value { Becomes result said.new (pairs_line (map length_of lengths.now) (map profile_of profiles.now) line.now) }
    ensures fits { OnOk result (PairsLineFits (map length_of lengths.now) (map profile_of profiles.now) said.new) }
    ensures unwritten { OnErr result (said.new ≡ said.old) }
{
    let (first, fields) = cut(line);
    if is_digits(first) {
        read_numbered(first, fields, lengths, profiles, said)
    } else {
        said.read_common(first, fields)
    }
}
