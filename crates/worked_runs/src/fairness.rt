//! Whether the entries of a pair are fair, by a plain program that looks back over all of them at each. Places count
//! from 0, oldest first.

use fsoe_base::{Command, End, Took};
use param_load::{Entry, Move, Terms};
use std::alloc::Global;
use std::test::Fail;

/// The entries before one, and for each the place of the entry whose frame its own frame answers, if it answers one.
#[derive(Clone, Copy)]
struct Before<'a> {
    entries: &'a [Entry],
    answered: &'a [Option<usize>],
}

fn peer(which: End) -> End {
    match which {
        End::Master => End::Slave,
        End::Slave => End::Master,
    }
}

fn are_zeros(bytes: &[u8]) -> bool {
    bytes.iter().all(|byte| *byte == 0)
}

fn are_equal(mine: &Terms, theirs: &Terms) -> bool {
    mine.conn == theirs.conn
        && mine.address == theirs.address
        && mine.watchdog == theirs.watchdog
        && mine.app.bytes() == theirs.app.bytes()
        && mine.profile == theirs.profile
}

/// The data frame that an entry took, if it took one.
fn data_taken(entry: &Entry) -> Option<&Took> {
    let Some(took) = &entry.did.took else {
        return None;
    };
    matches!(took.command, Command::ProcessData | Command::FailSafeData).then_some(took)
}

/// The place of the last of these entries in which an end sent a frame.
fn last_sent(entries: &[Entry], which: End) -> Option<usize> {
    let mut last = None;
    for (place, entry) in entries.iter().enumerate() {
        if entry.end == which && !entry.sent.is_empty() {
            last = Some(place);
        }
    }
    last
}

impl Before<'_> {
    /// The place of the entry whose frame an end awaits. It is the last one in which the peer sent a frame, except a
    /// Reset frame, as the answer to the end's last one.
    fn awaited(&self, which: End) -> Option<usize> {
        let mine = last_sent(self.entries, which)?;
        let mut last = None;
        for (place, (entry, answered)) in self.entries.iter().zip(self.answered).enumerate() {
            let is_reset = entry.sent.bytes().first() == Some(&Command::Reset.byte());
            if entry.end != which && !is_reset && *answered == Some(mine) {
                last = Some(place);
            }
        }
        last
    }

    /// The place of the entry whose frame is answered by the frame of the next entry.
    fn answered_by(&self, entry: &Entry) -> Option<usize> {
        let (Some(took), Move::Deliver(frame)) = (&entry.did.took, &entry.what) else {
            return None;
        };
        let place = match took.command {
            Command::Reset | Command::Session => last_sent(self.entries, peer(entry.end))?,
            _ => self.awaited(entry.end)?,
        };
        let is_that = !entry.sent.is_empty()
            && self.entries.get(place)?.sent.bytes() == frame.bytes();
        is_that.then_some(place)
    }

    /// The place of the entry whose frame gave these data to the next entry. None if they aren't those that the peer
    /// put into the awaited answer, or both ends have different terms.
    fn source(&self, entry: &Entry, took: &Took) -> Option<usize> {
        let place = self.awaited(entry.end)?;
        is_from(self.entries, place, took, &entry.terms).then_some(place)
    }
}

/// Whether a data frame has what its end was to send after these entries: zeros where it was held, else what was put
/// last.
fn has_put(entries: &[Entry], which: End, took: &Took) -> bool {
    let mut held = false;
    let mut put: Option<&[u8]> = None;
    for entry in entries {
        match &entry.what {
            Move::Hold(failsafe) if entry.end == which => held = *failsafe,
            Move::Put(load) if entry.end == which => put = Some(load.bytes()),
            _ => {}
        }
    }
    if held {
        return took.command == Command::FailSafeData && are_zeros(took.load.bytes());
    }
    took.command == Command::ProcessData
        && match put {
            Some(bytes) => took.load.bytes() == bytes,
            None => are_zeros(took.load.bytes()),
        }
}

/// Whether a data frame is what the peer was to send in an entry, and both ends told equal terms.
fn is_from(entries: &[Entry], place: usize, took: &Took, terms: &Option<Terms>) -> bool {
    let (Some(item), Some(before)) = (entries.get(place), entries.get(..place)) else {
        return false;
    };
    let equal_terms = match (&item.terms, terms) {
        (Some(mine), Some(theirs)) => are_equal(mine, theirs),
        _ => false,
    };
    equal_terms && has_put(before, item.end, took)
}

/// Whether outputs are those by the definition over these entries of an end. They are the data taken last if no reset
/// came after them and fewer ticks than the watchdog of the terms then, else zeros.
fn are_due(entries: &[Entry], which: End, outputs: &[u8]) -> bool {
    let mut last = None;
    let mut ticks: u16 = 0;
    for entry in entries {
        if entry.end == which {
            if entry.did.reset.is_some() {
                last = None;
            } else if let Some(took) = &entry.did.took {
                last = Some((took, &entry.terms));
                ticks = 0;
            } else if matches!(entry.what, Move::Tick) {
                ticks = ticks.saturating_add(1);
            }
        }
    }
    match last {
        Some((took, Some(terms)))
            if took.command == Command::ProcessData && ticks < terms.watchdog => {
            outputs == took.load.bytes()
        }
        _ => are_zeros(outputs),
    }
}

/// The number of the first entry that isn't fair, from 1; None where all are. Fair is an entry whose data are those
/// that the peer put into the awaited answer, under equal terms and once, and whose outputs are those by looking back.
pub(crate) fn first_unfair(alloc: Global, entries: &[Entry]) -> Result<Option<usize>, Fail> {
    let mut answered = Vec::new(alloc);
    let mut used = Vec::new(alloc);
    for (place, entry) in entries.iter().enumerate() {
        let (Some(seen), Some(before)) = (entries.get(..=place), entries.get(..place)) else {
            return Err("place".into());
        };
        let before = Before {
            entries: before,
            answered: answered.as_slice(),
        };
        if let Some(took) = data_taken(entry) {
            match before.source(entry, took) {
                Some(source) if !used.contains(&source) => used.push(source)?,
                _ => return Ok(Some(place + 1)),
            }
        }
        if !are_due(seen, entry.end, entry.outputs.bytes()) {
            return Ok(Some(place + 1));
        }
        let next = before.answered_by(entry);
        answered.push(next)?;
    }
    Ok(None)
}
