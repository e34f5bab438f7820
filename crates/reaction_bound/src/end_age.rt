//! What is kept of one end to count the age of its outputs.
ghost use Rattle.std.specs.Prelude.{◌≡◌};
ghost use Rattle.reaction_bound.specs.Age.{greater};
ghost use Rattle.reaction_bound.specs.Ages.{first_kept, age_in, waited_next, counted, standing_ticked, standing_counted, standing_taken, standing_next, acted_next, heard_next};

use fsoe_base::{Command, Did};

/// Outputs from an item: the ticks that are left until the watchdog expires, not 0, and the ticks since the item was
/// sent.
#[derive(Clone, Copy)]
pub struct Standing {
    pub(crate) left: u16,
    pub(crate) age: u32,
}

/// The ticks since the awaited item was sent, 0 if none is; the outputs, if they are from an item; and the greatest age
/// that they had. Ticks are those of the end, and their counts stop at 2^32 - 1.
#[derive(Drop)]
pub struct EndAge {
    pub(crate) waited: u32,
    pub(crate) standing: Option<Standing>,
    pub(crate) worst: Option<u32>,
}

impl EndAge {
    /// What is kept of an end of which nothing was noted.
    pub(crate) fn new() -> EndAge
        ensures { result ≡ first_kept }
    {
        EndAge {
            waited: 0,
            standing: None,
            worst: None,
        }
    }

    /// The age of the outputs, where they are from an item.
    pub(crate) fn age(&self) -> Option<u32>
        ensures { result ≡ age_in self.now.standing }
    {
        self.standing.map(|standing| standing.age)
    }

    /// Notes an entry of the peer, before which and after which the end awaits the items of these numbers.
    pub(crate) fn hear(&mut self, before: Option<u64>, after: Option<u64>)
        ensures { self.new ≡ heard_next before after self.old }
    {
        self.waited = waited(before, after, self.waited);
    }

    /// Notes an entry of the end: whether it is a tick, whether it is `other`, what the end did, and the watchdog in
    /// its terms after it. Before and after it the end awaits the items of these numbers.
    pub(crate) fn act(
        &mut self,
        tick: bool,
        other: bool,
        did: &Did,
        watchdog: Option<u16>,
        before: Option<u64>,
        after: Option<u64>,
    )
        ensures { self.new ≡ acted_next tick other did.now watchdog before after self.old }
    {
        let sent_ago = counted(tick, self.waited);
        self.standing = self.next_standing(tick, other, did, watchdog, before);
        self.waited = waited(before, after, sent_ago);
        self.worst = greater(self.age(), self.worst);
    }

    fn next_standing(
        &self,
        tick: bool,
        other: bool,
        did: &Did,
        watchdog: Option<u16>,
        awaited: Option<u64>,
    ) -> Option<Standing>
        ensures { result ≡ standing_next tick other did.now watchdog awaited self.now }
    {
        if did.reset.is_some() {
            return None;
        }
        match &did.took {
            Some(took) => {
                let sent_ago = counted(tick, self.waited);
                taken(took.command, other, awaited, watchdog, sent_ago)
            }
            None if tick => ticked(self.standing),
            None => self.standing,
        }
    }
}

/// The greater of two ages, where there may be none.
fn greater(a: Option<u32>, b: Option<u32>) -> Option<u32>
    ensures { result ≡ greater a b }
{
    match (a, b) {
        (Some(a), Some(b)) => Some(if a < b { b } else { a }),
        (Some(a), None) => Some(a),
        (None, b) => b,
    }
}

/// One more tick, where there was one.
fn counted(tick: bool, ticks: u32) -> u32
    ensures { result ≡ counted tick ticks }
{
    if tick { ticks.saturating_add(1) } else { ticks }
}

/// The ticks since the awaited item was sent, after an entry before and after which the end awaits the items of these
/// numbers. An item that wasn't awaited before was sent in the entry.
fn waited(before: Option<u64>, after: Option<u64>, ticks: u32) -> u32
    ensures { result ≡ waited_next before after ticks }
{
    match (before, after) {
        (Some(old), Some(new)) if old == new => ticks,
        _ => 0,
    }
}

/// Outputs after a tick, zeros where the watchdog expires with it.
fn ticked(standing: Option<Standing>) -> Option<Standing>
    ensures { result ≡ standing_ticked standing }
{
    match standing {
        Some(Standing { left, age }) if left > 1 => Some(Standing {
            left: left - 1,
            age: age.saturating_add(1),
        }),
        _ => None,
    }
}

/// Outputs by a frame of this command that was taken; the item awaited before was sent `sent_ago` ticks ago.
fn taken(
    command: Command,
    other: bool,
    awaited: Option<u64>,
    watchdog: Option<u16>,
    sent_ago: u32,
) -> Option<Standing>
    ensures { result ≡ standing_taken other awaited watchdog sent_ago command }
{
    match (command, awaited, watchdog) {
        (Command::ProcessData, Some(_), Some(left)) if !other && left > 0 => Some(Standing {
            left,
            age: sent_ago,
        }),
        _ => None,
    }
}
