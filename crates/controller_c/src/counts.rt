//! How often a connection was reset, dropped frames and began sessions.
ghost use Rattle.std.specs.Prelude.{◌≡◌, ◌<◌, [], length, IfSome};
ghost use Rattle.controller_c.specs.Counts.{CountsEach, CountsStand, CountsStep, RaisesAt, code_place, dropped_place, found_place, is_local, peer_place, raised, took_reset};

use fsoe_base::{Cause, Code, Command, Did, Dropped, Took};

/// Places for the codes 0 to 0Bh, and one for all others.
const CODES: usize = 13;

/// What a connection did since its counts were cleared. A count that reaches 2^32 - 1 stays there.
#[repr(C)]
#[derive(Clone, Copy)]
pub struct GpCounts {
    /// Sessions that began.
    pub sessions: u32,
    /// Resets that the program asked for.
    pub local: u32,
    /// Resets by the slave, by their codes: 0 to 0Bh, and all others last.
    pub peer: [u32; CODES],
    /// Resets for a fault that the master found, by the same codes.
    pub found: [u32; CODES],
    /// Dropped frames: those of a wrong length, repeats, and those that failed a test in state Reset.
    pub dropped: [u32; 3],
}

/// Raises a count where this is so.
fn raise(number: &mut u32, is_so: bool)
    ensures { number.new ≡ raised is_so number.old }
{
    if is_so {
        *number = number.saturating_add(1);
    }
}

/// Raises the count at this place, if there is a place.
#[tactic(auto, using(crate::proofs::Counting::raises_at, crate::proofs::Counting::raises_none))]
fn raise_at(numbers: &mut [u32], place: Option<usize>)
    requires { IfSome place (λ k. k < length numbers.old) }
    ensures { RaisesAt place numbers.old numbers.new }
{
    if let Some(place) = place {
        raise(&mut numbers[place], true);
    }
}

/// Whether a Reset frame was taken, with which a session begins.
fn took_reset(took: &Option<Took>) -> bool
    ensures { result ≡ took_reset took.now }
{
    match took {
        Some(took) => matches!(took.command, Command::Reset),
        None => false,
    }
}

/// The place of a code.
fn code_place(code: Code) -> usize
    ensures { result ≡ code_place code }
{
    usize::from(code.0).min(CODES - 1)
}

/// Where a reset by the slave is counted.
fn peer_place(cause: Option<Cause>) -> Option<usize>
    ensures place { result ≡ peer_place cause }
    ensures within { IfSome result (λ k. k < CODES) }
{
    match cause {
        Some(Cause::Peer(code)) => Some(code_place(code)),
        _ => None,
    }
}

/// Where a reset for a fault that the master found is counted.
fn found_place(cause: Option<Cause>) -> Option<usize>
    ensures place { result ≡ found_place cause }
    ensures within { IfSome result (λ k. k < CODES) }
{
    match cause {
        Some(Cause::Found(code)) => Some(code_place(code)),
        _ => None,
    }
}

/// Where a dropped frame is counted.
fn dropped_place(dropped: Option<Dropped>) -> Option<usize>
    ensures place { result ≡ dropped_place dropped }
    ensures within { IfSome result (λ k. k < 3) }
{
    dropped.map(|why| match why {
        Dropped::Length => 0,
        Dropped::Repeat => 1,
        Dropped::InReset => 2,
    })
}

impl GpCounts {
    /// The counts of no step.
    pub fn none() -> GpCounts
        ensures { CountsStand result [] }
    {
        GpCounts {
            sessions: 0,
            local: 0,
            peer: [0; CODES],
            found: [0; CODES],
            dropped: [0; 3],
        }
    }

    /// Counts a step.
    #[tactic(auto, using(crate::proofs::Counting::counts_step))]
    pub fn add(&mut self, did: &Did)
        ensures { CountsStep self.old did.now self.new }
    {
        raise(&mut self.sessions, took_reset(&did.took));
        raise(&mut self.local, matches!(did.reset, Some(Cause::Local)));
        raise_at(&mut self.peer, peer_place(did.reset));
        raise_at(&mut self.found, found_place(did.reset));
        raise_at(&mut self.dropped, dropped_place(did.dropped));
    }
}

/// Counts a step of each connection.
#[tactic(auto)]
pub(crate) fn count_each(counts: &mut [GpCounts], dids: &[Did])
    requires { length dids.now ≡ length counts.old }
    ensures { CountsEach counts.old dids.now counts.new }
{
    for i in 0..counts.len() {
        counts[i].add(&dids[i]);
    }
}
