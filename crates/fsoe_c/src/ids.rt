//! The session ids of an end, by which a call tells that one is used again.
ghost use Rattle.std.specs.Prelude.{◌≡◌, Some, None, false, if◌then◌else◌};
ghost use Rattle.fsoe_c.specs.Ids.{had_id, is_again, is_in_session, noted_ids};

use fsoe_base::State;

/// The id of the next session, that of the session that began last, and whether a session is there.
#[derive(Drop)]
pub struct Ids {
    pub(crate) nonce: u32,
    last: Option<u32>,
    begun: bool,
}

/// Whether a session is there in this state.
fn is_in_session(state: State) -> bool
    ensures { result ≡ is_in_session state }
{
    match state {
        State::Reset => false,
        State::Session | State::Connection | State::Parameter | State::Data => true,
    }
}

impl Ids {
    /// Those of a new end.
    pub(crate) fn new(nonce: u32) -> Ids
        ensures { result ≡ record { nonce = nonce; last = None; begun = false } }
    {
        Ids {
            nonce,
            last: None,
            begun: false,
        }
    }

    /// Whether the next session has the id of the one before.
    fn had(&self) -> bool
        ensures { result ≡ had_id self.now.last self.now.nonce }
    {
        match self.last {
            Some(last) => last == self.nonce,
            None => false,
        }
    }

    /// Notes that the next session begins. Returns whether it has the id of the one before.
    #[cold]
    #[inline(never)]
    fn begin(&mut self) -> bool
        ensures last { self.new ≡ record self.old { last = Some self.old.nonce } }
        ensures had { result ≡ had_id self.old.last self.old.nonce }
    {
        let had = self.had();
        self.last = Some(self.nonce);
        had
    }

    /// Notes the state after a step. Returns whether a session begins with it that has the id of the one before.
    pub(crate) fn note(&mut self, state: State) -> bool
        ensures noted { self.new ≡ noted_ids self.old state }
        ensures again { result ≡ is_again self.old state }
    {
        let is_there = is_in_session(state);
        if self.begun == is_there {
            return false;
        }
        self.begun = is_there;
        is_there && self.begin()
    }

    /// Notes the state after a frame was accepted, unless a frame is due: then the step isn't over. Returns the same.
    pub(crate) fn note_accepted(&mut self, state: State, due: bool) -> bool
        ensures noted { self.new ≡ (if due then self.old else noted_ids self.old state) }
        ensures again { result ≡ is_again self.old state }
    {
        if due {
            return !self.begun && is_in_session(state) && self.had();
        }
        self.note(state)
    }
}
