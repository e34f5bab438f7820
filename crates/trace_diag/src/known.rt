//! What is kept of the frames of a trace.
ghost use Rattle.std.specs.Prelude.{◌≡◌, ◌≢◌, ◌<◌, ◌≤◌, ◌+◌, ◌++◌, [], false, length, take, None, IfSome, IsTrue};
ghost use Rattle.fsoe_base.specs.Command.{command_byte};
ghost use Rattle.fsoe_base.specs.Lengths.{is_length, group_count};
ghost use Rattle.fsoe_base.specs.LengthsOf.{length_of};
ghost use Rattle.fsoe_base.specs.declared.lengths.Lengths.{Lengths};
ghost use Rattle.fsoe_frame.specs.Parts.{Frame, frame_of, bytes_of};
ghost use Rattle.exchange_model.specs.Ends.{peer, same_end};
ghost use Rattle.trace_diag.specs.Before.{before, next_phase};
ghost use Rattle.trace_diag.specs.Kept.{chain_after, connection_with, conn_with, due_made, has_come, kept_from, parameters_with, phase_when, piece_of, place_when};
ghost use Rattle.trace_diag.specs.Settings.{settings_by, word_if};
ghost use Rattle.trace_diag.specs.Table.{crcs_due, field_by, first_differing, frame_field};
ghost use Rattle.trace_diag.specs.Table as rows;
ghost use Rattle.trace_diag.specs.Trace.{trace_piece_len};

use crate::field::Field;
use crate::rows::{conn_holds, is_of, number_at, wrong_crc, wrong_in_echo, wrong_in_piece};
use crate::verdict::ReadOff;
use fsoe_base::{ByteList, Command, End, FrameBuf, Image, Lengths, MOST_DATA, State};
use fsoe_frame::FrameView;
use seq_chain::Chain;
use std::marker::Model;

/// The first bytes of a payload, with room for one more piece.
type Head = ByteList<132>;

/// Room for what is made of a frame while it is judged: its safe data, and the frame that is due in its place. It is
/// kept from one frame to the next.
#[derive(Drop)]
pub(crate) struct Room {
    load: Image,
    made: FrameBuf,
}

impl Room {
    /// Room in which nothing was made yet.
    pub(crate) fn new() -> Room {
        Room {
            load: Image::new(),
            made: FrameBuf::new(),
        }
    }
}

/// What is kept of the frames before one: the next frame is judged by it, and the settings are told by it.
#[derive(Drop)]
pub(crate) struct Known {
    turn: End,
    due: State,
    place: usize,
    conn: Option<u16>,
    connection: Head,
    parameters: Head,
    piece: Image,
    /// The chain as the end has it whose turn it is.
    chain: Chain,
}

impl Model for Known {
    ghost use Rattle.std.specs.Prelude.{◌<◌, ◌≤◌, length};
    ghost use Rattle.trace_diag.specs.Before.{chain_at, Before};

    ghost Value = { Before };

    ghost view = { λ k. record { turn = k.turn; due = k.due; place = k.place; conn = k.conn; connection = k.connection; parameters = k.parameters; piece = k.piece; chain = chain_at k.turn k.chain } };

    ghost invariant = { λ k. (k.place < 65542) × (length k.connection ≤ 4) × (length k.parameters ≤ 6) };
}

/// Whether both are the same end.
fn is_same(a: End, b: End) -> bool
    ensures { result ≡ same_end a b }
{
    match a {
        End::Master => b == End::Master,
        End::Slave => b == End::Slave,
    }
}

impl Known {
    /// What is known before the first frame.
    pub(crate) fn new() -> Known
        ensures { (lengths : Lengths) → result ≡ before lengths [] }
    {
        Known {
            turn: End::Master,
            due: State::Reset,
            place: 0,
            conn: None,
            connection: Head::new(),
            parameters: Head::new(),
            piece: Image::new(),
            chain: Chain::new(),
        }
    }

    /// A copy of what is known.
    pub(crate) fn copy(&self) -> Known
        ensures { result ≡ self.now }
    {
        Known {
            turn: self.turn,
            due: self.due,
            place: self.place,
            conn: self.conn,
            connection: self.connection.copy(),
            parameters: self.parameters.copy(),
            piece: self.piece.copy(),
            chain: self.chain,
        }
    }

    /// Judges the next frame: the first field of it that isn't as it must be. Where none is, what is kept goes on.
    pub(crate) fn take(
        &mut self,
        lengths: Lengths,
        from: End,
        frame: &[u8],
        room: &mut Room,
    ) -> Option<Field>
        ensures field { result ≡ field_by lengths self.old (record { from = from; frame = frame.now }) }
        ensures kept { result ≡ None → self.new ≡ kept_from (trace_piece_len lengths) self.old from (frame_of (length_of lengths from) frame.now) }
    {
        if !is_same(from, self.turn) {
            return Some(Field::Turn);
        }
        let Some(view) = fsoe_frame::view(frame, lengths.of(from)) else {
            return Some(Field::Length);
        };
        self.take_frame(lengths.piece(), from, &view, room)
    }

    /// What is told of the settings.
    pub(crate) fn read_off(&self) -> ReadOff
        ensures { result ≡ settings_by self.now.connection self.now.parameters }
    {
        let connection = self.connection.bytes();
        let parameters = self.parameters.bytes();
        ReadOff {
            conn: word_if(connection, 0),
            address: word_if(connection, 2),
            watchdog: word_if(parameters, 2),
            app: word_if(parameters, 4),
        }
    }

    /// Judges a frame of the right length from this end, whose turn it is.
    fn take_frame(
        &mut self,
        c: usize,
        from: End,
        view: &FrameView<'_>,
        room: &mut Room,
    ) -> Option<Field>
        requires turn { from ≡ self.old.turn }
        requires piece { c ≤ MOST_DATA }
        ensures field { result ≡ frame_field c self.old from view.now }
        ensures kept { result ≡ None → self.new ≡ kept_from c self.old from view.now }
    {
        let command = Command::of(view.command_byte());
        if !is_of(self.due, command) {
            return Some(Field::Command);
        }
        let conn = view.conn();
        if !conn_holds(self.due, self.conn, conn) {
            return Some(Field::Conn);
        }
        let Some(command) = command else {
            return Some(Field::Command);
        };
        view.load_into(&mut room.load);
        if let Some(place) = self.wrong_byte(c, from, command, room.load.bytes(), view) {
            return Some(Field::Data(place as u8));
        }
        if let Some(group) = self.take_crcs(command, room.load.bytes(), view, &mut room.made) {
            return Some(Field::Crc(group as u8));
        }
        self.go_on(c, from, room.load.bytes(), view);
        None
    }

    /// The first data byte that isn't as it must be, of a frame with this command and safe data.
    fn wrong_byte(
        &self,
        c: usize,
        from: End,
        command: Command,
        load: &[u8],
        view: &FrameView<'_>,
    ) -> Option<usize>
        requires piece { c ≤ MOST_DATA }
        requires few { length load.now ≤ MOST_DATA }
        requires command { view.now.cmd ≡ command_byte command }
        requires load { load.now ≡ view.now.load }
        ensures place { result ≡ rows.wrong_byte c self.now from self.now.due view.now }
        ensures within { IfSome result (λ place. place < 256) }
    {
        match (from, self.due) {
            (_, State::Data) => wrong_in_data(command, load),
            (End::Slave, State::Connection | State::Parameter) => {
                wrong_in_echo(load, self.piece.bytes())
            }
            _ => self.wrong_in_own(c, load, view),
        }
    }

    /// The first data byte that isn't as it must be, of a frame that carries a piece of its end's own payload, which no
    /// data frame does.
    #[inline(never)]
    fn wrong_in_own(&self, c: usize, load: &[u8], view: &FrameView<'_>) -> Option<usize>
        requires piece { c ≤ MOST_DATA }
        requires few { length load.now ≤ MOST_DATA }
        requires load { load.now ≡ view.now.load }
        ensures place { result ≡ rows.wrong_in_piece c self.now self.now.due view.now }
        ensures within { IfSome result (λ place. place < 256) }
    {
        let mut parameters = Head::new();
        parameters.set(self.parameters.bytes());
        parameters.push_all(first(load, c));
        wrong_in_piece(
            c,
            self.due,
            view.conn(),
            parameters.bytes(),
            self.place,
            load,
        )
    }

    /// The first group whose CRC isn't that of the chain; if none is, the chain goes on. The due frame is made in
    /// `made`.
    fn take_crcs(
        &mut self,
        command: Command,
        load: &[u8],
        view: &FrameView<'_>,
        made: &mut FrameBuf,
    ) -> Option<usize>
        requires valid { IsTrue (is_length (length load.now)) }
        requires groups { length view.now.crcs ≡ group_count (length load.now) }
        requires command { view.now.cmd ≡ command_byte command }
        requires load { load.now ≡ view.now.load }
        requires reset { self.old.due ≡ State.Reset → (command ≡ Command.Reset) × (view.now.conn ≡ 0) }
        ensures group { result ≡ first_differing 0 view.now.crcs (crcs_due self.old.due self.old.chain self.old.turn view.now) }
        ensures within { IfSome result (λ group. group < 256) }
        ensures chain { result ≡ None → self.new ≡ record self.old { chain = chain_after self.old.due self.old.chain self.old.turn view.now } }
    {
        self.seal_due(command, load, view, made);
        if made.bytes() == view.bytes() {
            return None;
        }
        let Some(due) = fsoe_frame::view(made.bytes(), load.len()) else {
            return None;
        };
        wrong_crc(view, &due, load.len())
    }

    /// Writes the frame that is due in place of this one, with the CRCs of the chain, which goes on by it.
    fn seal_due(&mut self, command: Command, load: &[u8], view: &FrameView<'_>, made: &mut FrameBuf)
        requires valid { IsTrue (is_length (length load.now)) }
        requires command { view.now.cmd ≡ command_byte command }
        requires load { load.now ≡ view.now.load }
        requires reset { self.old.due ≡ State.Reset → (command ≡ Command.Reset) × (view.now.conn ≡ 0) }
        ensures made { made.new ≡ bytes_of (due_made self.old self.old.turn view.now) }
        ensures chain { self.new ≡ record self.old { chain = chain_after self.old.due self.old.chain self.old.turn (due_made self.old self.old.turn view.now) } }
    {
        match self.due {
            State::Reset => {
                Chain::new().seal(Command::Reset, 0, load, made);
                self.chain = Chain::new();
            }
            _ => self.chain.seal(command, view.conn(), load, made),
        }
    }

    /// From now on it's the other end's turn, which sees the chain from its side, and no piece is to be repeated.
    fn turn_to(&mut self, next: End)
        requires { next ≡ peer self.old.turn }
        ensures { self.new ≡ record self.old { turn = next; piece = [] } }
    {
        self.turn = next;
        self.chain = self.chain.turned();
        self.piece.clear();
    }

    /// Keeps what comes with a frame that is as it must be; the chain has gone on.
    fn go_on(&mut self, c: usize, from: End, load: &[u8], view: &FrameView<'_>)
        requires turn { from ≡ self.old.turn }
        requires piece { c ≤ MOST_DATA }
        requires load { load.now ≡ view.now.load }
        ensures { self.new ≡ record (kept_from c self.old from view.now) { chain = self.old.chain } }
    {
        match from {
            End::Master => self.go_on_master(first(load, c), view),
            End::Slave => self.go_on_slave(c),
        }
    }

    /// Keeps what comes with a frame of the master that carries this piece.
    fn go_on_master(&mut self, part: &[u8], view: &FrameView<'_>)
        requires turn { self.old.turn ≡ End.Master }
        requires piece { length part.now ≤ MOST_DATA }
        ensures { self.new ≡ record { turn = End.Slave; due = self.old.due; place = self.old.place; conn = conn_with self.old.due self.old.conn view.now.conn; connection = connection_with self.old.due self.old.connection part.now; parameters = parameters_with self.old.due self.old.parameters part.now; piece = piece_of self.old.due part.now; chain = self.old.chain } }
    {
        self.turn_to(End::Slave);
        match self.due {
            State::Connection => {
                if self.conn.is_none() {
                    self.conn = Some(view.conn());
                }
                keep_first(&mut self.connection, part, 4);
                self.piece.set(part);
            }
            State::Parameter => {
                keep_first(&mut self.parameters, part, 6);
                self.piece.set(part);
            }
            _ => {}
        }
    }

    /// Keeps what comes with an answer of the slave.
    fn go_on_slave(&mut self, c: usize)
        requires turn { self.old.turn ≡ End.Slave }
        requires piece { c ≤ MOST_DATA }
        ensures { self.new ≡ record self.old { turn = End.Master; due = phase_when self.old.due (self.old.place + c) self.old.parameters; place = place_when self.old.due (self.old.place + c) self.old.parameters; piece = [] } }
    {
        self.turn_to(End::Master);
        let came = self.place + c;
        match self.due {
            State::Reset => {
                self.due = State::Session;
                self.place = 0;
            }
            State::Data => self.place = 0,
            now => {
                if has_come(now, came, self.parameters.bytes()) {
                    self.due = next_phase(now);
                    self.place = 0;
                } else {
                    self.place = came;
                }
            }
        }
    }
}

/// The number in the two bytes from a place on, where both have come.
fn word_if(bytes: &[u8], place: usize) -> Option<u16>
    requires { place < 6 }
    ensures { result ≡ word_if place bytes.now }
{
    if place + 1 < bytes.len() {
        Some(number_at(bytes, place))
    } else {
        None
    }
}

/// The phase after a phase.
fn next_phase(now: State) -> State
    ensures { result ≡ next_phase now }
{
    match now {
        State::Reset => State::Session,
        State::Session => State::Connection,
        State::Connection => State::Parameter,
        State::Parameter | State::Data => State::Data,
    }
}

/// Whether a payload of which so many bytes came is whole; its first six bytes are these.
fn has_come(now: State, came: usize, head: &[u8]) -> bool
    ensures value { result ≡ has_come now came head.now }
    ensures few { result ≡ false → now ≢ State.Reset → now ≢ State.Data → came < 65542 }
{
    match now {
        State::Session => came >= 2,
        State::Connection => came >= 4,
        State::Parameter => came >= 6 && came >= 6 + usize::from(number_at(head, 4)),
        _ => false,
    }
}

/// The first c bytes of these, all where there are fewer.
#[tactic(auto, using(std::proofs::lemmas::List::take_min))]
fn first(bytes: &[u8], c: usize) -> &[u8]
    ensures value { result.now ≡ take c bytes.now }
    ensures most { length result.now ≤ c }
{
    &bytes[..c.min(bytes.len())]
}

/// Appends bytes to the first ones of a payload, of which at most so many are kept.
fn keep_first(head: &mut Head, part: &[u8], most: usize)
    requires few { length head.old ≤ 6 }
    requires part { length part.now ≤ MOST_DATA }
    ensures { head.new ≡ take most (head.old ++ part.now) }
{
    head.push_all(part);
    head.truncate(most);
}

/// The first data byte of a data frame that isn't as it must be: zeros in FailSafeData.
fn wrong_in_data(command: Command, load: &[u8]) -> Option<usize>
    requires { length load.now ≤ MOST_DATA }
    ensures place { (f : Frame) → f.cmd ≡ command_byte command → f.load ≡ load.now → result ≡ rows.wrong_in_data f }
    ensures within { IfSome result (λ place. place < 256) }
{
    match command {
        Command::ProcessData => None,
        _ => wrong_in_echo(load, &[]),
    }
}
