//! The ends of a connection, the states of an end, and the commands and codes of frames.
ghost use Rattle.std.specs.Prelude.{◌≡◌};
ghost use Rattle.fsoe_base.specs.Command.{command_byte, command_of, command_name, state_name};

/// One of the two ends of a connection.
#[derive(Clone, Copy, Debug, PartialEq, Eq)]
pub enum End {
    /// Begins sessions, and sends its parameters to the slave.
    Master,
    /// Answers each frame of its master, and takes parameters.
    Slave,
}

/// The state of an end. Its outputs are zeros in every state but `Data`.
#[derive(Clone, Copy, Debug, PartialEq, Eq)]
pub enum State {
    /// There is no session.
    Reset,
    /// Session ids are exchanged.
    Session,
    /// The connection id and the slave's address are exchanged.
    Connection,
    /// The watchdog and the application parameters are exchanged.
    Parameter,
    /// Safe data are exchanged.
    Data,
}

impl State {
    /// The name as reports write it.
    pub fn name(self) -> &'static str
        ensures { result.now ≡ state_name self }
    {
        match self {
            State::Reset => "Reset",
            State::Session => "Session",
            State::Connection => "Connection",
            State::Parameter => "Parameter",
            State::Data => "Data",
        }
    }
}

/// What a frame is for: its first byte.
#[derive(Clone, Copy, Debug, PartialEq, Eq)]
pub enum Command {
    /// Ends a session, with a code, or acknowledges that.
    Reset,
    /// Begins a session and carries session ids.
    Session,
    /// Carries the connection id and the slave's address.
    Connection,
    /// Carries the watchdog and the application parameters.
    Parameter,
    /// Carries zeros in place of process data.
    FailSafeData,
    /// Carries process data.
    ProcessData,
}

impl Command {
    /// The byte that stands for it in a frame.
    pub fn byte(self) -> u8
        ensures { result ≡ command_byte self }
    {
        match self {
            Command::Reset => 0x2A,
            Command::Session => 0x4E,
            Command::Connection => 0x64,
            Command::Parameter => 0x52,
            Command::FailSafeData => 0x08,
            Command::ProcessData => 0x36,
        }
    }

    /// Returns the command with this byte, or None if no command has it.
    pub fn of(byte: u8) -> Option<Command>
        ensures { result ≡ command_of byte }
    {
        match byte {
            0x2A => Some(Command::Reset),
            0x4E => Some(Command::Session),
            0x64 => Some(Command::Connection),
            0x52 => Some(Command::Parameter),
            0x08 => Some(Command::FailSafeData),
            0x36 => Some(Command::ProcessData),
            _ => None,
        }
    }

    /// The name as reports write it.
    pub fn name(self) -> &'static str
        ensures { result.now ≡ command_name self }
    {
        match self {
            Command::Reset => "Reset",
            Command::Session => "Session",
            Command::Connection => "Connection",
            Command::Parameter => "Parameter",
            Command::FailSafeData => "FailSafeData",
            Command::ProcessData => "ProcessData",
        }
    }
}

/// The code of a Reset frame: why it was sent. An end sends 00h to 0Bh; it takes and reports any code.
#[derive(Clone, Copy, Debug, PartialEq, Eq)]
pub struct Code(pub u8);

impl Code {
    /// A local reset, or the answer to a reset.
    pub const LOCAL_RESET: Code = Code(0x00);
    /// The command isn't allowed in this state.
    pub const COMMAND_NOT_ALLOWED: Code = Code(0x01);
    /// No command has this byte.
    pub const UNKNOWN_COMMAND: Code = Code(0x02);
    /// The connection id is wrong.
    pub const WRONG_CONNECTION: Code = Code(0x03);
    /// A CRC is wrong.
    pub const WRONG_CRC: Code = Code(0x04);
    /// The watchdog expired.
    pub const WATCHDOG_EXPIRED: Code = Code(0x05);
    /// The slave address is wrong.
    pub const WRONG_ADDRESS: Code = Code(0x06);
    /// Wrong safe data: padding that isn't 0, or an answer that doesn't repeat its piece.
    pub const WRONG_DATA: Code = Code(0x07);
    /// The length of the communication parameters is wrong.
    pub const WRONG_COMMUNICATION_LENGTH: Code = Code(0x08);
    /// A communication parameter that isn't accepted: the watchdog or the profile word.
    pub const WRONG_COMMUNICATION: Code = Code(0x09);
    /// The length of the application parameters is wrong.
    pub const WRONG_APPLICATION_LENGTH: Code = Code(0x0A);
    /// Application parameters that the rule doesn't accept.
    pub const WRONG_APPLICATION: Code = Code(0x0B);
}
