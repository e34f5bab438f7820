//! The keys of a plant's configuration.
ghost use Rattle.std.specs.Prelude.{◌≡◌, ◌≤◌, ◌+◌, ◌++◌, length};
ghost use Rattle.plant_conf.specs.Keys.{whole_table};
ghost use Rattle.plant_conf.specs.declared.key.KeyName.TheVariants as name;
ghost use Rattle.plant_conf.specs.Names.{key_word, key_text};

use fsoe_io::LineText;

/// A table of a plant's configuration.
#[derive(Clone, Copy, Debug, PartialEq, Eq)]
pub enum KeyTable {
    /// The table `plant`, which stands once.
    Plant,
    /// A connection.
    Connection,
    /// A block of the net.
    Block,
    /// An output bit that the net drives.
    Drive,
    /// A bound that is watched.
    Bound,
}

/// The name of a key, as `MasterLength` is of `master_length`, or the table as a whole.
#[derive(Clone, Copy, Debug, PartialEq, Eq)]
pub enum KeyName {
    /// The table itself.
    Whole,
    /// `app`: of `plant` the name of the application, of a connection its application parameters.
    App,
    Channel,
    Seed,
    Id,
    Address,
    Watchdog,
    MasterLength,
    SlaveLength,
    Rule,
    SlaveAddress,
    Hand,
    Most,
    MasterNonce,
    SlaveNonce,
    Kind,
    Ins,
    N,
    Out,
    From,
    Estop,
    Drive,
}

/// A key of a configuration, or a table as a whole.
#[derive(Clone, Copy, Debug, PartialEq, Eq)]
pub struct Key {
    /// The table.
    pub table: KeyTable,
    /// The number of the table among those of its name, from 1; 0 for `plant`, and for tables as a whole.
    pub index: u16,
    /// The key.
    pub name: KeyName,
}

/// A table as a whole.
pub(crate) fn whole(table: KeyTable) -> Key
    ensures { result ≡ whole_table table }
{
    Key {
        table,
        index: 0,
        name: KeyName::Whole,
    }
}

impl Key {
    /// The word under which the key stands in its table, or the table in the document.
    pub fn word(self) -> &'static str
        ensures text { result.now ≡ key_word self.name self.table }
        ensures most { length result.now ≤ 13 }
        ensures whole { self.name ≡ name.Whole → length result.now ≤ 10 }
    {
        match self.name {
            KeyName::Whole => match self.table {
                KeyTable::Plant => "plant",
                KeyTable::Connection => "connection",
                KeyTable::Block => "block",
                KeyTable::Drive => "drive",
                KeyTable::Bound => "bound",
            },
            KeyName::App => "app",
            KeyName::Channel => "channel",
            KeyName::Seed => "seed",
            KeyName::Id => "id",
            KeyName::Address => "address",
            KeyName::Watchdog => "watchdog",
            KeyName::MasterLength => "master_length",
            KeyName::SlaveLength => "slave_length",
            KeyName::Rule => "rule",
            KeyName::SlaveAddress => "slave_address",
            KeyName::Hand => "hand",
            KeyName::Most => "most",
            KeyName::MasterNonce => "master_nonce",
            KeyName::SlaveNonce => "slave_nonce",
            KeyName::Kind => "kind",
            KeyName::Ins => "ins",
            KeyName::N => "n",
            KeyName::Out => "out",
            KeyName::From => "from",
            KeyName::Estop => "estop",
            KeyName::Drive => "drive",
        }
    }

    /// Appends the key as a refusal writes it: `plant seed`, `connection 2 watchdog`, and a whole table by its name
    /// alone.
    pub fn push(self, text: &mut LineText)
        requires { length text.old ≤ 900 }
        ensures text { text.new ≡ text.old ++ key_text self }
        ensures most { length text.new ≤ length text.old + 45 }
    {
        text.push_str(whole(self.table).word());
        if self.name == KeyName::Whole {
            return;
        }
        if self.table != KeyTable::Plant {
            text.push_str(" ");
            text.push_decimal(u64::from(self.index));
        }
        text.push_str(" ");
        text.push_str(self.word());
    }
}
