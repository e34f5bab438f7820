//! Why a configuration can't be run, and the line that reports it.
ghost use Rattle.std.specs.Prelude.{◌≡◌, ◌+◌, ◌≤◌, ◌++◌, length};
ghost use Rattle.plant_setup.specs.ConfigLine.{numbered_fault, at_bit, conf_text, net_text, config_line};
ghost use Rattle.plant_conf.specs.Names.{key_text};

use failsafe_io::Bit;
use fb_net::NetFault;
use fsoe_io::LineText;
use plant_conf::{ConfFault, Key};

/// The first reason for which a configuration can't be run.
#[derive(Clone, Copy, Debug, PartialEq, Eq)]
pub enum SetupFault {
    /// The file has more bytes than a configuration may have.
    TooLong,
    /// The text is no configuration.
    Conf(ConfFault),
    /// The net can't be made; or a bound names a bit that no image has, which is reported like that of a net.
    Net(NetFault),
    /// No application has the name.
    NoApp,
    /// No channel has the name.
    NoChannel,
}

/// Appends the name of a fault and a number.
fn push_numbered(name: &str, n: u16, text: &mut LineText)
    requires { length text.old + length name.now ≤ 900 }
    ensures text { text.new ≡ text.old ++ numbered_fault name.now n }
    ensures most { length text.new ≤ length text.old + length name.now + 21 }
{
    text.push_str(name);
    text.push_str(" ");
    text.push_decimal(u64::from(n));
}

/// Appends the name of a fault and a bit.
fn push_at_bit(name: &str, bit: Bit, text: &mut LineText)
    requires { length text.old + length name.now ≤ 900 }
    ensures text { text.new ≡ text.old ++ at_bit name.now bit }
    ensures most { length text.new ≤ length text.old + length name.now + 42 }
{
    push_numbered(name, bit.link, text);
    text.push_str(".");
    text.push_decimal(u64::from(bit.bit));
}

/// Appends the name of a fault and a key.
fn push_keyed(name: &str, key: Key, text: &mut LineText)
    requires { length text.old + length name.now ≤ 800 }
    ensures text { text.new ≡ text.old ++ name.now ++ key_text key }
    ensures most { length text.new ≤ length text.old + length name.now + 45 }
{
    text.push_str(name);
    key.push(text);
}

/// Appends a fault of a text that is no configuration.
fn push_conf(why: ConfFault, text: &mut LineText)
    requires { length text.old ≤ 700 }
    ensures text { text.new ≡ text.old ++ conf_text why }
    ensures most { length text.new ≤ length text.old + 100 }
{
    match why {
        ConfFault::Syntax => text.push_str("Syntax"),
        ConfFault::TooMany => text.push_str("TooMany"),
        ConfFault::Missing(key) => push_keyed("Missing ", key, text),
        ConfFault::Kind(key) => push_keyed("Kind ", key, text),
        ConfFault::Range(key) => push_keyed("Range ", key, text),
        ConfFault::SameConn { a, b } => {
            push_numbered("SameConn", a, text);
            text.push_str(" ");
            text.push_decimal(u64::from(b));
        }
        ConfFault::Memory => text.push_str("Memory"),
    }
}

/// Appends a fault of a net that can't be made.
fn push_net(why: NetFault, text: &mut LineText)
    requires { length text.old ≤ 700 }
    ensures text { text.new ≡ text.old ++ net_text why }
    ensures most { length text.new ≤ length text.old + 100 }
{
    match why {
        NetFault::Arity { block } => push_numbered("Arity", block, text),
        NetFault::Later { block } => push_numbered("Later", block, text),
        NetFault::NoInput { bit } => push_at_bit("NoInput", bit, text),
        NetFault::NoOutput { bit } => push_at_bit("NoOutput", bit, text),
        NetFault::Twice { bit } => push_at_bit("Twice", bit, text),
        NetFault::Memory => text.push_str("Memory"),
    }
}

/// Writes the line that reports why a configuration can't be run.
pub fn write_config_line(why: SetupFault, text: &mut LineText)
    ensures { text.new ≡ config_line why }
{
    text.clear();
    text.push_str("config ");
    match why {
        SetupFault::TooLong => text.push_str("TooLong"),
        SetupFault::Conf(why) => push_conf(why, text),
        SetupFault::Net(why) => push_net(why, text),
        SetupFault::NoApp => text.push_str("NoApp"),
        SetupFault::NoChannel => text.push_str("NoChannel"),
    }
    text.push_str("\n");
}
