//! The smallest program around a slave: it passes in frames and ticks, gives the slave's outputs to the drive, and
//! sends what the slave writes. Here the events are a fixed list; in a device they come from the bus and from a timer.
//! Here the session id is always 2; a device must give a fresh one before each session.
#![tactic(auto)]

use fsoe_base::{FrameBuf, Lengths};
use param_load::{AppRule, SlaveSettings};
use slave_core::Slave;
use std::io;

enum Coming {
    Frame([u8; 7]),
    Tick,
}

/// The frames of a master whose watchdog is 3 ticks, up to its first data. Then the master is silent.
const COMING: [Coming; 11] = [
    Coming::Frame([0x2A, 0x00, 0x00, 0xC4, 0x2D, 0x00, 0x00]),
    Coming::Frame([0x4E, 0x01, 0x00, 0x12, 0x3E, 0x00, 0x00]),
    Coming::Frame([0x64, 0x01, 0x00, 0x64, 0x2A, 0x01, 0x00]),
    Coming::Frame([0x64, 0x02, 0x00, 0x62, 0x5F, 0x01, 0x00]),
    Coming::Frame([0x52, 0x02, 0x00, 0xEE, 0x74, 0x01, 0x00]),
    Coming::Frame([0x52, 0x03, 0x00, 0x8F, 0x31, 0x01, 0x00]),
    Coming::Frame([0x52, 0x00, 0x00, 0xDC, 0xA4, 0x01, 0x00]),
    Coming::Frame([0x36, 0x01, 0x00, 0x97, 0x1B, 0x01, 0x00]),
    Coming::Tick,
    Coming::Tick,
    Coming::Tick,
];

fn main(rt: HostRuntime) -> io::Result<()> {
    let lengths = Lengths::new(2, 2).unwrap();
    let settings = SlaveSettings::new(lengths, 2, 200, 1000, AppRule::Any(0), 2).unwrap();
    let mut slave = Slave::new(settings);
    slave.put(&[0x80, 0x00]);
    let mut out = FrameBuf::new();
    for coming in &COMING {
        let did = match coming {
            Coming::Frame(frame) => slave.deliver(frame, &mut out),
            Coming::Tick => slave.tick(&mut out),
        };
        print!(rt; "drive {:?}", slave.outputs())?;
        if did.sent {
            print!(rt; " send {:?}", out.bytes())?;
        }
        println!(rt; "")?;
    }
    Ok(())
}
