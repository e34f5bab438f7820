//! The net of a configuration, and the bits that its bounds name.
ghost use Rattle.std.specs.Prelude.{◌≡◌, ◌≤◌, [], length, IfOk};
ghost use Rattle.std.specs.Result.{result_err};
ghost use Rattle.fb_net.specs.Standing.{IsNewNet};
ghost use Rattle.plant_setup.specs.Setup.{end_lengths, bound_fault, bounds_fault, bits_fault, net_of};

use arrayvec::ArrayVec;
use fb_net::{Net, NetFault, has_bit};
use fsoe_base::End;
use plant_conf::{BoundSpec, LinkConf, PlantConf};

/// The most connections of a plant.
const MOST_LINKS: usize = 64;

/// How many bytes this end of each connection sends.
fn lengths_at(end: End, links: &[LinkConf]) -> ArrayVec<u8, MOST_LINKS>
    requires { length links.now ≤ MOST_LINKS }
    ensures { result.items ≡ end_lengths end links.now }
{
    let mut lengths = ArrayVec::new();
    for link in links {
        lengths.push(link.master.lengths().of(end) as u8);
    }
    lengths
}

/// What is wrong with a bound, where images have these lengths.
fn bound_fault(ins: &[u8], outs: &[u8], bound: BoundSpec) -> Option<NetFault>
    ensures { result ≡ bound_fault ins.now outs.now bound }
{
    if !has_bit(ins, bound.estop) {
        Some(NetFault::NoInput { bit: bound.estop })
    } else if !has_bit(outs, bound.drive) {
        Some(NetFault::NoOutput { bit: bound.drive })
    } else {
        None
    }
}

/// What is wrong with the first bound that has a fault.
fn bounds_fault(ins: &[u8], outs: &[u8], bounds: &[BoundSpec]) -> Option<NetFault>
    ensures { result ≡ bounds_fault ins.now outs.now bounds.now }
{
    for bound in bounds {
        let fault = bound_fault(ins, outs, *bound);
        if fault.is_some() {
            return fault;
        }
    }
    None
}

/// Makes the net of a configuration, which then has no blocks and no drives any more, and looks at its bounds.
pub(crate) fn take_net(conf: &mut PlantConf) -> Result<Net, NetFault>
    ensures fault { result_err result ≡ bits_fault conf.old }
    ensures net { IfOk result (λ net. net ≡ net_of conf.old) }
    ensures is_new { IfOk result (λ net. IsNewNet net) }
    ensures rest { conf.new ≡ record conf.old { blocks = []; drives = [] } }
{
    let ins = lengths_at(End::Slave, conf.links());
    let outs = lengths_at(End::Master, conf.links());
    let (blocks, drives) = conf.take_net();
    let net = Net::new(blocks, drives, ins.as_slice(), outs.as_slice())?;
    match bounds_fault(ins.as_slice(), outs.as_slice(), conf.bounds()) {
        Some(fault) => Err(fault),
        None => Ok(net),
    }
}
