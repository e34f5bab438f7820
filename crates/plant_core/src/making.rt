//! What a plant is made of, by its configuration.
ghost use Rattle.std.specs.Prelude.{◌≡◌, ◌≤◌, [], map, length, IfOk, OnErr, OnOk};
ghost use Rattle.multi_master.specs.Standing as multi;
ghost use Rattle.plant_core.specs.Making.{AreMade, is_named, links_made};
ghost use Rattle.plant_core.specs.Standing.{IsPlant};

use crate::ends::Ends;
use crate::link::Link;
use failsafe_io::Application;
use fsoe_base::{Did, FrameBuf, Memory};
use param_load::MasterSettings;
use plant_conf::{BoundSpec, LinkConf};
use std::alloc::{AllocError, Global};

/// Whether one of these bounds names this connection.
fn is_named(bounds: &[BoundSpec], link: u16) -> bool
    ensures { result ≡ is_named bounds.now link }
{
    for bound in bounds {
        if bound.estop.link == link || bound.drive.link == link {
            return true;
        }
    }
    false
}

/// What the masters of these connections are set to, and what is kept of each beside its master before anything
/// happened, in their order; places for what the masters do in a tick, and for the frames that they send then. Ages are
/// counted of the connections that a bound names.
fn parts_made(
    alloc: Global,
    confs: &[LinkConf],
    bounds: &[BoundSpec],
) -> Result<(Vec<MasterSettings>, Vec<Link>, Vec<Did>, Vec<FrameBuf>), AllocError>
    requires { length confs.now ≤ 64 }
    ensures { IfOk result (λ made. AreMade bounds.now confs.now made.0.items made.1.items made.2.items made.3.items) }
{
    let mut settings = Vec::with_capacity(alloc, confs.len())?;
    let mut links = Vec::with_capacity(alloc, confs.len())?;
    let mut dids = Vec::new(alloc);
    dids.resize_with(confs.len(), Did::nothing)?;
    let mut outs = Vec::new(alloc);
    outs.resize_with(confs.len(), FrameBuf::new)?;
    for i in 0..confs.len() {
        let conf = &confs[i];
        let aged = is_named(bounds, i as u16 + 1);
        settings.push_reserved(conf.master.copy());
        links.push_reserved(Link::new(conf, aged));
    }
    Ok((settings, links, dids, outs))
}

impl<A: Application> Ends<A> {
    /// Replaces all connections with these, at whose ends nothing happened yet. The application stays, and no cycle is
    /// run. After `Memory` nothing is changed.
    pub(crate) fn connect(
        &mut self,
        alloc: Global,
        confs: &[LinkConf],
        bounds: &[BoundSpec],
    ) -> Result<(), Memory>
        requires { length confs.now ≤ 64 }
        ensures stands { let seen = multi.seen A.rule A.holds A.guards in OnOk result (multi.StandsFor (map (λ link. link.master) confs.now) (seen self.old.master).app (seen self.new.master) []) }
        ensures app { self.new.master.app ≡ self.old.master.app }
        ensures links { OnOk result (self.new.links.items ≡ links_made 1 bounds.now confs.now) }
        ensures ready { OnOk result (IsPlant self.new.master self.new.links.items self.new.dids.items self.new.outs.items 0) }
        ensures kept { OnErr result (self.new ≡ self.old) }
    {
        let Ok((settings, links, dids, outs)) = parts_made(alloc, confs, bounds) else {
            return Err(Memory);
        };
        let Ok(()) = self.master.connect(settings) else {
            return Err(Memory);
        };
        self.links = links;
        self.dids = dids;
        self.outs = outs;
        Ok(())
    }
}
