//! A net, or an application of the caller.
use crate::net::Net;
use failsafe_io::{Application, Bit};
use fsoe_base::Image;

/// A net, or another application. Its meanings, answers and guards are those of the one inside.
#[derive(Drop)]
pub enum KindOf<H: Application> {
    /// A net.
    Net(Net),
    /// An application of the caller.
    Handed(H),
}

/// A net, or a boxed application of the caller.
pub type AppKind = KindOf<Box<dyn Application>>;

/// An application under its name.
#[derive(Drop)]
pub struct EntryOf<H> {
    /// The name.
    pub name: String,
    /// The application.
    pub app: H,
}

/// An application within a box, under its name.
pub type AppEntry = EntryOf<Box<dyn Application>>;

impl<H: Application> Application for KindOf<H> {
    ghost use Rattle.fb_net.specs.declared.kind_of.KindOf.TheVariants.{Net as InNet, Handed as InHanded};
    ghost use Rattle.fb_net.specs.Meaning.{net_holds, rule_of, guards_of};

    ghost holds = { elim [ InNet n ↦ net_holds n | InHanded a ↦ H.holds a ] };

    ghost rule = { elim [ InNet n ↦ rule_of n | InHanded a ↦ H.rule a ] };

    ghost guards = { elim [ InNet n ↦ guards_of n | InHanded a ↦ H.guards a ] };

    fn cycle(&mut self, ticked: bool, inputs: &[Image], outputs: &mut [Image]) {
        match self {
            KindOf::Net(net) => net.cycle(ticked, inputs, outputs),
            KindOf::Handed(app) => app.cycle(ticked, inputs, outputs),
        }
    }

    fn guards(&self, out: Bit, inp: Bit) -> bool {
        match self {
            KindOf::Net(net) => net.guards(out, inp),
            KindOf::Handed(app) => app.guards(out, inp),
        }
    }
}
