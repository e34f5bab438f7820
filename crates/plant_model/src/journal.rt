//! What a plant did, step by step.
use crate::event::PlantEvent;
use black_channel::Parcel;
use fsoe_base::Image;

/// A step of a plant. Connections are numbered from 1.
#[derive(Drop)]
pub enum JournalStep {
    /// An event of the script.
    Script(PlantEvent),
    /// Another application runs from now on.
    App,
    /// A cycle of the application gave the master of the connection another offer than it had. The offers of one cycle
    /// are in the order of the connections: after the tick or the change of the application that ran it, before
    /// the parcel that did. Those of the cycle at the plant's start come first.
    Offer { link: u16, load: Image },
    /// The channel gave this parcel.
    Pulled(Parcel),
}
