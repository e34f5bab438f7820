//! Nets of function blocks. A net is an application: it steps its blocks in order and drives output bits. Each block
//! reads input bits and the values of earlier blocks. `Zeros` and `Mirror` are two simple applications. `KindOf` is a
//! net, or an application of the caller.
//!
//! ```rust
//! use failsafe_io::{Application, Bit};
//! use fb_lib::BlockKind;
//! use fb_net::{BlockSpec, Drive, Net, Wire, Wires};
//! let [stop, ack, out] = [Bit { link: 1, bit: 0 }, Bit { link: 1, bit: 1 }, Bit { link: 2, bit: 0 }];
//! let ins = Wires::new(vec![in rt.alloc(); Wire::Input(stop), Wire::Input(ack)]?);
//! let blocks = vec![in rt.alloc(); BlockSpec::new(BlockKind::Estop, 0, ins)]?;
//! let net = Net::new(blocks, vec![in rt.alloc(); Drive { out, from: Wire::Block(1) }]?, &[1, 1], &[1, 1])?;
//! assert!(rt; net.guards(out, stop) && !net.guards(out, ack));
//! ```
#![tactic(auto)]

mod cycle;
mod fault;
mod guards;
mod images;
mod kind_of;
pub mod laws;
mod making;
mod mirror;
mod net;
mod spec;
mod wire;
mod zeros;

pub use fault::NetFault;
pub use kind_of::{AppEntry, AppKind, EntryOf, KindOf};
pub use making::{first_fault, has_bit};
pub use mirror::Mirror;
pub use net::Net;
pub use spec::{BlockSpec, Drive};
pub use wire::{Wire, Wires};
pub use zeros::Zeros;
