//! The settings of both ends, and what a handshake transfers: session ids, connection id, slave address and parameters.
//! An end sends a payload piece by piece. The slave joins and tests the master's pieces. Frames are built and tested
//! elsewhere.
//!
//! ```rust
//! use fsoe_base::Lengths;
//! use param_load::{AppBytes, BadSetting, MasterSettings, Payload};
//! let refused = MasterSettings::new(Lengths::new(2, 2)?, 0, 2, 100, AppBytes::new(), 1).err();
//! assert_eq!(rt; refused, Some(BadSetting::Conn));
//! let payload = Payload::connection(1, 2);
//! assert_eq!(rt; payload.piece_from(2, 2), [0x02, 0x00].as_slice());
//! ```
#![tactic(auto)]

pub mod app_rule;
mod bad_setting;
mod connection_ids;
mod contents;
mod download;
mod entry;
mod joined;
mod master_settings;
mod move_ref;
mod payload;
mod pieces;
mod profile;
mod slave_settings;
mod terms;
mod upload;

pub use app_rule::{AppBytes, AppRule};
pub use bad_setting::BadSetting;
pub use connection_ids::same_conn;
pub use download::Download;
pub use entry::{Entry, Move};
pub use master_settings::MasterSettings;
pub use move_ref::{Answer, MoveRef};
pub use payload::{Payload, padded};
pub use pieces::Pieces;
pub use profile::{Profile, Profiles};
pub use slave_settings::SlaveSettings;
pub use terms::Terms;
pub use upload::{Progress, Upload};
