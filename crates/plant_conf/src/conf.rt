//! The configuration of a plant.
ghost use Rattle.std.specs.Prelude.{◌≡◌};

use failsafe_io::Bit;
use fb_net::{BlockSpec, Drive};
use param_load::{MasterSettings, SlaveSettings};
use std::marker::Model;
use std::mem;

/// The settings of both ends of a connection, in profile One.
#[derive(Drop)]
pub struct LinkConf {
    /// The master.
    pub master: MasterSettings,
    /// The slave.
    pub slave: SlaveSettings,
}

/// A bound that is watched: how long an output bit may stay on after an input bit went off.
#[derive(Clone, Copy, PartialEq, Eq)]
pub struct BoundSpec {
    /// The input bit, such as that of an emergency stop.
    pub estop: Bit,
    /// The output bit, such as that of a drive.
    pub drive: Bit,
}

/// The configuration of a plant: from 1 to 64 connections with different ids, and at most 256 blocks, 1,024 driven
/// output bits and 16 bounds. Whether its net can be made, and whether the bits of its bounds exist, isn't tested here.
#[derive(Drop)]
pub struct PlantConf {
    pub(crate) links: Vec<LinkConf>,
    pub(crate) blocks: Vec<BlockSpec>,
    pub(crate) drives: Vec<Drive>,
    pub(crate) bounds: Vec<BoundSpec>,
    pub(crate) app: String,
    pub(crate) channel: String,
    pub(crate) seed: u64,
}

impl Model for PlantConf {
    ghost use Rattle.std.specs.Prelude.{string_bytes};
    ghost use Rattle.plant_conf.specs.ConfView.{ConfView};
    ghost use Rattle.plant_conf.specs.Kept.{IsConf};

    ghost Value = { ConfView };

    ghost view = { λ c. record {
      links = c.links.items;
      blocks = c.blocks.items;
      drives = c.drives.items;
      bounds = c.bounds.items;
      app = string_bytes c.app;
      channel = string_bytes c.channel;
      seed = c.seed;
    } };

    ghost invariant = { λ c. IsConf c.links.items c.blocks.items c.drives.items c.bounds.items };
}

impl PlantConf {
    ghost use Rattle.std.specs.Prelude.{◌≤◌, ◌<◌, [], None, length, map, vec_len};
    ghost use Rattle.std.specs.List.{All};
    ghost use Rattle.fb_net.specs.New.{IsNew};
    ghost use Rattle.plant_conf.specs.Kept.{HasSameLengths, IsProfileOne};
    ghost use Rattle.param_load.specs.SameConn.{same_conn};

    /// The connections, from 1 to 64, with different ids. Both ends of each are of profile One, with the same lengths.
    pub fn links(&self) -> &[LinkConf]
        ensures value { result.now ≡ self.now.links }
        ensures some { 0 < length result.now }
        ensures most { length result.now ≤ 64 }
        ensures same_lengths { All HasSameLengths result.now }
        ensures profile_one { All IsProfileOne result.now }
        ensures different { same_conn 1 (map (λ link. link.master.conn) result.now) ≡ None }
    {
        self.links.as_slice()
    }

    /// The blocks of the net, at most 256, which have had no cycle yet.
    pub fn blocks(&self) -> &[BlockSpec]
        ensures value { result.now ≡ self.now.blocks }
        ensures most { length result.now ≤ 256 }
        ensures new { All IsNew result.now }
    {
        self.blocks.as_slice()
    }

    /// The output bits that the net drives, at most 1,024.
    pub fn drives(&self) -> &[Drive]
        ensures value { result.now ≡ self.now.drives }
        ensures most { length result.now ≤ 1024 }
    {
        self.drives.as_slice()
    }

    /// The bounds that are watched, at most 16.
    pub fn bounds(&self) -> &[BoundSpec]
        ensures value { result.now ≡ self.now.bounds }
        ensures most { length result.now ≤ 16 }
    {
        self.bounds.as_slice()
    }

    /// The name of the application: `net` for the net of this configuration.
    pub fn app(&self) -> &str
        ensures { result.now ≡ self.now.app }
    {
        self.app.as_str()
    }

    /// The name of the channel.
    pub fn channel(&self) -> &str
        ensures { result.now ≡ self.now.channel }
    {
        self.channel.as_str()
    }

    /// The seed with which the channel begins.
    pub fn seed(&self) -> u64
        ensures { result ≡ self.now.seed }
    {
        self.seed
    }

    /// Hands out the blocks and the drives, as a net is made of them. Both lists are then empty; nothing else changes.
    pub fn take_net(&mut self) -> (Vec<BlockSpec>, Vec<Drive>)
        ensures blocks { result.0.items ≡ self.old.blocks }
        ensures drives { result.1.items ≡ self.old.drives }
        ensures rest { self.new ≡ record self.old { blocks = []; drives = [] } }
        ensures most { vec_len result.0 ≤ 256 }
        ensures most_drives { vec_len result.1 ≤ 1024 }
        ensures new { All IsNew result.0.items }
    {
        let alloc = *self.blocks.allocator();
        let blocks = mem::replace(&mut self.blocks, Vec::new(alloc));
        let drives = mem::replace(&mut self.drives, Vec::new(alloc));
        (blocks, drives)
    }
}
