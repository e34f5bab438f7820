//! A controller, with room for the results of its steps.
ghost use Rattle.std.specs.Prelude.{◌≡◌, ◌∷◌, [], ◌++◌, false, map, IfErr, IfOk, IfSome, None, OnErr, OnOk, Some};
ghost use Rattle.std.specs.Result.{result_err};
ghost use Rattle.fb_net.specs.Standing.{IsNewNet};
ghost use Rattle.multi_master.specs.New.{first_fault};
ghost use Rattle.multi_master.specs.Standing.{settings_of};
ghost use Rattle.multi_master.specs.declared.fault.NewFault.TheVariants as fault;
ghost use Rattle.controller_c.specs.Making.{Connects, Starts, empty_controller, given_net};

use crate::counts::GpCounts;
use crate::most::GpMost;
use fb_net::{BlockSpec, Drive, Net};
use fsoe_base::{Did, FrameBuf};
use multi_master::{MultiMaster, NewFault};
use param_load::MasterSettings;
use region::{Memory, Region};
use std::alloc::AllocError;
use std::marker::Model;
use std::mem;

/// Memory of the program's in which all that a controller lists lies.
pub(crate) type InRegion = &'static Region;

/// A master of many connections with its net, and where its steps write their results before C code gets them.
/// Contracts see all but the places of a frame.
#[derive(Drop)]
pub struct ControllerRoom {
    pub(crate) multi: MultiMaster<Net<InRegion>, InRegion>,
    /// The blocks and drives of the net that is to run. They are moved into it when the controller starts.
    pub(crate) blocks: Vec<BlockSpec<InRegion>, InRegion>,
    pub(crate) drives: Vec<Drive, InRegion>,
    pub(crate) running: bool,
    /// What each connection did at the last tick, and the frame that it sent.
    pub(crate) dids: Vec<Did, InRegion>,
    pub(crate) frames: Vec<FrameBuf, InRegion>,
    pub(crate) counts: Vec<GpCounts, InRegion>,
    pub(crate) heard: Did,
    pub(crate) sent: FrameBuf,
}

impl Model for ControllerRoom {
    ghost use Rattle.controller_c.specs.ControllerView.{ControllerView, IsController};

    ghost Value = { ControllerView };

    ghost view = { λ room. record {
      multi = room.multi;
      blocks = room.blocks.items;
      drives = room.drives.items;
      running = room.running;
      dids = room.dids.items;
      frames = room.frames.items;
      counts = room.counts.items;
    } };

    ghost invariant = { λ room. IsController room.multi room.blocks.items room.drives.items room.running room.dids.items room.frames.items room.counts.items };
}

impl ControllerRoom {
    /// A controller of no connection and no block, with room for so many in a region over `size` bytes of this memory.
    pub(crate) fn within(
        memory: Memory,
        size: usize,
        most: &GpMost,
    ) -> Result<ControllerRoom, AllocError>
        requires { memory.size ≡ size }
        ensures { IfOk result (λ made. made ≡ empty_controller) }
    {
        let region = Region::forever(memory, size)?;
        let net = Net::of_faultless(Vec::new(region), Vec::new(region));
        let connections = usize::from(most.connections);
        Ok(ControllerRoom {
            multi: MultiMaster::within(region, connections, net)?,
            blocks: Vec::with_capacity(region, usize::from(most.blocks))?,
            drives: Vec::with_capacity(region, usize::from(most.drives))?,
            running: false,
            dids: Vec::with_capacity(region, connections)?,
            frames: Vec::with_capacity(region, connections)?,
            counts: Vec::with_capacity(region, connections)?,
            heard: Did::nothing(),
            sent: FrameBuf::new(),
        })
    }

    /// The masters.
    pub(crate) fn multi(&self) -> &MultiMaster<Net<InRegion>, InRegion>
        ensures { result.now ≡ self.now.multi }
    {
        &self.multi
    }

    /// Adds a connection with these settings, the last one. After a refusal nothing is changed.
    pub(crate) fn connect(&mut self, settings: MasterSettings) -> Result<(), NewFault>
        requires { self.old.running ≡ false }
        ensures refused { IfSome (first_fault (settings_of self.old.multi ++ settings ∷ [])) (λ found. result_err result ≡ Some found) }
        ensures memory_alone { IfErr result (λ found. first_fault (settings_of self.old.multi ++ settings ∷ []) ≡ None → found ≡ fault.Memory) }
        ensures connects { OnOk result (Connects settings self.old self.new) }
        ensures kept { OnErr result (self.new ≡ self.old) }
    {
        if let Some(found) = self.multi.fault_with(&settings) {
            return Err(found);
        }
        if self.dids.reserve(1).is_err()
            || self.frames.reserve(1).is_err()
            || self.counts.reserve(1).is_err()
        {
            return Err(NewFault::Memory);
        }
        self.multi.add(settings)?;
        self.dids.push_reserved(Did::nothing());
        self.frames.push_reserved(FrameBuf::new());
        self.counts.push_reserved(GpCounts::none());
        Ok(())
    }

    /// Puts the blocks and drives that were given into a net, which runs from now on, and runs its first cycle. The region
    /// is closed: nothing allocates any more.
    pub(crate) fn start(&mut self)
        requires idle { self.old.running ≡ false }
        requires faultless { IsNewNet (given_net self.old) }
        ensures { Starts self.old self.new }
    {
        let alloc = *self.blocks.allocator();
        let blocks = mem::replace(&mut self.blocks, Vec::new(alloc));
        let drives = mem::replace(&mut self.drives, Vec::new(alloc));
        self.multi.change_app(Net::of_faultless(blocks, drives));
        self.running = true;
        alloc.close();
    }
}
