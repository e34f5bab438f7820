//! Whether there is such a master of many connections, and what it is made of.
ghost use Rattle.std.specs.Prelude.{◌≡◌, ◌≤◌, [], ◌∷◌, ◌++◌, length, map, IfOk, OnErr, OnOk};
ghost use Rattle.multi_master.specs.New.{first_fault, ids_fault};
ghost use Rattle.multi_master.specs.Standing.{settings_in};
ghost use Rattle.multi_master.specs.Puts.{AddsOne, AreNew};

use crate::fault::NewFault;
use arrayvec::ArrayVec;
use fsoe_base::Image;
use master_core::Master;
use param_load::{MasterSettings, same_conn};
use std::alloc::{AllocError, Allocator};

/// The most connections of a master of many.
pub(crate) const MOST_LINKS: usize = 64;

/// The connection ids of these settings, in their order.
fn ids_of(settings: &[MasterSettings]) -> ArrayVec<u16, MOST_LINKS>
    requires { length settings.now ≤ MOST_LINKS }
    ensures { result.items ≡ map (λ s. s.conn) settings.now }
{
    let mut ids = ArrayVec::new();
    for own in settings {
        ids.push(own.conn());
    }
    ids
}

/// The connection ids of these masters, in their order.
fn ids_in(masters: &[Master]) -> ArrayVec<u16, MOST_LINKS>
    requires { length masters.now ≤ MOST_LINKS }
    ensures { result.items ≡ map (λ s. s.conn) (map settings_in masters.now) }
{
    let mut ids = ArrayVec::new();
    for master in masters {
        ids.push(master.settings().conn());
    }
    ids
}

/// The first two of these connection ids that are the same, as a fault.
fn same_id(ids: &[u16]) -> Option<NewFault>
    requires { length ids.now ≤ MOST_LINKS }
    ensures { result ≡ ids_fault ids.now }
{
    let (a, b) = same_conn(ids)?;
    Some(NewFault::SameConn { a, b })
}

/// The first fault of these settings.
pub(crate) fn first_fault(settings: &[MasterSettings]) -> Option<NewFault>
    ensures { result ≡ first_fault settings.now }
{
    if settings.len() > MOST_LINKS {
        return Some(NewFault::TooMany);
    }
    same_id(ids_of(settings).as_slice())
}

/// The first fault of the settings of these masters with those of one more.
pub(crate) fn first_fault_with(masters: &[Master], own: &MasterSettings) -> Option<NewFault>
    requires { length masters.now ≤ MOST_LINKS }
    ensures { result ≡ first_fault (map settings_in masters.now ++ own.now ∷ []) }
{
    if masters.len() == MOST_LINKS {
        return Some(NewFault::TooMany);
    }
    let mut ids = ids_in(masters);
    ids.push(own.conn());
    same_id(ids.as_slice())
}

/// The masters of all connections, with what a cycle reads of them and writes for them.
#[derive(Drop)]
pub(crate) struct Connections<M: Allocator> {
    pub(crate) masters: Vec<Master, M>,
    /// The outputs of each master, as a cycle reads them: one is written when it changes, and stays for later cycles.
    pub(crate) inputs: Vec<Image, M>,
    /// Where the application writes its results.
    pub(crate) answers: Vec<Image, M>,
    /// The connections whose offers the last call changed.
    pub(crate) changed: ArrayVec<u16, MOST_LINKS>,
}

impl<M: Allocator + Copy> Connections<M> {
    /// New masters with these settings, in their order, their outputs, which are zeros, and room for the results of an
    /// application for them.
    pub(crate) fn new(settings: Vec<MasterSettings, M>) -> Result<Connections<M>, AllocError>
        ensures { IfOk result (λ made. AreNew settings.items made.masters.items made.inputs.items made.answers.items made.changed.items) }
    {
        let alloc = *settings.allocator();
        let mut made = Connections {
            masters: Vec::with_capacity(alloc, settings.len())?,
            inputs: Vec::with_capacity(alloc, settings.len())?,
            answers: Vec::with_capacity(alloc, settings.len())?,
            changed: ArrayVec::new(),
        };
        for own in settings {
            made.add(own)?;
        }
        Ok(made)
    }
}

impl<M: Allocator> Connections<M> {
    /// Adds a new master with these settings, the last one. Without memory for it, all stays as it was.
    pub(crate) fn add(&mut self, own: MasterSettings) -> Result<(), AllocError>
        ensures kept { OnErr result ((self.new.masters.items ≡ self.old.masters.items) × (self.new.inputs.items ≡ self.old.inputs.items) × (self.new.answers.items ≡ self.old.answers.items)) }
        ensures added { OnOk result (AddsOne own self.old.masters.items self.old.inputs.items self.old.answers.items self.new.masters.items self.new.inputs.items self.new.answers.items) }
        ensures changed { self.new.changed ≡ self.old.changed }
    {
        self.masters.reserve(1)?;
        self.inputs.reserve(1)?;
        self.answers.reserve(1)?;
        self.inputs.push_reserved(Image::zeros(own.peer_len()));
        self.answers.push_reserved(Image::zeros(own.own_len()));
        self.masters.push_reserved(Master::new(own));
        Ok(())
    }
}
