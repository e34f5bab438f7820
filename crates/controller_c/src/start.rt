//! The call by which a controller begins to run.
ghost use Rattle.std.specs.Prelude.{◌≡◌, ◌≢◌, map, Some};
ghost use Rattle.multi_master.specs.Calls.{ChangeApp};
ghost use Rattle.multi_master.specs.Standing.{settings_of};
ghost use Rattle.c_values.specs.Place.{Between, IfThere};
ghost use Rattle.controller_c.specs.ControllerView.{app_of_net, masters_of};
ghost use Rattle.controller_c.specs.Handle.{IsSoundController, answer_by};
ghost use Rattle.controller_c.specs.Making.{Starts, given_net, net_number, start_answer, told_place};
ghost use Rattle.controller_c.specs.Told.{GuardsOffers};

use crate::controller::GpController;
use crate::controller_room::InRegion;
use crate::lent::{idle, lent};
use crate::numbers::{ARITY, LATER, NO_INPUT, NO_MEMORY, NO_OUTPUT, RUNNING, TWICE};
use crate::wire::GpFault;
use arrayvec::ArrayVec;
use c_values::numbers::{NO_END, OK};
use fb_net::{Net, NetFault, first_fault};
use multi_master::MultiMaster;

/// The most connections of a controller.
const MOST_CONNECTIONS: usize = 64;

/// The lengths in bytes of the safe data of each connection.
#[derive(Drop)]
pub(crate) struct DataLengths {
    pub(crate) inputs: ArrayVec<u8, MOST_CONNECTIONS>,
    pub(crate) outputs: ArrayVec<u8, MOST_CONNECTIONS>,
}

/// The number of why a net is refused.
fn net_number(fault: NetFault) -> u8
    ensures { result ≡ net_number (Some fault) }
{
    match fault {
        NetFault::Arity { .. } => ARITY,
        NetFault::Later { .. } => LATER,
        NetFault::NoInput { .. } => NO_INPUT,
        NetFault::NoOutput { .. } => NO_OUTPUT,
        NetFault::Twice { .. } => TWICE,
        NetFault::Memory => NO_MEMORY,
    }
}

/// The lengths of what the masters receive and send.
pub(crate) fn data_lengths(multi: &MultiMaster<Net<InRegion>, InRegion>) -> DataLengths
    ensures inputs { result.inputs.items ≡ map (λ s. s.lengths.slave) (settings_of multi.now) }
    ensures outputs { result.outputs.items ≡ map (λ s. s.lengths.master) (settings_of multi.now) }
{
    let mut lengths = DataLengths {
        inputs: ArrayVec::new(),
        outputs: ArrayVec::new(),
    };
    for place in 0..multi.links() {
        let settings = multi.settings(place + 1);
        lengths.inputs.push(settings.peer_len() as u8);
        lengths.outputs.push(settings.own_len() as u8);
    }
    lengths
}

/// Starts the controller: its blocks and drives become the net that runs, which has its first cycle. If the net has a
/// fault, the number of the first one is returned, and `fault` says where it is. Allocates nothing, and closes the region.
#[unsafe(no_mangle)]
#[tactic(auto, using(c_values::proofs::Places::vacuous, crate::proofs::Places::guards))]
pub extern "C" fn gp_controller_start(controller: &mut GpController, fault: &mut GpFault) -> u8
    requires { IsSoundController controller.old }
    ensures sound { IsSoundController controller.new }
    ensures same { controller.new.live ≡ controller.old.live }
    ensures place { controller.new.place.at ≡ controller.old.place.at }
    ensures answer { result ≡ answer_by controller.old.place.controller start_answer }
    ensures starts { result ≡ OK → Between controller.old.place.controller controller.new.place.controller Starts }
    ensures guarded { result ≡ OK → IfThere controller.old.place.controller (λ old. GuardsOffers (masters_of old.multi) (ChangeApp (app_of_net (given_net old)))) }
    ensures told { IfThere controller.old.place.controller (λ old. fault.new ≡ told_place fault.old old) }
    ensures untold { result ≡ NO_END → fault.new ≡ fault.old }
    ensures refused { result ≢ OK → controller.new ≡ controller.old }
{
    let room = idle!(controller);
    let lengths = data_lengths(&room.multi);
    let found = first_fault(
        room.blocks.as_slice(),
        room.drives.as_slice(),
        lengths.inputs.as_slice(),
        lengths.outputs.as_slice(),
    );
    if let Some(found) = found {
        fault.set(found);
        return net_number(found);
    }
    room.start();
    OK
}
