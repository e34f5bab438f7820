//! What calls do by their names and by the places of their parameters. A C compiler would take each of these calls for
//! the one beside it, or a parameter for its neighbour, since their types are the same. The other calls differ in types,
//! but for those of sizes and alignments, which `embed/tests/misuse.c` tries by name.
ghost use Rattle.std.specs.Prelude.{◌≡◌, true, false, if◌then◌else◌};
ghost use Rattle.param_load.specs.declared.app_rule.AppRule.TheVariants as rule;
ghost use Rattle.param_load.specs.declared.entry.Move.TheVariants as event;
ghost use Rattle.end_model.specs.Readiness as model;
ghost use Rattle.end_model.specs.Outputs as looking_back;
ghost use Rattle.slave_core.specs.Standing as of_slave;
ghost use Rattle.master_core.specs.Standing as of_master;
ghost use Rattle.master_core.specs.Now.{is_due};
ghost use Rattle.fsoe_c.specs.Handle.{IsSoundSlave, IsSoundMaster};
ghost use Rattle.c_values.specs.Numbers.{flag, state_number};
ghost use Rattle.c_values.specs.Place.{Between, IfThere};
ghost use Rattle.fsoe_c.specs.Settings.{IsNewSlave};

use crate::master::{GpMaster, gp_master_due, gp_master_reset, gp_master_tick};
use crate::master_shown::{gp_master_held, gp_master_offer, gp_master_outputs, gp_master_state};
use crate::slave::{GpSlave, gp_slave_init_ranges, gp_slave_reset, gp_slave_tick};
use crate::slave_shown::{gp_slave_held, gp_slave_offer, gp_slave_outputs, gp_slave_state};
use c_values::numbers::OK;
use c_values::settings::GpSlaveSettings;
use c_values::told::{GpDid, GpFrame};

/// The lowest values come before the highest.
pub fn ranges(slave: &mut GpSlave, set: &GpSlaveSettings, low: &[u8], high: &[u8]) -> u8
    requires { IsSoundSlave slave.old }
    ensures { result ≡ OK → IfThere slave.new.place.slave (IsNewSlave set.now (rule.Ranges low.now high.now)) }
{
    gp_slave_init_ranges(slave, set, low, high)
}

/// A slave counts a tick, or else ends its session.
pub fn slave_step(ticks: bool, slave: &mut GpSlave, out: &mut GpFrame, did: &mut GpDid) -> u8
    requires { IsSoundSlave slave.old }
    ensures { result ≡ OK → Between slave.old.place.slave slave.new.place.slave (λ old new. of_slave.Follows old.core (if ticks then event.Tick else event.Local) new.core) }
{
    if ticks {
        gp_slave_tick(slave, out, did)
    } else {
        gp_slave_reset(slave, out, did)
    }
}

/// A master counts a tick, or else ends its session.
pub fn master_step(ticks: bool, master: &mut GpMaster, out: &mut GpFrame, did: &mut GpDid) -> u8
    requires { IsSoundMaster master.old }
    ensures { result ≡ OK → Between master.old.place.master master.new.place.master (λ old new. of_master.Follows old.core (if ticks then event.Tick else event.Local) new.core) }
{
    if ticks {
        gp_master_tick(master, out, did)
    } else {
        gp_master_reset(master, out, did)
    }
}

/// Each reader of a slave writes what its name says. Returns the answers.
pub fn slave_readers(
    slave: &mut GpSlave,
    outputs: &mut [u8],
    offer: &mut [u8],
    state: &mut u8,
    held: &mut u8,
) -> (u8, u8, u8, u8)
    requires { IsSoundSlave slave.old }
    ensures outputs { result.0 ≡ OK → IfThere slave.old.place.slave (λ old. of_slave.Shows old.core outputs.new looking_back.out) }
    ensures offer { result.1 ≡ OK → IfThere slave.old.place.slave (λ old. of_slave.Shows old.core offer.new model.offer) }
    ensures state { result.2 ≡ OK → IfThere slave.old.place.slave (λ old. of_slave.Shows old.core state.new (λ setup deeds. state_number (model.state_of setup deeds))) }
    ensures held { result.3 ≡ OK → IfThere slave.old.place.slave (λ old. of_slave.Shows old.core held.new (λ setup deeds. flag (model.held deeds))) }
{
    (
        gp_slave_outputs(slave, outputs),
        gp_slave_offer(slave, offer),
        gp_slave_state(slave, state),
        gp_slave_held(slave, held),
    )
}

/// Each reader of a master writes what its name says. Returns the answers.
pub fn master_readers(
    master: &mut GpMaster,
    outputs: &mut [u8],
    offer: &mut [u8],
    state: &mut u8,
    held: &mut u8,
    due: &mut u8,
) -> (u8, u8, u8, u8, u8)
    requires { IsSoundMaster master.old }
    ensures outputs { result.0 ≡ OK → IfThere master.old.place.master (λ old. of_master.Shows old.core outputs.new looking_back.out) }
    ensures offer { result.1 ≡ OK → IfThere master.old.place.master (λ old. of_master.Shows old.core offer.new model.offer) }
    ensures state { result.2 ≡ OK → IfThere master.old.place.master (λ old. of_master.Shows old.core state.new (λ setup deeds. state_number (model.state_of setup deeds))) }
    ensures held { result.3 ≡ OK → IfThere master.old.place.master (λ old. of_master.Shows old.core held.new (λ setup deeds. flag (model.held deeds))) }
    ensures due { result.4 ≡ OK → IfThere master.old.place.master (λ old. due.new ≡ flag (is_due old.core.state)) }
{
    (
        gp_master_outputs(master, outputs),
        gp_master_offer(master, offer),
        gp_master_state(master, state),
        gp_master_held(master, held),
        gp_master_due(master, due),
    )
}
