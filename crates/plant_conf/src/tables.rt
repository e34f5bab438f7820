//! What the tables of a configuration say, key by key.
ghost use Rattle.std.specs.Prelude.{◌≡◌, ◌≢◌, ◌<◌, IsTrue, IfOk, IfErr, string_bytes};
ghost use Rattle.toml.specs.View.{table_view};
ghost use Rattle.fsoe_base.specs.Lengths.{is_length};
ghost use Rattle.param_load.specs.AppRule.{is_acceptable};
ghost use Rattle.plant_conf.specs.declared.fault.ConfFault.TheVariants as fault;
ghost use Rattle.plant_conf.specs.Keys.{key_of, plant_keys, link_keys, slave_keys};

use crate::arrays::{FromTable, required_wires};
use crate::conf::{BoundSpec, LinkConf};
use crate::fault::ConfFault;
use crate::forms::{
    optional_bytes, optional_number, optional_rule, optional_seed, required_bit, required_kind,
    required_length, required_number, required_table, required_text, required_wire,
};
use crate::key::{Key, KeyName, KeyTable, whole};
use fb_net::{BlockSpec, Drive};
use fsoe_base::Lengths;
use param_load::{AppBytes, AppRule, MasterSettings, SlaveSettings};
use std::alloc::Global;
use toml::Table;

/// A key of the table of this name with this number.
fn key(table: KeyTable, index: u16, name: KeyName) -> Key
    ensures { result ≡ key_of table index name }
{
    Key { table, index, name }
}

impl FromTable for Drive {
    ghost use Rattle.fb_net.specs.declared.spec.Drive.{Drive};
    ghost use Rattle.plant_conf.specs.Keys.{drive};

    ghost Values = { Drive };

    ghost values = { λ x. x };

    ghost Holds = { λ _. Unit {0} };

    ghost says = { drive };

    #[tactic(auto, unfolding(crate::specs::Keys::drive))]
    fn read(_alloc: Global, table: &Table, number: u16) -> Result<Drive, ConfFault> {
        let out = required_bit(table, key(KeyTable::Drive, number, KeyName::Out), b"o")?;
        let from = required_wire(table, key(KeyTable::Drive, number, KeyName::From))?;
        Ok(Drive { out, from })
    }
}

impl FromTable for BoundSpec {
    ghost use Rattle.plant_conf.specs.declared.conf.BoundSpec.{BoundSpec};
    ghost use Rattle.plant_conf.specs.Keys.{bound};

    ghost Values = { BoundSpec };

    ghost values = { λ x. x };

    ghost Holds = { λ _. Unit {0} };

    ghost says = { bound };

    #[tactic(auto, unfolding(crate::specs::Keys::bound))]
    fn read(_alloc: Global, table: &Table, number: u16) -> Result<BoundSpec, ConfFault> {
        let estop = required_bit(table, key(KeyTable::Bound, number, KeyName::Estop), b"i")?;
        let drive = required_bit(table, key(KeyTable::Bound, number, KeyName::Drive), b"o")?;
        Ok(BoundSpec { estop, drive })
    }
}

impl FromTable for BlockSpec {
    ghost use Rattle.fb_net.specs.New.{IsNew};
    ghost use Rattle.fb_net.specs.BlockSpec.{BlockSpec};
    ghost use Rattle.plant_conf.specs.Keys.{block};

    ghost Values = { BlockSpec };

    ghost values = { λ x. x };

    ghost Holds = { IsNew };

    ghost says = { block };

    #[tactic(auto, unfolding(crate::specs::Keys::block))]
    fn read(alloc: Global, table: &Table, number: u16) -> Result<BlockSpec, ConfFault> {
        let kind = required_kind(table, key(KeyTable::Block, number, KeyName::Kind))?;
        let ins = required_wires(alloc, table, key(KeyTable::Block, number, KeyName::Ins))?;
        let n = optional_number(table, key(KeyTable::Block, number, KeyName::N), 0, 0)?;
        Ok(BlockSpec::new(kind, n, ins))
    }
}

impl FromTable for LinkConf {
    ghost use Rattle.plant_conf.specs.Kept.{HasSameLengths, IsProfileOne};
    ghost use Rattle.plant_conf.specs.Keys.{connection};
    ghost use Rattle.plant_conf.specs.Values.{LinkValues, link_values};

    ghost Values = { LinkValues };

    ghost values = { link_values };

    ghost Holds = { λ link. HasSameLengths link × IsProfileOne link };

    ghost says = { connection };

    #[tactic(auto, unfolding(crate::specs::Keys::connection))]
    fn read(_alloc: Global, table: &Table, number: u16) -> Result<LinkConf, ConfFault> {
        let of = KeyTable::Connection;
        let link = read_keys(table, number)?;
        let slave = read_slave(table, number, &link)?;
        let master_nonce = optional_number(table, key(of, number, KeyName::MasterNonce), 0, 1)?;
        let slave_nonce = optional_number(table, key(of, number, KeyName::SlaveNonce), 0, 2)?;
        let lengths = Lengths::new(link.lengths.0, link.lengths.1).unwrap();
        let master = MasterSettings::new(
            lengths,
            link.id,
            link.address,
            link.watchdog,
            link.app,
            master_nonce,
        );
        let slave = SlaveSettings::new(
            lengths,
            slave.address,
            slave.hand,
            slave.most,
            slave.rule,
            slave_nonce,
        );
        Ok(LinkConf {
            master: master.unwrap(),
            slave: slave.unwrap(),
        })
    }
}

/// What a connection has to say, and its application parameters.
#[derive(Drop)]
struct LinkKeys {
    id: u16,
    address: u16,
    watchdog: u16,
    lengths: (usize, usize),
    app: AppBytes,
}

/// Reads what the connection with this number has to say, and its application parameters.
#[tactic(auto, unfolding(crate::specs::Keys::link_keys))]
fn read_keys(table: &Table, number: u16) -> Result<LinkKeys, ConfFault>
    ensures value { result ≡ link_keys number (table_view table.now) }
    ensures id { IfOk result (λ link. 0 < link.id) }
    ensures watchdog { IfOk result (λ link. 0 < link.watchdog) }
    ensures master { IfOk result (λ link. IsTrue (is_length link.lengths.0)) }
    ensures slave { IfOk result (λ link. IsTrue (is_length link.lengths.1)) }
{
    let of = KeyTable::Connection;
    let id = required_number(table, key(of, number, KeyName::Id), 1)?;
    let address = required_number(table, key(of, number, KeyName::Address), 0)?;
    let watchdog = required_number(table, key(of, number, KeyName::Watchdog), 1)?;
    let master_length = required_length(table, key(of, number, KeyName::MasterLength))?;
    let slave_length = required_length(table, key(of, number, KeyName::SlaveLength))?;
    let app = optional_bytes(table, key(of, number, KeyName::App))?;
    Ok(LinkKeys {
        id,
        address,
        watchdog,
        lengths: (master_length, slave_length),
        app,
    })
}

/// What a connection may say of its slave.
#[derive(Drop)]
struct SlaveKeys {
    rule: AppRule,
    address: u16,
    hand: u16,
    most: u16,
}

/// Reads what the connection with this number may say of its slave, where `link` is what it has to say.
#[tactic(auto, unfolding(crate::specs::Keys::slave_keys))]
fn read_slave(table: &Table, number: u16, link: &LinkKeys) -> Result<SlaveKeys, ConfFault>
    requires { 0 < link.now.watchdog }
    ensures value { result ≡ slave_keys number link.now (table_view table.now) }
    ensures hand { IfOk result (λ s. 0 < s.hand) }
    ensures most { IfOk result (λ s. 0 < s.most) }
    ensures rule { IfOk result (λ s. IsTrue (is_acceptable s.rule)) }
{
    let of = KeyTable::Connection;
    let rule = optional_rule(table, key(of, number, KeyName::Rule), &link.app)?;
    let address = optional_number(
        table,
        key(of, number, KeyName::SlaveAddress),
        0,
        link.address,
    )?;
    let hand = optional_number(table, key(of, number, KeyName::Hand), 1, link.watchdog)?;
    let most = optional_number(table, key(of, number, KeyName::Most), 1, u16::MAX)?;
    Ok(SlaveKeys {
        rule,
        address,
        hand,
        most,
    })
}

/// Reads the table `plant`, which has to be there: the names of the application and of the channel, and the seed.
#[tactic(auto, unfolding(crate::specs::Keys::plant_keys))]
pub(crate) fn read_plant(
    alloc: Global,
    document: &Table,
) -> Result<(String, String, u64), ConfFault>
    ensures reads { IfOk result (λ p. plant_keys (table_view document.now) ≡ Ok (record { app = string_bytes p.0; channel = string_bytes p.1; seed = p.2 })) }
    ensures refuses { IfErr result (λ e. e ≢ fault.Memory → plant_keys (table_view document.now) ≡ Err e) }
{
    let of = KeyTable::Plant;
    let table = required_table(document, whole(of))?;
    let app = required_text(alloc, table, key(of, 0, KeyName::App))?;
    let channel = required_text(alloc, table, key(of, 0, KeyName::Channel))?;
    let seed = optional_seed(table, key(of, 0, KeyName::Seed))?;
    Ok((app, channel, seed))
}
