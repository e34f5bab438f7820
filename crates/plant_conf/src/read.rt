//! Reads a configuration from its text.
ghost use Rattle.std.specs.Prelude.{◌≡◌, ◌≢◌, ◌≤◌, ◌<◌, Ok, Err, None, IfOk, IfErr, is_some, map, length, true, vec_len};
ghost use Rattle.std.specs.List.{All, filter_map, list_all};
ghost use Rattle.toml.specs.Data.{as_table};
ghost use Rattle.toml.specs.View.{view, table_view};
ghost use Rattle.plant_conf.specs.declared.fault.ConfFault.TheVariants as fault;
ghost use Rattle.plant_conf.specs.Meaning.{tables_of, count_of, has_too_many, some_links, apart, all_of, document_meaning, Means};
ghost use Rattle.plant_conf.specs.ConfView.{conf_values};
ghost use Rattle.plant_conf.specs.Values.{link_values};
ghost use Rattle.param_load.specs.SameConn.{same_conn};

use crate::arrays::{FromTable, are_tables, values_in};
use crate::conf::{LinkConf, PlantConf};
use crate::fault::ConfFault;
use crate::forms::find;
use crate::key::{KeyTable, whole};
use crate::tables::read_plant;
use arrayvec::ArrayVec;
use param_load::same_conn;
use std::alloc::Global;
use toml::{Table, Value};

/// The most connections of a plant.
const MOST_LINKS: usize = 64;

/// The most blocks of its net.
const MOST_BLOCKS: usize = 256;

/// The most output bits that its net drives.
const MOST_DRIVES: usize = 1024;

/// The most bounds that are watched.
const MOST_BOUNDS: usize = 16;

/// The values of the array of tables of a name, or none where there is no such key. `Kind` where it is of another kind.
#[tactic(auto, unfolding(crate::specs::Keys::optional, crate::specs::Meaning::tables_of, crate::specs::Meaning::count_of), using(crate::proofs::ArrayLaws::length_tables))]
fn tables_of(document: &Table, of: KeyTable) -> Result<&[Value], ConfFault>
    ensures reads { IfOk result (λ vs. tables_of of (table_view document.now) ≡ Ok (filter_map as_table (map view vs.now))) }
    ensures tables { IfOk result (λ vs. list_all (λ d. is_some (as_table d)) (map view vs.now) ≡ true) }
    ensures count { IfOk result (λ vs. count_of of (table_view document.now) ≡ length vs.now) }
    ensures refuses { IfErr result (λ e. tables_of of (table_view document.now) ≡ Err e) }
{
    let key = whole(of);
    let Some(value) = find(document, key) else {
        return Ok(&[]);
    };
    let values = values_in(value).ok_or(ConfFault::Kind(key))?;
    if !are_tables(values) {
        return Err(ConfFault::Kind(key));
    }
    Ok(values)
}

/// How many tables of a name there are. A value that is no array of tables counts as none.
#[tactic(auto, unfolding(crate::specs::Meaning::count_of))]
fn count(document: &Table, of: KeyTable) -> usize
    ensures { result ≡ count_of of (table_view document.now) }
{
    match tables_of(document, of) {
        Ok(tables) => tables.len(),
        Err(_) => 0,
    }
}

/// Whether there are more tables than a plant may have.
#[tactic(auto, unfolding(crate::specs::Meaning::has_too_many))]
fn has_too_many(document: &Table) -> bool
    ensures { result ≡ has_too_many (table_view document.now) }
{
    count(document, KeyTable::Connection) > MOST_LINKS
        || count(document, KeyTable::Block) > MOST_BLOCKS
        || count(document, KeyTable::Drive) > MOST_DRIVES
        || count(document, KeyTable::Bound) > MOST_BOUNDS
}

/// Reads the tables of a name, of which there may be none, one after another, from number 1 on.
#[tactic(auto, unfolding(crate::specs::Meaning::all_of))]
fn all_of<T: FromTable + Drop>(
    alloc: Global,
    document: &Table,
    of: KeyTable,
) -> Result<Vec<T>, ConfFault>
    requires { count_of of (table_view document.now) ≤ 1024 }
    ensures reads { IfOk result (λ v. all_of of T.says (table_view document.now) ≡ Ok (map T.values v.items)) }
    ensures count { IfOk result (λ v. vec_len v ≡ count_of of (table_view document.now)) }
    ensures holds { IfOk result (λ v. All T.Holds v.items) }
    ensures refuses { IfErr result (λ e. e ≢ fault.Memory → all_of of T.says (table_view document.now) ≡ Err e) }
{
    let tables = tables_of(document, of)?;
    let mut all = Vec::new(alloc);
    for (place, table) in tables.iter().enumerate() {
        let table = table.as_table().ok_or(ConfFault::Kind(whole(of)))?;
        let one = T::read(alloc, table, place as u16 + 1)?;
        if all.push(one).is_err() {
            return Err(ConfFault::Memory);
        }
    }
    Ok(all)
}

/// The connection ids, in order.
fn ids_of(links: &[LinkConf]) -> ArrayVec<u16, MOST_LINKS>
    requires { length links.now ≤ 64 }
    ensures { result.items ≡ map (λ link. link.master.conn) links.now }
{
    let mut ids = ArrayVec::new();
    for link in links {
        ids.push(link.master.conn());
    }
    ids
}

/// `Missing` if there is no connection.
#[tactic(auto, unfolding(crate::specs::Meaning::some_links))]
fn some_links(links: &[LinkConf]) -> Result<(), ConfFault>
    ensures value { result ≡ some_links (map link_values links.now) }
    ensures some { IfOk result (λ _. 0 < length links.now) }
{
    if links.is_empty() {
        return Err(ConfFault::Missing(whole(KeyTable::Connection)));
    }
    Ok(())
}

/// `SameConn` if two connections have one id.
#[tactic(auto, unfolding(crate::specs::Meaning::apart), using(crate::proofs::Documents::ids_of_values))]
fn apart(links: &[LinkConf]) -> Result<(), ConfFault>
    requires { length links.now ≤ 64 }
    ensures value { result ≡ apart (map link_values links.now) }
    ensures different { IfOk result (λ _. same_conn 1 (map (λ link. link.master.conn) links.now) ≡ None) }
{
    match same_conn(ids_of(links).as_slice()) {
        Some((a, b)) => Err(ConfFault::SameConn { a, b }),
        None => Ok(()),
    }
}

/// Reads the configuration of a plant: UTF-8 that is a TOML document. The first fault is returned: `Syntax`, `TooMany`,
/// those of the keys, table by table and key by key, then `SameConn`. `Memory` if there was none; then nothing is kept.
pub fn read_conf(alloc: Global, text: &[u8]) -> Result<PlantConf, ConfFault>
    ensures reads { IfOk result (λ conf. Means text.now (Ok (conf_values conf))) }
    ensures refuses { IfErr result (λ e. e ≢ fault.Memory → Means text.now (Err e)) }
{
    let Ok(text) = std::str::from_utf8(text) else {
        return Err(ConfFault::Syntax);
    };
    match toml::table_from_str(alloc, text) {
        Ok(document) => read_document(alloc, &document),
        Err(fault) if fault.is_memory() => Err(ConfFault::Memory),
        Err(_) => Err(ConfFault::Syntax),
    }
}

/// Reads a configuration from a document.
#[tactic(auto, unfolding(crate::specs::Meaning::document_meaning, crate::specs::Meaning::has_too_many), using(crate::proofs::Documents::map_itself))]
fn read_document(alloc: Global, document: &Table) -> Result<PlantConf, ConfFault>
    ensures reads { IfOk result (λ conf. document_meaning (table_view document.now) ≡ Ok (conf_values conf)) }
    ensures refuses { IfErr result (λ e. e ≢ fault.Memory → document_meaning (table_view document.now) ≡ Err e) }
{
    if has_too_many(document) {
        return Err(ConfFault::TooMany);
    }
    let (app, channel, seed) = read_plant(alloc, document)?;
    let links = all_of::<LinkConf>(alloc, document, KeyTable::Connection)?;
    some_links(links.as_slice())?;
    let blocks = all_of(alloc, document, KeyTable::Block)?;
    let drives = all_of(alloc, document, KeyTable::Drive)?;
    let bounds = all_of(alloc, document, KeyTable::Bound)?;
    apart(links.as_slice())?;
    Ok(PlantConf {
        links,
        blocks,
        drives,
        bounds,
        app,
        channel,
        seed,
    })
}
