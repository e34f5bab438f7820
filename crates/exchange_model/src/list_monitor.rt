//! The plain monitor of a run, which lists all items.
ghost use Rattle.std.specs.Prelude.{◌≡◌, ◌<◌, ◌≤◌, ◌+◌, ◌^◌, [], OnOk, OnErr, IfOk};
ghost use Rattle.end_model.specs.Deed.{delivered};
ghost use Rattle.exchange_model.specs.Monitor.{next_number, is_other_to};
ghost use Rattle.exchange_model.specs.ListMonitor.{is_answer_to, last_sent, last_answer, answer_in, side_in, list_after};

use crate::kept::Kept;
use crate::reading::{delivered, is_reset_frame};
use crate::side::{Sent, is_other, number_taken};
use fsoe_base::{End, Memory};
use param_load::Entry;
use std::alloc::Global;
use std::marker::Model;

/// An item of an end, and the number of the peer's item that it answers, if it answers one.
#[derive(Drop)]
pub struct Listed {
    sent: Sent,
    answers: Option<u64>,
}

impl Listed {
    /// Whether the item isn't a Reset frame and answers the peer's item with this number.
    fn is_answer_to(&self, number: u64) -> bool
        ensures { result ≡ is_answer_to number self.now }
    {
        match self.answers {
            Some(answered) => !is_reset_frame(self.sent.bytes.bytes()) && answered == number,
            None => false,
        }
    }
}

/// The newest of these items, oldest first.
fn last_sent(items: &[Listed]) -> Kept
    ensures { result ≡ last_sent items.now }
{
    match items.last() {
        Some(item) => Kept::of(&item.sent),
        None => Kept::none(),
    }
}

/// The newest of these items that answers the peer's item with this number.
fn last_answer(items: &[Listed], number: u64) -> Kept
    ensures { result ≡ last_answer number items.now }
{
    match items.iter().rev().find(|item| item.is_answer_to(number)) {
        Some(item) => Kept::of(&item.sent),
        None => Kept::none(),
    }
}

/// The newest of these items that answers this one of the peer, if there is one.
fn answer_in(items: &[Listed], item: &Kept) -> Kept
    ensures { result ≡ answer_in items.now item.now }
{
    match item.number() {
        Some(number) => last_answer(items, number),
        None => Kept::none(),
    }
}

/// Appends the item of an entry of the end with the first of these lists, if it sent a frame. Returns true if the entry
/// is `other`. Nothing is changed after `Memory`.
#[tactic(auto, using(crate::proofs::Monitors::ListNoted::last_sent_more))]
fn add(mine: &mut Vec<Listed>, theirs: &[Listed], entry: &Entry) -> Result<bool, Memory>
    requires { next_number (last_sent mine.old.items) < 2 ^ 64 }
    ensures other { IfOk result (λ other. other ≡ is_other_to (side_in mine.old.items theirs.now) entry.now.did.passed (delivered entry.now.what)) }
    ensures items { OnOk result (mine.new.items ≡ list_after (side_in mine.old.items theirs.now) (side_in theirs.now mine.old.items) entry.now mine.old.items) }
    ensures numbers { OnOk result (next_number (last_sent mine.new.items) ≤ next_number (last_sent mine.old.items) + 1) }
    ensures err { OnErr result (mine.new.items ≡ mine.old.items) }
{
    let newest = last_sent(mine);
    let came = delivered(&entry.what);
    let awaited = answer_in(theirs, &newest).number_of(came);
    if !entry.sent.is_empty() {
        let item = Listed {
            sent: Sent {
                number: newest.next_number(),
                bytes: entry.sent.copy(),
            },
            answers: number_taken(awaited, &last_sent(theirs), came, &entry.did.took),
        };
        if mine.push(item).is_err() {
            return Err(Memory);
        }
    }
    Ok(is_other(entry.did.passed, came, awaited))
}

/// Finds the first `other` entry of a run of both ends, by lists of all frames that they sent: the plain program that
/// `Monitor` is compared with.
#[derive(Drop)]
pub struct ListMonitor {
    noted: u64,
    other: Option<u64>,
    master: Vec<Listed>,
    slave: Vec<Listed>,
}

impl Model for ListMonitor {
    ghost use Rattle.std.specs.Prelude.{◌≤◌, suc};
    ghost use Rattle.exchange_model.specs.Monitor.{next_number};
    ghost use Rattle.exchange_model.specs.ListMonitor.{last_sent, ListView};

    ghost Value = { ListView };

    ghost view = { λ m. record { noted = m.noted; other = m.other; master = m.master.items; slave = m.slave.items } };

    ghost invariant = { λ m. (next_number (last_sent m.master.items) ≤ suc m.noted) × (next_number (last_sent m.slave.items) ≤ suc m.noted) };
}

impl ListMonitor {
    ghost use Rattle.std.specs.Prelude.{List};
    ghost use Rattle.param_load.specs.declared.entry.Entry.{Entry};
    ghost use Rattle.exchange_model.specs.Other.{first_other};
    ghost use Rattle.exchange_model.specs.ListMonitor.{list_of, listed_next, ListsEntry};

    /// Creates a monitor that noted no entry.
    pub fn new(alloc: Global) -> ListMonitor
        ensures { result ≡ list_of [] }
    {
        ListMonitor {
            noted: 0,
            other: None,
            master: Vec::new(alloc),
            slave: Vec::new(alloc),
        }
    }

    /// Notes the next entry of the run, after fewer than 2^64 - 1 others. `Memory` if there is none for one more item;
    /// the monitor is then unchanged.
    pub fn note(&mut self, entry: &Entry) -> Result<(), Memory>
        requires { self.old.noted + 1 < 2 ^ 64 }
        ensures ok { OnOk result (ListsEntry self.old entry.now self.new) }
        ensures noted { OnOk result (self.new.noted ≡ self.old.noted + 1) }
        ensures err { OnErr result (self.new ≡ self.old) }
    {
        let other = match entry.end {
            End::Master => add(&mut self.master, &self.slave, entry)?,
            End::Slave => add(&mut self.slave, &self.master, entry)?,
        };
        self.noted += 1;
        if other && self.other.is_none() {
            self.other = Some(self.noted);
        }
        Ok(())
    }

    /// Returns the number, from 1, of the first `other` entry noted so far, or None if there is none.
    pub fn other(&self) -> Option<u64>
        ensures { (w : List Entry) → self.now ≡ list_of w → result ≡ first_other w }
    {
        self.other
    }
}
