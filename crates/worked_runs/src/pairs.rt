//! Pairs with their entries: over a schedule, and those of a plant, played anew by its journal.
ghost use Rattle.std.specs.Prelude.{◌≡◌, ◌≤◌, length, IfOk};
ghost use Rattle.plant_conf.specs.Kept.{HasSameLengths};
ghost use Rattle.duo_run.specs.Duo.{steps_done};

use crate::of_duo_run::step;
use duo_run::Duo;
use fsoe_base::End;
use fsoe_io::LineText;
use param_load::Entry;
use plant_conf::LinkConf;
use plant_run::{JournalStep, PlantEvent};
use schedule_file::{LineBuf, Maker, write_event};
use std::alloc::Global;
use std::test::Fail;

/// A pair, and its entries so far.
#[derive(Drop)]
pub(crate) struct Played {
    pub duo: Duo,
    pub entries: Vec<Entry>,
}

impl Played {
    /// Does the event of a line.
    fn line(&mut self, line: &[u8]) -> Result<(), Fail>
        requires { steps_done self.old.duo ≤ length self.old.entries.items }
        ensures { IfOk result (λ _. steps_done self.new.duo ≤ length self.new.entries.items) }
    {
        if self.entries.len() > 1_000_000 {
            return Err("much".into());
        }
        self.entries
            .push(step(&mut self.duo, line).ok_or("event")?)?;
        Ok(())
    }

    /// Does the events of these lines.
    pub(crate) fn lines(&mut self, lines: &str) -> Result<(), Fail>
        requires { steps_done self.old.duo ≤ length self.old.entries.items }
        ensures { IfOk result (λ _. steps_done self.new.duo ≤ length self.new.entries.items) }
    {
        for line in lines.lines() {
            self.line(line.as_bytes())?;
        }
        Ok(())
    }

    /// Does the first `count` events of a seed.
    pub(crate) fn number(&mut self, number: u64, count: u16) -> Result<(), Fail>
        requires { steps_done self.old.duo ≤ length self.old.entries.items }
        ensures { IfOk result (λ _. steps_done self.new.duo ≤ length self.new.entries.items) }
    {
        let mut maker = Maker::new(number);
        let mut line = LineBuf::new();
        for _ in 0..count {
            write_event(&maker.next(), &mut line);
            self.line(line.bytes())?;
        }
        Ok(())
    }

    /// Does the event that this word says with these bytes.
    fn event(&mut self, word: &str, bytes: &[u8]) -> Result<(), Fail>
        requires { steps_done self.old.duo ≤ length self.old.entries.items }
        ensures { IfOk result (λ _. steps_done self.new.duo ≤ length self.new.entries.items) }
    {
        if word.len() > 3 || bytes.len() > 255 {
            return Err("much".into());
        }
        let mut line = LineText::new();
        line.push_str(word);
        line.push_hex(bytes);
        self.line(line.bytes())
    }

    /// Does what a step of a journal means for connection k, where its script has ticks alone.
    fn play(&mut self, step: &JournalStep, k: u16) -> Result<(), Fail>
        requires { steps_done self.old.duo ≤ length self.old.entries.items }
        ensures { IfOk result (λ _. steps_done self.new.duo ≤ length self.new.entries.items) }
    {
        match step {
            JournalStep::Script(PlantEvent::Tick) => {
                self.event("ts", &[])?;
                self.event("tm", &[])
            }
            JournalStep::Offer { link, load } if *link == k => self.event("pm ", load.bytes()),
            JournalStep::Pulled(parcel) if parcel.to.link == k => match parcel.to.end {
                End::Master => self.event("rm ", parcel.frame.bytes()),
                End::Slave => self.event("rs ", parcel.frame.bytes()),
            },
            _ => Ok(()),
        }
    }
}

/// The pair of connection k, which is set so, after the steps of a journal.
pub(crate) fn play_pair(
    alloc: Global,
    conf: &LinkConf,
    k: u16,
    steps: &[JournalStep],
) -> Result<Played, Fail>
    requires { HasSameLengths conf.now }
{
    let mut pair = Played {
        duo: Duo::new(conf.master.copy(), conf.slave.copy()),
        entries: Vec::new(alloc),
    };
    for step in steps {
        pair.play(step, k)?;
    }
    Ok(pair)
}
