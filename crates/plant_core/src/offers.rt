//! The offers that a cycle changed are noted.
ghost use Rattle.std.specs.Prelude.{◌≡◌, ◌≤◌, ◌+◌, ◌*◌, vec_len, vec_capacity};
ghost use Rattle.multi_master.specs.Standing as multi;
ghost use Rattle.plant_core.specs.Doing.{OffersNoted};
ghost use Rattle.plant_core.specs.Standing.{AreNoted};

use crate::link::Link;
use failsafe_io::Application;
use fsoe_base::Image;
use multi_master::MultiMaster;
use plant_model::JournalStep;

/// Notes the offers that the last call of the master changed, in the order of the connections.
pub(crate) fn note_offers<A: Application>(
    master: &MultiMaster<A>,
    links: &mut Vec<Link>,
    steps: &mut Vec<JournalStep>,
)
    requires count { vec_len links.old ≡ multi.links master.now }
    requires room { vec_len steps.old + vec_len links.old ≤ vec_capacity steps.old }
    requires noted { AreNoted (2 * vec_len steps.old) links.old.items }
    ensures offers { OffersNoted (multi.seen A.rule A.holds A.guards master.now) links.old.items links.new.items steps.old.items steps.new.items }
    ensures count { vec_len links.new ≡ vec_len links.old }
    ensures noted { AreNoted (2 * vec_len steps.new) links.new.items }
    ensures room { vec_len steps.new ≤ vec_len steps.old + vec_len links.old }
    ensures capacity { vec_capacity steps.old ≤ vec_capacity steps.new }
{
    let changed = master.changed();
    for i in 0..changed.len() {
        let number = changed[i];
        let mut load = Image::new();
        load.set(master.offer(number));
        steps.push_reserved(JournalStep::Offer { link: number, load });
        links[usize::from(number) - 1].note_setting();
    }
}
