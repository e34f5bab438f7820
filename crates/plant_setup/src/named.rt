//! What is picked by its name.
ghost use Rattle.std.specs.Prelude.{◌≡◌, ℕ, List, ◌<◌, MatchOption, IfSome, None, length, map, string_bytes};
ghost use Rattle.plant_setup.specs.Names.{name_place, IsTaken};

use black_channel::Channel;
use failsafe_io::Application;
use fb_net::EntryOf;

/// What has a name.
pub(crate) trait HasName {
    // Its name.
    ghost name_of: { Self → List ℕ };

    /// Its name.
    fn name_bytes(&self) -> &[u8]
        ensures { result.now ≡ name_of self.now };
}

impl<H: Application> HasName for EntryOf<H> {
    ghost name_of = { λ entry. string_bytes entry.name };

    fn name_bytes(&self) -> &[u8] {
        self.name.as_bytes()
    }
}

impl HasName for Box<dyn Channel> {
    ghost name_of = { λ channel. (Channel-box channel).name channel.value };

    fn name_bytes(&self) -> &[u8] {
        self.name().as_bytes()
    }
}

/// The place of the first that has this name, from 0.
pub(crate) fn place_of<N: HasName>(name: &[u8], all: &[N]) -> Option<usize>
    ensures place { result ≡ name_place name.now (map N.name_of all.now) }
    ensures within { IfSome result (λ place. place < length all.now) }
{
    for i in 0..all.len() {
        if all[i].name_bytes() == name {
            return Some(i);
        }
    }
    None
}

/// Takes the first application of this name out of those that are left, if there is one. The rest stay in their order.
pub fn take_app<H: Application>(name: &[u8], left: &mut Vec<EntryOf<H>>) -> Option<EntryOf<H>>
    ensures { MatchOption result
        ((name_place name.now (map (λ entry. string_bytes entry.name) left.old.items) ≡ None) × (left.new.items ≡ left.old.items))
        (λ entry. IsTaken (λ entry. string_bytes entry.name) name.now left.old.items entry left.new.items) }
{
    let place = place_of(name, left.as_slice())?;
    Some(left.remove(place))
}
