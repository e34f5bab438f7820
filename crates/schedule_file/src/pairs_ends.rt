//! What lines of events are read by that stand after the header of several pairs.
ghost use Rattle.std.specs.Prelude.{◌≡◌, ◌<◌, [], ◌∷◌, ◌++◌, length};

use crate::pairs_header::MOST_PAIRS;
use fsoe_base::Lengths;
use param_load::Profiles;
use std::marker::Model;

/// The lengths and the profiles of pairs, in their order, at most 16.
#[derive(Drop)]
pub struct PairsEnds {
    lengths: [Lengths; MOST_PAIRS],
    profiles: [Profiles; MOST_PAIRS],
    count: usize,
}

impl Model for PairsEnds {
    ghost use Rattle.std.specs.Prelude.{◌≤◌, take};
    ghost use Rattle.schedule_file.specs.PairsEnds.{PairsTerms};
    ghost use Rattle.schedule_file.specs.declared.pairs_header.TheConstants.{MOST_PAIRS};

    ghost Value = { PairsTerms };

    ghost view = { λ e.
        record {
          lengths = take e.count e.lengths;
          profiles = take e.count e.profiles;
        } };

    ghost invariant = { λ e. e.count ≤ MOST_PAIRS };
}

impl PairsEnds {
    /// Those of no pair. The places of pairs hold these until a pair takes them.
    pub(crate) fn none(lengths: Lengths, profiles: Profiles) -> PairsEnds
        ensures { result ≡ record { lengths = []; profiles = [] } }
    {
        PairsEnds {
            lengths: [lengths; MOST_PAIRS],
            profiles: [profiles; MOST_PAIRS],
            count: 0,
        }
    }

    /// Appends those of the next pair.
    pub(crate) fn push(&mut self, lengths: Lengths, profiles: Profiles)
        requires { length self.old.lengths < MOST_PAIRS }
        ensures { self.new ≡ record { lengths = self.old.lengths ++ lengths ∷ []; profiles = self.old.profiles ++ profiles ∷ [] } }
    {
        self.lengths[self.count] = lengths;
        self.profiles[self.count] = profiles;
        self.count += 1;
    }

    /// The lengths of the pairs.
    pub fn lengths(&self) -> &[Lengths]
        ensures { result.now ≡ self.now.lengths }
    {
        &self.lengths[..self.count]
    }

    /// The profiles of the pairs.
    pub fn profiles(&self) -> &[Profiles]
        ensures { result.now ≡ self.now.profiles }
    {
        &self.profiles[..self.count]
    }
}
