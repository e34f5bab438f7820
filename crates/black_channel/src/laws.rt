//! Worked rows of channels. The call does nothing: each row is a clause, which the prover computes.
ghost use Rattle.black_channel.specs.WorkedHolds.{ChanceRows, FullRing};

/// What pulls of a channel of chance give, and what a push to a full ring leaves.
#[tactic(auto, unfolding(crate::specs::WorkedHolds::ChanceRows, crate::specs::WorkedHolds::FullRing, rand_core::specs::Pcg32Seed::pcg32_seed, rand_core::specs::Steps::u32_at, rand_core::specs::Steps::word_bytes))]
pub fn worked_rows()
    ensures chance { ChanceRows }
    ensures full { FullRing }
{}
