//! Worked rows of a channel. The call does nothing: the prover computes what its contract says.
ghost use Rattle.rate_channel.specs.WorkedRated.{RateRows};

/// What pulls of channels with some rates give.
#[tactic(auto, unfolding(crate::specs::WorkedRated::RateRows, rand_core::specs::Pcg32Seed::pcg32_seed, rand_core::specs::Steps::u32_at, rand_core::specs::Steps::word_bytes))]
pub fn worked_rows()
    ensures { RateRows }
{}
