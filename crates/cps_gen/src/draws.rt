//! Numbers drawn from a generator of words.
ghost use Rattle.std.specs.Prelude.{◌≡◌, ◌<◌, ◌%◌};
ghost use Rattle.cps_gen.specs.Draws.{draws_of, next_word, after_word};

use rand_core::utils::NextWord;
use rand_pcg::Lcg64Xsh32;

/// The generator of a seed, on one of its streams.
#[tactic(auto, unfolding(crate::specs::Draws::draws_of))]
pub(crate) fn draws_of(seed: u64, stream: u64) -> Lcg64Xsh32
    ensures { result ≡ draws_of seed stream }
{
    Lcg64Xsh32::new(seed, stream)
}

/// A number below `limit`: the next word modulo it.
#[tactic(auto, unfolding(crate::specs::Draws::next_word, crate::specs::Draws::after_word))]
pub(crate) fn below(draws: &mut Lcg64Xsh32, limit: u32) -> u32
    requires { 0 < limit }
    ensures value { result ≡ next_word draws.old % limit }
    ensures after { draws.new ≡ after_word draws.old }
{
    draws.next_word() % limit
}
