//! Samples of numbers, drawn without replacement.
//!
//! Selection sampling: Knuth, "The Art of Computer Programming", volume 2, section 3.4.2, algorithm S. Each number has
//! a word of the generator, and is taken if the word modulo the count of those that are left is less than how many are
//! still wanted. So the sample rises, and exactly as many are taken as are wanted. Drawing places and sorting them
//! would need fewer words, but a second pass, and another draw whenever two places are the same.

ghost use Rattle.std.specs.Prelude.{◌≡◌, ◌↔◌, ◌<◌, ◌≤◌, ◌%◌, All, IfOk, OnOk, IsTrue, length};
ghost use Rattle.cps_neighbourhood.specs.Drawing.{draws_of, after_word, after_words, is_taken, sample, AscendsStrictly};

use rand_core::utils::NextWord;
use rand_pcg::Lcg64Xsh32;
use std::alloc::{AllocError, Global};

/// The generator of a seed, on one of its streams.
#[tactic(auto, unfolding(crate::specs::Drawing::draws_of))]
pub(crate) fn draws_of(seed: u64, stream: u64) -> Lcg64Xsh32
    ensures { result ≡ draws_of seed stream }
{
    Lcg64Xsh32::new(seed, stream)
}

/// Whether the next of `left` numbers is taken, if `wanted` are still wanted.
#[tactic(auto, unfolding(crate::specs::Drawing::next_word, crate::specs::Drawing::after_word))]
fn is_taken(draws: &mut Lcg64Xsh32, left: u32, wanted: u32) -> bool
    requires { 0 < left }
    ensures is { result ≡ is_taken left wanted draws.old }
    ensures after { draws.new ≡ after_word draws.old }
{
    let word: u32 = draws.next_word();
    word % left < wanted
}

/// `count` different numbers below `n`, drawn with `n` words of the generator, in rising order.
pub fn choose_free(
    alloc: Global,
    n: u32,
    count: u32,
    draws: &mut Lcg64Xsh32,
) -> Result<Vec<u32>, AllocError>
    requires { count ≤ n }
    ensures drawn { IfOk result (λ chosen. chosen.items ≡ sample n count draws.old) }
    ensures after { OnOk result (draws.new ≡ after_words n draws.old) }
    ensures count { IfOk result (λ chosen. length chosen.items ≡ count) }
    ensures rising { IfOk result (λ chosen. AscendsStrictly chosen.items) }
    ensures below { IfOk result (λ chosen. All (λ i. i < n) chosen.items) }
{
    let mut chosen = Vec::new(alloc);
    let mut wanted = count;
    for number in 0..n {
        if is_taken(draws, n - number, wanted) {
            chosen.push(number)?;
            wanted -= 1;
        }
    }
    Ok(chosen)
}
