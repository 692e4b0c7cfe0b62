//! Words of the random generator, drawn one after the other.

ghost use Rattle.std.specs.Prelude.{◌≡◌, ℕ, ◌<◌, length, slice_index};
ghost use Rattle.invariant_miner.specs.Draws.{seeded, word, next, later, word_at};

use rand_core::SeedableRng;
use rand_core::utils::NextWord;
use rand_xoshiro::Xoshiro256PlusPlus;

/// The generator of a seed.
#[tactic(auto, unfolding(crate::specs::Draws::seeded))]
pub(crate) fn seeded(seed: u64) -> Xoshiro256PlusPlus
    ensures { result ≡ seeded seed }
{
    Xoshiro256PlusPlus::seed_from_u64(seed)
}

/// Its next word.
#[tactic(auto, unfolding(crate::specs::Draws::word, crate::specs::Draws::next))]
pub(crate) fn draw(rng: &mut Xoshiro256PlusPlus) -> u64
    ensures word { result ≡ word rng.old }
    ensures state { rng.new ≡ next rng.old }
{
    rng.next_word()
}

/// Fills the table with the next words.
pub(crate) fn draw_all(rng: &mut Xoshiro256PlusPlus, words: &mut [u64])
    ensures words { (i : ℕ) → i < length words.old → slice_index words.new i ≡ word_at rng.old i }
    ensures state { rng.new ≡ later (length words.old) rng.old }
{
    for i in 0..words.len() {
        words[i] = draw(rng);
    }
}
