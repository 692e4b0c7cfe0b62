//! Words of the random generator, drawn one after the other.

ghost use Rattle.std.specs.Prelude.{◌≡◌, ◌%◌, ◌==◌, map, length, IfOk};
ghost use Rattle.prove_top.specs.Draws.{seeded, word, next_state, words_from, drawn_bits};

use rand_core::SeedableRng;
use rand_core::utils::NextWord;
use rand_xoshiro::Xoshiro256PlusPlus;
use std::alloc::{AllocError, Global};
use std::vec::Vec;

/// The generator of a seed.
fn seeded(seed: u64) -> Xoshiro256PlusPlus
    ensures { result ≡ seeded seed }
{
    Xoshiro256PlusPlus::seed_from_u64(seed)
}

/// Its next word.
fn draw(rng: &mut Xoshiro256PlusPlus) -> u64
    ensures word { result ≡ word rng.old }
    ensures state { rng.new ≡ next_state rng.old }
{
    rng.next_word()
}

/// So many words of the generator of this seed.
fn drawn_words(alloc: Global, seed: u64, count: usize) -> Result<Vec<u64>, AllocError>
    ensures { IfOk result (λ words. words.items ≡ words_from count (seeded seed)) }
{
    let mut rng = seeded(seed);
    let mut words = Vec::new(alloc);
    for _turn in 0..count {
        words.push(draw(&mut rng))?;
    }
    Ok(words)
}

/// Their lowest bits.
fn lowest_bits(alloc: Global, words: &[u64]) -> Result<Vec<bool>, AllocError>
    ensures { IfOk result (λ bits. bits.items ≡ map (λ w. w % 2 == 1) words.now) }
{
    words.iter().map(|word| *word % 2 == 1).collect(alloc)
}

/// The lowest bits of so many words of the generator of this seed.
#[tactic(auto, unfolding(crate::specs::Draws::drawn_bits))]
pub(crate) fn drawn_bits(alloc: Global, seed: u64, count: usize) -> Result<Vec<bool>, AllocError>
    ensures bits { IfOk result (λ bits. bits.items ≡ drawn_bits seed count) }
    ensures count { IfOk result (λ bits. length bits.items ≡ count) }
{
    let words = drawn_words(alloc, seed, count)?;
    let bits = lowest_bits(alloc, &words)?;
    Ok(bits)
}
