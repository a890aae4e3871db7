//! The generator of random words.
ghost use Rattle.std.specs.Prelude.{◌≡◌, ◌+◌, ◌%◌, ◌^◌, ◌++◌, replicate};
ghost use Rattle.std.specs.Int.{w64, to_le_bytes};
ghost use Rattle.rand_chacha.specs.ChaCha.{word_at, next_word};
ghost use Rattle.sc_texts.specs.chance.KeyStream.{seed_of, two_words, after_step};

use rand_chacha::ChaCha8Rng;
use rand_core::SeedableRng;
use rand_core::utils::NextWord;
use std::marker::Model;

/// A generator that draws two words for each step. Contracts see its number and the step that
/// comes next.
///
/// The words are those of `ChaCha8Rng`, keyed with the 8 bytes of the number, the lowest first,
/// and 24 zero bytes, in stream 0 from place 0 on. A number always draws the same words.
#[derive(Drop)]
pub struct Chance {
    number: u64,
    rng: ChaCha8Rng,
}

impl Model for Chance {
    ghost use Rattle.std.specs.Prelude.{◌≡◌, ◌*◌, ◌/◌, ◌<◌, ◌^◌};
    ghost use Rattle.rand_chacha.specs.ChaCha.{key_of};
    ghost use Rattle.sc_texts.specs.chance.KeyStream.{ChanceStep, seed_of};

    ghost Value = { ChanceStep };

    ghost view = { λ s. record { number = s.number; step = s.rng.word_pos / 2 } };

    ghost invariant = { λ s. (s.rng.key ≡ key_of (seed_of s.number)) × (s.rng.stream ≡ 0)
        × (s.rng.word_pos ≡ 2 * (s.rng.word_pos / 2)) × (s.rng.word_pos < 2 ^ 68) };
}

impl Chance {
    /// Returns the generator with this number, at step 0.
    pub fn start(number: u64) -> Chance
        ensures { result ≡ record { number = number; step = 0 } }
    {
        Chance {
            number,
            rng: ChaCha8Rng::from_seed(seed_of(number)),
        }
    }

    /// Draws the two words of the next step.
    pub fn draw(&mut self) -> (u32, u32)
        ensures words { result ≡ two_words self.old.number self.old.step }
        ensures next { self.new ≡ after_step self.old }
    {
        let first = next_word(&mut self.rng);
        let second = next_word(&mut self.rng);
        (first, second)
    }
}

fn seed_of(number: u64) -> [u8; 32]
    ensures { result ≡ seed_of number }
{
    let mut seed = [0; 32];
    seed[0..8].copy_from_slice(&number.to_le_bytes());
    seed
}

fn next_word(rng: &mut ChaCha8Rng) -> u32
    ensures { (result, rng.new) ≡ next_word 4 rng.old }
{
    rng.next_word()
}
