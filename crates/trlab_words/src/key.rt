//! The key of a run, and the random words that follow from it.

ghost use Rattle.std.specs.Prelude.{◌≡◌, ℕ, ◌<◌, ◌^◌, List, All, length, slice_index};
ghost use Rattle.trlab_words.specs.Words.{random_words, random_word};
ghost use Rattle.rand_chacha.specs.ChaCha.{seed_of};
ghost use Rattle.trlab_words.specs.States.{StartsStep};

use crate::block::block_word_of_cars;
use crate::step_start::StepStart;
use rand_chacha::ChaCha20Rng;
use rand_core::SeedableRng;
use rand_core::utils::{NextWord, read_u32};
use std::marker::Model;

/// The key of a run: the 32 bytes of a ChaCha20 key.
#[derive(Clone, Copy, Debug, PartialEq, Eq)]
pub struct Key(pub [u8; 32]);

/// The sixteen random words of a car in a step of a road.
///
/// They are block `step` of the ChaCha20 key stream (RFC 8439) under the key, in stream `road` * 2^32 + `car`.
pub fn words(key: &Key, road: u32, car: u32, step: u32) -> [u32; 16]
    ensures { result ≡ random_words key.now.0 road car step }
{
    let mut generator = ChaCha20Rng::from_seed(key.0);
    generator.set_stream(u64::from(road) * 4294967296 + u64::from(car));
    generator.set_word_pos(16 * u128::from(step));
    let mut list = [0; 16];
    for word in list.iter_mut() {
        *word = generator.next_word();
    }
    list
}

/// A key prepared for many calls: its eight words of 32 bits, and the start of one step's blocks, which makes the
/// random words of this step faster to compute, but does not change them.
#[derive(Drop)]
pub struct PreparedKey {
    key_words: [u32; 8],
    start: StepStart,
}

impl Model for PreparedKey {
    ghost Value = { List ℕ };

    ghost view = { λ key. seed_of key.key_words };

    ghost invariant = { λ key. All (λ word. word < 2 ^ 32) key.key_words
        × StartsStep key.key_words key.start.road key.start.step key.start.initial key.start.columns };
}

impl PreparedKey {
    /// A copy of the key. It allocates nothing.
    pub fn copy(&self) -> PreparedKey
        ensures { result ≡ self.now }
    {
        PreparedKey {
            key_words: self.key_words,
            start: self.start,
        }
    }
}

impl Key {
    /// The key, prepared for the random words of one step of a road.
    pub fn prepare(&self, road: u32, step: u32) -> PreparedKey
        ensures { result ≡ self.now.0 }
    {
        let key_words = read_key_words(&self.0);
        PreparedKey {
            key_words,
            start: StepStart::new(&key_words, road, step),
        }
    }
}

// The eight words of a key: four bytes each, the low byte first.
fn read_key_words(bytes: &[u8]) -> [u32; 8]
    requires { length bytes.now ≡ 32 }
    ensures bytes { seed_of result ≡ bytes.now }
    ensures small { All (λ word. word < 2 ^ 32) result }
{
    [
        read_u32(bytes, 0),
        read_u32(bytes, 1),
        read_u32(bytes, 2),
        read_u32(bytes, 3),
        read_u32(bytes, 4),
        read_u32(bytes, 5),
        read_u32(bytes, 6),
        read_u32(bytes, 7),
    ]
}

/// Random word `k`, 0 to 15, of each of eight cars in a step of a road: entry `k` of the car's `words`. This is faster
/// for the road and the step for which the key was prepared.
pub fn word_of_cars(key: &PreparedKey, road: u32, cars: [u32; 8], step: u32, k: usize) -> [u32; 8]
    requires { k < 16 }
    ensures { (j : ℕ) → j < 8 → slice_index result j ≡ random_word key.now road (slice_index cars j) step k }
{
    if key.start.road == road && key.start.step == step {
        block_word_of_cars(&key.start, cars, k)
    } else {
        block_word_of_cars(&StepStart::new(&key.key_words, road, step), cars, k)
    }
}
