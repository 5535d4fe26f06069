//! Vectors with one lane for each of eight blocks: words of 32 bits, or the four bytes of each word, low byte
//! first.

ghost use Rattle.std.specs.Prelude.{◌≡◌, ℕ, ◌<◌, bit_xor, slice_index};
ghost use Rattle.std.specs.Int.{w32, rotate_left};
ghost use Rattle.rand_core.specs.Steps.{u32_at};
ghost use Rattle.rand_chacha.specs.Block.{add32, xor_rotate};

use std::simd::{u8x32, u32x8};

// The sums of two words, lane by lane, with the carries dropped.
#[inline(always)]
pub(crate) fn add(a: u32x8, b: u32x8) -> u32x8
    ensures { (j : ℕ) → j < 8 → slice_index result j ≡ add32 (slice_index a j) (slice_index b j) }
{
    a + b
}

// a ^ b, rotated by k to the left, lane by lane.
#[inline(always)]
pub(crate) fn xor_rotate(a: u32x8, b: u32x8, k: u32) -> u32x8
    requires { (0 < k) × (k < 32) }
    ensures { (j : ℕ) → j < 8 → slice_index result j ≡ xor_rotate (slice_index a j) (slice_index b j) k }
{
    let x = a ^ b;
    (x << u32x8::splat(k)) | (x >> u32x8::splat(32 - k))
}

// The bytes of eight words, the low byte of each word first.
#[inline(always)]
pub(crate) fn bytes_of(words: u32x8) -> u8x32
    ensures { (j : ℕ) → j < 8 → u32_at result j ≡ slice_index words j }
{
    words.to_le_bytes()
}

// The eight words of 32 bytes, the low byte of each word first.
#[inline(always)]
pub(crate) fn words_of(bytes: u8x32) -> u32x8
    ensures { (j : ℕ) → j < 8 → slice_index result j ≡ u32_at bytes j }
{
    u32x8::from_le_bytes(bytes)
}

// a ^ b, lane by lane. It works on bytes because clang turns a shuffle of a xor of words into a xor of two
// shuffles.
#[inline(always)]
pub(crate) fn xor(a: u8x32, b: u8x32) -> u8x32
    ensures { (j : ℕ) → j < 8 → u32_at result j ≡ bit_xor (u32_at a j) (u32_at b j) }
{
    a ^ b
}

// x rotated by 16 to the left, lane by lane: byte k of a word becomes its byte k + 2, modulo 4.
#[inline(always)]
pub(crate) fn rotate_by_16(x: u8x32) -> u8x32
    ensures { (j : ℕ) → j < 8 → u32_at result j ≡ rotate_left w32 (u32_at x j) 16 }
{
    x.swizzle([
        2, 3, 0, 1, 6, 7, 4, 5, 10, 11, 8, 9, 14, 15, 12, 13, 18, 19, 16, 17, 22, 23, 20, 21, 26,
        27, 24, 25, 30, 31, 28, 29,
    ])
}

// x rotated by 8 to the left, lane by lane: byte k of a word becomes its byte k + 1, modulo 4.
#[inline(always)]
pub(crate) fn rotate_by_8(x: u8x32) -> u8x32
    ensures { (j : ℕ) → j < 8 → u32_at result j ≡ rotate_left w32 (u32_at x j) 8 }
{
    x.swizzle([
        3, 0, 1, 2, 7, 4, 5, 6, 11, 8, 9, 10, 15, 12, 13, 14, 19, 16, 17, 18, 23, 20, 21, 22, 27,
        24, 25, 26, 31, 28, 29, 30,
    ])
}
