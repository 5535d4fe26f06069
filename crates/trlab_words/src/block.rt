//! The block function of ChaCha20 (RFC 8439, 2.3) for eight cars of one step at a time. Each word of the state
//! is a vector with one lane for each car.

ghost use Rattle.std.specs.Prelude.{◌≡◌, ℕ, ◌+◌, ◌*◌, ◌^◌, ◌<◌, List, slice_index};
ghost use Rattle.rand_core.specs.Steps.{u32_at};
ghost use Rattle.rand_chacha.specs.Block.{quarter_round, column_round, diagonal_round, block_word};
ghost use Rattle.trlab_words.specs.States.{with_car, car_column, StartsStep, words_in, state_in};

use crate::lanes::{add, bytes_of, rotate_by_8, rotate_by_16, words_of, xor, xor_rotate};
use crate::step_start::StepStart;
use std::simd::{u8x32, u32x8};

// The number of double rounds of ChaCha20.
const DOUBLE_ROUNDS: u32 = 10;

// Four words of the states: a column or a diagonal. The quarter round rotates the last of them only by 16 and
// by 8 bits, which moves whole bytes. So this word is kept as bytes, and each of its rotations is one shuffle.
#[derive(Clone, Copy)]
struct Quarter {
    a: u32x8,
    b: u32x8,
    c: u32x8,
    d: u8x32,
}

// The states of eight blocks, column by column.
#[derive(Clone, Copy)]
struct States {
    first: Quarter,
    second: Quarter,
    third: Quarter,
    fourth: Quarter,
}

// The quarter round (RFC 8439, 2.1), lane by lane.
#[inline(always)]
fn quarter_round(a: u32x8, b: u32x8, c: u32x8, d: u8x32) -> Quarter
    ensures { (j : ℕ) → j < 8 → words_in j result
        ≡ quarter_round (slice_index a j) (slice_index b j) (slice_index c j) (u32_at d j) }
{
    let a1 = add(a, b);
    let d1 = rotate_by_16(xor(d, bytes_of(a1)));
    let c1 = add(c, words_of(d1));
    let b1 = xor_rotate(b, c1, 12);
    let a2 = add(a1, b1);
    let d2 = rotate_by_8(xor(d1, bytes_of(a2)));
    let c2 = add(c1, words_of(d2));
    let b2 = xor_rotate(b1, c2, 7);
    Quarter {
        a: a2,
        b: b2,
        c: c2,
        d: d2,
    }
}

// The quarter round on a column of the states.
#[inline(always)]
fn quarter_round_on(x: Quarter) -> Quarter
    ensures { (j : ℕ) → j < 8 → words_in j result
        ≡ quarter_round (slice_index x.a j) (slice_index x.b j) (slice_index x.c j) (u32_at x.d j) }
{
    quarter_round(x.a, x.b, x.c, x.d)
}

// The quarter round on each column of the states.
#[inline(always)]
fn column_round(x: States) -> States
    ensures { (j : ℕ) → j < 8 → state_in j result ≡ column_round (state_in j x) }
{
    States {
        first: quarter_round_on(x.first),
        second: quarter_round_on(x.second),
        third: quarter_round_on(x.third),
        fourth: quarter_round_on(x.fourth),
    }
}

// The quarter round on the third column of the states, which has the number of the car.
#[inline(always)]
fn car_column(x: States) -> States
    ensures { (j : ℕ) → j < 8 → state_in j result ≡ car_column (state_in j x) }
{
    States {
        first: x.first,
        second: x.second,
        third: quarter_round_on(x.third),
        fourth: x.fourth,
    }
}

// The quarter round on each diagonal of the states.
#[inline(always)]
fn diagonal_round(x: States) -> States
    ensures { (j : ℕ) → j < 8 → state_in j result ≡ diagonal_round (state_in j x) }
{
    let p = quarter_round(x.first.a, x.second.b, x.third.c, x.fourth.d);
    let q = quarter_round(x.second.a, x.third.b, x.fourth.c, x.first.d);
    let r = quarter_round(x.third.a, x.fourth.b, x.first.c, x.second.d);
    let s = quarter_round(x.fourth.a, x.first.b, x.second.c, x.third.d);
    States {
        first: Quarter {
            a: p.a,
            b: s.b,
            c: r.c,
            d: q.d,
        },
        second: Quarter {
            a: q.a,
            b: p.b,
            c: s.c,
            d: r.d,
        },
        third: Quarter {
            a: r.a,
            b: q.b,
            c: p.c,
            d: s.d,
        },
        fourth: Quarter {
            a: s.a,
            b: r.b,
            c: q.c,
            d: p.d,
        },
    }
}

// Word k of the states.
#[inline(always)]
fn word_of(x: States, k: usize) -> u32x8
    requires { k < 16 }
    ensures { (j : ℕ) → j < 8 → slice_index result j ≡ slice_index (state_in j x) k }
{
    let words = [
        x.first.a,
        x.second.a,
        x.third.a,
        x.fourth.a,
        x.first.b,
        x.second.b,
        x.third.b,
        x.fourth.b,
        x.first.c,
        x.second.c,
        x.third.c,
        x.fourth.c,
        words_of(x.first.d),
        words_of(x.second.d),
        words_of(x.third.d),
        words_of(x.fourth.d),
    ];
    words[k]
}

// Word k after the quarter round on each diagonal of the states. The standard rules draw on words 0 and 1, which need
// only one diagonal.
#[inline(always)]
fn diagonal_word(x: States, k: usize) -> u32x8
    requires { k < 16 }
    ensures { (j : ℕ) → j < 8 → slice_index result j ≡ slice_index (diagonal_round (state_in j x)) k }
{
    match k {
        0 => quarter_round(x.first.a, x.second.b, x.third.c, x.fourth.d).a,
        1 => quarter_round(x.second.a, x.third.b, x.fourth.c, x.first.d).a,
        _ => word_of(diagonal_round(x), k),
    }
}

// The same four words in each lane.
#[inline(always)]
fn splat(a: u32, b: u32, c: u32, d: u32) -> Quarter
    ensures { (j : ℕ) → j < 8 → words_in j result ≡ (a, b, c, d) }
{
    Quarter {
        a: u32x8::splat(a),
        b: u32x8::splat(b),
        c: u32x8::splat(c),
        d: bytes_of(u32x8::splat(d)),
    }
}

// The same three words in each lane, and the number of a car as the fourth.
#[inline(always)]
fn splat_with_cars(a: u32, b: u32, c: u32, cars: [u32; 8]) -> Quarter
    ensures words { (j : ℕ) → j < 8 → words_in j result ≡ (a, b, c, slice_index cars j) }
    ensures cars { (j : ℕ) → j < 8 → slice_index cars j < 2 ^ 32 }
{
    Quarter {
        a: u32x8::splat(a),
        b: u32x8::splat(b),
        c: u32x8::splat(c),
        d: bytes_of(u32x8::from_array(cars)),
    }
}

// A state for each of eight cars, with the number of the car as word 14.
#[inline(always)]
fn with_cars(x: &[u32; 16], cars: [u32; 8]) -> States
    ensures states { (j : ℕ) → j < 8 → state_in j result ≡ with_car x.now (slice_index cars j) }
    ensures cars { (j : ℕ) → j < 8 → slice_index cars j < 2 ^ 32 }
{
    States {
        first: splat(x[0], x[4], x[8], x[12]),
        second: splat(x[1], x[5], x[9], x[13]),
        third: splat_with_cars(x[2], x[6], x[10], cars),
        fourth: splat(x[3], x[7], x[11], x[15]),
    }
}

// Word k of the initial states of eight cars.
#[inline(always)]
fn initial_word(initial: &[u32; 16], cars: [u32; 8], k: usize) -> u32x8
    requires { k < 16 }
    ensures { (j : ℕ) → j < 8
        → slice_index result j ≡ slice_index (with_car initial.now (slice_index cars j)) k }
{
    if k == 14 {
        u32x8::from_array(cars)
    } else {
        u32x8::splat(initial[k])
    }
}

// Word k of the block of each of eight cars in a step.
pub(crate) fn block_word_of_cars(start: &StepStart, cars: [u32; 8], k: usize) -> [u32; 8]
    requires { k < 16 }
    ensures { (key : List ℕ)
        → StartsStep key start.now.road start.now.step start.now.initial start.now.columns
        → (j : ℕ) → j < 8 → slice_index result j
        ≡ block_word DOUBLE_ROUNDS key start.now.step (start.now.road * 2 ^ 32 + slice_index cars j) k }
{
    let mut x = diagonal_round(car_column(with_cars(&start.columns, cars)));
    'rounds: for _round in 1..DOUBLE_ROUNDS - 1 {
        x = diagonal_round(column_round(x));
    }
    add(
        diagonal_word(column_round(x), k),
        initial_word(&start.initial, cars, k),
    )
    .to_array()
}
