//! The start of the blocks of a step: the part of the block function that is the same for all cars.

ghost use Rattle.std.specs.Prelude.{◌≡◌};
ghost use Rattle.rand_chacha.specs.Block.{quarter_round};
ghost use Rattle.trlab_words.specs.States.{step_state, shared_columns, StartsStep};

// The start of the blocks of a step of a road. Only word 14 of a block's initial state depends on the car
// (the number of the road is word 15), so three of the four columns of the first round are shared.
#[derive(Clone, Copy)]
pub(crate) struct StepStart {
    pub(crate) road: u32,
    pub(crate) step: u32,
    // The initial state, with 0 as word 14.
    pub(crate) initial: [u32; 16],
    // The initial state after the quarter round on each column but the third.
    pub(crate) columns: [u32; 16],
}

impl StepStart {
    // The start of a step of a road, from the eight words of a key.
    pub(crate) fn new(key: &[u32; 8], road: u32, step: u32) -> StepStart
        ensures road { result.road ≡ road }
        ensures step { result.step ≡ step }
        ensures starts { StartsStep key.now road step result.initial result.columns }
    {
        let initial = initial_state(key, road, step);
        StepStart {
            road,
            step,
            initial,
            columns: shared_columns(&initial),
        }
    }
}

// The initial state of a step (RFC 8439, 2.3) for car 0. The first four words spell "expand 32-byte k".
fn initial_state(key: &[u32; 8], road: u32, step: u32) -> [u32; 16]
    ensures { result ≡ step_state key.now road step }
{
    [
        0x6170_7865,
        0x3320_646e,
        0x7962_2d32,
        0x6b20_6574,
        key[0],
        key[1],
        key[2],
        key[3],
        key[4],
        key[5],
        key[6],
        key[7],
        step,
        0,
        0,
        road,
    ]
}

// The quarter round on each column but the third.
fn shared_columns(x: &[u32; 16]) -> [u32; 16]
    ensures { result ≡ shared_columns x.now }
{
    let (a0, b0, c0, d0) = quarter_round(x[0], x[4], x[8], x[12]);
    let (a1, b1, c1, d1) = quarter_round(x[1], x[5], x[9], x[13]);
    let (a3, b3, c3, d3) = quarter_round(x[3], x[7], x[11], x[15]);
    [
        a0, a1, x[2], a3, b0, b1, x[6], b3, c0, c1, x[10], c3, d0, d1, x[14], d3,
    ]
}

// The quarter round (RFC 8439, 2.1) on four words.
fn quarter_round(a: u32, b: u32, c: u32, d: u32) -> (u32, u32, u32, u32)
    ensures { result ≡ quarter_round a b c d }
{
    let a1 = a.wrapping_add(b);
    let d1 = (d ^ a1).rotate_left(16);
    let c1 = c.wrapping_add(d1);
    let b1 = (b ^ c1).rotate_left(12);
    let a2 = a1.wrapping_add(b1);
    let d2 = (d1 ^ a2).rotate_left(8);
    let c2 = c1.wrapping_add(d2);
    let b2 = (b1 ^ c2).rotate_left(7);
    (a2, b2, c2, d2)
}
