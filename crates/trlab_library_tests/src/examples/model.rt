//! The examples of the model: limits, random words, roads.

use std::alloc::Global;
use trlab_bounds::roads::MAX_LENGTH;
use trlab_road::Road;
use trlab_words::{CERTAIN, Chance, Key, happens, words};

/// From `trlab_words`: the first two words, and whether the car brakes.
fn draw() -> Option<(u32, u32, bool)> {
    let (road, car, step) = (0, 0, 0);
    let words = words(&Key([0; 32]), road, car, step);
    let brakes = happens(words[0], Chance::new(CERTAIN / 4)?);
    Some((words[0], words[1], brakes))
}

#[test]
fn car_0_draws_its_words(rt: HostRuntime) {
    assert!(rt; draw() == Some((2917185654, 2419978656, false)));
}

/// From `trlab_road`: whether the first road has this picture, and the cars of the second one.
fn draw_roads(alloc: Global, wanted: &[u8]) -> Option<(bool, u32)> {
    let road = Road::parse(alloc, 5, &[b"0.0......."]).ok()?;
    let mut is_right = true;
    for lane in 0..road.lanes() {
        let picture = road.picture(alloc, lane).ok()?;
        is_right = is_right && picture.as_slice() == wanted;
    }
    let even = Road::even(alloc, 2, 500, 5, 100).ok()?;
    Some((is_right, even.cars()))
}

#[test]
fn roads_have_their_pictures(rt: HostRuntime) {
    assert!(rt;
        draw_roads(rt.alloc(), b"0.0.......") == Some((true, 100)) && MAX_LENGTH == 100_000
    );
}

/// Whether an event of probability `parts` / 2^31 happens on the first word of the zero key.
fn happens_first(parts: u32) -> Option<bool> {
    Some(happens(2917185654, Chance::new(parts)?))
}

// 1458592828 / 2^31 is the smallest probability with which the event happens on this word; `CERTAIN` + 1 is too large.
#[test]
fn chances_are_cut_at_half_of_the_word(rt: HostRuntime) {
    assert!(rt;
        happens_first(1458592827) == Some(false) && happens_first(1458592828) == Some(true)
    );
    assert!(rt; happens_first(CERTAIN) == Some(true) && happens_first(CERTAIN + 1) == None);
}
