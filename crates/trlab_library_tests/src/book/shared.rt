//! Two jobs that share their seed and their rule.

ghost use Rattle.std.specs.Prelude.{◌≡◌};
ghost use Rattle.trlab_strands.specs.Tokens.{name_of};

use crate::book::common::books::{events_of, new_blank, reads};
use crate::book::common::expected::ExpectedRead;
use crate::book::common::jobs::{NEVER, new_seed, two_cars};
use crate::traffic::nasch_rule;
use std::alloc::Global;
use std::marker::Brand;
use std::sync::Wait;
use trlab_book::{Desk, SharedBook};
use trlab_sequential_book::{Event, SharedRule, SharedSeed};
use trlab_strands::{Blank, Ledger};

/// The expected read of a job that has done no step.
const NEW_JOB: ExpectedRead<'static> = ExpectedRead {
    steps: 0,
    picture: b"0.0.......",
    rules: &[(0, NEVER)],
};

/// Submits two jobs of one seed and one rule, and returns their numbers.
fn submit_both<L: Ledger, R: Wait>(
    rt: &R,
    alloc: Global,
    book: &SharedBook<L>,
    desk: &mut Desk<L>,
) -> Option<(u32, u32)> {
    let seed = SharedSeed::new(alloc, new_seed(alloc, &two_cars(0, 4))?).ok()?;
    let rule = SharedRule::new(alloc, nasch_rule(alloc, NEVER)?).ok()?;
    let (same_seed, same_rule) = (seed.share().ok()?, rule.share().ok()?);
    let one = book.submit_shared(rt, alloc, desk, seed, rule, 4).ok()?;
    let other = book.submit_shared(rt, alloc, desk, same_seed, same_rule, 4);
    Some((one, other.ok()?))
}

/// Whether both jobs start from the seed, and each call is an event.
fn has_both<L: Ledger, R: Wait>(rt: &R, alloc: Global, blank: Blank<Event>) -> bool
    requires name { name_of blank ≡ L.name }
{
    let (book, mut desk) = SharedBook::<L>::start(alloc, blank);
    let is_right = submit_both(rt, alloc, &book, &mut desk) == Some((0, 1))
        && reads(rt, alloc, &book, &mut desk, 0, &NEW_JOB)
        && reads(rt, alloc, &book, &mut desk, 1, &NEW_JOB);
    events_of(book, desk) == Some(4) && is_right
}

#[test]
fn jobs_share_a_seed(rt: HostRuntime) {
    let blank = new_blank(rt.alloc()).expect(&rt, "memory");
    assert!(rt; has_both::<Brand, HostRuntime>(&rt, rt.alloc(), blank));
}
