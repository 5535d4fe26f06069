//! Calls at one desk: their replies, and the cars that reads show.

ghost use Rattle.std.specs.Prelude.{◌≡◌};
ghost use Rattle.trlab_strands.specs.Tokens.{name_of};

use crate::book::common::books::new_blank;
use crate::book::common::replies::{leased, ordered, seen};
use crate::book::common::table::{Table, TestCall};
use std::alloc::Global;
use std::marker::Brand;
use std::sync::Wait;
use trlab_sequential_book::{BookFault, Event, Reply};
use trlab_strands::{Blank, Ledger};

/// Whether calls of a book on this blank have the expected replies, and the book closes with one event per call.
fn have_replies_in<L: Ledger, R: Wait>(
    rt: &R,
    alloc: Global,
    blank: Blank<Event>,
    calls: &[(TestCall, Reply)],
) -> bool
    requires name { name_of blank ≡ L.name }
{
    let mut table = Table::<L>::start(alloc, blank, TWO_CARS);
    let answered = table.answers_all(rt, alloc, calls);
    table.events() == Some(calls.len()) && answered
}

/// `have_replies_in` with a new blank.
fn have_replies(rt: &(impl AllocGlobal + Wait), calls: &[(TestCall, Reply)]) -> bool {
    match new_blank(rt.alloc()) {
        Ok(blank) => have_replies_in::<Brand, _>(rt, rt.alloc(), blank, calls),
        Err(_) => false,
    }
}

const TWO_CARS: &[u8] = b"0.0.......";

/// The rule is replaced while a lease is out: step 0 runs under the first rule, step 1 under the second.
const REPLACED: [(TestCall, Reply); 11] = [
    (TestCall::Submit(4), Reply::Number(0)),
    (TestCall::Lease, leased!(number: 0, step: 0)),
    (TestCall::Order, ordered!(number: 0, step: 0, from: 0)),
    (TestCall::Replace(0), Reply::Number(1)),
    (TestCall::GiveBack, Reply::Done),
    (TestCall::Read(0, b".1.1......"), seen!(step: 1, entries: 2)),
    (
        TestCall::Revoke(0),
        Reply::Refused(BookFault::StrangerLease),
    ),
    (TestCall::Lease, leased!(number: 1, step: 1)),
    (TestCall::Order, ordered!(number: 1, step: 1, from: 1)),
    (TestCall::GiveBack, Reply::Done),
    (TestCall::Read(0, b".0..1....."), seen!(step: 2, entries: 2)),
];

/// After a job is cancelled, its lease is refused, and the job is not leased again.
const CANCELLED: [(TestCall, Reply); 8] = [
    (TestCall::Submit(4), Reply::Number(0)),
    (TestCall::Lease, leased!(number: 0, step: 0)),
    (TestCall::Cancel(0), Reply::Done),
    (TestCall::Order, Reply::Refused(BookFault::Ended)),
    (TestCall::GiveBack, Reply::Refused(BookFault::StrangerLease)),
    (TestCall::Cancel(0), Reply::Refused(BookFault::Ended)),
    (TestCall::Lease, Reply::NoLease),
    (TestCall::Read(0, TWO_CARS), seen!(step: 0, entries: 1)),
];

/// A step that is run under a revoked lease and again under a new one counts once. The revoked lease is refused.
const TAKEN_TWICE: [(TestCall, Reply); 10] = [
    (TestCall::Submit(4), Reply::Number(0)),
    (TestCall::Lease, leased!(number: 0, step: 0)),
    (TestCall::Order, ordered!(number: 0, step: 0, from: 0)),
    (TestCall::Order, ordered!(number: 0, step: 1, from: 0)),
    (TestCall::Revoke(0), Reply::Done),
    (TestCall::Lease, leased!(number: 1, step: 0)),
    (TestCall::Order, ordered!(number: 1, step: 0, from: 0)),
    (TestCall::GiveBack, Reply::Done),
    (TestCall::GiveBack, Reply::Refused(BookFault::StrangerLease)),
    (TestCall::Read(0, b".1.1......"), seen!(step: 1, entries: 1)),
];

#[test]
fn calls_have_their_replies(rt: HostRuntime) {
    assert!(rt;
        have_replies(&rt, &REPLACED)
            && have_replies(&rt, &CANCELLED)
            && have_replies(&rt, &TAKEN_TWICE)
    );
}
