//! A shared book with one desk, for tests of many calls. The methods of the table have no postconditions, so that such
//! a test is proved quickly; the test itself checks the replies.
//!
//! A call is made once more if an allocation failed. So a test passes even if any one allocation fails.

ghost use Rattle.std.specs.Prelude.{◌≡◌};
ghost use Rattle.trlab_strands.specs.Tokens.{name_of};

use crate::book::common::books::{events_of, replace, submit};
use crate::book::common::expected::has_picture;
use crate::book::common::jobs::{ALWAYS, NEVER, TestJob};
use crate::book::common::replies::{
    done_reply, leased_reply, number_reply, ordered_reply, read_reply,
};
use std::alloc::Global;
use std::sync::Wait;
use trlab_book::{Desk, SharedBook};
use trlab_sequential_book::{BookFault, Event, Lease, Order, Reply, Snapshot};
use trlab_step::Caller;
use trlab_strands::{Blank, Ledger};

/// A call at the table.
#[derive(Clone, Copy)]
pub enum TestCall {
    /// Submits a job of this many steps.
    Submit(u32),
    /// Replaces the rule of this job.
    Replace(u32),
    Lease,
    /// Orders the next step of the last lease, and runs it.
    Order,
    /// Gives the last lease back. If it is refused, it stays at the table.
    GiveBack,
    Revoke(u32),
    Cancel(u32),
    /// Reads this job; its road must have this picture.
    Read(u32, &'static [u8]),
}

/// A shared book with its desk, and the leases that were not given back. All jobs have the cars of one picture.
#[derive(Drop)]
pub struct Table<L: Ledger> {
    pub book: SharedBook<L>,
    pub desk: Desk<L>,
    leases: Vec<Lease>,
    picture: &'static [u8],
}

/// Runs an order with its lease, and once more if an allocation failed. Returns the reply to the order if one of the
/// two runs succeeded.
fn run_ordered(alloc: Global, lease: &mut Lease, order: &Order) -> Option<Reply> {
    let ran = lease.advance(&Caller, alloc, order).is_ok()
        || lease.advance(&Caller, alloc, order).is_ok();
    if ran {
        Some(ordered_reply(order))
    } else {
        None
    }
}

/// The reply to `read`, if the road has this picture. The comparison is repeated if an allocation fails.
fn reply_if_shown(alloc: Global, seen: &Snapshot, picture: &[u8]) -> Option<Reply> {
    let shown = has_picture(alloc, seen.road(), picture)
        || has_picture(alloc, seen.road(), picture);
    if shown { Some(read_reply(seen)) } else { None }
}

impl<L: Ledger> Table<L> {
    /// A table with a new book.
    pub fn start(alloc: Global, blank: Blank<Event>, picture: &'static [u8]) -> Table<L>
        requires name { name_of blank ≡ L.name }
    {
        let (book, desk) = SharedBook::<L>::start(alloc, blank);
        Table {
            book,
            desk,
            leases: Vec::new(alloc),
            picture,
        }
    }

    /// Submits a job whose cars never brake at random.
    fn submit<R: Wait>(&mut self, rt: &R, alloc: Global, steps: u32) -> Reply {
        let job = TestJob {
            picture: self.picture,
            number: 0,
            chance: NEVER,
            steps,
        };
        number_reply(submit(rt, alloc, &self.book, &mut self.desk, &job))
    }

    /// Replaces the rule of a job by one under which all cars brake in each step.
    fn replace<R: Wait>(&mut self, rt: &R, alloc: Global, job: u32) -> Reply {
        number_reply(replace(rt, alloc, &self.book, &mut self.desk, job, ALWAYS))
    }

    /// Leases the next free job. The lease becomes the last lease of the table.
    fn lease<R: Wait>(&mut self, rt: &R, alloc: Global) -> Option<Reply> {
        self.leases.reserve(1).ok()?;
        match self.book.lease(rt, alloc, &mut self.desk) {
            Ok(Some(lease)) => {
                let reply = leased_reply(&lease);
                self.leases.push_reserved(lease);
                Some(reply)
            }
            Ok(None) => Some(Reply::NoLease),
            Err(fault) => Some(Reply::Refused(fault)),
        }
    }

    /// Orders the next step of the last lease, and runs it.
    fn order<R: Wait>(&mut self, rt: &R, alloc: Global) -> Option<Reply> {
        let lease = self.leases.last_mut()?;
        match self.book.order(rt, alloc, &mut self.desk, lease) {
            Ok(order) => run_ordered(alloc, lease, &order),
            Err(fault) => Some(Reply::Refused(fault)),
        }
    }

    /// Gives the last lease back. If it is refused, it stays at the table.
    fn give_back<R: Wait>(&mut self, rt: &R) -> Option<Reply> {
        match self.book.give_back(rt, &mut self.desk, self.leases.pop()?) {
            Ok(()) => Some(Reply::Done),
            Err((lease, fault)) => {
                self.leases.push(lease).ok()?;
                Some(Reply::Refused(fault))
            }
        }
    }

    /// Reads a job. Returns the reply if it is refused or the road has this picture.
    fn read<R: Wait>(&mut self, rt: &R, alloc: Global, job: u32, picture: &[u8]) -> Option<Reply> {
        match self.book.read(rt, alloc, &mut self.desk, job) {
            Ok(seen) => reply_if_shown(alloc, &seen, picture),
            Err(fault) => Some(Reply::Refused(fault)),
        }
    }

    /// Makes a call, and returns its reply, or `None` if an allocation failed or a read shows another picture.
    fn make<R: Wait>(&mut self, rt: &R, alloc: Global, call: TestCall) -> Option<Reply> {
        match call {
            TestCall::Submit(steps) => Some(self.submit(rt, alloc, steps)),
            TestCall::Replace(job) => Some(self.replace(rt, alloc, job)),
            TestCall::Lease => self.lease(rt, alloc),
            TestCall::Order => self.order(rt, alloc),
            TestCall::GiveBack => self.give_back(rt),
            TestCall::Revoke(job) => Some(done_reply(self.book.revoke(rt, &mut self.desk, job))),
            TestCall::Cancel(job) => Some(done_reply(self.book.cancel(rt, &mut self.desk, job))),
            TestCall::Read(job, picture) => self.read(rt, alloc, job, picture),
        }
    }

    /// Makes a call, and makes it again if an allocation failed. Returns whether its reply is `wanted`.
    pub fn answers<R: Wait>(
        &mut self,
        rt: &R,
        alloc: Global,
        call: TestCall,
        wanted: Reply,
    ) -> bool {
        match self.make(rt, alloc, call) {
            None | Some(Reply::Refused(BookFault::Memory)) => {
                self.make(rt, alloc, call) == Some(wanted)
            }
            Some(reply) => reply == wanted,
        }
    }

    /// Makes calls in order until a reply is not as expected. Returns whether all replies are as expected.
    pub fn answers_all<R: Wait>(
        &mut self,
        rt: &R,
        alloc: Global,
        calls: &[(TestCall, Reply)],
    ) -> bool {
        for (call, wanted) in calls {
            if !self.answers(rt, alloc, *call, *wanted) {
                return false;
            }
        }
        true
    }

    /// The number of events in the history, if the book closes.
    pub fn events(self) -> Option<usize> {
        let Table { book, desk, .. } = self;
        events_of(book, desk)
    }
}
