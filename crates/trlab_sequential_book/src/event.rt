//! Events: calls of the book with their replies.

use crate::fault::BookFault;
use crate::rule::SharedRule;
use crate::seed::SharedSeed;

/// The parts of a lease that events keep.
#[derive(Clone, Copy, PartialEq, Eq)]
pub struct Offered {
    pub job: u32,
    pub number: u32,
    /// The step at which the lease went out.
    pub base: u32,
    /// The next step of the lease.
    pub step: u32,
    /// Whether the lease runs the road of its job.
    pub same: bool,
}

/// A call of the book with its arguments. The `u32` is the number of the job; only in `Submit` it is the number of
/// steps.
#[derive(Drop)]
pub enum Call {
    Submit(SharedSeed, SharedRule, u32),
    Replace(u32, SharedRule),
    Lease,
    Order(Offered),
    GiveBack(Offered),
    Revoke(u32),
    Cancel(u32),
    Read(u32),
}

/// The reply to a call.
#[derive(Clone, Copy, PartialEq, Eq)]
pub enum Reply {
    Refused(BookFault),
    /// `submit`: the number of the new job. `replace`: the step from which the rule is in force.
    Number(u32),
    /// A lease went out: its job, its number, its next step, and the steps of the job.
    Leased {
        job: u32,
        number: u32,
        step: u32,
        steps: u32,
    },
    /// No job is free.
    NoLease,
    /// A step was ordered: the job, the number of the lease, the step, and the step from which its rule is in force.
    Ordered {
        job: u32,
        number: u32,
        step: u32,
        from: u32,
    },
    /// `give_back`, `revoke` or `cancel` succeeded.
    Done,
    /// The steps done in a snapshot, and the number of entries of its sheet.
    Seen {
        step: u32,
        entries: u32,
    },
}

/// A call and its reply.
pub struct Event {
    pub call: Call,
    pub reply: Reply,
}

// Not derived: a derived drop is proved again, field by field, wherever the value goes out of scope.
impl Drop for Event {
    fn drop(self) {
        let Event {
            call: _call,
            reply: _reply,
        } = self;
    }
}
