//! Short forms of the replies that tests expect, and the replies that correspond to the results of calls at a desk.

use trlab_sequential_book::{BookFault, Lease, Order, Reply, Snapshot};

/// The reply to `lease` that job 0, which has four steps, is leased.
macro_rules! leased {
    (number: $number:expr, step: $step:expr) => {
        Reply::Leased {
            job: 0,
            number: $number,
            step: $step,
            steps: 4,
        }
    };
}

pub(crate) use leased;

/// The reply to `order` that the lease of job 0 with this number may run a step. `from` is the first step of its rule.
macro_rules! ordered {
    (number: $number:expr, step: $step:expr, from: $from:expr) => {
        Reply::Ordered {
            job: 0,
            number: $number,
            step: $step,
            from: $from,
        }
    };
}

pub(crate) use ordered;

/// The reply to `read`, with the number of steps done and the number of rules in the sheet.
macro_rules! seen {
    (step: $step:expr, entries: $entries:expr) => {
        Reply::Seen {
            step: $step,
            entries: $entries,
        }
    };
}

pub(crate) use seen;

/// The reply for an answer of `submit` or `replace`.
pub fn number_reply(answer: Result<u32, BookFault>) -> Reply {
    match answer {
        Ok(number) => Reply::Number(number),
        Err(fault) => Reply::Refused(fault),
    }
}

/// The reply for an answer of `revoke` or `cancel`.
pub fn done_reply(answer: Result<(), BookFault>) -> Reply {
    match answer {
        Ok(()) => Reply::Done,
        Err(fault) => Reply::Refused(fault),
    }
}

/// The reply for a lease that went out.
pub fn leased_reply(lease: &Lease) -> Reply {
    Reply::Leased {
        job: lease.job(),
        number: lease.number(),
        step: lease.step(),
        steps: lease.steps(),
    }
}

/// The reply for an order.
pub fn ordered_reply(order: &Order) -> Reply {
    Reply::Ordered {
        job: order.job(),
        number: order.lease(),
        step: order.step(),
        from: order.from(),
    }
}

/// The reply for a snapshot.
pub fn read_reply(seen: &Snapshot) -> Reply {
    Reply::Seen {
        step: seen.step(),
        entries: seen.sheet().len() as u32,
    }
}
