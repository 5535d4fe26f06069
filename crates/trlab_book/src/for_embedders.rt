//! One ordered step of a lease, by workers that are started for this step.
//!
//! Programs that embed trlab and run a lease themselves call it, and so do the tests of trlab. Its runners take the
//! steps of their leases with a team.

ghost use Rattle.std.specs.Prelude.{◌≡◌, ◌↔◌, ◌<◌, ◌≤◌, OnOk, OnErr};
ghost use Rattle.trlab_bounds.specs.declared.runs.TheConstants.{MAX_WORKERS};
ghost use Rattle.trlab_segments.specs.Answered.{HasTwoLanes};
ghost use Rattle.trlab_sequential_book.specs.Leases.{FitsOrder, HasRun};
ghost use Rattle.trlab_sequential_book.specs.declared.lease.LeaseFault.TheVariants.{WrongOrder};

use std::alloc::{AllocError, Global};
use std::thread::Threads;
use trlab_machine::Dice;
use trlab_road::Road;
use trlab_segments::{Calls, Crew, Gate};
use trlab_sequential_book::{Lease, LeaseFault, Order};
use trlab_verify::{Change, Motion};

/// Runs the ordered step of a lease with 1 to `MAX_WORKERS` workers, which pass the gate. It needs no book and holds no
/// lock.
///
/// # Errors
///
/// `WrongOrder` if the order is for another job, lease or step, or its rule has a change program and the road has one
/// lane; `Memory` if an allocation fails. Then nothing changes.
pub fn advance<R: Threads + Sync, G: Gate + Sync>(
    rt: &R,
    alloc: Global,
    lease: &mut Lease,
    order: &Order,
    workers: u32,
    gate: &G,
) -> Result<(), LeaseFault>
    requires { (0 < workers) × (workers ≤ MAX_WORKERS) }
    ensures ok { OnOk result (HasRun lease.old order.now lease.new) }
    ensures unchanged { OnErr result (lease.new ≡ lease.old) }
    ensures wrong { (result ≡ Err WrongOrder) ↔ (FitsOrder lease.old order.now → ⊥) }
{
    let crew = Crew::new(rt, workers, gate);
    let calls = Calls::new(
        |alloc: Global, road: &Road, motion: &Motion, dice: &Dice| crew.speeds(
            alloc, road, motion, dice,
        ),
        |alloc: Global, road: &Road, change: &Change, dice: &Dice| -> Result<Vec<bool>, AllocError>
            requires { HasTwoLanes road.now }
        { crew.crossings(alloc, road, change, dice) },
    );
    lease.advance(&calls, alloc, order)
}
