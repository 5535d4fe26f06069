//! The examples of laws, strands and books.

ghost use Rattle.std.specs.Prelude.{◌≡◌};
ghost use Rattle.trlab_strands.specs.Tokens.{name_of};

use std::alloc::Global;
use std::marker::Brand;
use trlab_road::Road;
use trlab_rules::nasch;
use trlab_sequential_book::{Book, Seed};
use trlab_step::Caller;
use trlab_strands::{Blank, Ledger};
use trlab_traffic::laws::run_keeps_below_peak;
use trlab_words::{Chance, Key};

/// From `trlab_strands`: adds an event to a strand. From `trlab_traffic`: uses a law.
fn note<L: Ledger>(blank: Blank<u32>)
    requires { name_of blank ≡ L.name }
{
    let (strands, mut keeper, mut strand) = blank.open::<L>();
    keeper.note(&strands, &mut strand, &7);
    run_keeps_below_peak();
}

#[test]
fn a_strand_has_its_event(rt: HostRuntime) {
    note::<Brand>(Blank::new(rt.alloc()).expect(&rt, "memory"));
}

/// Ten stopped cars, evenly spaced on a lane of 100 cells.
fn new_seed(alloc: Global) -> Option<Seed> {
    let (lanes, length, limit, cars) = (1, 100, 5, 10);
    Some(Seed {
        road: Road::even(alloc, lanes, length, limit, cars).ok()?,
        key: Key([0; 32]),
        number: 0,
        warm: 0,
    })
}

/// From `trlab_sequential_book`: the number of a new job, whose cars never brake at random.
fn submit(alloc: Global, book: &mut Book) -> Option<u32> {
    let rule = nasch(alloc, Chance::new(0)?).ok()?;
    let seed = new_seed(alloc)?;
    let job = book.submit(alloc, seed, rule, 200).ok()?;
    Some(job)
}

/// Leases the next free job, runs it to its last step and gives it back.
fn run(alloc: Global, book: &mut Book) -> Option<()> {
    if let Some(mut lease) = book.lease(alloc).ok()? {
        while lease.step() < lease.steps() {
            let order = book.order(alloc, &lease).ok()?;
            lease.advance(&Caller, alloc, &order).ok()?;
        }
        book.give_back(lease).ok()?;
    }
    Some(())
}

/// The number of steps that a job has done.
fn steps_done(alloc: Global, book: &mut Book, job: u32) -> Option<u32> {
    let snapshot = book.read(alloc, job).ok()?;
    Some(snapshot.step())
}

#[test]
fn a_job_is_run(rt: HostRuntime) {
    let mut book = Book::new(rt.alloc());
    let alloc = rt.alloc();
    let ran = submit(alloc, &mut book) == Some(0) && run(alloc, &mut book).is_some();
    assert!(rt; ran && steps_done(alloc, &mut book, 0) == Some(200));
}
