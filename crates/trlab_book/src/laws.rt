//! Laws of a book with its history, of runners' leases, of jobs, and of the joined results of two runners.

ghost use Rattle.trlab_book.specs.Turns.{AllStepsAreDone, JobsAreOver, LeasesEnd, LeasesRefusedToRunnersAreNotOut};
ghost use Rattle.trlab_book.specs.Turns.{NoJobIsFree};

pub use crate::kept::Kept;
pub use crate::running::first_fault;

/// When a call of `lease` found no free job, each job of the book was out, cancelled, or had no step left to do.
pub fn no_job_is_free()
    ensures { NoJobIsFree }
{}

/// In the log of a runner, after each lease that went out come accepted orders of this lease, and then an event that
/// ends it: it is given back, or the book refuses it.
pub fn leases_end()
    ensures { LeasesEnd }
{}

/// If the book refuses a lease to a runner, in an order or when it is given back, then the lease is not out: another
/// call has ended it.
pub fn leases_refused_to_runners_are_not_out()
    ensures { LeasesRefusedToRunnersAreNotOut }
{}

/// When the runners of a history have ended, all jobs of the book are over: each was cancelled, or all its steps are
/// done. Nobody else may lease, and no job may be submitted after the first call of a runner.
pub fn jobs_are_over()
    ensures over { JobsAreOver }
    ensures done { AllStepsAreDone }
{}
