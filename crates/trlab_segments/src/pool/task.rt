//! A phase that threads share: its brief and the results so far; and the slot in which helpers find it.

ghost use Rattle.std.specs.Prelude.{◌≡◌, IfErr, IfOk, IfSome, OnOk};
ghost use Rattle.trlab_segments.specs.Answered.{AnswersAll, AreResults, CoversAllCars, IsRightResult};
ghost use Rattle.trlab_segments.specs.Drawers.{HasDrawnNone};
ghost use Rattle.trlab_segments.specs.KeyedLocks.{HasTakenSlot};

use crate::parts::Part;
use crate::phase::Asked;
use crate::pool::brief::{Brief, draw_all, finish};
use crate::pool::keyed_lock::{Guard, KeyedLock};
use crate::pool::results::{Results, deposit, gather_results, take_pass};
use crate::segment::Gate;
use crate::tickets::Drawer;
use std::alloc::{AllocError, Global};
use std::mem;
use std::sync::{Arc, Mutex, Wait};
use trlab_road::Road;

/// The brief of a phase, and the results so far, which always fit the brief.
#[derive(Drop)]
pub struct Task<A, P: Asked<A>> {
    pub brief: Brief<P>,
    results: KeyedLock<Results<A>, Brief<P>>,
    ghost keyed: { results.table.shared.key ≡ brief },
}

impl<A: Copy + Drop, P: Asked<A> + Drop> Task<A, P> {
    /// A phase whose helpers may take the passes of the reserve, if there is one.
    ///
    /// # Errors
    ///
    /// Returns the brief if an allocation fails.
    pub fn begin(
        alloc: Global,
        brief: Brief<P>,
        reserve: Option<Drawer>,
    ) -> Result<Task<A, P>, Brief<P>>
        requires reserve { IfSome reserve (HasDrawnNone brief.tickets) }
        requires lanes { P.can_ask brief.road }
        ensures ok { IfOk result (λ task. task.brief ≡ brief) }
        ensures err { IfErr result (λ back. back ≡ brief) }
    {
        let results = Results {
            reserve,
            done: None,
            parts: Ok(Vec::new(alloc)),
        };
        match KeyedLock::new(alloc, results, &brief) {
            Ok(results) => Ok(Task { brief, results }),
            Err(_) => Err(brief),
        }
    }

    /// Waits until no other thread has the results, and takes them.
    fn take<R: Wait>(&self, rt: &R) -> (Results<A>, Guard<Results<A>, Brief<P>>)
        ensures results { AreResults P.answers P.can_ask self.now.brief result.0 }
        ensures from { result.1.seat.table_id ≡ self.now.results.table.shared.table_id }
        ensures guard { HasTakenSlot result.1.seat.me }
    {
        self.results.take(rt)
    }

    fn put_back(&self, results: Results<A>, guard: Guard<Results<A>, Brief<P>>)
        requires results { AreResults P.answers P.can_ask self.now.brief results }
        requires from { guard.seat.table_id ≡ self.now.results.table.shared.table_id }
        requires guard { HasTakenSlot guard.seat.me }
    {
        self.results.put_back(results, guard);
    }

    /// Helps if a pass is left: asks the cars of segments until none is left, and deposits the answers.
    pub fn help<R: Wait, G: Gate>(&self, rt: &R, alloc: Global, gate: &G) {
        let (results, guard) = self.take(rt);
        let (results, taken) = take_pass(&self.brief, results);
        self.put_back(results, guard);
        let Some((mut drawer, worker)) = taken else {
            return;
        };
        let parts = draw_all(alloc, &self.brief, &mut drawer, worker, gate);
        let (results, guard) = self.take(rt);
        let results = deposit(&self.brief, results, drawer, parts);
        self.put_back(results, guard);
    }

    /// Replaces `answers` by the answers of all cars, from the parts of the helpers and of the caller, and returns the
    /// road. All helpers must have left the phase.
    ///
    /// # Errors
    ///
    /// If an allocation fails, in the caller or in a helper.
    pub fn settle<R: Wait>(
        self,
        rt: &R,
        answers: &mut Vec<A>,
        mine: Drawer,
        parts: Result<Vec<Part<A>>, AllocError>,
    ) -> (Road, Result<(), AllocError>)
        requires cut { CoversAllCars self.brief }
        requires done { IsRightResult P.answers self.brief mine parts }
        ensures road { result.0 ≡ self.brief.road }
        ensures answers { OnOk result.1 (AnswersAll P.answers self.brief answers.new.items) }
    {
        let (found, _) = self.take(rt);
        let Task {
            brief,
            results: _results,
        } = self;
        let (drawer, parts) = gather_results(&brief, found, mine, parts);
        match parts {
            Ok(parts) => finish(answers, brief, drawer, &parts),
            Err(_) => (brief.into_road(), Err(AllocError)),
        }
    }

    /// Drops the task, and returns its road.
    pub fn into_road(self) -> Road
        ensures { result ≡ self.brief.road }
    {
        let Task {
            brief,
            results: _results,
        } = self;
        brief.into_road()
    }
}

/// The slot of at most one phase of a kind: the caller puts the phase in, and its helpers find it.
#[derive(Drop)]
pub struct TaskSlot<A, P: Asked<A>> {
    open: Mutex<Option<Arc<Task<A, P>, Global>>>,
}

impl<A: Drop, P: Asked<A> + Drop> TaskSlot<A, P> {
    /// A slot with no phase.
    pub fn new() -> TaskSlot<A, P> {
        TaskSlot {
            open: Mutex::new(None),
        }
    }

    /// Opens a phase to helpers. `None` closes the open phase: no helper can join it from now on.
    pub fn set_task<R: Wait>(&self, rt: &R, task: Option<Arc<Task<A, P>, Global>>) {
        let before = {
            let mut open = self.open.lock(rt);
            mem::replace(&mut *open, task)
        };
        drop(before);
    }

    /// The open phase; `None` if no phase is open, or if it cannot have another owner.
    pub fn task<R: Wait>(&self, rt: &R) -> Option<Arc<Task<A, P>, Global>> {
        let open = self.open.lock(rt);
        match &*open {
            Some(task) => Arc::try_clone(task).ok(),
            None => None,
        }
    }
}
