//! Seeds of jobs, and the roads of their runs, in memory that several owners share. A job shares its seed with
//! the history and with snapshots, and its road with snapshots and with the lease that is out, so a read copies
//! no road.

ghost use Rattle.std.specs.Prelude.{◌≡◌, IfOk};
ghost use Rattle.std.specs.Arc.{arc_value};

use std::alloc::{AllocError, Global};
use std::marker::Model;
use std::sync::Arc;
use trlab_road::Road;
use trlab_words::Key;

/// The initial state of a job. Its key and its number determine its random numbers, so the random seed is the key, and
/// not the whole `Seed`.
pub struct Seed {
    /// The road at step 0.
    pub road: Road,
    /// The random seed.
    pub key: Key,
    /// The number of the road.
    pub number: u32,
    /// The step from which the job's tally counts.
    pub warm: u32,
}

// Not derived: a derived drop is proved again, field by field, wherever the value goes out of scope.
impl Drop for Seed {
    fn drop(self) {
        let Seed {
            road: _road,
            key: _key,
            number: _number,
            warm: _warm,
        } = self;
    }
}

impl Seed {
    /// A copy, with a road of its own.
    ///
    /// # Errors
    ///
    /// If an allocation fails.
    pub fn copy(&self, alloc: Global) -> Result<Seed, AllocError>
        ensures { IfOk result (λ copy. copy ≡ self.now) }
    {
        let road = self.road.copy(alloc)?;
        Ok(Seed {
            road,
            key: self.key,
            number: self.number,
            warm: self.warm,
        })
    }
}

/// An immutable seed that several owners share.
pub struct SharedSeed {
    held: Arc<Seed, Global>,
}

// Not derived: a derived drop is proved again, field by field, wherever the value goes out of scope.
impl Drop for SharedSeed {
    fn drop(self) {
        let SharedSeed { held: _held } = self;
    }
}

impl Model for SharedSeed {
    ghost use Rattle.std.specs.Arc.{arc_value};
    ghost use Rattle.trlab_sequential_book.specs.declared.seed.Seed.{Seed};

    ghost Value = { Seed };

    ghost view = { λ shared. arc_value shared.held };
}

impl SharedSeed {
    /// Moves a seed into memory that can be shared.
    ///
    /// # Errors
    ///
    /// If an allocation fails; the seed is dropped.
    pub fn new(alloc: Global, seed: Seed) -> Result<SharedSeed, AllocError>
        ensures { IfOk result (λ shared. shared ≡ seed) }
    {
        let held = Arc::new(alloc, seed)?;
        Ok(SharedSeed { held })
    }

    /// Another owner of the same seed. No road is copied.
    ///
    /// # Errors
    ///
    /// If the number of owners would exceed its range.
    pub fn share(&self) -> Result<SharedSeed, AllocError>
        ensures { IfOk result (λ shared. shared ≡ self.now) }
    {
        let held = Arc::try_clone(&self.held)?;
        Ok(SharedSeed { held })
    }

    /// The shared seed.
    pub fn get(&self) -> &Seed
        ensures { result.now ≡ self.now }
    {
        &self.held
    }
}

/// An immutable road of a seed's run that several owners share.
pub(crate) struct SharedRoad {
    seed: SharedSeed,
    /// `None` if the road is the seed's own.
    held: Option<Arc<Road, Global>>,
}

// Not derived: a derived drop is proved again, field by field, wherever the value goes out of scope.
impl Drop for SharedRoad {
    fn drop(self) {
        let SharedRoad {
            seed: _seed,
            held: _held,
        } = self;
    }
}

impl Model for SharedRoad {
    ghost use Rattle.trlab_road.specs.Cells.{Cells};
    ghost use Rattle.trlab_sequential_book.specs.Leases.{held_road};

    ghost Value = { Cells };

    ghost view = { λ road. held_road road.held road.seed };
}

impl SharedRoad {
    /// The road at step 0: the seed's road.
    pub(crate) fn of_seed(seed: SharedSeed) -> SharedRoad
        ensures { result ≡ seed.road }
    {
        SharedRoad { seed, held: None }
    }

    /// Another owner of the same road.
    ///
    /// # Errors
    ///
    /// If the number of owners would exceed its range.
    pub(crate) fn share(&self) -> Result<SharedRoad, AllocError>
        ensures { IfOk result (λ shared. shared ≡ self.now) }
    {
        let seed = self.seed.share()?;
        let held = match &self.held {
            Some(road) => Some(Arc::try_clone(road)?),
            None => None,
        };
        Ok(SharedRoad { seed, held })
    }

    /// The shared road.
    pub(crate) fn get(&self) -> &Road
        ensures { result.now ≡ self.now }
    {
        match &self.held {
            Some(road) => road,
            None => &self.seed.get().road,
        }
    }

    /// Replaces the road by the road at a later step.
    pub(crate) fn come_to(&mut self, road: Arc<Road, Global>)
        ensures { self.new ≡ arc_value road }
    {
        self.held = Some(road);
    }
}
