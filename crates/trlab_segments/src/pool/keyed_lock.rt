//! A lock whose value fits a key that never changes. The value's type defines when it fits; a thread that takes the
//! value knows that it fits, and puts back a value that fits too.

ghost use Rattle.std.specs.Prelude.{◌≡◌, IfOk};
ghost use Rattle.trlab_segments.specs.KeyedLocks.{Acquires, SatisfiesLockInvariant, HasTakenSlot};

use atomic_table::{Play, Refused, Seat, Table, TableRule};
use std::alloc::{AllocError, Global};
use std::marker::PhantomData;
use std::sync::Wait;
use std::thread;

/// A value that fits certain keys.
pub trait Keyed<K> {
    // Whether a value fits a key.
    ghost fits: { K → Self → Type 0 };
}

/// The invariant of the lock: while its word is 0, the value is in its slot and fits the key.
pub struct LockRule<T, K> {
    marker: PhantomData<(T, K)>,
}

/// The step that takes the value.
struct Acquire<T, K> {
    marker: PhantomData<(T, K)>,
}

impl<K, T: Keyed<K>> TableRule<Option<T>, K, K> for LockRule<T, K> {
    ghost holds = { λ key. SatisfiesLockInvariant (T.fits key) };

    ghost first = { λ key. key };
}

impl<K, T: Keyed<K>> Play<Option<T>, K> for Acquire<T, K> {
    ghost then = { λ state before found after. Acquires (T.fits before.0) found after };
}

/// The step that puts the value back.
struct Release;

impl<T, K> Play<Option<T>, K> for Release {
    ghost then = { λ state before found after. Unit {0} };
}

/// A lock around a value that fits a key. One word records whether a thread has the value.
#[derive(Drop)]
pub struct KeyedLock<T: Keyed<K>, K> {
    pub table: Table<Option<T>, K, K, LockRule<T, K>, Global>,
    ghost one_word: { table.shared.table_id.words ≡ 1 },
    ghost one_slot: { table.shared.table_id.slots ≡ 1 },
}

/// The right to put the value back.
#[derive(Drop)]
pub struct Guard<T, K> {
    pub seat: Seat<Option<T>, K>,
}

impl<K, T: Keyed<K> + Drop> KeyedLock<T, K> {
    /// A lock around this value, for this key.
    ///
    /// # Errors
    ///
    /// If an allocation fails; then the value is dropped.
    pub fn new(alloc: Global, value: T, key: &K) -> Result<KeyedLock<T, K>, AllocError>
        requires { T.fits key.now value }
        ensures { IfOk result (λ lock. lock.table.shared.key ≡ key.now) }
    {
        let mut slots = Vec::with_capacity(alloc, 1)?;
        slots.push_reserved(Some(value));
        match Table::new(alloc, &[0], slots, key) {
            Ok((table, _seat)) => Ok(KeyedLock { table }),
            Err(Refused { slots: _ }) => Err(AllocError),
        }
    }

    /// Waits until no other thread has the value, and takes it.
    pub fn take<R: Wait>(&self, rt: &R) -> (T, Guard<T, K>)
        ensures fits { T.fits self.now.table.shared.key result.0 }
        ensures from { result.1.seat.table_id ≡ self.now.table.shared.table_id }
        ensures guard { HasTakenSlot result.1.seat.me }
    {
        let shared = &self.table.shared;
        for _ in rt.forever() {
            let (found, mut seat) = shared.swap_new_seat::<Acquire<T, K>>(0, 1);
            if found == 0 {
                let value = shared.exchange(&mut seat, 0, None).unwrap();
                return (value, Guard { seat });
            }
            thread::yield_now();
        }
        unreachable!()
    }

    /// Puts the value back, or another that fits.
    pub fn put_back(&self, value: T, guard: Guard<T, K>)
        requires fits { T.fits self.now.table.shared.key value }
        requires from { guard.seat.table_id ≡ self.now.table.shared.table_id }
        requires guard { HasTakenSlot guard.seat.me }
    {
        let Guard { mut seat } = guard;
        let shared = &self.table.shared;
        drop(shared.exchange(&mut seat, 0, Some(value)));
        shared.store::<Release>(&mut seat, 0, 0);
    }
}
