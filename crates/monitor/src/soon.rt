//! A lock that is soon free again.

use crossbeam_utils::CachePadded;
use std::hint::spin_loop;
use std::sync::atomic::{AtomicU64, Ordering};
use std::sync::{Mutex, MutexGuard, Wait};

/// How often a thread looks whether somebody has left before it sleeps: for a tenth of a millisecond or two, which is longer than the
/// others take under the lock, one after another, and also than one that slept takes to wake, to which the lock may be left meanwhile.
const LOOKS: u32 = 4000;

/// A value behind a lock that others have for a microsecond at a time. A thread that sleeps has to be woken, and who comes meanwhile
/// sleeps too: so whoever comes looks for a while before it does. It doesn't look at the lock, which would take that from who holds
/// it, but at the count of those that have left.
#[derive(Drop)]
pub(crate) struct Soon<T> {
    left: CachePadded<AtomicU64>,
    lock: CachePadded<Mutex<CachePadded<T>>>,
}

impl<T> Soon<T> {
    pub(crate) fn new(value: T) -> Soon<T> {
        Soon {
            left: CachePadded::new(AtomicU64::new(0)),
            lock: CachePadded::new(Mutex::new(CachePadded::new(value))),
        }
    }

    pub(crate) fn into_inner(self) -> T {
        let Soon { left: _, lock } = self;
        lock.into_inner().into_inner().into_inner()
    }

    /// Locks. Whoever has unlocked says that it left.
    pub(crate) fn enter<R: Wait>(&self, rt: &R) -> MutexGuard<'_, CachePadded<T>> {
        let mut seen = self.left.load(Ordering::SeqCst);
        if let Some(guard) = self.lock.try_lock() {
            return guard;
        }
        for _look in 0..LOOKS {
            let left = self.left.load(Ordering::SeqCst);
            if left != seen {
                seen = left;
                if let Some(guard) = self.lock.try_lock() {
                    return guard;
                }
            }
            spin_loop();
        }
        self.lock.lock(rt)
    }

    /// Says that one has unlocked.
    pub(crate) fn leave(&self) {
        self.left.fetch_add(1, Ordering::SeqCst);
    }
}
