//! How workers keep out of each other's way.

use std::hint::spin_loop;
use std::sync::atomic::AtomicU64;
use std::sync::{Mutex, MutexGuard, Wait};
use std::time::Duration;

/// How often a worker looks whether the door is free before it naps.
const LOOKS: u32 = 8;

/// How often it naps before it queues.
const NAPS: u32 = 4;

/// The microseconds of its first nap. Each nap after it takes twice as long.
const FIRST_NAP: u64 = 400;

/// A door in front of the net's lock, through which one worker goes at a time.
///
/// At the lock itself each worker that queues is put to sleep and woken again for the fraction of a microsecond that a firing
/// takes. One that finds the door taken naps meanwhile, and leaves some hundred firings to the worker inside. Sessions, and workers
/// that look whether there is work, go to the lock without it.
#[derive(Drop)]
pub(crate) struct Door {
    taken: Mutex<()>,
}

impl Door {
    pub(crate) fn new() -> Door {
        Door {
            taken: Mutex::new(()),
        }
    }

    /// Goes in: until the guard is dropped the other workers stay outside.
    pub(crate) fn enter<R: Wait>(&self, rt: &R) -> MutexGuard<'_, ()> {
        for _ in 0..LOOKS {
            if let Some(inside) = self.taken.try_lock() {
                return inside;
            }
            spin_loop();
        }
        for doublings in 0..NAPS {
            nap(rt, FIRST_NAP << doublings);
            if let Some(inside) = self.taken.try_lock() {
                return inside;
            }
        }
        self.taken.lock(rt)
    }
}

// Sleeps for some microseconds, or less: nobody wakes it, since the word is its own.
fn nap<R: Wait>(rt: &R, micros: u64) {
    AtomicU64::new(0).park_timeout(rt, 0, Duration::from_micros(micros));
}
