//! One granule's lock.

use crate::hold::Away;
use command_core::Cell;
use std::hint::spin_loop;
use std::sync::{Condvar, Mutex, Wait};

/// How often a thread looks whether the cell came home before it sleeps: for some tens of microseconds, in which a command or two end.
const LOOKS: u32 = 1000;

/// A granule's cell while it is home. Who holds the granule has taken the cell away.
#[derive(Drop)]
pub(crate) struct Granule {
    home: Mutex<Option<Cell>>,
    came_home: Condvar,
}

impl Granule {
    /// An undelegated granule that nobody holds.
    pub(crate) fn new() -> Granule {
        Granule {
            home: Mutex::new(Some(Cell::Undelegated)),
            came_home: Condvar::new(),
        }
    }

    /// Takes the cell away, once it is home. It looks for a while whether one came home before it sleeps, since to be woken takes longer
    /// than most commands.
    pub(crate) fn take<R: Wait>(&self, rt: &R) -> Away {
        let mut seen = self.came_home.notifications();
        if let Some(cell) = self.taken() {
            return Away::of(cell);
        }
        for _look in 0..LOOKS {
            let came = self.came_home.notifications();
            if came != seen {
                seen = came;
                if let Some(cell) = self.taken() {
                    return Away::of(cell);
                }
            }
            spin_loop();
        }
        let mut home = self
            .came_home
            .wait_while(rt, self.home.lock(rt), |home| home.is_none());
        Away::of(home.take().unwrap())
    }

    // The cell, where it is home and its lock is free.
    fn taken(&self) -> Option<Cell> {
        let mut home = self.home.try_lock()?;
        home.take()
    }

    /// Brings the cell home, and wakes one that waits for it.
    pub(crate) fn give<R: Wait>(&self, rt: &R, cell: Away) {
        cell.go_home(&mut *self.home.lock(rt));
        self.came_home.notify_one();
    }
}
