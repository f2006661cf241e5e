//! When the workers of a search stop. Nothing that is promised depends on it.
use std::sync::atomic::{AtomicU64, Ordering};

/// How many nodes are not done, how many workers may still branch, and whether one wants memory.
#[derive(Drop)]
pub(crate) struct Pace {
    open: AtomicU64,
    able: AtomicU64,
    stopped: AtomicU64,
}

impl Pace {
    /// One node is to be done, by so many workers.
    pub(crate) fn new(workers: u32) -> Pace {
        Pace {
            open: AtomicU64::new(1),
            able: AtomicU64::new(workers as u64),
            stopped: AtomicU64::new(0),
        }
    }

    /// A node is done.
    pub(crate) fn done(&self) {
        self.open.fetch_sub(1, Ordering::SeqCst);
    }

    /// A node has become two.
    pub(crate) fn branch(&self) {
        self.open.fetch_add(1, Ordering::SeqCst);
    }

    /// A worker has made its share of branchings.
    pub(crate) fn spend(&self) {
        self.able.fetch_sub(1, Ordering::SeqCst);
    }

    /// Whether some node is left for workers that may still branch.
    pub(crate) fn others_go_on(&self) -> bool {
        !self.has_ended() && self.able.load(Ordering::SeqCst) > 0
    }

    /// No further node is expanded.
    pub(crate) fn stop(&self) {
        self.stopped.store(1, Ordering::SeqCst);
    }

    /// Whether nodes may still be expanded.
    pub(crate) fn goes_on(&self) -> bool {
        self.stopped.load(Ordering::SeqCst) == 0
    }

    /// Whether no node is left, or some worker wants memory.
    pub(crate) fn has_ended(&self) -> bool {
        !self.goes_on() || self.open.load(Ordering::SeqCst) == 0
    }
}
