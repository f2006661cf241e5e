//! Gates at which threads are held up and counted.

use dm_outside::Gate;
use dm_samples::Failure;
use std::alloc::{AllocError, Global};
use std::sync::atomic::{AtomicU64, Ordering};
use std::thread;

/// The point that a feed passes before it answers a line, and the one that it passes when the reply is kept.
const BEFORE_A_LINE: u32 = 1;

const BEHIND_A_LINE: u32 = 2;

/// The points that a worker passes when it starts, when it ends, and before each node that it expands.
const STARTS: u32 = 3;

const ENDS: u32 = 4;

const EXPANDS: u32 = 5;

/// How often a thread, or all workers together, may look whether the others have come. Then nobody waits any more: the case ends,
/// and fails.
const TURNS: u64 = 10_000_000;

/// Which two threads wait for each other.
#[derive(Clone, Copy)]
pub enum Meets {
    /// The first two that come to a point.
    At(u32),

    /// A worker as it starts, until a line of the second feed is answered, which waits until the worker has started.
    InSearch,
}

/// Two threads, which of them have come, and whether one has waited in vain.
#[derive(Drop)]
pub struct Meeting {
    meets: Meets,
    one: AtomicU64,
    other: AtomicU64,
    missed: AtomicU64,
}

impl Meeting {
    /// Nobody has come.
    pub fn new(meets: Meets) -> Meeting {
        Meeting {
            meets,
            one: AtomicU64::new(0),
            other: AtomicU64::new(0),
            missed: AtomicU64::new(0),
        }
    }

    fn wait_for(&self, mark: &AtomicU64) {
        if !has_come(mark) {
            self.missed.store(1, Ordering::SeqCst);
        }
    }

    /// Whether both have come, and nobody has waited in vain.
    pub fn end(&self) -> Result<(), Failure> {
        let both = has_come(&self.one) && has_come(&self.other);
        if both && self.missed.load(Ordering::SeqCst) == 0 {
            Ok(())
        } else {
            Err(Failure::Differs(1))
        }
    }
}

impl Gate for Meeting {
    fn pass(&self, who: u32, point: u32) {
        let (own, other) = match self.meets {
            Meets::At(due) if point == due && who == 1 => (Some(&self.one), Some(&self.other)),
            Meets::At(due) if point == due => (Some(&self.other), Some(&self.one)),
            Meets::InSearch if point == STARTS => (Some(&self.one), Some(&self.other)),
            Meets::InSearch if point == BEFORE_A_LINE && who == 2 => (None, Some(&self.one)),
            Meets::InSearch if point == BEHIND_A_LINE && who == 2 => (Some(&self.other), None),
            _ => (None, None),
        };
        if let Some(mark) = own {
            mark.store(1, Ordering::SeqCst);
        }
        if let Some(mark) = other {
            self.wait_for(mark);
        }
    }
}

/// Whether a thread comes before so many looks.
fn has_come(mark: &AtomicU64) -> bool {
    for _turn in 0..TURNS {
        if mark.load(Ordering::SeqCst) == 1 {
            return true;
        }
        thread::yield_now();
    }
    false
}

/// How often each worker has started and ended, and how many nodes it has expanded. Where workers are held up, none expands a
/// second one before all others have expanded one.
#[derive(Drop)]
pub struct Watch {
    started: Vec<AtomicU64>,
    ended: Vec<AtomicU64>,
    expanded: Vec<AtomicU64>,
    holds: bool,

    /// How often all have looked.
    looks: AtomicU64,
}

impl Watch {
    /// Nobody has passed.
    pub fn new(alloc: Global, workers: u64, holds: bool) -> Result<Watch, AllocError> {
        Ok(Watch {
            started: zeros(alloc, workers)?,
            ended: zeros(alloc, workers)?,
            expanded: zeros(alloc, workers)?,
            holds,
            looks: AtomicU64::new(0),
        })
    }

    /// Whether each worker has started and ended once, and all have expanded no fewer and no more nodes than this; where they are held
    /// up, each has expanded one.
    pub fn end(&self, least: u64, most: u64) -> Result<(), Failure> {
        let once = all_are(&self.started, 1) && all_are(&self.ended, 1);
        let mut expanded: u64 = 0;
        for one in &self.expanded {
            expanded = expanded.saturating_add(one.load(Ordering::SeqCst));
        }
        let shared = !self.holds || self.all_have_expanded();
        if once && shared && least <= expanded && expanded <= most {
            Ok(())
        } else {
            Err(Failure::Differs(2))
        }
    }

    fn all_have_expanded(&self) -> bool {
        self.expanded
            .iter()
            .all(|one| one.load(Ordering::SeqCst) > 0)
    }

    /// Waits until all have expanded a node, while one may look.
    fn wait_for_all(&self) {
        for _turn in 0..TURNS {
            if self.all_have_expanded() || self.looks.fetch_add(1, Ordering::SeqCst) >= TURNS {
                return;
            }
            thread::yield_now();
        }
    }
}

impl Gate for Watch {
    fn pass(&self, who: u32, point: u32) {
        match point {
            STARTS => count(&self.started, who),
            ENDS => count(&self.ended, who),
            EXPANDS => {
                if self.holds && count_of(&self.expanded, who) > 0 {
                    self.wait_for_all();
                }
                count(&self.expanded, who);
            }
            _ => {}
        }
    }
}

/// Counts for one of those numbered from 1.
fn count(all: &[AtomicU64], who: u32) {
    if let Some(one) = all.get((who as usize).wrapping_sub(1)) {
        one.fetch_add(1, Ordering::SeqCst);
    }
}

fn count_of(all: &[AtomicU64], who: u32) -> u64 {
    match all.get((who as usize).wrapping_sub(1)) {
        Some(one) => one.load(Ordering::SeqCst),
        None => 0,
    }
}

fn all_are(all: &[AtomicU64], due: u64) -> bool {
    all.iter().all(|one| one.load(Ordering::SeqCst) == due)
}

fn zeros(alloc: Global, many: u64) -> Result<Vec<AtomicU64>, AllocError> {
    let mut all = Vec::new(alloc);
    for _ in 0..many {
        all.push(AtomicU64::new(0))?;
    }
    Ok(all)
}
