//! Where callers sleep. The bells are plain words: nothing that passes tell depends on what they hold.
use std::alloc::{AllocError, Global};
use std::sync::Wait;
use std::sync::atomic::{AtomicU64, Ordering};
use std::time::Duration;

// A sleep compares the low 32 bits of a word.
const LOW_BITS: u64 = 0xffff_ffff;

// So many tickets at most have a bell of their own; where there are more, some share one.
const MOST_BELLS: u32 = 128;

/// What a caller sleeps at until it is rung.
#[derive(Drop)]
pub struct Bell {
    rings: AtomicU64,
}

impl Bell {
    fn new() -> Bell {
        Bell {
            rings: AtomicU64::new(0),
        }
    }

    /// How often it was rung. Who looks at this before it looks whether it has to wait misses no ring.
    pub fn rings(&self) -> u32 {
        (self.rings.load(Ordering::SeqCst) & LOW_BITS) as u32
    }

    /// Sleeps until it is rung, unless it was rung after so many rings.
    pub fn wait<R: Wait>(&self, rt: &R, rings: u32) {
        self.rings.park(rt, rings);
    }

    /// The same, for no longer than `dur`.
    pub fn wait_for<R: Wait>(&self, rt: &R, rings: u32, dur: Duration) {
        self.rings.park_timeout(rt, rings, dur);
    }

    /// Wakes one of those that sleep at it.
    pub fn ring_one(&self) {
        self.rings.fetch_add(1, Ordering::SeqCst);
        self.rings.wake_one();
    }

    /// Wakes all that sleep at it.
    pub fn ring_all(&self) {
        self.rings.fetch_add(1, Ordering::SeqCst);
        self.rings.wake_all();
    }
}

/// The bells of a turn: one for each ticket that may wait, so that who gives the state back wakes the next one alone, and one for
/// those that stand back and have no ticket.
#[derive(Drop)]
pub struct Parking {
    tickets: Vec<Bell>,
    resting: Bell,
}

impl Parking {
    /// Bells for the tickets of so many callers.
    pub fn with_bells(alloc: Global, seats: u32) -> Result<Parking, AllocError> {
        let mut tickets = Vec::new(alloc);
        for _ in 0..seats.min(MOST_BELLS) {
            tickets.push(Bell::new())?;
        }
        Ok(Parking {
            tickets,
            resting: Bell::new(),
        })
    }

    /// The bell of a ticket.
    pub fn of(&self, ticket: u64) -> &Bell {
        let bells = (self.tickets.len() as u64).max(1);
        match self.tickets.get((ticket % bells) as usize) {
            Some(bell) => bell,
            None => &self.resting,
        }
    }

    /// The bell of those that stand back.
    pub fn resting(&self) -> &Bell {
        &self.resting
    }
}
