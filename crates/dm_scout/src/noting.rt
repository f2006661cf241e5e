//! What has happened since a time, noted once for each place.

use dm_base::Secs;
use std::alloc::{AllocError, Global};

/// Places that are noted once each until all are forgotten.
#[derive(Drop)]
pub struct Once {
    stamps: Vec<u32>,
    now: u32,
}

impl Once {
    /// No places.
    pub fn new(alloc: Global) -> Once {
        Once {
            stamps: Vec::new(alloc),
            now: 1,
        }
    }

    /// Makes room for so many places, none of which is noted.
    pub fn extend(&mut self, places: usize) -> Result<(), AllocError> {
        self.stamps.resize(places, 0)
    }

    /// Forgets all places.
    pub fn forget(&mut self) {
        self.now = self.now.saturating_add(1);
    }

    /// Notes a place, and says whether it was not noted before.
    pub fn is_new(&mut self, place: usize) -> bool {
        let now = self.now;
        match self.stamps.get_mut(place) {
            Some(stamp) if *stamp != now => {
                *stamp = now;
                true
            }
            _ => false,
        }
    }
}

/// An event, and its time before it moved.
#[derive(Clone, Copy)]
pub struct Moved {
    pub event: usize,
    pub before: Secs,
}

/// What is noted of places: one item of each, in the order in which they were noted.
#[derive(Drop)]
pub struct Noted<T: Drop> {
    once: Once,
    list: Vec<T>,
}

impl<T: Drop> Noted<T> {
    /// Nothing of no places.
    pub fn new(alloc: Global) -> Noted<T> {
        Noted {
            once: Once::new(alloc),
            list: Vec::new(alloc),
        }
    }

    /// Makes room for so many places.
    pub fn extend(&mut self, places: usize) -> Result<(), AllocError> {
        self.once.extend(places)
    }

    /// Forgets all that is noted.
    pub fn forget(&mut self) {
        self.once.forget();
        self.list.clear();
    }

    /// Notes an item of a place of which there is none yet.
    pub fn note(&mut self, place: usize, item: T) -> Result<(), AllocError> {
        if self.once.is_new(place) {
            self.list.push(item)?;
        }
        Ok(())
    }

    pub fn list(&self) -> &[T] {
        &self.list
    }
}

/// The events that have moved, each with its first time.
pub type Moves = Noted<Moved>;

/// Choices or events, each once.
pub type Numbers = Noted<usize>;

impl Noted<usize> {
    /// Adds a number, if it is new.
    pub fn add(&mut self, number: usize) -> Result<(), AllocError> {
        self.note(number, number)
    }

    pub fn add_all(&mut self, numbers: &[usize]) -> Result<(), AllocError> {
        for number in numbers {
            self.add(*number)?;
        }
        Ok(())
    }
}
