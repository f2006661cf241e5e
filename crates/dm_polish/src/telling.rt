//! What one searcher tells another of the choices that it has made better.

use crate::kicking::repair;
use dm_scout::{Scout, Side};
use std::alloc::{AllocError, Global};

/// A choice and the side on which it is to stand, or none where the times keep it undecided.
#[derive(Clone, Copy)]
pub struct Stand {
    pub number: usize,
    pub side: Option<Side>,
}

/// Groups of choices that stand otherwise than before, each of which made the choices better.
pub struct Told {
    stands: Vec<Stand>,

    /// Where each group ends.
    ends: Vec<usize>,
}

impl Drop for Told {
    fn drop(self) {
        let Told { stands: _, ends: _ } = self;
    }
}

impl Told {
    /// No groups.
    pub fn new(alloc: Global) -> Told {
        Told {
            stands: Vec::new(alloc),
            ends: Vec::new(alloc),
        }
    }

    pub fn forget(&mut self) {
        self.stands.clear();
        self.ends.clear();
    }

    /// Adds the choices that were turned since the scout began, as they stand now.
    pub fn add(&mut self, scout: &Scout<'_>) -> Result<(), AllocError> {
        for turned in &scout.turned()? {
            let number = turned.number;
            let side = scout.side(number);
            self.stands.push(Stand { number, side })?;
        }
        self.ends.push(self.stands.len())?;
        Ok(())
    }

    pub fn groups(&self) -> usize {
        self.ends.len()
    }

    /// A group.
    pub fn group(&self, k: usize) -> &[Stand] {
        let from = match k.checked_sub(1) {
            Some(before) => self.ends.get(before).copied().unwrap_or(0),
            None => 0,
        };
        let to = self.ends.get(k).copied().unwrap_or(0);
        self.stands.get(from..to).unwrap_or(&[])
    }
}

/// Takes over a group where that is better, with what is then violated decided anew. It is true where it was taken over.
pub fn take_over(scout: &mut Scout<'_>, group: &[Stand]) -> Result<bool, AllocError> {
    let before = scout.cost();
    scout.begin()?;
    if turn_all(scout, group)? && repair(scout, before.saturating_sub(1))? {
        return Ok(true);
    }
    scout.restore()?;
    Ok(false)
}

/// Has each choice of a group stand as it says. It is false where that makes a cycle.
fn turn_all(scout: &mut Scout<'_>, group: &[Stand]) -> Result<bool, AllocError> {
    for stand in group {
        scout.undecide(stand.number)?;
    }
    for stand in group {
        if !scout.set(stand.number, stand.side)? {
            return Ok(false);
        }
    }
    Ok(true)
}
