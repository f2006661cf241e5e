//! What deciding choices adds to the cost, and which of many scores is greatest.

use dm_base::Cost;
use dm_scout::{Scout, Side};
use std::alloc::{AllocError, Global};
use std::mem::replace;

/// A gain that stands for no limit.
const LIMIT: u64 = 1_152_921_504_606_846_976;

/// What deciding a choice on either side added to the cost when it was tried last.
#[derive(Clone, Copy)]
pub struct Gains {
    pub first: u64,
    pub second: u64,
}

impl Gains {
    /// The gains where either side costs so much.
    pub fn over(cost: Cost, first: Cost, second: Cost) -> Gains {
        Gains {
            first: gain(first.saturating_sub(cost)),
            second: gain(second.saturating_sub(cost)),
        }
    }

    pub fn larger(&self) -> u64 {
        self.first.max(self.second)
    }

    /// Twice the smaller gain and once the larger, neither counting for more than the cap.
    pub fn promise(&self, cap: u64) -> u64 {
        let low = self.first.min(self.second).min(cap);
        let high = self.first.max(self.second).min(cap);
        low.saturating_mul(2).saturating_add(high)
    }

    /// How far the two gains are apart.
    pub fn regret(&self) -> u64 {
        let low = self.first.min(self.second);
        self.first.max(self.second).saturating_sub(low)
    }
}

/// A gain, or the limit where it is more.
pub fn gain(more: Cost) -> u64 {
    match u64::try_from(more) {
        Ok(gain) => gain.min(LIMIT),
        Err(_) => LIMIT,
    }
}

/// No gains: the choice was not tried.
const UNTRIED: Gains = Gains {
    first: u64::MAX,
    second: u64::MAX,
};

/// Tries both sides of a choice.
pub fn try_both(scout: &mut Scout<'_>, i: usize) -> Gains {
    let cost = scout.cost();
    let first = scout.cost_with(i, Side::First);
    let second = scout.cost_with(i, Side::Second);
    Gains::over(cost, first, second)
}

/// The gains of each choice that was tried.
#[derive(Drop)]
pub struct TriedGains {
    gains: Vec<Gains>,
}

impl TriedGains {
    /// Gains of so many choices, of which none was tried.
    pub fn new(alloc: Global, choices: usize) -> Result<TriedGains, AllocError> {
        Ok(TriedGains {
            gains: vec![in alloc; UNTRIED; choices]?,
        })
    }

    pub fn copy(&self, alloc: Global) -> Result<TriedGains, AllocError> {
        Ok(TriedGains {
            gains: Vec::from_slice(alloc, &self.gains)?,
        })
    }

    pub fn len(&self) -> usize {
        self.gains.len()
    }

    pub fn get(&self, i: usize) -> Option<Gains> {
        match self.gains.get(i) {
            Some(gains) if gains.first != u64::MAX => Some(*gains),
            _ => None,
        }
    }

    /// Enters the gains of a choice, and gives those before.
    pub fn set(&mut self, i: usize, gains: Gains) -> Gains {
        match self.gains.get_mut(i) {
            Some(slot) => replace(slot, gains),
            None => UNTRIED,
        }
    }
}

/// By what choices are scored.
#[derive(Clone, Copy)]
pub enum By {
    Promise,
    Regret,
}

/// The scores of the violated choices as a tree of greatest ones: a violated choice that was never tried has the greatest.
pub struct Scores {
    by: By,
    leaves: usize,
    tree: Vec<u64>,
}

impl Drop for Scores {
    fn drop(self) {
        let Scores {
            by: _,
            leaves: _,
            tree: _,
        } = self;
    }
}

impl Scores {
    /// The scores of so many choices, of which none is violated.
    pub fn new(alloc: Global, by: By, choices: usize) -> Result<Scores, AllocError> {
        let mut leaves = 1_usize;
        for _ in 0..64 {
            if leaves < choices {
                leaves = leaves.saturating_mul(2);
            }
        }
        Ok(Scores {
            by,
            leaves,
            tree: vec![in alloc; 0; leaves.saturating_mul(2)]?,
        })
    }

    fn at(&self, place: usize) -> u64 {
        match self.tree.get(place) {
            Some(score) => *score,
            None => 0,
        }
    }

    /// Sets the score of a choice, and the greatest ones above it.
    fn set(&mut self, i: usize, score: u64) {
        let mut place = i.saturating_add(self.leaves);
        let mut greatest = score;
        for _ in 0..64 {
            match self.tree.get_mut(place) {
                Some(slot) if *slot != greatest => *slot = greatest,
                _ => return,
            }
            greatest = self.at(place).max(self.at(place ^ 1));
            place /= 2;
        }
    }

    /// Looks again at the choices that have become violated, or are so no more.
    pub fn follow(
        &mut self,
        scout: &mut Scout<'_>,
        tried_gains: &TriedGains,
    ) -> Result<(), AllocError> {
        for i in &scout.take_changed()? {
            self.look_at(scout, tried_gains, *i);
        }
        Ok(())
    }

    /// Scores a choice anew.
    pub fn look_at(&mut self, scout: &Scout<'_>, tried_gains: &TriedGains, i: usize) {
        let score = if !scout.is_violated(i) {
            0
        } else {
            match (tried_gains.get(i), self.by) {
                (None, _) => u64::MAX,
                (Some(gains), By::Promise) => gains.promise(LIMIT).saturating_add(1),
                (Some(gains), By::Regret) => gains.regret().saturating_add(1),
            }
        };
        self.set(i, score);
    }

    /// The choice of the greatest score, the first of several, or None where nothing is violated.
    pub fn top(&self) -> Option<usize> {
        if self.at(1) == 0 {
            return None;
        }
        let mut place = 1_usize;
        for _ in 0..64 {
            if place < self.leaves {
                let left = place.saturating_mul(2);
                let is_left = self.at(left) == self.at(place);
                place = if is_left {
                    left
                } else {
                    left.saturating_add(1)
                };
            }
        }
        Some(place.saturating_sub(self.leaves))
    }
}
