//! Choices that are made better near some that were turned.
ghost use Rattle.dm_evaluate.specs.Evaluator.{IsEvaluatorOf};
ghost use Rattle.dm_task.specs.Tasks.{IsPosedTask};

use crate::diving::decide_cheaper;
use crate::standing::{stand_at, take_over};
use crate::windows::{Windows, binding};
use dm_evaluate::Evaluator;
use dm_rows::Decision;
use dm_scout::{Choices, Mover, Scout, Side, side_of};
use dm_task::{Polishing, Task};
use std::alloc::{AllocError, Global};

/// How many choices a window has at most, and how often it branches.
const SIZE: usize = 24;

/// One who makes choices better near some that were turned. Where it stands nothing is violated.
pub struct Polisher<'t> {
    alloc: Global,
    scout: Scout<'t>,
    windows: Windows,
}

impl Drop for Polisher<'_> {
    fn drop(self) {
        let Polisher {
            alloc: _,
            scout: _,
            windows: _,
        } = self;
    }
}

impl Polishing for Polisher<'_> {
    fn polish(
        &mut self,
        turned: &[Decision],
        tries: u64,
    ) -> Result<Option<Vec<Decision>>, AllocError> {
        let before = self.scout.cost();
        let sides = self.scout.sides()?;
        let seeds = self.turn(turned)?;
        if self.scout.violated()?.is_empty() {
            self.windows.allow(&self.scout, tries);
            self.open_windows(seeds)?;
            if self.scout.cost() < before {
                return Ok(Some(self.scout.decisions()?));
            }
        }
        stand_at(&mut self.scout, &sides)?;
        Ok(None)
    }
}

impl<'t> Polisher<'t> {
    /// It stands where each of these choices is decided so, and each other one as the rows have it. The evaluator has decided
    /// the task's base, and nothing else.
    pub fn new(
        task: &Task<'t>,
        evaluator: Evaluator,
        choices: &[Decision],
    ) -> Result<Polisher<'t>, AllocError>
        requires posed { IsPosedTask task.now }
        requires evaluator { IsEvaluatorOf task.now.net.now evaluator }
    {
        let alloc = task.alloc;
        let mut free = Choices::new(alloc);
        free.fill(task.net, &evaluator)?;
        let mover = Mover::new(task.net, task.penalty, evaluator.into_priced());
        let mut scout = Scout::new(alloc, mover, task.base, free);
        scout.look_at_all()?;
        take_over(&mut scout, choices)?;
        let windows = Windows::new(alloc, scout.choices().len(), false)?;
        Ok(Polisher {
            alloc,
            scout,
            windows,
        })
    }

    /// Has choices stand on these sides, or on the others where that makes a cycle, and gives their numbers.
    fn turn(&mut self, turned: &[Decision]) -> Result<Vec<usize>, AllocError> {
        let net = self.scout.net();
        let mut stands = Vec::new(self.alloc);
        for decision in turned {
            if let Some(i) = self.scout.choices().find(net, decision.choice()) {
                self.scout.undecide(i)?;
                stands.push((i, side_of(*decision)))?;
            }
        }
        let mut numbers = Vec::new(self.alloc);
        for (i, side) in &stands {
            let _decided = decide_cheaper(&mut self.scout, *i, *side == Side::First)?;
            numbers.push(*i)?;
        }
        Ok(numbers)
    }

    /// Opens windows around these choices, and then around what these touch, until nothing becomes better.
    fn open_windows(&mut self, seeds: Vec<usize>) -> Result<(), AllocError> {
        let mut seeds = seeds;
        for _ in 0..u64::MAX {
            if seeds.is_empty() || self.windows.is_spent(&self.scout) {
                return Ok(());
            }
            self.windows.touched.forget();
            self.windows.round(&mut self.scout, &seeds, SIZE)?;
            self.complete()?;
            seeds = binding(self.alloc, &mut self.scout, self.windows.touched.list())?;
        }
        Ok(())
    }

    /// Decides what windows have left undecided as the times keep it.
    fn complete(&mut self) -> Result<(), AllocError> {
        let touched = Vec::from_slice(self.alloc, self.windows.touched.list())?;
        for i in &touched {
            if self.scout.side(*i).is_none() {
                let is_first = self.scout.keeps_first(*i);
                let _decided = decide_cheaper(&mut self.scout, *i, is_first)?;
            }
        }
        Ok(())
    }
}
