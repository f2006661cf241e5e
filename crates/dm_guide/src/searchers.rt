//! A scout with all that it needs for its part of each round.
ghost use Rattle.dm_evaluate.specs.Evaluator.{IsEvaluatorOf};
ghost use Rattle.dm_task.specs.Tasks.{IsPosedTask};

use crate::growing::Tree;
use crate::parts::Part;
use crate::rounds::{Round, Seeds, Work, block};
use dm_evaluate::Evaluator;
use dm_polish::{Kicks, stand_at, try_both};
use dm_scout::{Choices, Mover, Scout};
use dm_task::Task;
use std::alloc::{AllocError, Global};

/// One of those who search together: nothing that it changes is another's.
pub struct Searcher<'t> {
    pub(crate) alloc: Global,
    pub(crate) scout: Scout<'t>,
    pub(crate) kicks: Kicks,
    pub(crate) tree: Tree,

    /// The parts of the last round's leaves that it has expanded.
    pub(crate) parts: Vec<Part>,

    /// Its place among all, the first being 0.
    place: usize,

    /// Whether it wanted memory in a round.
    is_short: bool,
}

impl Drop for Searcher<'_> {
    fn drop(self) {
        let Searcher {
            alloc: _,
            scout: _,
            kicks: _,
            tree: _,
            parts: _,
            place: _,
            is_short: _,
        } = self;
    }
}

impl<'t> Searcher<'t> {
    /// The searcher at a place, from 0, among so many, of a task whose base an evaluator has decided, and nothing else. It has
    /// tried its part of the choices that are violated there.
    pub fn new(
        task: &Task<'t>,
        evaluator: Evaluator,
        place: usize,
        many: usize,
    ) -> Result<Searcher<'t>, AllocError>
        requires posed { IsPosedTask task.now }
        requires evaluator { IsEvaluatorOf task.now.net.now evaluator }
    {
        let mut choices = Choices::new(task.alloc);
        choices.fill(task.net, &evaluator)?;
        let mover = Mover::new(task.net, task.penalty, evaluator.into_priced());
        let scout = Scout::new(task.alloc, mover, task.base, choices);
        Searcher::with_scout(task, scout, place, many)
    }

    fn with_scout(
        task: &Task<'t>,
        scout: Scout<'t>,
        place: usize,
        many: usize,
    ) -> Result<Searcher<'t>, AllocError> {
        let alloc = task.alloc;
        let room = task.budget as usize;
        let mut scout = scout;
        scout.look_at_all()?;
        let kicks = Kicks::new(alloc, &scout, place > 0)?;
        let tree = Tree::new(alloc, scout.choices().len(), room, many > 1)?;
        let mut searcher = Searcher {
            alloc,
            scout,
            kicks,
            tree,
            parts: Vec::new(alloc),
            place,
            is_short: false,
        };
        searcher.try_violated(many)?;
        Ok(searcher)
    }

    /// Tries its part of the violated choices.
    fn try_violated(&mut self, many: usize) -> Result<(), AllocError> {
        let violated = Vec::from_slice(self.alloc, self.scout.violated()?)?;
        for i in block(&violated, self.place, many) {
            let gains = try_both(&mut self.scout, *i);
            self.tree.learn(&self.scout, *i, gains)?;
        }
        Ok(())
    }

    /// How many choices are violated where it stands.
    pub fn violated(&mut self) -> Result<usize, AllocError> {
        Ok(self.scout.violated()?.len())
    }

    /// Does its part of a round.
    pub fn play(&mut self, round: &Round) {
        if self.part_of(round).is_err() {
            self.is_short = true;
        }
    }

    /// Want of memory, if a round met it.
    pub(crate) fn check(&self) -> Result<(), AllocError> {
        if self.is_short {
            Err(AllocError)
        } else {
            Ok(())
        }
    }

    fn part_of(&mut self, round: &Round) -> Result<(), AllocError> {
        if self.place >= round.parts {
            return Ok(());
        }
        match &round.work {
            Work::Windows(seeds, size) => {
                self.begin(seeds)?;
                let mine = block(&seeds.numbers, self.place, round.parts);
                self.kicks.windows.round(&mut self.scout, mine, *size)
            }
            Work::Kicks(seeds) => {
                self.begin(seeds)?;
                let mine = block(&seeds.numbers, self.place, round.parts);
                self.kicks.round(&mut self.scout, mine)
            }
            Work::Leaves(leaves) => {
                if self.place > 0 {
                    self.tree.follow(&mut self.scout, &leaves.known)?;
                }
                self.parts = self.tree.expand_parts(&mut self.scout, leaves)?;
                Ok(())
            }
        }
    }

    /// Goes to where the first searcher stands, with nothing told or touched.
    fn begin(&mut self, seeds: &Seeds) -> Result<(), AllocError> {
        if self.place > 0 {
            stand_at(&mut self.scout, &seeds.sides)?;
        }
        self.kicks.windows.told.forget();
        self.kicks.windows.touched.forget();
        Ok(())
    }

    /// Takes over what another has made better, where it still is.
    pub(crate) fn take_over(&mut self, other: &Searcher<'t>) -> Result<(), AllocError> {
        let told = &other.kicks.windows.told;
        for k in 0..told.groups() {
            self.kicks
                .windows
                .take_over(&mut self.scout, told.group(k))?;
        }
        Ok(())
    }
}

/// Takes all decisions back.
pub fn go_back(scout: &mut Scout<'_>) -> Result<(), AllocError> {
    for i in 0..scout.choices().len() {
        scout.undecide(i)?;
    }
    Ok(())
}
