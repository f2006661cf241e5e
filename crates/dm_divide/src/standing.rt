//! A plan, the groups beside it, and the movers with which they are looked at.

use crate::atoms::Atoms;
use crate::borders::Borders;
use crate::groups::{Groups, plan};
use crate::jobs::Job;
use crate::reliefs::{bonds, reliefs};
use dm_base::{Cost, Secs};
use dm_branch::Part;
use dm_probe::{Mover, Share, Side};
use std::alloc::{AllocError, Global};

/// What a search over parts stands on.
pub struct Standing<'a> {
    pub alloc: Global,
    pub groups: Groups,

    /// One at the root, and others there with which parts may be solved at the same time.
    pub relaxed: Mover<'a>,
    pub others: Vec<Mover<'a>>,

    /// One at the plan.
    pub whole: Mover<'a>,

    /// The plan: times, sides and cost.
    pub times: Vec<Secs>,
    pub sides: Vec<Option<Side>>,
    pub cost: Cost,

    /// By how much the first plan's cost falls without each choice.
    pub reliefs: Vec<Cost>,
    pub borders: Borders,
}

impl Drop for Standing<'_> {
    fn drop(self) {
        let Standing {
            alloc: _,
            groups: _,
            relaxed: _,
            others: _,
            whole: _,
            times: _,
            sides: _,
            cost: _,
            reliefs: _,
            borders: _,
        } = self;
    }
}

impl<'a> Standing<'a> {
    /// Movers, of which one stands at a plan and the others stay at the root, and no groups yet.
    pub fn new(
        alloc: Global,
        relaxed: Mover<'a>,
        others: Vec<Mover<'a>>,
        whole: Mover<'a>,
    ) -> Standing<'a> {
        Standing {
            alloc,
            groups: Groups::none(alloc),
            relaxed,
            others,
            whole,
            times: Vec::new(alloc),
            sides: Vec::new(alloc),
            cost: 0,
            reliefs: Vec::new(alloc),
            borders: Borders::new(alloc),
        }
    }

    /// Divides the terms anew, by trains or by so many of their legs.
    pub fn divide(&mut self, terms: &Share, legs: Option<usize>) -> Result<(), AllocError> {
        self.groups = self.groups_by(terms, legs)?;
        self.borders = Borders::new(self.alloc);
        self.replan()
    }

    /// Groups of trains, or of so many of their legs, each with its part of the terms.
    fn groups_by(&mut self, terms: &Share, legs: Option<usize>) -> Result<Groups, AllocError> {
        let net = self.whole.net();
        let atoms = Atoms::of(self.alloc, net, legs)?;
        let roots = self.joined(&atoms)?;
        let mut groups = Groups::new(self.alloc, atoms, &roots, self.whole.choices())?;
        groups.divide(net, terms, &mut self.whole)?;
        Ok(groups)
    }

    /// What stands for each atom, where atoms are joined along the choices that cost most.
    fn joined(&mut self, atoms: &Atoms) -> Result<Vec<usize>, AllocError> {
        self.reliefs = reliefs(self.alloc, &mut self.whole)?;
        let mut bonds = bonds(
            self.alloc,
            atoms,
            &self.reliefs,
            &mut self.whole,
            &mut self.relaxed,
        )?;
        bonds.join_all(self.alloc)
    }

    /// What no choices go below.
    pub fn bound(&mut self) -> Cost {
        let mut bound = self.relaxed.cost();
        for group in &self.groups.list {
            if let Some(part) = &group.part {
                bound = bound.saturating_add(part.excess());
            }
        }
        bound
    }

    /// Takes the plan from where the mover stands.
    pub fn replan(&mut self) -> Result<(), AllocError> {
        self.cost = self.whole.cost();
        self.times = times_of(self.alloc, &self.whole)?;
        self.sides = sides_of(self.alloc, &self.whole)?;
        for group in 0..self.groups.list.len() {
            if let Some(mut part) = self.groups.take(group) {
                plan(&mut part, &mut self.whole)?;
                self.groups.put(group, part);
            }
        }
        Ok(())
    }

    /// Expands the tree of a group up to so many nodes.
    pub fn grow(&mut self, group: usize, most: usize) -> Result<(), AllocError> {
        let Some(mut part) = self.groups.take(group) else {
            return Ok(());
        };
        part.grow(&mut self.relaxed, most)?;
        self.groups.put(group, part);
        Ok(())
    }

    /// How many decisions were made or tried at the root.
    pub fn tried(&self) -> u64 {
        let mut tried = self.relaxed.tried();
        for other in &self.others {
            tried = tried.saturating_add(other.tried());
        }
        tried
    }

    /// Takes the parts of groups out, as jobs of so many nodes each.
    pub fn take_jobs(&mut self, groups: &[usize], most: usize) -> Result<Vec<Job>, AllocError> {
        let mut jobs = Vec::new(self.alloc);
        for group in groups {
            if let Some(part) = self.groups.take(*group) {
                jobs.push(Job {
                    group: *group,
                    most,
                    part,
                })?;
            }
        }
        Ok(jobs)
    }

    /// Puts the parts of jobs back, in any order.
    pub fn put_back(&mut self, jobs: Vec<Job>) {
        for job in jobs {
            let group = job.group;
            self.groups.put(group, job.into_part());
        }
    }

    /// The open groups that may be solved further, by what their tree should have at most.
    pub fn is_open(&self, group: usize) -> bool {
        match self.groups.part(group) {
            Some(part) => !part.is_done(),
            None => false,
        }
    }

    /// How many nodes a group's tree has.
    pub fn size(&self, group: usize) -> usize {
        self.groups.part(group).map(Part::size).unwrap_or(0)
    }
}

/// The times where a mover stands.
pub fn times_of(alloc: Global, mover: &Mover<'_>) -> Result<Vec<Secs>, AllocError> {
    let mut times = Vec::new(alloc);
    for event in 0..mover.net().events() {
        times.push(mover.time(event))?;
    }
    Ok(times)
}

/// The sides on which a mover has the choices.
pub fn sides_of(alloc: Global, mover: &Mover<'_>) -> Result<Vec<Option<Side>>, AllocError> {
    let mut sides = Vec::new(alloc);
    for number in 0..mover.choices().len() {
        sides.push(mover.side(number))?;
    }
    Ok(sides)
}
