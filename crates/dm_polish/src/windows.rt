//! Choices that are made better some at a time.

use crate::gaining::try_both;
use crate::telling::{Stand, Told, take_over};
use dm_base::Cost;
use dm_scout::{Numbers, Scout, Side};
use std::alloc::{AllocError, Global};

/// A choice on which a window has branched, and the side that is left with what it costs.
#[derive(Clone, Copy)]
struct Branching {
    number: usize,
    later: Option<(Side, Cost)>,
}

/// A choice that is violated, the side that costs less, and what either costs.
#[derive(Clone, Copy)]
struct Pick {
    number: usize,
    near: Side,
    low: Cost,
    high: Cost,
}

/// The search for better choices near choices that bind. Nothing is violated before and after.
pub struct Windows {
    alloc: Global,

    /// How many decisions are made or tried until the search ends.
    limit: u64,

    /// The choices of the window.
    members: Numbers,

    /// How the members and what else the window has decided stand in the best choices so far, and what these cost.
    stands: Vec<Stand>,
    best: Cost,

    /// The choices near which something became better since it was looked at.
    pub touched: Numbers,

    /// What became better, where another searcher is told of it.
    pub told: Told,
    tells: bool,
}

impl Drop for Windows {
    fn drop(self) {
        let Windows {
            alloc: _,
            limit: _,
            members: _,
            stands: _,
            best: _,
            touched: _,
            told: _,
            tells: _,
        } = self;
    }
}

impl Windows {
    /// No window yet, among so many choices. What becomes better is told to another searcher, or is touched.
    pub fn new(alloc: Global, choices: usize, tells: bool) -> Result<Windows, AllocError> {
        let mut windows = Windows {
            alloc,
            limit: 0,
            members: Numbers::new(alloc),
            stands: Vec::new(alloc),
            best: 0,
            touched: Numbers::new(alloc),
            told: Told::new(alloc),
            tells,
        };
        windows.members.extend(choices)?;
        windows.touched.extend(choices)?;
        Ok(windows)
    }

    /// Allows so many decisions more.
    pub fn allow(&mut self, scout: &Scout<'_>, tries: u64) {
        self.limit = scout.tried().saturating_add(tries);
    }

    /// Whether all decisions were made or tried that are allowed.
    pub fn is_spent(&self, scout: &Scout<'_>) -> bool {
        scout.tried() >= self.limit
    }

    /// One window around each of these choices that binds.
    pub fn round(
        &mut self,
        scout: &mut Scout<'_>,
        seeds: &[usize],
        size: usize,
    ) -> Result<(), AllocError> {
        for i in seeds {
            if self.is_spent(scout) {
                return Ok(());
            }
            if scout.is_binding(*i) {
                scout.begin()?;
                if self.open(scout, *i, size)? {
                    self.keep(scout)?;
                }
            }
        }
        Ok(())
    }

    /// Tells what was turned since the scout began, or has it looked at again with what is near.
    pub fn keep(&mut self, scout: &mut Scout<'_>) -> Result<(), AllocError> {
        if self.tells {
            self.told.add(scout)
        } else {
            self.touch(scout)
        }
    }

    /// Has what was turned since the scout began, and what is near, looked at again.
    pub fn touch(&mut self, scout: &mut Scout<'_>) -> Result<(), AllocError> {
        let near = scout.far()?;
        self.touched.add_all(&near)?;
        for turned in &scout.turned()? {
            self.touched.add(turned.number)?;
        }
        Ok(())
    }

    /// Takes over what another searcher was better with, if it still is better.
    pub fn take_over(&mut self, scout: &mut Scout<'_>, group: &[Stand]) -> Result<(), AllocError> {
        if take_over(scout, group)? {
            self.touch(scout)
        } else {
            Ok(())
        }
    }

    /// Leaves the members of a window undecided, the other decisions fixed, searches there, and decides them as is best. It is
    /// true where this is better than before.
    pub fn open(
        &mut self,
        scout: &mut Scout<'_>,
        i: usize,
        size: usize,
    ) -> Result<bool, AllocError> {
        self.gather(scout, i, size)?;
        self.best = scout.cost();
        let before = self.best;
        self.note_stands(scout, &[])?;
        for member in self.members.list() {
            scout.undecide(*member)?;
        }
        self.search(scout, size)?;
        for stand in &self.stands {
            let _set = scout.set(stand.number, stand.side)?;
        }
        Ok(self.best < before)
    }

    /// The members of the window around a choice: breadth first, those that are decided at the events that a turn of one moves.
    fn gather(&mut self, scout: &mut Scout<'_>, i: usize, size: usize) -> Result<(), AllocError> {
        self.members.forget();
        self.members.add(i)?;
        for k in 0..size {
            let Some(member) = self.members.list().get(k).copied() else {
                return Ok(());
            };
            if self.members.list().len() < size {
                self.join(scout, member, size)?;
            }
        }
        Ok(())
    }

    /// Turns a member to its other side and back, and lets join what this moves.
    fn join(
        &mut self,
        scout: &mut Scout<'_>,
        member: usize,
        size: usize,
    ) -> Result<(), AllocError> {
        let Some(side) = scout.side(member) else {
            return Ok(());
        };
        scout.forget()?;
        let is_turned = scout.set(member, Some(side.other()))?;
        let near = if is_turned {
            scout.near()?
        } else {
            Vec::new(self.alloc)
        };
        let _back = scout.set(member, Some(side))?;
        for i in &near {
            if self.members.list().len() < size && scout.side(*i).is_some() {
                self.members.add(*i)?;
            }
        }
        Ok(())
    }

    /// Notes how the members stand, and these branchings.
    fn note_stands(
        &mut self,
        scout: &Scout<'_>,
        branchings: &[Branching],
    ) -> Result<(), AllocError> {
        self.stands.clear();
        for member in self.members.list() {
            self.stands.push(Stand {
                number: *member,
                side: scout.side(*member),
            })?;
        }
        for branching in branchings {
            self.stands.push(Stand {
                number: branching.number,
                side: scout.side(branching.number),
            })?;
        }
        Ok(())
    }

    /// Searches depth first, the cheaper side first, below the best cost, with so many branchings at most.
    fn search(&mut self, scout: &mut Scout<'_>, most: usize) -> Result<(), AllocError> {
        let mut branchings = Vec::new(self.alloc);
        let mut left = most;
        let mut is_new = true;
        for _ in 0..u64::MAX {
            if is_new && self.branch(scout, &mut branchings, left > 0)? {
                left = left.saturating_sub(1);
            } else {
                let Some(branching) = branchings.pop() else {
                    return Ok(());
                };
                is_new = self.turn(scout, &mut branchings, branching, left > 0)?;
            }
        }
        Ok(())
    }

    /// Branches where the scout stands, if that may be better, or takes what stands there where nothing is violated.
    fn branch(
        &mut self,
        scout: &mut Scout<'_>,
        branchings: &mut Vec<Branching>,
        may: bool,
    ) -> Result<bool, AllocError> {
        let cost = scout.cost();
        if cost >= self.best {
            return Ok(false);
        }
        if scout.violated()?.is_empty() {
            self.best = cost;
            self.note_stands(scout, branchings)?;
            return Ok(false);
        }
        if !may {
            return Ok(false);
        }
        let Some(pick) = self.pick(scout, cost)? else {
            return Ok(false);
        };
        if pick.low >= self.best || !scout.decide(pick.number, pick.near)? {
            return Ok(false);
        }
        branchings.push(Branching {
            number: pick.number,
            later: Some((pick.near.other(), pick.high)),
        })?;
        Ok(true)
    }

    /// Takes the side that is left of a branching, if there is one that may be better.
    fn turn(
        &mut self,
        scout: &mut Scout<'_>,
        branchings: &mut Vec<Branching>,
        branching: Branching,
        may: bool,
    ) -> Result<bool, AllocError> {
        scout.undecide(branching.number)?;
        let Some((side, cost)) = branching.later else {
            return Ok(false);
        };
        if !may || cost >= self.best || !scout.decide(branching.number, side)? {
            return Ok(false);
        }
        branchings.push(Branching {
            number: branching.number,
            later: None,
        })?;
        Ok(true)
    }

    /// The violated choice of which the cheaper side costs most, and then the other side: the first met of which the cheaper
    /// side is not better than the best.
    fn pick(&mut self, scout: &mut Scout<'_>, cost: Cost) -> Result<Option<Pick>, AllocError> {
        let violated = Vec::from_slice(self.alloc, scout.violated()?)?;
        let mut most: Option<Pick> = None;
        for i in &violated {
            let gains = try_both(scout, *i);
            let (first, second) = (Cost::from(gains.first), Cost::from(gains.second));
            let near = if first <= second {
                Side::First
            } else {
                Side::Second
            };
            let pick = Pick {
                number: *i,
                near,
                low: cost.saturating_add(first.min(second)),
                high: cost.saturating_add(first.max(second)),
            };
            if pick.low >= self.best {
                return Ok(Some(pick));
            }
            most = match most {
                Some(other) if !is_more(pick, other) => Some(other),
                _ => Some(pick),
            };
        }
        Ok(most)
    }
}

/// Whether a choice is to be branched on before another.
fn is_more(one: Pick, other: Pick) -> bool {
    let costs = (one.low, one.high);
    let others = (other.low, other.high);
    costs > others || (costs == others && one.number < other.number)
}

/// Those of these choices that bind, by the time for which they are scheduled.
pub fn binding(
    alloc: Global,
    scout: &mut Scout<'_>,
    numbers: &[usize],
) -> Result<Vec<usize>, AllocError> {
    let mut all = Vec::new(alloc);
    for i in numbers {
        if scout.is_binding(*i) {
            all.push((scout.when(*i), *i))?;
        }
    }
    all.sort()?;
    let mut numbers = Vec::new(alloc);
    for (_when, i) in &all {
        numbers.push(*i)?;
    }
    Ok(numbers)
}

/// All choices that bind, by the time for which they are scheduled.
pub fn all_binding(alloc: Global, scout: &mut Scout<'_>) -> Result<Vec<usize>, AllocError> {
    let mut all = Vec::new(alloc);
    for i in 0..scout.choices().len() {
        all.push(i)?;
    }
    binding(alloc, scout, &all)
}
