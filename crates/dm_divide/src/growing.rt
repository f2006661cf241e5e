//! Parts that grow into each other.

use crate::borders::{Border, Borders};
use crate::jobs::Job;
use crate::merging::Trial;
use crate::standing::Standing;
use dm_base::Cost;
use dm_branch::Part;
use dm_probe::Mover;
use dm_task::Polishing;
use std::alloc::{AllocError, Global};

/// How many nodes a tree has at first, and then at most until nothing else helps.
const FIRST: [usize; 3] = [16, 64, 256];

const LIMIT: usize = 1_000;

/// How many rounds there are, how many decisions they try, and how many neighbours are tried at once.
const ROUNDS: usize = 60;

const TRIES: u64 = 150_000;

const SEVERAL: usize = 4;

/// Groups that were refused as one.
struct Refused {
    ids: Vec<usize>,
    trial: Trial,
}

impl Drop for Refused {
    fn drop(self) {
        let Refused { ids: _, trial: _ } = self;
    }
}

/// How far the growth has come.
pub struct Growth {
    alloc: Global,

    /// How many nodes all trees may have, one tree without need, and how many decisions may be tried.
    allowed: usize,
    limit: usize,
    tries: u64,

    /// Whether a part is looked at where its leaf stands in the plan.
    is_held: bool,
    refused: Vec<Refused>,
    busy: Vec<bool>,
}

impl Drop for Growth {
    fn drop(self) {
        let Growth {
            alloc: _,
            allowed: _,
            limit: _,
            tries: _,
            is_held: _,
            refused: _,
            busy: _,
        } = self;
    }
}

impl Growth {
    /// Nothing has grown yet, and all trees may have so many nodes.
    pub fn new(standing: &Standing<'_>, allowed: usize) -> Growth {
        Growth {
            alloc: standing.alloc,
            allowed,
            limit: LIMIT.min(allowed),
            tries: standing.tried().saturating_add(TRIES),
            is_held: false,
            refused: Vec::new(standing.alloc),
            busy: Vec::new(standing.alloc),
        }
    }

    /// Solves each part by itself: all a little, then more those that are open.
    pub fn solve_all<
        'a,
        F: Fn(Vec<Job>, &mut Mover<'a>, &mut [Mover<'a>]) -> Result<Vec<Job>, AllocError>,
    >(&self, standing: &mut Standing<'a>, run: &F) -> Result<(), AllocError>
        requires { F.IsAlwaysCallable run.now }
    {
        self.solve_each(standing, run, 1)?;
        for most in FIRST {
            self.solve_each(standing, run, most.min(self.limit).max(1))?;
        }
        self.solve_each(standing, run, self.limit.max(1))
    }

    /// Expands each open tree up to so many nodes: side by side where all find room, so that it makes no difference who solves
    /// which, and else one after the other.
    fn solve_each<
        'a,
        F: Fn(Vec<Job>, &mut Mover<'a>, &mut [Mover<'a>]) -> Result<Vec<Job>, AllocError>,
    >(&self, standing: &mut Standing<'a>, run: &F, most: usize) -> Result<(), AllocError>
        requires { F.IsAlwaysCallable run.now }
    {
        let order = self.open_by_gap(standing)?;
        if self.wanted(standing, &order, most) > self.room(standing) {
            return self.solve_in_turn(standing, &order, most);
        }
        let jobs = standing.take_jobs(&order, most)?;
        let back = run(jobs, &mut standing.relaxed, &mut standing.others)?;
        standing.put_back(back);
        Ok(())
    }

    /// The open groups, those of the largest gap first.
    fn open_by_gap(&self, standing: &Standing<'_>) -> Result<Vec<usize>, AllocError> {
        let mut order = Vec::new(self.alloc);
        for group in 0..standing.groups.list.len() {
            if standing.is_open(group) {
                order.push((Cost::MAX.saturating_sub(standing.groups.gap(group)), group))?;
            }
        }
        order.sort_unstable();
        groups_of(self.alloc, &order)
    }

    /// How many nodes more there are if each of these trees has so many.
    fn wanted(&self, standing: &Standing<'_>, groups: &[usize], most: usize) -> usize {
        let mut wanted = 0_usize;
        for group in groups {
            wanted = wanted.saturating_add(most.saturating_sub(standing.size(*group)));
        }
        wanted
    }

    /// Expands trees up to so many nodes as long as there is room.
    fn solve_in_turn(
        &self,
        standing: &mut Standing<'_>,
        groups: &[usize],
        most: usize,
    ) -> Result<(), AllocError> {
        let mut nodes = standing.groups.nodes();
        for group in groups {
            let before = standing.size(*group);
            let room = before.saturating_add(self.allowed.saturating_sub(nodes));
            standing.grow(*group, most.min(room).max(1))?;
            nodes = nodes.saturating_add(standing.size(*group).saturating_sub(before));
        }
        Ok(())
    }

    /// Has parts grow into each other until nothing more is gained.
    pub fn grow_all<P: Polishing>(
        &mut self,
        standing: &mut Standing<'_>,
        polisher: &mut P,
    ) -> Result<(), AllocError> {
        for _ in 0..ROUNDS {
            standing.follow_borders()?;
            self.explore(standing, polisher)?;
            standing.borders.sort();
            if !self.round(standing)? {
                return Ok(());
            }
        }
        Ok(())
    }

    /// Looks at each new group with a gap.
    fn explore<P: Polishing>(
        &self,
        standing: &mut Standing<'_>,
        polisher: &mut P,
    ) -> Result<(), AllocError> {
        for group in 0..standing.groups.list.len() {
            if standing.take_fresh(group) {
                if let Some(mut part) = standing.groups.take(group) {
                    let explored = self.explore_part(standing, polisher, group, &mut part);
                    standing.groups.put(group, part);
                    explored?;
                }
            }
        }
        Ok(())
    }

    fn explore_part<P: Polishing>(
        &self,
        standing: &mut Standing<'_>,
        polisher: &mut P,
        group: usize,
        part: &mut Part,
    ) -> Result<(), AllocError> {
        let (true, Some(leaf)) = (part.gap() > 0, part.leaf()) else {
            return Ok(());
        };
        standing.look_near(group, part)?;
        standing.blame(group, part, leaf)?;
        standing.transplant(polisher, group, part, self.is_held)
    }

    /// Tries to make groups one. It is false where nothing is left to be tried.
    fn round(&mut self, standing: &mut Standing<'_>) -> Result<bool, AllocError> {
        let borders = standing.open_borders()?;
        let pairs = self.merge_pairs(standing, &borders)?;
        if pairs || self.is_spent(standing) {
            return Ok(pairs && !self.is_spent(standing));
        }
        if self.merge_several(standing, &borders)? {
            return Ok(!self.is_spent(standing));
        }
        if !self.is_held {
            self.is_held = true;
            standing.refresh();
            return Ok(true);
        }
        self.widen();
        Ok(!borders.is_empty() && self.limit <= self.allowed)
    }

    /// Allows larger trees, and forgets what was refused for want of room.
    fn widen(&mut self) {
        self.limit = self.limit.saturating_mul(4);
        self.refused
            .retain(|refused| refused.trial == Trial::Refused);
    }

    /// Whether no decisions or nodes are left.
    fn is_spent(&self, standing: &Standing<'_>) -> bool {
        standing.tried() > self.tries || standing.groups.nodes().saturating_add(2) > self.allowed
    }

    /// Tries each two groups with a border, those that gain most first, and each group once.
    fn merge_pairs(
        &mut self,
        standing: &mut Standing<'_>,
        borders: &[Border],
    ) -> Result<bool, AllocError> {
        self.free_all(standing)?;
        let mut any = false;
        for border in borders {
            if self.is_spent(standing) {
                return Ok(any);
            }
            let ids = [border.one, border.two];
            if self.is_busy(border.one) || self.is_busy(border.two) || self.is_refused(&ids) {
                continue;
            }
            self.take_up(&ids);
            any = self.merge(standing, &ids)? || any;
        }
        Ok(any)
    }

    /// Tries some groups as one, and notes it where that is refused.
    fn merge(&mut self, standing: &mut Standing<'_>, ids: &[usize]) -> Result<bool, AllocError> {
        let trial = standing.try_merge(ids, self.limit, self.allowed)?;
        if trial == Trial::Merged {
            return Ok(true);
        }
        self.refused.push(Refused {
            ids: Vec::from_slice(self.alloc, ids)?,
            trial,
        })?;
        Ok(false)
    }

    /// Tries each group with several neighbours at once, those with the largest gap first.
    fn merge_several(
        &mut self,
        standing: &mut Standing<'_>,
        borders: &[Border],
    ) -> Result<bool, AllocError> {
        self.free_all(standing)?;
        let mut any = false;
        for group in &self.by_gap(standing)? {
            if self.is_spent(standing) {
                return Ok(any);
            }
            any = self.merge_around(standing, *group, borders)? || any;
        }
        Ok(any)
    }

    /// Tries a group with several neighbours at once, where two at least are free.
    fn merge_around(
        &mut self,
        standing: &mut Standing<'_>,
        group: usize,
        borders: &[Border],
    ) -> Result<bool, AllocError> {
        let ids = self.with_neighbours(group, borders)?;
        if self.is_busy(group) || ids.len() < 3 || self.is_refused(&ids) {
            return Ok(false);
        }
        let merged = self.merge(standing, &ids)?;
        if merged {
            self.take_up(&ids);
        }
        Ok(merged)
    }

    /// The groups with a gap, those with the largest first.
    pub fn by_gap(&self, standing: &Standing<'_>) -> Result<Vec<usize>, AllocError> {
        let mut order = Vec::new(self.alloc);
        for group in 0..standing.groups.list.len() {
            let gap = standing.groups.gap(group);
            if gap > 0 {
                order.push((Cost::MAX.saturating_sub(gap), group))?;
            }
        }
        order.sort_unstable();
        groups_of(self.alloc, &order)
    }

    /// A group and the neighbours that are free and gain most with it, in ascending order.
    fn with_neighbours(&self, group: usize, borders: &[Border]) -> Result<Vec<usize>, AllocError> {
        let mut ids = Vec::new(self.alloc);
        ids.push(group)?;
        for border in borders {
            if ids.len() <= SEVERAL {
                match neighbour(border, group) {
                    Some(other) if !self.is_busy(other) => ids.push(other)?,
                    _ => {}
                }
            }
        }
        ids.sort_unstable();
        Ok(ids)
    }

    fn free_all(&mut self, standing: &Standing<'_>) -> Result<(), AllocError> {
        self.busy.clear();
        self.busy.resize(standing.groups.list.len(), false)
    }

    fn is_busy(&self, group: usize) -> bool {
        self.busy.get(group).copied().unwrap_or(true)
    }

    fn take_up(&mut self, ids: &[usize]) {
        for id in ids {
            if let Some(flag) = self.busy.get_mut(*id) {
                *flag = true;
            }
        }
    }

    fn is_refused(&self, ids: &[usize]) -> bool {
        self.refused
            .iter()
            .any(|refused| refused.ids.as_slice() == ids)
    }

    /// Spends the nodes that are left on open parts, those first that may gain most for each node.
    pub fn finish(&self, standing: &mut Standing<'_>) -> Result<(), AllocError> {
        for _ in 0..self.allowed {
            let room = self.room(standing);
            let Some(group) = self.most_open(standing) else {
                return Ok(());
            };
            let before = standing.size(group);
            let more = (before / 4).max(8).min(room);
            standing.grow(group, before.saturating_add(more))?;
            if standing.size(group) == before || room < 2 {
                return Ok(());
            }
        }
        Ok(())
    }

    /// How many nodes more all trees may have.
    pub fn room(&self, standing: &Standing<'_>) -> usize {
        self.allowed.saturating_sub(standing.groups.nodes())
    }

    /// The open group with the largest gap for each node.
    fn most_open(&self, standing: &Standing<'_>) -> Option<usize> {
        let mut most: Option<(Cost, usize)> = None;
        for group in 0..standing.groups.list.len() {
            if standing.is_open(group) {
                let nodes = Cost::from(standing.size(group).max(1) as u64);
                let gain = standing.groups.gap(group).checked_div(nodes).unwrap_or(0);
                most = match most {
                    Some((best, other)) if best >= gain => Some((best, other)),
                    _ => Some((gain, group)),
                };
            }
        }
        most.map(|found| found.1)
    }
}

/// Groups, without that by which they are in order.
fn groups_of(alloc: Global, order: &[(Cost, usize)]) -> Result<Vec<usize>, AllocError> {
    let mut groups = Vec::new(alloc);
    for (_gap, group) in order {
        groups.push(*group)?;
    }
    Ok(groups)
}

/// The group at the other end of a border.
fn neighbour(border: &Border, group: usize) -> Option<usize> {
    if border.one == group {
        Some(border.two)
    } else if border.two == group {
        Some(border.one)
    } else {
        None
    }
}

impl Standing<'_> {
    /// Has borders lead to the groups that live.
    fn follow_borders(&mut self) -> Result<(), AllocError> {
        let mut borders = Borders::new(self.alloc);
        for border in self.borders.list() {
            let one = self.groups.living(border.one);
            let two = self.groups.living(border.two);
            borders.add(one, two, border.gain)?;
        }
        self.borders = borders;
        Ok(())
    }

    /// The borders of which a group has a gap.
    fn open_borders(&self) -> Result<Vec<Border>, AllocError> {
        let mut open = Vec::new(self.alloc);
        for border in self.borders.list() {
            if self.groups.gap(border.one) > 0 || self.groups.gap(border.two) > 0 {
                open.push(*border)?;
            }
        }
        Ok(open)
    }

    /// Whether nobody has looked at a group yet. From now on somebody has.
    fn take_fresh(&mut self, group: usize) -> bool {
        match self.groups.list.get_mut(group) {
            Some(group) => {
                let is_fresh = group.is_fresh;
                group.is_fresh = false;
                is_fresh
            }
            None => false,
        }
    }

    /// Has all groups looked at again.
    fn refresh(&mut self) {
        for group in self.groups.list.iter_mut() {
            group.is_fresh = true;
        }
    }
}
