//! Moving the events that were reached behind the others of an interval.
ghost use Rattle.std.specs.Prelude.{◌≡◌, ◌+◌, ◌^◌, ◌<◌, ◌≤◌, length, IfOk, if◌then◌else◌};
ghost use Rattle.dm_graph.specs.Arrays.{AreRanks};
ghost use Rattle.dm_order.specs.Inside.Shifting.{failing, reached_from, AreRankedAnew, AreCopied, ArePutAnew, MayBePut, ArePut};

use std::alloc::{AllocError, Global};

/// The events in their order, the place of each, and room for an interval of the order.
pub struct Places {
    pub order: Vec<usize>,
    pub ranks: Vec<usize>,
    pub spare: Vec<usize>,
}

impl Drop for Places {
    fn drop(self) {
        let Places {
            order: _,
            ranks: _,
            spare: _,
        } = self;
    }
}

impl Places {
    /// A copy of an order and of its places, with room beside.
    pub fn copied(alloc: Global, order: &[usize], ranks: &[usize]) -> Result<Places, AllocError>
        ensures order { IfOk result (λ places. places.order.items ≡ order.now) }
        ensures ranks { IfOk result (λ places. places.ranks.items ≡ ranks.now) }
        ensures spare { IfOk result (λ places. length places.spare.items ≡ length order.now) }
    {
        let spare = vec![in alloc; 0; order.len()]?;
        Ok(Places {
            order: Vec::from_slice(alloc, order)?,
            ranks: Vec::from_slice(alloc, ranks)?,
            spare,
        })
    }

    /// Moves the events reached, of so many places from the low one on, behind the others there. Each kind stays in its
    /// order.
    pub fn shift(&mut self, causes: &[Option<usize>], low: usize, count: usize)
        requires ranked { AreRanks (length self.old.order.items) self.old.order.items self.old.ranks.items }
        requires causes { length causes.now ≡ length self.old.order.items }
        requires spare { length self.old.spare.items ≡ length self.old.order.items }
        requires within { low + count ≤ length self.old.order.items }
        requires few { length self.old.order.items + 1 < 2 ^ 64 }
        ensures ranks { AreRankedAnew (reached_from causes.now low) self.old.order.items low count count self.old.ranks.items
            self.new.ranks.items }
        ensures order { ArePutAnew (reached_from causes.now low) low count count self.old.order.items self.new.order.items }
        ensures spare { length self.new.spare.items ≡ length self.old.spare.items }
    {
        let others = unreached(causes, low, count);
        self.rank_anew(causes, low, count, others);
        self.put_anew(low, count);
    }

    /// Copies the interval, and gives its events their new places.
    fn rank_anew(&mut self, causes: &[Option<usize>], low: usize, count: usize, others: usize)
        requires ranked { AreRanks (length self.old.order.items) self.old.order.items self.old.ranks.items }
        requires causes { length causes.now ≡ length self.old.order.items }
        requires spare { length self.old.spare.items ≡ length self.old.order.items }
        requires within { low + count ≤ length self.old.order.items }
        requires few { length self.old.order.items + 1 < 2 ^ 64 }
        requires others { others ≡ failing (reached_from causes.now low) count }
        ensures ranks { AreRankedAnew (reached_from causes.now low) self.old.order.items low count count self.old.ranks.items
            self.new.ranks.items }
        ensures copied { AreCopied self.old.order.items low count self.new.spare.items }
        ensures order { self.new.order.items ≡ self.old.order.items }
        ensures as_much_spare { length self.new.spare.items ≡ length self.old.spare.items }
    {
        let mut next = Next {
            other: low,
            reached: low + others,
        };
        for i in 0..count {
            let event = self.order[low + i];
            self.spare[i] = event;
            let place = next.take(causes[low + i].is_some());
            self.ranks[event] = place;
        }
    }

    /// Puts the copied events at their places, which are those of the interval.
    fn put_anew(&mut self, low: usize, count: usize)
        requires { MayBePut low count (length self.old.order.items) self.old.ranks.items self.old.spare.items }
        ensures order { ArePut low count count self.old.ranks.items self.old.spare.items self.old.order.items self.new.order.items }
        ensures ranks { self.new.ranks.items ≡ self.old.ranks.items }
        ensures as_much_spare { length self.new.spare.items ≡ length self.old.spare.items }
    {
        for i in 0..count {
            let event = self.spare[i];
            self.order[self.ranks[event]] = event;
        }
    }
}

/// The next place of an event that was not reached, and of one that was.
#[derive(Drop)]
pub struct Next {
    pub other: usize,
    pub reached: usize,
}

impl Next {
    /// Takes the next place of one kind.
    fn take(&mut self, reached: bool) -> usize
        requires other { self.old.other + 1 < 2 ^ 64 }
        requires reached { self.old.reached + 1 < 2 ^ 64 }
        ensures place { result ≡ (if reached then self.old.reached else self.old.other) }
        ensures other { self.new.other ≡ self.old.other + (if reached then 0 else 1) }
        ensures reached { self.new.reached ≡ self.old.reached + (if reached then 1 else 0) }
    {
        if reached {
            self.reached += 1;
            self.reached - 1
        } else {
            self.other += 1;
            self.other - 1
        }
    }
}

/// How many events of so many places from the low one on were not reached.
fn unreached(causes: &[Option<usize>], low: usize, count: usize) -> usize
    requires { low + count ≤ length causes.now }
    ensures counted { result ≡ failing (reached_from causes.now low) count }
    ensures within { result ≤ count }
{
    let mut n = 0;
    for i in 0..count {
        if causes[low + i].is_none() {
            n += 1;
        }
    }
    n
}
