//! What belongs together whatever is chosen: the events that drives and waits join.

use dm_base::{ActKind, Secs};
use dm_network::Network;
use std::alloc::{AllocError, Global};

/// The atom of each event, by number from 0.
pub struct Atoms {
    of: Vec<usize>,
    many: usize,
}

impl Drop for Atoms {
    fn drop(self) {
        let Atoms { of: _, many: _ } = self;
    }
}

impl Atoms {
    /// No atoms of no events.
    pub fn none(alloc: Global) -> Atoms {
        Atoms {
            of: Vec::new(alloc),
            many: 0,
        }
    }

    /// The atoms of a network: each run of a train is one, or where legs are counted, each so many of its legs.
    pub fn of(alloc: Global, net: &Network, legs: Option<usize>) -> Result<Atoms, AllocError> {
        let mut forest = Forest::new(alloc, net.events())?;
        let mut steps = vec![in alloc; 0_usize; net.events()]?;
        for (_when, a) in &by_time(alloc, net)? {
            if *a < net.activities() {
                let activity = net.activity(*a);
                let step = step_along(&mut steps, activity.tail, activity.head);
                if !is_cut(activity.kind, step, legs) {
                    forest.join(activity.tail, activity.head);
                }
            }
        }
        forest.numbered(alloc)
    }

    /// How many there are.
    pub fn len(&self) -> usize {
        self.many
    }

    /// The atom of an event.
    pub fn at(&self, event: usize) -> usize {
        self.of.get(event).copied().unwrap_or(0)
    }
}

/// The drives and waits, with the time for which their heads are scheduled, in that order.
fn by_time(alloc: Global, net: &Network) -> Result<Vec<(Secs, usize)>, AllocError> {
    net.reveal();
    let mut order = Vec::new(alloc);
    for a in 0..net.activities() {
        let activity = net.activity(a);
        if matches!(activity.kind, ActKind::Drive | ActKind::Wait) {
            order.push((net.event(activity.head).time, a))?;
        }
    }
    order.sort_unstable();
    Ok(order)
}

/// How many steps a train has made at the head of a drive or wait, where that is known of the tail.
fn step_along(steps: &mut [usize], tail: usize, head: usize) -> usize {
    let step = steps.get(tail).copied().unwrap_or(0).saturating_add(1);
    if let Some(slot) = steps.get_mut(head) {
        *slot = step;
    }
    step
}

/// Whether a train is cut at a wait behind so many steps: a leg has two.
fn is_cut(kind: ActKind, step: usize, legs: Option<usize>) -> bool {
    match (kind, legs) {
        (ActKind::Wait, Some(legs)) => (step / 2).checked_rem(legs) == Some(0),
        _ => false,
    }
}

/// Trees of things that belong together, each thing with one that stands for it, and roots with themselves.
pub struct Forest {
    up: Vec<usize>,
}

impl Drop for Forest {
    fn drop(self) {
        let Forest { up: _ } = self;
    }
}

impl Forest {
    /// So many things, of which no two belong together.
    pub fn new(alloc: Global, many: usize) -> Result<Forest, AllocError> {
        let mut up = Vec::new(alloc);
        for i in 0..many {
            up.push(i)?;
        }
        Ok(Forest { up })
    }

    fn up(&self, i: usize) -> usize {
        self.up.get(i).copied().unwrap_or(i)
    }

    /// What stands for a thing. The way there becomes shorter.
    pub fn root(&mut self, i: usize) -> usize {
        let mut at = i;
        for _ in 0..self.up.len() {
            let above = self.up(at);
            if above == at {
                return at;
            }
            let next = self.up(above);
            self.set(at, next);
            at = next;
        }
        at
    }

    fn set(&mut self, i: usize, above: usize) {
        if let Some(slot) = self.up.get_mut(i) {
            *slot = above;
        }
    }

    /// Has two things belong together. The lesser root stands for both.
    pub fn join(&mut self, one: usize, other: usize) {
        let (a, b) = (self.root(one), self.root(other));
        self.set(a.max(b), a.min(b));
    }

    /// Numbers what belongs together, in the order of the first things.
    fn numbered(&mut self, alloc: Global) -> Result<Atoms, AllocError> {
        let mut numbers: Vec<Option<usize>> = vec![in alloc; None; self.up.len()]?;
        let mut of = Vec::new(alloc);
        let mut many = 0_usize;
        for i in 0..self.up.len() {
            let root = self.root(i);
            let number = number_at(&mut numbers, root, &mut many);
            of.push(number)?;
        }
        Ok(Atoms { of, many })
    }
}

/// The number at a place, which is the next one where there is none yet.
fn number_at(numbers: &mut [Option<usize>], place: usize, many: &mut usize) -> usize {
    let Some(slot) = numbers.get_mut(place) else {
        return 0;
    };
    if let Some(number) = *slot {
        return number;
    }
    let number = *many;
    *slot = Some(number);
    *many = number.saturating_add(1);
    number
}
