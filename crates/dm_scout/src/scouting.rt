//! A path that is tried, and the choices that its times violate.

use crate::choices::{Choices, Side, decision_for};
use crate::moving::{Mover, entering, leaving};
use crate::noting::{Moved, Moves, Numbers, Once};
use crate::places::{NOWHERE, Place};
use dm_base::{Cost, Secs};
use dm_network::Network;
use dm_rows::{Choice, Decision};
use std::alloc::{AllocError, Global};

/// A path, of which choices are known by number. After each move it looks again at the choices of the events that have moved
/// and at no others.
pub struct Scout<'a> {
    alloc: Global,
    mover: Mover<'a>,

    /// The decisions with which every path begins.
    base: &'a [Decision],
    choices: Choices,

    /// The side on which each choice is decided.
    sides: Vec<Option<Side>>,

    /// The time of each event when it was last looked at.
    seen: Vec<Secs>,

    /// The undecided choices that are violated, and the place of each choice among them.
    violated: Vec<usize>,
    places: Vec<Place>,

    /// Choices and events that are to be looked at again, and the choices that were judged since the times were settled last.
    stale: Vec<usize>,
    pending: Vec<usize>,
    judged: Once,

    /// What has moved since [`Scout::forget`], and since [`Scout::begin`].
    near: Moves,
    far: Moves,

    /// The choices that were decided or undecided since [`Scout::begin`], with their sides before.
    once: Once,
    turned: Vec<Turned>,

    /// The choices that have become violated, or are so no more.
    changed: Numbers,

    /// The choices at events that have moved.
    touched: Numbers,

    /// What the path costs, where it is known.
    cost: Option<Cost>,

    /// How many decisions were made or tried.
    tried: u64,
}

impl Drop for Scout<'_> {
    fn drop(self) {
        let Scout {
            alloc: _,
            mover: _,
            base: _,
            choices: _,
            sides: _,
            seen: _,
            violated: _,
            places: _,
            stale: _,
            pending: _,
            judged: _,
            near: _,
            far: _,
            once: _,
            turned: _,
            changed: _,
            touched: _,
            cost: _,
            tried: _,
        } = self;
    }
}

/// A choice, and the side that it had before.
#[derive(Clone, Copy)]
pub struct Turned {
    pub number: usize,
    pub before: Option<Side>,
}

impl<'a> Scout<'a> {
    /// A scout at the root, which has looked at nothing.
    pub fn new(
        alloc: Global,
        mover: Mover<'a>,
        base: &'a [Decision],
        choices: Choices,
    ) -> Scout<'a> {
        Scout {
            alloc,
            mover,
            base,
            choices,
            sides: Vec::new(alloc),
            seen: Vec::new(alloc),
            violated: Vec::new(alloc),
            places: Vec::new(alloc),
            stale: Vec::new(alloc),
            pending: Vec::new(alloc),
            judged: Once::new(alloc),
            near: Moves::new(alloc),
            far: Moves::new(alloc),
            once: Once::new(alloc),
            turned: Vec::new(alloc),
            changed: Numbers::new(alloc),
            touched: Numbers::new(alloc),
            cost: None,
            tried: 0,
        }
    }

    /// Looks at all choices and all events for the first time.
    pub fn look_at_all(&mut self) -> Result<(), AllocError> {
        self.mover.settle();
        self.near.extend(self.mover.net().events())?;
        self.far.extend(self.mover.net().events())?;
        self.once.extend(self.choices.len())?;
        self.judged.extend(self.choices.len())?;
        self.changed.extend(self.choices.len())?;
        self.touched.extend(self.choices.len())?;
        self.see_events()?;
        self.leave_undecided()?;
        self.judge_all()
    }

    fn see_events(&mut self) -> Result<(), AllocError> {
        self.seen.reserve(self.mover.net().events())?;
        for event in 0..self.mover.net().events() {
            self.seen.push(self.mover.time(event))?;
        }
        Ok(())
    }

    fn leave_undecided(&mut self) -> Result<(), AllocError> {
        self.sides.resize(self.choices.len(), None)?;
        self.places.resize(self.choices.len(), NOWHERE)
    }

    fn judge_all(&mut self) -> Result<(), AllocError> {
        for i in 0..self.choices.len() {
            self.judge(i)?;
        }
        Ok(())
    }

    pub fn choices(&self) -> &Choices {
        &self.choices
    }

    /// The decisions with which every path begins, and then those that were made behind them, by number.
    pub fn path(&self) -> Result<Vec<Decision>, AllocError> {
        let mut path = Vec::from_slice(self.alloc, self.base)?;
        path.extend_from_slice(&self.decisions()?)?;
        Ok(path)
    }

    /// The decisions that were made behind the base, by number.
    pub fn decisions(&self) -> Result<Vec<Decision>, AllocError> {
        let mut decisions = Vec::new(self.alloc);
        for i in 0..self.choices.len() {
            if let (Some(choice), Some(side)) = (self.choices.choice(i), self.side(i)) {
                decisions.push(decision_for(choice, side))?;
            }
        }
        Ok(decisions)
    }

    /// What the path costs when relaxed.
    pub fn cost(&mut self) -> Cost {
        if let Some(cost) = self.cost {
            return cost;
        }
        let cost = self.mover.cost();
        self.cost = Some(cost);
        cost
    }

    /// The undecided choices that are violated, in no order.
    pub fn violated(&mut self) -> Result<&[usize], AllocError> {
        self.catch_up()?;
        Ok(&self.violated)
    }

    /// The violated choice that comes first.
    pub fn first_violated(&mut self) -> Result<Option<usize>, AllocError> {
        self.catch_up()?;
        let mut first = None;
        for i in &self.violated {
            first = match first {
                Some(j) if j < *i => Some(j),
                _ => Some(*i),
            };
        }
        Ok(first)
    }

    /// The place of a choice among the violated ones.
    fn place(&self, i: usize) -> Option<usize> {
        match self.places.get(i) {
            Some(place) => place.get(),
            None => None,
        }
    }

    /// Whether a choice was violated when all was looked at last.
    pub fn is_violated(&self, i: usize) -> bool {
        self.place(i).is_some()
    }

    /// The choices that have become violated or are so no more since they were taken last.
    pub fn take_changed(&mut self) -> Result<Vec<usize>, AllocError> {
        self.catch_up()?;
        let changed = Vec::from_slice(self.alloc, self.changed.list())?;
        self.changed.forget();
        Ok(changed)
    }

    /// Has what is violated among what has changed.
    pub fn note_violated(&mut self) -> Result<(), AllocError> {
        self.catch_up()?;
        self.changed.add_all(&self.violated)
    }

    /// How many decisions were made or tried.
    pub fn tried(&self) -> u64 {
        self.tried
    }

    pub fn choice(&self, i: usize) -> Option<Choice> {
        self.choices.choice(i)
    }

    /// For when a choice is scheduled.
    pub fn when(&self, i: usize) -> Secs {
        match self.choices.ends(i) {
            Some(ends) => ends.when,
            None => 0,
        }
    }

    /// The side on which a choice is decided.
    pub fn side(&self, i: usize) -> Option<Side> {
        match self.sides.get(i) {
            Some(side) => *side,
            None => None,
        }
    }

    /// The sides on which all choices are decided.
    pub fn sides(&self) -> Result<Vec<Option<Side>>, AllocError> {
        Vec::from_slice(self.alloc, &self.sides)
    }

    /// Decides an undecided choice, unless that makes a cycle.
    pub fn decide(&mut self, i: usize, side: Side) -> Result<bool, AllocError> {
        self.tried = self.tried.saturating_add(1);
        if self.side(i).is_some() || !self.turn_on(i, side) {
            return Ok(false);
        }
        self.cost = None;
        self.set_side(i, Some(side))?;
        self.await_heads(i, side)?;
        Ok(true)
    }

    /// Takes back the decision of a choice.
    pub fn undecide(&mut self, i: usize) -> Result<(), AllocError> {
        let Some(side) = self.side(i) else {
            return Ok(());
        };
        self.turn_off(i, side);
        self.cost = None;
        self.set_side(i, None)?;
        self.await_heads(i, side)
    }

    /// What the path costs with one decision more, and more than anything where that makes a cycle.
    pub fn cost_with(&mut self, i: usize, side: Side) -> Cost {
        self.tried = self.tried.saturating_add(1);
        if self.side(i).is_some() || !self.turn_on(i, side) {
            return Cost::MAX;
        }
        let cost = self.mover.cost();
        self.turn_off(i, side);
        cost
    }

    /// Holds and charges for what binds on a side of a choice, unless that makes a cycle.
    fn turn_on(&mut self, i: usize, side: Side) -> bool {
        if let Some(act) = self.choices.dropped(i, side) {
            self.mover.charge(act, true);
            return true;
        }
        self.mover.hold(self.choices.binding(i, side))
    }

    /// Lets go what binds on a side of a choice, and charges for nothing.
    fn turn_off(&mut self, i: usize, side: Side) {
        if let Some(act) = self.choices.dropped(i, side) {
            self.mover.charge(act, false);
        } else {
            self.mover.release(self.choices.binding(i, side));
        }
    }

    fn set_side(&mut self, i: usize, side: Option<Side>) -> Result<(), AllocError> {
        let Some(slot) = self.sides.get_mut(i) else {
            return Ok(());
        };
        let before = *slot;
        *slot = side;
        if self.once.is_new(i) {
            self.turned.push(Turned { number: i, before })?;
        }
        Ok(())
    }

    /// Has a choice decided on a side or undecided. It is false where that makes a cycle: then it is undecided.
    pub fn set(&mut self, i: usize, side: Option<Side>) -> Result<bool, AllocError> {
        if self.side(i) == side {
            return Ok(true);
        }
        self.undecide(i)?;
        match side {
            Some(side) => self.decide(i, side),
            None => Ok(true),
        }
    }

    /// Looks at each choice that was decided or is so no more, and at each event that has moved.
    fn catch_up(&mut self) -> Result<(), AllocError> {
        if self.stale.is_empty() {
            return Ok(());
        }
        self.mover.settle();
        self.judged.forget();
        for _ in 0..u64::MAX {
            let Some(i) = self.stale.pop() else {
                break;
            };
            if self.judged.is_new(i) {
                self.judge(i)?;
            }
        }
        for _ in 0..u64::MAX {
            let Some(event) = self.pending.pop() else {
                break;
            };
            self.look_at(event)?;
        }
        Ok(())
    }

    /// Has a choice and the heads of what binds on its side looked at.
    fn await_heads(&mut self, i: usize, side: Side) -> Result<(), AllocError> {
        self.stale.push(i)?;
        let net = self.mover.net();
        for a in self.choices.binding(i, side) {
            if *a < net.activities() {
                self.pending.push(net.activity(*a).head)?;
            }
        }
        Ok(())
    }

    /// Where an event has moved, judges its choices, and has the events behind it looked at.
    fn look_at(&mut self, event: usize) -> Result<(), AllocError> {
        let time = self.mover.time(event);
        let Some(seen) = self.seen.get_mut(event) else {
            return Ok(());
        };
        let before = *seen;
        if before == time {
            return Ok(());
        }
        *seen = time;
        let moved = Moved { event, before };
        self.near.note(event, moved)?;
        self.far.note(event, moved)?;
        self.judge_entering(event)?;
        self.judge_leaving(event)
    }

    /// Judges the choices of the activities that enter an event.
    fn judge_entering(&mut self, event: usize) -> Result<(), AllocError> {
        for a in entering(self.mover.net(), event) {
            self.judge_of(*a)?;
        }
        Ok(())
    }

    /// Judges the choices of the activities that leave an event, and has the events behind it looked at that have moved too.
    fn judge_leaving(&mut self, event: usize) -> Result<(), AllocError> {
        let net = self.mover.net();
        for a in leaving(self.mover.net(), event) {
            self.judge_of(*a)?;
            if *a < net.activities() && self.has_moved(net.activity(*a).head) {
                self.pending.push(net.activity(*a).head)?;
            }
        }
        Ok(())
    }

    /// Whether an event stands elsewhere than when it was looked at last.
    fn has_moved(&self, event: usize) -> bool {
        self.seen.get(event) != Some(&self.mover.time(event))
    }

    /// Forgets which events have moved near by.
    pub fn forget(&mut self) -> Result<(), AllocError> {
        self.catch_up()?;
        self.near.forget();
        Ok(())
    }

    /// Forgets which events have moved and which choices were turned.
    pub fn begin(&mut self) -> Result<(), AllocError> {
        self.catch_up()?;
        self.far.forget();
        self.once.forget();
        self.turned.clear();
        Ok(())
    }

    /// The choices at the events that stand elsewhere than at [`Scout::forget`], in ascending order, each once.
    pub fn near(&mut self) -> Result<Vec<usize>, AllocError> {
        self.catch_up()?;
        let moved = Vec::from_slice(self.alloc, self.near.list())?;
        self.touching(&moved)
    }

    /// The choices at the events that stand elsewhere than at [`Scout::begin`], in ascending order, each once.
    pub fn far(&mut self) -> Result<Vec<usize>, AllocError> {
        self.catch_up()?;
        let moved = Vec::from_slice(self.alloc, self.far.list())?;
        self.touching(&moved)
    }

    fn touching(&mut self, moved: &[Moved]) -> Result<Vec<usize>, AllocError> {
        self.touched.forget();
        let net = self.mover.net();
        for moved in moved {
            if self.seen.get(moved.event) != Some(&moved.before) {
                self.touch(entering(net, moved.event))?;
                self.touch(leaving(net, moved.event))?;
            }
        }
        let mut numbers = Vec::from_slice(self.alloc, self.touched.list())?;
        numbers.sort_unstable();
        Ok(numbers)
    }

    fn touch(&mut self, row: &[usize]) -> Result<(), AllocError> {
        for a in row {
            if let Some(i) = self.choices.number(*a) {
                self.touched.add(i)?;
            }
        }
        Ok(())
    }

    /// The choices that do not stand as at [`Scout::begin`], with their sides there.
    pub fn turned(&self) -> Result<Vec<Turned>, AllocError> {
        let mut all = Vec::new(self.alloc);
        for turned in &self.turned {
            if self.side(turned.number) != turned.before {
                all.push(*turned)?;
            }
        }
        Ok(all)
    }

    /// Goes back to where it was at [`Scout::begin`].
    pub fn restore(&mut self) -> Result<(), AllocError> {
        let turned = self.turned()?;
        for turned in &turned {
            self.undecide(turned.number)?;
        }
        for turned in &turned {
            let _set = self.set(turned.number, turned.before)?;
        }
        Ok(())
    }

    /// The activities into an event, and those out of it.
    pub fn rows(&self, event: usize) -> (&'a [usize], &'a [usize]) {
        (
            entering(self.mover.net(), event),
            leaving(self.mover.net(), event),
        )
    }

    pub fn net(&self) -> &'a Network {
        self.mover.net()
    }

    /// Whether a choice holds the times or costs: a change is dropped, or what binds on its side is tight.
    pub fn is_binding(&mut self, i: usize) -> bool {
        let Some(side) = self.side(i) else {
            return false;
        };
        if self.choices.dropped(i, side).is_some() {
            return true;
        }
        self.mover.settle();
        for a in self.choices.binding(i, side) {
            if self.mover.is_tight(*a) {
                return true;
            }
        }
        false
    }

    /// Judges the choice to which an activity belongs.
    fn judge_of(&mut self, act: usize) -> Result<(), AllocError> {
        match self.choices.number(act) {
            Some(i) if self.judged.is_new(i) => self.judge(i),
            _ => Ok(()),
        }
    }

    /// Puts a choice among the violated ones, or takes it off.
    fn judge(&mut self, i: usize) -> Result<(), AllocError> {
        let is_unkept = self.is_unkept(i);
        match self.place(i) {
            None if is_unkept => self.add(i),
            Some(place) if !is_unkept => {
                self.take_off(i, place);
                self.changed.add(i)
            }
            _ => Ok(()),
        }
    }

    fn is_unkept(&self, i: usize) -> bool {
        if self.side(i).is_some() || !self.is_unmet(i, Side::First) {
            return false;
        }
        match self.choices.choice(i) {
            Some(Choice::Pair(_, _)) => self.is_unmet(i, Side::Second),
            Some(Choice::Change(_)) | None => true,
        }
    }

    /// Whether the times meet what binds on the first side of a choice.
    pub fn keeps_first(&mut self, i: usize) -> bool {
        self.mover.settle();
        !self.is_unmet(i, Side::First)
    }

    /// Whether the times do not meet what binds on a side.
    fn is_unmet(&self, i: usize, side: Side) -> bool {
        for a in self.choices.binding(i, side) {
            if self.mover.is_early(*a) {
                return true;
            }
        }
        false
    }

    fn add(&mut self, i: usize) -> Result<(), AllocError> {
        let place = self.violated.len();
        self.violated.push(i)?;
        self.set_place(i, Some(place));
        self.changed.add(i)
    }

    /// Takes a choice from its place, which the last one gets.
    fn take_off(&mut self, i: usize, place: usize) {
        self.set_place(i, None);
        let Some(last) = self.violated.pop() else {
            return;
        };
        if let Some(slot) = self.violated.get_mut(place) {
            *slot = last;
            self.set_place(last, Some(place));
        }
    }

    fn set_place(&mut self, i: usize, place: Option<usize>) {
        if let Some(slot) = self.places.get_mut(i) {
            *slot = Place::of_any(place);
        }
    }
}
