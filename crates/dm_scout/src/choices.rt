//! The free choices, by number.
ghost use Rattle.std.specs.Prelude.{◌<◌, length};
ghost use Rattle.dm_evaluate.specs.Evaluator.{IsEvaluatorOf};

use crate::moving::leaving;
use crate::places::{NOWHERE, Place};
use dm_base::{ActKind, Secs};
use dm_evaluate::Evaluator;
use dm_network::Network;
use dm_paths::{ChoicePlace, place_of_choice};
use dm_rows::{Choice, Decision, choice_of_pair};
use std::alloc::{AllocError, Global};

/// A side of a choice: a change is kept or dropped, and of a pair the small or the large event is first. First comes the side
/// of a choice's first child.
#[derive(Clone, Copy, PartialEq, Eq)]
pub enum Side {
    First,
    Second,
}

impl Side {
    pub fn other(self) -> Side {
        match self {
            Side::First => Side::Second,
            Side::Second => Side::First,
        }
    }
}

/// A free choice, with the places of what binds on either side in the list of activities: from `start` to `middle` on the
/// first, and from there to `end` on the second.
#[derive(Clone, Copy)]
struct Sides {
    choice: Choice,

    /// The side that the rows have.
    own: Side,
    start: Place,
    middle: Place,
    end: Place,
    tail: Place,
    head: Place,
    when: Secs,
}

/// The tail and the head of a change, or the two events of a pair, and for when the first of them is scheduled, in seconds.
#[derive(Clone, Copy)]
pub struct Ends {
    pub tail: usize,
    pub head: usize,
    pub when: Secs,
}

/// The free choices, changes first, each in ascending place, and which activities bind on which side.
pub struct Choices {
    sides: Vec<Sides>,
    acts: Vec<usize>,

    /// The number of the choice to which an activity belongs, by place.
    numbers: Vec<Place>,

    /// The number of a pair's choice, by place of the pair.
    pair_numbers: Vec<Place>,
}

impl Drop for Choices {
    fn drop(self) {
        let Choices {
            sides: _,
            acts: _,
            numbers: _,
            pair_numbers: _,
        } = self;
    }
}

impl Choices {
    /// No choices yet.
    pub fn new(alloc: Global) -> Choices {
        Choices {
            sides: Vec::new(alloc),
            acts: Vec::new(alloc),
            numbers: Vec::new(alloc),
            pair_numbers: Vec::new(alloc),
        }
    }

    /// Takes up the choices that an evaluator leaves open, where there were none.
    pub fn fill(&mut self, net: &Network, evaluator: &Evaluator) -> Result<(), AllocError>
        requires { IsEvaluatorOf net.now evaluator.now }
    {
        self.sides.reserve(net.pairs())?;
        self.numbers.resize(net.activities(), NOWHERE)?;
        self.pair_numbers.reserve(net.pairs())?;
        self.add_changes(net, evaluator)?;
        self.add_pairs(net, evaluator)
    }

    fn add_changes(&mut self, net: &Network, evaluator: &Evaluator) -> Result<(), AllocError>
        requires { IsEvaluatorOf net.now evaluator.now }
    {
        for a in 0..net.activities() {
            self.add_change(net, evaluator, a)?;
        }
        Ok(())
    }

    fn add_pairs(&mut self, net: &Network, evaluator: &Evaluator) -> Result<(), AllocError>
        requires { IsEvaluatorOf net.now evaluator.now }
    {
        for p in 0..net.pairs() {
            self.add_pair(net, evaluator, p)?;
        }
        Ok(())
    }

    fn add_change(
        &mut self,
        net: &Network,
        evaluator: &Evaluator,
        a: usize,
    ) -> Result<(), AllocError>
        requires evaluator { IsEvaluatorOf net.now evaluator.now }
        requires is_activity { a < length net.now.activities }
    {
        let activity = net.activity(a);
        let choice = Choice::Change(activity.id);
        if !matches!(activity.kind, ActKind::Change) || !evaluator.is_open(net, choice) {
            return Ok(());
        }
        let start = self.acts.len();
        self.add_act(a)?;
        let end = self.acts.len();
        let own = side_for(evaluator.rows().kept(a));
        let ends = Ends {
            tail: activity.tail,
            head: activity.head,
            when: when_of(net, activity.tail),
        };
        self.add_sides(choice, own, [start, end, end], ends)
    }

    fn add_pair(&mut self, net: &Network, evaluator: &Evaluator, p: usize) -> Result<(), AllocError>
        requires evaluator { IsEvaluatorOf net.now evaluator.now }
        requires is_pair { p < length net.now.pairs }
    {
        let choice = choice_of_pair(net, p);
        if !evaluator.is_open(net, choice) {
            self.pair_numbers.push(NOWHERE)?;
            return Ok(());
        }
        self.pair_numbers.push(Place::of(self.sides.len()))?;
        let pair = net.pair(p);
        let (small, large) = (pair.small, pair.large);
        let start = self.acts.len();
        self.add_headways(net, p, small)?;
        let middle = self.acts.len();
        self.add_headways(net, p, large)?;
        let end = self.acts.len();
        let own = side_for(evaluator.rows().small_first(p));
        let ends = Ends {
            tail: small,
            head: large,
            when: when_of(net, small),
        };
        self.add_sides(choice, own, [start, middle, end], ends)
    }

    /// Adds a choice, whose activities begin, part and end at these places of the list.
    fn add_sides(
        &mut self,
        choice: Choice,
        own: Side,
        bounds: [usize; 3],
        ends: Ends,
    ) -> Result<(), AllocError> {
        let [start, middle, end] = bounds;
        self.sides.push(Sides {
            choice,
            own,
            start: Place::of(start),
            middle: Place::of(middle),
            end: Place::of(end),
            tail: Place::of(ends.tail),
            head: Place::of(ends.head),
            when: ends.when,
        })?;
        Ok(())
    }

    /// The headways of a pair out of one of its events.
    fn add_headways(&mut self, net: &Network, p: usize, tail: usize) -> Result<(), AllocError> {
        for a in leaving(net, tail) {
            if *a < net.activities() && net.activity(*a).pair == Some(p) {
                self.add_act(*a)?;
            }
        }
        Ok(())
    }

    /// An activity of the choice that comes next.
    fn add_act(&mut self, a: usize) -> Result<(), AllocError> {
        self.acts.push(a)?;
        if let Some(number) = self.numbers.get_mut(a) {
            *number = Place::of(self.sides.len());
        }
        Ok(())
    }

    pub fn len(&self) -> usize {
        self.sides.len()
    }

    /// The choice of a number.
    pub fn choice(&self, i: usize) -> Option<Choice> {
        match self.sides.get(i) {
            Some(sides) => Some(sides.choice),
            None => None,
        }
    }

    /// The number of the choice to which an activity belongs.
    pub fn number(&self, act: usize) -> Option<usize> {
        match self.numbers.get(act) {
            Some(number) => number.get(),
            None => None,
        }
    }

    /// The number of a choice, if it is free.
    pub fn find(&self, net: &Network, choice: Choice) -> Option<usize> {
        match place_of_choice(net, choice) {
            Some(ChoicePlace::Change(act)) => self.number(act),
            Some(ChoicePlace::Pair(pair)) => self
                .pair_numbers
                .get(pair)
                .copied()
                .and_then(Place::get),
            None => None,
        }
    }

    /// The two events of a choice.
    pub fn ends(&self, i: usize) -> Option<Ends> {
        match self.sides.get(i) {
            Some(sides) => Some(Ends {
                tail: sides.tail.index(),
                head: sides.head.index(),
                when: sides.when,
            }),
            None => None,
        }
    }

    /// The side of a choice that the rows have.
    pub fn own_side(&self, i: usize) -> Side {
        match self.sides.get(i) {
            Some(sides) => sides.own,
            None => Side::First,
        }
    }

    /// The change that is charged for on a side of a choice, if it is one that drops a change.
    pub fn dropped(&self, i: usize, side: Side) -> Option<usize> {
        match (self.choice(i), side) {
            (Some(Choice::Change(_)), Side::Second) => {
                self.binding(i, Side::First).first().copied()
            }
            _ => None,
        }
    }

    /// What binds on a side of a choice.
    pub fn binding(&self, i: usize, side: Side) -> &[usize] {
        let Some(sides) = self.sides.get(i) else {
            return &[];
        };
        let bound = match side {
            Side::First => self.acts.get(sides.start.index()..sides.middle.index()),
            Side::Second => self.acts.get(sides.middle.index()..sides.end.index()),
        };
        match bound {
            Some(acts) => acts,
            None => &[],
        }
    }
}

/// For when an event is scheduled.
fn when_of(net: &Network, event: usize) -> Secs {
    if event < net.events() {
        net.event(event).time
    } else {
        0
    }
}

/// The first side where it is so, and else the second.
fn side_for(is_first: bool) -> Side {
    if is_first { Side::First } else { Side::Second }
}

/// The decision for a side of a choice.
pub fn decision_for(choice: Choice, side: Side) -> Decision {
    match side {
        Side::First => choice.first(),
        Side::Second => choice.second(),
    }
}

/// The side of its choice that a decision takes.
pub fn side_of(decision: Decision) -> Side {
    if decision.is_first() {
        Side::First
    } else {
        Side::Second
    }
}
