//! The free choices, by number.
ghost use Rattle.std.specs.Prelude.{◌<◌, length};
ghost use Rattle.dm_evaluate.specs.Evaluator.{IsEvaluatorOf};

use dm_base::ActKind;
use dm_evaluate::Evaluator;
use dm_network::Network;
use dm_rows::{Choice, Decision, choice_of_pair};
use std::alloc::{AllocError, Global};

/// A side of a choice: a change is kept or dropped, and of a pair the small or the large event is first. First comes the side
/// of a choice's first child.
#[derive(Clone, Copy, PartialEq, Eq)]
pub enum Side {
    First,
    Second,
}

impl Side {
    pub fn other(self) -> Side {
        match self {
            Side::First => Side::Second,
            Side::Second => Side::First,
        }
    }

    /// The first side where it is so, and else the second.
    fn when(is_first: bool) -> Side {
        if is_first { Side::First } else { Side::Second }
    }

    /// Which of the two rows of a choice's activities is this side's.
    fn row(self, number: usize) -> usize {
        let first = number.saturating_mul(2);
        match self {
            Side::First => first,
            Side::Second => first.saturating_add(1),
        }
    }
}

/// A free choice.
#[derive(Clone, Copy)]
pub struct FreeChoice {
    pub choice: Choice,

    /// The side that the rows have.
    pub own: Side,

    /// The tail and the head of a change, or the two events of a pair.
    pub tail: usize,
    pub head: usize,
}

/// What binds on a side: the row of the side, and the place of an activity.
type Bound = (usize, usize);

/// The choices that an evaluator leaves open, changes first, each in ascending place, and which activities bind on which side.
pub struct Choices {
    list: Vec<FreeChoice>,

    /// The activities in rows, two for each choice, and where each row begins.
    acts: Vec<usize>,
    starts: Vec<usize>,
}

impl Drop for Choices {
    fn drop(self) {
        let Choices {
            list: _,
            acts: _,
            starts: _,
        } = self;
    }
}

impl Choices {
    /// The choices that an evaluator of the network leaves open.
    pub fn of(alloc: Global, net: &Network, evaluator: &Evaluator) -> Result<Choices, AllocError>
        requires { IsEvaluatorOf net.now evaluator.now }
    {
        let mut list = Vec::new(alloc);
        let mut bound = Vec::new(alloc);
        let mut numbers = Vec::new(alloc);
        add_changes(net, evaluator, &mut list, &mut bound)?;
        add_pairs(net, evaluator, &mut list, &mut numbers)?;
        add_headways(net, &list, &numbers, &mut bound)?;
        bound.sort_unstable();
        Ok(Choices {
            starts: starts_of(alloc, &bound, list.len().saturating_mul(2))?,
            acts: acts_of(alloc, &bound)?,
            list,
        })
    }

    pub fn len(&self) -> usize {
        self.list.len()
    }

    /// The choice of a number.
    pub fn get(&self, number: usize) -> Option<FreeChoice> {
        self.list.get(number).copied()
    }

    /// The change that is charged for on a side of a choice, if it is one that drops a change.
    pub fn dropped(&self, number: usize, side: Side) -> Option<usize> {
        match (self.list.get(number), side) {
            (Some(free), Side::Second) if matches!(free.choice, Choice::Change(_)) => {
                self.binding(number, Side::First).first().copied()
            }
            _ => None,
        }
    }

    /// What binds on a side of a choice.
    pub fn binding(&self, number: usize, side: Side) -> &[usize] {
        let row = side.row(number);
        let from = self.starts.get(row).copied().unwrap_or(0);
        let to = self.starts.get(row.saturating_add(1)).copied();
        self.acts.get(from..to.unwrap_or(0)).unwrap_or(&[])
    }
}

fn add_changes(
    net: &Network,
    evaluator: &Evaluator,
    list: &mut Vec<FreeChoice>,
    bound: &mut Vec<Bound>,
) -> Result<(), AllocError>
    requires { IsEvaluatorOf net.now evaluator.now }
{
    for a in 0..net.activities() {
        if let Some(free) = free_change(net, evaluator, a) {
            bound.push((Side::First.row(list.len()), a))?;
            list.push(free)?;
        }
    }
    Ok(())
}

/// The choice of an activity, if it is a change that is open.
fn free_change(net: &Network, evaluator: &Evaluator, a: usize) -> Option<FreeChoice>
    requires evaluator { IsEvaluatorOf net.now evaluator.now }
    requires is_activity { a < length net.now.activities }
{
    let activity = net.activity(a);
    let choice = Choice::Change(activity.id);
    if !matches!(activity.kind, ActKind::Change) || !evaluator.is_open(net, choice) {
        return None;
    }
    Some(FreeChoice {
        choice,
        own: Side::when(evaluator.rows().kept(a)),
        tail: activity.tail,
        head: activity.head,
    })
}

/// Adds the pairs that are open, and the number of each pair's choice.
fn add_pairs(
    net: &Network,
    evaluator: &Evaluator,
    list: &mut Vec<FreeChoice>,
    numbers: &mut Vec<Option<usize>>,
) -> Result<(), AllocError>
    requires { IsEvaluatorOf net.now evaluator.now }
{
    for p in 0..net.pairs() {
        match free_pair(net, evaluator, p) {
            Some(free) => {
                numbers.push(Some(list.len()))?;
                list.push(free)?;
            }
            None => numbers.push(None)?,
        }
    }
    Ok(())
}

/// The choice of a pair, if it is open.
fn free_pair(net: &Network, evaluator: &Evaluator, p: usize) -> Option<FreeChoice>
    requires evaluator { IsEvaluatorOf net.now evaluator.now }
    requires is_pair { p < length net.now.pairs }
{
    let choice = choice_of_pair(net, p);
    if !evaluator.is_open(net, choice) {
        return None;
    }
    let pair = net.pair(p);
    Some(FreeChoice {
        choice,
        own: Side::when(evaluator.rows().small_first(p)),
        tail: pair.small,
        head: pair.large,
    })
}

/// Adds the headways of the pairs that are open, each to the side whose event it leaves.
fn add_headways(
    net: &Network,
    list: &[FreeChoice],
    numbers: &[Option<usize>],
    bound: &mut Vec<Bound>,
) -> Result<(), AllocError> {
    for a in 0..net.activities() {
        let activity = net.activity(a);
        let pair = activity.pair.and_then(|p| numbers.get(p).copied());
        if let Some(Some(number)) = pair {
            let small = list.get(number).map(|free| free.tail);
            let side = Side::when(small == Some(activity.tail));
            bound.push((side.row(number), a))?;
        }
    }
    Ok(())
}

fn acts_of(alloc: Global, bound: &[Bound]) -> Result<Vec<usize>, AllocError> {
    let mut acts = Vec::new(alloc);
    for (_row, act) in bound {
        acts.push(*act)?;
    }
    Ok(acts)
}

/// Where each of so many rows begins, and where the last one ends.
fn starts_of(alloc: Global, bound: &[Bound], rows: usize) -> Result<Vec<usize>, AllocError> {
    let mut starts: Vec<usize> = Vec::new(alloc);
    starts.resize(rows.saturating_add(1), 0)?;
    for (row, _act) in bound {
        if let Some(many) = starts.get_mut(row.saturating_add(1)) {
            *many = many.saturating_add(1);
        }
    }
    add_up(&mut starts);
    Ok(starts)
}

/// Has each number be the sum of itself and all before it.
fn add_up(numbers: &mut [usize]) {
    let mut sum = 0_usize;
    for number in numbers.iter_mut() {
        sum = sum.saturating_add(*number);
        *number = sum;
    }
}

/// The decision for a side of a choice.
pub fn decision_for(choice: Choice, side: Side) -> Decision {
    match side {
        Side::First => choice.first(),
        Side::Second => choice.second(),
    }
}
