//! A part's leaf that is put into the whole plan.

use crate::finding::planned_side;
use crate::groups::plan;
use crate::standing::Standing;
use dm_base::Cost;
use dm_branch::Part;
use dm_probe::{Side, decision_for};
use dm_rows::{Choice, Decision};
use dm_task::Polishing;
use std::alloc::{AllocError, Global};

/// How many leaves of a part are put into the plan, one after the other, and how often the choices around are looked at.
const LEAVES: usize = 4;

const PASSES: usize = 2;

/// By which part of the plan's cost the whole may be dearer where windows are opened, and how many decisions these try.
const SLACK: Cost = 50;

const TRIES: u64 = 3_000;

/// A choice, and the side on which it is to stand.
#[derive(Clone, Copy)]
struct Stand {
    number: usize,
    side: Side,
}

impl Standing<'_> {
    /// Puts the leaves of a part that tell most into the plan. Where the whole becomes cheaper, it stays so; else it is taken
    /// back, and the groups whose cost rises are noted.
    pub fn transplant<P: Polishing>(
        &mut self,
        polisher: &mut P,
        group: usize,
        part: &mut Part,
        is_held: bool,
    ) -> Result<(), AllocError> {
        for leaf in &part.leaves(LEAVES)? {
            if part.gap() > 0 {
                self.transplant_leaf(polisher, group, part, *leaf, is_held)?;
            }
        }
        Ok(())
    }

    fn transplant_leaf<P: Polishing>(
        &mut self,
        polisher: &mut P,
        group: usize,
        part: &mut Part,
        leaf: usize,
        is_held: bool,
    ) -> Result<(), AllocError> {
        let mut turned = self.turn_as_leaf(part, leaf)?;
        if is_held {
            self.blame_here(group, part)?;
        }
        part.leave(&mut self.relaxed);
        self.improve_around(group, &mut turned)?;
        self.look_at_rises(group, part.gap(), &turned)?;
        if self.may_be_cheaper(is_held) {
            self.polish(polisher, &mut turned)?;
        }
        self.settle_on(part, &turned)
    }

    /// Has a part's choices stand in the whole as at a leaf, to which the other mover goes. It gives those that stood otherwise.
    fn turn_as_leaf(&mut self, part: &mut Part, leaf: usize) -> Result<Vec<usize>, AllocError> {
        part.stand_at(&mut self.relaxed, leaf)?;
        let stands = self.differing(part)?;
        let turned = numbers_of(self.alloc, &stands)?;
        self.turn_all(&stands, &turned);
        Ok(turned)
    }

    /// Keeps the whole where it is cheaper than the plan, and else takes back what was turned.
    fn settle_on(&mut self, part: &mut Part, turned: &[usize]) -> Result<(), AllocError> {
        if self.whole.cost() < self.cost && self.all_stand(turned) {
            self.replan()?;
            return plan(part, &mut self.whole);
        }
        self.take_back(turned);
        Ok(())
    }

    /// The choices of a part that stand otherwise in the plan than at the leaf where the mover stands.
    fn differing(&self, part: &Part) -> Result<Vec<Stand>, AllocError> {
        let mut stands = Vec::new(self.alloc);
        for number in part.candidates() {
            let side = self.side_at_leaf(*number);
            if self.whole.side(*number) != Some(side) {
                stands.push(Stand {
                    number: *number,
                    side,
                })?;
            }
        }
        Ok(stands)
    }

    /// The side of a choice at the leaf, or that which the times there keep.
    fn side_at_leaf(&self, number: usize) -> Side {
        if let Some(side) = self.relaxed.side(number) {
            return side;
        }
        match self.relaxed.choices().get(number) {
            Some(free) if matches!(free.choice, Choice::Pair(_, _)) => {
                if self.relaxed.is_unmet(number, Side::First) {
                    Side::Second
                } else {
                    Side::First
                }
            }
            _ => Side::First,
        }
    }

    /// Has choices stand on their sides in the whole, or on the other where that makes a cycle.
    fn turn_all(&mut self, stands: &[Stand], numbers: &[usize]) {
        self.undecide_all(numbers);
        for stand in stands {
            self.turn(stand.number, stand.side);
        }
        self.whole.settle();
    }

    fn undecide_all(&mut self, numbers: &[usize]) {
        for number in numbers {
            self.whole.undecide(*number);
        }
    }

    fn turn(&mut self, number: usize, side: Side) {
        if !self.whole.decide(number, side) {
            let _decided = self.whole.decide(number, side.other());
        }
    }

    /// Turns choices around a group while that makes the whole cheaper.
    fn improve_around(&mut self, group: usize, turned: &mut Vec<usize>) -> Result<(), AllocError> {
        let numbers = self.groups.around_group(group)?;
        for _ in 0..PASSES {
            if !self.improve_each(&numbers, turned)? {
                return Ok(());
            }
        }
        Ok(())
    }

    fn improve_each(
        &mut self,
        numbers: &[usize],
        turned: &mut Vec<usize>,
    ) -> Result<bool, AllocError> {
        let mut any = false;
        for number in numbers {
            self.whole.settle();
            if self.whole.is_binding(*number) && self.improve(*number) {
                turned.push(*number)?;
                any = true;
            }
        }
        Ok(any)
    }

    /// Turns a choice if that makes the whole cheaper.
    fn improve(&mut self, number: usize) -> bool {
        let Some(side) = self.whole.side(number) else {
            return false;
        };
        let cost: Cost = self.whole.cost();
        self.whole.undecide(number);
        let other = self.whole.cost_with(number, side.other());
        let is_better = other < cost;
        let side = if is_better { side.other() } else { side };
        let _decided = self.whole.decide(number, side);
        is_better
    }

    /// Whether windows may make the whole cheaper than the plan: it is so already, or costs little more.
    fn may_be_cheaper(&mut self, is_held: bool) -> bool {
        let cost = self.whole.cost();
        let slack = self.cost.checked_div(SLACK).unwrap_or(0);
        cost < self.cost || (is_held && cost > self.cost && cost <= self.cost.saturating_add(slack))
    }

    /// Makes the whole cheaper near choices that were turned, and notes what else is turned.
    fn polish<P: Polishing>(
        &mut self,
        polisher: &mut P,
        turned: &mut Vec<usize>,
    ) -> Result<(), AllocError> {
        let decisions = self.decisions_of(turned)?;
        if let Some(better) = polisher.polish(&decisions, TRIES)? {
            let stands = self.differing_from(&better)?;
            let numbers = numbers_of(self.alloc, &stands)?;
            self.turn_all(&stands, &numbers);
            turned.extend_from_slice(&numbers)?;
        }
        Ok(())
    }

    /// How these choices stand in the whole.
    fn decisions_of(&self, numbers: &[usize]) -> Result<Vec<Decision>, AllocError> {
        let choices = self.whole.choices();
        let mut decisions = Vec::new(self.alloc);
        for number in numbers {
            if let (Some(free), Some(side)) = (choices.get(*number), self.whole.side(*number)) {
                decisions.push(decision_for(free.choice, side))?;
            }
        }
        Ok(decisions)
    }

    /// The choices that stand otherwise in the whole than in decisions of all choices by number.
    fn differing_from(&self, decisions: &[Decision]) -> Result<Vec<Stand>, AllocError> {
        let choices = self.whole.choices();
        let mut stands = Vec::new(self.alloc);
        for (number, decision) in decisions.iter().enumerate() {
            let planned = choices
                .get(number)
                .and_then(|free| planned_side(&free, Some(*decision)));
            if let Some(side) = planned {
                if self.whole.side(number) != Some(side) {
                    stands.push(Stand { number, side })?;
                }
            }
        }
        Ok(stands)
    }

    /// Whether each of these choices is decided in the whole.
    fn all_stand(&self, turned: &[usize]) -> bool {
        turned
            .iter()
            .all(|number| self.whole.side(*number).is_some())
    }

    /// Has these choices stand as in the plan.
    fn take_back(&mut self, turned: &[usize]) {
        self.undecide_all(turned);
        for number in turned {
            let side = self.sides.get(*number).copied().flatten();
            if let Some(side) = side {
                let _decided = self.whole.decide(*number, side);
            }
        }
    }
}

/// Which choices are to stand.
fn numbers_of(alloc: Global, stands: &[Stand]) -> Result<Vec<usize>, AllocError> {
    let mut numbers = Vec::new(alloc);
    for stand in stands {
        numbers.push(stand.number)?;
    }
    Ok(numbers)
}
