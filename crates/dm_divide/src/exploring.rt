//! What a part would gain from others.

use crate::borders::Gains;
use crate::reliefs::from_outside;
use crate::standing::Standing;
use dm_base::{Cost, Secs};
use dm_branch::Part;
use dm_probe::{FreeChoice, Side, entering};
use dm_rows::Choice;
use std::alloc::AllocError;

/// A loss that is followed back: where it is now, and how much it is.
#[derive(Clone, Copy)]
struct Loss {
    event: usize,
    loss: Cost,
}

/// From where an event is held: groups outside, or an event of its own group.
struct Causes {
    outside: Vec<usize>,
    inside: Option<usize>,
}

impl Drop for Causes {
    fn drop(self) {
        let Causes {
            outside: _,
            inside: _,
        } = self;
    }
}

impl Standing<'_> {
    /// Looks at the choices between a group and others at the leaf of its part that tells most.
    pub fn look_near(&mut self, group: usize, part: &mut Part) -> Result<(), AllocError> {
        let Some(leaf) = part.leaf() else {
            return Ok(());
        };
        let numbers = self.groups.around_group(group)?;
        self.whole.settle();
        part.stand_at(&mut self.relaxed, leaf)?;
        let gap = part.gap();
        for number in &numbers {
            if let Some(free) = self.relaxed.choices().get(*number) {
                self.look_across(group, *number, &free, gap)?;
            }
        }
        part.leave(&mut self.relaxed);
        Ok(())
    }

    /// Adds what would be gained if both ends of a choice were in one part.
    fn look_across(
        &mut self,
        group: usize,
        number: usize,
        free: &FreeChoice,
        gap: Cost,
    ) -> Result<(), AllocError> {
        let (a, b) = self.groups.ends(free);
        if a == b {
            return Ok(());
        }
        let other = if a == group { b } else { a };
        self.relaxed.settle();
        let gain = if b == group && matches!(free.choice, Choice::Change(_)) {
            let relief = self.reliefs.get(number).copied().unwrap_or(0);
            from_outside(relief, number, &self.whole, &self.relaxed)
        } else if self.relaxed.is_violated(number) {
            self.cheaper(number)
        } else {
            0
        };
        self.borders.add(group, other, gain.min(gap))
    }

    /// What the cheaper side of a choice adds to the whole cost, and at least something.
    fn cheaper(&mut self, number: usize) -> Cost {
        let cost = self.relaxed.cost();
        let first = self.relaxed.cost_with(number, Side::First);
        let second = self.relaxed.cost_with(number, Side::Second);
        first.min(second).saturating_sub(cost).max(1)
    }

    /// Adds from whom the loss comes that the whole has over the leaf of a part that tells most.
    pub fn blame(&mut self, group: usize, part: &mut Part, leaf: usize) -> Result<(), AllocError> {
        part.stand_at(&mut self.relaxed, leaf)?;
        self.blame_here(group, part)?;
        part.leave(&mut self.relaxed);
        Ok(())
    }

    /// The same where the mover stands.
    pub fn blame_here(&mut self, group: usize, part: &Part) -> Result<(), AllocError> {
        self.whole.settle();
        let mut gains = Gains::new(self.alloc);
        for loss in &self.losses(part)? {
            self.follow(group, *loss, &mut gains)?;
        }
        self.blame_drops(group, part, &mut gains)?;
        self.borders.add_all(group, &gains, part.gap())
    }

    /// Adds who makes the tails late of the part's changes that are dropped.
    fn blame_drops(&self, group: usize, part: &Part, gains: &mut Gains) -> Result<(), AllocError> {
        for loss in &self.drops(part)? {
            let outside = self.groups.at(loss.event);
            if outside == group {
                self.follow(group, *loss, gains)?;
            } else {
                gains.add(outside, loss.loss)?;
            }
        }
        Ok(())
    }

    /// The arrivals of a part that are later in the whole than where the other mover stands.
    fn losses(&self, part: &Part) -> Result<Vec<Loss>, AllocError> {
        let mut losses = Vec::new(self.alloc);
        for arrival in &part.share().arrivals {
            let later = self.whole.time(arrival.event).max(arrival.due);
            let sooner = self.relaxed.time(arrival.event).max(arrival.due);
            if later > sooner {
                let late = Cost::from(later.saturating_sub(sooner));
                losses.push(Loss {
                    event: arrival.event,
                    loss: late.saturating_mul(Cost::from(arrival.weight)),
                })?;
            }
        }
        Ok(losses)
    }

    /// The tails of a part's changes that the whole drops, and the other mover does not.
    fn drops(&self, part: &Part) -> Result<Vec<Loss>, AllocError> {
        let mut losses = Vec::new(self.alloc);
        for connection in &part.share().connections {
            if self.is_dropped_more(connection.number) {
                let penalty = Cost::from(self.whole.penalty());
                losses.push(Loss {
                    event: self.tail(connection.act),
                    loss: penalty.saturating_mul(Cost::from(connection.weight)),
                })?;
            }
        }
        Ok(losses)
    }

    fn is_dropped_more(&self, number: Option<usize>) -> bool {
        match number {
            Some(number) => {
                self.whole.side(number) == Some(Side::Second)
                    && self.relaxed.side(number) != Some(Side::Second)
            }
            None => false,
        }
    }

    fn tail(&self, act: usize) -> usize {
        let net = self.whole.net();
        if act < net.activities() {
            net.activity(act).tail
        } else {
            0
        }
    }

    /// Follows a loss back along what is tight, until it comes from other groups.
    fn follow(&self, group: usize, loss: Loss, gains: &mut Gains) -> Result<(), AllocError> {
        let mut at = loss.event;
        for _ in 0..self.whole.net().events() {
            let causes = self.causes(group, at)?;
            for outside in &causes.outside {
                gains.add(*outside, loss.loss)?;
            }
            match causes.inside {
                Some(before) if causes.outside.is_empty() => at = before,
                _ => return Ok(()),
            }
        }
        Ok(())
    }

    /// What holds an event in the whole.
    fn causes(&self, group: usize, event: usize) -> Result<Causes, AllocError> {
        let mut causes = Causes {
            outside: Vec::new(self.alloc),
            inside: None,
        };
        for act in entering(self.whole.net(), event) {
            if self.whole.is_tight(*act) {
                self.add_cause(group, self.tail(*act), &mut causes)?;
            }
        }
        Ok(causes)
    }

    fn add_cause(&self, group: usize, tail: usize, causes: &mut Causes) -> Result<(), AllocError> {
        let other = self.groups.at(tail);
        if other != group {
            causes.outside.push(other)?;
        } else if self.whole.time(tail) > self.relaxed.time(tail) {
            causes.inside = Some(tail);
        }
        Ok(())
    }
}
