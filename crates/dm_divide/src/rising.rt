//! Whose cost rises where the whole is turned.

use crate::borders::Gains;
use crate::standing::Standing;
use dm_base::{Cost, EventKind, Milli, Secs};
use dm_network::Network;
use dm_probe::{Side, lateness_cost};
use std::alloc::{AllocError, Global};

/// What groups cost more than in the plan, and what they cost less.
struct Turns {
    more: Gains,
    less: Gains,
}

impl Drop for Turns {
    fn drop(self) {
        let Turns { more: _, less: _ } = self;
    }
}

impl Turns {
    fn new(alloc: Global) -> Turns {
        Turns {
            more: Gains::new(alloc),
            less: Gains::new(alloc),
        }
    }

    /// Adds what a group costs now and did before.
    fn add(&mut self, group: usize, before: Cost, now: Cost) -> Result<(), AllocError> {
        if now > before {
            self.more.add(group, now.saturating_sub(before))
        } else {
            self.less.add(group, before.saturating_sub(now))
        }
    }
}

impl Standing<'_> {
    /// Adds borders to the groups that cost more in the whole than in the plan, where these choices were turned.
    pub fn look_at_rises(
        &mut self,
        group: usize,
        cap: Cost,
        turned: &[usize],
    ) -> Result<(), AllocError> {
        self.whole.settle();
        let mut turns = Turns::new(self.alloc);
        self.add_arrivals(&mut turns)?;
        self.add_changes(turned, &mut turns)?;
        turns.more.less(&turns.less);
        self.borders.add_all(group, &turns.more, cap)
    }

    fn add_arrivals(&self, turns: &mut Turns) -> Result<(), AllocError> {
        for (event, before) in self.times.iter().enumerate() {
            let now = self.whole.time(event);
            if now != *before {
                self.add_arrival(event, *before, now, turns)?;
            }
        }
        Ok(())
    }

    fn add_arrival(
        &self,
        event: usize,
        before: Secs,
        now: Secs,
        turns: &mut Turns,
    ) -> Result<(), AllocError> {
        let (weight, due) = counted(self.whole.net(), event);
        let was = lateness_cost(weight, before, due);
        let is = lateness_cost(weight, now, due);
        turns.add(self.groups.at(event), was, is)
    }

    fn add_changes(&self, turned: &[usize], turns: &mut Turns) -> Result<(), AllocError> {
        for number in turned {
            self.add_change(*number, turns)?;
        }
        Ok(())
    }

    fn add_change(&self, number: usize, turns: &mut Turns) -> Result<(), AllocError> {
        let choices = self.whole.choices();
        let dropped = choices.dropped(number, Side::Second);
        let (Some(act), Some(free)) = (dropped, choices.get(number)) else {
            return Ok(());
        };
        let before = self.sides.get(number).copied().flatten();
        let was = self.fee(act, before);
        let is = self.fee(act, self.whole.side(number));
        turns.add(self.groups.at(free.head), was, is)
    }

    /// What a change on a side costs by itself.
    fn fee(&self, act: usize, side: Option<Side>) -> Cost {
        let net = self.whole.net();
        if side != Some(Side::Second) || act >= net.activities() {
            return 0;
        }
        let weight = Cost::from(net.activity(act).weight);
        weight.saturating_mul(Cost::from(self.whole.penalty()))
    }
}

/// The weight with which an event's lateness counts, and when it is scheduled.
fn counted(net: &Network, event: usize) -> (Milli, Secs) {
    if event >= net.events() {
        return (0, 0);
    }
    let event = net.event(event);
    match event.kind {
        EventKind::Arrival => (event.weight, event.time),
        EventKind::Departure => (0, event.time),
    }
}
