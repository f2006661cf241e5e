//! Some terms of the cost.
ghost use Rattle.std.specs.Prelude.{◌<◌, length};
ghost use Rattle.dm_evaluate.specs.Evaluator.{IsEvaluatorOf};

use crate::choices::{Choices, Side};
use dm_base::{ActKind, Cost, EventKind, Milli, Secs};
use dm_evaluate::Evaluator;
use dm_network::Network;
use std::alloc::{AllocError, Global};

/// An arrival whose lateness counts.
#[derive(Clone, Copy)]
pub struct Arrival {
    /// The place of the event.
    pub event: usize,

    /// When it is scheduled, in seconds.
    pub due: Secs,

    /// Thousandths of passengers.
    pub weight: Milli,
}

/// A change that counts where it is dropped or missed.
#[derive(Clone, Copy)]
pub struct Connection {
    /// The place of the activity.
    pub act: usize,

    /// The number of its choice, or none where its head has passed.
    pub number: Option<usize>,

    /// Thousandths of passengers.
    pub weight: Milli,
}

/// Some terms of the cost.
pub struct Share {
    pub arrivals: Vec<Arrival>,
    pub connections: Vec<Connection>,
}

impl Drop for Share {
    fn drop(self) {
        let Share {
            arrivals: _,
            connections: _,
        } = self;
    }
}

impl Share {
    /// No terms.
    pub fn new(alloc: Global) -> Share {
        Share {
            arrivals: Vec::new(alloc),
            connections: Vec::new(alloc),
        }
    }

    /// All terms that may cost something and that choices may move, where an evaluator has left these choices open.
    pub fn of_all(
        alloc: Global,
        net: &Network,
        evaluator: &Evaluator,
        choices: &Choices,
    ) -> Result<Share, AllocError>
        requires { IsEvaluatorOf net.now evaluator.now }
    {
        let mut share = Share::new(alloc);
        share.add_arrivals(net)?;
        share.add_choices(net, choices)?;
        share.add_passed(net, evaluator)?;
        Ok(share)
    }

    fn add_arrivals(&mut self, net: &Network) -> Result<(), AllocError> {
        for i in 0..net.events() {
            let event = net.event(i);
            if matches!(event.kind, EventKind::Arrival) && event.weight > 0 {
                self.arrivals.push(Arrival {
                    event: i,
                    due: event.time,
                    weight: event.weight,
                })?;
            }
        }
        Ok(())
    }

    /// Adds the changes that are free choices.
    fn add_choices(&mut self, net: &Network, choices: &Choices) -> Result<(), AllocError> {
        for number in 0..choices.len() {
            if let Some(act) = choices.dropped(number, Side::Second) {
                self.add_connection(net, act, Some(number))?;
            }
        }
        Ok(())
    }

    /// Adds the changes whose heads have passed.
    fn add_passed(&mut self, net: &Network, evaluator: &Evaluator) -> Result<(), AllocError>
        requires { IsEvaluatorOf net.now evaluator.now }
    {
        for a in 0..net.activities() {
            if has_passed(net, evaluator, a) {
                self.add_connection(net, a, None)?;
            }
        }
        Ok(())
    }

    fn add_connection(
        &mut self,
        net: &Network,
        act: usize,
        number: Option<usize>,
    ) -> Result<(), AllocError> {
        if act < net.activities() && net.activity(act).weight > 0 {
            self.connections.push(Connection {
                act,
                number,
                weight: net.activity(act).weight,
            })?;
        }
        Ok(())
    }

    /// Adds the terms of another share.
    pub fn take_in(&mut self, other: &Share) -> Result<(), AllocError> {
        self.arrivals.extend_from_slice(&other.arrivals)?;
        self.connections.extend_from_slice(&other.connections)
    }
}

/// Whether an activity is a change whose head has passed.
fn has_passed(net: &Network, evaluator: &Evaluator, a: usize) -> bool
    requires evaluator { IsEvaluatorOf net.now evaluator.now }
    requires is_activity { a < length net.now.activities }
{
    net.reveal();
    let activity = net.activity(a);
    matches!(activity.kind, ActKind::Change) && evaluator.rows().passed(activity.head).is_some()
}

/// What an arrival at a time costs passengers of a weight.
pub fn lateness_cost(weight: Milli, time: Secs, due: Secs) -> Cost {
    let late = Cost::from(time.saturating_sub(due));
    Cost::from(weight).saturating_mul(late)
}
