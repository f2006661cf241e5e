//! Changes of an engine.

use crate::messages::{Said, messages_of};
use crate::networks::network_named;
use dm_base::Cost;
use dm_graph::search::Cyclic;
use dm_network::Network;
use dm_propagate::Engine;
use dm_rows::{Message, admit};
use dm_samples::{Case, Failure, rows_on_time, update};
use dm_times::{cost, least};
use std::alloc::Global;
use std::marker::Model;

/// Seconds for each passenger.
const PENALTY: u64 = 3_600;

/// An engine with its network.
#[derive(Drop)]
struct Day<'n> {
    net: &'n Network,
    engine: Engine,
}

impl<'n> Model for Day<'n> {
    ghost use Rattle.dm_propagate.specs.Engine.{EngineValue, IsEngineOf};

    ghost Value = { EngineValue };

    ghost view = { λ day. day.engine };

    ghost invariant = { λ day. IsEngineOf day.net.now day.engine };
}

impl<'n> Day<'n> {
    /// The day on time.
    fn new(alloc: Global, net: &'n Network) -> Result<Day<'n>, Failure> {
        let rows = rows_on_time(alloc, net)?;
        match Engine::new(alloc, net, rows) {
            Ok(engine) => Ok(Day { net, engine }),
            Err(_) => Err(Failure::NoDay),
        }
    }

    /// Makes the change that comes behind so many others. None is refused.
    fn change(&mut self, alloc: Global, message: &Message, turn: u64) -> Result<(), Failure> {
        let Ok(change) = admit(alloc, self.net, self.engine.rows(), message) else {
            return Err(Failure::NoDay);
        };
        match update(&mut self.engine, self.net, &change) {
            Ok(()) => Ok(()),
            Err(Cyclic) => Err(Failure::Differs(turn.min(1_000_000_000) as u32)),
        }
    }

    /// The cost, which is that from scratch.
    fn cost(&self, alloc: Global) -> Result<Cost, Failure> {
        let rows = self.engine.rows();
        let Ok(times) = least(alloc, self.net, rows) else {
            return Err(Failure::OutOfMemory);
        };
        let kept = self.engine.cost(self.net, PENALTY);
        let due = cost(self.net, rows, &times, PENALTY);
        if times.as_slice() == self.engine.times().as_slice() && due == kept {
            Ok(kept)
        } else {
            Err(Failure::Differs(0))
        }
    }
}

/// What the day costs after so many changes, and those before and behind them.
pub fn told_of_changes(alloc: Global, case: &Case<'_>, count: u64) -> Result<String, Failure> {
    let said = Said::of(case);
    let net = network_named(alloc, case.word(1))?;
    let mut day = Day::new(alloc, &net)?;
    change_all(alloc, &mut day, &messages_of(alloc, said.first)?)?;
    change_in_turn(alloc, &mut day, &messages_of(alloc, said.turn)?, count)?;
    change_all(alloc, &mut day, &messages_of(alloc, said.last)?)?;
    let cost = day.cost(alloc)?;
    Ok(format!(in alloc; "cost {cost}")?)
}

fn change_all(alloc: Global, day: &mut Day<'_>, messages: &[Message]) -> Result<(), Failure> {
    for message in messages {
        day.change(alloc, message, 0)?;
    }
    Ok(())
}

/// Makes so many changes, by these messages in turn.
fn change_in_turn(
    alloc: Global,
    day: &mut Day<'_>,
    messages: &[Message],
    count: u64,
) -> Result<(), Failure> {
    let mut place: usize = 0;
    for turn in 0..count {
        let Some(message) = messages.get(place) else {
            return Ok(());
        };
        day.change(alloc, message, turn)?;
        place = place.saturating_add(1);
        if place == messages.len() {
            place = 0;
        }
    }
    Ok(())
}
