//! The events of trains. Trains are numbered from 0, and so are the ten legs of each.
ghost use Rattle.std.specs.Prelude.{◌≡◌, ◌<◌, ◌≤◌, ◌++◌, OnOk, IfOk};
ghost use Rattle.dm_gen.specs.Trains.{departure_id, arrival_id, departure, arrival, events_of_train, events_of};

use dm_base::{EventId, EventKind, EventRow, StopId};
use std::alloc::{AllocError, Global};

pub(crate) fn departure_id(train: u32, leg: u32) -> EventId
    requires of_train { train < 2000 }
    requires of_leg { leg < 10 }
    ensures { result ≡ departure_id train leg }
{
    EventId(20 * train + 2 * leg + 1)
}

pub(crate) fn arrival_id(train: u32, leg: u32) -> EventId
    requires of_train { train < 2000 }
    requires of_leg { leg < 10 }
    ensures { result ≡ arrival_id train leg }
{
    EventId(20 * train + 2 * leg + 2)
}

fn departure(train: u32, leg: u32) -> EventRow
    requires of_train { train < 2000 }
    requires of_leg { leg < 10 }
    ensures { result ≡ departure train leg }
{
    EventRow {
        id: departure_id(train, leg),
        kind: EventKind::Departure,
        time: 21_600 + 30 * u64::from(train) + 400 * u64::from(leg),
        weight: 0,
        stop: StopId(11 * (train % 8) + leg + 1),
    }
}

fn arrival(train: u32, leg: u32) -> EventRow
    requires of_train { train < 2000 }
    requires of_leg { leg < 10 }
    ensures { result ≡ arrival train leg }
{
    let left = departure(train, leg);
    EventRow {
        id: arrival_id(train, leg),
        kind: EventKind::Arrival,
        time: left.time + 330,
        weight: 10_000,
        stop: StopId(left.stop.0 + 1),
    }
}

// Puts a train's events behind the events.
fn put_train(events: &mut Vec<EventRow>, train: u32) -> Result<(), AllocError>
    requires { train < 2000 }
    ensures { OnOk result (events.new.items ≡ events.old.items ++ events_of_train train) }
{
    for leg in 0..10 {
        events.push(departure(train, leg))?;
        events.push(arrival(train, leg))?;
    }
    Ok(())
}

#[tactic(auto, unfolding(crate::specs::Trains::events_of))]
pub(crate) fn events_of(alloc: Global, trains: u32) -> Result<Vec<EventRow>, AllocError>
    requires { trains ≤ 2000 }
    ensures { IfOk result (λ events. events.items ≡ events_of trains) }
{
    let mut events = Vec::new(alloc);
    for train in 0..trains {
        put_train(&mut events, train)?;
    }
    Ok(events)
}
