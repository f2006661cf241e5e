//! Networks of a few events.

use crate::failure::Failure;
use crate::networks::{activity, event, network_of};
use dm_base::{ActKind, ActRow, EventKind, EventRow, Secs};
use dm_network::Network;
use std::alloc::{AllocError, Global};

// An event: its kind, time, weight and stop.
type EventCase = (EventKind, Secs, u64, u32);

// An activity: its kind, tail, head, lower bound and weight.
type ActivityCase = (ActKind, u32, u32, Secs, u64);

const CONNECTION: [EventCase; 6] = [
    (EventKind::Departure, 100, 10_000, 1),
    (EventKind::Arrival, 200, 10_000, 2),
    (EventKind::Departure, 220, 10_000, 2),
    (EventKind::Arrival, 300, 10_000, 3),
    (EventKind::Departure, 230, 5_000, 2),
    (EventKind::Arrival, 330, 5_000, 4),
];

// The second train starts later.
const LATER: [EventCase; 2] = [
    (EventKind::Departure, 340, 5_000, 2),
    (EventKind::Arrival, 440, 5_000, 4),
];

const ACTIVITIES: [ActivityCase; 7] = [
    (ActKind::Drive, 1, 2, 90, 10_000),
    (ActKind::Wait, 2, 3, 10, 10_000),
    (ActKind::Drive, 3, 4, 80, 10_000),
    (ActKind::Drive, 5, 6, 95, 5_000),
    (ActKind::Change, 2, 5, 20, 4_000),
    (ActKind::Headway, 3, 5, 8, 0),
    (ActKind::Headway, 5, 3, 8, 0),
];

const TURNED: ActivityCase = (ActKind::Turnaround, 4, 5, 30, 0);

/// A small network. Events and activities are numbered from 1.
#[derive(Clone, Copy)]
pub enum Sample {
    /// Two trains that meet at one station, with a change, activity 5, and a pair of departures, events 3 and 5.
    Connection,

    /// The same two trains, of which the second is the first one turned around, after activity 8, and starts later.
    Turnaround,
}

impl Sample {
    /// The network.
    pub fn network(self, alloc: Global) -> Result<Network, Failure> {
        let (events, activities) = match self {
            Sample::Connection => (
                numbered(alloc, &CONNECTION, &[], event_of)?,
                numbered(alloc, &ACTIVITIES, &[], activity_of)?,
            ),
            Sample::Turnaround => (
                numbered(alloc, &CONNECTION[..4], &LATER, event_of)?,
                numbered(alloc, &ACTIVITIES, &[TURNED], activity_of)?,
            ),
        };
        network_of(alloc, events, activities)
    }
}

/// What is made of each of these cases, and of more behind them, with its number from 1 on.
fn numbered<C: Copy, T: Drop, F: Fn(u32, C) -> T>(
    alloc: Global,
    cases: &[C],
    more: &[C],
    made: F,
) -> Result<Vec<T>, AllocError>
    requires { F.IsAlwaysCallable made }
{
    let mut all = Vec::new(alloc);
    for (case, number) in cases.iter().chain(more.iter()).zip(1u32..) {
        all.push(made(number, *case))?;
    }
    Ok(all)
}

fn event_of(id: u32, (kind, time, weight, stop): EventCase) -> EventRow {
    event(id, kind, time, weight, stop)
}

fn activity_of(id: u32, (kind, tail, head, lower, weight): ActivityCase) -> ActRow {
    activity(id, kind, tail, head, lower, weight)
}
