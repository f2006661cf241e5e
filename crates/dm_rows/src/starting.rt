//! The rows at the start of a day.
ghost use Rattle.std.specs.Prelude.{◌≡◌, ◌<◌, length, IfOk, IfErr, OnOk};
ghost use Rattle.dm_rows.specs.Rows.{IsSized, start_rows_of, start_rows_without};
ghost use Rattle.dm_rows.specs.Inside.Standings.{pairs_at_start};
ghost use Rattle.dm_rows.specs.Inside.Delays.{AreDelaysOf, count_of, number_of, place_numbered, unknown, RefusesDelays};
ghost use Rattle.dm_rows.specs.StartFaults.{DelaysAreWithin, RefusesDelayRecords, RefusesStart, AllAreKnown, AllIdsAreKnown, event_numbered, activity_numbered};

use crate::messages::{Change, StartFault};
use crate::rows::{Decided, Rows, narrow};
use dm_base::{ActId, DelayRow, EventId};
use dm_network::Network;
use std::alloc::{AllocError, Global};

/// The rows with the delays of these records, of which a later one of the same id wins. No event has passed, every change
/// is kept, and of each pair the event with the smaller scheduled time is first, the one with the smaller id on a tie.
pub fn start_rows(
    alloc: Global,
    net: &Network,
    events: &[DelayRow],
    activities: &[DelayRow],
) -> Result<Rows, StartFault>
    requires event_delays { DelaysAreWithin events.now }
    requires activity_delays { DelaysAreWithin activities.now }
    ensures rows { IfOk result (λ rows. rows ≡ start_rows_of net.now events.now activities.now) }
    ensures sized { IfOk result (IsSized net.now) }
    ensures events_known { OnOk result (AllAreKnown (event_numbered net.now) events.now) }
    ensures activities_known { OnOk result (AllAreKnown (activity_numbered net.now) activities.now) }
    ensures refused { IfErr result (RefusesDelayRecords net.now events.now activities.now) }
{
    let event_delays = delays_of(alloc, net, Delayed::Events, events)?;
    let act_delays = delays_of(alloc, net, Delayed::Activities, activities)?;
    match Rows::at_start(alloc, net, event_delays, act_delays) {
        Ok(rows) => Ok(rows),
        Err(_) => Err(StartFault::OutOfMemory),
    }
}

/// The same start rows, in which the events with these ids are cancelled.
pub fn start_rows_without(
    alloc: Global,
    net: &Network,
    events: &[DelayRow],
    activities: &[DelayRow],
    cancelled: &[u32],
) -> Result<Rows, StartFault>
    requires event_delays { DelaysAreWithin events.now }
    requires activity_delays { DelaysAreWithin activities.now }
    ensures rows { IfOk result (λ rows. rows ≡ start_rows_without net.now events.now activities.now cancelled.now) }
    ensures sized { IfOk result (IsSized net.now) }
    ensures events_known { OnOk result (AllAreKnown (event_numbered net.now) events.now) }
    ensures activities_known { OnOk result (AllAreKnown (activity_numbered net.now) activities.now) }
    ensures cancelled_known { OnOk result (AllIdsAreKnown net.now cancelled.now) }
    ensures refused { IfErr result (RefusesStart net.now events.now activities.now cancelled.now) }
{
    let mut rows = match start_rows(alloc, net, events, activities) {
        Ok(rows) => rows,
        Err(fault) => return Err(fault),
    };
    net.reveal();
    for id in cancelled {
        let Some(event) = net.place_of(EventId(*id)) else {
            return Err(StartFault::UnknownEvent(EventId(*id)));
        };
        rows.apply(&Change::Cancelled { event });
    }
    Ok(rows)
}

/// What the records of a delay file are of.
#[derive(Clone, Copy)]
pub enum Delayed {
    Events,
    Activities,
}

impl Delayed {
    /// How many of them a network has.
    fn count(self, net: &Network) -> usize
        ensures { result ≡ count_of net.now self }
    {
        match self {
            Delayed::Events => net.events(),
            Delayed::Activities => net.activities(),
        }
    }

    /// The place of the one with this number as its id.
    fn place(self, net: &Network, number: u32) -> Option<usize>
        ensures { result ≡ place_numbered net.now self number }
    {
        match self {
            Delayed::Events => net.place_of(EventId(number)),
            Delayed::Activities => net.act_place(ActId(number)),
        }
    }

    /// That none has this number.
    fn unknown(self, number: u32) -> StartFault
        ensures { result ≡ unknown self number }
    {
        match self {
            Delayed::Events => StartFault::UnknownEvent(EventId(number)),
            Delayed::Activities => StartFault::UnknownActivity(ActId(number)),
        }
    }
}

/// The delay of each event or of each activity by the records, or the first of them that names none.
fn delays_of(
    alloc: Global,
    net: &Network,
    delayed: Delayed,
    records: &[DelayRow],
) -> Result<Vec<u32>, StartFault>
    requires { DelaysAreWithin records.now }
    ensures delays { IfOk result (λ delays. AreDelaysOf (count_of net.now delayed) (number_of net.now delayed) records.now delays.items) }
    ensures known { OnOk result (AllAreKnown (place_numbered net.now delayed) records.now) }
    ensures refused { IfErr result (RefusesDelays net.now delayed records.now) }
{
    net.reveal();
    let count = delayed.count(net);
    let Ok(mut delays) = vec![in alloc; 0; count] else {
        return Err(StartFault::OutOfMemory);
    };
    for record in records {
        let Some(place) = delayed.place(net, record.id) else {
            return Err(delayed.unknown(record.id));
        };
        delays[place] = narrow(record.delay);
    }
    Ok(delays)
}

/// Which event is first in each pair at the start, where none is locked.
pub fn first_events(alloc: Global, net: &Network) -> Result<Vec<Decided>, AllocError>
    ensures { IfOk result (λ pairs. pairs.items ≡ pairs_at_start net.now) }
{
    net.reveal();
    let mut pairs = Vec::with_capacity(alloc, net.pairs())?;
    for p in 0..net.pairs() {
        let pair = net.pair(p);
        let is_first = net.event(pair.small).time <= net.event(pair.large).time;
        pairs.push(Decided::free(is_first))?;
    }
    Ok(pairs)
}
