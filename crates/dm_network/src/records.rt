//! Events and activities from records, and what is wrong with records.
ghost use Rattle.std.specs.Prelude.{◌≡◌, map, IfOk, IfErr, IsTrue, MatchOption, IsPermutation};
ghost use Rattle.std.specs.List.Sorted.{IsStrictlyIncreasing, IsNonDecreasing};
ghost use Rattle.dm_network.specs.Build.{event_row, NamesNoEvent, IsFirst, HoldsOfNone, IsZeroHeadway, NoneStandsTwice, IsLeastDouble};
ghost use Rattle.dm_network.specs.Inside.Stages.{event_with, Resolves, AreResolved, RefusesEnds};

use crate::find::{Numbered, event_place};
use crate::parts::{Activity, Event, NetFault};
use dm_base::{ActId, ActKind, ActRow, EventRow};
use std::alloc::{AllocError, Global};

/// The least number that stands twice. It takes no memory but that of the list.
pub fn least_double(mut ids: Vec<u32>) -> Option<u32>
    ensures { MatchOption result (NoneStandsTwice ids.items) (λ id. IsLeastDouble ids.items id) }
{
    ids.sort_unstable();
    first_tie(&ids)
}

/// The first number that is equal to the one before it, in a list that does not fall.
fn first_tie(ids: &[u32]) -> Option<u32>
    requires { IsNonDecreasing ids.now }
    ensures { MatchOption result (NoneStandsTwice ids.now) (λ id. IsLeastDouble ids.now id) }
{
    for i in 1..ids.len() {
        if ids[i - 1] == ids[i] {
            return Some(ids[i]);
        }
    }
    None
}

/// The least number that stands twice in a list. Where each is above the one before it, as in most files, none is copied.
pub fn double_number<T: Numbered>(alloc: Global, items: &[T]) -> Result<Option<u32>, AllocError>
    ensures { IfOk result (λ double. MatchOption double (NoneStandsTwice (map T.number items.now))
        (λ id. IsLeastDouble (map T.number items.now) id)) }
{
    if rises(items) {
        return Ok(None);
    }
    let numbers = numbers_of(alloc, items)?;
    Ok(least_double(numbers))
}

/// Whether each number is above the one before it, so that none stands twice.
fn rises<T: Numbered>(items: &[T]) -> bool
    ensures { IsTrue result → NoneStandsTwice (map T.number items.now) }
{
    let mut least = 0;
    for item in items {
        let number = u64::from(item.number());
        if number < least {
            return false;
        }
        least = number + 1;
    }
    true
}

/// The numbers of a list, in its order.
fn numbers_of<T: Numbered>(alloc: Global, items: &[T]) -> Result<Vec<u32>, AllocError>
    ensures { IfOk result (λ numbers. numbers.items ≡ map T.number items.now) }
{
    items.iter().map(|item| item.number()).collect(alloc)
}

/// The events of the records, in ascending order of ids.
pub fn sorted_events(alloc: Global, mut rows: Vec<EventRow>) -> Result<Vec<Event>, AllocError>
    ensures same { IfOk result (λ events. IsPermutation rows.items (map event_row events.items)) }
    ensures ascend { IfOk result (λ events. IsNonDecreasing (map (λ e. e.id.0) events.items)) }
{
    rows.sort_by_key(|row| row.id.0)?;
    let events = events_of(alloc, &rows)?;
    Ok(events)
}

/// The events of the records, in their order.
fn events_of(alloc: Global, rows: &[EventRow]) -> Result<Vec<Event>, AllocError>
    ensures { IfOk result (λ events. events.items ≡ map event_with rows.now) }
{
    rows.iter().map(event_of).collect(alloc)
}

fn event_of(row: &EventRow) -> Event
    ensures { result ≡ event_with row.now }
{
    Event {
        id: row.id,
        kind: row.kind,
        time: row.time,
        weight: row.weight,
        stop: row.stop,
    }
}

/// The activities of the records, in the order of the records.
pub fn resolved(alloc: Global, events: &[Event], rows: &[ActRow]) -> Result<Vec<Activity>, NetFault>
    requires { IsStrictlyIncreasing (map (λ e. e.id.0) events.now) }
    ensures ok { IfOk result (λ activities. AreResolved events.now rows.now activities.items) }
    ensures err { IfErr result (λ fault. RefusesEnds events.now rows.now fault) }
{
    let Ok(mut activities) = Vec::with_capacity(alloc, rows.len()) else {
        return Err(NetFault::OutOfMemory);
    };
    for row in rows {
        let Some(activity) = resolve(events, row) else {
            return Err(NetFault::UnknownEvent(row.id));
        };
        let Ok(()) = activities.push(activity) else {
            return Err(NetFault::OutOfMemory);
        };
    }
    Ok(activities)
}

/// The activity of a record, or `None` where an end is no event.
fn resolve(events: &[Event], row: &ActRow) -> Option<Activity>
    requires { IsStrictlyIncreasing (map (λ e. e.id.0) events.now) }
    ensures { MatchOption result (NamesNoEvent (map event_row events.now) row.now) (λ a. Resolves events.now row.now a) }
{
    let Some(tail) = event_place(events, row.tail) else {
        return None;
    };
    let Some(head) = event_place(events, row.head) else {
        return None;
    };
    Some(Activity {
        id: row.id,
        kind: row.kind,
        tail,
        head,
        lower: row.lower,
        weight: row.weight,
        pair: None,
    })
}

/// The first headway of the records whose lower bound is 0.
pub fn first_zero_headway(rows: &[ActRow]) -> Option<ActId>
    ensures { MatchOption result (HoldsOfNone IsZeroHeadway rows.now) (λ id. IsFirst IsZeroHeadway rows.now id) }
{
    for row in rows {
        if row.kind == ActKind::Headway && row.lower == 0 {
            return Some(row.id);
        }
    }
    None
}

/// The activities in ascending order of ids.
pub fn sorted_activities(mut activities: Vec<Activity>) -> Result<Vec<Activity>, AllocError>
    ensures same { IfOk result (λ sorted. IsPermutation activities.items sorted.items) }
    ensures ascend { IfOk result (λ sorted. IsNonDecreasing (map (λ a. a.id.0) sorted.items)) }
{
    activities.sort_by_key(|a| a.id.0)?;
    Ok(activities)
}
