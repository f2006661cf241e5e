//! Arrays beside a network, for its readers and for the search for a cycle.
ghost use Rattle.std.specs.Prelude.{◌≡◌, ◌<◌, ◌≤◌, ◌^◌, [], map, length, IfOk, All, slice_index_or};
ghost use Rattle.std.specs.List.{range_with_len};
ghost use Rattle.dm_network.specs.Net.{no_activity};
ghost use Rattle.dm_network.specs.Start.{binds_at_start, is_start_active};
ghost use Rattle.dm_network.specs.Inside.Stages.{standing_at, AreStopsOf, AreSortedByStop, net_with, StandBeside, KnowsPair, HasEnds, first_in};

use crate::flat::{Adjacency, adjacency_by};
use crate::parts::{Activity, Event, Pair};
use dm_base::limits::{ACTIVITIES, EVENTS};
use dm_base::{ActId, StopId};
use std::alloc::{AllocError, Global};

/// The places of the events in ascending order of stops, and the stop of each.
#[derive(Drop)]
pub struct ByStop {
    pub stops: Vec<StopId>,
    pub places: Vec<usize>,
}

/// A stop, and the place of an event there. Places of events are far below 2^32, and small items are sorted quickly.
#[derive(Clone, Copy)]
pub struct Standing {
    pub stop: StopId,
    pub place: u32,
}

/// What stands beside a network: the tail of each activity, the activities by head and by tail, and the events by stop.
#[derive(Drop)]
pub struct Arrays {
    pub tails: Vec<usize>,
    pub incoming: Adjacency,
    pub outgoing: Adjacency,
    pub by_stop: ByStop,
}

/// The arrays beside these events and activities.
pub fn arrays_of(
    alloc: Global,
    events: &[Event],
    activities: &[Activity],
) -> Result<Arrays, AllocError>
    requires few_events { length events.now ≤ EVENTS }
    requires few_activities { length activities.now ≤ ACTIVITIES }
    requires ends { All (HasEnds (length events.now)) activities.now }
    ensures { IfOk result (λ arrays. StandBeside (net_with events.now activities.now []) arrays) }
{
    let heads = heads(alloc, activities)?;
    let tails = tails(alloc, activities)?;
    let incoming = adjacency_by(alloc, &heads, events.len())?;
    let outgoing = adjacency_by(alloc, &tails, events.len())?;
    let by_stop = by_stop(alloc, events)?;
    Ok(Arrays {
        tails,
        incoming,
        outgoing,
        by_stop,
    })
}

/// The events by stop.
pub fn by_stop(alloc: Global, events: &[Event]) -> Result<ByStop, AllocError>
    requires { length events.now ≤ EVENTS }
    ensures { IfOk result (λ b. AreStopsOf events.now b.stops.items b.places.items) }
{
    let sorted = sorted_standings(standings(alloc, events)?)?;
    let stops = stops_of(alloc, &sorted)?;
    let places = places_of(alloc, &sorted)?;
    Ok(ByStop { stops, places })
}

/// Each event's stop and place, in order of places.
fn standings(alloc: Global, events: &[Event]) -> Result<Vec<Standing>, AllocError>
    requires { length events.now ≤ EVENTS }
    ensures { IfOk result (λ s. s.items ≡ map (standing_at events.now) (range_with_len 0 (length events.now))) }
{
    let mut standings = Vec::with_capacity(alloc, events.len())?;
    for (place, event) in events.iter().enumerate() {
        standings.push(Standing {
            stop: event.stop,
            place: short(place),
        })?;
    }
    Ok(standings)
}

/// The same place in half the room.
fn short(place: usize) -> u32
    requires { place < 2 ^ 32 }
    ensures { result ≡ place }
{
    place as u32
}

/// The same in ascending order of stops, those of one stop in their order.
fn sorted_standings(mut standings: Vec<Standing>) -> Result<Vec<Standing>, AllocError>
    ensures { IfOk result (λ sorted. AreSortedByStop standings.items sorted.items) }
{
    standings.sort_by_key(|s| s.stop.0)?;
    Ok(standings)
}

fn stops_of(alloc: Global, standings: &[Standing]) -> Result<Vec<StopId>, AllocError>
    ensures { IfOk result (λ stops. stops.items ≡ map (λ s. s.stop) standings.now) }
{
    standings.iter().map(|s| s.stop).collect(alloc)
}

fn places_of(alloc: Global, standings: &[Standing]) -> Result<Vec<usize>, AllocError>
    ensures { IfOk result (λ places. places.items ≡ map (λ s. s.place) standings.now) }
{
    standings.iter().map(|s| s.place as usize).collect(alloc)
}

/// The tail of each activity.
pub fn tails(alloc: Global, activities: &[Activity]) -> Result<Vec<usize>, AllocError>
    ensures { IfOk result (λ tails. tails.items ≡ map (λ a. a.tail) activities.now) }
{
    activities.iter().map(|a| a.tail).collect(alloc)
}

/// The head of each activity.
pub fn heads(alloc: Global, activities: &[Activity]) -> Result<Vec<usize>, AllocError>
    ensures { IfOk result (λ heads. heads.items ≡ map (λ a. a.head) activities.now) }
{
    activities.iter().map(|a| a.head).collect(alloc)
}

/// The ids of the activities at some places.
pub fn ids_at(
    alloc: Global,
    activities: &[Activity],
    places: &[usize],
) -> Result<Vec<ActId>, AllocError>
    requires { All (λ a. a < length activities.now) places.now }
    ensures { IfOk result (λ ids. ids.items ≡ map (λ a. (slice_index_or activities.now a no_activity).id) places.now) }
{
    let mut ids = Vec::new(alloc);
    for a in places {
        ids.push(activities[*a].id)?;
    }
    Ok(ids)
}

/// Whether each activity binds at the start.
pub fn held_at_start(
    alloc: Global,
    events: &[Event],
    activities: &[Activity],
    pairs: &[Pair],
) -> Result<Vec<bool>, AllocError>
    requires { All (KnowsPair (net_with events.now activities.now pairs.now)) activities.now }
    ensures { IfOk result (λ held. held.items ≡ map (is_start_active (net_with events.now activities.now pairs.now))
        (range_with_len 0 (length activities.now))) }
{
    let mut held = Vec::new(alloc);
    for activity in activities {
        held.push(binds(events, pairs, activity))?;
    }
    Ok(held)
}

/// Whether an activity binds at the start.
fn binds(events: &[Event], pairs: &[Pair], activity: &Activity) -> bool
    requires { KnowsPair (net_with events.now [] pairs.now) activity.now }
    ensures { result ≡ binds_at_start (net_with events.now [] pairs.now) activity.now.pair activity.now.tail }
{
    match activity.pair {
        None => true,
        Some(p) => activity.tail == first_at_start(events, &pairs[p]),
    }
}

fn first_at_start(events: &[Event], pair: &Pair) -> usize
    requires small { pair.now.small < length events.now }
    requires large { pair.now.large < length events.now }
    ensures { result ≡ first_in events.now pair.now }
{
    if events[pair.small].time <= events[pair.large].time {
        pair.small
    } else {
        pair.large
    }
}
