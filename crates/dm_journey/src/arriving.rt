//! The journeys of a query.
ghost use Rattle.std.specs.Prelude.{◌≡◌, ◌<◌, ◌≤◌, ◌+◌, ◌↔◌, [], true, IsTrue, length, IfOk, MatchBool};
ghost use Rattle.std.specs.List.{All, Any};
ghost use Rattle.std.specs.Option.{ForSome};
ghost use Rattle.dm_rows.specs.Rows.{IsSized};
ghost use Rattle.dm_rows.specs.Timetable.{IsLeast};
ghost use Rattle.dm_journey.specs.Journeys.{AreJourneys, HasNoWalk};
ghost use Rattle.dm_journey.specs.Inside.Reaching.{AreReached};
ghost use Rattle.dm_journey.specs.Inside.Arriving.{ArrivesAfter, ArrivesBy, IsEarliest, IsReachedArrival, IsEarlierOf, AreFound};

use crate::reaching::{Reach, departures, order_of, reach_all};
use crate::riding::usable_activities;
use crate::tracing::walk_to;
use dm_base::{EventKind, Items, Secs, StopId};
use dm_graph::search::Search;
use dm_network::Network;
use dm_rows::Rows;
use dm_times::Times;
use std::alloc::{AllocError, Global};

/// A walk from a stop to a stop.
#[derive(Drop)]
pub struct Journey {
    /// The places of its activities, each of which begins where the one before it ends.
    pub walk: Items<usize>,

    /// When it arrives, in seconds.
    pub arrival: Secs,

    /// How many of its activities are changes.
    pub changes: u32,
}

/// The journeys from one stop to another that begin at a time, in seconds, or later, with at most so many changes, in a
/// timetable of the rows: the one with the fewest changes first, and each next one with more changes and an earlier arrival.
/// Every other such walk has as many changes at least, and arrives no earlier, as one of them. There is none exactly where there
/// is no such walk. Its time is linear in events and activities.
pub fn journeys(
    alloc: Global,
    net: &Network,
    rows: &Rows,
    times: &Times,
    from: StopId,
    to: StopId,
    after: Secs,
    most: u32,
) -> Result<Vec<Journey>, AllocError>
    requires sized { IsSized net.now rows.now }
    requires least { IsLeast net.now rows.now times.now }
    requires most { most ≤ 8 }
    ensures answer { IfOk result (λ v. AreJourneys net.now rows.now times.now from to after most v.items) }
    ensures none { IfOk result (λ v. (v.items ≡ []) ↔ HasNoWalk net.now rows.now times.now from to after most) }
{
    let usable = usable_activities(alloc, net, rows, times)?;
    let search = order_of(alloc, net, &usable)?;
    let mut reached = departures(alloc, net, times, from, after)?;
    reach_all(net, &usable, &search, most, &mut reached);
    found(alloc, net, times, &search, &reached, to, most)
}

/// The journeys to the arrivals at a stop that are reached with at most so many changes.
fn found(
    alloc: Global,
    net: &Network,
    times: &Times,
    search: &Search,
    reached: &[Option<Reach>],
    to: StopId,
    most: u32,
) -> Result<Vec<Journey>, AllocError>
    requires as_many { length times.now ≡ length net.now.events }
    requires ranks { length search.now.ranks ≡ length net.now.events }
    requires reached { AreReached net.now (λ e. true) (λ a. true) search.now.ranks reached.now }
    requires most { most ≤ 8 }
    ensures { IfOk result (λ v. AreFound net.now times.now to search.now.ranks reached.now (most + 1) v.items) }
{
    let mut journeys = Vec::new(alloc);
    for changes in 0..most + 1 {
        let Some(last) = earliest(net, times, reached, to, changes) else {
            continue;
        };
        let arrival = times.time(last);
        if !are_later(&journeys, arrival) {
            continue;
        }
        let walk = walk_to(alloc, net, search, reached, last)?;
        journeys.push(Journey {
            walk: Items::from_vec(walk),
            arrival,
            changes,
        })?;
    }
    Ok(journeys)
}

/// Whether these journeys all arrive later than at this time, in seconds.
fn are_later(journeys: &[Journey], arrival: Secs) -> bool
    ensures { MatchBool result (All (ArrivesAfter arrival) journeys.now) (Any (ArrivesBy arrival) journeys.now) }
{
    for journey in journeys {
        if journey.arrival <= arrival {
            return false;
        }
    }
    true
}

/// The earliest arrival at a stop that is reached with exactly so many changes, or `None` where there is none.
fn earliest(
    net: &Network,
    times: &Times,
    reached: &[Option<Reach>],
    to: StopId,
    changes: u32,
) -> Option<usize>
    requires as_many { length times.now ≡ length net.now.events }
    requires as_many_reached { length reached.now ≡ length net.now.events }
    ensures { IsEarliest net.now reached.now times.now to changes result }
{
    let mut best = None;
    for e in net.at_stop(to) {
        if arrives_with(net, reached, *e, changes) {
            best = Some(earlier(times, best, *e));
        }
    }
    best
}

/// Whether an event is an arrival that is reached with exactly so many changes.
fn arrives_with(net: &Network, reached: &[Option<Reach>], e: usize, changes: u32) -> bool
    requires is_event { e < length net.now.events }
    requires as_many { length reached.now ≡ length net.now.events }
    ensures { IsTrue result ↔ IsReachedArrival net.now reached.now changes e }
{
    matches!(net.event(e).kind, EventKind::Arrival)
        && reached[e].is_some_and(|reach| reach.changes == changes)
}

/// The earlier of two events, of which one may be missing: on a tie the first.
fn earlier(times: &Times, one: Option<usize>, other: usize) -> usize
    requires first { ForSome one (λ e. e < length times.now) }
    requires second { other < length times.now }
    ensures { IsEarlierOf times.now one other result }
{
    match one {
        Some(e) if times.time(e) <= times.time(other) => e,
        _ => other,
    }
}
