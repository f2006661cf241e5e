//! How events are reached from departures with the fewest changes.
ghost use Rattle.std.specs.Prelude.{ℕ, ◌≡◌, ◌+◌, ◌<◌, ◌⊎◌, Some, IsSome, length, map, IfOk, IfSome};
ghost use Rattle.std.specs.List.{range_with_len};
ghost use Rattle.dm_graph.specs.Arcs.{IsOrder};
ghost use Rattle.dm_graph.specs.Arrays.{AreRanks};
ghost use Rattle.dm_network.specs.Held.{arcs_of, is_held};
ghost use Rattle.dm_network.specs.Net.{places_into};
ghost use Rattle.dm_journey.specs.Inside.Reaching.{reach_at, boarding_at, IsBeginning, IsWithin, IsOneOn, ReachesAlong, HasNoHeadway, IsReachedAlong, IsFromRow, HasReachedAll};

use dm_base::{ActKind, EventKind, Secs, Steps, StopId};
use dm_graph::search::{Cyclic, Search};
use dm_network::Network;
use dm_times::Times;
use std::alloc::{AllocError, Global};
use std::marker::Brand;
use std::sync::ledger::{Blank, Ledger};

/// How an event is reached with the fewest changes.
#[derive(Clone, Copy)]
pub struct Reach {
    pub changes: u32,

    /// The activity by which it is reached, or `None` where the walk begins there.
    pub by: Option<usize>,
}

/// The departures at a stop from a time on, as the beginnings of walks.
pub fn departures(
    alloc: Global,
    net: &Network,
    times: &Times,
    from: StopId,
    after: Secs,
) -> Result<Vec<Option<Reach>>, AllocError>
    requires { length times.now ≡ length net.now.events }
    ensures { IfOk result (λ v. v.items ≡ map (boarding_at net.now times.now from after) (range_with_len 0 (length net.now.events))) }
{
    let mut reached = Vec::with_capacity(alloc, net.events())?;
    for i in 0..net.events() {
        reached.push(boarding(net, times, from, after, i))?;
    }
    Ok(reached)
}

/// The beginning of a walk at this event, if it is a departure at the stop, at the time or later.
fn boarding(net: &Network, times: &Times, from: StopId, after: Secs, i: usize) -> Option<Reach>
    requires as_many { length times.now ≡ length net.now.events }
    requires is_event { i < length net.now.events }
    ensures { result ≡ boarding_at net.now times.now from after i }
{
    let event = net.event(i);
    let boards = matches!(event.kind, EventKind::Departure)
        && event.stop.0 == from.0
        && after <= times.time(i);
    if boards {
        Some(Reach {
            changes: 0,
            by: None,
        })
    } else {
        None
    }
}

/// A search that has found an order of the usable activities. They have no cycle: none is a headway, so that each of them binds
/// at the start of the day.
pub fn order_of(alloc: Global, net: &Network, usable: &[bool]) -> Result<Search, AllocError>
    requires as_many { length usable.now ≡ length net.now.activities }
    requires no_headway { HasNoHeadway net.now usable.now }
    ensures order { IfOk result (λ s. IsOrder (arcs_of net.now (is_held usable.now)) s.order) }
    ensures ranks { IfOk result (λ s. AreRanks (length net.now.events) s.order s.ranks) }
{
    net.reveal();
    let mut search = Search::new(alloc, net.events())?;
    match net.search(usable, &mut search) {
        Ok(()) => Ok(search),
        Err(Cyclic) => unreachable!(),
    }
}

/// Reaches on from the events that are reached at first: along the order, each event with the fewest changes, and with at most
/// so many.
pub fn reach_all(
    net: &Network,
    usable: &[bool],
    search: &Search,
    most: u32,
    reached: &mut [Option<Reach>],
)
    requires flags { length usable.now ≡ length net.now.activities }
    requires as_many { length reached.old ≡ length net.now.events }
    requires order { IsOrder (arcs_of net.now (is_held usable.now)) search.now.order }
    requires ranks { AreRanks (length net.now.events) search.now.order search.now.ranks }
    requires beginnings { (e : ℕ) → e < length net.now.events → IsBeginning (reach_at reached.old e) }
    ensures { HasReachedAll net.now usable.now search.now.ranks most reached.old reached.new }
{
    reach_all_with::<Brand>(net, usable, search, most, reached, Blank::new(1));
}

/// The same, for a ledger that nothing reads.
fn reach_all_with<L: Ledger>(
    net: &Network,
    usable: &[bool],
    search: &Search,
    most: u32,
    reached: &mut [Option<Reach>],
    blank: Blank,
)
    requires flags { length usable.now ≡ length net.now.activities }
    requires as_many { length reached.old ≡ length net.now.events }
    requires order { IsOrder (arcs_of net.now (is_held usable.now)) search.now.order }
    requires ranks { AreRanks (length net.now.events) search.now.order search.now.ranks }
    requires beginnings { (e : ℕ) → e < length net.now.events → IsBeginning (reach_at reached.old e) }
    requires name { blank.name ≡ L.name }
    requires parts { blank.parts ≡ L.parts }
    requires has_a_part { 0 < blank.parts }
    ensures { HasReachedAll net.now usable.now search.now.ranks most reached.old reached.new }
{
    let mut steps = Steps::<L>::new(blank);
    let order = search.order();
    for place in 0..net.events() {
        let event = order[place];
        let into = net.in_row(event, &mut steps);
        reached[event] = reach_along(net, usable, reached, most, reached[event], event, into);
    }
}

/// How an event is reached with the fewest changes: as at first, or along a usable activity of its row.
fn reach_along(
    net: &Network,
    usable: &[bool],
    reached: &[Option<Reach>],
    most: u32,
    at_first: Option<Reach>,
    event: usize,
    into: &[usize],
) -> Option<Reach>
    requires flags { length usable.now ≡ length net.now.activities }
    requires as_many { length reached.now ≡ length net.now.events }
    requires row { into.now ≡ places_into net.now event }
    ensures comes { IsFromRow net.now usable.now at_first reached.now into.now (length into.now) result }
    ensures along { IsReachedAlong net.now usable.now most at_first reached.now into.now (length into.now) result }
{
    net.reveal();
    let _event = event;
    let mut best = at_first;
    for a in into {
        if usable[*a] {
            best = fewer(best, reach_by(net, reached, most, *a));
        }
    }
    best
}

/// How the head of an activity is reached by it, if its tail is reached, and with at most so many changes.
fn reach_by(net: &Network, reached: &[Option<Reach>], most: u32, a: usize) -> Option<Reach>
    requires as_many { length reached.now ≡ length net.now.events }
    requires is_activity { a < length net.now.activities }
    ensures by { IfSome result (λ r. r.by ≡ Some a) }
    ensures counted { IfSome result (λ r. IsOneOn net.now reached.now a r.changes) }
    ensures reaches { ReachesAlong net.now reached.now most a result }
{
    net.reveal();
    let activity = net.activity(a);
    let before = reached[activity.tail]?;
    let changes = match activity.kind {
        ActKind::Change if before.changes < most => before.changes + 1,
        ActKind::Change => return None,
        _ => before.changes,
    };
    Some(Reach {
        changes,
        by: Some(a),
    })
}

/// The one of two that has fewer changes.
fn fewer(one: Option<Reach>, other: Option<Reach>) -> Option<Reach>
    ensures either { (result ≡ one) ⊎ (IsSome other × (result ≡ other)) }
    ensures first { (n : ℕ) → IsWithin one n → IsWithin result n }
    ensures second { (n : ℕ) → IsWithin other n → IsWithin result n }
{
    match (one, other) {
        (Some(a), Some(b)) if a.changes <= b.changes => one,
        (_, Some(_)) => other,
        (_, None) => one,
    }
}
