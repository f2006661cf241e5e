//! What a timetable costs.
ghost use Rattle.std.specs.Prelude.{◌≡◌, ◌+◌, ◌*◌, ◌^◌, ◌<◌, ◌≤◌, length, sum_by};
ghost use Rattle.std.specs.List.{range_with_len};
ghost use Rattle.dm_base.specs.declared.limits.TheConstants.{EVENTS, ACTIVITIES, WEIGHT, PENALTY};
ghost use Rattle.dm_rows.specs.Rows.{IsSized};
ghost use Rattle.dm_rows.specs.Timetable.{IsLeast};
ghost use Rattle.dm_rows.specs.Cost.{cost_of, cost_charging, event_cost, cancelled_weight, charged_weight, missed_weight, comes_too_early};

use crate::holding::{AsRowsSay, Charging};
use dm_base::{ActKind, Cost, EventKind, Milli};
use dm_network::Network;
use dm_rows::{Rows, span_of};
use dm_settle::Times;

/// What the rows' least timetable costs, in thousandths of passenger seconds: the lateness of the arrivals that are not cancelled,
/// and the penalty for each cancelled arrival, for each change whose head has not passed and that is dropped or has a cancelled
/// end, and for each change that its passed head has missed. The penalty is in seconds for each passenger, at most 1,000,000. It
/// takes no memory.
pub fn cost(net: &Network, rows: &Rows, times: &Times, penalty: u64) -> Cost
    requires sized { IsSized net.now rows.now }
    requires least { IsLeast net.now rows.now times.now }
    requires penalty { penalty ≤ PENALTY }
    ensures cost { result ≡ cost_of net.now rows.now times.now penalty }
    ensures limit { result < 2 ^ 100 }
{
    cost_charging(net, rows, &AsRowsSay { net, rows }, times, penalty)
}

/// What a timetable costs where the penalty is charged for these activities, and for each cancelled arrival and each change that
/// its passed head has missed.
pub fn cost_charging<C: Charging>(
    net: &Network,
    rows: &Rows,
    charging: &C,
    times: &Times,
    penalty: u64,
) -> Cost
    requires sized { IsSized net.now rows.now }
    requires places { C.places charging.now ≡ length net.now.activities }
    requires size { length times.now ≡ length net.now.events }
    requires penalty { penalty ≤ PENALTY }
    ensures cost { result ≡ cost_charging net.now rows.now (C.charged charging.now) times.now penalty }
    ensures limit { result < 2 ^ 100 }
{
    let penalty = penalty as u128;
    lateness_cost(net, rows, times)
        + penalty * cancelled_weights(net, rows)
        + penalty * charged_weights(net, charging)
        + penalty * missed_weights(net, rows, times)
}

/// What the lateness of the arrivals that are not cancelled costs.
fn lateness_cost(net: &Network, rows: &Rows, times: &Times) -> Cost
    requires sized { IsSized net.now rows.now }
    requires size { length times.now ≡ length net.now.events }
    ensures cost { result ≡ sum_by (event_cost net.now rows.now times.now) (range_with_len 0 (length net.now.events)) }
    ensures limit { result ≤ EVENTS * (WEIGHT * 2 ^ 38) }
{
    let mut total = 0;
    for i in 0..net.events() {
        total += event_cost(net, rows, times, i);
    }
    total
}

/// The weight of the cancelled arrivals.
fn cancelled_weights(net: &Network, rows: &Rows) -> Cost
    requires { IsSized net.now rows.now }
    ensures weight { result ≡ sum_by (cancelled_weight net.now rows.now) (range_with_len 0 (length net.now.events)) }
    ensures limit { result ≤ EVENTS * WEIGHT }
{
    let mut total = 0;
    for i in 0..net.events() {
        total += cancelled_weight(net, rows, i) as u128;
    }
    total
}

/// The weight of an event, if it is an arrival that is cancelled.
fn cancelled_weight(net: &Network, rows: &Rows, i: usize) -> Milli
    requires sized { IsSized net.now rows.now }
    requires is_event { i < length net.now.events }
    ensures weight { result ≡ cancelled_weight net.now rows.now i }
    ensures limit { result ≤ WEIGHT }
{
    net.reveal();
    let event = net.event(i);
    if matches!(event.kind, EventKind::Arrival) && rows.cancelled(i) {
        event.weight
    } else {
        0
    }
}

/// The weight of the activities that are charged for.
fn charged_weights<C: Charging>(net: &Network, charging: &C) -> Cost
    requires { C.places charging.now ≡ length net.now.activities }
    ensures weight { result ≡ sum_by (charged_weight net.now (C.charged charging.now)) (range_with_len 0 (length net.now.activities)) }
    ensures limit { result ≤ ACTIVITIES * WEIGHT }
{
    let mut total = 0;
    for a in 0..net.activities() {
        total += charged_weight(net, charging, a) as u128;
    }
    total
}

/// The weight of the changes that their passed heads have missed.
fn missed_weights(net: &Network, rows: &Rows, times: &Times) -> Cost
    requires sized { IsSized net.now rows.now }
    requires size { length times.now ≡ length net.now.events }
    ensures weight { result ≡ sum_by (missed_weight net.now rows.now times.now) (range_with_len 0 (length net.now.activities)) }
    ensures limit { result ≤ ACTIVITIES * WEIGHT }
{
    let mut total = 0;
    for a in 0..net.activities() {
        total += missed_weight(net, rows, times, a) as u128;
    }
    total
}

/// What the lateness of one event costs: nothing unless it is an arrival that is not cancelled.
fn event_cost(net: &Network, rows: &Rows, times: &Times, i: usize) -> Cost
    requires sized { IsSized net.now rows.now }
    requires size { length times.now ≡ length net.now.events }
    requires is_event { i < length net.now.events }
    ensures cost { result ≡ event_cost net.now rows.now times.now i }
    ensures limit { result ≤ WEIGHT * 2 ^ 38 }
{
    net.reveal();
    let event = net.event(i);
    match event.kind {
        EventKind::Departure => 0,
        EventKind::Arrival if rows.cancelled(i) => 0,
        EventKind::Arrival => {
            let lateness = times.time(i).saturating_sub(event.time);
            event.weight as u128 * lateness as u128
        }
    }
}

/// The weight of an activity, if it is charged for.
fn charged_weight<C: Charging>(net: &Network, charging: &C, a: usize) -> Milli
    requires places { C.places charging.now ≡ length net.now.activities }
    requires is_activity { a < length net.now.activities }
    ensures weight { result ≡ charged_weight net.now (C.charged charging.now) a }
    ensures limit { result ≤ WEIGHT }
{
    net.reveal();
    if charging.is_charged(a) {
        net.activity(a).weight
    } else {
        0
    }
}

/// The weight of a change that its passed head has missed for good.
fn missed_weight(net: &Network, rows: &Rows, times: &Times, a: usize) -> Milli
    requires sized { IsSized net.now rows.now }
    requires size { length times.now ≡ length net.now.events }
    requires is_activity { a < length net.now.activities }
    ensures weight { result ≡ missed_weight net.now rows.now times.now a }
    ensures limit { result ≤ WEIGHT }
{
    net.reveal();
    let activity = net.activity(a);
    if matches!(activity.kind, ActKind::Change)
        && rows.passed(activity.head).is_some()
        && (rows.cancelled(activity.tail) || comes_too_early(net, rows, times, a))
    {
        activity.weight
    } else {
        0
    }
}

/// Whether the head of an activity comes before its tail and its span allow.
pub fn comes_too_early(net: &Network, rows: &Rows, times: &Times, a: usize) -> bool
    requires sized { IsSized net.now rows.now }
    requires size { length times.now ≡ length net.now.events }
    requires is_activity { a < length net.now.activities }
    ensures { result ≡ comes_too_early net.now rows.now times.now a }
{
    net.reveal();
    let activity = net.activity(a);
    times.time(activity.head) < times.time(activity.tail) + span_of(net, rows, a)
}
