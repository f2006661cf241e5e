//! What a timetable costs.
ghost use Rattle.std.specs.Prelude.{◌≡◌, ◌+◌, ◌*◌, ◌^◌, ◌<◌, ◌≤◌, length, sum_by};
ghost use Rattle.std.specs.List.{range_with_len};
ghost use Rattle.dm_base.specs.declared.limits.TheConstants.{EVENTS, ACTIVITIES, WEIGHT, PENALTY};
ghost use Rattle.dm_rows.specs.Rows.{IsSized};
ghost use Rattle.dm_rows.specs.Cost.{cost_of, event_cost, cancelled_weight, missed_weight, comes_too_early, is_lost_change};
ghost use Rattle.dm_check_times.specs.Binding.{AreBelowLimit};
ghost use Rattle.dm_check_times.specs.KeptCosts.{priced_weight};

use crate::charges::{Charges, priced_weight};
use dm_base::{ActKind, Cost, EventKind, Milli, Secs};
use dm_network::Network;
use dm_rows::{Rows, span_of};

/// What a timetable of the rows costs. It takes no memory.
pub fn cost_of(net: &Network, rows: &Rows, times: &[Secs], penalty: u64) -> Cost
    requires sized { IsSized net.now rows.now }
    requires as_many { length times.now ≡ length net.now.events }
    requires early { AreBelowLimit times.now }
    requires penalty { penalty ≤ PENALTY }
    ensures { result ≡ cost_of net.now rows.now times.now penalty }
{
    let penalty = penalty as u128;
    let weights = cancelled_weights(net, rows) + priced_weights(net, rows, times);
    lateness_cost(net, rows, times) + penalty * weights
}

/// What the lateness of the arrivals costs that are not cancelled.
pub(crate) fn lateness_cost(net: &Network, rows: &Rows, times: &[Secs]) -> Cost
    requires sized { IsSized net.now rows.now }
    requires as_many { length times.now ≡ length net.now.events }
    requires early { AreBelowLimit times.now }
    ensures cost { result ≡ sum_by (event_cost net.now rows.now times.now) (range_with_len 0 (length net.now.events)) }
    ensures limit { result ≤ EVENTS * (WEIGHT * 2 ^ 38) }
{
    let mut total = 0;
    for i in 0..net.events() {
        total += event_cost(net, rows, times, i);
    }
    total
}

/// The weights of the cancelled arrivals.
pub(crate) fn cancelled_weights(net: &Network, rows: &Rows) -> Cost
    requires sized { IsSized net.now rows.now }
    ensures weights { result ≡ sum_by (cancelled_weight net.now rows.now) (range_with_len 0 (length net.now.events)) }
    ensures limit { result ≤ EVENTS * WEIGHT }
{
    let mut total = 0;
    for i in 0..net.events() {
        total += cancelled_weight(net, rows, i) as u128;
    }
    total
}

/// The weights of which the penalty is taken, where the rows' lost changes are charged for.
fn priced_weights(net: &Network, rows: &Rows, times: &[Secs]) -> Cost
    requires sized { IsSized net.now rows.now }
    requires as_many { length times.now ≡ length net.now.events }
    requires early { AreBelowLimit times.now }
    ensures weights { result ≡ sum_by (priced_weight net.now rows.now (is_lost_change net.now rows.now) times.now)
        (range_with_len 0 (length net.now.activities)) }
    ensures limit { result ≤ ACTIVITIES * (2 * WEIGHT) }
{
    let mut total = 0;
    for a in 0..net.activities() {
        total += priced_weight(net, rows, &Charges::Lost, times, a) as u128;
    }
    total
}

/// What the lateness of one event costs, in thousandths of passenger seconds: nothing unless it is an arrival that is not
/// cancelled.
pub fn event_cost(net: &Network, rows: &Rows, times: &[Secs], i: usize) -> Cost
    requires sized { IsSized net.now rows.now }
    requires as_many { length times.now ≡ length net.now.events }
    requires early { AreBelowLimit times.now }
    requires is_event { i < length net.now.events }
    ensures cost { result ≡ event_cost net.now rows.now times.now i }
    ensures limit { result ≤ WEIGHT * 2 ^ 38 }
{
    net.reveal();
    let event = net.event(i);
    if matches!(event.kind, EventKind::Arrival) && !rows.cancelled(i) {
        let lateness = times[i].saturating_sub(event.time);
        event.weight as u128 * lateness as u128
    } else {
        0
    }
}

/// The weight of an event, in thousandths of passengers, if it is a cancelled arrival.
pub fn cancelled_weight(net: &Network, rows: &Rows, i: usize) -> Milli
    requires sized { IsSized net.now rows.now }
    requires is_event { i < length net.now.events }
    ensures weight { result ≡ cancelled_weight net.now rows.now i }
    ensures limit { result ≤ WEIGHT }
{
    net.reveal();
    let event = net.event(i);
    if matches!(event.kind, EventKind::Arrival) && rows.cancelled(i) {
        event.weight
    } else {
        0
    }
}

/// The weight of a change that its passed head has missed for good, in thousandths of passengers, and else 0.
pub fn missed_weight(net: &Network, rows: &Rows, times: &[Secs], a: usize) -> Milli
    requires sized { IsSized net.now rows.now }
    requires as_many { length times.now ≡ length net.now.events }
    requires early { AreBelowLimit times.now }
    requires is_activity { a < length net.now.activities }
    ensures weight { result ≡ missed_weight net.now rows.now times.now a }
    ensures limit { result ≤ WEIGHT }
{
    net.reveal();
    let activity = net.activity(a);
    if matches!(activity.kind, ActKind::Change)
        && rows.passed(activity.head).is_some()
        && (rows.cancelled(activity.tail) || comes_too_early(net, rows, times, a))
    {
        activity.weight
    } else {
        0
    }
}

/// Whether the head of an activity comes before its tail and its span allow.
pub fn comes_too_early(net: &Network, rows: &Rows, times: &[Secs], a: usize) -> bool
    requires sized { IsSized net.now rows.now }
    requires as_many { length times.now ≡ length net.now.events }
    requires early { AreBelowLimit times.now }
    requires is_activity { a < length net.now.activities }
    ensures { result ≡ comes_too_early net.now rows.now times.now a }
{
    net.reveal();
    let activity = net.activity(a);
    times[activity.head] < times[activity.tail] + span_of(net, rows, a)
}
