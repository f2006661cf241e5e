//! What the terms of a share cost where an evaluator stands.
ghost use Rattle.std.specs.Prelude.{◌≡◌, ◌*◌, ◌^◌, ◌<◌, ◌≤◌, length};
ghost use Rattle.dm_base.specs.declared.limits.TheConstants.{PENALTY, WEIGHT};
ghost use Rattle.dm_evaluate.specs.Evaluator.{IsEvaluatorOf, times_of};
ghost use Rattle.dm_network.specs.Net.{event_place, activity_place};
ghost use Rattle.dm_rows.specs.Cost.{event_cost, cancelled_weight, missed_weight};
ghost use Rattle.dm_rows.specs.Rows.{IsSized};
ghost use Rattle.dm_settle.specs.Settling.{AreEarly};
ghost use Rattle.dm_tree.specs.Relaxed.{RelaxedCosts, relaxed_cost_of};
ghost use Rattle.dm_parts.specs.Shares.{IsShare, within};
ghost use Rattle.dm_parts.specs.Sums.{at_place};
ghost use Rattle.dm_part_plans.specs.Inside.Claims.{IsSmall};
ghost use Rattle.dm_part_plans.specs.Inside.Sums.{is_drop_of, drops, is_lost_for_good, lost_weight, lateness_up_to, cancelled_up_to, lost_up_to, missed_up_to};

use dm_base::{ActId, ActKind, Cost, EventId, EventKind};
use dm_evaluate::Evaluator;
use dm_network::Network;
use dm_parts::Share;
use dm_rows::{Decision, Rows, is_free_change, is_lost_change};
use dm_settle::Times;
use dm_times::comes_too_early;

/// What the terms of a share cost where an evaluator stands, in thousandths of passenger seconds. Its time is linear in the
/// share and in the path.
pub(crate) fn cost_within(net: &Network, evaluator: &Evaluator, penalty: u64, share: &Share) -> Cost
    requires evaluator { IsEvaluatorOf net.now evaluator.now }
    requires penalty { penalty ≤ PENALTY }
    requires share { IsShare net.now share.now }
    requires small { IsSmall share.now }
    ensures cost { result ≡
        relaxed_cost_of (within net.now share.now) evaluator.now.rows evaluator.now.path (times_of evaluator.now) penalty }
    ensures costs { RelaxedCosts (within net.now share.now) evaluator.now.rows evaluator.now.path penalty result }
    ensures limit { result < 2 ^ 100 }
{
    net.reveal();
    let penalty = penalty as u128;
    let rows = evaluator.rows();
    let times = evaluator.times();
    times.is_early();
    let late = lateness(net, rows, times, share);
    let cancelled = cancelled(net, rows, share);
    let lost = lost(net, rows, evaluator.path(), share);
    let missed = missed(net, rows, times, share);
    late + penalty * cancelled + penalty * lost + penalty * missed
}

/// What the lateness of a share's arrivals costs.
fn lateness(net: &Network, rows: &Rows, times: &Times, share: &Share) -> Cost
    requires sized { IsSized net.now rows.now }
    requires times { length times.now ≡ length net.now.events }
    requires early { AreEarly times.now }
    requires small { IsSmall share.now }
    ensures cost { result ≡ lateness_up_to net.now share.now rows.now times.now (length share.now.arrivals) }
    ensures limit { result ≤ 65536 * (WEIGHT * 2 ^ 38) }
{
    let mut sum: Cost = 0;
    for id in share.arrivals.as_slice() {
        sum += lateness_of(net, rows, times, *id);
    }
    sum
}

/// What the lateness of an event costs, and nothing where there is no such arrival or it is cancelled.
fn lateness_of(net: &Network, rows: &Rows, times: &Times, id: EventId) -> Cost
    requires sized { IsSized net.now rows.now }
    requires times { length times.now ≡ length net.now.events }
    requires early { AreEarly times.now }
    ensures cost { result ≡ at_place (event_cost net.now rows.now times.now) (event_place net.now id) }
    ensures limit { result ≤ WEIGHT * 2 ^ 38 }
{
    net.reveal();
    let Some(i) = net.place_of(id) else {
        return 0;
    };
    let event = net.event(i);
    if matches!(event.kind, EventKind::Arrival) && !rows.cancelled(i) {
        event.weight as u128 * times.time(i).saturating_sub(event.time) as u128
    } else {
        0
    }
}

/// The weights of a share's arrivals that are cancelled.
fn cancelled(net: &Network, rows: &Rows, share: &Share) -> Cost
    requires sized { IsSized net.now rows.now }
    requires small { IsSmall share.now }
    ensures weight { result ≡ cancelled_up_to net.now share.now rows.now (length share.now.arrivals) }
    ensures limit { result ≤ 65536 * WEIGHT }
{
    let mut sum: Cost = 0;
    for id in share.arrivals.as_slice() {
        sum += cancelled_of(net, rows, *id);
    }
    sum
}

/// The weight of an event, and nothing where it is no arrival that is cancelled.
fn cancelled_of(net: &Network, rows: &Rows, id: EventId) -> Cost
    requires sized { IsSized net.now rows.now }
    ensures weight { result ≡ at_place (cancelled_weight net.now rows.now) (event_place net.now id) }
    ensures limit { result ≤ WEIGHT }
{
    net.reveal();
    let Some(i) = net.place_of(id) else {
        return 0;
    };
    let event = net.event(i);
    if matches!(event.kind, EventKind::Arrival) && rows.cancelled(i) {
        event.weight as u128
    } else {
        0
    }
}

/// The weights of a share's changes that a path drops, or that are lost for good.
fn lost(net: &Network, rows: &Rows, path: &[Decision], share: &Share) -> Cost
    requires sized { IsSized net.now rows.now }
    requires small { IsSmall share.now }
    ensures weight { result ≡ lost_up_to net.now share.now rows.now path.now (length share.now.changes) }
    ensures limit { result ≤ 65536 * WEIGHT }
{
    let mut sum: Cost = 0;
    for id in share.changes.as_slice() {
        sum += lost_of(net, rows, path, *id);
    }
    sum
}

/// The weight of a change that a path drops, or that is lost for good, and nothing of another.
fn lost_of(net: &Network, rows: &Rows, path: &[Decision], id: ActId) -> Cost
    requires sized { IsSized net.now rows.now }
    ensures weight { result ≡ lost_weight net.now rows.now path.now id }
    ensures limit { result ≤ WEIGHT }
{
    net.reveal();
    match net.act_place(id) {
        Some(a) if has_drop(path, id) || is_lost_for_good(net, rows, a) => {
            net.activity(a).weight as u128
        }
        _ => 0,
    }
}

/// Whether a change is lost and no path may decide it.
fn is_lost_for_good(net: &Network, rows: &Rows, a: usize) -> bool
    requires sized { IsSized net.now rows.now }
    requires is_activity { a < length net.now.activities }
    ensures { result ≡ is_lost_for_good net.now rows.now a }
{
    is_lost_change(net, rows, a) && !is_free_change(net, rows, a)
}

/// Whether a path drops a change.
fn has_drop(path: &[Decision], id: ActId) -> bool
    ensures { result ≡ drops path.now id }
{
    path.iter().any(|decision| is_drop_of(id, *decision))
}

/// Whether a decision drops a change.
fn is_drop_of(id: ActId, decision: Decision) -> bool
    ensures { result ≡ is_drop_of id decision }
{
    match decision {
        Decision::Drop(act) => act.0 == id.0,
        Decision::Keep(_) | Decision::First(_, _) => false,
    }
}

/// The weights of a share's changes that their passed heads have missed.
fn missed(net: &Network, rows: &Rows, times: &Times, share: &Share) -> Cost
    requires sized { IsSized net.now rows.now }
    requires times { length times.now ≡ length net.now.events }
    requires early { AreEarly times.now }
    requires small { IsSmall share.now }
    ensures weight { result ≡ missed_up_to net.now share.now rows.now times.now (length share.now.changes) }
    ensures limit { result ≤ 65536 * WEIGHT }
{
    let mut sum: Cost = 0;
    for id in share.changes.as_slice() {
        sum += missed_of(net, rows, times, *id);
    }
    sum
}

/// The weight of a change that its passed head has missed, and nothing of another.
fn missed_of(net: &Network, rows: &Rows, times: &Times, id: ActId) -> Cost
    requires sized { IsSized net.now rows.now }
    requires times { length times.now ≡ length net.now.events }
    requires early { AreEarly times.now }
    ensures weight { result ≡ at_place (missed_weight net.now rows.now times.now) (activity_place net.now id) }
    ensures limit { result ≤ WEIGHT }
{
    net.reveal();
    let Some(a) = net.act_place(id) else {
        return 0;
    };
    let activity = net.activity(a);
    let is_missed = matches!(activity.kind, ActKind::Change)
        && rows.passed(activity.head).is_some()
        && (rows.cancelled(activity.tail) || comes_too_early(net, rows, times, a));
    if is_missed {
        activity.weight as u128
    } else {
        0
    }
}
