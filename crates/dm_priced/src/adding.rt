//! What one event and one activity add to the sums.
ghost use Rattle.std.specs.Prelude.{◌≡◌, true, false, ◌&&◌, ◌+◌, ◌*◌, ◌^◌, ◌<◌, ◌≤◌, length, slice_index, slice_set, sum_by, if◌then◌else◌};
ghost use Rattle.dm_network.specs.Net.{activity_at, is_change};
ghost use Rattle.dm_base.specs.declared.limits.TheConstants.{BOUND, DELAY, WEIGHT};
ghost use Rattle.dm_settle.specs.Constraints.{IsSizedFor};
ghost use Rattle.dm_settle.specs.Moving.{IsMove, times_after};
ghost use Rattle.dm_priced.specs.Priced.{is_flagged, lateness_of, missed_of};
ghost use Rattle.dm_priced.specs.Inside.Adding.{cost_at, late_at, lost_at, misses_with, misses_at, misses_before, misses_after, AreActivities, AreFlagsOf, HasFlaggedTails};

use dm_base::{ActKind, Cost, EventKind, Milli, Secs};
use dm_network::Network;
use dm_settle::{Constraints, Move, Times};

/// Which events have passed, and which are cancelled.
#[derive(Clone, Copy)]
pub struct EventFlags<'a> {
    pub passed: &'a [bool],
    pub cancelled: &'a [bool],
}

/// What the lateness of an event costs at a time, in thousandths of passenger seconds: nothing unless it is an arrival.
pub fn cost_at(net: &Network, i: usize, time: Secs) -> Cost
    requires is_event { i < length net.now.events }
    requires early { time < 2 ^ 38 }
    ensures cost { result ≡ cost_at net.now i time }
    ensures limit { result ≤ WEIGHT * 2 ^ 38 }
{
    net.reveal();
    let event = net.event(i);
    match event.kind {
        EventKind::Departure => 0,
        EventKind::Arrival => event.weight as u128 * time.saturating_sub(event.time) as u128,
    }
}

/// The same unless the event is cancelled.
pub fn late_at(net: &Network, cancelled: bool, i: usize, time: Secs) -> Cost
    requires is_event { i < length net.now.events }
    requires early { time < 2 ^ 38 }
    ensures cost { result ≡ late_at net.now cancelled i time }
    ensures limit { result ≤ WEIGHT * 2 ^ 38 }
{
    if cancelled { 0 } else { cost_at(net, i, time) }
}

/// The weight of an event, if it is an arrival that is cancelled.
pub fn lost_at(net: &Network, cancelled: bool, i: usize) -> Cost
    requires { i < length net.now.events }
    ensures weight { result ≡ lost_at net.now cancelled i }
    ensures limit { result ≤ WEIGHT }
{
    net.reveal();
    let event = net.event(i);
    if matches!(event.kind, EventKind::Arrival) && cancelled {
        event.weight as Cost
    } else {
        0
    }
}

/// What the lateness of the arrivals costs once an event that is not cancelled has moved, where this is what it cost before.
#[inline(always)]
pub fn lateness_then(net: &Network, flags: EventFlags<'_>, to: &Move<'_>, lateness: Cost) -> Cost
    requires is_move { IsMove net.now to.now }
    requires as_many { AreFlagsOf net.now flags }
    requires runs { is_flagged flags.cancelled.now to.now.event ≡ false }
    requires known { lateness ≡ lateness_of net.now flags.cancelled.now to.now.times.now }
    ensures { result ≡ lateness_of net.now flags.entry.cancelled.now (times_after to.now) }
{
    net.reveal();
    to.times.is_early();
    let earlier = to.times.time(to.event);
    let cost = cost_at(net, to.event, to.time);
    let was = cost_at(net, to.event, earlier);
    lateness + cost - was
}

/// The same of an event that may be cancelled. It stays a call, so that what is inlined above it is short.
#[inline(never)]
pub fn lateness_anew(net: &Network, flags: EventFlags<'_>, to: Move<'_>, lateness: Cost) -> Cost
    requires is_move { IsMove net.now to }
    requires as_many { AreFlagsOf net.now flags }
    requires known { lateness ≡ lateness_of net.now flags.cancelled.now to.times.now }
    ensures { result ≡ lateness_of net.now flags.entry.cancelled.now (times_after to.entry) }
{
    if is_flagged(flags.cancelled, to.event) {
        lateness
    } else {
        lateness_then(net, flags, &to, lateness)
    }
}

/// The weight of a change, if its head has passed, and its tail is cancelled or the head comes before its tail and its span allow.
/// Times and spans are seconds.
fn missed_at(
    net: &Network,
    flags: EventFlags<'_>,
    a: usize,
    tail: Secs,
    head: Secs,
    span: Secs,
) -> Milli
    requires is_activity { a < length net.now.activities }
    requires as_many { AreFlagsOf net.now flags }
    requires early { tail < 2 ^ 38 }
    requires limit { span ≤ BOUND + DELAY }
    ensures weight { result ≡ misses_with net.now flags.entry a tail head span }
    ensures limit { result ≤ WEIGHT }
{
    net.reveal();
    let activity = net.activity(a);
    if !matches!(activity.kind, ActKind::Change) || !flags.passed[activity.head] {
        return 0;
    }
    if flags.cancelled[activity.tail] || head < tail + span {
        activity.weight
    } else {
        0
    }
}

/// The weight of an activity that is missed, where it has this span.
pub fn missed_with(
    net: &Network,
    flags: EventFlags<'_>,
    times: &Times,
    a: usize,
    span: Secs,
) -> Cost
    requires is_activity { a < length net.now.activities }
    requires as_many { AreFlagsOf net.now flags }
    requires as_many_times { length times.now ≡ length net.now.events }
    requires limit { span ≤ BOUND + DELAY }
    ensures weight { result ≡ misses_with net.now flags.entry a (slice_index times.now (activity_at net.now a).tail)
        (slice_index times.now (activity_at net.now a).head) span }
    ensures limit { result ≤ WEIGHT }
{
    net.reveal();
    let activity = net.activity(a);
    let tail = times.time(activity.tail);
    let head = times.time(activity.head);
    missed_at(net, flags, a, tail, head, span) as Cost
}

/// A weight, where it is charged for.
pub fn weight_if(charged: bool, weight: Milli) -> Cost
    ensures { result ≡ (if charged then weight else 0) }
{
    if charged { weight as Cost } else { 0 }
}

/// The weight of an activity that is missed, where an event has moved.
fn missed_after(net: &Network, flags: EventFlags<'_>, to: &Move<'_>, a: usize) -> Milli
    requires is_move { IsMove net.now to.now }
    requires as_many { AreFlagsOf net.now flags }
    requires is_activity { a < length net.now.activities }
    ensures weight { result ≡ misses_after net.now flags.entry to.now a }
    ensures limit { result ≤ WEIGHT }
{
    net.reveal();
    let activity = net.activity(a);
    let tail = to.times.time_where(to.event, to.time, activity.tail);
    let head = to.times.time_where(to.event, to.time, activity.head);
    missed_at(net, flags, a, tail, head, to.constraints.span(a))
}

/// Whether an activity is a change whose head has passed. No other is missed.
fn is_change_to_passed(net: &Network, flags: EventFlags<'_>, a: usize) -> bool
    requires is_activity { a < length net.now.activities }
    requires as_many { AreFlagsOf net.now flags }
    ensures { result ≡ is_change (activity_at net.now a).kind && is_flagged flags.entry.passed.now (activity_at net.now a).head }
{
    net.reveal();
    let activity = net.activity(a);
    matches!(activity.kind, ActKind::Change) && flags.passed[activity.head]
}

/// The weights of activities that are missed, before an event moves and from then on.
#[derive(Clone, Copy)]
pub struct Missed {
    pub was: Cost,
    pub now: Cost,
}

/// What one activity adds to these.
fn missed_by(net: &Network, flags: EventFlags<'_>, to: &Move<'_>, a: usize) -> Missed
    requires is_move { IsMove net.now to.now }
    requires as_many { AreFlagsOf net.now flags }
    requires is_activity { a < length net.now.activities }
    ensures was { result.was ≡ misses_before net.now flags.entry to.now a }
    ensures now { result.now ≡ misses_after net.now flags.entry to.now a }
    ensures was_limit { result.was ≤ WEIGHT }
    ensures now_limit { result.now ≤ WEIGHT }
{
    if !is_change_to_passed(net, flags, a) {
        return Missed { was: 0, now: 0 };
    }
    let was = missed_with(net, flags, to.times, a, to.constraints.span(a));
    let now = missed_after(net, flags, to, a);
    Missed {
        was,
        now: now as Cost,
    }
}

/// What the activities into an event that moves and out of it add to these.
fn missed_around(net: &Network, flags: EventFlags<'_>, to: &Move<'_>) -> Missed
    requires is_move { IsMove net.now to.now }
    requires as_many { AreFlagsOf net.now flags }
    ensures was { result.was ≡ sum_by (misses_before net.now flags.entry to.now) to.now.into.now
        + sum_by (misses_before net.now flags.entry to.now) to.now.out_of.now }
    ensures now { result.now ≡ sum_by (misses_after net.now flags.entry to.now) to.now.into.now
        + sum_by (misses_after net.now flags.entry to.now) to.now.out_of.now }
    ensures now_limit { result.now < 2 ^ 97 }
{
    let along_into = missed_into(net, flags, to);
    let along_out = missed_between(net, flags, to, to.out_of);
    Missed {
        was: along_into.was + along_out.was,
        now: along_into.now + along_out.now,
    }
}

/// The weight of the changes that are missed once an event has moved, where this is the weight before, by a look at the activities
/// around the event. It stays a call, so that what is inlined above it is short.
#[inline(never)]
pub fn missed_anew(net: &Network, flags: EventFlags<'_>, to: Move<'_>, missed: Cost) -> Cost
    requires is_move { IsMove net.now to }
    requires as_many { AreFlagsOf net.now flags }
    requires known { missed ≡ missed_of net.now flags.passed.now flags.cancelled.now to.constraints.now.spans to.times.now }
    ensures { result ≡ missed_of net.now flags.entry.passed.now flags.entry.cancelled.now to.entry.constraints.now.spans
        (times_after to.entry) }
{
    net.reveal();
    let around = missed_around(net, flags, &to);
    missed + around.now - around.was
}

/// What the activities of a row add to these.
fn missed_between(net: &Network, flags: EventFlags<'_>, to: &Move<'_>, row: &[usize]) -> Missed
    requires is_move { IsMove net.now to.now }
    requires as_many { AreFlagsOf net.now flags }
    requires activities { AreActivities net.now row.now }
    ensures was { result.was ≡ sum_by (misses_before net.now flags.entry to.now) row.now }
    ensures now { result.now ≡ sum_by (misses_after net.now flags.entry to.now) row.now }
    ensures was_limit { result.was < 2 ^ 96 }
    ensures now_limit { result.now < 2 ^ 96 }
{
    let mut was = 0;
    let mut now = 0;
    for a in row {
        let missed = missed_by(net, flags, to, *a);
        was += missed.was;
        now += missed.now;
    }
    Missed { was, now }
}

/// What the activities into the event add to these: nothing unless it has passed.
fn missed_into(net: &Network, flags: EventFlags<'_>, to: &Move<'_>) -> Missed
    requires is_move { IsMove net.now to.now }
    requires as_many { AreFlagsOf net.now flags }
    ensures was { result.was ≡ sum_by (misses_before net.now flags.entry to.now) to.now.into.now }
    ensures now { result.now ≡ sum_by (misses_after net.now flags.entry to.now) to.now.into.now }
    ensures was_limit { result.was < 2 ^ 96 }
    ensures now_limit { result.now < 2 ^ 96 }
{
    if is_flagged(flags.passed, to.event) {
        missed_between(net, flags, to, to.into)
    } else {
        Missed { was: 0, now: 0 }
    }
}

/// Whether an event is flagged.
pub fn is_flagged(flags: &[bool], event: usize) -> bool
    requires { event < length flags.now }
    ensures { result ≡ is_flagged flags.now event }
{
    flags[event]
}

/// Flags an event that has passed or has not, and the tails of the changes into it, whose row this is.
pub fn flag_beside(net: &Network, beside: &mut [bool], event: usize, into: &[usize])
    requires as_many { length beside.old ≡ length net.now.events }
    requires is_event { event < length net.now.events }
    requires activities { AreActivities net.now into.now }
    ensures { HasFlaggedTails net.now into.now (length into.now) (slice_set beside.old event true) beside.new }
{
    net.reveal();
    beside[event] = true;
    for a in into {
        flag_tail(net, beside, *a);
    }
}

/// Flags the tail of an activity if it is a change.
fn flag_tail(net: &Network, beside: &mut [bool], a: usize)
    requires as_many { length beside.old ≡ length net.now.events }
    requires is_activity { a < length net.now.activities }
    ensures { beside.new ≡ (if is_change (activity_at net.now a).kind then slice_set beside.old (activity_at net.now a).tail true else
        beside.old) }
{
    net.reveal();
    let activity = net.activity(a);
    if matches!(activity.kind, ActKind::Change) {
        beside[activity.tail] = true;
    }
}

/// The weights of the activities of a row that are missed.
pub fn missed_along(
    net: &Network,
    constraints: &Constraints,
    flags: EventFlags<'_>,
    times: &Times,
    row: &[usize],
) -> Cost
    requires sized { IsSizedFor net.now constraints.now }
    requires as_many { AreFlagsOf net.now flags }
    requires as_many_times { length times.now ≡ length net.now.events }
    requires activities { AreActivities net.now row.now }
    ensures weight { result ≡ sum_by (misses_at net.now flags.entry constraints.now.spans times.now) row.now }
    ensures limit { result < 2 ^ 96 }
{
    let mut total = 0;
    for a in row {
        total += missed_with(net, flags, times, *a, constraints.span(*a));
    }
    total
}
