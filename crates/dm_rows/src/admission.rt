//! What a message comes to by place, or why it is refused.
ghost use Rattle.std.specs.Prelude.{◌≡◌, ◌<◌, ◌≤◌, true, false, Some, None, All, IfOk, IfErr, IfSome, IfNone, OnOk, length};
ghost use Rattle.dm_network.specs.Net.{activity_at, activity_place, event_place, is_change};
ghost use Rattle.dm_rows.specs.Rows.{IsSized, passed_at, is_cancelled};
ghost use Rattle.dm_rows.specs.Reach.{Reaches, ReachesFlip, ReachesSpot};
ghost use Rattle.dm_rows.specs.Resolve.{change_named, flip_named, flips_named, named_pair, spot_named};
ghost use Rattle.dm_rows.specs.Refuse.{PassesAtOnce, RefusesDecision, PassesDecision, RefusesSome, RefusesChange, RefusesFirst, RefusesNumberFor, RefusesDelayOf, RefusesRecall, HeadHasPassed, RefusesNothing, RefusesAdmission, RefusesClock, RefusesCancel, RefusesRestore, RefusesLock, RefusesUnlock, RefusesNoChange, RefusesNoPair, IsFirstCancelled};

use crate::messages::{Change, Choice, Decision, Flip, Message, Refusal, Spot};
use crate::rows::Rows;
use dm_base::limits::{DELAY, PASSED_TIME};
use dm_base::{ActId, ActKind, EventId, Items, Secs};
use dm_network::Network;
use std::alloc::Global;

/// What a message comes to by place, or the first cause that refuses it for its numbers, its ids, the events that have
/// passed or are cancelled, the locks or the clock. A cycle of the rows after it, and a full history, are not looked for.
/// Only an `Adopt` takes memory.
pub fn admit(
    alloc: Global,
    net: &Network,
    rows: &Rows,
    message: &Message,
) -> Result<Change, Refusal>
    requires { IsSized net.now rows.now }
    ensures named { IfOk result (λ change. change_named net.now message.now ≡ Some change) }
    ensures reaches { IfOk result (Reaches rows.now) }
    ensures passes { IfOk result (λ _. PassesAtOnce net.now rows.now message.now) }
    ensures refused { IfErr result (RefusesAdmission net.now rows.now message.now) }
{
    match message {
        Message::DelayEvent(e, delay) => {
            let event = free_event(net, rows, DELAY, *e, *delay)?;
            Ok(Change::EventDelay {
                event,
                delay: *delay,
            })
        }
        Message::DelayActivity(a, delay) => {
            let act = delayed_activity(net, rows, *a, *delay)?;
            Ok(Change::ActDelay { act, delay: *delay })
        }
        Message::Pass(e, time) => {
            let event = free_event(net, rows, PASSED_TIME, *e, *time)?;
            Ok(Change::Passed { event, time: *time })
        }
        Message::Recall(e) => recalled_event(net, rows, *e),
        Message::Keep(a) => flip_of(net, rows, &Decision::Keep(*a)).map(Change::Flipped),
        Message::Drop(a) => flip_of(net, rows, &Decision::Drop(*a)).map(Change::Flipped),
        Message::First(i, j) => flip_of(net, rows, &Decision::First(*i, *j)).map(Change::Flipped),
        Message::Adopt(decisions) => flips_of(alloc, net, rows, decisions.as_slice()).map(
            Change::Adopted,
        ),
        Message::Now(time) => clock_at(rows, *time),
        Message::Cancel(e) => cancelled_event(net, rows, *e),
        Message::Restore(e) => restored_event(net, rows, *e),
        Message::Lock(choice) => lock_of(net, rows, *choice).map(Change::Locked),
        Message::Unlock(choice) => unlock_of(net, rows, *choice).map(Change::Unlocked),
    }
}

/// What one decision comes to by place, or the first cause that refuses it. It takes no memory.
pub fn flip_of(net: &Network, rows: &Rows, decision: &Decision) -> Result<Flip, Refusal>
    requires { IsSized net.now rows.now }
    ensures named { IfOk result (λ flip. flip_named net.now decision.now ≡ Some flip) }
    ensures reaches { IfOk result (ReachesFlip rows.now) }
    ensures passes { IfOk result (λ _. PassesDecision net.now rows.now decision.now) }
    ensures refused { IfErr result (RefusesDecision net.now rows.now decision.now) }
{
    match *decision {
        Decision::Keep(a) => {
            let act = free_change(net, rows, a)?;
            Ok(Flip::Keep { act })
        }
        Decision::Drop(a) => {
            let act = free_change(net, rows, a)?;
            Ok(Flip::Drop { act })
        }
        Decision::First(i, j) => first_of_pair(net, rows, i, j),
    }
}

/// The flips of a list of decisions, in order.
fn flips_of(
    alloc: Global,
    net: &Network,
    rows: &Rows,
    decisions: &[Decision],
) -> Result<Items<Flip>, Refusal>
    requires { IsSized net.now rows.now }
    ensures named { IfOk result (λ flips. flips_named net.now decisions.now ≡ Some flips) }
    ensures reaches { IfOk result (All (ReachesFlip rows.now)) }
    ensures passes { IfOk result (λ _. RefusesNothing (RefusesSome net.now rows.now decisions.now)) }
    ensures refused { IfErr result (RefusesAdmission net.now rows.now (Message.Adopt decisions.now)) }
{
    let mut flips = Vec::new(alloc);
    for decision in decisions {
        match flip_of(net, rows, decision) {
            Ok(flip) => {
                let Ok(()) = flips.push(flip) else {
                    return Err(Refusal::OutOfMemory);
                };
            }
            Err(refusal) => return Err(refusal),
        }
    }
    Ok(Items::from_vec(flips))
}

/// The place of a change whose head has not passed, none of whose ends is cancelled, and that is not locked.
fn free_change(net: &Network, rows: &Rows, a: ActId) -> Result<usize, Refusal>
    requires { IsSized net.now rows.now }
    ensures place { IfOk result (λ act. activity_place net.now a ≡ Some act) }
    ensures reaches { IfOk result (λ act. act < length rows.now.kept) }
    ensures passes { IfOk result (λ _. RefusesNothing (RefusesChange net.now rows.now a)) }
    ensures refused { IfErr result (RefusesChange net.now rows.now a) }
{
    let act = match known_change(net, a) {
        Ok(act) => act,
        Err(refusal) => return Err(refusal),
    };
    if let Some((e, time)) = passed_head(net, rows, act) {
        return Err(Refusal::Passed(e, time));
    }
    net.reveal();
    let activity = net.activity(act);
    if let Some(e) = first_cancelled(net, rows, activity.tail, activity.head) {
        return Err(Refusal::Cancelled(e));
    }
    if rows.locked_change(act) {
        return Err(Refusal::Locked(Choice::Change(a)));
    }
    Ok(act)
}

/// The place of a change.
fn known_change(net: &Network, a: ActId) -> Result<usize, Refusal>
    ensures place { IfOk result (λ act. activity_place net.now a ≡ Some act) }
    ensures is_activity { IfOk result (λ act. act < length net.now.activities) }
    ensures is_change { IfOk result (λ act. is_change (activity_at net.now act).kind ≡ true) }
    ensures refused { IfErr result (RefusesNoChange net.now a) }
{
    let Some(act) = net.act_place(a) else {
        return Err(Refusal::UnknownActivity(a));
    };
    if !matches!(net.activity(act).kind, ActKind::Change) {
        return Err(Refusal::UnknownChange(a));
    }
    Ok(act)
}

/// The first of two events, by place, that is cancelled, or `None` where neither is.
fn first_cancelled(net: &Network, rows: &Rows, x: usize, y: usize) -> Option<EventId>
    requires sized { IsSized net.now rows.now }
    requires first { x < length net.now.events }
    requires second { y < length net.now.events }
    ensures is { IfSome result (IsFirstCancelled net.now rows.now x y) }
    ensures neither { IfNone result ((is_cancelled rows.now x ≡ false) × (is_cancelled rows.now y ≡ false)) }
{
    if rows.cancelled(x) {
        return Some(net.event(x).id);
    }
    if rows.cancelled(y) {
        return Some(net.event(y).id);
    }
    None
}

/// The head of an activity and when it has passed, or `None` where it has not.
fn passed_head(net: &Network, rows: &Rows, act: usize) -> Option<(EventId, Secs)>
    requires sized { IsSized net.now rows.now }
    requires is_activity { act < length net.now.activities }
    ensures passed { IfSome result (λ p. HeadHasPassed net.now rows.now act p.0 p.1) }
    ensures free { IfNone result (passed_at rows.now (activity_at net.now act).head ≡ None) }
{
    net.reveal();
    let head = net.activity(act).head;
    let time = rows.passed(head)?;
    Some((net.event(head).id, time))
}

/// Which event of a pair goes first, where neither has passed or is cancelled, and it is not locked.
fn first_of_pair(net: &Network, rows: &Rows, i: EventId, j: EventId) -> Result<Flip, Refusal>
    requires { IsSized net.now rows.now }
    ensures named { IfOk result (λ flip. flip_named net.now (Decision.First i j) ≡ Some flip) }
    ensures reaches { IfOk result (ReachesFlip rows.now) }
    ensures passes { IfOk result (λ _. RefusesNothing (RefusesFirst net.now rows.now i j)) }
    ensures refused { IfErr result (RefusesFirst net.now rows.now i j) }
{
    let (pair, x) = free_pair(net, rows, i, j)?;
    let small = net.pair(pair).small == x;
    Ok(Flip::First { pair, small })
}

/// The place of the pair of two events, of which neither has passed or is cancelled, and that is not locked, and of the first.
fn free_pair(net: &Network, rows: &Rows, i: EventId, j: EventId) -> Result<(usize, usize), Refusal>
    requires { IsSized net.now rows.now }
    ensures pair { IfOk result (λ p. named_pair net.now i j ≡ Some p.0) }
    ensures first { IfOk result (λ p. event_place net.now i ≡ Some p.1) }
    ensures is_pair { IfOk result (λ p. p.0 < length net.now.pairs) }
    ensures passes { IfOk result (λ _. RefusesNothing (RefusesFirst net.now rows.now i j)) }
    ensures refused { IfErr result (RefusesFirst net.now rows.now i j) }
{
    let (pair, x, y) = match known_pair(net, i, j) {
        Ok(known) => known,
        Err(refusal) => return Err(refusal),
    };
    if let Some(time) = rows.passed(x) {
        return Err(Refusal::Passed(i, time));
    }
    if let Some(time) = rows.passed(y) {
        return Err(Refusal::Passed(j, time));
    }
    if let Some(e) = first_cancelled(net, rows, x, y) {
        return Err(Refusal::Cancelled(e));
    }
    if rows.locked_pair(pair) {
        return Err(Refusal::Locked(Decision::First(i, j).choice()));
    }
    Ok((pair, x))
}

/// The places of a pair and of its two events, in the order of the ids.
fn known_pair(net: &Network, i: EventId, j: EventId) -> Result<(usize, usize, usize), Refusal>
    ensures pair { IfOk result (λ p. named_pair net.now i j ≡ Some p.0) }
    ensures is_pair { IfOk result (λ p. p.0 < length net.now.pairs) }
    ensures first { IfOk result (λ p. event_place net.now i ≡ Some p.1) }
    ensures second { IfOk result (λ p. event_place net.now j ≡ Some p.2) }
    ensures refused { IfErr result (RefusesNoPair net.now i j) }
{
    let Some(x) = net.place_of(i) else {
        return Err(Refusal::UnknownEvent(i));
    };
    let Some(y) = net.place_of(j) else {
        return Err(Refusal::UnknownEvent(j));
    };
    let Some(pair) = net.pair_of(x, y) else {
        return Err(Refusal::UnknownPair(i, j));
    };
    Ok((pair, x, y))
}

/// The choice to lock, by place: its decisions are refused by nothing at once.
fn lock_of(net: &Network, rows: &Rows, choice: Choice) -> Result<Spot, Refusal>
    requires { IsSized net.now rows.now }
    ensures named { IfOk result (λ spot. spot_named net.now choice ≡ Some spot) }
    ensures reaches { IfOk result (ReachesSpot rows.now) }
    ensures passes { IfOk result (λ _. RefusesNothing (RefusesLock net.now rows.now choice)) }
    ensures refused { IfErr result (RefusesLock net.now rows.now choice) }
{
    match choice {
        Choice::Change(a) => {
            let act = free_change(net, rows, a)?;
            Ok(Spot::Change { act })
        }
        Choice::Pair(i, j) => {
            let (pair, _) = free_pair(net, rows, i, j)?;
            Ok(Spot::Pair { pair })
        }
    }
}

/// The choice to unlock, by place, which is locked.
fn unlock_of(net: &Network, rows: &Rows, choice: Choice) -> Result<Spot, Refusal>
    requires { IsSized net.now rows.now }
    ensures named { IfOk result (λ spot. spot_named net.now choice ≡ Some spot) }
    ensures reaches { IfOk result (ReachesSpot rows.now) }
    ensures passes { IfOk result (λ _. RefusesNothing (RefusesUnlock net.now rows.now choice)) }
    ensures refused { IfErr result (RefusesUnlock net.now rows.now choice) }
{
    let (spot, locked) = match choice {
        Choice::Change(a) => {
            let act = known_change(net, a)?;
            (Spot::Change { act }, rows.locked_change(act))
        }
        Choice::Pair(i, j) => {
            let (pair, _, _) = known_pair(net, i, j)?;
            (Spot::Pair { pair }, rows.locked_pair(pair))
        }
    };
    if !locked {
        return Err(Refusal::NotLocked(choice.sorted()));
    }
    Ok(spot)
}

/// The place of an event that has not passed, where the number for it is at most the limit.
fn free_event(
    net: &Network,
    rows: &Rows,
    limit: Secs,
    e: EventId,
    number: Secs,
) -> Result<usize, Refusal>
    requires { IsSized net.now rows.now }
    ensures place { IfOk result (λ i. event_place net.now e ≡ Some i) }
    ensures is_event { IfOk result (λ i. i < length net.now.events) }
    ensures in_range { OnOk result (number ≤ limit) }
    ensures passes { IfOk result (λ _. RefusesNothing (RefusesNumberFor net.now rows.now limit e number)) }
    ensures refused { IfErr result (RefusesNumberFor net.now rows.now limit e number) }
{
    if number > limit {
        return Err(Refusal::Range(number));
    }
    let Some(event) = net.place_of(e) else {
        return Err(Refusal::UnknownEvent(e));
    };
    match rows.passed(event) {
        Some(time) => Err(Refusal::Passed(e, time)),
        None => Ok(event),
    }
}

/// The place of an activity whose head has not passed, where the delay for it is at most the limit.
fn delayed_activity(net: &Network, rows: &Rows, a: ActId, delay: Secs) -> Result<usize, Refusal>
    requires { IsSized net.now rows.now }
    ensures place { IfOk result (λ act. activity_place net.now a ≡ Some act) }
    ensures is_activity { IfOk result (λ act. act < length net.now.activities) }
    ensures in_range { OnOk result (delay ≤ DELAY) }
    ensures passes { IfOk result (λ _. RefusesNothing (RefusesDelayOf net.now rows.now a delay)) }
    ensures refused { IfErr result (RefusesDelayOf net.now rows.now a delay) }
{
    if delay > DELAY {
        return Err(Refusal::Range(delay));
    }
    let Some(act) = net.act_place(a) else {
        return Err(Refusal::UnknownActivity(a));
    };
    match passed_head(net, rows, act) {
        Some((e, time)) => Err(Refusal::Passed(e, time)),
        None => Ok(act),
    }
}

/// The recall of an event that has passed.
fn recalled_event(net: &Network, rows: &Rows, e: EventId) -> Result<Change, Refusal>
    requires { IsSized net.now rows.now }
    ensures named { IfOk result (λ change. change_named net.now (Message.Recall e) ≡ Some change) }
    ensures reaches { IfOk result (Reaches rows.now) }
    ensures passes { IfOk result (λ _. RefusesNothing (RefusesRecall net.now rows.now e)) }
    ensures refused { IfErr result (RefusesRecall net.now rows.now e) }
{
    let Some(event) = net.place_of(e) else {
        return Err(Refusal::UnknownEvent(e));
    };
    match rows.passed(event) {
        Some(_) => Ok(Change::Recalled { event }),
        None => Err(Refusal::NotPassed(e)),
    }
}

/// The cancelling of an event that is still to come.
fn cancelled_event(net: &Network, rows: &Rows, e: EventId) -> Result<Change, Refusal>
    requires { IsSized net.now rows.now }
    ensures named { IfOk result (λ change. change_named net.now (Message.Cancel e) ≡ Some change) }
    ensures reaches { IfOk result (Reaches rows.now) }
    ensures passes { IfOk result (λ _. RefusesNothing (RefusesCancel net.now rows.now e)) }
    ensures refused { IfErr result (RefusesCancel net.now rows.now e) }
{
    let Some(event) = net.place_of(e) else {
        return Err(Refusal::UnknownEvent(e));
    };
    if let Some(time) = rows.passed(event) {
        return Err(Refusal::Passed(e, time));
    }
    if rows.cancelled(event) {
        return Err(Refusal::Cancelled(e));
    }
    Ok(Change::Cancelled { event })
}

/// The restoring of an event that is cancelled.
fn restored_event(net: &Network, rows: &Rows, e: EventId) -> Result<Change, Refusal>
    requires { IsSized net.now rows.now }
    ensures named { IfOk result (λ change. change_named net.now (Message.Restore e) ≡ Some change) }
    ensures reaches { IfOk result (Reaches rows.now) }
    ensures passes { IfOk result (λ _. RefusesNothing (RefusesRestore net.now rows.now e)) }
    ensures refused { IfErr result (RefusesRestore net.now rows.now e) }
{
    let Some(event) = net.place_of(e) else {
        return Err(Refusal::UnknownEvent(e));
    };
    if !rows.cancelled(event) {
        return Err(Refusal::NotCancelled(e));
    }
    Ok(Change::Restored { event })
}

/// A clock that is not taken back.
fn clock_at(rows: &Rows, time: Secs) -> Result<Change, Refusal>
    ensures named { IfOk result (λ change. change ≡ Change.Clock time) }
    ensures in_range { OnOk result (time ≤ PASSED_TIME) }
    ensures passes { IfOk result (λ _. RefusesNothing (RefusesClock rows.now time)) }
    ensures refused { IfErr result (RefusesClock rows.now time) }
{
    if time > PASSED_TIME {
        return Err(Refusal::Range(time));
    }
    let clock = rows.clock();
    if time < clock {
        return Err(Refusal::Back(clock));
    }
    Ok(Change::Clock { time })
}
