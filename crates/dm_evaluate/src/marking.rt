//! What is marked where an event moves.
ghost use Rattle.std.specs.Prelude.{ℕ, ◌≡◌, ◌<◌, true, All, length};
ghost use Rattle.dm_priced.specs.Priced.{comes_too_early};
ghost use Rattle.dm_settle.specs.Moving.{IsMove, times_after};
ghost use Rattle.dm_paths.specs.RowsRead.{IsAmong};
ghost use Rattle.dm_evaluate.specs.Inside.Marking.{MarksWhere, IsEarlyAt, IsEarlyAmong, IsEarlyHeadway, IsEarlyBothWays, IsEarlyBothWaysAmong};

use crate::headways::is_headway_of;
use dm_base::ActKind;
use dm_marks::Marks;
use dm_network::Network;
use dm_settle::Move;

/// Marks those of these activities that are changes whose head comes too early where an event has moved.
#[tactic(auto, using(crate::proofs::Marked::none_early, crate::proofs::Marked::next_early))]
pub fn mark_early(changes: &mut Marks, net: &Network, to: &Move<'_>, row: &[usize])
    requires room { length changes.old ≡ length net.now.activities }
    requires is_move { IsMove net.now to.now }
    requires are_activities { All (λ a. a < length net.now.activities) row.now }
    ensures { MarksWhere (IsEarlyAmong net.now to.now.constraints.now.spans (times_after to.now) row.now (length row.now)) changes.old
        changes.new }
{
    for a in row {
        mark_if_early(changes, net, to, *a);
    }
}

/// Marks an activity where it is a change whose head comes too early where an event has moved.
#[tactic(auto, using(crate::proofs::Marked::no_change_marked, crate::proofs::Marked::not_early_marked, crate::proofs::Marked::change_marked))]
fn mark_if_early(changes: &mut Marks, net: &Network, to: &Move<'_>, a: usize)
    requires room { length changes.old ≡ length net.now.activities }
    requires is_move { IsMove net.now to.now }
    requires is_activity { a < length net.now.activities }
    ensures { MarksWhere (IsEarlyAt net.now to.now.constraints.now.spans (times_after to.now) a) changes.old changes.new }
{
    if !matches!(net.activity(a).kind, ActKind::Change) {
        return;
    }
    if is_early_after(net, to, a) {
        changes.mark(a);
    }
}

/// Marks the pairs of which a headway out of the event and one into it are not met where it has moved.
#[tactic(auto, using(crate::proofs::Marked::none_unmet, crate::proofs::Marked::next_unmet))]
pub fn mark_unmet(pairs: &mut Marks, net: &Network, to: &Move<'_>)
    requires room { length pairs.old ≡ length net.now.pairs }
    requires is_move { IsMove net.now to.now }
    requires into_activities { All (λ a. a < length net.now.activities) to.now.into.now }
    requires out_activities { All (λ a. a < length net.now.activities) to.now.out_of.now }
    ensures { MarksWhere (IsEarlyBothWaysAmong net.now to.now.constraints.now.spans (times_after to.now) to.now.into.now to.now.out_of.now
        (length to.now.out_of.now)) pairs.old pairs.new }
{
    for a in to.out_of {
        mark_pair_of(pairs, net, to, *a);
    }
}

/// Marks the pair of an activity where it is not met, nor is one of the same pair into the event.
#[tactic(auto, using(crate::proofs::Marked::no_pair_marked, crate::proofs::Marked::met_marked, crate::proofs::Marked::met_back_marked, crate::proofs::Marked::pair_marked))]
fn mark_pair_of(pairs: &mut Marks, net: &Network, to: &Move<'_>, a: usize)
    requires room { length pairs.old ≡ length net.now.pairs }
    requires is_move { IsMove net.now to.now }
    requires into_activities { All (λ a. a < length net.now.activities) to.now.into.now }
    requires is_activity { a < length net.now.activities }
    ensures { MarksWhere (IsEarlyBothWays net.now to.now.constraints.now.spans (times_after to.now) to.now.into.now a) pairs.old pairs.new }
{
    net.reveal();
    let Some(p) = net.activity(a).pair else {
        return;
    };
    if !is_early_after(net, to, a) {
        return;
    }
    if has_early_of(net, to, p) {
        pairs.mark(p);
    }
}

/// Whether one of the activities into the event is a headway of a pair that is not met where the event has moved.
fn has_early_of(net: &Network, to: &Move<'_>, p: usize) -> bool
    requires is_move { IsMove net.now to.now }
    requires into_activities { All (λ a. a < length net.now.activities) to.now.into.now }
    ensures { (b : ℕ) → IsAmong to.now.into.now (length to.now.into.now) b
        → IsEarlyHeadway net.now to.now.constraints.now.spans (times_after to.now) p b → result ≡ true }
{
    for a in to.into {
        if is_headway_of(net, *a, p) && is_early_after(net, to, *a) {
            return true;
        }
    }
    false
}

/// Whether the head of an activity comes too early where an event has moved.
fn is_early_after(net: &Network, to: &Move<'_>, a: usize) -> bool
    requires is_move { IsMove net.now to.now }
    requires is_activity { a < length net.now.activities }
    ensures { result ≡ comes_too_early net.now to.now.constraints.now.spans (times_after to.now) a }
{
    net.reveal();
    let activity = net.activity(a);
    let tail = to.times.time_where(to.event, to.time, activity.tail);
    let head = to.times.time_where(to.event, to.time, activity.head);
    head < tail + to.constraints.span(a)
}
