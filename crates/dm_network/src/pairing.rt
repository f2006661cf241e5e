//! Which events form pairs.
ghost use Rattle.std.specs.Prelude.{◌≡◌, ◌↔◌, IsTrue, map, filter_map, IfOk, IsPermutation, Contains};
ghost use Rattle.dm_network.specs.Net.{is_headway};
ghost use Rattle.dm_network.specs.Inside.Flat.{ArePairsInOrder};
ghost use Rattle.dm_network.specs.Inside.Stages.{headway_pair, upward_pair, downward_pair, PairsDoNotFall, AreCommon, AreTwoWay, with_pair, AscendStrictly, DiffersFromLast};

use crate::find::{comes_before, pair_near};
use crate::parts::{Activity, Pair};
use dm_base::ActKind;
use std::alloc::{AllocError, Global};

/// The pairs that the headways form, in ascending order.
pub fn pairs_of(alloc: Global, activities: &[Activity]) -> Result<Vec<Pair>, AllocError>
    ensures in_order { IfOk result (λ pairs. ArePairsInOrder pairs.items) }
    ensures two_way { IfOk result (λ pairs. AreTwoWay activities.now pairs.items) }
{
    let upward = sorted_pairs(upward(alloc, activities)?)?;
    let downward = sorted_pairs(downward(alloc, activities)?)?;
    let pairs = common(alloc, &upward, &downward)?;
    Ok(pairs)
}

/// The ends of the headways that lead from a smaller place to a larger one.
fn upward(alloc: Global, activities: &[Activity]) -> Result<Vec<Pair>, AllocError>
    ensures { IfOk result (λ pairs. pairs.items ≡ filter_map upward_pair activities.now) }
{
    activities.iter().filter_map(upward_of).collect(alloc)
}

/// The ends of the headways that lead from a larger place to a smaller one.
fn downward(alloc: Global, activities: &[Activity]) -> Result<Vec<Pair>, AllocError>
    ensures { IfOk result (λ pairs. pairs.items ≡ filter_map downward_pair activities.now) }
{
    activities.iter().filter_map(downward_of).collect(alloc)
}

fn upward_of(a: &Activity) -> Option<Pair>
    ensures { result ≡ upward_pair a.now }
{
    headway_pair(a, a.tail, a.head)
}

fn downward_of(a: &Activity) -> Option<Pair>
    ensures { result ≡ downward_pair a.now }
{
    headway_pair(a, a.head, a.tail)
}

/// Two events of a headway, where the first is the smaller one.
fn headway_pair(a: &Activity, small: usize, large: usize) -> Option<Pair>
    ensures { result ≡ headway_pair a.now small large }
{
    if is_headway(a.kind) && small < large {
        Some(Pair { small, large })
    } else {
        None
    }
}

fn is_headway(kind: ActKind) -> bool
    ensures { result ≡ is_headway kind }
{
    match kind {
        ActKind::Headway => true,
        ActKind::Drive | ActKind::Wait | ActKind::Turnaround | ActKind::Change => false,
    }
}

/// The same pairs in ascending order.
fn sorted_pairs(mut pairs: Vec<Pair>) -> Result<Vec<Pair>, AllocError>
    ensures same { IfOk result (λ sorted. IsPermutation pairs.items sorted.items) }
    ensures ascend { IfOk result (λ sorted. PairsDoNotFall sorted.items) }
{
    pairs.sort_by_key(|p| (p.small, p.large))?;
    Ok(pairs)
}

/// The pairs that stand in both of two lists that ascend, each once.
fn common(alloc: Global, upward: &[Pair], downward: &[Pair]) -> Result<Vec<Pair>, AllocError>
    requires upward { PairsDoNotFall upward.now }
    requires downward { PairsDoNotFall downward.now }
    ensures in_order { IfOk result (λ pairs. AscendStrictly pairs.items) }
    ensures common { IfOk result (λ pairs. AreCommon upward.now downward.now pairs.items) }
{
    let mut pairs = Vec::new(alloc);
    for p in upward {
        // Where all headways go both ways, the next common pair stands at the same place downward.
        if is_new(&pairs, p) && stands_near(downward, p, pairs.len()) {
            pairs.push(*p)?;
        }
    }
    Ok(pairs)
}

/// Whether a pair differs from the last of a list.
fn is_new(pairs: &[Pair], p: &Pair) -> bool
    ensures { IsTrue result ↔ DiffersFromLast pairs.now p.now }
{
    match pairs.last() {
        Some(q) => q.small != p.small || q.large != p.large,
        None => true,
    }
}

/// Whether a pair stands in a list that ascends, probably at this place.
fn stands_near(pairs: &[Pair], p: &Pair, near: usize) -> bool
    requires { PairsDoNotFall pairs.now }
    ensures { IsTrue result ↔ Contains pairs.now p.now }
{
    if near < pairs.len() && pairs[near] == *p {
        return true;
    }
    stands_in(pairs, p)
}

/// Whether a pair stands in a list that ascends.
fn stands_in(pairs: &[Pair], p: &Pair) -> bool
    requires { PairsDoNotFall pairs.now }
    ensures { IsTrue result ↔ Contains pairs.now p.now }
{
    let place = pairs.partition_point(|q| comes_before(q, p.small, p.large));
    place < pairs.len() && pairs[place] == *p
}

/// The activities, each headway with the pair of its events.
pub fn paired(mut activities: Vec<Activity>, pairs: &[Pair]) -> Vec<Activity>
    requires { ArePairsInOrder pairs.now }
    ensures { result.items ≡ map (with_pair pairs.now) activities.items }
{
    let mut near = 0;
    for activity in activities.iter_mut() {
        activity.pair = own_pair(activity, pairs, near);
        near = activity.pair.unwrap_or(near);
    }
    activities
}

/// The pair of an activity's events, if it is a headway; the pair probably stands at a place or at the next one.
fn own_pair(activity: &Activity, pairs: &[Pair], near: usize) -> Option<usize>
    requires { ArePairsInOrder pairs.now }
    ensures { result ≡ (with_pair pairs.now activity.now).pair }
{
    if is_headway(activity.kind) {
        pair_near(pairs, activity.tail, activity.head, near)
    } else {
        None
    }
}
