//! The order in which a rule looks at the free changes.
ghost use Rattle.std.specs.Prelude.{◌≡◌, ◌+◌, ◌<◌, length, map, filter, IfOk, slice_index_or, IsPermutation, ℕ};
ghost use Rattle.std.specs.List.{range_with_len};
ghost use Rattle.dm_rows.specs.Rows.{IsSized};
ghost use Rattle.dm_rows.specs.Decide.{is_free_change};
ghost use Rattle.dm_waitrule.specs.Rules.{IsRuleOrder};
ghost use Rattle.dm_waitrule.specs.Inside.Keyed.{keyed, places_of, IsNoLater};

use dm_base::{ActId, EventId, Secs};
use dm_network::Network;
use dm_rows::{Rows, is_free_change};
use std::alloc::{AllocError, Global};

/// A free change by place, with what it is sorted by.
#[derive(Clone, Copy)]
pub struct FreeChange {
    pub act: usize,

    /// When its head is scheduled, in seconds.
    pub time: Secs,
    pub head: EventId,
    pub id: ActId,
}

/// The places of the free changes by the scheduled times of their heads, then by the ids of these, then by their own.
pub fn rule_order(alloc: Global, net: &Network, rows: &Rows) -> Result<Vec<usize>, AllocError>
    requires { IsSized net.now rows.now }
    ensures { IfOk result (λ order. IsRuleOrder net.now rows.now order.items) }
{
    net.reveal();
    let mut changes = free_changes(alloc, net, rows)?;
    sort(&mut changes);
    places_of(alloc, &changes)
}

/// Their places.
fn places_of(alloc: Global, changes: &[FreeChange]) -> Result<Vec<usize>, AllocError>
    ensures { IfOk result (λ places. places.items ≡ places_of changes.now) }
{
    changes.iter().map(|change| change.act).collect(alloc)
}

/// The free changes in ascending id.
fn free_changes(alloc: Global, net: &Network, rows: &Rows) -> Result<Vec<FreeChange>, AllocError>
    requires { IsSized net.now rows.now }
    ensures { IfOk result (λ changes. changes.items ≡
        map (keyed net.now) (filter (is_free_change net.now rows.now) (range_with_len 0 (length net.now.activities)))) }
{
    let mut changes = Vec::new(alloc);
    for act in 0..net.activities() {
        if is_free_change(net, rows, act) {
            changes.push(keyed(net, act))?;
        }
    }
    Ok(changes)
}

/// The change at a place.
fn keyed(net: &Network, act: usize) -> FreeChange
    requires { act < length net.now.activities }
    ensures { result ≡ keyed net.now act }
{
    net.reveal();
    let activity = net.activity(act);
    let head = net.event(activity.head);
    FreeChange {
        act,
        time: head.time,
        head: head.id,
        id: activity.id,
    }
}

fn sort(changes: &mut Vec<FreeChange>)
    ensures same { IsPermutation changes.old.items changes.new.items }
    ensures sorted { (k : ℕ) (d : FreeChange) → k + 1 < length changes.new.items →
        IsNoLater (slice_index_or changes.new.items k d) (slice_index_or changes.new.items (k + 1) d) }
{
    changes.sort_unstable_by_key(|c| (c.time, c.head.0, c.id.0));
}
