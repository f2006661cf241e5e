//! Shares of a cost.
ghost use Rattle.std.specs.Prelude.{map, All};
ghost use Rattle.std.specs.List.Sorted.{IsStrictlyIncreasing};
ghost use Rattle.dm_check_rows.specs.Claims.{Tells};
ghost use Rattle.dm_parts.specs.Shares.{NamesArrival, NamesChange, IsShare};

use crate::naming::{names_arrival, names_change};
use dm_base::{ActId, EventId};
use dm_network::Network;
use dm_parts::Share;

/// Whether a share has arrivals and changes of the network alone, each by ascending id. It takes no memory.
pub fn is_share(net: &Network, share: &Share) -> bool
    ensures { Tells (IsShare net.now share.now) result }
{
    let arrivals = share.arrivals.as_slice();
    let changes = share.changes.as_slice();
    if !do_arrivals_ascend(arrivals) {
        return false;
    }
    if !do_changes_ascend(changes) {
        return false;
    }
    if !are_arrivals(net, arrivals) {
        return false;
    }
    are_changes(net, changes)
}

/// Whether each id is above the one before it.
fn do_arrivals_ascend(ids: &[EventId]) -> bool
    ensures { Tells (IsStrictlyIncreasing (map (λ e. e.0) ids.now)) result }
{
    for k in 1..ids.len() {
        if ids[k].0 <= ids[k - 1].0 {
            return false;
        }
    }
    true
}

/// Whether each id is above the one before it.
fn do_changes_ascend(ids: &[ActId]) -> bool
    ensures { Tells (IsStrictlyIncreasing (map (λ a. a.0) ids.now)) result }
{
    for k in 1..ids.len() {
        if ids[k].0 <= ids[k - 1].0 {
            return false;
        }
    }
    true
}

fn are_arrivals(net: &Network, ids: &[EventId]) -> bool
    ensures { Tells (All (NamesArrival net.now) ids.now) result }
{
    for id in ids {
        if !names_arrival(net, *id) {
            return false;
        }
    }
    true
}

fn are_changes(net: &Network, ids: &[ActId]) -> bool
    ensures { Tells (All (NamesChange net.now) ids.now) result }
{
    for id in ids {
        if !names_change(net, *id) {
            return false;
        }
    }
    true
}
