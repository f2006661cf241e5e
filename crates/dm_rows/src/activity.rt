//! Which activities bind.
ghost use Rattle.std.specs.Prelude.{◌≡◌, ◌<◌, length};
ghost use Rattle.dm_network.specs.Net.{activity_at};
ghost use Rattle.dm_rows.specs.Rows.{IsSized};
ghost use Rattle.dm_rows.specs.Cost.{is_lost_change};
ghost use Rattle.dm_rows.specs.Active.{binds, has_passed, has_cancelled_end, is_active, binds_in_pair};

use crate::rows::Rows;
use dm_base::ActKind;
use dm_network::Network;

/// Whether the activity at this place binds under the rows.
pub fn is_active(net: &Network, rows: &Rows, a: usize) -> bool
    requires sized { IsSized net.now rows.now }
    requires is_activity { a < length net.now.activities }
    ensures { result ≡ is_active net.now rows.now a }
{
    net.reveal();
    let activity = net.activity(a);
    rows.ahead(activity.head) && binds(net, rows, a) && !rows.cancelled(activity.tail)
}

/// Whether the activity at this place binds where neither of its ends is cancelled and its head has not passed.
fn binds(net: &Network, rows: &Rows, a: usize) -> bool
    requires sized { IsSized net.now rows.now }
    requires is_activity { a < length net.now.activities }
    ensures { result ≡ binds net.now rows.now (activity_at net.now a).kind (activity_at net.now a).pair (activity_at net.now a).tail a }
{
    net.reveal();
    let activity = net.activity(a);
    match (activity.kind, activity.pair) {
        (ActKind::Drive | ActKind::Wait | ActKind::Turnaround, _) => true,
        (ActKind::Change, _) => rows.kept(a),
        (ActKind::Headway, None) => true,
        (ActKind::Headway, Some(p)) => binds_in_pair(net, rows, p, activity.tail),
    }
}

/// Whether the head of the activity at this place has passed.
pub(crate) fn head_has_passed(net: &Network, rows: &Rows, a: usize) -> bool
    requires sized { IsSized net.now rows.now }
    requires is_activity { a < length net.now.activities }
    ensures { result ≡ has_passed rows.now (activity_at net.now a).head }
{
    net.reveal();
    rows.passed(net.activity(a).head).is_some()
}

/// Whether the tail or the head of the activity at this place is cancelled.
pub fn has_cancelled_end(net: &Network, rows: &Rows, a: usize) -> bool
    requires sized { IsSized net.now rows.now }
    requires is_activity { a < length net.now.activities }
    ensures { result ≡ has_cancelled_end net.now rows.now a }
{
    net.reveal();
    let activity = net.activity(a);
    rows.cancelled(activity.tail) || rows.cancelled(activity.head)
}

/// Whether the activity at this place is a change whose head has not passed, and that is dropped or has a cancelled end.
pub fn is_lost_change(net: &Network, rows: &Rows, a: usize) -> bool
    requires sized { IsSized net.now rows.now }
    requires is_activity { a < length net.now.activities }
    ensures { result ≡ is_lost_change net.now rows.now a }
{
    net.reveal();
    let activity = net.activity(a);
    matches!(activity.kind, ActKind::Change)
        && rows.passed(activity.head).is_none()
        && (!rows.kept(a) || has_cancelled_end(net, rows, a))
}

/// Whether a headway of this pair with this tail binds into an event that has not passed.
fn binds_in_pair(net: &Network, rows: &Rows, p: usize, tail: usize) -> bool
    requires sized { IsSized net.now rows.now }
    requires is_pair { p < length net.now.pairs }
    requires is_event { tail < length net.now.events }
    ensures { result ≡ binds_in_pair net.now rows.now p tail }
{
    if rows.passed(tail).is_some() {
        return true;
    }
    let pair = net.pair(p);
    let first = if rows.small_first(p) {
        pair.small
    } else {
        pair.large
    };
    tail == first
}
