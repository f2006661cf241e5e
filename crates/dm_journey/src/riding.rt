//! The activities that a passenger can use.
ghost use Rattle.std.specs.Prelude.{◌≡◌, ◌<◌, length, map, IfOk};
ghost use Rattle.std.specs.List.{range_with_len};
ghost use Rattle.dm_rows.specs.Rows.{IsSized};
ghost use Rattle.dm_journey.specs.Walks.{is_usable};

use dm_base::ActKind;
use dm_network::Network;
use dm_rows::{Rows, has_cancelled_end, span_of};
use dm_times::Times;
use std::alloc::{AllocError, Global};

/// Whether each activity is usable, by place.
pub fn usable_activities(
    alloc: Global,
    net: &Network,
    rows: &Rows,
    times: &Times,
) -> Result<Vec<bool>, AllocError>
    requires sized { IsSized net.now rows.now }
    requires as_many { length times.now ≡ length net.now.events }
    ensures { IfOk result (λ v. v.items ≡ map (is_usable net.now rows.now times.now) (range_with_len 0 (length net.now.activities))) }
{
    let mut usable = Vec::with_capacity(alloc, net.activities())?;
    for a in 0..net.activities() {
        usable.push(is_usable(net, rows, times, a))?;
    }
    Ok(usable)
}

/// Whether the activity at a place is usable: a drive, a wait or a change, of which neither end is cancelled and whose head is
/// not before its tail, and, if it is a change, one that is caught: its head is at least its lower bound and delay after its
/// tail, and it is kept or its head has passed.
fn is_usable(net: &Network, rows: &Rows, times: &Times, a: usize) -> bool
    requires sized { IsSized net.now rows.now }
    requires as_many { length times.now ≡ length net.now.events }
    requires is_activity { a < length net.now.activities }
    ensures { result ≡ is_usable net.now rows.now times.now a }
{
    net.reveal();
    let activity = net.activity(a);
    if has_cancelled_end(net, rows, a) || times.time(activity.head) < times.time(activity.tail) {
        return false;
    }
    match activity.kind {
        ActKind::Drive | ActKind::Wait => true,
        ActKind::Change => {
            let ready = times.time(activity.tail) + span_of(net, rows, a);
            ready <= times.time(activity.head)
                && (rows.kept(a) || rows.passed(activity.head).is_some())
        }
        ActKind::Turnaround | ActKind::Headway => false,
    }
}
