//! Whether ids show a cycle of rows.
ghost use Rattle.std.specs.Prelude.{◌<◌};
ghost use Rattle.dm_rows.specs.Rows.{IsSized};
ghost use Rattle.dm_rows.specs.Active.{is_active, ShowsCycle};
ghost use Rattle.dm_check_rows.specs.Claims.{Tells};
ghost use Rattle.dm_check_rows.specs.Inside.Walking.{FollowsOn, IsFirstTail};

use dm_base::ActId;
use dm_network::Network;
use dm_rows::{Rows, is_active};

/// Whether these are the ids of a cycle of the rows: a closed list of active activities. It takes no memory.
pub fn shows_cycle(net: &Network, rows: &Rows, ids: &[ActId]) -> bool
    requires { IsSized net.now rows.now }
    ensures { Tells (ShowsCycle net.now rows.now ids.now) result }
{
    net.reveal();
    let Some(start) = first_tail(net, ids) else {
        return false;
    };
    let mut at = start;
    for id in ids {
        let Some(next) = follow(net, rows, at, *id) else {
            return false;
        };
        at = next;
    }
    at == start
}

/// The tail of the first activity, where there is one and its id is known.
fn first_tail(net: &Network, ids: &[ActId]) -> Option<usize>
    ensures { IsFirstTail net.now ids.now result }
{
    net.reveal();
    let [first, ..] = ids else {
        return None;
    };
    let Some(act) = net.act_place(*first) else {
        return None;
    };
    Some(net.activity(act).tail)
}

/// The head of the activity of this id, where it is active and leaves this event.
fn follow(net: &Network, rows: &Rows, at: usize, id: ActId) -> Option<usize>
    requires { IsSized net.now rows.now }
    ensures { FollowsOn net.now rows.now at id result }
{
    net.reveal();
    let Some(act) = net.act_place(id) else {
        return None;
    };
    let activity = net.activity(act);
    if activity.tail == at && is_active(net, rows, act) {
        Some(activity.head)
    } else {
        None
    }
}
