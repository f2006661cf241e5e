//! Which events are stale where the times are those of other activities than the held ones.
ghost use Rattle.std.specs.Prelude.{◌≡◌, ◌<◌, length};
ghost use Rattle.dm_check_times.specs.Inside.Beginning.{MarksHead, HasMarkedHeads};

use dm_marks::Marks;
use dm_network::Network;

/// Makes the head of each activity stale and due that is held in the one list alone.
pub(crate) fn mark_changed(
    net: &Network,
    before: &[bool],
    now: &[bool],
    stale: &mut Marks,
    due: &mut Marks,
)
    requires before { length before.now ≡ length net.now.activities }
    requires now { length now.now ≡ length net.now.activities }
    requires stale { length stale.old ≡ length net.now.events }
    requires due { length due.old ≡ length net.now.events }
    ensures { HasMarkedHeads net.now before.now now.now (length net.now.activities) stale.old stale.new due.old due.new }
{
    for a in 0..net.activities() {
        mark_one(net, a, before, now, stale, due);
    }
}

/// Makes the head of an activity stale and due, where it is held in the one list alone.
fn mark_one(
    net: &Network,
    a: usize,
    before: &[bool],
    now: &[bool],
    stale: &mut Marks,
    due: &mut Marks,
)
    requires is_activity { a < length net.now.activities }
    requires before { length before.now ≡ length net.now.activities }
    requires now { length now.now ≡ length net.now.activities }
    requires stale { length stale.old ≡ length net.now.events }
    requires due { length due.old ≡ length net.now.events }
    ensures { MarksHead net.now before.now now.now a stale.old stale.new due.old due.new }
{
    net.reveal();
    if before[a] == now[a] {
        return;
    }
    let head = net.activity(a).head;
    stale.mark(head);
    due.mark(head);
}
