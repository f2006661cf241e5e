//! The sums of a timetable from scratch.
ghost use Rattle.std.specs.Prelude.{◌≡◌, false, length, replicate};
ghost use Rattle.dm_priced.specs.Priced.{lateness_of};

use crate::adding::cost_at;
use dm_base::Cost;
use dm_network::Network;
use dm_settle::Times;

/// What the lateness of the arrivals costs, where no event is cancelled.
pub fn lateness_of(net: &Network, times: &Times) -> Cost
    requires { length times.now ≡ length net.now.events }
    ensures { result ≡ lateness_of net.now (replicate (length net.now.events) false) times.now }
{
    let mut total = 0;
    for i in 0..net.events() {
        let time = times.time(i);
        total += cost_at(net, i, time);
    }
    total
}
