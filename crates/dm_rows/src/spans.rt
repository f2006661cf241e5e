//! What the rows hold single events and activities to.
ghost use Rattle.std.specs.Prelude.{◌≡◌, ◌+◌, ◌<◌, ◌≤◌, length};
ghost use Rattle.dm_base.specs.declared.limits.TheConstants.{PASSED_TIME, BOUND, DELAY};
ghost use Rattle.dm_rows.specs.Rows.{IsSized};
ghost use Rattle.dm_rows.specs.Timetable.{floor_of, span_of};

use crate::rows::Rows;
use dm_base::Secs;
use dm_network::Network;

/// The least time of an event by itself, in seconds: its passed time, or else the later of its planned time and the clock.
pub fn floor_of(net: &Network, rows: &Rows, i: usize) -> Secs
    requires sized { IsSized net.now rows.now }
    requires is_event { i < length net.now.events }
    ensures value { result ≡ floor_of net.now rows.now i }
    ensures limit { result ≤ PASSED_TIME }
{
    net.reveal();
    match rows.passed(i) {
        Some(time) => time,
        None => {
            let planned = net.event(i).time + rows.event_delay(i);
            planned.max(rows.clock())
        }
    }
}

/// The lower bound of an activity and its delay, in seconds.
pub fn span_of(net: &Network, rows: &Rows, a: usize) -> Secs
    requires sized { IsSized net.now rows.now }
    requires is_activity { a < length net.now.activities }
    ensures value { result ≡ span_of net.now rows.now a }
    ensures limit { result ≤ BOUND + DELAY }
{
    net.reveal();
    net.activity(a).lower + rows.act_delay(a)
}
