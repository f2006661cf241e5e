//! What rows hold the events of a network to.
ghost use Rattle.std.specs.Prelude.{◌≡◌, length};
ghost use Rattle.dm_rows.specs.Rows.{IsSized};
ghost use Rattle.dm_rows.specs.Active.{is_active};
ghost use Rattle.dm_check_times.specs.Binding.{AreFlags, AreSpansOf, AreFloorsOf};

use dm_base::Secs;
use dm_network::Network;
use dm_rows::{Rows, floor_of, is_active, span_of};

/// Flags the activities that are active under the rows.
pub fn flag_active(net: &Network, rows: &Rows, held: &mut [bool])
    requires sized { IsSized net.now rows.now }
    requires flags { length held.old ≡ length net.now.activities }
    ensures flags { AreFlags net.now (is_active net.now rows.now) held.new }
    ensures as_many { length held.new ≡ length net.now.activities }
{
    for a in 0..net.activities() {
        held[a] = is_active(net, rows, a);
    }
}

/// The span of each activity.
pub fn fill_spans(net: &Network, rows: &Rows, spans: &mut [Secs])
    requires sized { IsSized net.now rows.now }
    requires as_many { length spans.old ≡ length net.now.activities }
    ensures { AreSpansOf net.now rows.now spans.new }
{
    for a in 0..net.activities() {
        spans[a] = span_of(net, rows, a);
    }
}

/// The least time of each event by itself.
pub fn fill_floors(net: &Network, rows: &Rows, times: &mut [Secs])
    requires sized { IsSized net.now rows.now }
    requires as_many { length times.old ≡ length net.now.events }
    ensures { AreFloorsOf net.now rows.now times.new }
{
    for i in 0..net.events() {
        times[i] = floor_of(net, rows, i);
    }
}
