//! The rows of the activities at an event.
ghost use Rattle.std.specs.Prelude.{◌≡◌, ◌<◌, length, if◌then◌else◌};
ghost use Rattle.dm_network.specs.Net.{places_into, places_out_of};

use dm_base::Steps;
use dm_network::Network;
use std::marker::Brand;
use std::sync::ledger::{Blank, Ledger};

/// The places of the activities out of an event.
pub fn row_out_of(net: &Network, event: usize) -> &[usize]
    requires { event < length net.now.events }
    ensures { result.now ≡ places_out_of net.now event }
{
    row_with::<Brand>(net, event, true, Blank::new(1))
}

/// The places of the activities into an event.
pub fn row_into(net: &Network, event: usize) -> &[usize]
    requires { event < length net.now.events }
    ensures { result.now ≡ places_into net.now event }
{
    row_with::<Brand>(net, event, false, Blank::new(1))
}

/// The places of the activities out of an event, or of those into it, for a ledger that nothing reads.
fn row_with<L: Ledger>(net: &Network, event: usize, is_out: bool, blank: Blank) -> &[usize]
    requires is_event { event < length net.now.events }
    requires name { blank.name ≡ L.name }
    requires parts { blank.parts ≡ L.parts }
    requires has_a_part { 0 < blank.parts }
    ensures { result.now ≡ (if is_out then places_out_of net.now event else places_into net.now event) }
{
    let mut steps = Steps::<L>::new(blank);
    if is_out {
        net.out_row(event, &mut steps)
    } else {
        net.in_row(event, &mut steps)
    }
}
