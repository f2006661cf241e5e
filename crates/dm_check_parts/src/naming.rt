//! What ids name.
ghost use Rattle.dm_check_rows.specs.Claims.{Tells};
ghost use Rattle.dm_parts.specs.Shares.{NamesArrival, NamesChange};

use dm_base::{ActId, ActKind, EventId, EventKind};
use dm_network::Network;

/// Whether the id is that of an arrival.
pub fn names_arrival(net: &Network, id: EventId) -> bool
    ensures { Tells (NamesArrival net.now id) result }
{
    let Some(place) = net.place_of(id) else {
        return false;
    };
    match net.event(place).kind {
        EventKind::Arrival => true,
        EventKind::Departure => false,
    }
}

/// Whether the id is that of a change.
pub fn names_change(net: &Network, id: ActId) -> bool
    ensures { Tells (NamesChange net.now id) result }
{
    let Some(place) = net.act_place(id) else {
        return false;
    };
    match net.activity(place).kind {
        ActKind::Change => true,
        ActKind::Drive | ActKind::Wait | ActKind::Turnaround | ActKind::Headway => false,
    }
}
