//! The time of one event beside those of the others.
ghost use Rattle.std.specs.Prelude.{◌≡◌, ◌^◌, ◌<◌, length, slice_index};
ghost use Rattle.dm_graph.specs.Graph.{IsJoin};
ghost use Rattle.dm_network.specs.Net.{places_into};
ghost use Rattle.dm_settle.specs.Constraints.{IsSizedFor, graph_given};
ghost use Rattle.dm_settle.specs.Inside.Sweep.{TailsAreEarly, time_along};

use crate::constraints::Constraints;
use crate::times::Times;
use dm_base::Secs;
use dm_network::Network;

/// The time of an event beside those of the others: the least that its floor and the held activities into it allow, whose
/// row this is.
pub fn time_of(
    net: &Network,
    constraints: &Constraints,
    times: &Times,
    event: usize,
    into: &[usize],
) -> Secs
    requires sized { IsSizedFor net.now constraints.now }
    requires as_many { length times.now ≡ length net.now.events }
    requires is_event { event < length net.now.events }
    requires row { into.now ≡ places_into net.now event }
    requires early { TailsAreEarly (graph_given net.now constraints.now) times.now event }
    ensures join { IsJoin (graph_given net.now constraints.now) (slice_index times.now) event result }
    ensures early { result < 2 ^ 38 }
{
    net.reveal();
    constraints.within_limits();
    let mut time = constraints.floor(event);
    for a in into {
        if constraints.is_held(*a) {
            time = time.max(time_along(net, constraints, times, *a));
        }
    }
    time
}

/// When the head of an activity can be, which its tail and its span allow.
fn time_along(net: &Network, constraints: &Constraints, times: &Times, a: usize) -> Secs
    requires sized { IsSizedFor net.now constraints.now }
    requires as_many { length times.now ≡ length net.now.events }
    requires is_activity { a < length net.now.activities }
    ensures { result ≡ time_along (graph_given net.now constraints.now) times.now a }
{
    net.reveal();
    times.time(net.activity(a).tail) + constraints.span(a)
}
