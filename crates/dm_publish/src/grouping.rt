//! Events listed stop by stop.
ghost use Rattle.std.specs.Prelude.{◌≡◌, ◌<◌, ◌≤◌, All, IsPermutation, length, vec_capacity};
ghost use Rattle.std.specs.List.{range_with_len};
ghost use Rattle.std.specs.List.Sorted.{IsNonDecreasingBy};
ghost use Rattle.dm_publish.specs.Inside.Grouping.{AreListed, EndsAt, IsPartOf, lists};

use crate::changes::Listed;
use dm_base::StopId;
use dm_network::Network;

/// Lists all events in a list that has room for them, stop by stop.
pub(crate) fn list_all(net: &Network, listed: &mut Vec<Listed>)
    requires room { length net.now.events ≤ vec_capacity listed.old }
    ensures listed { AreListed net.now (range_with_len 0 (length net.now.events)) listed.new.items }
    ensures room { vec_capacity listed.old ≤ vec_capacity listed.new }
{
    put_all(net, listed);
    sort(listed);
}

/// Lists the events at these places in a list that has room for them, stop by stop.
pub(crate) fn list_places(net: &Network, places: &[usize], listed: &mut Vec<Listed>)
    requires events { All (λ i. i < length net.now.events) places.now }
    requires room { length places.now ≤ vec_capacity listed.old }
    ensures listed { AreListed net.now places.now listed.new.items }
    ensures room { vec_capacity listed.old ≤ vec_capacity listed.new }
{
    put_places(net, places, listed);
    sort(listed);
}

/// Lists all events by ascending places.
fn put_all(net: &Network, listed: &mut Vec<Listed>)
    requires room { length net.now.events ≤ vec_capacity listed.old }
    ensures listed { listed.new.items ≡ lists net.now (range_with_len 0 (length net.now.events)) }
    ensures room { vec_capacity listed.old ≤ vec_capacity listed.new }
{
    listed.clear();
    for place in 0..net.events() {
        listed.push_reserved(Listed {
            stop: net.event(place).stop,
            place,
        });
    }
}

/// Lists the events at these places in their order.
fn put_places(net: &Network, places: &[usize], listed: &mut Vec<Listed>)
    requires events { All (λ i. i < length net.now.events) places.now }
    requires room { length places.now ≤ vec_capacity listed.old }
    ensures listed { listed.new.items ≡ lists net.now places.now }
    ensures room { vec_capacity listed.old ≤ vec_capacity listed.new }
{
    listed.clear();
    for place in places {
        listed.push_reserved(Listed {
            stop: net.event(*place).stop,
            place: *place,
        });
    }
}

/// Sorts a list by stops, and by places in each.
fn sort(listed: &mut Vec<Listed>)
    ensures same { IsPermutation listed.old.items listed.new.items }
    ensures sorted { IsNonDecreasingBy (λ l. l.stop.0) listed.new.items }
    ensures room { vec_capacity listed.old ≤ vec_capacity listed.new }
{
    listed.sort_unstable_by_key(|event| (event.stop.0, event.place));
}

/// The listed events of a stop.
pub(crate) fn part_at(listed: &[Listed], stop: StopId) -> &[Listed]
    requires { IsNonDecreasingBy (λ l. l.stop.0) listed.now }
    ensures { IsPartOf listed.now stop.0 result.now }
{
    let from = listed.partition_point(|event| event.stop.0 < stop.0);
    let behind = &listed[from..];
    &behind[..leading(behind, stop)]
}

/// How many events in front of a list are of this stop.
fn leading(listed: &[Listed], stop: StopId) -> usize
    ensures { EndsAt listed.now stop.0 result }
{
    for (i, event) in listed.iter().enumerate() {
        if event.stop.0 != stop.0 {
            return i;
        }
    }
    listed.len()
}
