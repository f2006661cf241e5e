//! Look-ups in lists that ascend. They take logarithmic time and no memory.
ghost use Rattle.std.specs.Prelude.{ℕ, ◌≡◌, ◌==◌, ◌≤◌, Some, IsTrue, length, map, position, filter};
ghost use Rattle.std.specs.List.Sorted.{IsStrictlyIncreasing, IsNonDecreasing};
ghost use Rattle.dm_network.specs.Pairs.{joins};
ghost use Rattle.dm_network.specs.Inside.Flat.{ArePairsInOrder, stands_before, StandsWithin};

use crate::parts::{Activity, Event, Pair};
use dm_base::{ActId, ActRow, EventId, EventRow, StopId};

/// What has a number of its own, in ascending order of which lists stand.
pub trait Numbered {
    ghost number: { Self → ℕ };

    fn number(&self) -> u32
        ensures { result ≡ number self.now };
}

impl Numbered for Event {
    ghost number = { λ e. e.id.0 };

    fn number(&self) -> u32 {
        self.id.0
    }
}

impl Numbered for Activity {
    ghost number = { λ a. a.id.0 };

    fn number(&self) -> u32 {
        self.id.0
    }
}

impl Numbered for EventRow {
    ghost number = { λ row. row.id.0 };

    fn number(&self) -> u32 {
        self.id.0
    }
}

impl Numbered for ActRow {
    ghost number = { λ row. row.id.0 };

    fn number(&self) -> u32 {
        self.id.0
    }
}

/// The place of the event with this id.
pub fn event_place(events: &[Event], id: EventId) -> Option<usize>
    requires { IsStrictlyIncreasing (map (λ e. e.id.0) events.now) }
    ensures { result ≡ position (λ e. e.id.0 == id.0) events.now }
{
    place_of(events, id.0)
}

/// The place of the activity with this id.
pub fn activity_place(activities: &[Activity], id: ActId) -> Option<usize>
    requires { IsStrictlyIncreasing (map (λ a. a.id.0) activities.now) }
    ensures { result ≡ position (λ a. a.id.0 == id.0) activities.now }
{
    place_of(activities, id.0)
}

/// The place of the item with this number. Where numbers follow one another from the first on, it is told at once.
fn place_of<T: Numbered>(items: &[T], number: u32) -> Option<usize>
    requires { IsStrictlyIncreasing (map T.number items.now) }
    ensures { result ≡ position (λ x. T.number x == number) items.now }
{
    if let Some(first) = items.first() {
        let guess = number.saturating_sub(first.number()) as usize;
        if guess < items.len() && items[guess].number() == number {
            return Some(guess);
        }
    }
    place_by_halves(items, number)
}

fn place_by_halves<T: Numbered>(items: &[T], number: u32) -> Option<usize>
    requires { IsStrictlyIncreasing (map T.number items.now) }
    ensures { result ≡ position (λ x. T.number x == number) items.now }
{
    let place = items.partition_point(|x| x.number() < number);
    if place < items.len() && items[place].number() == number {
        Some(place)
    } else {
        None
    }
}

/// The place of the pair of two events, in either order.
pub fn pair_place(pairs: &[Pair], i: usize, j: usize) -> Option<usize>
    requires { ArePairsInOrder pairs.now }
    ensures { result ≡ position (λ p. joins p i j) pairs.now }
{
    if i < j {
        pair_from_smaller(pairs, i, j)
    } else {
        pair_from_smaller(pairs, j, i)
    }
}

/// The same, where the pair probably stands at a place or at the next one.
pub fn pair_near(pairs: &[Pair], i: usize, j: usize, near: usize) -> Option<usize>
    requires { ArePairsInOrder pairs.now }
    ensures { result ≡ position (λ p. joins p i j) pairs.now }
{
    if joins_at(pairs, near, i, j) {
        return Some(near);
    }
    let next = near.saturating_add(1);
    if joins_at(pairs, next, i, j) {
        return Some(next);
    }
    pair_place(pairs, i, j)
}

/// Whether the pair at a place is that of two events.
fn joins_at(pairs: &[Pair], place: usize, i: usize, j: usize) -> bool
    requires { ArePairsInOrder pairs.now }
    ensures { IsTrue result → position (λ p. joins p i j) pairs.now ≡ Some place }
{
    place < pairs.len() && joins(&pairs[place], i, j)
}

fn joins(p: &Pair, i: usize, j: usize) -> bool
    ensures { result ≡ joins p.now i j }
{
    (p.small == i && p.large == j) || (p.small == j && p.large == i)
}

/// The place of the pair of two events, of which the smaller one is given first.
fn pair_from_smaller(pairs: &[Pair], small: usize, large: usize) -> Option<usize>
    requires order { small ≤ large }
    requires in_order { ArePairsInOrder pairs.now }
    ensures forward { result ≡ position (λ p. joins p small large) pairs.now }
    ensures backward { result ≡ position (λ p. joins p large small) pairs.now }
{
    let place = pairs.partition_point(|p| comes_before(p, small, large));
    if place < pairs.len() && pairs[place].small == small && pairs[place].large == large {
        Some(place)
    } else {
        None
    }
}

/// Whether a pair stands before the pair of two events.
pub fn comes_before(p: &Pair, small: usize, large: usize) -> bool
    ensures { result ≡ stands_before p.now small large }
{
    p.small < small || (p.small == small && p.large < large)
}

/// The places that stand beside a stop in a list that ascends by stops.
pub fn places_beside<'a>(stops: &[StopId], places: &'a [usize], stop: StopId) -> &'a [usize]
    requires as_many { length stops.now ≡ length places.now }
    requires ascending { IsNonDecreasing (map (λ s. s.0) stops.now) }
    ensures { (key : ℕ → ℕ) → map (λ s. s.0) stops.now ≡ map key places.now → result.now ≡ filter (λ i. key i == stop.0) places.now }
{
    let (start, end) = window(stops, stop);
    &places[start..end]
}

/// From which place up to which one a stop stands in a list of stops that ascends.
fn window(stops: &[StopId], stop: StopId) -> (usize, usize)
    requires { IsNonDecreasing (map (λ s. s.0) stops.now) }
    ensures { StandsWithin (map (λ s. s.0) stops.now) stop.0 result.0 result.1 }
{
    let start = stops.partition_point(|s| s.0 < stop.0);
    let end = stops.partition_point(|s| s.0 <= stop.0);
    (start, end)
}
