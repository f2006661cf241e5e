//! The network and its readers.
ghost use Rattle.std.specs.Prelude.{◌≡◌, ◌+◌, ◌^◌, ◌<◌, ◌≤◌, [], length, OnOk, OnErr};
ghost use Rattle.dm_graph.specs.Arcs.{IsOrder};
ghost use Rattle.dm_graph.specs.Arrays.{AreRanks};
ghost use Rattle.dm_network.specs.Held.{arcs_of, is_held, IsCycleOf};
ghost use Rattle.dm_network.specs.Net.{event_at, activity_at, pair_at, event_place, activity_place, places_into, places_out_of, places_at, EventIdsFit, IsWithinLimits};
ghost use Rattle.dm_network.specs.Pairs.{pair_place};
ghost use Rattle.dm_network.specs.Start.{IsNetwork};
ghost use Rattle.dm_network.specs.Inside.Stages.{formed_net, with_events, StandBeside};

use crate::arrays::{Arrays, ByStop};
use crate::find;
use crate::flat::Adjacency;
use crate::forming::Formed;
use crate::parts::{Activity, Event, Pair};
use dm_base::limits::{ACTIVITIES, EVENTS};
use dm_base::{ActId, EventId, Steps, StopId};
use dm_graph::search::{Cyclic, Search};
use std::marker::Model;
use std::sync::ledger::Ledger;

/// Events, activities and pairs, each list in ascending order of ids. Places count from 0.
pub struct Network {
    events: Vec<Event>,
    activities: Vec<Activity>,
    pairs: Vec<Pair>,

    /// The places of the activities, in rows by head and in rows by tail.
    incoming: Adjacency,
    outgoing: Adjacency,

    /// The tail of each activity.
    tails: Vec<usize>,

    /// The places of the events in ascending order of stops, and the stop of each.
    by_stop: Vec<usize>,
    stops: Vec<StopId>,
}

impl Drop for Network {
    fn drop(self) {
        let Network {
            events: _,
            activities: _,
            pairs: _,
            incoming: _,
            outgoing: _,
            tails: _,
            by_stop: _,
            stops: _,
        } = self;
    }
}

impl Model for Network {
    ghost use Rattle.dm_network.specs.Net.{Net};
    ghost use Rattle.dm_network.specs.Inside.Flat.{HasArrays};

    ghost Value = { Net };

    ghost view = { λ n. record { events = n.events.items; activities = n.activities.items; pairs = n.pairs.items } };

    ghost invariant = { λ n. HasArrays (record { events = n.events.items; activities = n.activities.items; pairs = n.pairs.items })
        n.incoming n.outgoing n.tails.items n.stops.items n.by_stop.items };
}

/// The network of these parts, beside their arrays.
pub fn assembled(formed: Formed, arrays: Arrays) -> Network
    requires network { IsNetwork (formed_net formed) }
    requires within { IsWithinLimits (formed_net formed) }
    requires arrays { StandBeside (formed_net formed) arrays }
    ensures { result ≡ formed_net formed }
{
    let Formed {
        events,
        activities,
        pairs,
    } = formed;
    let Arrays {
        tails,
        incoming,
        outgoing,
        by_stop: ByStop { stops, places },
    } = arrays;
    ids_fit(&events);
    Network {
        events,
        activities,
        pairs,
        incoming,
        outgoing,
        tails,
        by_stop: places,
        stops,
    }
}

/// The ids of events are numbers of 32 bits, which is learned here once for a network.
fn ids_fit(events: &[Event])
    ensures { EventIdsFit (with_events events.now) }
{
    for event in events {
        id_fits(event);
    }
}

fn id_fits(event: &Event)
    ensures { event.now.id.0 < 2 ^ 32 }
{
    let _id = event.id.0;
}

impl Network {
    /// What holds of every network, for a caller's proof. It does nothing.
    pub fn reveal(&self)
        ensures network { IsNetwork self.now }
        ensures within { IsWithinLimits self.now }
        ensures ids { EventIdsFit self.now }
    {
        let _events = self.events.len();
    }

    /// How many events there are.
    pub fn events(&self) -> usize
        ensures count { result ≡ length self.now.events }
        ensures few { result ≤ EVENTS }
        ensures network { IsNetwork self.now }
        ensures within { IsWithinLimits self.now }
    {
        self.events.len()
    }

    /// How many activities there are.
    pub fn activities(&self) -> usize
        ensures count { result ≡ length self.now.activities }
        ensures few { result ≤ ACTIVITIES }
    {
        self.activities.len()
    }

    /// How many pairs there are.
    pub fn pairs(&self) -> usize
        ensures { result ≡ length self.now.pairs }
    {
        self.pairs.len()
    }

    /// The event at a place.
    pub fn event(&self, i: usize) -> &Event
        requires { i < length self.now.events }
        ensures { result.now ≡ event_at self.now i }
    {
        &self.events[i]
    }

    /// The activity at a place.
    pub fn activity(&self, a: usize) -> &Activity
        requires { a < length self.now.activities }
        ensures { result.now ≡ activity_at self.now a }
    {
        &self.activities[a]
    }

    /// The pair at a place.
    pub fn pair(&self, p: usize) -> &Pair
        requires { p < length self.now.pairs }
        ensures { result.now ≡ pair_at self.now p }
    {
        &self.pairs[p]
    }

    /// The place of the event with this id.
    pub fn place_of(&self, id: EventId) -> Option<usize>
        ensures { result ≡ event_place self.now id }
    {
        find::event_place(&self.events, id)
    }

    /// The place of the activity with this id.
    pub fn act_place(&self, id: ActId) -> Option<usize>
        ensures { result ≡ activity_place self.now id }
    {
        find::activity_place(&self.activities, id)
    }

    /// The place of the pair that two events form, in either order.
    pub fn pair_of(&self, i: usize, j: usize) -> Option<usize>
        requires first { i < length self.now.events }
        requires second { j < length self.now.events }
        ensures { result ≡ pair_place self.now i j }
    {
        find::pair_place(&self.pairs, i, j)
    }

    /// The places of the events at a stop, ascending.
    pub fn at_stop(&self, stop: StopId) -> &[usize]
        ensures { result.now ≡ places_at self.now stop }
    {
        find::places_beside(&self.stops, &self.by_stop, stop)
    }

    /// The places of the activities with this head, ascending. It counts one step.
    pub fn in_row<L: Ledger>(&self, i: usize, steps: &mut Steps<L>) -> &[usize]
        requires { i < length self.now.events }
        ensures places { result.now ≡ places_into self.now i }
        ensures counted { steps.new ≡ steps.old + 1 }
    {
        self.incoming.row(i, steps)
    }

    /// The places of the activities with this tail, ascending. It counts one step.
    pub fn out_row<L: Ledger>(&self, i: usize, steps: &mut Steps<L>) -> &[usize]
        requires { i < length self.now.events }
        ensures places { result.now ≡ places_out_of self.now i }
        ensures counted { steps.new ≡ steps.old + 1 }
    {
        self.outgoing.row(i, steps)
    }

    /// Searches for an order of all events in which each held activity goes forward, or for a cycle of held activities.
    /// There is a flag for each activity. It takes no memory, and its time is linear in events and activities.
    pub fn search(&self, held: &[bool], search: &mut Search) -> Result<(), Cyclic>
        requires flags { length held.now ≡ length self.now.activities }
        requires room { length search.old.order ≡ length self.now.events }
        ensures as_much_room { length search.new.order ≡ length search.old.order }
        ensures order { OnOk result (IsOrder (arcs_of self.now (is_held held.now)) search.new.order) }
        ensures ranks { OnOk result (AreRanks (length self.now.events) search.new.order search.new.ranks) }
        ensures none { OnOk result (search.new.cycle ≡ []) }
        ensures cycle { OnErr result (IsCycleOf self.now (is_held held.now) search.new.cycle) }
    {
        search.search(
            &self.tails,
            &self.incoming.offsets,
            &self.incoming.places,
            held,
        )
    }
}
