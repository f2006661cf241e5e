//! Networks from the records of files.
ghost use Rattle.std.specs.Prelude.{◌≡◌, IfOk, IfErr, MatchOption};
ghost use Rattle.dm_network.specs.Build.{AreWithinLimits, AreFew, IsMadeOf, IsBuiltFrom, RefusesRecords};
ghost use Rattle.dm_network.specs.Net.{IsWithinLimits};
ghost use Rattle.dm_network.specs.Start.{IsFormed, IsNetwork, ShowsStartCycle};
ghost use Rattle.dm_network.specs.Inside.Stages.{formed_net, net_with, StandBeside, HasNoStartCycle, RefusesFormed};

use crate::arrays::{Arrays, arrays_of, held_at_start, ids_at};
use crate::forming::{Formed, activities_from, events_from};
use crate::network::{Network, assembled};
use crate::pairing::{paired, pairs_of};
use crate::parts::{Activity, Event, NetFault, Pair};
use dm_base::limits::{ACTIVITIES, EVENTS};
use dm_base::{ActId, ActRow, EventRow, Items};
use dm_graph::search::Search;
use std::alloc::{AllocError, Global};

impl Network {
    /// The network that the records make. The records may stand in any order; what they say is tested in the order of
    /// [`NetFault`].
    pub fn build(
        alloc: Global,
        events: Vec<EventRow>,
        activities: Vec<ActRow>,
    ) -> Result<Network, NetFault>
        requires within { AreWithinLimits events.items activities.items }
        ensures built { IfOk result (IsBuiltFrom events.items activities.items) }
        ensures refused { IfErr result (RefusesRecords events.items activities.items) }
    {
        if events.len() > EVENTS || activities.len() > ACTIVITIES {
            return Err(NetFault::TooMany);
        }
        let formed = match formed(alloc, events, activities) {
            Ok(formed) => formed,
            Err(fault) => return Err(fault),
        };
        let network = match network_of(alloc, formed) {
            Ok(network) => network,
            Err(fault) => return Err(fault),
        };
        Ok(network)
    }
}

/// The parts of the network that the records make.
fn formed(alloc: Global, events: Vec<EventRow>, activities: Vec<ActRow>) -> Result<Formed, NetFault>
    requires few { AreFew events.items activities.items }
    requires within { AreWithinLimits events.items activities.items }
    ensures made { IfOk result (λ f. IsMadeOf events.items activities.items (formed_net f)) }
    ensures within { IfOk result (λ f. IsWithinLimits (formed_net f)) }
    ensures refused { IfErr result (RefusesRecords events.items activities.items) }
{
    let events = match events_from(alloc, events) {
        Ok(events) => events,
        Err(fault) => return Err(fault),
    };
    let activities = match activities_from(alloc, &events, &activities) {
        Ok(activities) => activities,
        Err(fault) => return Err(fault),
    };
    let pairs = pairs_of(alloc, &activities)?;
    let activities = paired(activities, &pairs);
    Ok(Formed {
        events,
        activities,
        pairs,
    })
}

/// The network of these parts, unless it has a cycle at the start.
fn network_of(alloc: Global, formed: Formed) -> Result<Network, NetFault>
    requires formed { IsFormed (formed_net formed) }
    requires within { IsWithinLimits (formed_net formed) }
    ensures same { IfOk result (λ net. net ≡ formed_net formed) }
    ensures network { IfOk result (λ _. IsNetwork (formed_net formed)) }
    ensures refused { IfErr result (RefusesFormed (formed_net formed)) }
{
    let arrays = arrays_of(alloc, &formed.events, &formed.activities)?;
    if let Some(ids) = start_cycle(
        alloc,
        &formed.events,
        &formed.activities,
        &formed.pairs,
        &arrays,
    )? {
        return Err(NetFault::Cycle(Items::from_vec(ids)));
    }
    Ok(assembled(formed, arrays))
}

/// The ids of activities that form a cycle at the start, if some do.
fn start_cycle(
    alloc: Global,
    events: &[Event],
    activities: &[Activity],
    pairs: &[Pair],
    arrays: &Arrays,
) -> Result<Option<Vec<ActId>>, AllocError>
    requires formed { IsFormed (net_with events.now activities.now pairs.now) }
    requires arrays { StandBeside (net_with events.now activities.now pairs.now) arrays.now }
    ensures { IfOk result (λ found. MatchOption found (HasNoStartCycle (net_with events.now activities.now pairs.now))
        (λ ids. ShowsStartCycle (net_with events.now activities.now pairs.now) ids.items)) }
{
    let held = held_at_start(alloc, events, activities, pairs)?;
    let mut search = Search::new(alloc, events.len())?;
    match search.search(
        &arrays.tails,
        &arrays.incoming.offsets,
        &arrays.incoming.places,
        &held,
    ) {
        Ok(()) => Ok(None),
        Err(_) => {
            let ids = ids_at(alloc, activities, search.cycle())?;
            Ok(Some(ids))
        }
    }
}
