//! The least timetable from scratch.
ghost use Rattle.std.specs.Prelude.{ℕ, ◌≡◌, ◌<◌, true, length, replicate, slice_index, IfOk, IfErr, OnOk};
ghost use Rattle.dm_graph.specs.Arcs.{IsOrder};
ghost use Rattle.dm_graph.specs.Arrays.{AreRanks};
ghost use Rattle.dm_network.specs.Held.{is_held, ids_of, HasNoCycleOf};
ghost use Rattle.dm_settle.specs.Constraints.{IsSizedFor, arcs_given, graph_given, RefusesTimes};
ghost use Rattle.dm_settle.specs.Settling.{AreLeast, AreEarly};

use crate::constraints::Constraints;
use crate::faults::NoTimes;
use crate::sweep::Sweep;
use crate::times::Times;
use crate::watching::Unwatched;
use dm_base::{ActId, Items, Steps};
use dm_graph::search::{Cyclic, Search};
use dm_marks::Marks;
use dm_network::Network;
use std::alloc::{AllocError, Global};
use std::marker::Brand;
use std::sync::ledger::{Blank, Ledger};

/// The least timetable of the constraints. [`NoTimes::Cycle`] comes exactly where held
/// activities form a cycle, unless memory is short first: then [`NoTimes::OutOfMemory`]. Its time is linear in events and
/// activities.
pub fn least_times(
    alloc: Global,
    net: &Network,
    constraints: &Constraints,
) -> Result<Times, NoTimes>
    requires { IsSizedFor net.now constraints.now }
    ensures least { IfOk result (λ times. AreLeast (graph_given net.now constraints.now) times) }
    ensures early { IfOk result (λ times. AreEarly times) }
    ensures no_cycle { OnOk result (HasNoCycleOf net.now (is_held constraints.now.held)) }
    ensures refused { IfErr result (RefusesTimes net.now constraints.now) }
{
    let search = search_order(alloc, net, constraints)?;
    let mut times = Times::room(alloc, net)?;
    let mut marks = Marks::all(alloc, net.events())?;
    // Nothing reads the ledger.
    settle_all::<Brand>(
        &mut marks,
        net,
        constraints,
        &search,
        &mut times,
        Blank::new(1),
    );
    Ok(times)
}

/// Computes every time, along the order that a search has found.
fn settle_all<L: Ledger>(
    marks: &mut Marks,
    net: &Network,
    constraints: &Constraints,
    search: &Search,
    times: &mut Times,
    blank: Blank,
)
    requires sized { IsSizedFor net.now constraints.now }
    requires order { IsOrder (arcs_given net.now constraints.now) search.now.order }
    requires ranks { AreRanks (length net.now.events) search.now.order search.now.ranks }
    requires all { marks.old ≡ replicate (length net.now.events) true }
    requires as_many { length times.old ≡ length net.now.events }
    requires name { blank.name ≡ L.name }
    requires parts { blank.parts ≡ L.parts }
    requires has_a_part { 0 < blank.parts }
    ensures least { AreLeast (graph_given net.now constraints.now) times.new }
    ensures early { AreEarly times.new }
{
    let mut steps = Steps::<L>::new(blank);
    let sweep = Sweep {
        net,
        constraints,
        order: search.order(),
        ranks: search.ranks(),
    };
    sweep.settle_watched(marks, times, &mut Unwatched, &mut Unwatched, &mut steps);
}

/// A search that has found an order of the held activities, or a cycle of them.
fn search_order(alloc: Global, net: &Network, constraints: &Constraints) -> Result<Search, NoTimes>
    requires { IsSizedFor net.now constraints.now }
    ensures order { IfOk result (λ s. IsOrder (arcs_given net.now constraints.now) s.order) }
    ensures ranks { IfOk result (λ s. AreRanks (length net.now.events) s.order s.ranks) }
    ensures refused { IfErr result (RefusesTimes net.now constraints.now) }
{
    let mut search = Search::new(alloc, net.events())?;
    match net.search(constraints.held(), &mut search) {
        Ok(()) => Ok(search),
        Err(Cyclic) => Err(NoTimes::Cycle(ids_of(alloc, net, search.cycle())?)),
    }
}

/// The ids of the activities at these places.
pub fn ids_of(alloc: Global, net: &Network, places: &[usize]) -> Result<Items<ActId>, AllocError>
    requires { (k : ℕ) → k < length places.now → slice_index places.now k < length net.now.activities }
    ensures { IfOk result (λ ids. ids ≡ ids_of net.now places.now) }
{
    let mut ids = Vec::with_capacity(alloc, places.len())?;
    for place in places {
        ids.push(net.activity(*place).id)?;
    }
    Ok(Items::from_vec(ids))
}
