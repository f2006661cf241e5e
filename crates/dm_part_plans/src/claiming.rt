//! Terms that are claimed for one share, and for no other.
ghost use Rattle.std.specs.Prelude.{◌≡◌, ◌++◌, ◌∷◌, ◌≤◌, [], List, length, IfOk, IfSome, OnOk};
ghost use Rattle.dm_parts.specs.declared.shares.Share.{Share as ShareValue};
ghost use Rattle.dm_parts.specs.Shares.{IsShare};
ghost use Rattle.dm_part_plans.specs.Inside.Claims.{AreTaken, AreNewArrivals, AreNewChanges, IsNewArrival, IsNewChange, KeepsArrivals, KeepsChanges, IsSmall};

use dm_base::{ActId, ActKind, EventId, EventKind, Items};
use dm_network::Network;
use dm_parts::Share;
use dm_probe::{Arrival, Connection, Share as Found};
use std::alloc::{AllocError, Global};

/// How many arrivals, and how many changes, a share has at most.
const MOST: usize = 65_536;

/// Which terms stand in a share already, by place.
pub(crate) struct Claims {
    pub(crate) arrivals: Vec<bool>,
    pub(crate) changes: Vec<bool>,
}

impl Drop for Claims {
    fn drop(self) {
        let Claims {
            arrivals: _,
            changes: _,
        } = self;
    }
}

impl Claims {
    /// No term stands in a share.
    pub(crate) fn new(alloc: Global, net: &Network) -> Result<Claims, AllocError>
        ensures { IfOk result (λ c. AreTaken net.now c.arrivals.items c.changes.items []) }
    {
        Ok(Claims {
            arrivals: vec![in alloc; false; net.events()]?,
            changes: vec![in alloc; false; net.activities()]?,
        })
    }

    #[tactic(auto, using(crate::proofs::Claimed::share_of))]
    /// The share of terms that were found, where they stand in ascending order and none stands in a share already.
    pub(crate) fn claim(
        &mut self,
        alloc: Global,
        net: &Network,
        found: &Found,
    ) -> Result<Option<Share>, AllocError>
        requires as_many { length self.old.arrivals.items ≡ length net.now.events }
        requires as_many_changes { length self.old.changes.items ≡ length net.now.activities }
        ensures share { IfOk result (λ o. IfSome o (IsShare net.now)) }
        ensures small { IfOk result (λ o. IfSome o IsSmall) }
        ensures taken { (shares : List ShareValue) → AreTaken net.now self.old.arrivals.items self.old.changes.items shares →
            IfOk result (λ o. IfSome o (λ s. AreTaken net.now self.new.arrivals.items self.new.changes.items (shares ++ s ∷ []))) }
        ensures kept { (shares : List ShareValue) → AreTaken net.now self.old.arrivals.items self.old.changes.items shares →
            OnOk result (AreTaken net.now self.new.arrivals.items self.new.changes.items shares) }
    {
        let Some(arrivals) = claim_arrivals(alloc, net, &mut self.arrivals, &found.arrivals)? else {
            return Ok(None);
        };
        let Some(changes) = claim_changes(alloc, net, &mut self.changes, &found.connections)? else {
            return Ok(None);
        };
        Ok(Some(Share {
            arrivals: Items::from_vec(arrivals),
            changes: Items::from_vec(changes),
        }))
    }
}

#[tactic(auto, using(crate::proofs::Claimed::no_arrivals, crate::proofs::Claimed::arrivals_same))]
fn claim_arrivals(
    alloc: Global,
    net: &Network,
    flags: &mut [bool],
    found: &[Arrival],
) -> Result<Option<Vec<EventId>>, AllocError>
    requires as_many { length flags.old ≡ length net.now.events }
    ensures new { IfOk result (λ o. IfSome o (λ ids. AreNewArrivals net.now flags.old flags.new ids.items)) }
    ensures few { IfOk result (λ o. IfSome o (λ ids. length ids.items ≤ 65536)) }
    ensures kept { KeepsArrivals net.now flags.old flags.new }
{
    let mut ids: Vec<EventId> = Vec::new(alloc);
    for arrival in found {
        if ids.len() >= MOST {
            return Ok(None);
        }
        let Some(id) = claim_arrival(net, flags, &ids, arrival.event) else {
            return Ok(None);
        };
        ids.push(id)?;
    }
    Ok(Some(ids))
}

/// Claims an arrival behind others, if it comes behind them in ascending order and was not claimed before.
fn claim_arrival(
    net: &Network,
    flags: &mut [bool],
    ids: &[EventId],
    place: usize,
) -> Option<EventId>
    requires as_many { length flags.old ≡ length net.now.events }
    ensures new { IfSome result (IsNewArrival net.now flags.old flags.new ids.now) }
    ensures kept { KeepsArrivals net.now flags.old flags.new }
{
    if place >= net.events() || flags[place] {
        return None;
    }
    let event = net.event(place);
    if !matches!(event.kind, EventKind::Arrival) || net.place_of(event.id) != Some(place) {
        return None;
    }
    if let Some(last) = ids.last() {
        if last.0 >= event.id.0 {
            return None;
        }
    }
    flags[place] = true;
    Some(event.id)
}

#[tactic(auto, using(crate::proofs::Claimed::no_changes, crate::proofs::Claimed::changes_same))]
fn claim_changes(
    alloc: Global,
    net: &Network,
    flags: &mut [bool],
    found: &[Connection],
) -> Result<Option<Vec<ActId>>, AllocError>
    requires as_many { length flags.old ≡ length net.now.activities }
    ensures new { IfOk result (λ o. IfSome o (λ ids. AreNewChanges net.now flags.old flags.new ids.items)) }
    ensures few { IfOk result (λ o. IfSome o (λ ids. length ids.items ≤ 65536)) }
    ensures kept { KeepsChanges net.now flags.old flags.new }
{
    let mut ids: Vec<ActId> = Vec::new(alloc);
    for connection in found {
        if ids.len() >= MOST {
            return Ok(None);
        }
        let Some(id) = claim_change(net, flags, &ids, connection.act) else {
            return Ok(None);
        };
        ids.push(id)?;
    }
    Ok(Some(ids))
}

/// Claims a change behind others, if it comes behind them in ascending order and was not claimed before.
fn claim_change(net: &Network, flags: &mut [bool], ids: &[ActId], place: usize) -> Option<ActId>
    requires as_many { length flags.old ≡ length net.now.activities }
    ensures new { IfSome result (IsNewChange net.now flags.old flags.new ids.now) }
    ensures kept { KeepsChanges net.now flags.old flags.new }
{
    if place >= net.activities() || flags[place] {
        return None;
    }
    let activity = net.activity(place);
    if !matches!(activity.kind, ActKind::Change) || net.act_place(activity.id) != Some(place) {
        return None;
    }
    if let Some(last) = ids.last() {
        if last.0 >= activity.id.0 {
            return None;
        }
    }
    flags[place] = true;
    Some(activity.id)
}
