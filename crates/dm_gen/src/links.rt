//! The activities between the events of trains, before they have ids.
ghost use Rattle.std.specs.Prelude.{◌≡◌, ◌+◌, ◌-◌, ◌<◌, ◌≤◌, ◌++◌, OnOk, IfOk, map};
ghost use Rattle.std.specs.List.{flat_map, range_with_len};
ghost use Rattle.dm_gen.specs.Activities.{drive, wait, headway, headways_on_leg, change, links_of_train, headways_of_train, links_of};

use crate::trains::{arrival_id, departure_id};
use dm_base::{ActKind, EventId, Milli, Secs};
use std::alloc::{AllocError, Global};

/// An activity without its id.
#[derive(Clone, Copy)]
pub struct Link {
    pub kind: ActKind,
    pub tail: EventId,
    pub head: EventId,

    /// The least time from the tail to the head, in seconds.
    pub lower: Secs,

    /// Thousandths of passengers.
    pub weight: Milli,
}

fn drive(train: u32, leg: u32) -> Link
    requires of_train { train < 2000 }
    requires of_leg { leg < 10 }
    ensures { result ≡ drive train leg }
{
    Link {
        kind: ActKind::Drive,
        tail: departure_id(train, leg),
        head: arrival_id(train, leg),
        lower: 300,
        weight: 0,
    }
}

fn wait(train: u32, leg: u32) -> Link
    requires of_train { train < 2000 }
    requires of_leg { leg < 9 }
    ensures { result ≡ wait train leg }
{
    Link {
        kind: ActKind::Wait,
        tail: arrival_id(train, leg),
        head: departure_id(train, leg + 1),
        lower: 40,
        weight: 0,
    }
}

fn headway(train: u32, other: u32, leg: u32) -> Link
    requires of_train { train < 2000 }
    requires of_other { other < 2000 }
    requires of_leg { leg < 10 }
    ensures { result ≡ headway train other leg }
{
    Link {
        kind: ActKind::Headway,
        tail: departure_id(train, leg),
        head: departure_id(other, leg),
        lower: 120,
        weight: 0,
    }
}

fn change(train: u32) -> Link
    requires { train + 1 < 2000 }
    ensures { result ≡ change train }
{
    Link {
        kind: ActKind::Change,
        tail: arrival_id(train, 4),
        head: departure_id(train + 1, 5),
        lower: 60,
        weight: 5_000,
    }
}

fn put_drives(links: &mut Vec<Link>, train: u32) -> Result<(), AllocError>
    requires { train < 2000 }
    ensures { OnOk result (links.new.items ≡ links.old.items ++ map (drive train) (range_with_len 0 10)) }
{
    for leg in 0..10 {
        links.push(drive(train, leg))?;
    }
    Ok(())
}

fn put_waits(links: &mut Vec<Link>, train: u32) -> Result<(), AllocError>
    requires { train < 2000 }
    ensures { OnOk result (links.new.items ≡ links.old.items ++ map (wait train) (range_with_len 0 9)) }
{
    for leg in 0..9 {
        links.push(wait(train, leg))?;
    }
    Ok(())
}

// Puts a train's own activities behind the links.
fn put_train(links: &mut Vec<Link>, train: u32) -> Result<(), AllocError>
    requires { train < 2000 }
    ensures { OnOk result (links.new.items ≡ links.old.items ++ links_of_train train) }
{
    put_drives(links, train)?;
    put_waits(links, train)
}

// Puts the headways of a train and the one eight behind it on a leg behind the links.
#[tactic(auto, using(crate::proofs::Growing::two_behind))]
fn put_pair(links: &mut Vec<Link>, train: u32, leg: u32) -> Result<(), AllocError>
    requires of_train { train + 8 < 2000 }
    requires of_leg { leg < 10 }
    ensures { OnOk result (links.new.items ≡ links.old.items ++ headways_on_leg train (train + 8) leg) }
{
    let other = train + 8;
    links.push(headway(train, other, leg))?;
    links.push(headway(other, train, leg))?;
    Ok(())
}

#[tactic(auto, unfolding(crate::specs::Activities::headways_of_train))]
fn put_headways(links: &mut Vec<Link>, train: u32) -> Result<(), AllocError>
    requires { train + 8 < 2000 }
    ensures { OnOk result (links.new.items ≡ links.old.items ++ headways_of_train train) }
{
    for leg in 0..10 {
        put_pair(links, train, leg)?;
    }
    Ok(())
}

fn put_all_trains(links: &mut Vec<Link>, trains: u32) -> Result<(), AllocError>
    requires { trains ≤ 2000 }
    ensures { OnOk result (links.new.items ≡ links.old.items ++ flat_map links_of_train (range_with_len 0 trains)) }
{
    for train in 0..trains {
        put_train(links, train)?;
    }
    Ok(())
}

fn put_all_headways(links: &mut Vec<Link>, trains: u32) -> Result<(), AllocError>
    requires { trains ≤ 2000 }
    ensures { OnOk result (links.new.items ≡ links.old.items ++ flat_map headways_of_train (range_with_len 0 (trains - 8))) }
{
    for train in 0..trains.saturating_sub(8) {
        put_headways(links, train)?;
    }
    Ok(())
}

fn put_all_changes(links: &mut Vec<Link>, trains: u32) -> Result<(), AllocError>
    requires { trains ≤ 2000 }
    ensures { OnOk result (links.new.items ≡ links.old.items ++ map change (range_with_len 0 (trains - 1))) }
{
    for train in 0..trains.saturating_sub(1) {
        links.push(change(train))?;
    }
    Ok(())
}

/// The activities of so many trains, in the order of their ids.
#[tactic(auto, unfolding(crate::specs::Activities::links_of))]
pub(crate) fn links_of(alloc: Global, trains: u32) -> Result<Vec<Link>, AllocError>
    requires { trains ≤ 2000 }
    ensures { IfOk result (λ links. links.items ≡ links_of trains) }
{
    let mut links = Vec::new(alloc);
    put_all_trains(&mut links, trains)?;
    put_all_headways(&mut links, trains)?;
    put_all_changes(&mut links, trains)?;
    Ok(links)
}
