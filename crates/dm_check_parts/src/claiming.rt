//! Whether some term stands in two shares.
ghost use Rattle.std.specs.Prelude.{◌≡◌, ◌++◌, map, All, IfOk, OnOk};
ghost use Rattle.dm_check_rows.specs.Claims.{Tells};
ghost use Rattle.dm_parts.specs.Parts.{shares_of};
ghost use Rattle.dm_parts.specs.Shares.{AreApart};
ghost use Rattle.dm_check_parts.specs.Inside.Claimed.{all_arrivals, all_changes, HasAscending};

use dm_base::{ActId, EventId};
use dm_network::least_double;
use dm_parts::Part;
use std::alloc::{AllocError, Global};

/// Whether no arrival and no change stands in two shares, where the ids of each ascend. `Err` is want of memory alone.
pub fn are_apart(alloc: Global, parts: &[Part]) -> Result<bool, AllocError>
    requires { All HasAscending parts.now }
    ensures { IfOk result (Tells (AreApart (shares_of parts.now))) }
{
    let arrivals = match arrivals_in(alloc, parts) {
        Ok(arrivals) => arrivals,
        Err(AllocError) => return Err(AllocError),
    };
    let changes = match changes_in(alloc, parts) {
        Ok(changes) => changes,
        Err(AllocError) => return Err(AllocError),
    };
    if let Some(_double) = least_double(arrivals) {
        return Ok(false);
    }
    if let Some(_double) = least_double(changes) {
        return Ok(false);
    }
    Ok(true)
}

/// The ids of all arrivals, share by share.
fn arrivals_in(alloc: Global, parts: &[Part]) -> Result<Vec<u32>, AllocError>
    ensures { IfOk result (λ ids. ids.items ≡ all_arrivals parts.now) }
{
    let mut ids = Vec::new(alloc);
    for part in parts {
        let Ok(()) = push_arrivals(&mut ids, part.share.arrivals.as_slice()) else {
            return Err(AllocError);
        };
    }
    Ok(ids)
}

fn push_arrivals(ids: &mut Vec<u32>, arrivals: &[EventId]) -> Result<(), AllocError>
    ensures { OnOk result (ids.new.items ≡ ids.old.items ++ map (λ e. e.0) arrivals.now) }
{
    for arrival in arrivals {
        let Ok(()) = ids.push(arrival.0) else {
            return Err(AllocError);
        };
    }
    Ok(())
}

/// The ids of all changes, share by share.
fn changes_in(alloc: Global, parts: &[Part]) -> Result<Vec<u32>, AllocError>
    ensures { IfOk result (λ ids. ids.items ≡ all_changes parts.now) }
{
    let mut ids = Vec::new(alloc);
    for part in parts {
        let Ok(()) = push_changes(&mut ids, part.share.changes.as_slice()) else {
            return Err(AllocError);
        };
    }
    Ok(ids)
}

fn push_changes(ids: &mut Vec<u32>, changes: &[ActId]) -> Result<(), AllocError>
    ensures { OnOk result (ids.new.items ≡ ids.old.items ++ map (λ a. a.0) changes.now) }
{
    for change in changes {
        let Ok(()) = ids.push(change.0) else {
            return Err(AllocError);
        };
    }
    Ok(())
}
