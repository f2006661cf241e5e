//! Whether a message is refused as it is said to be.
ghost use Rattle.std.specs.Prelude.{◌≡◌, Some, IfOk};
ghost use Rattle.dm_network.specs.Net.{Net};
ghost use Rattle.dm_rows.specs.Rows.{IsSized};
ghost use Rattle.dm_rows.specs.Active.{HasNoCycle};
ghost use Rattle.dm_rows.specs.Reach.{Reaches};
ghost use Rattle.dm_rows.specs.Resolve.{change_named, after, after_change};
ghost use Rattle.dm_rows.specs.Refuse.{Refuses, RefusesAdmission, PassesAtOnce};
ghost use Rattle.dm_check_rows.specs.Claims.{AreCheckedRowsOf, Tells};
ghost use Rattle.dm_check_rows.specs.Inside.Claimed.{IsRefused};

use crate::checked_rows::{CheckedRows, is_now, stays_free};
use crate::claimed::ClaimedRefusal;
use crate::cycles::shows_cycle;
use crate::refusals::is_same_refusal;
use dm_base::limits::ENTRIES;
use dm_check_times::{HeldCycle, KeptTimetable};
use dm_marks::PlaceSet;
use dm_network::Network;
use dm_rows::{Change, Message, Refusal, Rows, admit};
use std::alloc::{AllocError, Global};

/// Whether a message is refused at so many entries, and for this reason. A cycle is any of the rows after the message.
pub fn is_refused(
    alloc: Global,
    net: &Network,
    checked: &CheckedRows,
    entries: u32,
    message: &Message,
    why: &Refusal,
) -> Result<bool, AllocError>
    requires { AreCheckedRowsOf net.now checked.now }
    ensures { IfOk result (Tells (Refuses net.now checked.now.rows entries message.now why.now)) }
{
    let claimed = ClaimedRefusal {
        net,
        rows: checked.rows(),
        is_free: checked.is_free(),
        entries,
        message,
        why,
    };
    claimed.is_true(alloc)
}

impl ClaimedRefusal<'_> {
    fn is_true(&self, alloc: Global) -> Result<bool, AllocError>
        ensures { IfOk result (Tells (IsRefused self.now)) }
    {
        match admit(alloc, self.net, self.rows, self.message) {
            Ok(change) => self.is_true_after(alloc, &change),
            Err(refusal) => self.is_true_of(&refusal),
        }
    }

    /// The same where the message is not admitted, for this refusal.
    fn is_true_of(&self, refusal: &Refusal) -> Result<bool, AllocError>
        requires { RefusesAdmission self.now.net.now self.now.rows.now self.now.message.now refusal.now }
        ensures { IfOk result (Tells (IsRefused self.now)) }
    {
        match refusal {
            Refusal::OutOfMemory => Err(AllocError),
            _ => Ok(is_same_refusal(refusal, self.why)),
        }
    }

    /// The same where nothing refuses the message at once, and it comes to this change.
    fn is_true_after(&self, alloc: Global, change: &Change) -> Result<bool, AllocError>
        requires named { change_named self.now.net.now self.now.message.now ≡ Some change.now }
        requires reaches { Reaches self.now.rows.now change.now }
        requires passes { PassesAtOnce self.now.net.now self.now.rows.now self.now.message.now }
        ensures { IfOk result (Tells (IsRefused self.now)) }
    {
        match self.why {
            Refusal::Cycle(ids) => {
                if is_now(self.message) {
                    return Ok(false);
                }
                match rows_after(self.rows, change) {
                    Ok(after) => Ok(shows_cycle(self.net, &after, ids.as_slice())),
                    Err(AllocError) => Err(AllocError),
                }
            }
            Refusal::Full(entries) => {
                if self.entries != ENTRIES || *entries != ENTRIES {
                    return Ok(false);
                }
                if is_now(self.message) {
                    return Ok(true);
                }
                self.has_no_cycle_after(alloc, change)
            }
            _ => Ok(false),
        }
    }

    /// Whether the rows have no cycle after the message, which comes to this change.
    fn has_no_cycle_after(&self, alloc: Global, change: &Change) -> Result<bool, AllocError>
        requires named { change_named self.now.net.now self.now.message.now ≡ Some change.now }
        requires reaches { Reaches self.now.rows.now change.now }
        ensures { IfOk result (Tells (HasNoCycle self.now.net.now (after self.now.net.now self.now.rows.now self.now.message.now))) }
    {
        if stays_free(self.is_free, self.message) {
            return Ok(true);
        }
        match rows_after(self.rows, change) {
            Ok(after) => has_no_cycle(alloc, self.net, &after),
            Err(AllocError) => Err(AllocError),
        }
    }
}

fn has_no_cycle(alloc: Global, net: &Network, rows: &Rows) -> Result<bool, AllocError>
    requires { IsSized net.now rows.now }
    ensures { IfOk result (Tells (HasNoCycle net.now rows.now)) }
{
    let Ok(mut timetable) = KeptTimetable::new(alloc, net) else {
        return Err(AllocError);
    };
    let Ok(mut moved) = PlaceSet::new(alloc, net.events()) else {
        return Err(AllocError);
    };
    match timetable.fill(net, rows, &mut moved) {
        Ok(()) => Ok(true),
        Err(HeldCycle) => Ok(false),
    }
}

fn rows_after(rows: &Rows, change: &Change) -> Result<Rows, AllocError>
    requires { Reaches rows.now change.now }
    ensures rows { IfOk result (λ after. after ≡ after_change rows.now change.now) }
    ensures sizes { (net : Net) → IsSized net rows.now → IfOk result (IsSized net) }
{
    let mut after = match rows.copy() {
        Ok(copy) => copy,
        Err(AllocError) => return Err(AllocError),
    };
    after.apply(change);
    Ok(after)
}
