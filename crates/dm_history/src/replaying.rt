//! The rows after a list of entries.
ghost use Rattle.std.specs.Prelude.{◌≡◌, ◌⊎◌, ◌≤◌, length, IfOk, IfErr, OnOk};
ghost use Rattle.dm_base.specs.declared.limits.TheConstants.{ENTRIES as MOST};
ghost use Rattle.dm_rows.specs.Rows.{IsSized};
ghost use Rattle.dm_rows.specs.Active.{HasNoCycle};
ghost use Rattle.dm_rows.specs.Refuse.{IsNow};
ghost use Rattle.dm_rows.specs.History.{rows_at, IsLegal};
ghost use Rattle.dm_history.specs.Replay.{RefusesReplay};
ghost use Rattle.dm_history.specs.Inside.Entering.{Enters, IsKnownFree, StaysFree, RefusesCycle, RefusesEntry, fault_at};

use dm_base::limits::ENTRIES;
use dm_network::Network;
use dm_rows::{Entry, Message, Refusal, Rows, admit};
use dm_times::laws::harmless_messages_make_no_cycle;
use dm_times::{NoTimes, least};
use std::alloc::{AllocError, Global};

/// Why entries have no rows.
#[derive(Drop)]
pub enum ReplayFault {
    /// The entry at this place, from 0, is the first that is refused, for this.
    Refused(usize, Refusal),

    /// There is not enough memory.
    OutOfMemory,
}

impl From<AllocError> for ReplayFault {
    ghost use Rattle.std.specs.Prelude.{◌≡◌};
    ghost use Rattle.dm_history.specs.declared.replaying.ReplayFault.TheVariants.{OutOfMemory};

    ghost from_gives = { λ _ fault. fault ≡ OutOfMemory };

    fn from(_error: AllocError) -> ReplayFault {
        ReplayFault::OutOfMemory
    }
}

/// The rows after all entries, which are then a legal history from the start. [`ReplayFault::Refused`] comes exactly where
/// an entry is refused by the rows after those before it, and names the first; [`ReplayFault::OutOfMemory`] where there is
/// not enough memory. A message that can make no cycle takes no search.
pub fn replay(
    alloc: Global,
    net: &Network,
    start: &Rows,
    entries: &[Entry],
) -> Result<Rows, ReplayFault>
    requires { IsSized net.now start.now }
    ensures rows { IfOk result (λ rows. rows ≡ rows_at net.now start.now entries.now (length entries.now)) }
    ensures legal { OnOk result (IsLegal net.now start.now entries.now) }
    ensures refused { IfErr result (RefusesReplay net.now start.now entries.now) }
{
    let mut rows = start.copy()?;
    let mut known = false;
    for (place, entry) in entries.iter().enumerate() {
        match enter(alloc, net, &mut rows, known, place, &entry.message) {
            Ok(is_free) => known = is_free,
            Err(fault) => return Err(fault),
        }
    }
    Ok(rows)
}

/// Enters the message that stands at a place, and says whether the rows after it are known to have no cycle, as they may be
/// before it.
fn enter(
    alloc: Global,
    net: &Network,
    rows: &mut Rows,
    known: bool,
    place: usize,
    message: &Message,
) -> Result<bool, ReplayFault>
    requires sized { IsSized net.now rows.old }
    requires free { IsKnownFree net.now rows.old known }
    requires few { place ≤ MOST }
    ensures entered { IfOk result (Enters net.now rows.old rows.new place message.now) }
    ensures refused { IfErr result (RefusesEntry net.now rows.old place message.now) }
{
    let change = match admit(alloc, net, rows, message) {
        Ok(change) => change,
        Err(refusal) => return Err(fault_at(place, refusal)),
    };
    let stays = stays_free(known, message);
    rows.apply(&change);
    let is_free = match look_for_cycle(alloc, net, rows, stays, message) {
        Ok(is_free) => is_free,
        Err(NoTimes::Cycle(ids)) => {
            return Err(ReplayFault::Refused(place, Refusal::Cycle(ids)));
        }
        Err(NoTimes::OutOfMemory) => return Err(ReplayFault::OutOfMemory),
    };
    if place == ENTRIES as usize {
        return Err(ReplayFault::Refused(place, Refusal::Full(ENTRIES)));
    }
    Ok(is_free)
}

/// A refusal of the entry at a place.
fn fault_at(place: usize, refusal: Refusal) -> ReplayFault
    ensures { result ≡ fault_at place refusal }
{
    match refusal {
        Refusal::OutOfMemory => ReplayFault::OutOfMemory,
        refusal => ReplayFault::Refused(place, refusal),
    }
}

/// Whether rows without a cycle stay so at this message, as far as its kind tells.
fn stays_free(known: bool, message: &Message) -> bool
    ensures { StaysFree known message.now result }
{
    harmless_messages_make_no_cycle();
    match message {
        Message::DelayEvent(_, _)
        | Message::DelayActivity(_, _)
        | Message::Pass(_, _)
        | Message::Drop(_)
        | Message::Now(_)
        | Message::Cancel(_)
        | Message::Lock(_)
        | Message::Unlock(_) => known,
        _ => false,
    }
}

/// Looks for a cycle of the rows after a message, where it may have made one: not where they are known to have none, and not
/// for a clock. It answers whether they are then known to have none.
fn look_for_cycle(
    alloc: Global,
    net: &Network,
    rows: &Rows,
    known: bool,
    message: &Message,
) -> Result<bool, NoTimes>
    requires sized { IsSized net.now rows.now }
    requires free { IsKnownFree net.now rows.now known }
    ensures free { IfOk result (IsKnownFree net.now rows.now) }
    ensures asked { OnOk result (IsNow message.now ⊎ HasNoCycle net.now rows.now) }
    ensures refused { IfErr result (RefusesCycle net.now rows.now message.now) }
{
    if known || matches!(message, Message::Now(_)) {
        return Ok(known);
    }
    match least(alloc, net, rows) {
        Ok(_) => Ok(true),
        Err(no_times) => Err(no_times),
    }
}
