//! Entries and plans that a table takes.

ghost use Rattle.std.specs.Prelude.{◌≡◌, ◌<◌, ℕ, length, IfOk, IfErr, OnErr};
ghost use Rattle.dm_desk.specs.Desks.{AdoptsPlan, CarriesPlan};
ghost use Rattle.dm_table.specs.Answers.{RefusesPost};
ghost use Rattle.dm_table.specs.Value.{HasRoomFor};
ghost use Rattle.dm_tree.specs.Plans.{chosen};
ghost use Rattle.dm_table_desk.specs.Tables.{desk_of};
ghost use Rattle.dm_table_desk.specs.Inside.Entering.{Gains, IsSameDesk, IsRefusedAfter, IsAdoptableAt};

use dm_base::limits::ENTRIES;
use dm_base::{Items, Steps};
use dm_rows::{At, Decision, Entry, Message, Refusal, free_among};
use dm_table::Table;
use dm_tree::AdoptRefusal;
use std::alloc::{AllocError, Global};
use std::marker::Brand;
use std::sync::ledger::{Blank, Ledger};

/// Enters a message, or says why it is refused after the history.
pub(crate) fn enter(table: &mut Table<'_>, entry: Entry) -> Result<u32, Refusal>
    ensures gains { IfOk result (Gains table.old table.new entry) }
    ensures stays { OnErr result (IsSameDesk table.old table.new) }
    ensures refused { IfErr result (IsRefusedAfter table.old entry.message) }
{
    table.reveal();
    match table.reserve(&entry.message) {
        Ok(()) => post_with::<Brand>(table, entry, Blank::new(1)),
        Err(AllocError) => Err(Refusal::OutOfMemory),
    }
}

/// Enters a message for which there is room, for a ledger that nothing reads.
fn post_with<L: Ledger>(table: &mut Table<'_>, entry: Entry, blank: Blank) -> Result<u32, Refusal>
    requires room { HasRoomFor table.old entry.message }
    requires name { blank.name ≡ L.name }
    requires parts { blank.parts ≡ L.parts }
    requires has_a_part { 0 < blank.parts }
    ensures gains { IfOk result (Gains table.old table.new entry) }
    ensures stays { OnErr result (table.new ≡ table.old) }
    ensures refused { IfErr result (RefusesPost table.old.network table.old.rows (length table.old.history) entry.message) }
{
    let mut steps = Steps::<L>::new(blank);
    table.post(entry, &mut steps)
}

/// Adopts the choices of a plan of the rows at an entry, or says why they are not adopted after the history.
pub(crate) fn adopt(
    alloc: Global,
    table: &mut Table<'_>,
    entry: u32,
    choices: &[Decision],
    feed: u32,
    line: u32,
) -> Result<u32, AdoptRefusal>
    requires { IsAdoptableAt table.old (chosen entry choices.now) }
    ensures { (plans : ℕ) → AdoptsPlan (desk_of plans table.old) (desk_of plans table.new) (chosen entry choices.now) feed line result }
{
    table.reveal();
    table.network().reveal();
    let now = table.len();
    if entry < now {
        return Err(AdoptRefusal::Old { now });
    }
    if now == ENTRIES {
        return Err(AdoptRefusal::Full { now });
    }
    let Ok(choices) = Items::from_slice(alloc, choices) else {
        return Err(AdoptRefusal::OutOfMemory);
    };
    let message = Message::Adopt(choices);
    let adopted = Entry {
        feed,
        line,
        message,
    };
    match enter(table, adopted) {
        Ok(number) => Ok(number),
        Err(why) => Err(AdoptRefusal::want_of_memory(why)),
    }
}

/// Enters those of the choices that are free after the history, or says why that is refused.
pub(crate) fn carry(
    alloc: Global,
    table: &mut Table<'_>,
    choices: &[Decision],
    feed: u32,
    line: u32,
) -> Result<u32, At<Refusal>>
    ensures { (plans : ℕ) → CarriesPlan (desk_of plans table.old) (desk_of plans table.new) choices.now feed line result }
{
    table.reveal();
    let here = table.len();
    let Ok(room) = Vec::with_capacity(alloc, choices.len()) else {
        return Err(At {
            entry: here,
            why: Refusal::OutOfMemory,
        });
    };
    let free = free_among(table.network(), table.rows(), choices, room);
    let entry = Entry {
        feed,
        line,
        message: Message::Adopt(free),
    };
    match enter(table, entry) {
        Ok(number) => Ok(number),
        Err(why) => Err(At { entry: here, why }),
    }
}
