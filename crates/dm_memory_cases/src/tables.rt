//! Tables that are made and entered into.
ghost use Rattle.std.specs.Prelude.{◌≡◌, ◌<◌};
ghost use Rattle.dm_table.specs.Value.{HasRoomFor};

use crate::case::{Case, LATE, PENALTY, is_due};
use dm_base::{ActId, Cost, EventId, Items, Steps};
use dm_network::Network;
use dm_rows::{Decision, Entry, Message, Refusal, Snapshot};
use dm_samples::{Failure, Sample, rows_on_time};
use dm_settle::NoTimes;
use dm_table::Table;
use std::alloc::{AllocError, Global};
use std::marker::Brand;
use std::sync::ledger::{Blank, Ledger};

/// A delay and its plan are entered, and the rows are copied.
pub struct EntersMessages;

impl Case for EntersMessages {
    fn come_out(alloc: Global, net: &Network, _day: &Snapshot) -> Result<(), Failure> {
        let mut table = opened(alloc, net)?;
        enters_both(alloc, &mut table)
    }
}

fn enters_both(alloc: Global, table: &mut Table<'_>) -> Result<(), Failure> {
    enters(table, LATE, Ok(1))?;
    enters(table, plan(alloc)?, Ok(2))?;
    let copy = table.copy()?;
    is_due(copy.entry == 2 && table.cost_now() == 940_000, 3)
}

/// Where a train turns around, the second one cannot go first.
pub struct RefusesCycle;

impl Case for RefusesCycle {
    fn come_out(alloc: Global, _net: &Network, _day: &Snapshot) -> Result<(), Failure> {
        let net = Sample::Turnaround.network(alloc)?;
        refuses_cycle(alloc, &net)
    }
}

fn refuses_cycle(alloc: Global, net: &Network) -> Result<(), Failure> {
    let mut table = opened(alloc, net)?;
    shows_cycle(&mut table)
}

fn shows_cycle(table: &mut Table<'_>) -> Result<(), Failure> {
    let first = refusal_of(table);
    let refusal = if first == Some(Refusal::OutOfMemory) {
        is_due(standing(table) == (0, 0), 1)?;
        refusal_of(table)
    } else {
        first
    };
    let shown = matches!(&refusal, Some(Refusal::Cycle(_)));
    is_due(shown && standing(table) == (0, 0), 2)
}

fn refusal_of(table: &mut Table<'_>) -> Option<Refusal> {
    let turned = Message::First(EventId(5), EventId(3));
    enter(table, 1, turned).err()
}

/// The best plan for the delay.
fn plan(alloc: Global) -> Result<Message, AllocError> {
    let mut decisions = Vec::new(alloc);
    decisions.push(Decision::Drop(ActId(5)))?;
    decisions.push(Decision::First(EventId(5), EventId(3)))?;
    Ok(Message::Adopt(Items::from_vec(decisions)))
}

/// The table of a day on time.
fn opened(alloc: Global, net: &Network) -> Result<Table<'_>, Failure> {
    let rows = rows_on_time(alloc, net)?;
    match Table::new(alloc, net, rows, PENALTY) {
        Ok(table) => Ok(table),
        Err(NoTimes::OutOfMemory) => Err(Failure::OutOfMemory),
        Err(NoTimes::Cycle(_)) => Err(Failure::NoDay),
    }
}

fn enters(
    table: &mut Table<'_>,
    message: Message,
    due: Result<u32, Refusal>,
) -> Result<(), Failure> {
    is_due(enter(table, 1, message) == due, 0)
}

/// How many entries a table has, and what its times cost.
fn standing(table: &Table<'_>) -> (u32, Cost) {
    (table.len(), table.cost_now())
}

/// Enters a message as a line of feed 1.
fn enter(table: &mut Table<'_>, line: u32, message: Message) -> Result<u32, Refusal> {
    let before = standing(table);
    if table.reserve(&message).is_err() && standing(table) != before {
        return Err(Refusal::Full(line));
    }
    let Ok(()) = table.reserve(&message) else {
        return Err(Refusal::Full(line));
    };
    let entry = Entry {
        feed: 1,
        line,
        message,
    };
    post::<Brand>(table, entry, Blank::new(1))
}

/// Enters a message for which there is room, for a ledger that nothing reads.
fn post<L: Ledger>(table: &mut Table<'_>, entry: Entry, blank: Blank) -> Result<u32, Refusal>
    requires room { HasRoomFor table.old entry.message }
    requires name { blank.name ≡ L.name }
    requires parts { blank.parts ≡ L.parts }
    requires has_a_part { 0 < blank.parts }
{
    let mut steps = Steps::<L>::new(blank);
    table.post(entry, &mut steps)
}
