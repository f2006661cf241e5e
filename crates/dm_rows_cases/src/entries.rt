//! Messages that are entered into a table.
ghost use Rattle.std.specs.Prelude.{◌≡◌, ◌<◌};
ghost use Rattle.dm_table.specs.Value.{HasRoomFor};

use crate::messages::{Said, message_of};
use crate::networks::network_named;
use dm_base::Steps;
use dm_network::Network;
use dm_rows::{Entry, Refusal};
use dm_samples::{Case, Failure, rows_on_time};
use dm_table::Table;
use std::alloc::{AllocError, Global};
use std::marker::Brand;
use std::sync::ledger::{Blank, Ledger};

/// Seconds for each passenger.
const PENALTY: u64 = 10;

/// How many of the messages in turn are entered, what each of the last is answered, and how many entries the table then has, what
/// they cost, and the last event's time.
pub fn told_of_entries(alloc: Global, case: &Case<'_>, count: u64) -> Result<String, Failure> {
    let said = Said::of(case);
    let net = network_named(alloc, case.word(1))?;
    let mut table = opened(alloc, &net)?;
    enter_in_turn(alloc, &mut table, said.turn, count)?;
    let told = told_of_last(alloc, &mut table, said.last)?;
    let (entries, cost) = (table.len(), table.cost_now());
    let time = table.times().as_slice().last().copied();
    Ok(format!(in alloc; "{told}{entries} entries, cost {cost}, last time {time:?}")?)
}

/// The table of a day on time.
fn opened(alloc: Global, net: &Network) -> Result<Table<'_>, Failure> {
    let rows = rows_on_time(alloc, net)?;
    match Table::new(alloc, net, rows, PENALTY) {
        Ok(table) => Ok(table),
        Err(_) => Err(Failure::NoDay),
    }
}

/// Enters so many messages, those of the text in turn. Each is the entry of its number.
fn enter_in_turn(
    alloc: Global,
    table: &mut Table<'_>,
    text: &str,
    count: u64,
) -> Result<(), Failure> {
    let mut rest = text;
    for turn in 0..count {
        let (one, others) = rest.split_once(" + ").unwrap_or((rest, text));
        rest = others;
        let due = turn.min(1_000_000_000) as u32 + 1;
        if enter(alloc, table, one)? != Ok(due) {
            return Err(Failure::Differs(due));
        }
    }
    Ok(())
}

fn told_of_last(alloc: Global, table: &mut Table<'_>, text: &str) -> Result<String, Failure> {
    let mut told = String::new(alloc);
    for one in text.split(" + ") {
        let answer = enter(alloc, table, one)?;
        told = format!(in alloc; "{told}{answer:?}, ")?;
    }
    Ok(told)
}

/// Enters the message of a text as a line of feed 1.
fn enter(
    alloc: Global,
    table: &mut Table<'_>,
    text: &str,
) -> Result<Result<u32, Refusal>, Failure> {
    let message = message_of(alloc, text)?;
    match table.reserve(&message) {
        Ok(()) => {}
        Err(AllocError) => return Err(Failure::OutOfMemory),
    }
    let entry = Entry {
        feed: 1,
        line: 1,
        message,
    };
    Ok(post::<Brand>(table, entry, Blank::new(1)))
}

/// Enters a message for which there is room, for a ledger that nothing reads.
fn post<L: Ledger>(table: &mut Table<'_>, entry: Entry, blank: Blank) -> Result<u32, Refusal>
    requires room { HasRoomFor table.old entry.message }
    requires name { blank.name ≡ L.name }
    requires parts { blank.parts ≡ L.parts }
    requires has_a_part { 0 < blank.parts }
{
    let mut steps = Steps::<L>::new(blank);
    table.post(entry, &mut steps)
}
