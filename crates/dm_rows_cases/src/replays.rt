//! Entries that are replayed.
ghost use Rattle.dm_rows.specs.Rows.{IsSized};

use crate::messages::messages_of;
use crate::networks::network_named;
use dm_history::{ReplayFault, replay};
use dm_network::Network;
use dm_rows::{Entry, Message, Rows};
use dm_samples::{Case, Failure, rows_on_time};
use dm_times::least;
use std::alloc::{AllocError, Global};

/// The times after the messages of a case as entries, or the entry that is refused.
pub fn told_of_replay(alloc: Global, case: &Case<'_>) -> Result<String, Failure> {
    let net = network_named(alloc, case.word(1))?;
    let start = rows_on_time(alloc, &net)?;
    let entries = entries_of(alloc, messages_of(alloc, case.text)?)?;
    told_of_entries(alloc, &net, &start, &entries)
}

fn entries_of(alloc: Global, messages: Vec<Message>) -> Result<Vec<Entry>, AllocError> {
    let mut entries = Vec::new(alloc);
    for message in messages {
        entries.push(Entry {
            feed: 1,
            line: 1,
            message,
        })?;
    }
    Ok(entries)
}

fn told_of_entries(
    alloc: Global,
    net: &Network,
    start: &Rows,
    entries: &[Entry],
) -> Result<String, Failure>
    requires { IsSized net.now start.now }
{
    match replay(alloc, net, start, entries) {
        Ok(rows) => told_of_times(alloc, net, &rows),
        Err(ReplayFault::OutOfMemory) => Err(Failure::OutOfMemory),
        Err(ReplayFault::Refused(place, refusal)) => {
            Ok(format!(in alloc; "entry at {place} refused for {refusal:?}")?)
        }
    }
}

fn told_of_times(alloc: Global, net: &Network, rows: &Rows) -> Result<String, Failure>
    requires { IsSized net.now rows.now }
{
    let Ok(times) = least(alloc, net, rows) else {
        return Err(Failure::NoDay);
    };
    let times = times.as_slice();
    Ok(format!(in alloc; "times {times:?}")?)
}
