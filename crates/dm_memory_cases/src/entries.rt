//! Entries that are kept one by one.

use crate::case::{Case, LATE, is_due};
use dm_base::limits::ENTRIES;
use dm_history::History;
use dm_network::Network;
use dm_rows::{Entry, Snapshot};
use dm_samples::Failure;
use std::alloc::Global;

/// How many entries are kept.
const COUNT: u32 = 20;

/// A history makes room for one entry after the other.
pub struct KeepsEntries;

impl Case for KeepsEntries {
    fn come_out(alloc: Global, _net: &Network, _day: &Snapshot) -> Result<(), Failure> {
        let mut history = History::new(alloc);
        for line in 0..COUNT {
            keep(&mut history, line)?;
        }
        is_due(history.len() == COUNT, COUNT)
    }
}

/// Keeps a delay as this line of feed 1.
fn keep(history: &mut History, line: u32) -> Result<(), Failure> {
    if history.reserve().is_err() {
        is_due(history.len() == line, line)?;
        is_due(history.reserve().is_ok(), line)?;
    }
    push(history, line);
    Ok(())
}

fn push(history: &mut History, line: u32) {
    let room = history.reserve();
    if room.is_ok() && history.len() < ENTRIES {
        history.push(Entry {
            feed: 1,
            line,
            message: LATE,
        });
    }
}
