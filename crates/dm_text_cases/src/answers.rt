//! Feeds that are answered in parts.

use crate::feeding::log_of;
use crate::rounds::is_put;
use dm_outside::{MemSink, Page};
use dm_samples::{Case, Failure, Sample, in_one_line};
use dm_tape::put_part;
use std::alloc::Global;

/// The most bytes of what is answered.
const ROOM: usize = 100_000;

/// What a feed over the connection at one station is answered. It comes in parts, which end at these cuts, and as many due lines
/// of a part are answered as the case says, or all where it says none.
pub fn told_of_parts(
    alloc: Global,
    case: &Case<'_>,
    feed: &[u8],
    cuts: &[usize],
) -> Result<String, Failure> {
    let batch = match case.number(0) {
        0 => u32::MAX,
        batch => batch.min(1_000) as u32,
    };
    let net = Sample::Connection.network(alloc)?;
    let log = log_of(alloc, &net, feed, cuts, batch)?;
    let mut sink = MemSink::new(alloc, ROOM, ROOM, Vec::new(alloc))?;
    let mut page = Page::new();
    is_put(put_part(&mut sink, &mut page, 1, log.as_slice()))?;
    is_put(page.finish(&mut sink))?;
    Ok(in_one_line(alloc, sink.taken())?)
}
