//! Feeds before their first line.

ghost use Rattle.std.specs.Prelude.{map, IfOk};
ghost use Rattle.dm_rounds.specs.Inside.Jobs.{Begins, BeginAll};

use crate::jobs::{Job, Progress};
use dm_base::limits::FEED;
use dm_feed::{FeedStop, LineReader};
use std::alloc::{AllocError, Global};

// Room for so many items of a log at once, as many as a full feed has lines of eight bytes: a log that grows is copied again and
// again, and room that no item takes costs addresses alone.
const LOG_ROOM: usize = FEED / 8;

/// A job for each feed, with room for 32,768 items of its log. Its reader's buffer is in it, and it is moved often, so it is in a
/// box. `Err` is want of memory alone.
pub fn begin<S: Drop>(alloc: Global, feeds: Vec<Option<S>>) -> Result<Vec<Box<Job<S>>>, AllocError>
    ensures { IfOk result (λ jobs. BeginAll feeds.items (map (λ b. b.value) jobs.items)) }
{
    let mut jobs = Vec::new(alloc);
    for feed in feeds {
        jobs.push(Box::new(alloc, job_of(alloc, feed)?)?)?;
    }
    Ok(jobs)
}

// A feed that could not be opened has ended.
fn job_of<S: Drop>(alloc: Global, feed: Option<S>) -> Result<Job<S>, AllocError>
    ensures { IfOk result (Begins feed) }
{
    let log = Vec::with_capacity(alloc, LOG_ROOM)?;
    let progress = match feed {
        Some(source) => Progress::Reading(LineReader::new(source)),
        None => Progress::Ended(FeedStop::Fault),
    };
    Ok(Job { progress, log })
}
