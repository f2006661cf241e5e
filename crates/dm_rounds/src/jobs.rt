//! A feed that is being answered.

ghost use Rattle.std.specs.Prelude.{◌≡◌, OnOk};
ghost use Rattle.dm_rounds.specs.Inside.Jobs.{CanRead, StepsFrom};
ghost use Rattle.dm_desk.specs.Answered.{HasSeenLegal, AreTrueOf};
ghost use Rattle.dm_desk.specs.Planning.{PlansUnder};

use dm_cert::LogItem;
use dm_desk::{Desk, HoldPoint, Search, answer_batch};
use dm_feed::{FeedStop, LineReader};
use dm_outside::Source;
use dm_parts::AnyPlan;
use dm_rows::Snapshot;
use std::alloc::AllocError;

/// How far a feed was read.
#[derive(Drop)]
pub enum Progress<S> {
    /// It may have lines left.
    Reading(LineReader<S>),

    /// It is read no further.
    Ended(FeedStop),
}

/// A feed and its log.
#[derive(Drop)]
pub struct Job<S> {
    pub progress: Progress<S>,
    pub log: Vec<LogItem>,
}

/// Answers the next lines of a feed that has not ended, so many of them or all that are left. `Err` is want of memory alone.
pub fn answer_job<
    S: Source + Drop,
    D: Desk,
    P: Fn(&Snapshot, Search) -> Result<AnyPlan, AllocError>,
    H: HoldPoint,
>(
    job: &mut Job<S>,
    desk: &mut D,
    planner: &P,
    gate: &H,
    feed: u32,
    batch: u32,
) -> Result<(), AllocError>
    requires legal { HasSeenLegal (D.value desk.old) }
    requires plans { PlansUnder (P.pre planner.now) (P.post planner.now) (D.value desk.old).setting }
    requires are_true { AreTrueOf (D.value desk.old) feed job.old.log.items }
    requires can_read { CanRead job.old.progress }
    ensures { OnOk result (StepsFrom S.left S.is_sound job.old.progress job.old.log.items job.new (D.value desk.old) (D.value desk.new) feed
        batch) }
{
    let Progress::Reading(reader) = &mut job.progress else {
        return Ok(());
    };
    match answer_batch(reader, desk, planner, gate, feed, batch, &mut job.log)? {
        Some(stop) => end_job(job, stop),
        None => {}
    }
    Ok(())
}

// Reads the feed no further. It stays a call: an end takes the room of a reader, which is cleared where the end is made.
#[inline(never)]
fn end_job<S: Drop>(job: &mut Job<S>, stop: FeedStop)
    ensures { job.new ≡ record job.old { progress = Progress.Ended stop } }
{
    job.progress = Progress::Ended(stop);
}
