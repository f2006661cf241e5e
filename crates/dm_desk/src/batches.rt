//! The answers to the next lines of a feed.

ghost use Rattle.std.specs.Prelude.{IfOk};
ghost use Rattle.dm_desk.specs.Answered.{HasSeenLegal, IsOpen, AreTrueOf, AnswersBatch};
ghost use Rattle.dm_desk.specs.Planning.{PlansUnder};

use crate::answers::answer;
use crate::desk::Desk;
use crate::hold_point::HoldPoint;
use crate::searches::Search;
use dm_cert::LogItem;
use dm_feed::{FeedStop, LineReader, Next};
use dm_outside::Source;
use dm_parts::AnyPlan;
use dm_rows::Snapshot;
use std::alloc::AllocError;

/// Answers the next due lines of a feed, so many of them or all that are left, and keeps what was answered behind its log,
/// which is true of what the desk has seen. Where no line is left it answers why. Want of memory leaves the desk and the log at
/// any point.
pub fn answer_batch<
    S: Source,
    D: Desk,
    P: Fn(&Snapshot, Search) -> Result<AnyPlan, AllocError>,
    H: HoldPoint,
>(
    reader: &mut LineReader<S>,
    desk: &mut D,
    planner: &P,
    gate: &H,
    feed: u32,
    batch: u32,
    log: &mut Vec<LogItem>,
) -> Result<Option<FeedStop>, AllocError>
    requires legal { HasSeenLegal (D.value desk.old) }
    requires plans { PlansUnder (P.pre planner.now) (P.post planner.now) (D.value desk.old).setting }
    requires are_true { AreTrueOf (D.value desk.old) feed log.old.items }
    requires open_still { IsOpen reader.old }
    ensures answers { IfOk result (λ stop. AnswersBatch S.left S.is_sound reader.old reader.new (D.value desk.old) (D.value desk.new) feed
        batch log.old.items log.new.items stop) }
    ensures stays_sound { S.is_sound reader.old.source → S.is_sound reader.new.source }
{
    for _ in 0..batch {
        match reader.next() {
            Next::Stop(stop) => return Ok(Some(stop)),
            Next::Due { line, heard } => {
                gate.hold_up(feed, 1);
                let item = answer(desk, planner, feed, line, log.as_slice(), heard)?;
                log.push(item)?;
                gate.hold_up(feed, 2);
            }
        }
    }
    Ok(None)
}
