//! The answers to lines whose bytes are in memory.

ghost use Rattle.std.specs.Prelude.{◌+◌, ◌^◌, ◌<◌, length, IfOk};
ghost use Rattle.dm_desk.specs.Answered.{HasSeenLegal, AreTrueOf};
ghost use Rattle.dm_desk.specs.Planning.{PlansUnder};
ghost use Rattle.dm_desk.specs.Fed.{AnswersPart};
ghost use Rattle.dm_desk.specs.Inside.Parts.{IsHeard, HandlesLine};

use crate::answers::answer;
use crate::desk::Desk;
use crate::searches::Search;
use dm_cert::LogItem;
use dm_feed::{Heard, hear_first};
use dm_parts::AnyPlan;
use dm_rows::Snapshot;
use std::alloc::AllocError;

/// Answers the next due lines among the whole lines of a part of a feed's bytes, so many of them or all that are there, and
/// keeps what was answered behind its log, which is true of what the desk has seen. `passed` lines of the feed came before the
/// part. It answers how many bytes of the part were passed, and how many lines of the feed by then. Want of memory leaves the
/// desk and the log at any point.
pub fn answer_lines<D: Desk, P: Fn(&Snapshot, Search) -> Result<AnyPlan, AllocError>>(
    part: &[u8],
    passed: u32,
    desk: &mut D,
    planner: &P,
    feed: u32,
    batch: u32,
    log: &mut Vec<LogItem>,
) -> Result<(usize, u32), AllocError>
    requires room { passed + length part.now < 2 ^ 32 }
    requires legal { HasSeenLegal (D.value desk.old) }
    requires plans { PlansUnder (P.pre planner.now) (P.post planner.now) (D.value desk.old).setting }
    requires are_true { AreTrueOf (D.value desk.old) feed log.old.items }
    ensures { IfOk result (λ taken. AnswersPart part.now batch passed taken.0 taken.1 (D.value desk.old) (D.value desk.new) feed
        log.old.items log.new.items) }
{
    let mut rest = part;
    let mut lines = passed;
    let mut answered = 0;
    while answered < batch {
        let Some((heard, behind)) = hear_first(rest) else {
            return Ok((part.len() - rest.len(), lines));
        };
        rest = behind;
        lines += 1;
        answered += handle(desk, planner, feed, lines, heard, log)?;
    }
    Ok((part.len() - rest.len(), lines))
}

// Answers a line of this number, unless it is blank or a comment, and puts the answer behind the log. It answers how many
// answers came: none or one.
fn handle<D: Desk, P: Fn(&Snapshot, Search) -> Result<AnyPlan, AllocError>>(
    desk: &mut D,
    planner: &P,
    feed: u32,
    line: u32,
    heard: Heard,
    log: &mut Vec<LogItem>,
) -> Result<u32, AllocError>
    requires legal { HasSeenLegal (D.value desk.old) }
    requires plans { PlansUnder (P.pre planner.now) (P.post planner.now) (D.value desk.old).setting }
    requires are_true { AreTrueOf (D.value desk.old) feed log.old.items }
    requires is_heard { IsHeard heard }
    ensures { IfOk result (HandlesLine (D.value desk.old) (D.value desk.new) feed line log.old.items log.new.items heard) }
{
    if heard == Heard::Blank {
        return Ok(0);
    }
    let item = answer(desk, planner, feed, line, log.as_slice(), heard)?;
    log.push(item)?;
    Ok(1)
}
