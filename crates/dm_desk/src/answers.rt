//! The answer to one line.

ghost use Rattle.std.specs.Prelude.{ℕ, List, IfOk};
ghost use Rattle.dm_cert.specs.declared.replies.LogItem.{LogItem};
ghost use Rattle.dm_feed.specs.Lines.{IsSaid, IsSpelledLine};
ghost use Rattle.dm_desk.specs.Answered.{HasSeenLegal, AreTrueOf};
ghost use Rattle.dm_desk.specs.Planning.{PlansUnder};
ghost use Rattle.dm_desk.specs.Inside.Replies.{IsDueHeard, HasPlans, Replies, AnswersLine};

use crate::asked::{adopt, carry, find};
use crate::desk::Desk;
use crate::searches::Search;
use dm_base::EventId;
use dm_cert::{LogItem, Reply};
use dm_feed::{Heard, Line, copy_of_message};
use dm_parts::AnyPlan;
use dm_rows::{At, Entry, Message, Refusal, Snapshot};
use std::alloc::AllocError;

/// Answers a due line of a feed, which was answered these items before.
pub fn answer<D: Desk, P: Fn(&Snapshot, Search) -> Result<AnyPlan, AllocError>>(
    desk: &mut D,
    planner: &P,
    feed: u32,
    line: u32,
    items: &[LogItem],
    heard: Heard,
) -> Result<LogItem, AllocError>
    requires legal { HasSeenLegal (D.value desk.old) }
    requires plans { PlansUnder (P.pre planner.now) (P.post planner.now) (D.value desk.old).setting }
    requires are_true { AreTrueOf (D.value desk.old) feed items.now }
    requires due { IsDueHeard heard }
    ensures { IfOk result (AnswersLine (D.value desk.old) (D.value desk.new) feed line items.now heard) }
{
    let Heard::Line(said) = heard else {
        return Ok(LogItem::Malformed { line });
    };
    let reply = reply_to(desk, planner, feed, line, items, &said)?;
    Ok(LogItem::Answered { line, said, reply })
}

// The reply to what a line says.
fn reply_to<D: Desk, P: Fn(&Snapshot, Search) -> Result<AnyPlan, AllocError>>(
    desk: &mut D,
    planner: &P,
    feed: u32,
    line: u32,
    items: &[LogItem],
    said: &Line,
) -> Result<Reply, AllocError>
    requires legal { HasSeenLegal (D.value desk.old) }
    requires plans { PlansUnder (P.pre planner.now) (P.post planner.now) (D.value desk.old).setting }
    requires had { HasPlans (D.value desk.old) items.now }
    requires spelled { IsSpelledLine said.now }
    ensures { IfOk result (Replies (D.value desk.old) (D.value desk.new) feed line items.now said.now) }
{
    match said {
        Line::Say(message) => post(desk, feed, line, message),
        Line::Time(event) => Ok(time_of(desk, *event)),
        Line::CostNow => {
            let (cost, entries) = desk.cost();
            Ok(Reply::Cost(entries, cost))
        }
        Line::Read => Ok(Reply::Read(desk.length())),
        Line::Plan(budget) => find(desk, planner, items, Search::Plan(*budget)),
        Line::Solve(budget) => find(desk, planner, items, Search::Solve(*budget)),
        Line::Adopt => adopt(desk, feed, line, items),
        Line::Carry => carry(desk, feed, line, items),
    }
}

// Enters a message.
fn post<D: Desk>(desk: &mut D, feed: u32, line: u32, message: &Message) -> Result<Reply, AllocError>
    requires { IsSaid message.now }
    ensures { IfOk result (λ reply. (items : List LogItem)
        → Replies (D.value desk.old) (D.value desk.new) feed line items (Line.Say message.now) reply) }
{
    let entry = Entry {
        feed,
        line,
        message: copy_of_message(message),
    };
    match desk.post(entry) {
        Ok(number) => Ok(Reply::Ok(number)),
        Err(
            At {
                entry: _,
                why: Refusal::OutOfMemory,
            },
        ) => Err(AllocError),
        Err(at) => Ok(Reply::Refused(at)),
    }
}

fn time_of<D: Desk>(desk: &mut D, event: EventId) -> Reply
    ensures { (feed line : ℕ) (items : List LogItem)
        → Replies (D.value desk.old) (D.value desk.new) feed line items (Line.Time event) result }
{
    match desk.time(event) {
        Ok((time, entries)) => Reply::Time(entries, time),
        Err(at) => Reply::Refused(at),
    }
}
