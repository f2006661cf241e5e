//! Answers to `adopt`.
ghost use Rattle.std.specs.Prelude.{List};
ghost use Rattle.dm_feed.specs.declared.grammar.Line.TheVariants.{Adopt as AskAdopt};
ghost use Rattle.dm_cert.specs.declared.replies.LogItem.{LogItem};
ghost use Rattle.dm_cert.specs.Answers.{IsOld, HasNoRoom, IsTrueReply};
ghost use Rattle.dm_check_rows.specs.Claims.{Tells};
ghost use Rattle.dm_check_answers.specs.Judging.{IsPast, AdoptsTruly, setting_of, history_of};

use crate::asked::Asked;
use crate::journal::Journal;
use crate::matching::is_adopted;
use dm_base::limits::ENTRIES;
use dm_cert::Reply;
use dm_rows::{Entry, Refusal};
use dm_tree::Chosen;

/// Whether the history has so many entries, and more than the plan is for.
fn is_old(entries: &[Entry], number: u32, plan: &Chosen) -> bool
    ensures { Tells (IsOld entries.now number plan.now) result }
{
    number as usize <= entries.len() && plan.entry < number
}

/// Whether the plan is for a full history, and the reason says so.
fn has_no_room(entries: &[Entry], number: u32, why: &Refusal, plan: &Chosen) -> bool
    ensures { Tells (HasNoRoom entries.now number why.now plan.now) result }
{
    let is_there = number as usize <= entries.len();
    let is_full = number == ENTRIES && number == plan.entry;
    match why {
        Refusal::Full(entries) => is_there && is_full && *entries == ENTRIES,
        _ => false,
    }
}

pub(crate) fn is_true_of_adopt(journal: &Journal<'_>, asked: &Asked<'_>, reply: &Reply) -> bool
    ensures { (before : List LogItem) → IsPast before asked.now.past.now
        → Tells (IsTrueReply (setting_of journal.now.setting) (history_of journal.now) asked.now.feed before asked.now.line AskAdopt
        reply.now) result }
{
    match &asked.past.latest {
        Some(plan) => is_true_of_adopted(journal.entries, asked.feed, asked.line, plan, reply),
        None => matches!(reply, Reply::NoPlan),
    }
}

/// The same where this is the latest plan.
fn is_true_of_adopted(entries: &[Entry], feed: u32, line: u32, plan: &Chosen, reply: &Reply) -> bool
    ensures { AdoptsTruly entries.now feed line plan.now reply.now result }
{
    match reply {
        Reply::Ok(n) => is_adopted(entries, *n, feed, line, plan),
        Reply::Old(n) => is_old(entries, *n, plan),
        Reply::Refused(at) => has_no_room(entries, at.entry, &at.why, plan),
        _ => false,
    }
}
