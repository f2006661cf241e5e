//! Logs that are judged as they stand in memory.
ghost use Rattle.std.specs.Prelude.{ℕ, ◌≡◌, ◌+◌, ◌<◌, ◌≤◌, List, [], ◌↔◌, Bool, false, IsTrue, All, length, IfOk};
ghost use Rattle.dm_base.specs.declared.limits.TheConstants.{FEEDS, PENALTY};
ghost use Rattle.dm_rows.specs.declared.messages.Entry.{Entry as EntryValue};
ghost use Rattle.dm_rows.specs.Rows.{IsSized};
ghost use Rattle.dm_feed.specs.Lines.{IsSpelledLine};
ghost use Rattle.dm_parts.specs.Sizes.{ids_of, most_ids};
ghost use Rattle.dm_cert.specs.declared.limits.TheConstants.{PLANS};
ghost use Rattle.dm_cert.specs.declared.replies.LogItem.{LogItem as Item};
ghost use Rattle.dm_cert.specs.declared.replies.LogItem.TheVariants.{Malformed, Answered};
ghost use Rattle.dm_cert.specs.declared.replies.Reply.TheVariants.{Planned, Solved};
ghost use Rattle.dm_cert.specs.Answers.{Setting, is_plan_reply};
ghost use Rattle.dm_cert.specs.Logs.{AreTrueLogs};
ghost use Rattle.dm_cert.specs.RunTexts.{IsSpelledItem, IsSpelledLog, IsSpelledReply};
ghost use Rattle.dm_check_answers.specs.Judging.{IsPast, IsRunSetting, setting_of};
ghost use Rattle.dm_check.specs.Judged.{AreFlagged};
ghost use Rattle.dm_check.specs.Inside.TrueLogs.{IsNextOn, LogIsOn};

use crate::logged_claims::replay_over;
use crate::named::{are_all, flag_named};
use crate::told_items::{Logs, is_next_answer, is_next_plan, is_next_solution, keep_plan};
use dm_cert::{FeedLog, LogItem, Reply};
use dm_check_answers::{Asked, Journal, Past, RunSetting};
use dm_feed::Line;
use dm_network::Network;
use dm_parts::PlanByParts;
use dm_rows::{Entry, Rows};
use dm_tree::Plan;
use std::alloc::{AllocError, Global};

/// Whether logs are true of these entries over a network, from these rows at the start and at this penalty, in seconds for each
/// passenger and at most 1,000,000. A feed may have so many plans, at most 4,096, of as many nodes as in a text of version 2. The
/// logs stand in memory, without their text. They are of at most 64 feeds, and their items have a spelling. `Err` is want of
/// memory alone. Memory is taken for rows and times, a flag for each entry, what is claimed of rows, and the cycles and plans
/// that are judged.
pub fn are_true_logs(
    alloc: Global,
    net: &Network,
    start: &Rows,
    penalty: u64,
    plans: u32,
    entries: &[Entry],
    logs: &[FeedLog],
) -> Result<bool, AllocError>
    requires sized { IsSized net.now start.now }
    requires penalty { penalty ≤ PENALTY }
    requires plans { plans ≤ PLANS }
    requires spelled { All IsSpelledLog logs.now }
    requires few { length logs.now ≤ FEEDS }
    ensures { IfOk result (λ good. IsTrue good ↔ AreTrueLogs
        (record { net = net.now; start = start.now; penalty = penalty; plans = plans; version = 2 }) entries.now logs.now) }
{
    let setting = RunSetting {
        alloc,
        net,
        start,
        penalty,
        plans,
        version: 2,
    };
    are_true_of(&setting, entries, logs)
}

fn are_true_of(
    setting: &RunSetting<'_>,
    entries: &[Entry],
    logs: &[FeedLog],
) -> Result<bool, AllocError>
    requires setting { IsRunSetting setting.now }
    requires spelled { All IsSpelledLog logs.now }
    requires few { length logs.now ≤ FEEDS }
    ensures { IfOk result (λ good. IsTrue good ↔ AreTrueLogs (setting_of setting.now) entries.now logs.now) }
{
    let journal = Journal {
        setting: *setting,
        entries,
    };
    let Ok(named) = vec![in setting.alloc; false; entries.len()] else {
        return Err(AllocError);
    };
    let replay = match replay_over(journal, logs) {
        Ok(replay) => replay,
        Err(AllocError) => return Err(AllocError),
    };
    let mut judge = Logs { replay, named };
    judge.are_true(logs)
}

/// Whether a malformed line is the next item.
fn is_true_malformed(past: &mut Past, line: u32) -> bool
    ensures { (s : Setting) (history : List EntryValue) (feed : ℕ) (before : List Item) (named : List Bool)
        → IsPast before past.old → IsNextOn s history feed before (Malformed line) past.new named named result }
{
    if !past.is_next_line(line) {
        return false;
    }
    past.add_malformed(line);
    true
}

impl<'j> Logs<'j> {
    /// Whether a reply of one line is the next item of the log of this feed.
    fn is_true_answer(
        &mut self,
        past: &mut Past,
        feed: u32,
        line: u32,
        said: &Line,
        reply: &Reply,
    ) -> Result<bool, AllocError>
        requires said { IsSpelledLine said.now }
        requires one_line { is_plan_reply reply.now ≡ false }
        ensures tells { (before : List Item) → IsPast before past.old
            → IfOk result (IsNextOn self.old.replay.journal.setting self.old.replay.journal.history feed before
            (Answered line said.now reply.now) past.new self.old.named.items self.new.named.items) }
        ensures same { self.new.replay.journal ≡ self.old.replay.journal }
    {
        let asked = Asked {
            past: &*past,
            feed,
            line,
            said,
        };
        match is_next_answer(&mut self.replay, &asked, reply) {
            Ok(true) => {
                past.add_answer(line, reply);
                flag_named(&mut self.named, reply);
                Ok(true)
            }
            Ok(false) => Ok(false),
            Err(AllocError) => Err(AllocError),
        }
    }

    /// Whether a plan is the next item of the log of this feed.
    pub(crate) fn is_true_plan(
        &mut self,
        past: &mut Past,
        feed: u32,
        line: u32,
        said: &Line,
        plan: &Plan,
    ) -> Result<bool, AllocError>
        ensures tells { (before : List Item) → IsPast before past.old
            → IfOk result (IsNextOn self.old.replay.journal.setting self.old.replay.journal.history feed before
            (Answered line said.now (Planned plan.now)) past.new self.old.named.items self.new.named.items) }
        ensures same { self.new.replay.journal ≡ self.old.replay.journal }
    {
        let alloc = self.replay.journal().setting.alloc;
        let asked = Asked {
            past: &*past,
            feed,
            line,
            said,
        };
        match is_next_plan(&mut self.replay, &asked, plan) {
            Ok(true) => (),
            Ok(false) => return Ok(false),
            Err(AllocError) => return Err(AllocError),
        }
        match keep_plan(alloc, past, line, plan.entry, plan.choices.as_slice()) {
            Ok(()) => Ok(true),
            Err(AllocError) => Err(AllocError),
        }
    }

    /// Whether a plan by parts is the next item of the log of this feed.
    pub(crate) fn is_true_solution(
        &mut self,
        past: &mut Past,
        feed: u32,
        line: u32,
        said: &Line,
        plan: &PlanByParts,
    ) -> Result<bool, AllocError>
        requires { ids_of plan.now.parts ≤ most_ids }
        ensures tells { (before : List Item) → IsPast before past.old
            → IfOk result (IsNextOn self.old.replay.journal.setting self.old.replay.journal.history feed before
            (Answered line said.now (Solved plan.now)) past.new self.old.named.items self.new.named.items) }
        ensures same { self.new.replay.journal ≡ self.old.replay.journal }
    {
        let alloc = self.replay.journal().setting.alloc;
        let asked = Asked {
            past: &*past,
            feed,
            line,
            said,
        };
        match is_next_solution(&mut self.replay, &asked, plan) {
            Ok(true) => (),
            Ok(false) => return Ok(false),
            Err(AllocError) => return Err(AllocError),
        }
        match keep_plan(alloc, past, line, plan.entry, plan.choices.as_slice()) {
            Ok(()) => Ok(true),
            Err(AllocError) => Err(AllocError),
        }
    }

    /// Whether a reply to a line is the next item of the log of this feed.
    fn is_true_reply(
        &mut self,
        past: &mut Past,
        feed: u32,
        line: u32,
        said: &Line,
        reply: &Reply,
    ) -> Result<bool, AllocError>
        requires said { IsSpelledLine said.now }
        requires reply { IsSpelledReply reply.now }
        ensures tells { (before : List Item) → IsPast before past.old
            → IfOk result (IsNextOn self.old.replay.journal.setting self.old.replay.journal.history feed before
            (Answered line said.now reply.now) past.new self.old.named.items self.new.named.items) }
        ensures same { self.new.replay.journal ≡ self.old.replay.journal }
    {
        match reply {
            Reply::Planned(plan) => self.is_true_plan(past, feed, line, said, plan),
            Reply::Solved(plan) => self.is_true_solution(past, feed, line, said, plan),
            _ => self.is_true_answer(past, feed, line, said, reply),
        }
    }

    /// Whether an item is the next one of the log of this feed.
    pub(crate) fn is_true_item(
        &mut self,
        past: &mut Past,
        feed: u32,
        item: &LogItem,
    ) -> Result<bool, AllocError>
        requires { IsSpelledItem item.now }
        ensures tells { (before : List Item) → IsPast before past.old
            → IfOk result (IsNextOn self.old.replay.journal.setting self.old.replay.journal.history feed before item.now past.new
            self.old.named.items self.new.named.items) }
        ensures same { self.new.replay.journal ≡ self.old.replay.journal }
    {
        match item {
            LogItem::Malformed { line } => Ok(is_true_malformed(past, *line)),
            LogItem::Answered { line, said, reply } => {
                self.is_true_reply(past, feed, *line, said, reply)
            }
        }
    }

    fn is_true_log(&mut self, feed: u32, items: &[LogItem]) -> Result<bool, AllocError>
        requires { All IsSpelledItem items.now }
        ensures tells { (place : ℕ) → place + 1 ≡ feed
            → IfOk result (LogIsOn self.old.replay.journal.setting self.old.replay.journal.history place items.now
            self.old.named.items self.new.named.items) }
        ensures same { self.new.replay.journal ≡ self.old.replay.journal }
    {
        let mut past = Past::new();
        for item in items {
            match self.is_true_item(&mut past, feed, item) {
                Ok(true) => (),
                Ok(false) => return Ok(false),
                Err(AllocError) => return Err(AllocError),
            }
        }
        Ok(true)
    }

    /// Whether each log is true, and each entry is named by one of their items.
    fn are_true(&mut self, logs: &[FeedLog]) -> Result<bool, AllocError>
        requires spelled { All IsSpelledLog logs.now }
        requires few { length logs.now ≤ FEEDS }
        requires none { AreFlagged [] self.old.named.items }
        requires size { length self.old.named.items ≡ length self.old.replay.journal.history }
        ensures { IfOk result (λ good. IsTrue good
            ↔ AreTrueLogs self.old.replay.journal.setting self.old.replay.journal.history logs.now) }
    {
        for (place, log) in logs.iter().enumerate() {
            match self.is_true_log(place as u32 + 1, log.items.as_slice()) {
                Ok(true) => (),
                Ok(false) => return Ok(false),
                Err(AllocError) => return Err(AllocError),
            }
        }
        Ok(are_all(&self.named))
    }
}
