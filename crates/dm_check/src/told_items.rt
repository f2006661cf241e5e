//! The items of a log. Each must be true, and in order after those before it.
ghost use Rattle.std.specs.Prelude.{ℕ, ◌≡◌, ◌<◌, ◌≤◌, List, [], ◌∷◌, ◌++◌, Bool, true, false, Ok, IfOk, OnOk};
ghost use Rattle.dm_cert.specs.declared.limits.TheConstants.{PLANS};
ghost use Rattle.dm_feed.specs.Lines.{IsSpelledLine};
ghost use Rattle.dm_feed.specs.declared.grammar.Line.{Line as Said};
ghost use Rattle.dm_text.specs.Places.{Place};
ghost use Rattle.dm_tree.specs.Plans.{chosen};
ghost use Rattle.dm_parts.specs.declared.kinds.AnyPlan.{AnyPlan as Given};
ghost use Rattle.dm_parts.specs.Kinds.{chosen_of};
ghost use Rattle.dm_parts.specs.Sizes.{ids_of, most_ids};
ghost use Rattle.dm_cert.specs.Answers.{is_plan_reply, reply_with};
ghost use Rattle.dm_cert.specs.RunTexts.{IsSpelledItem};
ghost use Rattle.dm_cert.specs.SolvedRead.{TellsSolvedBehind};
ghost use Rattle.dm_cert.specs.declared.replies.LogItem.{LogItem as Item};
ghost use Rattle.dm_cert.specs.declared.replies.LogItem.TheVariants.{Answered};
ghost use Rattle.dm_cert.specs.declared.replies.Reply.TheVariants.{Planned as PlanReply, Solved as SolvedReply};
ghost use Rattle.dm_records.specs.RunLines.{lone, planned, solved, heading_of};
ghost use Rattle.dm_records.specs.Readings.{opening_of, solved_opening_of};
ghost use Rattle.dm_check_rows.specs.Claims.{Tells};
ghost use Rattle.dm_check_answers.specs.Judging.{IsPast};
ghost use Rattle.dm_check.specs.FalseRecords.{IsNextItem};
ghost use Rattle.dm_check.specs.Inside.Sound.{IsSound};
ghost use Rattle.dm_check.specs.Judged.{BehindOn, ItemOn, ItemsOn, ShowsPlan};

use crate::faults::{Fault, Stop};
use crate::planning::{is_true_plan_answer, is_true_solution};
use crate::told_lines::item_told;
use crate::told_plans::{block_told, solved_told};
use crate::verdicts::BadKind;
use dm_cert::{LogItem, Reply};
use dm_check_answers::{Asked, Past, Replay};
use dm_parts::PlanByParts;
use dm_records::{LogLine, PlanLine, SolvedLine};
use dm_rows::Decision;
use dm_text::Lines;
use dm_tree::{Chosen, Plan};
use std::alloc::{AllocError, Global};

/// What judges the logs of a text: the rows at the entries, and a flag for each entry, whether an item names it.
pub(crate) struct Logs<'j> {
    pub(crate) replay: Replay<'j>,
    pub(crate) named: Vec<bool>,
}

impl Drop for Logs<'_> {
    fn drop(self) {
        let Logs {
            replay: _,
            named: _,
        } = self;
    }
}

/// Whether an answer of one line is the next item of a feed's log.
pub(crate) fn is_next_answer(
    replay: &mut Replay<'_>,
    asked: &Asked<'_>,
    reply: &Reply,
) -> Result<bool, AllocError>
    requires said { IsSpelledLine asked.now.said.now }
    requires one_line { is_plan_reply reply.now ≡ false }
    ensures tells { (before : List Item) → IsPast before asked.now.past.now
        → IfOk result (Tells (IsNextItem replay.old.journal.setting replay.old.journal.history asked.now.feed before
        (Answered asked.now.line asked.now.said.now reply.now))) }
    ensures same { replay.new.journal ≡ replay.old.journal }
{
    if !asked.past.is_next_line(asked.line) {
        return Ok(false);
    }
    if !asked.past.is_in_order(reply) {
        return Ok(false);
    }
    replay.is_true_answer(asked, reply)
}

/// Whether a plan is the next item of a feed's log.
pub(crate) fn is_next_plan(
    replay: &mut Replay<'_>,
    asked: &Asked<'_>,
    plan: &Plan,
) -> Result<bool, AllocError>
    ensures tells { (before : List Item) → IsPast before asked.now.past.now
        → IfOk result (Tells (IsNextItem replay.old.journal.setting replay.old.journal.history asked.now.feed before
        (Answered asked.now.line asked.now.said.now (PlanReply plan.now)))) }
    ensures fewer { result ≡ Ok true → asked.now.past.now.plans < PLANS }
    ensures same { replay.new.journal ≡ replay.old.journal }
{
    if !asked.past.is_next_line(asked.line) {
        return Ok(false);
    }
    if asked.past.number > plan.entry {
        return Ok(false);
    }
    is_true_plan_answer(replay, asked, plan)
}

/// Whether a plan by parts is the next item of a feed's log.
pub(crate) fn is_next_solution(
    replay: &mut Replay<'_>,
    asked: &Asked<'_>,
    plan: &PlanByParts,
) -> Result<bool, AllocError>
    requires few { ids_of plan.now.parts ≤ most_ids }
    ensures tells { (before : List Item) → IsPast before asked.now.past.now
        → IfOk result (Tells (IsNextItem replay.old.journal.setting replay.old.journal.history asked.now.feed before
        (Answered asked.now.line asked.now.said.now (SolvedReply plan.now)))) }
    ensures fewer { result ≡ Ok true → asked.now.past.now.plans < PLANS }
    ensures same { replay.new.journal ≡ replay.old.journal }
{
    if !asked.past.is_next_line(asked.line) {
        return Ok(false);
    }
    if asked.past.number > plan.entry {
        return Ok(false);
    }
    is_true_solution(replay, asked, plan)
}

/// A plan of either kind comes behind, where there are not all plans yet. Its choices are copied.
pub(crate) fn keep_plan(
    alloc: Global,
    past: &mut Past,
    line: u32,
    entry: u32,
    choices: &[Decision],
) -> Result<(), AllocError>
    requires { past.old.plans < PLANS }
    ensures { OnOk result ((before : List Item) (said : Said) (given : Given) → chosen_of given ≡ chosen entry choices.now
        → IsPast before past.old → IsPast (before ++ Answered line said (reply_with given) ∷ []) past.new) }
{
    match Chosen::copied(alloc, entry, choices) {
        Ok(plan) => {
            past.add_plan(line, plan);
            Ok(())
        }
        Err(AllocError) => Err(AllocError),
    }
}

impl<'j> Logs<'j> {
    /// An item of one line, as the next item of the log of this feed.
    fn whole_told(
        &mut self,
        past: &mut Past,
        feed: u32,
        first: u32,
        item: &LogItem,
    ) -> Result<(), Stop>
        requires { IsSpelledItem item.now }
        ensures tells { (before : List Item) (place : Place) → IsPast before past.old
            → BehindOn self.old.replay.journal.setting self.old.replay.journal.history feed before first
            (lone item.now) place place past.new self.old.named.items self.new.named.items result }
        ensures same { self.new.replay.journal ≡ self.old.replay.journal }
    {
        match self.is_true_item(past, feed, item) {
            Ok(true) => Ok(()),
            Ok(false) => Err(Stop::Fault(Fault {
                line: first,
                kind: BadKind::Reply,
            })),
            Err(AllocError) => Err(Stop::OutOfMemory),
        }
    }

    /// The plan that an item's lines show, as the next item of the log of this feed.
    fn shown_told(
        &mut self,
        past: &mut Past,
        feed: u32,
        first: u32,
        opening: &PlanLine,
        plan: Plan,
    ) -> Result<(), Stop>
        ensures tells { (before : List Item) (old new : Place)
            → ShowsPlan self.old.replay.journal.setting.version (opening_of opening.now) old new plan → IsPast before past.old
            → BehindOn self.old.replay.journal.setting self.old.replay.journal.history feed before first (planned (opening_of opening.now))
            old new past.new self.old.named.items self.new.named.items result }
        ensures same { self.new.replay.journal ≡ self.old.replay.journal }
    {
        match self.is_true_plan(past, feed, opening.line, &opening.said, &plan) {
            Ok(true) => Ok(()),
            Ok(false) => Err(Stop::Fault(Fault {
                line: first,
                kind: BadKind::Plan,
            })),
            Err(AllocError) => Err(Stop::OutOfMemory),
        }
    }

    /// The plan by parts that an item's lines show, as the next item of the log of this feed.
    fn solution_shown(
        &mut self,
        past: &mut Past,
        feed: u32,
        first: u32,
        opening: &SolvedLine,
        plan: PlanByParts,
    ) -> Result<(), Stop>
        requires few { ids_of plan.parts ≤ most_ids }
        ensures tells { (before : List Item) (old new : Place)
            → TellsSolvedBehind opening.now.entry (heading_of (solved_opening_of opening.now)) old (Ok (plan, new)) → IsPast before past.old
            → BehindOn self.old.replay.journal.setting self.old.replay.journal.history feed before first
            (solved (solved_opening_of opening.now)) old new past.new self.old.named.items self.new.named.items result }
        ensures same { self.new.replay.journal ≡ self.old.replay.journal }
    {
        match self.is_true_solution(past, feed, opening.line, &opening.said, &plan) {
            Ok(true) => Ok(()),
            Ok(false) => Err(Stop::Fault(Fault {
                line: first,
                kind: BadKind::Plan,
            })),
            Err(AllocError) => Err(Stop::OutOfMemory),
        }
    }

    /// A plan by parts with its lines, as the next item of the log of this feed.
    fn solution_told(
        &mut self,
        lines: &mut Lines,
        past: &mut Past,
        feed: u32,
        first: u32,
        opening: &SolvedLine,
    ) -> Result<(), Stop>
        ensures tells { (before : List Item) → IsPast before past.old
            → BehindOn self.old.replay.journal.setting self.old.replay.journal.history feed before first
            (solved (solved_opening_of opening.now)) lines.old lines.new past.new self.old.named.items self.new.named.items result }
        ensures same { self.new.replay.journal ≡ self.old.replay.journal }
    {
        let alloc = self.replay.journal().setting.alloc;
        match solved_told(alloc, lines, opening) {
            Ok(plan) => self.solution_shown(past, feed, first, opening, plan),
            Err(stop) => Err(stop),
        }
    }

    /// A plan with its block, as the next item of the log of this feed.
    fn plan_told(
        &mut self,
        lines: &mut Lines,
        past: &mut Past,
        feed: u32,
        first: u32,
        opening: &PlanLine,
    ) -> Result<(), Stop>
        requires { 1 ≤ lines.old.line }
        ensures tells { (before : List Item) → IsPast before past.old
            → BehindOn self.old.replay.journal.setting self.old.replay.journal.history feed before first (planned (opening_of opening.now))
            lines.old lines.new past.new self.old.named.items self.new.named.items result }
        ensures same { self.new.replay.journal ≡ self.old.replay.journal }
    {
        let journal = self.replay.journal();
        let shown = match block_told(
            journal.setting.alloc,
            lines,
            journal.setting.version,
            opening,
        ) {
            Ok(shown) => shown,
            Err(stop) => return Err(stop),
        };
        match shown {
            Some(plan) => self.shown_told(past, feed, first, opening, plan),
            None => Err(Stop::Fault(Fault {
                line: first,
                kind: BadKind::Plan,
            })),
        }
    }

    /// The next item of the log of this feed.
    fn next_item(&mut self, lines: &mut Lines, past: &mut Past, feed: u32) -> Result<(), Stop>
        requires { IsSound self.old.replay.journal.setting self.old.replay.journal.history }
        ensures tells { (before : List Item) → IsPast before past.old
            → ItemOn self.old.replay.journal.setting self.old.replay.journal.history feed before lines.old lines.new past.new
            self.old.named.items self.new.named.items result }
        ensures same { self.new.replay.journal ≡ self.old.replay.journal }
    {
        let first = lines.line();
        let journal = self.replay.journal();
        let said = match item_told(journal.setting.alloc, lines, journal.setting.version) {
            Ok(said) => said,
            Err(stop) => return Err(stop),
        };
        match &said {
            LogLine::Item(item) => self.whole_told(past, feed, first, item),
            LogLine::TooLarge => Err(Stop::Fault(Fault {
                line: first,
                kind: BadKind::Reply,
            })),
            LogLine::Planned(opening) => self.plan_told(lines, past, feed, first, opening),
            LogLine::Solved(opening) => self.solution_told(lines, past, feed, first, opening),
        }
    }

    /// As many items of the log of this feed as are counted, and how many of them are plans.
    pub(crate) fn all_items(
        &mut self,
        lines: &mut Lines,
        feed: u32,
        count: u128,
    ) -> Result<usize, Stop>
        requires { IsSound self.old.replay.journal.setting self.old.replay.journal.history }
        ensures tells { ItemsOn self.old.replay.journal.setting self.old.replay.journal.history feed count lines.old lines.new
            self.old.named.items self.new.named.items result }
        ensures same { self.new.replay.journal ≡ self.old.replay.journal }
    {
        let mut past = Past::new();
        for _item in 0..count {
            match self.next_item(lines, &mut past, feed) {
                Ok(()) => (),
                Err(stop) => return Err(stop),
            }
        }
        Ok(past.plans)
    }
}
