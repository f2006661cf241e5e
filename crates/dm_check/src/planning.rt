//! Plans as answers.
ghost use Rattle.std.specs.Prelude.{◌≡◌, ◌<◌, ◌≤◌, List, length, true, false, Ok, IfOk};
ghost use Rattle.dm_cert.specs.declared.limits.TheConstants.{PLANS};
ghost use Rattle.dm_cert.specs.declared.replies.LogItem.{LogItem};
ghost use Rattle.dm_cert.specs.declared.replies.Reply.TheVariants.{Planned as PlanReply, Solved as SolvedReply};
ghost use Rattle.dm_cert.specs.Answers.{IsBudget, IsTrueReply};
ghost use Rattle.dm_check_rows.specs.Claims.{Tells};
ghost use Rattle.dm_parts.specs.Sizes.{ids_of, most_ids};
ghost use Rattle.dm_check.specs.Inside.Planning.{MayBePlan};
ghost use Rattle.dm_check_answers.specs.Judging.{IsRunSetting, IsPast, setting_of, history_of};

use dm_check_answers::{Asked, Journal, Past, Replay, is_budget};
use dm_check_parts::is_true_plan_by_parts;
use dm_check_plans::is_true_plan;
use dm_feed::Line;
use dm_parts::PlanByParts;
use dm_tree::Plan;
use std::alloc::AllocError;

/// Whether a plan for the rows at an entry may be an answer: as many nodes may be asked for, the feed has not had all its plans,
/// and there are as many entries.
fn may_be(journal: &Journal<'_>, past: &Past, budget: u64, entry: u32) -> bool
    requires setting { IsRunSetting journal.now.setting }
    ensures in_range { result ≡ true → IsBudget (setting_of journal.now.setting) budget }
    ensures fewer { result ≡ true → past.now.plans < (setting_of journal.now.setting).plans }
    ensures few { result ≡ true → past.now.plans < PLANS }
    ensures within { result ≡ true → entry ≤ length (history_of journal.now) }
    ensures never { result ≡ false → (before : List LogItem) → IsPast before past.now
        → MayBePlan (setting_of journal.now.setting) (history_of journal.now) before budget entry → ⊥ }
{
    if !is_budget(journal, budget) {
        return false;
    }
    past.plans < journal.setting.plans as usize && entry as usize <= journal.entries.len()
}

/// Whether a plan is a true answer to a feed's line, behind what stands before it in the feed's log. It is asked of each node of
/// the plan's tree.
pub(crate) fn is_true_plan_answer(
    replay: &mut Replay<'_>,
    asked: &Asked<'_>,
    plan: &Plan,
) -> Result<bool, AllocError>
    ensures tells { (before : List LogItem) → IsPast before asked.now.past.now
        → IfOk result (Tells (IsTrueReply replay.old.journal.setting replay.old.journal.history asked.now.feed before asked.now.line
        asked.now.said.now (PlanReply plan.now))) }
    ensures fewer { result ≡ Ok true → asked.now.past.now.plans < PLANS }
    ensures same { replay.new.journal ≡ replay.old.journal }
{
    let Line::Plan(budget) = asked.said else {
        return Ok(false);
    };
    let journal = replay.journal();
    if !may_be(&journal, asked.past, *budget, plan.entry) {
        return Ok(false);
    }
    match replay.go_to(plan.entry as usize) {
        Ok(()) => (),
        Err(AllocError) => return Err(AllocError),
    }
    let setting = journal.setting;
    is_true_plan(
        setting.alloc,
        setting.net,
        setting.penalty,
        replay.rows(),
        *budget,
        plan,
    )
}

/// Whether a plan by parts is a true answer to a feed's line, behind what stands before it in the feed's log. Each part is judged by
/// times of its own.
pub(crate) fn is_true_solution(
    replay: &mut Replay<'_>,
    asked: &Asked<'_>,
    plan: &PlanByParts,
) -> Result<bool, AllocError>
    requires few { ids_of plan.now.parts ≤ most_ids }
    ensures tells { (before : List LogItem) → IsPast before asked.now.past.now
        → IfOk result (Tells (IsTrueReply replay.old.journal.setting replay.old.journal.history asked.now.feed before asked.now.line
        asked.now.said.now (SolvedReply plan.now))) }
    ensures fewer { result ≡ Ok true → asked.now.past.now.plans < PLANS }
    ensures same { replay.new.journal ≡ replay.old.journal }
{
    let Line::Solve(budget) = asked.said else {
        return Ok(false);
    };
    let journal = replay.journal();
    if !may_be(&journal, asked.past, *budget, plan.entry) {
        return Ok(false);
    }
    match replay.go_to(plan.entry as usize) {
        Ok(()) => (),
        Err(AllocError) => return Err(AllocError),
    }
    let setting = journal.setting;
    is_true_plan_by_parts(
        setting.alloc,
        setting.net,
        setting.penalty,
        replay.rows(),
        *budget,
        plan,
    )
}
