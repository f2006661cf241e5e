//! Answers of one line to `plan` and `solve`.
ghost use Rattle.std.specs.Prelude.{◌≡◌, List, true, false};
ghost use Rattle.dm_feed.specs.declared.grammar.Line.TheVariants.{Plan as AskPlan, Solve as AskSolve};
ghost use Rattle.dm_cert.specs.declared.replies.LogItem.{LogItem};
ghost use Rattle.dm_cert.specs.Answers.{IsBudget, IsOutOfRange, IsTrueReply, is_plan_reply};
ghost use Rattle.dm_check_rows.specs.Claims.{Tells};
ghost use Rattle.dm_check_answers.specs.Judging.{IsPast, setting_of, history_of};

use crate::asked::Asked;
use crate::journal::Journal;
use dm_base::limits::BUDGET;
use dm_cert::Reply;

/// The most nodes that a plan may be asked to have in a text of version 1.
const FIRST_BUDGET: u64 = 4_096;

/// Whether a plan may be asked to have so many nodes.
pub fn is_budget(journal: &Journal<'_>, budget: u64) -> bool
    ensures within { result ≡ true → IsBudget (setting_of journal.now.setting) budget }
    ensures beyond { result ≡ false → IsOutOfRange (setting_of journal.now.setting) budget }
{
    let most = if journal.setting.version == 1 {
        FIRST_BUDGET
    } else {
        BUDGET
    };
    1 <= budget && budget <= most
}

/// Whether the answer to a question for a plan of either kind is true, where it is no plan.
pub(crate) fn is_true_of_plan(
    journal: &Journal<'_>,
    asked: &Asked<'_>,
    budget: u64,
    reply: &Reply,
) -> bool
    requires { is_plan_reply reply.now ≡ false }
    ensures plan { (before : List LogItem) → IsPast before asked.now.past.now
        → Tells (IsTrueReply (setting_of journal.now.setting) (history_of journal.now) asked.now.feed before asked.now.line (AskPlan budget)
        reply.now) result }
    ensures solve { (before : List LogItem) → IsPast before asked.now.past.now
        → Tells (IsTrueReply (setting_of journal.now.setting) (history_of journal.now) asked.now.feed before asked.now.line
        (AskSolve budget) reply.now) result }
{
    let is_budget = is_budget(journal, budget);
    match reply {
        Reply::Range(said) => !is_budget && *said == budget,
        Reply::Plans => is_budget && asked.past.plans == journal.setting.plans as usize,
        _ => false,
    }
}
