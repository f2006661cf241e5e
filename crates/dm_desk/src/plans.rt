//! The plans that a feed has had.

ghost use Rattle.std.specs.Prelude.{◌≡◌, count_by};
ghost use Rattle.std.specs.Option.{option_map};
ghost use Rattle.dm_cert.specs.Answers.{is_plan, latest_plan};
ghost use Rattle.dm_desk.specs.Inside.Replies.{plan_in, lent};

use dm_cert::{LogItem, Reply};
use dm_rows::Decision;

/// How many of the items are plans.
pub fn count_plans(items: &[LogItem]) -> usize
    ensures { result ≡ count_by is_plan items.now }
{
    let mut plans = 0;
    for item in items {
        if is_planned(item) {
            plans += 1;
        }
    }
    plans
}

/// The last plan of either kind among the items: for the rows after how many entries it is, and its choices.
pub fn last_plan(items: &[LogItem]) -> Option<(u32, &[Decision])>
    ensures { option_map lent result ≡ latest_plan items.now }
{
    let mut last = None;
    for item in items {
        if let Some(plan) = planned(item) {
            last = Some(plan);
        }
    }
    last
}

fn is_planned(item: &LogItem) -> bool
    ensures { result ≡ is_plan item.now }
{
    matches!(
        item,
        LogItem::Answered {
            reply: Reply::Planned(_) | Reply::Solved(_),
            ..
        }
    )
}

fn planned(item: &LogItem) -> Option<(u32, &[Decision])>
    ensures { option_map lent result ≡ plan_in item.now }
{
    match item {
        LogItem::Answered {
            reply: Reply::Planned(plan),
            ..
        } => Some((plan.entry, plan.choices.as_slice())),
        LogItem::Answered {
            reply: Reply::Solved(plan),
            ..
        } => Some((plan.entry, plan.choices.as_slice())),
        _ => None,
    }
}
