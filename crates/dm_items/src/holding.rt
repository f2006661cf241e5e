//! Items that a journal can keep: their numbers are ones that types hold, and memory holds their lists.
ghost use Rattle.std.specs.Prelude.{All};
ghost use Rattle.dm_cert.specs.PlanLaws.{IsHeldSolved};
ghost use Rattle.dm_records.specs.Laws.{IsHeldItem, IsHeldReply};
ghost use Rattle.dm_items.specs.Holding.{IsHeldPart};

use dm_cert::{LogItem, Reply};
use dm_parts::{PlanByParts, nodes_in};
use dm_report::items_fit;

fn solution_is_held(plan: &PlanByParts)
    ensures { IsHeldSolved plan.now }
{
    let _choices = plan.choices.as_slice().len();
    let parts = plan.parts.as_slice();
    let _parts = parts.len();
    let _nodes = nodes_in(parts);
}

fn reply_is_held(reply: &Reply)
    ensures { IsHeldReply reply.now }
{
    match reply {
        Reply::Planned(plan) => {
            let _choices = plan.choices.as_slice().len();
            let _nodes = plan.tree.as_slice().len();
        }
        Reply::Solved(plan) => solution_is_held(plan),
        Reply::Ok(_) | Reply::Read(_) | Reply::Old(_) | Reply::Refused(_) => {}
        Reply::Time(_, _) | Reply::Cost(_, _) | Reply::Range(_) => {}
        Reply::NoPlan | Reply::Plans => {}
    }
}

fn item_is_held(item: &LogItem)
    ensures { IsHeldItem item.now }
{
    match item {
        LogItem::Malformed { line: _ } => {}
        LogItem::Answered {
            line: _,
            said: _,
            reply,
        } => reply_is_held(reply),
    }
}

fn each_is_held(items: &[LogItem])
    ensures { All IsHeldItem items.now }
{
    for item in items {
        item_is_held(item);
    }
}

/// Items in memory: their numbers are ones that types hold, and their lists ones that memory holds. It only reads them, and tells a
/// proof that they are so.
pub fn items_are_held(items: &[LogItem])
    ensures { IsHeldPart items.now }
{
    let _count = items.len();
    items_fit(items);
    each_is_held(items);
}
