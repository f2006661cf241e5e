//! The replies to what asks for a plan and to what adopts one or carries it over.

ghost use Rattle.std.specs.Prelude.{ℕ, ◌≤◌, IfOk};
ghost use Rattle.dm_base.specs.declared.limits.TheConstants.{BUDGET};
ghost use Rattle.dm_feed.specs.declared.grammar.Line.TheVariants as said;
ghost use Rattle.dm_desk.specs.Answered.{HasSeenLegal};
ghost use Rattle.dm_desk.specs.Planning.{budget_of, PlansUnder};
ghost use Rattle.dm_desk.specs.Inside.Replies.{HasPlans, Replies, IsFoundFor, asks};

use crate::desk::Desk;
use crate::plans::{count_plans, last_plan};
use crate::searches::Search;
use dm_base::limits::{BUDGET, ENTRIES};
use dm_cert::{LogItem, Reply};
use dm_parts::AnyPlan;
use dm_rows::{At, Refusal, Snapshot};
use dm_tree::AdoptRefusal;
use std::alloc::AllocError;

/// A plan of either kind, unless the number of nodes is out of range or the feed has had all its plans.
pub fn find<D: Desk, P: Fn(&Snapshot, Search) -> Result<AnyPlan, AllocError>>(
    desk: &mut D,
    planner: &P,
    items: &[LogItem],
    search: Search,
) -> Result<Reply, AllocError>
    requires legal { HasSeenLegal (D.value desk.old) }
    requires plans { PlansUnder (P.pre planner.now) (P.post planner.now) (D.value desk.old).setting }
    requires had { HasPlans (D.value desk.old) items.now }
    ensures { IfOk result (λ reply. (feed line : ℕ)
        → Replies (D.value desk.old) (D.value desk.new) feed line items.now (asks search) reply) }
{
    let budget = search.budget();
    if budget == 0 || budget > BUDGET {
        return Ok(Reply::Range(budget));
    }
    if count_plans(items) == desk.plans() as usize {
        return Ok(Reply::Plans);
    }
    let plan = found_for(desk, planner, search)?;
    Ok(Reply::with(plan))
}

// A plan of the rows after all that the desk then sees.
fn found_for<D: Desk, P: Fn(&Snapshot, Search) -> Result<AnyPlan, AllocError>>(
    desk: &mut D,
    planner: &P,
    search: Search,
) -> Result<AnyPlan, AllocError>
    requires plans { PlansUnder (P.pre planner.now) (P.post planner.now) (D.value desk.old).setting }
    requires some { 1 ≤ budget_of search }
    requires few { budget_of search ≤ BUDGET }
    ensures { IfOk result (IsFoundFor (D.value desk.old) (D.value desk.new) search) }
{
    let snapshot = desk.snapshot()?;
    planner(&snapshot, search)
}

/// Adopts the latest plan of a feed of either kind, where it has had one.
pub fn adopt<D: Desk>(
    desk: &mut D,
    feed: u32,
    line: u32,
    items: &[LogItem],
) -> Result<Reply, AllocError>
    requires legal { HasSeenLegal (D.value desk.old) }
    requires had { HasPlans (D.value desk.old) items.now }
    ensures { IfOk result (Replies (D.value desk.old) (D.value desk.new) feed line items.now said.Adopt) }
{
    let Some((entry, choices)) = last_plan(items) else {
        return Ok(Reply::NoPlan);
    };
    match desk.adopt(entry, choices, feed, line) {
        Ok(number) => Ok(Reply::Ok(number)),
        Err(AdoptRefusal::Old { now }) => Ok(Reply::Old(now)),
        Err(AdoptRefusal::Full { now }) => Ok(Reply::Refused(At {
            entry: now,
            why: Refusal::Full(ENTRIES),
        })),
        Err(AdoptRefusal::OutOfMemory) => Err(AllocError),
    }
}

/// Enters the choices of the latest plan of a feed that are still free, where it has had one.
pub fn carry<D: Desk>(
    desk: &mut D,
    feed: u32,
    line: u32,
    items: &[LogItem],
) -> Result<Reply, AllocError>
    requires legal { HasSeenLegal (D.value desk.old) }
    requires had { HasPlans (D.value desk.old) items.now }
    ensures { IfOk result (Replies (D.value desk.old) (D.value desk.new) feed line items.now said.Carry) }
{
    let Some((_, choices)) = last_plan(items) else {
        return Ok(Reply::NoPlan);
    };
    match desk.carry(choices, feed, line) {
        Ok(number) => Ok(Reply::Ok(number)),
        Err(
            At {
                entry: _,
                why: Refusal::OutOfMemory,
            },
        ) => Err(AllocError),
        Err(at) => Ok(Reply::Refused(at)),
    }
}
