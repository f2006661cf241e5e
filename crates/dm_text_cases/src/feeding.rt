//! A feed that is answered in parts over a table.
ghost use Rattle.std.specs.Prelude.{◌≡◌, ◌≤◌, All, IfOk, OnOk};
ghost use Rattle.dm_base.specs.declared.limits.TheConstants.{BUDGET};
ghost use Rattle.dm_cert.specs.RunTexts.{IsSpelledItem};
ghost use Rattle.dm_desk.specs.Planning.{budget_of, FindsFor, PlansUnder, SolvesFor};
ghost use Rattle.dm_rows.specs.Active.{HasNoCycle};
ghost use Rattle.dm_rows.specs.Rows.{IsSized};
ghost use Rattle.dm_table_desk.specs.Tables.{setting_of, desk_of};
ghost use Rattle.dm_text_cases.specs.Feeding.{IsFeeding};

use dm_cert::LogItem;
use dm_desk::{Search, answer_lines};
use dm_network::Network;
use dm_parts::{AnyPlan, PlanByParts};
use dm_rows::Snapshot;
use dm_samples::{Failure, rows_on_time};
use dm_search::plan;
use dm_settle::NoTimes;
use dm_solve::plan_by_parts;
use dm_table::Table;
use dm_table_desk::TableDesk;
use dm_traverse::whole;
use std::alloc::{AllocError, Global};

/// Seconds for each passenger.
const PENALTY: u64 = 10;

/// How many plans a feed may have.
const PLANS: u32 = 16;

/// What a feed of whole lines is answered over a day on time. It comes in parts: each goes from what was passed to the next cut,
/// and up to so many of its due lines are answered.
pub fn log_of(
    alloc: Global,
    net: &Network,
    feed: &[u8],
    cuts: &[usize],
    batch: u32,
) -> Result<Vec<LogItem>, Failure>
    ensures { IfOk result (λ log. All IsSpelledItem log.items) }
{
    let rows = rows_on_time(alloc, net)?;
    let table = match Table::new(alloc, net, rows, PENALTY) {
        Ok(table) => table,
        Err(NoTimes::OutOfMemory) => return Err(Failure::OutOfMemory),
        Err(NoTimes::Cycle(_)) => return Err(Failure::NoDay),
    };
    table.reveal();
    let mut desk = TableDesk {
        alloc,
        table,
        plans: PLANS,
    };
    let planner = |snapshot: &Snapshot, asked: Search| -> Result<AnyPlan, AllocError>
        requires { (1 ≤ budget_of asked) × (budget_of asked ≤ BUDGET) × IsSized net.now snapshot.now.rows
            × HasNoCycle net.now snapshot.now.rows }
        ensures { IfOk result (FindsFor net.entry.now 10 snapshot.now asked) }
    { found(alloc, net, snapshot, asked) };
    let mut log = Vec::new(alloc);
    answer_parts(&mut desk, &planner, feed, cuts, batch, &mut log)?;
    Ok(log)
}

/// A plan of the kind that was asked for.
fn found(
    alloc: Global,
    net: &Network,
    snapshot: &Snapshot,
    asked: Search,
) -> Result<AnyPlan, AllocError>
    requires budget { (1 ≤ budget_of asked) × (budget_of asked ≤ BUDGET) }
    requires sized { IsSized net.now snapshot.now.rows }
    requires no_cycle { HasNoCycle net.now snapshot.now.rows }
    ensures { IfOk result (FindsFor net.now 10 snapshot.now asked) }
{
    match asked {
        Search::Plan(budget) => match plan(alloc, net, PENALTY, snapshot, budget) {
            Ok(plan) => Ok(AnyPlan::Whole(plan)),
            Err(AllocError) => Err(AllocError),
        },
        Search::Solve(budget) => match solved(alloc, net, snapshot, budget) {
            Ok(plan) => Ok(AnyPlan::ByParts(plan)),
            Err(AllocError) => Err(AllocError),
        },
    }
}

/// A plan by parts, made of a plan.
fn solved(
    alloc: Global,
    net: &Network,
    snapshot: &Snapshot,
    budget: u64,
) -> Result<PlanByParts, AllocError>
    requires budget { (1 ≤ budget) × (budget ≤ BUDGET) }
    requires sized { IsSized net.now snapshot.now.rows }
    requires no_cycle { HasNoCycle net.now snapshot.now.rows }
    ensures { IfOk result (SolvesFor net.now 10 snapshot.now budget) }
{
    let plan = match plan(alloc, net, PENALTY, snapshot, budget) {
        Ok(plan) => plan,
        Err(AllocError) => return Err(AllocError),
    };
    let rows = &snapshot.rows;
    let task = whole(alloc, net, rows, PENALTY, budget);
    plan_by_parts(&task, &plan)
}

fn answer_parts<P: Fn(&Snapshot, Search) -> Result<AnyPlan, AllocError>>(
    desk: &mut TableDesk<'_>,
    planner: &P,
    feed: &[u8],
    cuts: &[usize],
    batch: u32,
    log: &mut Vec<LogItem>,
) -> Result<(), Failure>
    requires plans { PlansUnder (P.pre planner.now) (P.post planner.now) (setting_of desk.old.plans desk.old.table) }
    requires feeding { IsFeeding (desk_of desk.old.plans desk.old.table) log.old.items }
    ensures feeding { OnOk result (IsFeeding (desk_of desk.new.plans desk.new.table) log.new.items) }
    ensures setting { OnOk result (setting_of desk.new.plans desk.new.table ≡ setting_of desk.old.plans desk.old.table) }
{
    let mut bytes: usize = 0;
    let mut lines = 0;
    for cut in cuts {
        let part = feed.get(bytes..*cut).unwrap_or(&[]);
        let (passed, counted) = answer_part(desk, planner, part, lines, batch, log)?;
        bytes = bytes.saturating_add(passed);
        lines = counted;
    }
    Ok(())
}

/// Answers up to so many due lines of a part, behind so many lines, and tells how many bytes and lines were passed.
fn answer_part<P: Fn(&Snapshot, Search) -> Result<AnyPlan, AllocError>>(
    desk: &mut TableDesk<'_>,
    planner: &P,
    part: &[u8],
    lines: u32,
    batch: u32,
    log: &mut Vec<LogItem>,
) -> Result<(usize, u32), Failure>
    requires plans { PlansUnder (P.pre planner.now) (P.post planner.now) (setting_of desk.old.plans desk.old.table) }
    requires feeding { IsFeeding (desk_of desk.old.plans desk.old.table) log.old.items }
    ensures feeding { OnOk result (IsFeeding (desk_of desk.new.plans desk.new.table) log.new.items) }
    ensures setting { OnOk result (setting_of desk.new.plans desk.new.table ≡ setting_of desk.old.plans desk.old.table) }
{
    if part.len() > 1_000_000 || lines > 1_000_000 {
        return Err(Failure::NoDay);
    }
    match answer_lines(part, lines, desk, planner, 1, batch, log) {
        Ok(passed) => Ok(passed),
        Err(AllocError) => Err(Failure::OutOfMemory),
    }
}
