//! A plan at an entry, and what becomes of it.
ghost use Rattle.std.specs.Prelude.{◌≡◌, ◌≤◌, length, Some, IfOk, IfSome};
ghost use Rattle.dm_base.specs.declared.limits.TheConstants.{BUDGET, PENALTY};
ghost use Rattle.dm_rows.specs.Active.{HasNoCycle};
ghost use Rattle.dm_rows.specs.History.{rows_at};
ghost use Rattle.dm_rows.specs.Rows.{IsSized};
ghost use Rattle.dm_desk.specs.Planning.{budget_of};
ghost use Rattle.dm_parts.specs.Kinds.{chosen_of};
ghost use Rattle.dm_stretch.specs.Rebasing.{DecideOnce};
ghost use Rattle.dm_outlook.specs.Outlooks.{IsCarried, IsMinimalFor, IsOutlook, IsOver, PlansWindow};
ghost use Rattle.dm_outlook.specs.Searching.{SearchesWindows};

use dm_base::{ActId, Items};
use dm_desk::{PlanRequest, Search};
use dm_network::Network;
use dm_parts::AnyPlan;
use dm_rows::{Decision, Entry, Rows, Snapshot, admit};
use dm_stretch::{Minimal, RebaseFault, Rebased, Window, rebase, thin};
use dm_table::Table;
use dm_times::least;
use std::alloc::{AllocError, Global};

/// What becomes of a plan's choices in newer rows.
#[derive(Drop)]
pub enum Carried {
    /// Those that differ from these rows, and what the rows cost with them.
    Rebased(Rebased),

    /// The first choice that is not free there.
    NotFree(Decision),

    /// The ids of activities that form a cycle with those that differ, each head the next tail.
    Cycle(Items<ActId>),
}

/// A plan of a window at an entry.
pub struct Outlook {
    /// How many entries the history has for whose rows the plan is.
    pub entry: u32,
    pub plan: AnyPlan,

    /// The plan's choices that are kept where others are given back, where that was asked.
    pub minimal: Option<Minimal>,

    /// What becomes of the plan at the last entry, where an entry was named.
    pub carried: Option<Carried>,
}

impl Drop for Outlook {
    fn drop(self) {
        let Outlook {
            entry: _,
            plan: _,
            minimal: _,
            carried: _,
        } = self;
    }
}

/// A plan for a window of the rows after so many entries of a table, at most all, or after all where no number is given; and,
/// where one is, what becomes of the plan after all. It is of the kind that is asked for, with at most so many nodes, 1 to 16,384.
/// With `most` it is also told which of its choices are kept where the others are given back, for at most so much more than it costs.
/// The plan is searched by what is handed in.
pub fn outlook_of<W: Fn(&PlanRequest<'_>, &Window) -> Result<AnyPlan, AllocError>>(
    alloc: Global,
    search: &W,
    table: &Table<'_>,
    window: &Window,
    asked: Search,
    at: Option<u32>,
    most: Option<u64>,
) -> Result<Outlook, AllocError>
    requires searches { SearchesWindows (W.pre search.now) (W.post search.now) }
    requires budget { (1 ≤ budget_of asked) × (budget_of asked ≤ BUDGET) }
    requires at { IfSome at (λ n. n ≤ length table.now.history) }
    ensures { IfOk result (IsOutlook table.now.network table.now.start table.now.penalty table.now.history window.now asked at most) }
{
    match at {
        None => outlook_now(alloc, search, table, window, asked, most),
        Some(at) => outlook_then(alloc, search, table, window, asked, at, most),
    }
}

/// A plan after all entries.
fn outlook_now<W: Fn(&PlanRequest<'_>, &Window) -> Result<AnyPlan, AllocError>>(
    alloc: Global,
    search: &W,
    table: &Table<'_>,
    window: &Window,
    asked: Search,
    most: Option<u64>,
) -> Result<Outlook, AllocError>
    requires searches { SearchesWindows (W.pre search.now) (W.post search.now) }
    requires budget { (1 ≤ budget_of asked) × (budget_of asked ≤ BUDGET) }
    ensures { IfOk result (IsOutlook table.now.network table.now.start table.now.penalty table.now.history window.now asked None most) }
{
    table.reveal();
    let net = table.network();
    let penalty = table.penalty();
    net.reveal();
    let now = table.copy()?;
    let plan = planned(search, net, penalty, &now, window, asked)?;
    let minimal = thinned(alloc, net, penalty, &now.rows, &plan, most)?;
    Ok(Outlook {
        entry: now.entry,
        plan,
        minimal,
        carried: None,
    })
}

/// A plan after so many entries, and what becomes of it after all.
fn outlook_then<W: Fn(&PlanRequest<'_>, &Window) -> Result<AnyPlan, AllocError>>(
    alloc: Global,
    search: &W,
    table: &Table<'_>,
    window: &Window,
    asked: Search,
    at: u32,
    most: Option<u64>,
) -> Result<Outlook, AllocError>
    requires searches { SearchesWindows (W.pre search.now) (W.post search.now) }
    requires budget { (1 ≤ budget_of asked) × (budget_of asked ≤ BUDGET) }
    requires at { at ≤ length table.now.history }
    ensures { IfOk result (IsOutlook table.now.network table.now.start table.now.penalty table.now.history window.now asked (Some at)
        most) }
{
    table.reveal();
    let net = table.network();
    let penalty = table.penalty();
    net.reveal();
    let then = rows_then(alloc, table, at)?;
    let plan = planned(search, net, penalty, &then, window, asked)?;
    let minimal = thinned(alloc, net, penalty, &then.rows, &plan, most)?;
    let now = table.copy()?;
    let carried = carried_to(alloc, net, penalty, &now, &plan)?;
    Ok(Outlook {
        entry: at,
        plan,
        minimal,
        carried: Some(carried),
    })
}

/// A plan of a window, of the kind that is asked for, by what searches for it.
fn planned<W: Fn(&PlanRequest<'_>, &Window) -> Result<AnyPlan, AllocError>>(
    search: &W,
    net: &Network,
    penalty: u64,
    snapshot: &Snapshot,
    window: &Window,
    asked: Search,
) -> Result<AnyPlan, AllocError>
    requires searches { SearchesWindows (W.pre search.now) (W.post search.now) }
    requires sized { IsSized net.now snapshot.now.rows }
    requires no_cycle { HasNoCycle net.now snapshot.now.rows }
    requires penalty { penalty ≤ PENALTY }
    requires budget { (1 ≤ budget_of asked) × (budget_of asked ≤ BUDGET) }
    ensures { IfOk result (PlansWindow net.now snapshot.now.rows penalty window.now asked) }
{
    let request = PlanRequest {
        net,
        penalty,
        snapshot,
        asked,
        workers: 1,
    };
    search(&request, window)
}

/// Which choices of a plan are kept where others are given back, if that is asked.
fn thinned(
    alloc: Global,
    net: &Network,
    penalty: u64,
    rows: &Rows,
    plan: &AnyPlan,
    most: Option<u64>,
) -> Result<Option<Minimal>, AllocError>
    requires sized { IsSized net.now rows.now }
    requires penalty { penalty ≤ PENALTY }
    requires plan { IsOver net.now rows.now penalty plan.now }
    ensures { IfOk result (IsMinimalFor net.now rows.now penalty plan.now most) }
{
    let Some(most) = most else {
        return Ok(None);
    };
    match thinned_to(alloc, net, penalty, rows, plan, most) {
        Ok(minimal) => Ok(Some(minimal)),
        Err(AllocError) => Err(AllocError),
    }
}

fn thinned_to(
    alloc: Global,
    net: &Network,
    penalty: u64,
    rows: &Rows,
    plan: &AnyPlan,
    most: u64,
) -> Result<Minimal, AllocError>
    requires sized { IsSized net.now rows.now }
    requires penalty { penalty ≤ PENALTY }
    requires plan { IsOver net.now rows.now penalty plan.now }
    ensures { IfOk result (λ minimal. IsMinimalFor net.now rows.now penalty plan.now (Some most) (Some minimal)) }
{
    match plan {
        AnyPlan::Whole(plan) => thin(
            alloc,
            net,
            penalty,
            rows,
            plan.choices.as_slice(),
            plan.cost,
            most,
        ),
        AnyPlan::ByParts(plan) => thin(
            alloc,
            net,
            penalty,
            rows,
            plan.choices.as_slice(),
            plan.cost,
            most,
        ),
    }
}

/// The rows after so many entries, with their number.
fn rows_then(alloc: Global, table: &Table<'_>, at: u32) -> Result<Snapshot, AllocError>
    requires { at ≤ length table.now.history }
    ensures rows { IfOk result (λ then. then.rows ≡ rows_at table.now.network table.now.start table.now.history at) }
    ensures sized { IfOk result (λ then. IsSized table.now.network then.rows) }
    ensures no_cycle { IfOk result (λ then. HasNoCycle table.now.network then.rows) }
{
    let rows = replayed(alloc, table, at)?;
    // Rows after a legal history have no cycle, so that only memory may be missing.
    let Ok(_times) = least(alloc, table.network(), &rows) else {
        return Err(AllocError);
    };
    Ok(Snapshot { entry: at, rows })
}

/// The rows after so many entries.
fn replayed(alloc: Global, table: &Table<'_>, at: u32) -> Result<Rows, AllocError>
    requires { at ≤ length table.now.history }
    ensures rows { IfOk result (λ rows. rows ≡ rows_at table.now.network table.now.start table.now.history at) }
    ensures sized { IfOk result (IsSized table.now.network) }
{
    rows_behind(alloc, table, &table.history().as_slice()[..at as usize])
}

/// The rows at the start, behind these entries of a table.
fn rows_behind(alloc: Global, table: &Table<'_>, entries: &[Entry]) -> Result<Rows, AllocError>
    ensures rows { IfOk result (λ rows. rows ≡ rows_at table.now.network table.now.start entries.now (length entries.now)) }
    ensures sized { IfOk result (IsSized table.now.network) }
{
    table.reveal();
    let net = table.network();
    let mut rows = table.start().copy()?;
    for entry in entries {
        // What a table has accepted is admitted again, so that only memory may be missing.
        let Ok(change) = admit(alloc, net, &rows, &entry.message) else {
            return Err(AllocError);
        };
        rows.apply(&change);
    }
    Ok(rows)
}

/// What becomes of a plan in newer rows.
fn carried_to(
    alloc: Global,
    net: &Network,
    penalty: u64,
    newer: &Snapshot,
    plan: &AnyPlan,
) -> Result<Carried, AllocError>
    requires sized { IsSized net.now newer.now.rows }
    requires penalty { penalty ≤ PENALTY }
    requires once { DecideOnce (chosen_of plan.now).choices }
    ensures { IfOk result (IsCarried net.now newer.now penalty (chosen_of plan.now).choices) }
{
    match rebase(alloc, net, penalty, newer, plan.choices()) {
        Ok(rebased) => Ok(Carried::Rebased(rebased)),
        Err(RebaseFault::NotFree(decision)) => Ok(Carried::NotFree(decision)),
        Err(RebaseFault::Cycle(ids)) => Ok(Carried::Cycle(ids)),
        Err(RebaseFault::OutOfMemory) => Err(AllocError),
    }
}
