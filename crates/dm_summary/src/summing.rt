//! The summary of a generated day.
ghost use Rattle.std.specs.Prelude.{◌≡◌, ◌≤◌, [], length, All, IfOk, sum};
ghost use Rattle.dm_base.specs.declared.limits.TheConstants.{PENALTY};
ghost use Rattle.dm_gen.specs.Sound.{DelaysEventOf};
ghost use Rattle.dm_summary.specs.Summed.{IsSummaryOf};
ghost use Rattle.dm_summary.specs.Inside.Lines.{IsSummaryAfter, IsSummaryIn, IsSummaryOver, NonePassed};

use crate::entering::enter_lines;
use crate::opening::{network_of, rows_of, table_of};
use dm_feed::Line;
use dm_gen::make;
use dm_network::Network;
use dm_report::Summary;
use dm_rows::free_choices;
use dm_settle::Times;
use dm_table::Table;
use std::alloc::{AllocError, Global};

/// The summary of the day of 1 to 2,000 trains that is generated from a number, after its feed, at a penalty in seconds for
/// each passenger, at most 1,000,000.
///
/// # Errors
///
/// There is not enough memory.
pub fn summarize(
    alloc: Global,
    number: u64,
    trains: u32,
    penalty: u64,
) -> Result<Summary, AllocError>
    requires least { 1 ≤ trains }
    requires most { trains ≤ 2000 }
    requires penalty { penalty ≤ PENALTY }
    ensures { IfOk result (IsSummaryOf number trains penalty) }
{
    let (events, activities, lines) = make(alloc, number, trains)?;
    let net = network_of(alloc, trains, events, activities)?;
    summary_over(alloc, &net, &lines, penalty)
}

/// The summary of a day without start delays, after lines that delay events of its network.
fn summary_over(
    alloc: Global,
    net: &Network,
    lines: &[Line],
    penalty: u64,
) -> Result<Summary, AllocError>
    requires few { length lines.now ≤ 500 }
    requires delays { All (DelaysEventOf net.now) lines.now }
    requires penalty { penalty ≤ PENALTY }
    ensures { IfOk result (IsSummaryOver net.now lines.now penalty) }
{
    let rows = rows_of(alloc, net)?;
    let mut table = table_of(alloc, net, rows, penalty)?;
    summary_after(alloc, &mut table, lines)
}

/// The summary of a table without entries, after lines that delay events of its network.
fn summary_after(
    alloc: Global,
    table: &mut Table<'_>,
    lines: &[Line],
) -> Result<Summary, AllocError>
    requires none { table.old.history ≡ [] }
    requires none_passed { NonePassed table.old.rows }
    requires few { length lines.now ≤ 500 }
    requires delays { All (DelaysEventOf table.old.network) lines.now }
    ensures { IfOk result (IsSummaryAfter table.old lines.now) }
{
    enter_lines(table, lines)?;
    table.reveal();
    summary_of(alloc, table)
}

/// What a table tells of its day.
fn summary_of(alloc: Global, table: &Table<'_>) -> Result<Summary, AllocError>
    ensures { IfOk result (IsSummaryIn table.now) }
{
    table.reveal();
    let net = table.network();
    let choices = free_choices(alloc, net, table.rows())?;
    Ok(Summary {
        events: net.events() as u64,
        activities: net.activities() as u64,
        choices: choices.len() as u64,
        entries: u64::from(table.len()),
        cost: table.cost_now(),
        sum: sum_of(table.times()),
    })
}

/// The sum of all times, in seconds.
fn sum_of(times: &Times) -> u128
    ensures { result ≡ sum times.now }
{
    let mut total = 0u128;
    for i in 0..times.events() {
        total += u128::from(times.time(i));
    }
    total
}
