//! A run that was read back: whether its logs are true, and where they are not, what is told of its printed text.
ghost use Rattle.std.specs.Prelude.{◌≡◌, ◌≤◌, ◌↔◌, [], IsTrue, All, length, IfOk, IfErr, OnOk};
ghost use Rattle.dm_cert.specs.declared.limits.TheConstants.{PLANS};
ghost use Rattle.dm_cert.specs.Logs.{AreTrueLogs};
ghost use Rattle.dm_cert.specs.RunTexts.{IsSpelledLog, run_text, FitsRun};
ghost use Rattle.dm_base.specs.declared.limits.TheConstants.{TEXT};
ghost use Rattle.dm_outside.specs.Printing.{Puts};
ghost use Rattle.dm_records.specs.Laws.{IsHeldLog};
ghost use Rattle.dm_table.specs.Value.{IsTable};
ghost use Rattle.dm_table_desk.specs.Tables.{setting_of};
ghost use Rattle.dm_restore.specs.Inside.Entering.{AreSorted};
ghost use Rattle.dm_restore.specs.Inside.Judging.{run_of, StopsJudging};

use crate::stops::RestoreStop;
use dm_base::limits::TEXT;
use dm_cert::FeedLog;
use dm_check::{Verdict, are_true_logs, check};
use dm_items::{Gathered, items_are_held};
use dm_outside::{Sink, WriteFault};
use dm_report::{Run, print_run};
use dm_table::Table;
use dm_table_desk::TableDesk;
use std::alloc::{AllocError, Global};

/// Puts the text of the run of a table and logs, without notes. A write fault comes only where a write failed.
pub(crate) fn put_run<K: Sink>(
    table: &Table<'_>,
    logs: &[FeedLog],
    out: &mut K,
) -> Result<(), WriteFault>
    requires logs { All IsSpelledLog logs.now }
    requires sorted { AreSorted table.now.history }
    ensures puts { Puts K.taken K.faults out.old out.new result (run_text 2 (run_of table.now logs.now)) }
    ensures fits { FitsRun (run_of table.now logs.now) }
{
    table.reveal();
    let run = Run {
        net: table.network(),
        penalty: table.penalty(),
        history: table.history(),
        logs,
        notes: &[],
        times: table.times(),
        cost: table.cost_now(),
    };
    run.fits();
    print_run(&run, out)
}

fn run_text(alloc: Global, table: &Table<'_>, logs: &[FeedLog]) -> Result<Vec<u8>, AllocError>
    requires logs { All IsSpelledLog logs.now }
    requires sorted { AreSorted table.now.history }
    ensures text { IfOk result (λ text. text.items ≡ run_text 2 (run_of table.now logs.now)) }
    ensures fits { FitsRun (run_of table.now logs.now) }
{
    let mut sink = Gathered::new(alloc);
    let Ok(()) = put_run(table, logs, &mut sink) else {
        return Err(AllocError);
    };
    Ok(sink.into_bytes())
}

/// What memory holds of logs. It only reads them.
fn logs_are_held(logs: &[FeedLog])
    ensures { All IsHeldLog logs.now }
{
    for log in logs {
        log_is_held(log);
    }
}

fn log_is_held(log: &FeedLog)
    ensures { IsHeldLog log.now }
{
    items_are_held(log.items.as_slice());
}

/// Whether logs, of at most 64 feeds, are true of the history of a table.
fn are_true(alloc: Global, desk: &TableDesk<'_>, logs: &[FeedLog]) -> Result<bool, AllocError>
    requires spelled { All IsSpelledLog logs.now }
    requires few { length logs.now ≤ 64 }
    requires plans { desk.now.plans ≤ PLANS }
    ensures { IfOk result (λ good. IsTrue good
        ↔ AreTrueLogs (setting_of desk.now.plans desk.now.table) desk.now.table.history logs.now) }
{
    let table = &desk.table;
    table.reveal();
    are_true_logs(
        alloc,
        table.network(),
        table.start(),
        table.penalty(),
        desk.plans,
        table.history().as_slice(),
        logs,
    )
}

/// Judges logs, of 1 to 64 feeds. Where they are not true, their run is printed, and its text judged: so the first record is told
/// that breaks its rule.
pub(crate) fn judge(
    alloc: Global,
    desk: &TableDesk<'_>,
    logs: &[FeedLog],
) -> Result<(), RestoreStop>
    requires spelled { All IsSpelledLog logs.now }
    requires sorted { AreSorted desk.now.table.history }
    requires some { 1 ≤ length logs.now }
    requires few { length logs.now ≤ 64 }
    requires plans { desk.now.plans ≤ PLANS }
    ensures table { IsTable desk.now.table }
    ensures good { OnOk result (AreTrueLogs (setting_of desk.now.plans desk.now.table) desk.now.table.history logs.now) }
    ensures stops { IfErr result (StopsJudging desk.now.plans desk.now.table logs.now) }
{
    desk.table.reveal();
    match are_true(alloc, desk, logs) {
        Ok(true) => Ok(()),
        Ok(false) => judge_text(alloc, desk, logs),
        Err(AllocError) => Err(RestoreStop::OutOfMemory),
    }
}

/// Judges the text of the run of a table and logs, of 1 to 64 feeds.
fn judge_text(alloc: Global, desk: &TableDesk<'_>, logs: &[FeedLog]) -> Result<(), RestoreStop>
    requires spelled { All IsSpelledLog logs.now }
    requires sorted { AreSorted desk.now.table.history }
    requires some { 1 ≤ length logs.now }
    requires few { length logs.now ≤ 64 }
    requires plans { desk.now.plans ≤ PLANS }
    ensures good { OnOk result (AreTrueLogs (setting_of desk.now.plans desk.now.table) desk.now.table.history logs.now) }
    ensures stops { IfErr result (StopsJudging desk.now.plans desk.now.table logs.now) }
{
    let table = &desk.table;
    table.reveal();
    table.network().reveal();
    logs_are_held(logs);
    let Ok(text) = run_text(alloc, table, logs) else {
        return Err(RestoreStop::OutOfMemory);
    };
    if text.len() > TEXT {
        return Err(RestoreStop::Full);
    }
    match check(
        alloc,
        table.network(),
        table.start(),
        table.penalty(),
        desk.plans,
        &text,
    ) {
        Ok(Verdict::Good { .. }) => Ok(()),
        Ok(Verdict::Bad { line, kind }) => Err(RestoreStop::Bad(line, kind)),
        Err(AllocError) => Err(RestoreStop::OutOfMemory),
    }
}
