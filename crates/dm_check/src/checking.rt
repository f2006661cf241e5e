//! The check of a whole text.
ghost use Rattle.std.specs.Prelude.{◌≡◌, ◌≤◌, [], length, IfOk};
ghost use Rattle.dm_base.specs.declared.limits.TheConstants.{TEXT, PENALTY};
ghost use Rattle.dm_rows.specs.Rows.{IsSized};
ghost use Rattle.dm_cert.specs.declared.limits.TheConstants.{PLANS};
ghost use Rattle.dm_cert.specs.Answers.{rows_after};
ghost use Rattle.dm_check_rows.specs.Claims.{AreCheckedRowsOf};
ghost use Rattle.dm_check_answers.specs.Judging.{IsRunSetting, setting_of, history_of, value_of};
ghost use Rattle.dm_check.specs.FalseRecords.{IsVerdict};
ghost use Rattle.dm_check.specs.Inside.Sound.{IsSound};
ghost use Rattle.dm_check.specs.Judged.{AreFlagged, IsHeader, BodyOn, LogsAndRestOn, HistoryOn, RunOn};

use crate::faults::{Fault, Stop};
use crate::gathering::replay_for;
use crate::told_entries::all_entries;
use crate::told_items::Logs;
use crate::told_lines::version_told;
use crate::told_records::{entries_told, feeds_told, penalty_told};
use crate::told_rest::rest_told;
use crate::verdicts::Verdict;
use dm_check_answers::{Journal, RunSetting};
use dm_check_rows::CheckedRows;
use dm_network::Network;
use dm_rows::Rows;
use dm_text::Lines;
use std::alloc::{AllocError, Global};

/// How many entries a run has, and how many plans there are in its logs.
#[derive(Clone, Copy, PartialEq, Eq)]
pub(crate) struct Counts {
    pub(crate) entries: u32,
    pub(crate) plans: u32,
}

/// What the head of a run says: how many feeds there are, and how many entries.
#[derive(Clone, Copy)]
pub(crate) struct Header {
    pub(crate) feeds: usize,
    pub(crate) entries: u32,
}

/// The logs and what stands behind them, where the rows are those after all entries, and no entry is flagged as named yet. The
/// answer is how many plans there are.
fn logs_then_rest_told(
    lines: &mut Lines,
    journal: &Journal<'_>,
    logs: &mut Logs<'_>,
    checked: &mut CheckedRows,
    header: Header,
) -> Result<usize, Stop>
    requires setting { IsRunSetting journal.now.setting }
    requires sound { IsSound (setting_of journal.now.setting) (history_of journal.now) }
    requires goes_over { logs.old.replay.journal ≡ value_of journal.now }
    requires stands { AreCheckedRowsOf journal.now.setting.net.now checked.old }
    requires rows_are { checked.old.rows ≡ rows_after (setting_of journal.now.setting) (history_of journal.now)
        (length (history_of journal.now)) }
    requires header { IsHeader header }
    requires none { AreFlagged [] logs.old.named.items }
    requires each { length logs.old.named.items ≡ length (history_of journal.now) }
    requires counted { length (history_of journal.now) ≡ header.entries }
    ensures { LogsAndRestOn (setting_of journal.now.setting) (history_of journal.now) header.feeds lines.old lines.new result }
{
    let plans = match logs.all_logs(lines, header.feeds) {
        Ok(plans) => plans,
        Err(stop) => return Err(stop),
    };
    match rest_told(lines, journal, checked, &logs.named, header.entries) {
        Ok(()) => Ok(plans),
        Err(stop) => Err(stop),
    }
}

/// The logs and what stands behind them, where the rows are those after all entries.
fn logs_and_rest_told(
    lines: &mut Lines,
    journal: &Journal<'_>,
    checked: &mut CheckedRows,
    header: Header,
) -> Result<usize, Stop>
    requires setting { IsRunSetting journal.now.setting }
    requires sound { IsSound (setting_of journal.now.setting) (history_of journal.now) }
    requires stands { AreCheckedRowsOf journal.now.setting.net.now checked.old }
    requires rows_are { checked.old.rows ≡ rows_after (setting_of journal.now.setting) (history_of journal.now)
        (length (history_of journal.now)) }
    requires header { IsHeader header }
    requires counted { length (history_of journal.now) ≡ header.entries }
    ensures { LogsAndRestOn (setting_of journal.now.setting) (history_of journal.now) header.feeds lines.old lines.new result }
{
    let alloc = journal.setting.alloc;
    let Ok(named) = vec![in alloc; false; journal.entries.len()] else {
        return Err(Stop::OutOfMemory);
    };
    let replay = match replay_for(lines, *journal, header.feeds) {
        Ok(replay) => replay,
        Err(AllocError) => return Err(Stop::OutOfMemory),
    };
    let mut logs = Logs { replay, named };
    logs_then_rest_told(lines, journal, &mut logs, checked, header)
}

/// The entries and what stands behind them, from the rows at the start.
fn entries_then_logs_told(
    lines: &mut Lines,
    setting: &RunSetting<'_>,
    header: Header,
    checked: CheckedRows,
) -> Result<Counts, Stop>
    requires setting { IsRunSetting setting.now }
    requires header { IsHeader header }
    requires stands { AreCheckedRowsOf setting.now.net.now checked }
    requires copied { checked.rows ≡ setting.now.start.now }
    ensures { HistoryOn (setting_of setting.now) header.feeds header.entries lines.old lines.new result }
{
    let (feeds, entries) = (header.feeds, header.entries);
    let mut checked = checked;
    setting.net.reveal();
    setting.start.is_within_limits();
    let history = match all_entries(
        setting.alloc,
        lines,
        setting.net,
        &mut checked,
        feeds,
        entries,
    ) {
        Ok(history) => history,
        Err(stop) => return Err(stop),
    };
    let journal = Journal {
        setting: *setting,
        entries: &history,
    };
    match logs_and_rest_told(lines, &journal, &mut checked, header) {
        Ok(plans) => Ok(Counts {
            entries,
            plans: plans as u32,
        }),
        Err(stop) => Err(stop),
    }
}

/// The entries and what stands behind them.
fn history_told(lines: &mut Lines, setting: &RunSetting<'_>, header: Header) -> Result<Counts, Stop>
    requires setting { IsRunSetting setting.now }
    requires header { IsHeader header }
    ensures { HistoryOn (setting_of setting.now) header.feeds header.entries lines.old lines.new result }
{
    match setting.rows() {
        Ok(checked) => entries_then_logs_told(lines, setting, header, checked),
        Err(AllocError) => Err(Stop::OutOfMemory),
    }
}

/// What stands behind the version.
fn body_told(lines: &mut Lines, setting: &RunSetting<'_>) -> Result<Counts, Stop>
    requires { IsRunSetting setting.now }
    ensures { BodyOn (setting_of setting.now) lines.old lines.new result }
{
    match penalty_told(lines, setting.penalty) {
        Ok(_penalty) => (),
        Err(fault) => return Err(Stop::Fault(fault)),
    }
    let feeds = match feeds_told(lines) {
        Ok(feeds) => feeds,
        Err(fault) => return Err(Stop::Fault(fault)),
    };
    let entries = match entries_told(lines) {
        Ok(entries) => entries,
        Err(fault) => return Err(Stop::Fault(fault)),
    };
    history_told(lines, setting, Header { feeds, entries })
}

/// The whole run.
#[tactic(auto, using(crate::proofs::Wholes::version_fault, crate::proofs::Wholes::run_on))]
fn run_told(
    alloc: Global,
    lines: &mut Lines,
    net: &Network,
    start: &Rows,
    penalty: u64,
    plans: u32,
) -> Result<Counts, Stop>
    requires sized { IsSized net.now start.now }
    requires penalty { penalty ≤ PENALTY }
    requires plans { plans ≤ PLANS }
    ensures { RunOn net.now start.now penalty plans lines.old lines.new result }
{
    let version = match version_told(lines) {
        Ok(version) => version,
        Err(fault) => return Err(Stop::Fault(fault)),
    };
    let setting = RunSetting {
        alloc,
        net,
        start,
        penalty,
        plans,
        version,
    };
    body_told(lines, &setting)
}

/// What is told of a text: that it is good, or the first record that breaks its rule.
#[tactic(auto, using(crate::proofs::Wholes::run_good))]
pub(crate) fn verdict_on(
    alloc: Global,
    net: &Network,
    start: &Rows,
    penalty: u64,
    plans: u32,
    text: &[u8],
) -> Result<Verdict, AllocError>
    requires sized { IsSized net.now start.now }
    requires penalty { penalty ≤ PENALTY }
    requires plans { plans ≤ PLANS }
    requires short { length text.now ≤ TEXT }
    ensures { IfOk result (IsVerdict net.now start.now penalty plans text.now) }
{
    let mut lines = Lines::new(text);
    match run_told(alloc, &mut lines, net, start, penalty, plans) {
        Ok(Counts { entries, plans }) => Ok(Verdict::Good { entries, plans }),
        Err(Stop::Fault(Fault { line, kind })) => Ok(Verdict::Bad { line, kind }),
        Err(Stop::OutOfMemory) => Err(AllocError),
    }
}
