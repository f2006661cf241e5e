//! Runs and timetables in print.
ghost use Rattle.std.specs.Prelude.{◌≡◌, length};
ghost use Rattle.dm_outside.specs.Printing.{Prints, Puts};
ghost use Rattle.dm_rows.specs.Rows.{IsSized};
ghost use Rattle.dm_cert.specs.RunTexts.{FitsRun, IsSpelledRun, run_text, timetable_text};
ghost use Rattle.dm_report.specs.Printed.{cancelled_text, printed_run};

use crate::answers::put_logs;
use crate::fitting::{entries_fit, logs_fit, notes_fit, times_fit};
use crate::records::{
    put_boards, put_cancelled, put_ending, put_entries, put_header, put_heading, put_notes,
    put_times,
};
use dm_base::Cost;
use dm_cert::{FeedLog, Note};
use dm_history::History;
use dm_network::Network;
use dm_outside::{Page, Sink, WriteFault};
use dm_rows::Rows;
use dm_times::Times;

/// What a run is printed of.
#[derive(Clone, Copy)]
pub struct Run<'a> {
    pub net: &'a Network,

    /// The penalty of a missed change, in seconds for each passenger.
    pub penalty: u64,

    pub history: &'a History,

    /// The log of each feed, in the order of the feeds.
    pub logs: &'a [FeedLog],

    /// The boards that were dropped, in order.
    pub notes: &'a [Note],

    /// The time of each event after all entries, in seconds.
    pub times: &'a Times,

    /// The cost after all entries, in thousandths of passenger seconds.
    pub cost: Cost,
}

impl<'a> Run<'a> {
    /// Each number of the run is one that its type holds, which is known where the number is read. This reads them all.
    pub fn fits(&self)
        ensures { FitsRun (printed_run self.now) }
    {
        let _penalty = self.penalty;
        let _cost = self.cost;
        entries_fit(self.history.as_slice());
        logs_fit(self.logs);
        notes_fit(self.notes);
        times_fit(self.times);
    }
}

/// Prints a run whole.
fn put_run<K: Sink>(sink: &mut K, page: &mut Page, run: &Run<'_>) -> Result<(), WriteFault>
    requires { IsSpelledRun (printed_run run.now) }
    ensures { Prints K.taken K.faults sink.old sink.new page.old page.new result (run_text 2 (printed_run run.now)) }
{
    let entries = run.history.as_slice();
    let Ok(()) = put_header(sink, page, run.penalty, run.logs.len(), entries.len()) else {
        return Err(WriteFault);
    };
    let Ok(()) = put_entries(sink, page, entries) else {
        return Err(WriteFault);
    };
    let Ok(()) = put_logs(sink, page, run.logs) else {
        return Err(WriteFault);
    };
    let Ok(()) = put_boards(sink, page, run.notes.len()) else {
        return Err(WriteFault);
    };
    let Ok(()) = put_notes(sink, page, run.notes) else {
        return Err(WriteFault);
    };
    let Ok(()) = put_heading(sink, page, entries.len()) else {
        return Err(WriteFault);
    };
    let Ok(()) = put_times(sink, page, run.net, run.times) else {
        return Err(WriteFault);
    };
    put_ending(sink, page, run.cost)
}

/// Writes the one spelling of the run in version 2. The run has one: no log item is of an adopted list as a line, tells want
/// of memory, or tells a full history at another number of entries than 1,000,000; where an entry or an item names a pair as
/// locked or unlocked, its smaller id stands first; and there is a time for each event. A write fault comes only where a write
/// failed; the sink has then taken a front of the spelling, and not all of it.
pub fn print_run<K: Sink>(run: &Run<'_>, sink: &mut K) -> Result<(), WriteFault>
    requires { IsSpelledRun (printed_run run.now) }
    ensures { Puts K.taken K.faults sink.old sink.new result (run_text 2 (printed_run run.now)) }
{
    let mut page = Page::new();
    let Ok(()) = put_run(sink, &mut page, run) else {
        return Err(WriteFault);
    };
    page.finish(sink)
}

/// Writes a line `id; time` for each event, in ascending id, the time in seconds. There is a time for each event. A write
/// fault comes only where a write failed; the sink has then taken a front of the lines, and not all of them.
pub fn write_timetable<K: Sink>(
    net: &Network,
    times: &Times,
    sink: &mut K,
) -> Result<(), WriteFault>
    requires { length times.now ≡ length net.now.events }
    ensures { Puts K.taken K.faults sink.old sink.new result (timetable_text net.now times.now) }
{
    let mut page = Page::new();
    let Ok(()) = put_times(sink, &mut page, net, times) else {
        return Err(WriteFault);
    };
    page.finish(sink)
}

/// Writes a line `cancelled id` for each event that is cancelled, in ascending id. A write fault comes only where a write failed;
/// the sink has then taken a front of the lines, and not all of them.
pub fn write_cancelled<K: Sink>(net: &Network, rows: &Rows, sink: &mut K) -> Result<(), WriteFault>
    requires { IsSized net.now rows.now }
    ensures { Puts K.taken K.faults sink.old sink.new result (cancelled_text net.now rows.now) }
{
    let mut page = Page::new();
    let Ok(()) = put_cancelled(sink, &mut page, net, rows) else {
        return Err(WriteFault);
    };
    page.finish(sink)
}
