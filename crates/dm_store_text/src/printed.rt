//! The end that prints a run.
ghost use Rattle.std.specs.Prelude.{◌≤◌};
ghost use Rattle.dm_cert.specs.RunTexts.{run_text, FitsRun, IsSpelledRun};
ghost use Rattle.dm_store_text.specs.Written.{EndsAs, run_in};

use crate::status::Status;
use dm_cert::{FeedLog, Note};
use dm_outside::{Sink, WriteFault};
use dm_report::{Run, print_run};
use dm_table::Table;

/// Prints the run of a table, logs and notes.
pub fn end_run<K: Sink>(table: &Table<'_>, logs: &[FeedLog], notes: &[Note], out: &mut K) -> Status
    requires { IsSpelledRun (run_in table.now logs.now notes.now) }
    ensures ends { EndsAs K.taken K.faults out.old out.new (run_text 2 (run_in table.now logs.now notes.now)) Status.Ok result }
    ensures later { K.faults out.old ≤ K.faults out.new }
    ensures fits { FitsRun (run_in table.now logs.now notes.now) }
{
    let run = Run {
        net: table.network(),
        penalty: table.penalty(),
        history: table.history(),
        logs,
        notes,
        times: table.times(),
        cost: table.cost_now(),
    };
    run.fits();
    match print_run(&run, out) {
        Ok(()) => Status::Ok,
        Err(WriteFault) => Status::WriteFault,
    }
}
