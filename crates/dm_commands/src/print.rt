//! An answered run, in print.
ghost use Rattle.std.specs.Prelude.{◌≡◌};
ghost use Rattle.std.specs.List.{list_any};
ghost use Rattle.dm_cert.specs.RunTexts.{run_text, FitsRun, IsSpelledRun};
ghost use Rattle.dm_commands.specs.Ends.{EndsAs};
ghost use Rattle.dm_commands.specs.Feeds.{status_of, is_fault, is_long};
ghost use Rattle.dm_commands.specs.Inside.Stages.{run_in};

use crate::status::Status;
use dm_cert::FeedLog;
use dm_crew::AnsweredDay;
use dm_feed::FeedStop;
use dm_outside::{Sink, WriteFault};
use dm_report::{Run, print_run};

/// Prints a run that is answered.
pub fn end_run<K: Sink>(answered: &AnsweredDay<'_>, out: &mut K) -> Status
    requires { IsSpelledRun (run_in answered.now.table answered.now.logs.items answered.now.publisher.notes) }
    ensures ends { EndsAs K.taken K.faults out.old out.new (run_text 2
        (run_in answered.now.table answered.now.logs.items answered.now.publisher.notes)) (status_of answered.now.logs.items) result }
    ensures fits { FitsRun (run_in answered.now.table answered.now.logs.items answered.now.publisher.notes) }
{
    let table = &answered.table;
    let run = Run {
        net: table.network(),
        penalty: table.penalty(),
        history: table.history(),
        logs: answered.logs.as_slice(),
        notes: answered.publisher.notes(),
        times: table.times(),
        cost: table.cost_now(),
    };
    run.fits();
    match print_run(&run, out) {
        Ok(()) => status_of(answered.logs.as_slice()),
        Err(WriteFault) => Status::WriteFault,
    }
}

/// The status of feeds that have ended so.
fn status_of(logs: &[FeedLog]) -> Status
    ensures { result ≡ status_of logs.now }
{
    if some_failed(logs) {
        Status::ReadFault
    } else if some_is_long(logs) {
        Status::Refused
    } else {
        Status::Ok
    }
}

fn some_failed(logs: &[FeedLog]) -> bool
    ensures { result ≡ list_any (λ log. is_fault log.stop) logs.now }
{
    logs.iter().any(|log| is_fault(log.stop))
}

fn some_is_long(logs: &[FeedLog]) -> bool
    ensures { result ≡ list_any (λ log. is_long log.stop) logs.now }
{
    logs.iter().any(|log| is_long(log.stop))
}

fn is_fault(stop: FeedStop) -> bool
    ensures { result ≡ is_fault stop }
{
    matches!(stop, FeedStop::Fault)
}

fn is_long(stop: FeedStop) -> bool
    ensures { result ≡ is_long stop }
{
    matches!(stop, FeedStop::Long)
}
