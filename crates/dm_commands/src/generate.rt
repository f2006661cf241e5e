//! A generated day, from its words to its summary.
ghost use Rattle.std.specs.Prelude.{◌≤◌};
ghost use Rattle.dm_words.specs.Asked.{gen_of};
ghost use Rattle.dm_commands.specs.Inside.Generating.{IsDayWithin, EndsGenerated};

use crate::status::Status;
use dm_outside::{Sink, WriteFault};
use dm_report::write_summary;
use dm_summary::summarize;
use dm_words::GenWords;
use std::alloc::Global;

/// Makes a day from its number, and prints what it comes to.
pub fn generate<K: Sink>(alloc: Global, day: &GenWords, out: &mut K) -> Status
    requires { IsDayWithin (gen_of day.now) }
    ensures ends { EndsGenerated K.taken K.faults (gen_of day.now) out.old out.new result }
    ensures later { K.faults out.old ≤ K.faults out.new }
{
    let Ok(summary) = summarize(alloc, day.number, day.trains as u32, day.penalty) else {
        return Status::NoMemory;
    };
    match write_summary(&summary, out) {
        Ok(()) => Status::Ok,
        Err(WriteFault) => Status::WriteFault,
    }
}
