//! Cases that are made again.
ghost use Rattle.std.specs.Prelude.{IfOk};
ghost use Rattle.dm_rows.specs.Rows.{IsSized};

use dm_base::EventId;
use dm_network::Network;
use dm_rows::{Message, Rows, Snapshot};
use dm_samples::{Failure, Sample, hear, rows_on_time};
use std::alloc::Global;

/// Seconds for each passenger.
pub const PENALTY: u64 = 10;

/// The first train is a minute late.
pub const LATE: Message = Message::DelayEvent(EventId(1), 60);

/// Calls that take memory.
pub trait Case {
    /// Makes its calls over rows of a network. [`Failure::OutOfMemory`] comes where memory was refused to a call that changes nothing;
    /// one that changes something is made again there and then.
    fn come_out(alloc: Global, net: &Network, day: &Snapshot) -> Result<(), Failure>
        requires sized { IsSized net.now day.now.rows };
}

/// How a case comes out, or comes out the second time, where memory was refused at first.
pub fn twice<C: Case>(alloc: Global, net: &Network, day: &Snapshot) -> Result<(), Failure>
    requires { IsSized net.now day.now.rows }
{
    match C::come_out(alloc, net, day) {
        Err(Failure::OutOfMemory) => C::come_out(alloc, net, day),
        outcome => outcome,
    }
}

/// A small network.
pub fn network(alloc: Global, sample: Sample) -> Result<Network, Failure> {
    match sample.network(alloc) {
        Err(Failure::OutOfMemory) => sample.network(alloc),
        made => made,
    }
}

/// The rows after the delay, which is entry 1.
pub fn late_day(alloc: Global, net: &Network) -> Result<Snapshot, Failure>
    ensures { IfOk result (λ day. IsSized net.now day.rows) }
{
    let mut rows = on_time(alloc, net)?;
    hear(alloc, net, &mut rows, &LATE);
    Ok(Snapshot { entry: 1, rows })
}

fn on_time(alloc: Global, net: &Network) -> Result<Rows, Failure>
    ensures { IfOk result (IsSized net.now) }
{
    match rows_on_time(alloc, net) {
        Err(Failure::OutOfMemory) => rows_on_time(alloc, net),
        made => made,
    }
}

/// Whether what is due has come.
pub fn is_due(due: bool, steps: u32) -> Result<(), Failure> {
    if due {
        Ok(())
    } else {
        Err(Failure::Differs(steps))
    }
}
