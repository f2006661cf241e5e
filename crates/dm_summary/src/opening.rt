//! The table of a generated day before any entry.
ghost use Rattle.std.specs.Prelude.{◌≡◌, ◌≤◌, [], IfOk};
ghost use Rattle.dm_base.specs.declared.limits.TheConstants.{PENALTY};
ghost use Rattle.dm_gen.specs.Trains.{events_of};
ghost use Rattle.dm_gen.specs.Activities.{activities_of};
ghost use Rattle.dm_network.specs.Build.{IsBuiltFrom};
ghost use Rattle.dm_rows.specs.Rows.{IsSized, start_rows_of};
ghost use Rattle.dm_summary.specs.Inside.Lines.{IsOpened};

use dm_base::{ActRow, EventRow};
use dm_network::{NetFault, Network};
use dm_rows::{Rows, StartFault, start_rows};
use dm_settle::NoTimes;
use dm_table::Table;
use std::alloc::{AllocError, Global};

/// The network that the records of so many trains make, which nothing but want of memory refuses.
pub fn network_of(
    alloc: Global,
    trains: u32,
    events: Vec<EventRow>,
    activities: Vec<ActRow>,
) -> Result<Network, AllocError>
    requires few { trains ≤ 2000 }
    requires events { events.items ≡ events_of trains }
    requires activities { activities.items ≡ activities_of trains }
    ensures { IfOk result (IsBuiltFrom (events_of trains) (activities_of trains)) }
{
    match Network::build(alloc, events, activities) {
        Ok(net) => Ok(net),
        Err(fault) => {
            prove!(matches!(&fault, NetFault::OutOfMemory));
            Err(AllocError)
        }
    }
}

/// The rows without delays, which nothing but want of memory refuses.
pub fn rows_of(alloc: Global, net: &Network) -> Result<Rows, AllocError>
    ensures rows { IfOk result (λ rows. rows ≡ start_rows_of net.now [] []) }
    ensures sized { IfOk result (IsSized net.now) }
{
    match start_rows(alloc, net, &[], &[]) {
        Ok(rows) => Ok(rows),
        Err(fault) => {
            prove!(matches!(&fault, StartFault::OutOfMemory));
            Err(AllocError)
        }
    }
}

/// The table of a day that starts with these rows, which have no cycle.
pub fn table_of<'n>(
    alloc: Global,
    net: &'n Network,
    rows: Rows,
    penalty: u64,
) -> Result<Table<'n>, AllocError>
    requires start { rows ≡ start_rows_of net.now [] [] }
    requires sized { IsSized net.now rows }
    requires penalty { penalty ≤ PENALTY }
    ensures { IfOk result (IsOpened net.now penalty) }
{
    net.reveal();
    match Table::new(alloc, net, rows, penalty) {
        Ok(table) => Ok(table),
        Err(fault) => {
            prove!(matches!(&fault, NoTimes::OutOfMemory));
            Err(AllocError)
        }
    }
}
