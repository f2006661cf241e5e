//! What the files of a folder make: the network, and the rows before any message.
ghost use Rattle.std.specs.Prelude.{Ok, IfOk, IfErr};
ghost use Rattle.dm_rows.specs.Rows.{IsSized};
ghost use Rattle.dm_rows.specs.StartFaults.{DelaysAreWithin};
ghost use Rattle.dm_words.specs.Asked.{files_of};
ghost use Rattle.dm_input.specs.Input.{NetworkAnswers, StartAnswers, OpeningAnswer};
ghost use Rattle.dm_input.specs.Stops.{IsKept, StopsOpening, opening_in};
ghost use Rattle.dm_input.specs.Inside.Stages.{EventsFit, ActivitiesFit, StopsMaking};

use crate::flaws::{InputFlaw, InputStop};
use crate::reading::read_files;
use dm_base::{ActRow, DelayRow, EventRow};
use dm_network::{NetFault, Network};
use dm_outside::Shelf;
use dm_rows::{Rows, StartFault, start_rows_without};
use dm_words::FileWords;
use std::alloc::Global;

/// The network that the records make.
fn make_network(
    alloc: Global,
    events: Vec<EventRow>,
    activities: Vec<ActRow>,
) -> Result<Network, InputStop>
    requires events { EventsFit events.items }
    requires activities { ActivitiesFit activities.items }
    ensures made { IfOk result (λ net. NetworkAnswers events.items activities.items (Ok net)) }
    ensures stops { IfErr result (StopsMaking InputFlaw.Network (NetworkAnswers events.items activities.items)) }
{
    match Network::build(alloc, events, activities) {
        Ok(net) => Ok(net),
        Err(NetFault::OutOfMemory) => Err(InputStop::NoMemory),
        Err(fault) => Err(InputStop::Refused(InputFlaw::Network(fault))),
    }
}

/// The start rows that the delays and the ids of the cancelled events make.
fn make_rows(
    alloc: Global,
    net: &Network,
    event_delays: &[DelayRow],
    activity_delays: &[DelayRow],
    cancelled: &[u32],
) -> Result<Rows, InputStop>
    requires events { DelaysAreWithin event_delays.now }
    requires activities { DelaysAreWithin activity_delays.now }
    ensures made { IfOk result (λ rows. StartAnswers net.now event_delays.now activity_delays.now cancelled.now (Ok rows)) }
    ensures sized { IfOk result (IsSized net.now) }
    ensures stops { IfErr result (StopsMaking InputFlaw.Start (StartAnswers net.now event_delays.now activity_delays.now cancelled.now)) }
{
    match start_rows_without(alloc, net, event_delays, activity_delays, cancelled) {
        Ok(rows) => Ok(rows),
        Err(StartFault::OutOfMemory) => Err(InputStop::NoMemory),
        Err(fault) => Err(InputStop::Refused(InputFlaw::Start(fault))),
    }
}

/// A network and its rows before any message.
#[derive(Drop)]
pub struct Opened {
    pub net: Network,
    pub rows: Rows,
}

/// Opens, reads and checks the files of a folder one after the other, then makes the network of them, and then the start
/// rows. The first refusal in this order is answered, or the first file that could not be read.
pub fn read_opening<H: Shelf>(
    alloc: Global,
    shelf: &mut H,
    words: &FileWords<'_>,
) -> Result<Opened, InputStop>
    ensures kept { IsKept H.files H.is_sound shelf.old shelf.new }
    ensures opening { IfOk result (λ opened. OpeningAnswer (H.files shelf.old) (files_of words.now) (Ok (opening_in opened))) }
    ensures sized { IfOk result (λ opened. IsSized opened.net opened.rows) }
    ensures stops { IfErr result (StopsOpening (H.files shelf.old) (H.is_sound shelf.old) (files_of words.now)) }
{
    let files = read_files(alloc, shelf, words)?;
    let net = make_network(alloc, files.events, files.activities)?;
    let rows = make_rows(
        alloc,
        &net,
        files.event_delays.as_slice(),
        files.activity_delays.as_slice(),
        files.cancelled.as_slice(),
    )?;
    Ok(Opened { net, rows })
}
