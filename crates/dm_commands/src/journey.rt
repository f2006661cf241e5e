//! Journeys of passengers, in print.
ghost use Rattle.std.specs.Prelude.{◌<◌, ◌≤◌, length};
ghost use Rattle.dm_outside.specs.Printing.{Prints, Puts};
ghost use Rattle.dm_commands.specs.Ends.{EndsAs};
ghost use Rattle.dm_commands.specs.Travelled.{journey_text, journeys_text, step_text};
ghost use Rattle.dm_commands.specs.Inside.Asking.{AreWalksIn, EndsTravelled, IsWalkIn};

use crate::status::Status;
use dm_base::StopId;
use dm_journey::{Journey, journeys};
use dm_network::Network;
use dm_outside::{Page, Piece, Sink, WriteFault};
use dm_table::Table;
use dm_words::JourneyWords;
use std::alloc::{AllocError, Global};

/// Prints the journeys that are asked for, in the times after all entries.
pub fn end_journeys<K: Sink>(
    alloc: Global,
    table: &Table<'_>,
    asked: JourneyWords,
    out: &mut K,
) -> Status
    requires few { asked.changes ≤ 8 }
    ensures ends { EndsTravelled K.taken K.faults asked table.now out.old out.new result }
    ensures later { K.faults out.old ≤ K.faults out.new }
{
    table.reveal();
    let found = journeys(
        alloc,
        table.network(),
        table.rows(),
        table.times(),
        StopId(asked.from),
        StopId(asked.to),
        asked.after,
        asked.changes,
    );
    match found {
        Ok(found) => end_found(table.network(), &found, out),
        Err(AllocError) => Status::NoMemory,
    }
}

/// Prints journeys that were found.
fn end_found<K: Sink>(net: &Network, found: &[Journey], out: &mut K) -> Status
    requires { AreWalksIn net.now found.now }
    ensures ends { EndsAs K.taken K.faults out.old out.new (journeys_text net.now found.now) Status.Ok result }
    ensures later { K.faults out.old ≤ K.faults out.new }
{
    match put_journeys(out, net, found) {
        Ok(()) => Status::Ok,
        Err(WriteFault) => Status::WriteFault,
    }
}

fn put_journeys<K: Sink>(
    sink: &mut K,
    net: &Network,
    journeys: &[Journey],
) -> Result<(), WriteFault>
    requires { AreWalksIn net.now journeys.now }
    ensures { Puts K.taken K.faults sink.old sink.new result (journeys_text net.now journeys.now) }
{
    let mut page = Page::new();
    let Ok(()) = print_journeys(sink, &mut page, net, journeys) else {
        return Err(WriteFault);
    };
    page.finish(sink)
}

#[tactic(auto, unfolding(crate::specs::Travelled::journeys_text))]
fn print_journeys<K: Sink>(
    sink: &mut K,
    page: &mut Page,
    net: &Network,
    journeys: &[Journey],
) -> Result<(), WriteFault>
    requires { AreWalksIn net.now journeys.now }
    ensures { Prints K.taken K.faults sink.old sink.new page.old page.new result (journeys_text net.now journeys.now) }
{
    let Ok(()) = page.put(
        sink,
        &[
            Piece::Text("journeys "),
            Piece::Number(journeys.len() as u128),
            Piece::Text("\n"),
        ],
    ) else {
        return Err(WriteFault);
    };
    for journey in journeys {
        let Ok(()) = print_journey(sink, page, net, journey) else {
            return Err(WriteFault);
        };
    }
    Ok(())
}

/// Prints a journey, with the ids of its activities.
#[tactic(auto, unfolding(crate::specs::Travelled::journey_text))]
fn print_journey<K: Sink>(
    sink: &mut K,
    page: &mut Page,
    net: &Network,
    journey: &Journey,
) -> Result<(), WriteFault>
    requires { IsWalkIn net.now journey.now.walk }
    ensures { Prints K.taken K.faults sink.old sink.new page.old page.new result (journey_text net.now journey.now) }
{
    let walk = journey.walk.as_slice();
    let Ok(()) = page.put(
        sink,
        &[
            Piece::Text("journey arrival "),
            Piece::Number(journey.arrival as u128),
            Piece::Text(" changes "),
            Piece::Number(journey.changes as u128),
            Piece::Text(" walk"),
        ],
    ) else {
        return Err(WriteFault);
    };
    for a in walk {
        let Ok(()) = print_step(sink, page, net, *a) else {
            return Err(WriteFault);
        };
    }
    page.put(sink, &[Piece::Text("\n")])
}

#[tactic(auto, unfolding(crate::specs::Travelled::step_text))]
fn print_step<K: Sink>(
    sink: &mut K,
    page: &mut Page,
    net: &Network,
    a: usize,
) -> Result<(), WriteFault>
    requires { a < length net.now.activities }
    ensures { Prints K.taken K.faults sink.old sink.new page.old page.new result (step_text net.now a) }
{
    let id = net.activity(a).id;
    page.put(sink, &[Piece::Text(" "), Piece::Number(id.0 as u128)])
}
