//! Plans of a window, in print.
ghost use Rattle.std.specs.Prelude.{◌≤◌, IfErr, IfOk};
ghost use Rattle.dm_outlook.specs.Searching.{SearchesWindows};
ghost use Rattle.dm_outlook.specs.Texts.{outlook_text};
ghost use Rattle.dm_outside.specs.Printing.{Puts};
ghost use Rattle.dm_commands.specs.Ends.{EndsAs};
ghost use Rattle.dm_stretch.specs.Held.{MakesNoChoice};
ghost use Rattle.dm_commands.specs.Windowed.{IsWindowAsked, no_choice_line, unknown_entry_line};
ghost use Rattle.dm_commands.specs.Inside.Asking.{EndsOutlook};
ghost use Rattle.dm_commands.specs.Inside.Stages.{IsWindowWithin};

use crate::searching::search_for;
use crate::status::Status;
use crate::verdicts::put_number;
use dm_desk::PlanRequest;
use dm_network::Network;
use dm_outlook::{Outlook, outlook_of, print_outlook};
use dm_outside::{Sink, WriteFault};
use dm_parts::AnyPlan;
use dm_stretch::{HeldFault, Window, held_choices};
use dm_table::Table;
use dm_words::WindowWords;
use std::alloc::{AllocError, Global};

/// Prints a plan of a window at the entry that is named, and what becomes of it at the last, or at the last where none is named;
/// or says which entry there is not, or which activity makes no choice that could be held.
pub fn end_window<W: Fn(&PlanRequest<'_>, &Window) -> Result<AnyPlan, AllocError>, K: Sink>(
    alloc: Global,
    search_window: &W,
    table: &Table<'_>,
    asked: &WindowWords<'_>,
    out: &mut K,
) -> Status
    requires windows { SearchesWindows (W.pre search_window.now) (W.post search_window.now) }
    requires within { IsWindowWithin asked.now }
    ensures ends { EndsOutlook K.taken K.faults asked.now table.now out.old out.new result }
    ensures later { K.faults out.old ≤ K.faults out.new }
{
    table.reveal();
    if let Some(at) = asked.at {
        if at > table.len() {
            return end_unknown_entry(at, out);
        }
    }
    let window = match window_of(alloc, table.network(), asked) {
        Ok(window) => window,
        Err(HeldFault::NoChoice(id)) => return end_no_choice(id, out),
        Err(HeldFault::OutOfMemory) => return Status::NoMemory,
    };
    let search = search_for(asked.solve, asked.budget);
    match outlook_of(
        alloc,
        search_window,
        table,
        &window,
        search,
        asked.at,
        asked.minimal,
    ) {
        Ok(outlook) => end_outlook(&window, table.len(), &outlook, out),
        Err(AllocError) => Status::NoMemory,
    }
}

/// The window that is asked for, with the choices that are held.
fn window_of(alloc: Global, net: &Network, asked: &WindowWords<'_>) -> Result<Window, HeldFault>
    ensures window { IfOk result (IsWindowAsked net.now asked.now) }
    ensures refused { IfErr result (MakesNoChoice net.now asked.now.held) }
{
    let Ok(ids) = asked.held.to_vec(alloc) else {
        return Err(HeldFault::OutOfMemory);
    };
    match held_choices(alloc, net, ids.as_slice()) {
        Ok(held) => Ok(Window {
            from: asked.from,
            to: asked.to,
            held,
        }),
        Err(fault) => Err(fault),
    }
}

/// Says that an activity makes no choice.
fn end_no_choice<K: Sink>(id: u32, out: &mut K) -> Status
    ensures ends { EndsAs K.taken K.faults out.old out.new (no_choice_line id) Status.Refused result }
    ensures later { K.faults out.old ≤ K.faults out.new }
{
    match put_no_choice(out, id) {
        Ok(()) => Status::Refused,
        Err(WriteFault) => Status::WriteFault,
    }
}

#[tactic(auto, unfolding(crate::specs::Windowed::no_choice_line))]
fn put_no_choice<K: Sink>(out: &mut K, id: u32) -> Result<(), WriteFault>
    ensures { Puts K.taken K.faults out.old out.new result (no_choice_line id) }
{
    put_number(out, "refused window held ", id as u128)
}

/// Says that there are fewer entries.
fn end_unknown_entry<K: Sink>(at: u32, out: &mut K) -> Status
    ensures ends { EndsAs K.taken K.faults out.old out.new (unknown_entry_line at) Status.Refused result }
    ensures later { K.faults out.old ≤ K.faults out.new }
{
    match put_unknown_entry(out, at) {
        Ok(()) => Status::Refused,
        Err(WriteFault) => Status::WriteFault,
    }
}

#[tactic(auto, unfolding(crate::specs::Windowed::unknown_entry_line))]
fn put_unknown_entry<K: Sink>(out: &mut K, at: u32) -> Result<(), WriteFault>
    ensures { Puts K.taken K.faults out.old out.new result (unknown_entry_line at) }
{
    put_number(out, "refused entry ", at as u128)
}

/// Prints a plan, with the number of all entries.
fn end_outlook<K: Sink>(window: &Window, last: u32, outlook: &Outlook, out: &mut K) -> Status
    ensures ends { EndsAs K.taken K.faults out.old out.new (outlook_text window.now last outlook.now) Status.Ok result }
    ensures later { K.faults out.old ≤ K.faults out.new }
{
    match print_outlook(window, last, outlook, out) {
        Ok(()) => Status::Ok,
        Err(WriteFault) => Status::WriteFault,
    }
}
