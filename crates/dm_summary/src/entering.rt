//! The lines of a generated day's feed, entered in a table.
ghost use Rattle.std.specs.Prelude.{◌≡◌, ◌<◌, ◌≤◌, [], length, All, OnOk};
ghost use Rattle.dm_feed.specs.declared.grammar.Line.TheVariants.{Say};
ghost use Rattle.dm_gen.specs.Sound.{DelaysEventOf};
ghost use Rattle.dm_table.specs.Value.{HasRoomFor};
ghost use Rattle.dm_summary.specs.Inside.Lines.{Gains, HasEntered, IsDelay, NonePassed};

use dm_base::Steps;
use dm_feed::Line;
use dm_rows::{Entry, Message};
use dm_table::Table;
use std::alloc::AllocError;
use std::marker::Brand;
use std::sync::ledger::{Blank, Ledger};

/// Enters lines that delay events in a table that has no entry, where nothing refuses them.
pub fn enter_lines(table: &mut Table<'_>, lines: &[Line]) -> Result<(), AllocError>
    requires none { table.old.history ≡ [] }
    requires none_passed { NonePassed table.old.rows }
    requires few { length lines.now ≤ 500 }
    requires delays { All (DelaysEventOf table.old.network) lines.now }
    ensures { OnOk result (HasEntered table.old lines.now table.new) }
{
    for (place, line) in lines.iter().enumerate() {
        enter_line(table, place as u32 + 1, line)?;
    }
    Ok(())
}

/// Enters a line that delays an event.
fn enter_line(table: &mut Table<'_>, number: u32, line: &Line) -> Result<(), AllocError>
    requires none_passed { NonePassed table.old.rows }
    requires few { length table.old.history < 500 }
    requires delays { DelaysEventOf table.old.network line.now }
    ensures { OnOk result (Gains line.now table.old table.new) }
{
    let message = message_of(line);
    table.reserve(&message)?;
    let entry = Entry {
        feed: 1,
        line: number,
        message,
    };
    post_with::<Brand>(table, entry, Blank::new(1));
    Ok(())
}

/// Enters a delay of an event, for which there is room, for a ledger that nothing reads.
fn post_with<L: Ledger>(table: &mut Table<'_>, entry: Entry, blank: Blank)
    requires room { HasRoomFor table.old entry.message }
    requires none_passed { NonePassed table.old.rows }
    requires few { length table.old.history < 500 }
    requires delays { DelaysEventOf table.old.network (Line.Say entry.message) }
    requires name { blank.name ≡ L.name }
    requires parts { blank.parts ≡ L.parts }
    requires has_a_part { 0 < blank.parts }
    ensures { Gains (Line.Say entry.message) table.old table.new }
{
    table.reveal();
    let mut steps = Steps::<L>::new(blank);
    match table.post(entry, &mut steps) {
        Ok(_) => {}
        Err(_) => unreachable!(),
    }
}

/// The message of a line that delays an event.
fn message_of(line: &Line) -> Message
    requires { IsDelay line.now }
    ensures { Line.Say result ≡ line.now }
{
    let Line::Say(message) = line else {
        unreachable!()
    };
    let Message::DelayEvent(event, delay) = message else {
        unreachable!()
    };
    Message::DelayEvent(*event, *delay)
}
