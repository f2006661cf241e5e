//! Boards that show the times of a table, and which of its events are cancelled.
ghost use Rattle.std.specs.Prelude.{◌≡◌, ◌<◌, ◌≤◌, vec_len, IfOk};
ghost use Rattle.dm_base.specs.declared.limits.TheConstants.{BOARDS};
ghost use Rattle.dm_display.specs.Displays.{IsFor, HasShownNothing, HasEarlierTimes, Shows};

use dm_network::Network;
use dm_outside::Board;
use dm_publish::Publisher;
use dm_settle::Times;
use dm_table::Table;
use std::alloc::{AllocError, Global};

/// What boards are shown: the publisher, and the times of one moment with the marks of the events that are cancelled then.
#[derive(Drop)]
pub struct Display<'n> {
    pub net: &'n Network,
    pub publisher: Publisher,

    /// The times that boards were shown last, where there are boards.
    pub times: Times,

    /// Which events they were shown as cancelled then, by place.
    pub cancelled: Vec<bool>,

    /// How many entries there were then.
    pub entries: u32,

    /// Room for the places of events whose times or marks have changed since.
    pub listed: Vec<usize>,
}

impl<'n> Display<'n> {
    /// All that so many boards of a network need, at most 64. `Err` is want of memory alone.
    pub fn new(alloc: Global, net: &'n Network, boards: usize) -> Result<Display<'n>, AllocError>
        requires few { boards ≤ BOARDS }
        ensures fits { IfOk result (IsFor net.now boards) }
        ensures none { IfOk result HasShownNothing }
    {
        Ok(Display {
            net,
            publisher: Publisher::new(alloc, net, boards)?,
            times: Times::room(alloc, net)?,
            cancelled: vec![in alloc; false; net.events()]?,
            entries: 0,
            listed: Vec::with_capacity(alloc, net.events())?,
        })
    }

    /// Shows boards the times of a table: boards that this display has shown none, or that still show the times that it showed them
    /// last. It takes no memory.
    pub fn show(&mut self, table: &Table<'_>, boards: &mut Vec<Box<dyn Board>>)
        requires fits { IsFor table.now.network (vec_len boards.old) self.old }
        ensures { Shows place times flags faults is_sound table.now self.old self.new boards.old.items boards.new.items }
    {
        table.reveal();
        if boards.is_empty() {
            return;
        }
        self.times.copy_from(table.times());
        table.copy_cancelled(&mut self.cancelled);
        let entries = table.len();
        self.entries = entries;
        let _dropped = self
            .publisher
            .publish(self.net, &self.times, &self.cancelled, entries, boards);
    }

    /// The same of boards that nobody else has shown anything since they were shown times last: they are asked only for events whose
    /// times or marks have changed.
    pub fn show_growth(&mut self, table: &mut Table<'_>, boards: &mut Vec<Box<dyn Board>>)
        requires fits { IsFor table.old.network (vec_len boards.old) self.old }
        requires has { 0 < vec_len boards.old → HasEarlierTimes table.old self.old }
        ensures same { table.new ≡ table.old }
        ensures shows { Shows place times flags faults is_sound table.old self.old self.new boards.old.items boards.new.items }
    {
        table.reveal();
        if boards.is_empty() {
            return;
        }
        table.follow_times(
            &mut self.times,
            &mut self.cancelled,
            self.entries,
            &mut self.listed,
        );
        let entries = table.len();
        self.entries = entries;
        let _dropped = self.publisher.publish_listed(
            self.net,
            &self.times,
            &self.cancelled,
            &self.listed,
            entries,
            boards,
        );
    }

    /// The publisher, with the notes of boards whose show has failed.
    pub fn into_publisher(self) -> Publisher
        ensures { result ≡ self.entry.publisher }
    {
        let Display {
            net: _,
            publisher,
            times: _,
            cancelled: _,
            entries: _,
            listed: _,
        } = self;
        publisher
    }
}
