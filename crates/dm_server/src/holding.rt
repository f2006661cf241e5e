//! The calls of a table that a pass holds.
ghost use Rattle.std.specs.Prelude.{◌≡◌, ◌+◌, ◌<◌, ◌≤◌, [], length, vec_capacity, IfOk, IfErr, OnErr};
ghost use Rattle.dm_marks.specs.Moved.{ListsMoved};
ghost use Rattle.dm_rows.specs.History.{rows_at};
ghost use Rattle.dm_table.specs.Value.{ListsMarked};
ghost use Rattle.dm_rows.specs.Rows.{IsSized};
ghost use Rattle.dm_rows.specs.Timetable.{IsLeast};
ghost use Rattle.dm_table.specs.Answers.{RefusesTime, RefusesPost};
ghost use Rattle.dm_table.specs.Value.{HasRoomFor, IsTable};
ghost use Rattle.dm_tree.specs.Plans.{chosen};
ghost use Rattle.dm_server.specs.Answers.{base_of, AreMarksAfter, AreTimesAfter, ShowsTime, CostsAfter, RefusesAfter, RefusesAdopt, IsAdoptable, adopts, carries};
ghost use Rattle.dm_server.specs.Inside.Holding.{Gains, Stays};

use crate::kept::Kept;
use dm_base::limits::ENTRIES;
use dm_base::{Cost, EventId, Items, Secs, Steps};
use dm_rows::{At, Decision, Entry, Message, Refusal, Snapshot, free_among};
use dm_settle::Times;
use dm_tree::AdoptRefusal;
use std::alloc::{AllocError, Global};
use std::marker::Brand;
use std::sync::ledger::{Blank, Ledger};

impl<'n> Kept<'n> {
    /// What holds of every table, for a caller's proof. It does nothing.
    pub(crate) fn reveal(&self)
        ensures table { IsTable self.now.table.value }
        ensures sized { IsSized self.now.table.value.network self.now.table.value.rows }
    {
        self.table.reveal();
    }

    /// How many entries there are.
    pub(crate) fn length(&self) -> u32
        ensures { result ≡ length self.now.table.value.history }
    {
        self.table.len()
    }

    /// How many entries there are, and rows equal to those after them.
    pub(crate) fn copy(&self) -> Result<Snapshot, AllocError>
        ensures entry { IfOk result (λ snapshot. snapshot.entry ≡ length self.now.table.value.history) }
        ensures rows { IfOk result (λ snapshot. snapshot.rows ≡ self.now.table.value.rows) }
    {
        self.table.copy()
    }

    /// Enters a message, or says why it is refused after the history.
    pub(crate) fn enter(&mut self, entry: Entry) -> Result<u32, Refusal>
        ensures entered { IfOk result (Gains self.old.table.value self.new.table.value entry) }
        ensures stays { OnErr result (Stays self.old.table.value self.new.table.value) }
        ensures refused { IfErr result (RefusesAfter (base_of self.old.table.value) self.old.table.value.history entry.message) }
    {
        self.reveal();
        match self.table.reserve(&entry.message) {
            Ok(()) => self.post_with::<Brand>(entry, Blank::new(1)),
            Err(AllocError) => Err(Refusal::OutOfMemory),
        }
    }

    /// Enters a message for which there is room, for a ledger that nothing reads.
    fn post_with<L: Ledger>(&mut self, entry: Entry, blank: Blank) -> Result<u32, Refusal>
        requires room { HasRoomFor self.old.table.value entry.message }
        requires name { blank.name ≡ L.name }
        requires parts { blank.parts ≡ L.parts }
        requires has_a_part { 0 < blank.parts }
        ensures entered { IfOk result (Gains self.old.table.value self.new.table.value entry) }
        ensures stays { OnErr result (Stays self.old.table.value self.new.table.value) }
        ensures refused { IfErr result (RefusesPost self.old.table.value.network self.old.table.value.rows
            (length self.old.table.value.history) entry.message) }
    {
        let mut steps = Steps::<L>::new(blank);
        self.table.post(entry, &mut steps)
    }

    /// Enters those of the choices that are free after the history, in room that was made for all of them, or says why that is
    /// refused.
    pub(crate) fn carry(
        &mut self,
        room: Result<Vec<Decision>, AllocError>,
        choices: &[Decision],
        feed: u32,
        line: u32,
    ) -> Result<u32, At<Refusal>>
        requires room { IfOk room (λ v. (v.items ≡ []) × (length choices.now ≤ vec_capacity v)) }
        ensures entered { IfOk result (Gains self.old.table.value self.new.table.value
            (carries (base_of self.old.table.value) self.old.table.value.history choices.now feed line)) }
        ensures stays { OnErr result (Stays self.old.table.value self.new.table.value) }
        ensures here { IfErr result (λ at. at.entry ≡ length self.old.table.value.history) }
        ensures refused { IfErr result (λ at. RefusesAfter (base_of self.old.table.value) self.old.table.value.history
            (carries (base_of self.old.table.value) self.old.table.value.history choices.now feed line).message at.why) }
    {
        self.reveal();
        let entry = self.table.len();
        let Ok(room) = room else {
            return Err(At {
                entry,
                why: Refusal::OutOfMemory,
            });
        };
        let free = free_among(self.table.network(), self.table.rows(), choices, room);
        let message = Message::Adopt(free);
        match self.enter(Entry {
            feed,
            line,
            message,
        }) {
            Ok(n) => Ok(n),
            Err(why) => Err(At { entry, why }),
        }
    }

    /// Adopts the choices of a plan of the rows at an entry, or says why they are not adopted after the history.
    pub(crate) fn adopt(
        &mut self,
        alloc: Global,
        entry: u32,
        choices: &[Decision],
        feed: u32,
        line: u32,
    ) -> Result<u32, AdoptRefusal>
        requires { IsAdoptable (base_of self.old.table.value) self.old.table.value.history (chosen entry choices.now) }
        ensures entered { IfOk result (Gains self.old.table.value self.new.table.value (adopts (chosen entry choices.now) feed line)) }
        ensures number { IfOk result (λ n. n ≡ entry + 1) }
        ensures stays { OnErr result (Stays self.old.table.value self.new.table.value) }
        ensures refused { IfErr result (RefusesAdopt (chosen entry choices.now) self.old.table.value.history) }
    {
        self.table.network().reveal();
        let now = self.table.len();
        if entry < now {
            return Err(AdoptRefusal::Old { now });
        }
        if now == ENTRIES {
            return Err(AdoptRefusal::Full { now });
        }
        let Ok(choices) = Items::from_slice(alloc, choices) else {
            return Err(AdoptRefusal::OutOfMemory);
        };
        let message = Message::Adopt(choices);
        match self.enter(Entry {
            feed,
            line,
            message,
        }) {
            Ok(n) => Ok(n),
            Err(refusal) => Err(AdoptRefusal::want_of_memory(refusal)),
        }
    }

    /// The time of an event after the history.
    pub(crate) fn time(&self, id: EventId) -> Result<Secs, Refusal>
        ensures time { IfOk result (ShowsTime (base_of self.now.table.value) self.now.table.value.history id) }
        ensures refused { IfErr result (RefusesTime self.now.table.value.network id) }
    {
        self.reveal();
        self.table.time(id)
    }

    /// What the rows cost after the history.
    pub(crate) fn cost(&self) -> Cost
        ensures { CostsAfter (base_of self.now.table.value) self.now.table.value.history result }
    {
        self.reveal();
        self.table.cost_now()
    }

    /// Copies the times after the history.
    pub(crate) fn copy_times(&self, into: &mut Times)
        requires { length into.old ≡ length self.now.table.value.network.events }
        ensures { AreTimesAfter (base_of self.now.table.value) self.now.table.value.history into.new }
    {
        self.reveal();
        into.copy_from(self.table.times());
    }

    /// Copies the times after the history, and which events are cancelled then.
    pub(crate) fn copy_shown(&self, into: &mut Times, cancelled: &mut [bool])
        requires size { length into.old ≡ length self.now.table.value.network.events }
        requires flags { length cancelled.old ≡ length self.now.table.value.network.events }
        ensures times { AreTimesAfter (base_of self.now.table.value) self.now.table.value.history into.new }
        ensures flags { AreMarksAfter (base_of self.now.table.value) self.now.table.value.history cancelled.new }
    {
        self.reveal();
        into.copy_from(self.table.times());
        self.table.copy_cancelled(cancelled);
    }

    /// Makes times and marks of cancelled events that are those after the first `shown` entries those after the history, and lists
    /// the events whose times or marks were others.
    pub(crate) fn follow_times(
        &mut self,
        into: &mut Times,
        cancelled: &mut [bool],
        shown: u32,
        listed: &mut Vec<usize>,
    )
        requires shown { shown ≤ length self.old.table.value.history }
        requires times { IsLeast self.old.table.value.network (rows_at self.old.table.value.network self.old.table.value.start
            self.old.table.value.history shown) into.old }
        requires flags { cancelled.old ≡ (rows_at self.old.table.value.network self.old.table.value.start
            self.old.table.value.history shown).cancelled }
        requires room { length self.old.table.value.network.events ≤ vec_capacity listed.old }
        ensures same { self.new.table.value ≡ self.old.table.value }
        ensures times { AreTimesAfter (base_of self.old.table.value) self.old.table.value.history into.new }
        ensures flags { AreMarksAfter (base_of self.old.table.value) self.old.table.value.history cancelled.new }
        ensures listed { ListsMoved into.old into.new listed.new.items }
        ensures marked { ListsMarked cancelled.old cancelled.new listed.new.items }
        ensures room { vec_capacity listed.old ≤ vec_capacity listed.new }
    {
        self.reveal();
        self.table.follow_times(into, cancelled, shown, listed);
    }
}
