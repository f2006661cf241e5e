//! The table, its calls and its readers.
ghost use Rattle.std.specs.Prelude.{◌≡◌, ◌+◌, ◌-◌, ◌^◌, ◌<◌, ◌≤◌, [], ◌∷◌, ◌++◌, max, length, vec_capacity, Some, OnOk, OnErr, IfOk, IfErr};
ghost use Rattle.dm_base.specs.declared.limits.TheConstants.{PENALTY, ENTRIES};
ghost use Rattle.dm_marks.specs.Moved.{ListsMoved};
ghost use Rattle.dm_table.specs.Value.{ListsMarked};
ghost use Rattle.dm_rows.specs.Rows.{IsSized};
ghost use Rattle.dm_rows.specs.Cost.{cost_of};
ghost use Rattle.dm_rows.specs.History.{rows_at};
ghost use Rattle.dm_rows.specs.Refuse.{Refuses, RefusesNothing};
ghost use Rattle.dm_rows.specs.Resolve.{after};
ghost use Rattle.dm_rows.specs.Timetable.{IsLeast};
ghost use Rattle.dm_times.specs.Faults.{RefusesTimes};
ghost use Rattle.dm_table.specs.Value.{IsTable, HasRoomFor, decisions_in};
ghost use Rattle.dm_table.specs.Answers.{RefusesPost, RefusesTime, time_of};

use crate::entering::enter;
use crate::following::{Moment, copy_cancelled, follow};
use dm_base::{Cost, EventId, Secs, Steps};
use dm_history::History;
use dm_network::Network;
use dm_propagate::Engine;
use dm_rows::{Entry, Flip, Message, Refusal, Rows, Snapshot};
use dm_settle::{NoTimes, Times};
use std::alloc::{AllocError, Global};
use std::marker::Model;
use std::sync::ledger::Ledger;

/// The entries of a day over one network, its rows and their least timetable.
pub struct Table<'n> {
    alloc: Global,
    net: &'n Network,
    start: Rows,
    penalty: u64,
    history: History,
    engine: Engine,

    /// The engine has noted the events whose times, or whether they are cancelled, are not as after so many first entries.
    since: u32,

    /// Room for the decisions of an adopted list. Between calls it is empty.
    flips: Vec<Flip>,

    /// For how many decisions there is room at least.
    room: usize,
}

impl Drop for Table<'_> {
    fn drop(self) {
        let Table {
            alloc: _,
            net: _,
            start: _,
            penalty: _,
            history: _,
            engine: _,
            since: _,
            flips: _,
            room: _,
        } = self;
    }
}

impl<'n> Model for Table<'n> {
    ghost use Rattle.std.specs.Prelude.{◌≡◌, ◌≤◌, [], vec_capacity};
    ghost use Rattle.dm_propagate.specs.Engine.{times_of};
    ghost use Rattle.dm_table.specs.Value.{TableValue};
    ghost use Rattle.dm_table.specs.Inside.Keeping.{IsKept};
    ghost use Rattle.dm_table.specs.Inside.Noted.{AreNoted};

    ghost Value = { TableValue };

    ghost view = { λ t. record {
      network = t.net.now;
      start = t.start;
      penalty = t.penalty;
      history = t.history.entries;
      rows = t.engine.rows;
      times = times_of t.engine;
      spare_entries = t.history.spare;
      spare_decisions = t.room;
    } };

    ghost invariant = { λ t. IsKept t.net.now t.start t.penalty t.history.entries t.engine
        × AreNoted t.net.now t.start t.history.entries t.since t.engine.moved.flags t.engine.rows (times_of t.engine)
        × (t.flips.items ≡ []) × (t.room ≤ vec_capacity t.flips) };
}

impl<'n> Table<'n> {
    /// The table of a day that starts with these rows, at a penalty in seconds for each passenger, at most 1,000,000. It has
    /// no entries, and room for none. [`NoTimes::Cycle`] comes exactly where the rows have a cycle, unless memory is short
    /// first: then [`NoTimes::OutOfMemory`].
    pub fn new(
        alloc: Global,
        net: &'n Network,
        start: Rows,
        penalty: u64,
    ) -> Result<Table<'n>, NoTimes>
        requires sized { IsSized net.now start }
        requires within { penalty ≤ PENALTY }
        ensures network { IfOk result (λ table. table.network ≡ net.now) }
        ensures start { IfOk result (λ table. table.start ≡ start) }
        ensures penalty { IfOk result (λ table. table.penalty ≡ penalty) }
        ensures history { IfOk result (λ table. table.history ≡ []) }
        ensures rows { IfOk result (λ table. table.rows ≡ start) }
        ensures table { IfOk result IsTable }
        ensures refused { IfErr result (RefusesTimes net.now start) }
    {
        let rows = start.copy()?;
        let engine = match Engine::new(alloc, net, rows) {
            Ok(engine) => engine,
            Err(no_times) => return Err(no_times),
        };
        Ok(Table {
            alloc,
            net,
            start,
            penalty,
            history: History::new(alloc),
            engine,
            since: 0,
            flips: Vec::new(alloc),
            room: 0,
        })
    }

    /// What holds of every table, for a caller's proof. It does nothing.
    pub fn reveal(&self)
        ensures table { IsTable self.now }
        ensures sized { IsSized self.now.network self.now.rows }
    {
        self.net.reveal();
    }

    /// Makes room for an entry with this message. Where there is not enough memory, all is as before.
    pub fn reserve(&mut self, message: &Message) -> Result<(), AllocError>
        ensures ok { OnOk result (self.new ≡ record self.old {
          spare_entries = max 1 self.old.spare_entries;
          spare_decisions = max (decisions_in message.now) self.old.spare_decisions;
        }) }
        ensures err { OnErr result (self.new ≡ self.old) }
    {
        let want = decisions_in(message);
        self.flips.reserve(want)?;
        self.history.reserve()?;
        self.room = self.room.max(want);
        Ok(())
    }

    /// Enters a message, for which there is room, and gives the number of its entry, from 1. It is refused exactly for the
    /// first cause that applies: then the entry is given up, and the table is as before. [`Refusal::OutOfMemory`] comes only
    /// where the rows after the message have a cycle, whose list is copied; else it takes no memory.
    pub fn post<L: Ledger>(&mut self, entry: Entry, steps: &mut Steps<L>) -> Result<u32, Refusal>
        requires { HasRoomFor self.old entry.message }
        ensures entered { OnOk result (self.new ≡ record self.old {
          history = self.old.history ++ entry ∷ [];
          rows = after self.old.network self.old.rows entry.message;
          times = self.new.times;
          spare_entries = self.old.spare_entries - 1;
        }) }
        ensures number { IfOk result (λ n. n ≡ length self.new.history) }
        ensures accepted { OnOk result (RefusesNothing (Refuses self.old.network self.old.rows (length self.old.history) entry.message)) }
        ensures table { OnOk result (IsTable self.new) }
        ensures unchanged { OnErr result (self.new ≡ self.old) }
        ensures refused { IfErr result (RefusesPost self.old.network self.old.rows (length self.old.history) entry.message) }
    {
        self.net.reveal();
        let entries = self.history.len();
        let entered = enter(
            self.alloc,
            self.net,
            &mut self.engine,
            &mut self.flips,
            entries,
            &entry.message,
            steps,
        );
        match entered {
            Ok(()) => {
                self.history.push(entry);
                Ok(entries + 1)
            }
            Err(refusal) => Err(refusal),
        }
    }

    /// The time of an event, in seconds. [`Refusal::UnknownEvent`] comes exactly where the id is of none.
    pub fn time(&self, id: EventId) -> Result<Secs, Refusal>
        ensures time { IfOk result (λ time. time_of self.now.network self.now.times id ≡ Some time) }
        ensures refused { IfErr result (RefusesTime self.now.network id) }
    {
        match self.net.place_of(id) {
            Some(i) => Ok(self.engine.times().time(i)),
            None => Err(Refusal::UnknownEvent(id)),
        }
    }

    /// What the times cost, in thousandths of passenger seconds. It takes no memory.
    pub fn cost_now(&self) -> Cost
        ensures cost { result ≡ cost_of self.now.network self.now.rows self.now.times self.now.penalty }
        ensures limit { result < 2 ^ 100 }
    {
        self.engine.cost(self.net, self.penalty)
    }

    /// How many entries there are.
    pub fn len(&self) -> u32
        ensures count { result ≡ length self.now.history }
        ensures few { result ≤ ENTRIES }
    {
        self.history.len()
    }

    /// The least timetable of the rows.
    pub fn times(&self) -> &Times
        ensures { result.now ≡ self.now.times }
    {
        self.engine.times()
    }

    /// Copies which events are cancelled after all entries.
    pub fn copy_cancelled(&self, into: &mut [bool])
        requires { length into.old ≡ length self.now.network.events }
        ensures { into.new ≡ self.now.rows.cancelled }
    {
        self.reveal();
        copy_cancelled(self.engine.rows(), into);
    }

    /// Makes times that are the least timetable after the first `shown` entries the one after all entries, and the marks of events
    /// that were cancelled then those of events that are cancelled now. It lists the events whose times or marks were others, in
    /// room for all events. It takes no memory. Where times were followed last when there were so many entries, it looks at the
    /// events whose times or marks have changed since then, and at no others.
    pub fn follow_times(
        &mut self,
        into: &mut Times,
        cancelled: &mut [bool],
        shown: u32,
        listed: &mut Vec<usize>,
    )
        requires shown { shown ≤ length self.old.history }
        requires times { IsLeast self.old.network (rows_at self.old.network self.old.start self.old.history shown) into.old }
        requires flags { cancelled.old ≡ (rows_at self.old.network self.old.start self.old.history shown).cancelled }
        requires room { length self.old.network.events ≤ vec_capacity listed.old }
        ensures same { self.new ≡ self.old }
        ensures times { into.new ≡ self.old.times }
        ensures flags { cancelled.new ≡ self.old.rows.cancelled }
        ensures listed { ListsMoved into.old into.new listed.new.items }
        ensures marked { ListsMarked cancelled.old cancelled.new listed.new.items }
        ensures room { vec_capacity listed.old ≤ vec_capacity listed.new }
    {
        self.net.reveal();
        self.engine.moved().reveal();
        listed.clear();
        follow(
            Moment {
                times: self.engine.times(),
                rows: self.engine.rows(),
            },
            self.engine.moved().places(),
            shown == self.since,
            into,
            cancelled,
            listed,
        );
        let now = self.history.len();
        self.engine.forget_moved();
        self.since = now;
    }

    /// The rows after all entries.
    pub fn rows(&self) -> &Rows
        ensures { result.now ≡ self.now.rows }
    {
        self.engine.rows()
    }

    /// The entries.
    pub fn history(&self) -> &History
        ensures { result.now.entries ≡ self.now.history }
    {
        &self.history
    }

    /// The rows at the start.
    pub fn start(&self) -> &Rows
        ensures { result.now ≡ self.now.start }
    {
        &self.start
    }

    /// The penalty, in seconds for each passenger.
    pub fn penalty(&self) -> u64
        ensures { result ≡ self.now.penalty }
    {
        self.penalty
    }

    /// The network.
    pub fn network(&self) -> &'n Network
        ensures { result.now ≡ self.now.network }
    {
        self.net
    }

    /// How many entries there are, and equal rows.
    pub fn copy(&self) -> Result<Snapshot, AllocError>
        ensures entry { IfOk result (λ snapshot. snapshot.entry ≡ length self.now.history) }
        ensures rows { IfOk result (λ snapshot. snapshot.rows ≡ self.now.rows) }
    {
        let rows = self.engine.rows().copy()?;
        Ok(Snapshot {
            entry: self.history.len(),
            rows,
        })
    }
}

fn decisions_in(message: &Message) -> usize
    ensures { result ≡ decisions_in message.now }
{
    match message {
        Message::Adopt(decisions) => decisions.as_slice().len(),
        _ => 0,
    }
}
