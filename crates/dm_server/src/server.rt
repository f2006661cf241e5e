//! The server, its calls and its passes.
ghost use Rattle.std.specs.Prelude.{◌≡◌, ◌+◌, ◌-◌, ◌<◌, ◌≤◌, false, [], ◌++◌, length, vec_capacity, Some, IfOk, IfErr, OnErr, OnOk};
ghost use mathlib.Core.List.{IsPrefix};
ghost use Rattle.std.specs.Option.{ForSome, IsSomeAnd};
ghost use Rattle.dm_base.specs.declared.limits.TheConstants.{PENALTY};
ghost use Rattle.dm_marks.specs.Moved.{ListsMoved};
ghost use Rattle.dm_rows.specs.Active.{HasNoCycle};
ghost use Rattle.dm_rows.specs.History.{rows_at, IsLegal};
ghost use Rattle.dm_table.specs.Value.{ListsMarked};
ghost use Rattle.dm_rows.specs.Rows.{IsSized};
ghost use Rattle.dm_rows.specs.Timetable.{IsLeast};
ghost use Rattle.dm_table.specs.Answers.{RefusesTime};
ghost use Rattle.dm_table.specs.Value.{IsTable};
ghost use Rattle.dm_times.specs.Faults.{RefusesTimes};
ghost use Rattle.dm_turn.specs.Passes.{longer, AreEntriesOf, AreAllAbove};
ghost use Rattle.dm_tree.specs.Plans.{chosen};
ghost use Rattle.dm_server.specs.Answers.{base_of, rows_after, AreMarksAfter, AreTimesAfter, ShowsTime, CostsAfter, RefusesAfter, RefusesAdopt, IsAdoptable, adopts, carries, HasLooked, HasEntered, HasEnteredAfter};

use crate::kept::Kept;
use dm_base::{Cost, EventId, Secs};
use dm_network::Network;
use dm_rows::{At, Decision, Entry, Refusal, Rows, Snapshot};
use dm_settle::{NoTimes, Times};
use dm_table::Table;
use dm_tree::AdoptRefusal;
use dm_turn::{Pass, Turn};
use std::alloc::{AllocError, Global};
use std::marker::Model;
use std::sync::Wait;

/// A table that is handed to one pass after another.
///
/// Each call that takes a pass needs an idle one of this server, and leaves it idle.
#[derive(Drop)]
pub struct Server<'n> {
    alloc: Global,
    turn: Turn<Kept<'n>>,
}

impl<'n> Model for Server<'n> {
    ghost use Rattle.dm_turn.specs.Passes.{TurnValue};

    ghost Value = { TurnValue };

    ghost view = { λ server. server.turn };
}

impl<'n> Server<'n> {
    /// The server of a day that starts with these rows, at a penalty in seconds for each passenger, at most 1,000,000, and
    /// its first pass, which has all the seats. [`NoTimes::Cycle`] comes exactly where the rows have a cycle, unless memory
    /// is short first: then [`NoTimes::OutOfMemory`].
    pub fn new(
        alloc: Global,
        net: &'n Network,
        start: Rows,
        penalty: u64,
        seats: u32,
    ) -> Result<(Server<'n>, Pass<Kept<'n>>), NoTimes>
        requires sized { IsSized net.now start }
        requires within { penalty ≤ PENALTY }
        requires seats { 1 ≤ seats }
        ensures server { IfOk result (λ r. r.0.seats ≡ seats) }
        ensures pass { IfOk result (λ r. r.1 ≡ record {
          turn = r.0.id;
          base = Some (record { network = net.now; start = start; penalty = penalty });
          opening = 0;
          holds = false;
          room = seats;
          seen = [];
          mine = [];
        }) }
        ensures no_cycle { OnOk result (HasNoCycle net.now start) }
        ensures refused { IfErr result (RefusesTimes net.now start) }
    {
        let table = match Table::new(alloc, net, start, penalty) {
            Ok(table) => table,
            Err(no_times) => return Err(no_times),
        };
        let Ok(table) = Box::new(alloc, table) else {
            return Err(NoTimes::OutOfMemory);
        };
        let Ok((turn, pass)) = Turn::new(alloc, Kept { table }, seats) else {
            return Err(NoTimes::OutOfMemory);
        };
        Ok((Server { alloc, turn }, pass))
    }

    /// Wakes one of those that stand back for a caller, which will not use the server for a while. Nothing that the server tells
    /// depends on it.
    pub fn rest(&self) {
        self.turn.rest();
    }

    /// A new pass, which has seen as much, with one of the pass's rooms.
    pub fn split(&self, pass: &mut Pass<Kept<'n>>) -> Pass<Kept<'n>>
        requires turn { pass.old.turn ≡ self.now.id }
        requires room { 2 ≤ pass.old.room }
        ensures left { pass.new ≡ record pass.old { room = pass.old.room - 1 } }
        ensures new { result ≡ record pass.old { holds = false; room = 1; mine = [] } }
    {
        self.turn.split(pass)
    }

    /// Takes in another pass: the longer history stays, and both callers' entries and rooms.
    pub fn join(&self, pass: &mut Pass<Kept<'n>>, other: Pass<Kept<'n>>)
        requires turn { (pass.old.turn ≡ self.now.id) × (other.turn ≡ self.now.id) }
        requires idle { (pass.old.holds ≡ false) × (other.holds ≡ false) }
        ensures joined { pass.new ≡ record pass.old {
          room = pass.old.room + other.entry.room;
          seen = longer pass.old.seen other.entry.seen;
          mine = pass.old.mine ++ other.entry.mine;
        } }
        ensures prefixes { IsPrefix pass.old.seen pass.new.seen × IsPrefix other.entry.seen pass.new.seen }
    {
        self.turn.join(pass, other)
    }

    /// Enters a message, and gives its number, from 1. It is refused for the first cause that applies after the history that
    /// the pass has then seen, or for want of memory.
    pub fn post<R: Wait>(
        &self,
        rt: &R,
        pass: &mut Pass<Kept<'n>>,
        entry: Entry,
    ) -> Result<u32, At<Refusal>>
        requires turn { pass.old.turn ≡ self.now.id }
        requires idle { pass.old.holds ≡ false }
        ensures entered { IfOk result (HasEntered pass.old pass.new entry) }
        ensures legal { IsSomeAnd pass.new.base (λ base. IsLegal base.network base.start pass.new.seen) }
        ensures looked { OnErr result (HasLooked pass.old pass.new) }
        ensures number { IfErr result (λ at. at.entry ≡ length pass.new.seen) }
        ensures refused { IfErr result (λ at. IsSomeAnd pass.new.base (λ base. RefusesAfter base pass.new.seen entry.message at.why)) }
    {
        let mut held = self.turn.take(rt, pass);
        held.state.reveal();
        let answer = held.state.enter(entry);
        match answer {
            Ok(n) => {
                self.turn.add(pass, &held);
                self.turn.give(pass, held);
                Ok(n)
            }
            Err(why) => {
                let entry = held.state.length();
                self.turn.give(pass, held);
                Err(At { entry, why })
            }
        }
    }

    /// The time of an event, in seconds, and how many entries there are then. [`Refusal::UnknownEvent`] comes exactly where
    /// the id is of none.
    pub fn time<R: Wait>(
        &self,
        rt: &R,
        pass: &mut Pass<Kept<'n>>,
        id: EventId,
    ) -> Result<(Secs, u32), At<Refusal>>
        requires turn { pass.old.turn ≡ self.now.id }
        requires idle { pass.old.holds ≡ false }
        ensures looked { HasLooked pass.old pass.new }
        ensures legal { IsSomeAnd pass.new.base (λ base. IsLegal base.network base.start pass.new.seen) }
        ensures number { IfOk result (λ answer. answer.1 ≡ length pass.new.seen) }
        ensures time { IfOk result (λ answer. IsSomeAnd pass.new.base (λ base. ShowsTime base pass.new.seen id answer.0)) }
        ensures refused_at { IfErr result (λ at. at.entry ≡ length pass.new.seen) }
        ensures refused { IfErr result (λ at. IsSomeAnd pass.new.base (λ base. RefusesTime base.network id at.why)) }
    {
        let held = self.turn.take(rt, pass);
        held.state.reveal();
        let entry = held.state.length();
        let answer = held.state.time(id);
        self.turn.give(pass, held);
        match answer {
            Ok(time) => Ok((time, entry)),
            Err(why) => Err(At { entry, why }),
        }
    }

    /// What the rows cost, in thousandths of passenger seconds, and how many entries there are then.
    pub fn cost<R: Wait>(&self, rt: &R, pass: &mut Pass<Kept<'n>>) -> (Cost, u32)
        requires turn { pass.old.turn ≡ self.now.id }
        requires idle { pass.old.holds ≡ false }
        ensures looked { HasLooked pass.old pass.new }
        ensures legal { IsSomeAnd pass.new.base (λ base. IsLegal base.network base.start pass.new.seen) }
        ensures number { result.1 ≡ length pass.new.seen }
        ensures cost { IsSomeAnd pass.new.base (λ base. CostsAfter base pass.new.seen result.0) }
    {
        let held = self.turn.take(rt, pass);
        held.state.reveal();
        let entry = held.state.length();
        let cost = held.state.cost();
        self.turn.give(pass, held);
        (cost, entry)
    }

    /// How many entries there are.
    pub fn length<R: Wait>(&self, rt: &R, pass: &mut Pass<Kept<'n>>) -> u32
        requires turn { pass.old.turn ≡ self.now.id }
        requires idle { pass.old.holds ≡ false }
        ensures looked { HasLooked pass.old pass.new }
        ensures legal { IsSomeAnd pass.new.base (λ base. IsLegal base.network base.start pass.new.seen) }
        ensures number { result ≡ length pass.new.seen }
    {
        let held = self.turn.take(rt, pass);
        held.state.reveal();
        let entry = held.state.length();
        self.turn.give(pass, held);
        entry
    }

    /// Copies the least timetable into times of as many events, and gives how many entries there are then.
    pub fn copy_times<R: Wait>(&self, rt: &R, pass: &mut Pass<Kept<'n>>, into: &mut Times) -> u32
        requires turn { pass.old.turn ≡ self.now.id }
        requires idle { pass.old.holds ≡ false }
        requires size { ForSome pass.old.base (λ base. length into.old ≡ length base.network.events) }
        ensures looked { HasLooked pass.old pass.new }
        ensures legal { IsSomeAnd pass.new.base (λ base. IsLegal base.network base.start pass.new.seen) }
        ensures number { result ≡ length pass.new.seen }
        ensures times { IsSomeAnd pass.new.base (λ base. AreTimesAfter base pass.new.seen into.new) }
    {
        let held = self.turn.take(rt, pass);
        held.state.reveal();
        let entry = held.state.length();
        held.state.copy_times(into);
        self.turn.give(pass, held);
        entry
    }

    /// What boards are shown: copies the least timetable into times of as many events, and which of them are cancelled, and gives
    /// how many entries there are then.
    pub fn copy_shown<R: Wait>(
        &self,
        rt: &R,
        pass: &mut Pass<Kept<'n>>,
        into: &mut Times,
        cancelled: &mut [bool],
    ) -> u32
        requires turn { pass.old.turn ≡ self.now.id }
        requires idle { pass.old.holds ≡ false }
        requires size { ForSome pass.old.base (λ base. length into.old ≡ length base.network.events) }
        requires flags { ForSome pass.old.base (λ base. length cancelled.old ≡ length base.network.events) }
        ensures looked { HasLooked pass.old pass.new }
        ensures legal { IsSomeAnd pass.new.base (λ base. IsLegal base.network base.start pass.new.seen) }
        ensures number { result ≡ length pass.new.seen }
        ensures times { IsSomeAnd pass.new.base (λ base. AreTimesAfter base pass.new.seen into.new) }
        ensures flags { IsSomeAnd pass.new.base (λ base. AreMarksAfter base pass.new.seen cancelled.new) }
    {
        let held = self.turn.take(rt, pass);
        held.state.reveal();
        let entry = held.state.length();
        held.state.copy_shown(into, cancelled);
        self.turn.give(pass, held);
        entry
    }

    /// Makes times that are the least timetable after the first `shown` entries the one after all entries, and the marks of events
    /// that were cancelled then those of events that are cancelled now. It lists the events whose times or marks were others, in room
    /// for all events, and gives how many entries there are then. It takes no memory. Where times were followed last when there were
    /// `shown` entries, it looks at the events alone whose times or marks have changed since then.
    pub fn follow_times<R: Wait>(
        &self,
        rt: &R,
        pass: &mut Pass<Kept<'n>>,
        into: &mut Times,
        cancelled: &mut [bool],
        shown: u32,
        listed: &mut Vec<usize>,
    ) -> u32
        requires turn { pass.old.turn ≡ self.now.id }
        requires idle { pass.old.holds ≡ false }
        requires shown { shown ≤ length pass.old.seen }
        requires times { ForSome pass.old.base (λ base. IsLeast base.network (rows_at base.network base.start pass.old.seen shown)
            into.old) }
        requires flags { ForSome pass.old.base (λ base. cancelled.old ≡ (rows_at base.network base.start pass.old.seen shown).cancelled) }
        requires room { ForSome pass.old.base (λ base. length base.network.events ≤ vec_capacity listed.old) }
        ensures looked { HasLooked pass.old pass.new }
        ensures legal { IsSomeAnd pass.new.base (λ base. IsLegal base.network base.start pass.new.seen) }
        ensures number { result ≡ length pass.new.seen }
        ensures times { IsSomeAnd pass.new.base (λ base. AreTimesAfter base pass.new.seen into.new) }
        ensures flags { IsSomeAnd pass.new.base (λ base. AreMarksAfter base pass.new.seen cancelled.new) }
        ensures listed { ListsMoved into.old into.new listed.new.items }
        ensures marked { ListsMarked cancelled.old cancelled.new listed.new.items }
        ensures room { vec_capacity listed.old ≤ vec_capacity listed.new }
    {
        let mut held = self.turn.take(rt, pass);
        held.state.reveal();
        let entry = held.state.length();
        held.state.follow_times(into, cancelled, shown, listed);
        self.turn.give(pass, held);
        entry
    }

    /// How many entries there are, and rows equal to those after them. `Err` is want of memory alone.
    pub fn snapshot<R: Wait>(
        &self,
        rt: &R,
        pass: &mut Pass<Kept<'n>>,
    ) -> Result<Snapshot, AllocError>
        requires turn { pass.old.turn ≡ self.now.id }
        requires idle { pass.old.holds ≡ false }
        ensures looked { HasLooked pass.old pass.new }
        ensures legal { IsSomeAnd pass.new.base (λ base. IsLegal base.network base.start pass.new.seen) }
        ensures number { IfOk result (λ snapshot. snapshot.entry ≡ length pass.new.seen) }
        ensures rows { IfOk result (λ snapshot. IsSomeAnd pass.new.base (λ base. snapshot.rows ≡ rows_after base pass.new.seen)) }
        ensures sized { IfOk result (λ snapshot. IsSomeAnd pass.new.base (λ base. IsSized base.network snapshot.rows)) }
        ensures no_cycle { IfOk result (λ snapshot. IsSomeAnd pass.new.base (λ base. HasNoCycle base.network snapshot.rows)) }
    {
        let held = self.turn.take(rt, pass);
        held.state.reveal();
        let copied = held.state.copy();
        self.turn.give(pass, held);
        copied
    }

    /// Enters those of the choices that are free, as one adopted list, after the history that the pass then sees. Finding them
    /// and entering them is done in one holding, and room for all of them is made before.
    pub fn carry<R: Wait>(
        &self,
        rt: &R,
        pass: &mut Pass<Kept<'n>>,
        choices: &[Decision],
        feed: u32,
        line: u32,
    ) -> Result<u32, At<Refusal>>
        requires turn { pass.old.turn ≡ self.now.id }
        requires idle { pass.old.holds ≡ false }
        ensures entered { IfOk result (λ n. IsSomeAnd pass.old.base (λ base.
            HasEnteredAfter pass.old pass.new (λ history. carries base history choices.now feed line) n)) }
        ensures legal { IsSomeAnd pass.new.base (λ base. IsLegal base.network base.start pass.new.seen) }
        ensures looked { OnErr result (HasLooked pass.old pass.new) }
        ensures here { IfErr result (λ at. at.entry ≡ length pass.new.seen) }
        ensures refused { IfErr result (λ at. ForSome pass.new.base (λ base.
            RefusesAfter base pass.new.seen (carries base pass.new.seen choices.now feed line).message at.why)) }
    {
        let room = Vec::with_capacity(self.alloc, choices.len());
        let mut held = self.turn.take(rt, pass);
        held.state.reveal();
        let answer = held.state.carry(room, choices, feed, line);
        match answer {
            Ok(n) => {
                self.turn.add(pass, &held);
                self.turn.give(pass, held);
                Ok(n)
            }
            Err(at) => {
                self.turn.give(pass, held);
                Err(at)
            }
        }
    }

    /// Adopts the choices of a plan of the rows at an entry, which the pass has seen: free ones with which these rows have no
    /// cycle. They are entered, as the next entry, exactly where there are no more entries yet, there is room for one, and there is
    /// enough memory.
    pub fn adopt<R: Wait>(
        &self,
        rt: &R,
        pass: &mut Pass<Kept<'n>>,
        entry: u32,
        choices: &[Decision],
        feed: u32,
        line: u32,
    ) -> Result<u32, AdoptRefusal>
        requires turn { pass.old.turn ≡ self.now.id }
        requires idle { pass.old.holds ≡ false }
        requires plan { ForSome pass.old.base (λ base. IsAdoptable base pass.old.seen (chosen entry choices.now)) }
        ensures entered { IfOk result (HasEntered pass.old pass.new (adopts (chosen entry choices.now) feed line)) }
        ensures legal { IsSomeAnd pass.new.base (λ base. IsLegal base.network base.start pass.new.seen) }
        ensures number { IfOk result (λ n. n ≡ entry + 1) }
        ensures looked { OnErr result (HasLooked pass.old pass.new) }
        ensures refused { IfErr result (RefusesAdopt (chosen entry choices.now) pass.new.seen) }
    {
        let mut held = self.turn.take(rt, pass);
        held.state.reveal();
        let answer = held.state.adopt(self.alloc, entry, choices, feed, line);
        match answer {
            Ok(n) => {
                self.turn.add(pass, &held);
                self.turn.give(pass, held);
                Ok(n)
            }
            Err(refusal) => {
                self.turn.give(pass, held);
                Err(refusal)
            }
        }
    }

    /// Ends the server once all other passes were joined, and gives the table back.
    pub fn close(self, pass: Pass<Kept<'n>>) -> Table<'n>
        requires turn { pass.turn ≡ self.id }
        requires idle { pass.holds ≡ false }
        requires alone { pass.room ≡ self.seats }
        ensures history { result.history ≡ pass.entry.seen }
        ensures base { pass.entry.base ≡ Some (base_of result) }
        ensures table { IsTable result }
        ensures numbers { AreAllAbove pass.entry.opening pass.entry.seen pass.entry.mine }
        ensures entries { AreEntriesOf pass.entry.opening pass.entry.seen pass.entry.mine }
    {
        let Self { alloc: _, turn } = self;
        let Kept { table } = turn.close(pass);
        let table = Box::into_inner(table);
        table.reveal();
        table
    }
}
