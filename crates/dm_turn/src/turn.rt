//! The turn, its passes, and what a holder has.
ghost use Rattle.std.specs.Prelude.{◌≡◌, ◌+◌, ◌-◌, ◌^◌, ◌<◌, ◌≤◌, true, false, [], ◌∷◌, ◌++◌, length, Some, IfOk};
ghost use mathlib.Core.List.{IsPrefix};
ghost use Rattle.dm_rows.specs.declared.messages.Entry.{Entry as AnEntry};
ghost use Rattle.dm_turn.specs.Passes.{numbered, longer, AreEntriesOf, AreAllAbove};

use crate::parking::Parking;
use crate::rule::{About, Cut, Glue, Lock, Settle};
use crate::state::HasHistory;
use crate::steps::{COUNT, await_turn, count, draw, put_back, serve, stand_back, take_out};
use crate::view::View;
use atomic_table::{Refused, Seat, Table};
use std::alloc::{AllocError, Global};
use std::marker::{Brand, Model};
use std::snapshot::Snapshot;
use std::sync::Wait;

/// The state while a pass holds it. The caller changes it here.
#[derive(Drop)]
pub struct Held<S> {
    pub state: S,
}

/// What one caller knows of a turn: the history that it has seen, and which entries of it are its own.
/// It has no bytes, and may go to another thread.
#[derive(Drop)]
pub struct Pass<S: HasHistory> {
    seat: Seat<Option<S>, View<S::Base>>,
}

impl<S: HasHistory> Model for Pass<S> {
    ghost use Rattle.dm_turn.specs.Passes.{PassValue};
    ghost use Rattle.dm_turn.specs.Inside.Steps.{pass_value, IsAtRest};

    ghost Value = { PassValue S.Base };

    ghost view = { λ p. pass_value p.seat };

    ghost invariant = { λ p. IsAtRest p.seat };
}

/// Hands a state to one holder at a time, in the order of drawn tickets.
#[derive(Drop)]
pub struct Turn<S: HasHistory> {
    table: Table<Option<S>, View<S::Base>, About<S>, Lock, Global>,
    parking: Parking,
}

impl<S: HasHistory> Model for Turn<S> {
    ghost use Rattle.std.specs.Prelude.{◌≡◌};
    ghost use Rattle.dm_turn.specs.Passes.{TurnValue};

    ghost Value = { TurnValue };

    ghost view = { λ t. record { id = t.table.shared.table_id; seats = t.table.shared.key.seats } };

    ghost invariant = { λ t. (t.table.shared.table_id.words ≡ 3) × (t.table.shared.table_id.slots ≡ 1) };
}

impl<S: HasHistory> Turn<S> {
    /// A turn with its first pass, which has all the seats. It is the one call that takes memory.
    pub fn new(alloc: Global, state: S, seats: u32) -> Result<(Turn<S>, Pass<S>), AllocError>
    where
        S: Drop,
        requires { 1 ≤ seats }
        ensures turn { IfOk result (λ r. r.0.seats ≡ seats) }
        ensures pass { IfOk result (λ r. r.1 ≡ record {
          turn = r.0.id;
          base = Some (S.base state);
          opening = length (S.history state);
          holds = false;
          room = seats;
          seen = S.history state;
          mine = [];
        }) }
    {
        let parking = Parking::with_bells(alloc, seats)?;
        let words = [state.entries() as u64, 0, 0];
        let about = About {
            opened: Snapshot::of(&state),
            seats: seats as u64,
        };
        let mut slots = Vec::with_capacity(alloc, 1)?;
        slots.push(Some(state))?;
        match Table::new(alloc, &words, slots, &about) {
            Ok((table, seat)) => Ok((Turn { table, parking }, Pass { seat })),
            Err(Refused { slots: _ }) => Err(AllocError),
        }
    }

    /// A new pass, which has seen as much, with one of the pass's rooms.
    pub fn split(&self, pass: &mut Pass<S>) -> Pass<S>
        requires turn { pass.old.turn ≡ self.now.id }
        requires room { 2 ≤ pass.old.room }
        ensures left { pass.new ≡ record pass.old { room = pass.old.room - 1 } }
        ensures new { result ≡ record pass.old { holds = false; room = 1; mine = [] } }
    {
        let seat = self.table.shared.split_seat::<Cut>(&mut pass.seat);
        Pass { seat }
    }

    /// Takes in another pass: the longer history stays, and both callers' entries and rooms.
    pub fn join(&self, pass: &mut Pass<S>, other: Pass<S>)
        requires turn { (pass.old.turn ≡ self.now.id) × (other.turn ≡ self.now.id) }
        requires idle { (pass.old.holds ≡ false) × (other.holds ≡ false) }
        ensures joined { pass.new ≡ record pass.old {
          room = pass.old.room + other.room;
          seen = longer pass.old.seen other.seen;
          mine = pass.old.mine ++ other.mine;
        } }
        ensures prefixes { IsPrefix pass.old.seen pass.new.seen × IsPrefix other.seen pass.new.seen }
    {
        let Pass { seat } = other;
        let table = &self.table.shared;
        table.join_seat::<Glue>(&mut pass.seat, seat);
        table.load::<Settle>(&mut pass.seat, COUNT);
    }

    /// Waits for its turn, and takes the state. The pass has then seen the whole history.
    pub fn take<R: Wait>(&self, rt: &R, pass: &mut Pass<S>) -> Held<S>
        requires turn { pass.old.turn ≡ self.now.id }
        requires idle { pass.old.holds ≡ false }
        ensures held { pass.new ≡ record pass.old { holds = true; seen = S.history result.state } }
        ensures later { IsPrefix pass.old.seen pass.new.seen }
        ensures base { pass.old.base ≡ Some (S.base result.state) }
    {
        let table = &self.table.shared;
        stand_back(rt, table, &mut pass.seat, &self.parking);
        let ticket = draw(table, &mut pass.seat);
        await_turn(rt, table, &mut pass.seat, &self.parking, ticket);
        Held {
            state: take_out(table, &mut pass.seat),
        }
    }

    /// Enters the one entry that the held state has gained, as the pass's own.
    pub fn add(&self, pass: &mut Pass<S>, held: &Held<S>)
        requires turn { pass.old.turn ≡ self.now.id }
        requires holds { pass.old.holds ≡ true }
        requires gained { (e : AnEntry) × (S.history held.now.state ≡ pass.old.seen ++ e ∷ []) }
        requires short { length (S.history held.now.state) < 2 ^ 32 }
        ensures { (e : AnEntry) → S.history held.now.state ≡ pass.old.seen ++ e ∷ []
            → pass.new ≡ record pass.old {
              seen = S.history held.now.state;
              mine = pass.old.mine ++ numbered (length (S.history held.now.state)) e ∷ [];
            } }
    {
        count::<S, Brand>(&self.table.shared, &mut pass.seat, &held.state);
    }

    /// Gives the state back, and lets the next ticket be served.
    pub fn give(&self, pass: &mut Pass<S>, held: Held<S>)
        requires turn { pass.old.turn ≡ self.now.id }
        requires holds { pass.old.holds ≡ true }
        requires history { S.history held.state ≡ pass.old.seen }
        requires base { pass.old.base ≡ Some (S.base held.state) }
        ensures { pass.new ≡ record pass.old { holds = false } }
    {
        let table = &self.table.shared;
        let Held { state } = held;
        put_back(table, &mut pass.seat, state);
        serve(table, &mut pass.seat, &self.parking);
    }

    /// Wakes one of the callers that stand back, which looks at the queue again. Whoever will not take the state for a while calls
    /// it, so that nobody sleeps while the state is free. Nothing that passes tell depends on it.
    pub fn rest(&self) {
        self.parking.resting().ring_one();
    }

    /// Ends the turn once all other passes were joined, and gives the state back.
    pub fn close(self, pass: Pass<S>) -> S
        requires turn { pass.turn ≡ self.id }
        requires idle { pass.holds ≡ false }
        requires alone { pass.room ≡ self.seats }
        ensures history { S.history result ≡ pass.seen }
        ensures base { pass.base ≡ Some (S.base result) }
        ensures numbers { AreAllAbove pass.opening pass.seen pass.mine }
        ensures entries { AreEntriesOf pass.opening pass.seen pass.mine }
    {
        let Self { table, parking: _ } = self;
        let Pass { seat } = pass;
        let mut closed = table.close_with(seat);
        let slot = closed.take(0);
        closed.free();
        let Some(state) = slot else { unreachable!() };
        state
    }
}
