//! The steps of a pass's seat on the words and the slot of its turn.
ghost use Rattle.std.specs.Prelude.{◌≡◌, ℕ, ◌^◌, ◌%◌, ◌<◌, ◌≤◌, [], ◌∷◌, ◌++◌, length, Some, None};
ghost use Rattle.dm_rows.specs.declared.messages.Entry.{Entry as AnEntry};
ghost use Rattle.dm_turn.specs.Inside.Steps.{IsSeatOf, IsSameSeat, Took, gained};
ghost use Rattle.dm_turn.specs.declared.view.Phase.TheVariants.{Idle, Waiting, Served};

use crate::parking::Parking;
use crate::rule::{Add, Draw, Glance, Look, Serve, Told, TurnSeat, TurnTable};
use crate::state::HasHistory;
use std::sync::Wait;
use std::time::Duration;

// The words: how many entries there are, the next ticket, and the ticket that is served.
pub const COUNT: usize = 0;

pub const TICKET: usize = 1;

pub const SERVING: usize = 2;

// How often a caller stands back at most, and for how many microseconds at first and at most.
const PATIENCE: usize = 10_000;

const SHORTEST_WHILE: u64 = 500;

const LONGEST_WHILE: u64 = 30_000;

/// Looks at a word.
fn glance<S: HasHistory>(table: &TurnTable<S>, seat: &mut TurnSeat<S>, word: usize) -> u64
    requires seat { IsSeatOf table.now.table_id seat.old }
    requires word { word < 3 }
    ensures same { IsSameSeat seat.old seat.new }
    ensures me { seat.new.me ≡ seat.old.me }
{
    table.load::<Glance>(seat, word)
}

/// Stands back as long as somebody has the state or waits for it: each time until somebody rests, or for a while, the next one twice
/// as long. Who draws a ticket behind others makes them hand the state over after each line, which takes longer than a line does.
pub fn stand_back<S: HasHistory, R: Wait>(
    rt: &R,
    table: &TurnTable<S>,
    seat: &mut TurnSeat<S>,
    parking: &Parking,
)
    requires seat { IsSeatOf table.now.table_id seat.old }
    ensures same { IsSameSeat seat.old seat.new }
    ensures me { seat.new.me ≡ seat.old.me }
{
    let bell = parking.resting();
    let mut micros = SHORTEST_WHILE;
    for _ in 0..PATIENCE {
        let rings = bell.rings();
        let served = glance(table, seat, SERVING);
        if glance(table, seat, TICKET) == served {
            return;
        }
        bell.wait_for(rt, rings, Duration::from_micros(micros));
        micros = micros.saturating_mul(2).min(LONGEST_WHILE);
    }
}

/// Draws a ticket.
pub fn draw<S: HasHistory>(table: &TurnTable<S>, seat: &mut TurnSeat<S>) -> u64
    requires seat { IsSeatOf table.now.table_id seat.old × (1 ≤ seat.old.me.0.room) }
    requires idle { seat.old.me.0.phase ≡ Idle }
    ensures same { IsSameSeat seat.old seat.new }
    ensures drawn { (t : ℕ) × (seat.new.me ≡ (record seat.old.me.0 { phase = Waiting t }, seat.old.me.1)) × (t % 2 ^ 64 ≡ result) }
{
    table.fetch_add::<Draw>(seat, TICKET, 1)
}

/// Waits until the seat's ticket is served, and takes the slot.
pub fn await_turn<S: HasHistory, R: Wait>(
    rt: &R,
    table: &TurnTable<S>,
    seat: &mut TurnSeat<S>,
    parking: &Parking,
    ticket: u64,
)
    requires seat { IsSeatOf table.now.table_id seat.old × (1 ≤ seat.old.me.0.room) × (seat.old.me.1 ≡ []) }
    requires waits { (t : ℕ) × (seat.old.me.0.phase ≡ Waiting t) × (ticket ≡ t % 2 ^ 64) }
    ensures same { IsSameSeat seat.old seat.new }
    ensures took { Took S.history S.base seat.old.me seat.new.me }
{
    let bell = parking.of(ticket);
    for _ in rt.forever() {
        let rings = bell.rings();
        let found = table.load::<Look>(seat, SERVING);
        if found == ticket {
            break;
        }
        bell.wait(rt, rings);
    }
}

/// Takes the state out of the slot.
pub fn take_out<S: HasHistory>(table: &TurnTable<S>, seat: &mut TurnSeat<S>) -> S
    requires seat { IsSeatOf table.now.table_id seat.old }
    requires home { (state : S) × (seat.old.me.1 ≡ (0, Some state) ∷ []) }
    ensures same { IsSameSeat seat.old seat.new }
    ensures out { seat.new.me ≡ (seat.old.me.0, (0, None) ∷ []) }
    ensures state { seat.old.me.1 ≡ (0, Some result) ∷ [] }
{
    let found = table.exchange(seat, 0, None);
    let Some(state) = found else { unreachable!() };
    state
}

/// Counts the entry that the state has gained.
pub fn count<S: HasHistory, T: Told>(table: &TurnTable<S>, seat: &mut TurnSeat<S>, state: &S)
    requires told { T.history ≡ S.history state.now }
    requires seat { IsSeatOf table.now.table_id seat.old × (1 ≤ seat.old.me.0.room) }
    requires served { (t : ℕ) × (seat.old.me.0.phase ≡ Served t) }
    requires gained { (e : AnEntry) × (S.history state.now ≡ seat.old.me.0.seen ++ e ∷ []) }
    requires short { length (S.history state.now) < 2 ^ 32 }
    ensures same { IsSameSeat seat.old seat.new }
    ensures added { (e : AnEntry) → S.history state.now ≡ seat.old.me.0.seen ++ e ∷ []
        → seat.new.me ≡ (gained seat.old.me.0 e, seat.old.me.1) }
{
    let _ = state;
    table.fetch_add::<Add<T>>(seat, COUNT, 1);
}

/// Puts the state into the slot.
pub fn put_back<S: HasHistory>(table: &TurnTable<S>, seat: &mut TurnSeat<S>, state: S)
    requires seat { IsSeatOf table.now.table_id seat.old × (seat.old.me.1 ≡ (0, None) ∷ []) }
    ensures same { IsSameSeat seat.old seat.new }
    ensures home { seat.new.me ≡ (seat.old.me.0, (0, Some state) ∷ []) }
{
    let out = table.exchange(seat, 0, Some(state));
    let None = out else { unreachable!() };
}

/// Serves the next ticket, and wakes who waits for it, where somebody does.
pub fn serve<S: HasHistory>(table: &TurnTable<S>, seat: &mut TurnSeat<S>, parking: &Parking)
    requires seat { IsSeatOf table.now.table_id seat.old × (1 ≤ seat.old.me.0.room) }
    requires served { (t : ℕ) × (seat.old.me.0.phase ≡ Served t) }
    requires home { (state : S) × (seat.old.me.1 ≡ (0, Some state) ∷ []) × (S.history state ≡ seat.old.me.0.seen)
        × (seat.old.me.0.base ≡ Some (S.base state)) }
    ensures same { IsSameSeat seat.old seat.new }
    ensures idle { seat.new.me ≡ (record seat.old.me.0 { phase = Idle }, []) }
{
    let served = table.fetch_add::<Serve>(seat, SERVING, 1);
    let next = served.wrapping_add(1);
    if glance(table, seat, TICKET) != next {
        parking.of(next).ring_all();
    }
}
