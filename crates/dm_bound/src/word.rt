//! The word and its hands.
ghost use Rattle.std.specs.Prelude.{◌≡◌, ◌+◌, ◌-◌, ◌≤◌, [], ◌∷◌, ◌++◌, min, IfOk};
ghost use Rattle.dm_bound.specs.Words.{lowest, nothing_looked};

use crate::rule::{About, Cut, Glue, Least, Look, Lower, WordSeat};
use crate::view::View;
use atomic_table::Table;
use std::alloc::{AllocError, Global};
use std::marker::Model;

const WORD: usize = 0;

/// What one worker knows of a word. It has no bytes, and may go to another thread.
#[derive(Drop)]
pub struct Hand {
    seat: WordSeat,
}

impl Model for Hand {
    ghost use Rattle.dm_bound.specs.Words.{HandValue};
    ghost use Rattle.dm_bound.specs.Inside.Steps.{hand_value, IsAtRest};

    ghost Value = { HandValue };

    ghost view = { λ h. hand_value h.seat };

    ghost invariant = { λ h. IsAtRest h.seat };
}

/// A word that only falls.
#[derive(Drop)]
pub struct BoundWord {
    table: Table<u64, View, About, Least, Global>,
}

impl Model for BoundWord {
    ghost use Rattle.std.specs.Prelude.{◌≡◌, ◌≤◌};
    ghost use Rattle.dm_bound.specs.Words.{WordValue, nothing_looked};

    ghost Value = { WordValue };

    ghost view = { λ w. record { id = w.table.shared.table_id; seats = w.table.shared.key.seats } };

    ghost invariant = { λ w. (w.table.shared.table_id.words ≡ 1) × (w.table.shared.table_id.slots ≡ 0)
        × (w.table.shared.key.start ≤ nothing_looked) };
}

impl BoundWord {
    /// A word that starts at a value, with its first hand, which has all the seats. It is the one call that takes memory.
    pub fn new(alloc: Global, start: u64, seats: u32) -> Result<(BoundWord, Hand), AllocError>
        requires { 1 ≤ seats }
        ensures word { IfOk result (λ r. r.0.seats ≡ seats) }
        ensures hand { IfOk result (λ r. r.1 ≡ record {
          word = r.0.id;
          start = start;
          lowered = [];
          looked = nothing_looked;
          room = seats;
        }) }
    {
        let words = [start];
        let about = About {
            start,
            seats: seats as u64,
        };
        let (table, seat) = Table::of_words(alloc, &words, &about)?;
        Ok((BoundWord { table }, Hand { seat }))
    }

    /// A new hand, which has lowered and looked at nothing, with one of the hand's rooms.
    pub fn split(&self, hand: &mut Hand) -> Hand
        requires word { hand.old.word ≡ self.now.id }
        requires room { 2 ≤ hand.old.room }
        ensures left { hand.new ≡ record hand.old { room = hand.old.room - 1 } }
        ensures new { result ≡ record hand.old { lowered = []; looked = nothing_looked; room = 1 } }
    {
        let seat = self.table.shared.split_seat::<Cut>(&mut hand.seat);
        Hand { seat }
    }

    /// Takes in another hand: both lists, the smaller looked value, and the rooms together.
    pub fn join(&self, hand: &mut Hand, other: Hand)
        requires word { (hand.old.word ≡ self.now.id) × (other.word ≡ self.now.id) }
        ensures joined { hand.new ≡ record hand.old {
          lowered = hand.old.lowered ++ other.lowered;
          looked = min hand.old.looked other.looked;
          room = hand.old.room + other.room;
        } }
    {
        let Hand { seat } = other;
        self.table.shared.join_seat::<Glue>(&mut hand.seat, seat);
    }

    /// Lowers the word to a cost, where it is above it, by one fetch-and-minimum. The hand lists the cost.
    pub fn lower(&self, hand: &mut Hand, cost: u64)
        requires word { hand.old.word ≡ self.now.id }
        ensures lowered { hand.new ≡ record hand.old { lowered = hand.old.lowered ++ cost ∷ [] } }
    {
        self.table
            .shared
            .fetch_min::<Lower>(&mut hand.seat, WORD, cost);
    }

    /// The word's value, which is at most its start and all costs that the hand lists.
    pub fn look(&self, hand: &mut Hand) -> u64
        requires word { hand.old.word ≡ self.now.id }
        ensures looked { hand.new ≡ record hand.old { looked = min hand.old.looked result } }
        ensures low { result ≤ lowest hand.old.start hand.old.lowered }
    {
        self.table.shared.load::<Look>(&mut hand.seat, WORD)
    }

    /// Ends the word once all other hands were joined: the smallest of its start and all listed costs.
    pub fn close(self, hand: Hand) -> u64
        requires word { hand.word ≡ self.id }
        requires alone { hand.room ≡ self.seats }
        ensures least { result ≡ lowest hand.start hand.lowered }
        ensures looked { result ≤ hand.looked }
    {
        let Self { table } = self;
        let Hand { seat } = hand;
        let closed = table.close_with(seat);
        let least = closed.word(WORD);
        closed.free();
        least
    }
}
