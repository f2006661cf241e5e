//! Boards that are shown what is listed.
ghost use Rattle.std.specs.Prelude.{ℕ, ◌≡◌, ◌<◌, ◌≤◌, [], length, vec_len, vec_capacity, IfOk};
ghost use Rattle.dm_base.specs.declared.limits.TheConstants.{BOARDS};
ghost use Rattle.dm_cert.specs.Runs.{AreTrueNotes};
ghost use Rattle.dm_publish.specs.Value.{PublisherValue, nothing};
ghost use Rattle.dm_publish.specs.Inside.Refreshing.{published_by};
ghost use Rattle.dm_publish.specs.Publishing.{has_note, Publishes};
ghost use Rattle.dm_publish.specs.Since.{KeepsUpLast};
ghost use Rattle.dm_publish.specs.Inside.Changes.{ListsChanges};
ghost use Rattle.dm_publish.specs.Inside.Grouping.{AreGrouped};
ghost use Rattle.dm_publish.specs.Inside.Turns.{TakesTurn};

use crate::changes::{Listed, keep};
use crate::refreshing::{Changes, Publication, refresh, stop_of};
use dm_base::Secs;
use dm_cert::Note;
use dm_network::Network;
use dm_outside::{Board, Failed};
use std::alloc::{AllocError, Global};
use std::marker::Model;

/// Which boards of a list were dropped, what was published last, and the room to show the others what has changed.
pub(crate) struct Showing {
    boards: usize,
    events: usize,
    notes: Vec<Note>,
    changes: Changes,

    /// The times in seconds that were published last and which events were cancelled then, by place of the event; none before the
    /// first publishing.
    last: Vec<Secs>,
    last_cancelled: Vec<bool>,
}

impl Drop for Showing {
    fn drop(self) {
        let Showing {
            boards: _,
            events: _,
            notes: _,
            changes: _,
            last: _,
            last_cancelled: _,
        } = self;
    }
}

impl Model for Showing {
    ghost use Rattle.std.specs.Prelude.{ℕ, ◌≤◌, vec_capacity};
    ghost use Rattle.dm_base.specs.declared.limits.TheConstants.{BOARDS};
    ghost use Rattle.dm_publish.specs.Value.{PublisherValue, published};
    ghost use Rattle.dm_publish.specs.Inside.Turns.{AreNotesOf};

    ghost Value = { PublisherValue };

    ghost view = { λ p. record {
      boards = p.boards;
      events = p.events;
      notes = p.notes.items;
      last = published p.last.items
          p.last_cancelled.items;
    } };

    ghost invariant = { λ p.
        (p.boards ≤ BOARDS) × (p.boards ≤ vec_capacity p.notes) × (p.events ≤ vec_capacity p.changes.flags) ×
        (p.events ≤ vec_capacity p.changes.times) × (p.events ≤ vec_capacity p.last)
        × (p.events ≤ vec_capacity p.last_cancelled)
        × AreNotesOf p.boards p.notes.items };
}

impl Showing {
    /// The state of so many boards, at most 64, that show times of this network, with all the room that it needs.
    pub(crate) fn new(alloc: Global, net: &Network, boards: usize) -> Result<Showing, AllocError>
        requires { boards ≤ BOARDS }
        ensures { IfOk result (λ p. p ≡ record { boards = boards; events = length net.now.events; notes = []; last = nothing }) }
    {
        Ok(Showing {
            boards,
            events: net.events(),
            notes: Vec::with_capacity(alloc, boards)?,
            changes: Changes {
                flags: Vec::with_capacity(alloc, net.events())?,
                times: Vec::with_capacity(alloc, net.events())?,
            },
            last: Vec::with_capacity(alloc, net.events())?,
            last_cancelled: Vec::with_capacity(alloc, net.events())?,
        })
    }

    /// The notes of all boards that were dropped, in the order in which they were.
    pub(crate) fn notes(&self) -> &[Note]
        ensures { result.now ≡ self.now.notes }
    {
        self.notes.as_slice()
    }

    /// Forgets what was published last.
    pub(crate) fn forget(&mut self)
        ensures last { self.new.last ≡ nothing }
        ensures same_notes { self.new.notes ≡ self.old.notes }
        ensures same_boards { self.new.boards ≡ self.old.boards }
        ensures same_events { self.new.events ≡ self.old.events }
    {
        self.last.clear();
        self.last_cancelled.clear();
    }

    /// Shows each board that no note names the events of its stop that differ, and keeps what was published. The events of which
    /// something else was published last are listed, stop by stop. A board whose show fails is dropped, and it answers how many were.
    pub(crate) fn show_listed(
        &mut self,
        net: &Network,
        shown: Publication<'_>,
        entry: u32,
        listed: &[Listed],
        boards: &mut Vec<Box<dyn Board>>,
    ) -> usize
        requires events { length net.now.events ≡ self.old.events }
        requires times { length shown.timetable.now ≡ length net.now.events }
        requires flags { length shown.cancelled.now ≡ length net.now.events }
        requires boards { vec_len boards.old ≡ self.old.boards }
        requires listed { ListsChanges self.old.last (published_by shown) listed.now }
        requires grouped { AreGrouped net.now listed.now }
        ensures published { Publishes place times flags faults is_sound net.now self.old.last (published_by shown.entry) entry
            boards.old.items
            boards.new.items self.old.notes self.new.notes result }

        // Boards that were kept up since some first list, and show the times published last, are so after the call, and show
        // the timetable.
        ensures keeps_up { KeepsUpLast place times flags faults is_sound net.now self.old.last (published_by shown.entry) boards.old.items
            boards.new.items
            self.old.notes self.new.notes }

        // Notes that are true at an earlier entry are so with the new ones.
        ensures true_notes { (entries : ℕ) → entries ≤ entry → AreTrueNotes entries self.old.notes → AreTrueNotes entry self.new.notes }
        ensures last { self.new.last ≡ published_by shown.entry }
        ensures same_boards { self.new.boards ≡ self.old.boards }
        ensures same_events { self.new.events ≡ self.old.events }
    {
        let before = self.notes.len();
        for index in 0..boards.len() {
            self.keep_up(net, shown, entry, listed, index, &mut boards[index]);
        }
        keep(&mut self.last, shown.timetable.as_slice(), listed);
        keep(&mut self.last_cancelled, shown.cancelled, listed);
        self.notes.len() - before
    }

    /// Shows the board at a place the times of its stop, unless a note names it.
    fn keep_up(
        &mut self,
        net: &Network,
        shown: Publication<'_>,
        entry: u32,
        listed: &[Listed],
        index: usize,
        board: &mut Box<dyn Board>,
    )
        requires events { length net.now.events ≡ self.old.events }
        requires times { length shown.timetable.now ≡ length net.now.events }
        requires flags { length shown.cancelled.now ≡ length net.now.events }
        requires is_board { index < self.old.boards }
        requires listed { ListsChanges self.old.last (published_by shown) listed.now }
        requires grouped { AreGrouped net.now listed.now }
        ensures turn { TakesTurn place times flags faults is_sound net.now self.old.last (published_by shown.entry) entry index
            self.old.notes self.new.notes
            board.old board.new }
        ensures same_last { self.new.last ≡ self.old.last }
        ensures same_boards { self.new.boards ≡ self.old.boards }
        ensures same_events { self.new.events ≡ self.old.events }
    {
        if has_note(&self.notes, index) {
            return;
        }
        if let Err(Failed) = refresh(net, shown, listed, board, &mut self.changes) {
            let note = Note {
                board: index as u32 + 1,
                stop: stop_of(board).0,
                entry,
            };
            let Ok(()) = self.notes.push(note) else {
                unreachable!();
            };
        }
    }
}

/// Whether a note names the board at a place.
fn has_note(notes: &[Note], index: usize) -> bool
    requires { index < BOARDS }
    ensures { result ≡ has_note notes.now index }
{
    notes.iter().any(|note| index + 1 == note.board as usize)
}
