//! Boards kept up to date.
ghost use Rattle.std.specs.Prelude.{ℕ, ◌≡◌, ◌≤◌, [], length, vec_len, IfOk};
ghost use Rattle.dm_base.specs.declared.limits.TheConstants.{BOARDS};
ghost use Rattle.dm_cert.specs.Runs.{AreTrueNotes};
ghost use Rattle.dm_marks.specs.Moved.{ListsMoved};
ghost use Rattle.dm_publish.specs.Value.{PublisherValue, nothing, published};
ghost use Rattle.dm_publish.specs.Publishing.{Publishes};
ghost use Rattle.dm_publish.specs.Shown.{ListsMarked};
ghost use Rattle.dm_publish.specs.Since.{KeepsUp, KeepsUpLast};

use crate::changes::Listed;
use crate::grouping::{list_all, list_places};
use crate::refreshing::Publication;
use crate::showing::Showing;
use dm_cert::Note;
use dm_network::Network;
use dm_outside::Board;
use dm_times::Times;
use std::alloc::{AllocError, Global};
use std::marker::Model;

/// Which boards of a list were dropped, what was published last, and the room to show the others what has changed.
pub struct Publisher {
    showing: Showing,

    /// Room for the events that are looked at.
    listed: Vec<Listed>,
}

impl Drop for Publisher {
    fn drop(self) {
        let Publisher {
            showing: _,
            listed: _,
        } = self;
    }
}

impl Model for Publisher {
    ghost use Rattle.std.specs.Prelude.{◌≤◌, vec_capacity};
    ghost use Rattle.dm_publish.specs.Value.{PublisherValue};

    ghost Value = { PublisherValue };

    ghost view = { λ p. p.showing };

    ghost invariant = { λ p. p.showing.events ≤ vec_capacity p.listed };
}

impl Publisher {
    /// A publisher for so many boards, at most 64, that show times of this network. It makes all the room that it needs.
    /// `Err` is want of memory alone.
    pub fn new(alloc: Global, net: &Network, boards: usize) -> Result<Publisher, AllocError>
        requires { boards ≤ BOARDS }
        ensures { IfOk result (λ p. p ≡ record { boards = boards; events = length net.now.events; notes = []; last = nothing }) }
    {
        Ok(Publisher {
            showing: Showing::new(alloc, net, boards)?,
            listed: Vec::with_capacity(alloc, net.events())?,
        })
    }

    /// The notes of all boards that were dropped, in the order in which they were.
    pub fn notes(&self) -> &[Note]
        ensures { result.now ≡ self.now.notes }
    {
        self.showing.notes()
    }

    /// Shows each board that no note names the events of its stop that differ, in ascending order of ids: first which are
    /// cancelled, then the times. It calls it for nothing else. It asks each board for each event of its stop, whatever was
    /// published before. A board whose show fails is dropped: a note names it, and nothing is shown to it any more. It answers how
    /// many were dropped. Entry numbers are how many entries the history has.
    pub fn publish(
        &mut self,
        net: &Network,
        timetable: &Times,
        cancelled: &[bool],
        entry: u32,
        boards: &mut Vec<Box<dyn Board>>,
    ) -> usize
        requires events { length net.now.events ≡ self.old.events }
        requires times { length timetable.now ≡ length net.now.events }
        requires flags { length cancelled.now ≡ length net.now.events }
        requires boards { vec_len boards.old ≡ self.old.boards }
        ensures published { Publishes place times flags faults is_sound net.now nothing (published timetable.now cancelled.now) entry
            boards.old.items boards.new.items
            self.old.notes self.new.notes result }

        // Boards that were kept up since some first list are so after the call, and show the timetable.
        ensures keeps_up { KeepsUp place times flags faults is_sound net.now (published timetable.now cancelled.now) boards.old.items
            boards.new.items self.old.notes
            self.new.notes }

        // Notes that are true at an earlier entry are so with the new ones.
        ensures true_notes { (entries : ℕ) → entries ≤ entry → AreTrueNotes entries self.old.notes → AreTrueNotes entry self.new.notes }
        ensures last { self.new.last ≡ published timetable.now cancelled.now }
        ensures same_boards { self.new.boards ≡ self.old.boards }
        ensures same_events { self.new.events ≡ self.old.events }
    {
        self.showing.forget();
        list_all(net, &mut self.listed);
        self.showing.show_listed(
            net,
            Publication {
                timetable,
                cancelled,
            },
            entry,
            &self.listed,
            boards,
        )
    }

    /// Publishes on boards that nobody else has shown anything since the last publishing, given the places of the events whose times
    /// differ from those published last, or that are cancelled or run otherwise. It asks a board only for such events of its stop,
    /// and is in all else as [`Publisher::publish`].
    pub fn publish_listed(
        &mut self,
        net: &Network,
        timetable: &Times,
        cancelled: &[bool],
        places: &[usize],
        entry: u32,
        boards: &mut Vec<Box<dyn Board>>,
    ) -> usize
        requires events { length net.now.events ≡ self.old.events }
        requires times { length timetable.now ≡ length net.now.events }
        requires flags { length cancelled.now ≡ length net.now.events }
        requires boards { vec_len boards.old ≡ self.old.boards }
        requires published { length self.old.last.cancelled ≡ length self.old.last.times }
        requires moved { ListsMoved self.old.last.times timetable.now places.now }
        requires marked { ListsMarked self.old.last.cancelled cancelled.now places.now }
        ensures published { Publishes place times flags faults is_sound net.now self.old.last (published timetable.now cancelled.now) entry
            boards.old.items
            boards.new.items self.old.notes self.new.notes result }

        // Boards that were kept up since some first list, and show the times published last, are so after the call, and show
        // the timetable.
        ensures keeps_up { KeepsUpLast place times flags faults is_sound net.now self.old.last (published timetable.now cancelled.now)
            boards.old.items boards.new.items
            self.old.notes self.new.notes }

        // Notes that are true at an earlier entry are so with the new ones.
        ensures true_notes { (entries : ℕ) → entries ≤ entry → AreTrueNotes entries self.old.notes → AreTrueNotes entry self.new.notes }
        ensures last { self.new.last ≡ published timetable.now cancelled.now }
        ensures same_boards { self.new.boards ≡ self.old.boards }
        ensures same_events { self.new.events ≡ self.old.events }
    {
        list_places(net, places, &mut self.listed);
        self.showing.show_listed(
            net,
            Publication {
                timetable,
                cancelled,
            },
            entry,
            &self.listed,
            boards,
        )
    }
}
