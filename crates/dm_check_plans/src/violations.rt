//! Undecided choices that a timetable violates.
ghost use Rattle.std.specs.Prelude.{◌≡◌, ◌<◌, IsTrue, ◌↔◌, List, length, true, false};
ghost use Rattle.dm_rows.specs.declared.messages.Decision.{Decision};
ghost use Rattle.dm_rows.specs.Relax.{has_unmet_from};
ghost use Rattle.dm_tree.specs.Relaxed.{IsViolated};
ghost use Rattle.dm_check_rows.specs.Claims.{Tells};
ghost use Rattle.dm_paths.specs.Places.{at_place, IsWithin};
ghost use Rattle.dm_check_times.specs.Changes.{AreChangesTo};
ghost use Rattle.dm_check_plans.specs.Inside.Violations.{SomeFlagged, NoneFlagged, AreFlagsOfChanges, IsSomeViolated, AreUndecidedBy, is_early, is_unmet};
ghost use Rattle.dm_paths.specs.Decisions.{is_unmet_pair};

use crate::timed::TimedRows;
use crate::turning::is_headway_of;
use dm_check_times::{comes_too_early, row_out_of};
use dm_paths::{ChoicePlace, Undecided, place_of_choice};
use dm_rows::Choice;

impl TimedRows<'_> {
    /// Whether some choice is undecided and violated. The flags are of the undecided changes and pairs, and the places are of the
    /// network's changes.
    pub fn is_any_violated(&self, undecided: &Undecided, places: &[usize]) -> bool
        requires places { AreChangesTo self.now.net.now (length self.now.net.now.activities) places.now }
        requires changes { length undecided.now.changes.items ≡ length self.now.net.now.activities }
        requires pairs { length undecided.now.pairs.items ≡ length self.now.net.now.pairs }
        ensures { (path : List Decision)
            → AreUndecidedBy self.now path undecided.now.changes.items undecided.now.pairs.items
            → Tells (IsSomeViolated self.now.net.now self.now.rows.now path self.now.times.now) result }
    {
        if self.is_any_change_early(&undecided.changes, places) {
            return true;
        }
        self.is_any_pair_unmet(&undecided.pairs)
    }

    /// Whether the head of some flagged change comes too early, where nothing but changes is flagged.
    fn is_any_change_early(&self, changes: &[bool], places: &[usize]) -> bool
        requires flags { length changes.now ≡ length self.now.net.now.activities }
        requires places { AreChangesTo self.now.net.now (length self.now.net.now.activities) places.now }
        ensures some { result ≡ true → SomeFlagged changes.now (is_early self.now) (length self.now.net.now.activities) }
        ensures none { result ≡ false → AreFlagsOfChanges self.now.net.now changes.now
            → NoneFlagged changes.now (is_early self.now) (length self.now.net.now.activities) }
    {
        for a in places {
            if changes[*a] && comes_too_early(self.net, self.rows, self.times, *a) {
                return true;
            }
        }
        false
    }

    /// Whether some flagged pair has neither direction met.
    fn is_any_pair_unmet(&self, pairs: &[bool]) -> bool
        requires flags { length pairs.now ≡ length self.now.net.now.pairs }
        ensures some { result ≡ true → SomeFlagged pairs.now (is_unmet self.now) (length self.now.net.now.pairs) }
        ensures none { result ≡ false → NoneFlagged pairs.now (is_unmet self.now) (length self.now.net.now.pairs) }
    {
        for p in 0..self.net.pairs() {
            if pairs[p] && self.is_unmet(p) {
                return true;
            }
        }
        false
    }

    /// Whether a choice is undecided and violated. The flags are of the undecided changes and pairs.
    pub fn is_violated(&self, undecided: &Undecided, choice: Choice) -> bool
        requires changes { length undecided.now.changes.items ≡ length self.now.net.now.activities }
        requires pairs { length undecided.now.pairs.items ≡ length self.now.net.now.pairs }
        ensures { (path : List Decision)
            → AreUndecidedBy self.now path undecided.now.changes.items undecided.now.pairs.items
            → IsTrue result ↔ IsViolated self.now.net.now self.now.rows.now path self.now.times.now choice }
    {
        self.net.reveal();
        let Some(place) = place_of_choice(self.net, choice) else {
            return false;
        };
        undecided.is(place) && self.is_unkept(place)
    }

    /// Whether the times do not keep the choice at a place: the head of the change comes too early, or neither direction of the
    /// pair has all its headways met.
    fn is_unkept(&self, place: ChoicePlace) -> bool
        requires is_place { IsWithin self.now.net.now place }
        ensures { result ≡ at_place (is_early self.now) (is_unmet self.now) place }
    {
        match place {
            ChoicePlace::Change(a) => comes_too_early(self.net, self.rows, self.times, a),
            ChoicePlace::Pair(p) => self.is_unmet(p),
        }
    }

    /// Whether neither direction of a pair has all its headways met.
    fn is_unmet(&self, p: usize) -> bool
        requires is_pair { p < length self.now.net.now.pairs }
        ensures { result ≡ is_unmet_pair self.now.net.now self.now.rows.now self.now.times.now p }
    {
        self.net.reveal();
        let pair = self.net.pair(p);
        self.has_unmet_from(p, pair.small) && self.has_unmet_from(p, pair.large)
    }

    /// Whether some headway of a pair out of an event is not met.
    fn has_unmet_from(&self, p: usize, tail: usize) -> bool
        requires is_event { tail < length self.now.net.now.events }
        ensures { result ≡ has_unmet_from self.now.net.now self.now.rows.now self.now.times.now p tail }
    {
        let row = row_out_of(self.net, tail);
        for a in row {
            if is_headway_of(self.net, *a, p)
                && comes_too_early(self.net, self.rows, self.times, *a)
            {
                return true;
            }
        }
        false
    }
}
