//! Undecided choices that a timetable violates.
ghost use Rattle.std.specs.Prelude.{◌≡◌, ◌<◌, IsTrue, ◌↔◌, false, List, length, slice_set, if◌then◌else◌, IfSome};
ghost use Rattle.dm_rows.specs.declared.messages.Decision.{Decision};
ghost use Rattle.dm_rows.specs.Relax.{has_unmet_from};
ghost use Rattle.dm_rows.specs.Rows.{IsSized};
ghost use Rattle.dm_evaluate.specs.Inside.Marking.{AreMarksOf, Clears, IsFirstOrNone};
ghost use Rattle.dm_evaluate.specs.Inside.Violations.{violated_from, violated_pair_from, AreFlagsFor, LeavesUndecided, AreMarked, AreCleared, IsFlagged};
ghost use Rattle.dm_paths.specs.Decisions.{is_unmet_pair};
ghost use Rattle.dm_paths.specs.Places.{at_place, IsWithin};
ghost use Rattle.dm_rows.specs.Cost.{comes_too_early};
ghost use Rattle.dm_tree.specs.Relaxed.{IsViolated};

use crate::headways::is_headway_of;
use crate::marks::ViolationMarks;
use dm_base::Steps;
use dm_marks::Marks;
use dm_network::Network;
use dm_paths::{ChoicePlace, Undecided, place_of_choice};
use dm_rows::{Choice, Rows, choice_of_pair};
use dm_settle::Times;
use dm_times::comes_too_early;
use std::sync::ledger::Ledger;

/// The first undecided choice that is violated, the changes and then the pairs, or None where nothing is. The flags are of the
/// undecided changes and pairs, and what of them is violated is marked. Marks of what is kept are taken away.
pub fn first_violated<L: Ledger>(
    net: &Network,
    rows: &Rows,
    undecided: &Undecided,
    times: &Times,
    marks: &mut ViolationMarks,
    steps: &mut Steps<L>,
) -> Option<Choice>
    requires sized { IsSized net.now rows.now }
    requires size { length times.now ≡ length net.now.events }
    requires marked { AreMarked net.now rows.now times.now undecided.now marks.old }
    ensures first { (path : List Decision) → LeavesUndecided net.now rows.now path undecided.now
        → result ≡ violated_from net.now rows.now path times.now 0 }
    ensures flagged { IfSome result (IsFlagged net.now undecided.now) }
    ensures cleared { AreCleared net.now rows.now times.now marks.old marks.new }
{
    let changes = &mut marks.changes;
    if let Some(a) = first_change(net, rows, &undecided.changes, times, changes) {
        return Some(Choice::Change(net.activity(a).id));
    }
    first_violated_pair(net, rows, undecided, times, marks, steps)
}

/// The first undecided pair that is violated, or None where none is.
fn first_violated_pair<L: Ledger>(
    net: &Network,
    rows: &Rows,
    undecided: &Undecided,
    times: &Times,
    marks: &mut ViolationMarks,
    steps: &mut Steps<L>,
) -> Option<Choice>
    requires sized { IsSized net.now rows.now }
    requires size { length times.now ≡ length net.now.events }
    requires marked { AreMarked net.now rows.now times.now undecided.now marks.old }
    ensures first { (path : List Decision) → LeavesUndecided net.now rows.now path undecided.now
        → result ≡ violated_pair_from net.now rows.now path times.now 0 }
    ensures flagged { IfSome result (IsFlagged net.now undecided.now) }
    ensures cleared { AreCleared net.now rows.now times.now marks.old marks.new }
{
    let pairs = &mut marks.pairs;
    match first_pair(net, rows, &undecided.pairs, times, pairs, steps) {
        Some(p) => Some(choice_of_pair(net, p)),
        None => None,
    }
}

/// Whether a choice is undecided and violated. The flags are of the undecided changes and pairs.
pub fn is_violated<L: Ledger>(
    net: &Network,
    rows: &Rows,
    undecided: &Undecided,
    times: &Times,
    choice: Choice,
    steps: &mut Steps<L>,
) -> bool
    requires sized { IsSized net.now rows.now }
    requires flags { AreFlagsFor net.now undecided.now }
    requires size { length times.now ≡ length net.now.events }
    ensures { (path : List Decision) → LeavesUndecided net.now rows.now path undecided.now
        → IsTrue result ↔ IsViolated net.now rows.now path times.now choice }
{
    net.reveal();
    let Some(place) = place_of_choice(net, choice) else {
        return false;
    };
    undecided.is(place) && is_unkept(net, rows, times, place, steps)
}

/// Whether the times do not keep the choice at a place: the head of the change comes too early, or neither direction of the
/// pair has all its headways met.
fn is_unkept<L: Ledger>(
    net: &Network,
    rows: &Rows,
    times: &Times,
    place: ChoicePlace,
    steps: &mut Steps<L>,
) -> bool
    requires sized { IsSized net.now rows.now }
    requires size { length times.now ≡ length net.now.events }
    requires is_place { IsWithin net.now place }
    ensures { result ≡ at_place (comes_too_early net.now rows.now times.now) (is_unmet_pair net.now rows.now times.now) place }
{
    match place {
        ChoicePlace::Change(a) => comes_too_early(net, rows, times, a),
        ChoicePlace::Pair(p) => is_unmet(net, rows, times, p, steps),
    }
}

/// The first undecided change whose head comes too early. The flags are of the undecided changes, of which those are marked.
/// Marks of what is kept are taken away.
fn first_change(
    net: &Network,
    rows: &Rows,
    changes: &[bool],
    times: &Times,
    marks: &mut Marks,
) -> Option<usize>
    requires sized { IsSized net.now rows.now }
    requires flags { length changes.now ≡ length net.now.activities }
    requires size { length times.now ≡ length net.now.events }
    requires marks { AreMarksOf changes.now (comes_too_early net.now rows.now times.now) (length net.now.activities) marks.old }
    ensures first { IsFirstOrNone changes.now (comes_too_early net.now rows.now times.now) 0 (length net.now.activities) result }
    ensures cleared { Clears (comes_too_early net.now rows.now times.now) marks.old marks.new }
{
    let mut from = 0;
    while let Some(a) = marks.first_from(from) {
        let early = comes_too_early(net, rows, times, a);
        if early && changes[a] {
            return Some(a);
        }
        clear_unless(marks, a, early);
        from = a + 1;
    }
    None
}

/// The first undecided pair of which neither direction has all its headways met. The flags are of the undecided pairs, of which
/// those are marked. Marks of what is kept are taken away. Only rows of events of marked pairs are read.
fn first_pair<L: Ledger>(
    net: &Network,
    rows: &Rows,
    pairs: &[bool],
    times: &Times,
    marks: &mut Marks,
    steps: &mut Steps<L>,
) -> Option<usize>
    requires sized { IsSized net.now rows.now }
    requires flags { length pairs.now ≡ length net.now.pairs }
    requires size { length times.now ≡ length net.now.events }
    requires marks { AreMarksOf pairs.now (is_unmet_pair net.now rows.now times.now) (length net.now.pairs) marks.old }
    ensures first { IsFirstOrNone pairs.now (is_unmet_pair net.now rows.now times.now) 0 (length net.now.pairs) result }
    ensures cleared { Clears (is_unmet_pair net.now rows.now times.now) marks.old marks.new }
{
    let mut from = 0;
    while let Some(p) = marks.first_from(from) {
        let unmet = is_unmet(net, rows, times, p, steps);
        if unmet && pairs[p] {
            return Some(p);
        }
        clear_unless(marks, p, unmet);
        from = p + 1;
    }
    None
}

/// Takes a mark away unless it is to stay.
fn clear_unless(marks: &mut Marks, place: usize, stays: bool)
    requires { place < length marks.old }
    ensures { marks.new ≡ (if stays then marks.old else slice_set marks.old place false) }
{
    if !stays {
        marks.clear(place);
    }
}

/// Whether neither direction of a pair has all its headways met.
fn is_unmet<L: Ledger>(
    net: &Network,
    rows: &Rows,
    times: &Times,
    p: usize,
    steps: &mut Steps<L>,
) -> bool
    requires sized { IsSized net.now rows.now }
    requires size { length times.now ≡ length net.now.events }
    requires is_pair { p < length net.now.pairs }
    ensures { result ≡ is_unmet_pair net.now rows.now times.now p }
{
    net.reveal();
    let pair = net.pair(p);
    has_unmet_from(net, rows, times, p, pair.small, steps)
        && has_unmet_from(net, rows, times, p, pair.large, steps)
}

/// Whether some headway of a pair out of an event is not met.
fn has_unmet_from<L: Ledger>(
    net: &Network,
    rows: &Rows,
    times: &Times,
    p: usize,
    tail: usize,
    steps: &mut Steps<L>,
) -> bool
    requires sized { IsSized net.now rows.now }
    requires size { length times.now ≡ length net.now.events }
    requires is_event { tail < length net.now.events }
    ensures { result ≡ has_unmet_from net.now rows.now times.now p tail }
{
    let row = net.out_row(tail, steps);
    for a in row {
        if is_headway_of(net, *a, p) && comes_too_early(net, rows, times, *a) {
            return true;
        }
    }
    false
}
