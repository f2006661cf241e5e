//! A copy of the times, and of which events are cancelled, that is brought up to date.
ghost use Rattle.std.specs.Prelude.{ℕ, ◌≡◌, ◌<◌, ◌≤◌, ◌⊎◌, false, [], All, Contains, IsTrue, length, slice_index, slice_index_or, slice_set, vec_capacity};
ghost use Rattle.dm_rows.specs.Rows.{is_cancelled};
ghost use Rattle.dm_table.specs.Inside.Noted.{IsAmong, IsUpToDate, AreMarksUpToDate, ListsWhereMoved, ListsWhereMarked};

use dm_rows::Rows;
use dm_settle::Times;

/// What a copy follows: times, and the rows that they are of.
#[derive(Clone, Copy)]
pub struct Moment<'a> {
    pub times: &'a Times,
    pub rows: &'a Rows,
}

/// Copies which events are cancelled.
pub fn copy_cancelled(rows: &Rows, into: &mut [bool])
    requires { length into.old ≡ length rows.now.cancelled }
    ensures { into.new ≡ rows.now.cancelled }
{
    for place in 0..into.len() {
        let is_cancelled = rows.cancelled(place);
        into[place] = is_cancelled;
    }
}

/// Makes a copy what the times and the cancelled events are, and lists the places at which it was not. Where these are among some
/// places, as is known where `among` is true, it looks at those alone.
pub fn follow(
    of: Moment<'_>,
    places: &[usize],
    among: bool,
    into: &mut Times,
    cancelled: &mut [bool],
    listed: &mut Vec<usize>,
)
    requires as_many { length into.old ≡ length of.times.now }
    requires as_many_flags { length cancelled.old ≡ length of.times.now }
    requires as_many_rows { length of.rows.now.cancelled ≡ length of.times.now }
    requires within { All (λ place. place < length of.times.now) places.now }
    requires few { length places.now ≤ length of.times.now }
    requires among { IsTrue among → IsAmong of.times.now of.rows.now into.old cancelled.old places.now }
    requires empty { listed.old.items ≡ [] }
    requires room { length of.times.now ≤ vec_capacity listed.old }
    ensures up { IsUpToDate of.entry.times.now into.old into.new listed.new.items }
    ensures marked { AreMarksUpToDate of.entry.rows.now.cancelled cancelled.old cancelled.new listed.new.items }
    ensures room { vec_capacity listed.new ≡ vec_capacity listed.old }
{
    if among {
        follow_at(of, places, into, cancelled, listed);
    } else {
        follow_everywhere(of, into, cancelled, listed);
    }
}

/// The same, by a look at these places alone.
fn follow_at(
    of: Moment<'_>,
    places: &[usize],
    into: &mut Times,
    cancelled: &mut [bool],
    listed: &mut Vec<usize>,
)
    requires as_many { length into.old ≡ length of.times.now }
    requires as_many_flags { length cancelled.old ≡ length of.times.now }
    requires as_many_rows { length of.rows.now.cancelled ≡ length of.times.now }
    requires within { All (λ place. place < length of.times.now) places.now }
    requires few { length places.now ≤ length of.times.now }
    requires among { IsAmong of.times.now of.rows.now into.old cancelled.old places.now }
    requires empty { listed.old.items ≡ [] }
    requires room { length of.times.now ≤ vec_capacity listed.old }
    ensures up { IsUpToDate of.entry.times.now into.old into.new listed.new.items }
    ensures marked { AreMarksUpToDate of.entry.rows.now.cancelled cancelled.old cancelled.new listed.new.items }
    ensures room { vec_capacity listed.new ≡ vec_capacity listed.old }
{
    for place in places {
        follow_one(of, *place, into, cancelled, listed);
    }
}

/// The same, by a look at every place.
fn follow_everywhere(
    of: Moment<'_>,
    into: &mut Times,
    cancelled: &mut [bool],
    listed: &mut Vec<usize>,
)
    requires as_many { length into.old ≡ length of.times.now }
    requires as_many_flags { length cancelled.old ≡ length of.times.now }
    requires as_many_rows { length of.rows.now.cancelled ≡ length of.times.now }
    requires empty { listed.old.items ≡ [] }
    requires room { length of.times.now ≤ vec_capacity listed.old }
    ensures up { IsUpToDate of.entry.times.now into.old into.new listed.new.items }
    ensures marked { AreMarksUpToDate of.entry.rows.now.cancelled cancelled.old cancelled.new listed.new.items }
    ensures room { vec_capacity listed.new ≡ vec_capacity listed.old }
{
    for place in 0..of.times.events() {
        follow_one(of, place, into, cancelled, listed);
    }
}

/// Makes the time at a place, and whether its event is cancelled, what they are, and lists the place where one of them was not.
fn follow_one(
    of: Moment<'_>,
    place: usize,
    into: &mut Times,
    cancelled: &mut [bool],
    listed: &mut Vec<usize>,
)
    requires as_many { length into.old ≡ length of.times.now }
    requires as_many_flags { length cancelled.old ≡ length of.times.now }
    requires as_many_rows { length of.rows.now.cancelled ≡ length of.times.now }
    requires is_event { place < length of.times.now }
    requires room { length listed.old.items < vec_capacity listed.old }
    ensures times { into.new ≡ slice_set into.old place (slice_index of.entry.times.now place) }
    ensures flags { cancelled.new ≡ slice_set cancelled.old place (is_cancelled of.entry.rows.now place) }
    ensures listed { ListsWhereMoved place into.old into.new listed.old.items listed.new.items }
    ensures marked { ListsWhereMarked place cancelled.old cancelled.new listed.old.items listed.new.items }
    ensures room { vec_capacity listed.new ≡ vec_capacity listed.old }
{
    let time = of.times.time(place);
    let is_cancelled = of.rows.cancelled(place);
    if into.time(place) != time || cancelled[place] != is_cancelled {
        into.set(place, time);
        cancelled[place] = is_cancelled;
        listed.push_reserved(place);
    }
}
