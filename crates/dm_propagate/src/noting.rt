//! The events whose times a change moves, noted.
ghost use Rattle.std.specs.Prelude.{ℕ, ◌≡◌, ◌<◌, length};
ghost use Rattle.dm_priced.specs.Priced.{IsPriced};
ghost use Rattle.dm_propagate.specs.Moved.{TakesInMoved};
ghost use Rattle.dm_propagate.specs.Inside.Altering.{change_in};
ghost use Rattle.dm_propagate.specs.Inside.Flags.{MovesPass};
ghost use Rattle.dm_propagate.specs.Inside.Noting.{NotesEach, IsSettled};

use crate::moving::Alteration;
use dm_base::Steps;
use dm_marks::PlaceSet;
use dm_network::Network;
use dm_priced::PricedTimetable;
use dm_rows::Change;
use dm_settle::{Move, Watcher};
use std::marker::{Brand, PhantomData};
use std::sync::ledger::Ledger;

/// What a sweep began with: the times, what was noted, and the name by which the notes are lent. Each call that starts one
/// picks it.
pub trait SweepStart {
    ghost use Rattle.std.specs.Prelude.{ℕ, Bool, List};

    ghost times: { List ℕ };

    ghost noted: { List Bool };

    ghost name: { ℕ };
}

impl SweepStart for Brand {
    ghost use Rattle.std.specs.Prelude.{[]};

    ghost times = { [] };

    ghost noted = { [] };

    ghost name = { 0 };
}

/// A watcher that notes each event of which it is told.
#[derive(Drop)]
struct Noting<'m, P> {
    moved: &'m mut PlaceSet,
    of: PhantomData<P>,
}

impl<P: SweepStart> Watcher for Noting<'_, P> {
    ghost use Rattle.std.specs.Prelude.{[]};
    ghost use Rattle.dm_propagate.specs.Inside.Noting.{IsNotedSince};

    ghost knows = { λ w net given x. IsNotedSince net P.name P.noted P.times w.moved.ghost_name w.moved.now.flags x };

    ghost flags = { λ w. [] };

    fn moves(&mut self, _net: &Network, to: &Move<'_>) {
        self.moved.insert(to.event);
    }
}

/// Notes the event that a change passes or recalls.
pub fn note_passed(moved: &mut PlaceSet, what: &Alteration<'_>)
    requires { (i : ℕ) → MovesPass (change_in what.now) i → i < length moved.old.flags }
    ensures { NotesEach (MovesPass (change_in what.now)) moved.old.flags moved.new.flags }
{
    match what {
        Alteration::Change(change) => note_event(moved, change),
        Alteration::Adoption(_) => {}
    }
}

// The same of a change alone.
fn note_event(moved: &mut PlaceSet, change: &Change)
    requires { (i : ℕ) → MovesPass change.now i → i < length moved.old.flags }
    ensures { NotesEach (MovesPass change.now) moved.old.flags moved.new.flags }
{
    match change {
        Change::Passed { event, .. } => moved.insert(*event),
        Change::Recalled { event } => moved.insert(*event),
        Change::Cancelled { event } => moved.insert(*event),
        Change::Restored { event } => moved.insert(*event),
        Change::EventDelay { .. } => {}
        Change::ActDelay { .. } => {}
        Change::Flipped(_) => {}
        Change::Adopted(_) => {}
        Change::Clock { .. } => {}
        Change::Locked(_) => {}
        Change::Unlocked(_) => {}
    }
}

/// Settles a timetable, and notes the events whose times move.
pub fn settle_noted<L: Ledger>(
    priced: &mut PricedTimetable,
    net: &Network,
    moved: &mut PlaceSet,
    steps: &mut Steps<L>,
)
    requires priced { IsPriced net.now priced.old }
    requires noted { length moved.old.flags ≡ length net.now.events }
    ensures settled { IsSettled net.now priced.old priced.new steps.old steps.new }
    ensures moved { TakesInMoved moved.old.flags moved.new.flags priced.old.live.times priced.new.live.times }
{
    let mut noting: Noting<'_, Brand> = Noting {
        moved,
        of: PhantomData,
    };
    settle_from::<L, Brand>(priced, net, &mut noting, steps);
}

// The same, where what the sweep begins with is picked.
fn settle_from<L: Ledger, P: SweepStart>(
    priced: &mut PricedTimetable,
    net: &Network,
    noting: &mut Noting<'_, P>,
    steps: &mut Steps<L>,
)
    requires priced { IsPriced net.now priced.old }
    requires as_many { length noting.old.moved.now.flags ≡ length net.now.events }
    requires name { noting.old.moved.ghost_name ≡ P.name }
    requires noted { noting.old.moved.now.flags ≡ P.noted }
    requires times { priced.old.live.times ≡ P.times }
    ensures settled { IsSettled net.now priced.old priced.new steps.old steps.new }
    ensures same { noting.new.moved.ghost_name ≡ noting.old.moved.ghost_name }
    ensures moved { TakesInMoved noting.old.moved.now.flags noting.new.moved.now.flags priced.old.live.times priced.new.live.times }
{
    priced.settle_watched(net, noting, steps);
}
