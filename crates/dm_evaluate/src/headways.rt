//! The headways of a pair out of one of its events, held and let go.
ghost use Rattle.std.specs.Prelude.{ℕ, ◌≡◌, ◌<◌, Some, true, false, length, All, OnOk, OnErr};
ghost use Rattle.dm_live.specs.Live.{IsAtRest, NoneFixed};
ghost use Rattle.dm_network.specs.Held.{is_held, IsCycleOf};
ghost use Rattle.dm_network.specs.Net.{activity_at};
ghost use Rattle.dm_rows.specs.Relax.{is_of_pair};
ghost use Rattle.dm_priced.specs.Priced.{IsPriced};
ghost use Rattle.dm_evaluate.specs.Marks.{MarksUnkept};
ghost use Rattle.dm_evaluate.specs.Inside.Moves.{set_where, IsOnly, TurnsTo, Stays, TurnsAmong, IsRefused};
ghost use Rattle.dm_paths.specs.RowsRead.{IsAmong};
ghost use Rattle.dm_paths.specs.Decisions.{is_directed};

use crate::marks::ViolationMarks;
use dm_base::Steps;
use dm_graph::search::Cyclic;
use dm_network::Network;
use dm_priced::PricedTimetable;
use std::sync::ledger::Ledger;

/// Holds the headways of a pair out of one of its events, none of which is held, and settles the timetable. Where that makes
/// a cycle, it is held to what it was held to before.
pub fn hold_direction<L: Ledger>(
    priced: &mut PricedTimetable,
    marks: &mut ViolationMarks,
    net: &Network,
    pair: usize,
    tail: usize,
    steps: &mut Steps<L>,
) -> Result<(), Cyclic>
    requires priced { IsPriced net.now priced.old }
    requires is_event { tail < length net.now.events }
    requires marks { MarksUnkept net.now priced.old.live.given.spans priced.old.live.times
        (record { changes = marks.old.changes; pairs = marks.old.pairs }) }
    requires off { (b : ℕ) → b < length net.now.activities → is_directed net.now pair tail b ≡ true
        → is_held priced.old.live.given.held b ≡ false }
    requires open { NoneFixed priced.old.live.fixed }
    ensures priced { IsPriced net.now priced.new }
    ensures at_rest { IsAtRest priced.new.live }
    ensures marks { MarksUnkept net.now priced.new.live.given.spans priced.new.live.times
        (record { changes = marks.new.changes; pairs = marks.new.pairs }) }
    ensures turns { OnOk result (TurnsTo net.now (is_directed net.now pair tail) (λ b. false) true priced.old priced.new) }
    ensures stays { OnErr result (Stays net.now priced.old priced.new) }
    ensures cycle { OnErr result (IsCycleOf net.now (set_where (is_directed net.now pair tail) true (is_held priced.old.live.given.held))
        priced.new.live.order.cycle) }
{
    let row = net.out_row(tail, steps);
    match hold_each(priced, net, pair, row) {
        Ok(()) => {
            priced.settle_watched(net, marks, steps);
            Ok(())
        }
        Err(Cyclic) => {
            release_each(priced, net, pair, row);
            priced.settle_watched(net, marks, steps);
            Err(Cyclic)
        }
    }
}

/// Lets the headways of a pair out of one of its events go, and settles the timetable.
pub fn release_direction<L: Ledger>(
    priced: &mut PricedTimetable,
    marks: &mut ViolationMarks,
    net: &Network,
    pair: usize,
    tail: usize,
    steps: &mut Steps<L>,
)
    requires priced { IsPriced net.now priced.old }
    requires is_event { tail < length net.now.events }
    requires marks { MarksUnkept net.now priced.old.live.given.spans priced.old.live.times
        (record { changes = marks.old.changes; pairs = marks.old.pairs }) }
    ensures priced { IsPriced net.now priced.new }
    ensures at_rest { IsAtRest priced.new.live }
    ensures marks { MarksUnkept net.now priced.new.live.given.spans priced.new.live.times
        (record { changes = marks.new.changes; pairs = marks.new.pairs }) }
    ensures turns { TurnsTo net.now (is_directed net.now pair tail) (λ b. false) false priced.old priced.new }
{
    let row = net.out_row(tail, steps);
    release_each(priced, net, pair, row);
    priced.settle_watched(net, marks, steps);
}

/// Holds those of these activities that are headways of a pair. One that would make a cycle is refused, and then no more are
/// held.
#[tactic(auto, using(crate::proofs::Headings::none_turned, crate::proofs::Headings::next_turned, crate::proofs::Headings::next_refused))]
fn hold_each(
    priced: &mut PricedTimetable,
    net: &Network,
    pair: usize,
    row: &[usize],
) -> Result<(), Cyclic>
    requires priced { IsPriced net.now priced.old }
    requires are_activities { All (λ a. a < length net.now.activities) row.now }
    requires open { NoneFixed priced.old.live.fixed }
    ensures priced { IsPriced net.now priced.new }
    ensures turns { OnOk result (TurnsAmong net.now pair (IsAmong row.now (length row.now)) true priced.old priced.new) }
    ensures refused { OnErr result (IsRefused net.now pair (IsAmong row.now (length row.now)) priced.old priced.new) }
{
    for a in row {
        match hold_one(priced, net, pair, *a) {
            Ok(()) => {}
            Err(Cyclic) => return Err(Cyclic),
        }
    }
    Ok(())
}

/// Holds an activity where it is a headway of a pair, unless it would make a cycle.
#[tactic(auto, using(crate::proofs::Headings::turned_not, crate::proofs::Headings::turned_one, crate::proofs::Headings::refused_one))]
fn hold_one(
    priced: &mut PricedTimetable,
    net: &Network,
    pair: usize,
    a: usize,
) -> Result<(), Cyclic>
    requires priced { IsPriced net.now priced.old }
    requires is_activity { a < length net.now.activities }
    requires open { NoneFixed priced.old.live.fixed }
    ensures priced { IsPriced net.now priced.new }
    ensures turns { OnOk result (TurnsAmong net.now pair (IsOnly a) true priced.old priced.new) }
    ensures refused { OnErr result (IsRefused net.now pair (IsOnly a) priced.old priced.new) }
{
    if !is_headway_of(net, a, pair) {
        return Ok(());
    }
    match priced.hold(net, a) {
        Ok(()) => Ok(()),
        Err(Cyclic) => Err(Cyclic),
    }
}

/// Lets those of these activities go that are headways of a pair.
#[tactic(auto, using(crate::proofs::Headings::none_turned, crate::proofs::Headings::next_turned))]
fn release_each(priced: &mut PricedTimetable, net: &Network, pair: usize, row: &[usize])
    requires priced { IsPriced net.now priced.old }
    requires are_activities { All (λ a. a < length net.now.activities) row.now }
    ensures priced { IsPriced net.now priced.new }
    ensures turns { TurnsAmong net.now pair (IsAmong row.now (length row.now)) false priced.old priced.new }
    ensures cycle_stays { priced.new.live.order.cycle ≡ priced.old.live.order.cycle }
{
    for a in row {
        release_one(priced, net, pair, *a);
    }
}

/// Lets an activity go where it is a headway of a pair.
#[tactic(auto, using(crate::proofs::Headings::turned_not, crate::proofs::Headings::turned_one))]
fn release_one(priced: &mut PricedTimetable, net: &Network, pair: usize, a: usize)
    requires priced { IsPriced net.now priced.old }
    requires is_activity { a < length net.now.activities }
    ensures priced { IsPriced net.now priced.new }
    ensures turns { TurnsAmong net.now pair (IsOnly a) false priced.old priced.new }
    ensures cycle_stays { priced.new.live.order.cycle ≡ priced.old.live.order.cycle }
{
    if is_headway_of(net, a, pair) {
        priced.release(net, a);
    }
}

/// Whether the activity is a headway of the pair.
pub fn is_headway_of(net: &Network, a: usize, pair: usize) -> bool
    requires { a < length net.now.activities }
    ensures { result ≡ is_of_pair pair (activity_at net.now a).pair }
{
    match net.activity(a).pair {
        None => false,
        Some(its) => its == pair,
    }
}
