//! A timetable that is brought to follow rows at what a change concerns.
ghost use Rattle.std.specs.Prelude.{ℕ, ◌≡◌, ◌<◌, Some, None, true, false, length, slice_set, All, OnOk, OnErr};
ghost use Rattle.dm_network.specs.Net.{pair_at, places_into, places_out_of};
ghost use Rattle.dm_rows.specs.Rows.{passed_at, is_cancelled};
ghost use Rattle.dm_rows.specs.Active.{has_passed};
ghost use Rattle.dm_rows.specs.Reach.{ReachesFlip};
ghost use Rattle.dm_rows.specs.Timetable.{floor_of};
ghost use Rattle.dm_live.specs.Live.{IsEnteredByNone, with_floor};
ghost use Rattle.dm_priced.specs.Priced.{IsPriced};
ghost use Rattle.dm_propagate.specs.Inside.Flags.{flags_of, FixesNoOther};
ghost use Rattle.dm_propagate.specs.Inside.Concern.{LeadsAt, IsDecided, IsDecidedBefore};
ghost use Rattle.dm_propagate.specs.Inside.Turning.{Within, LetsGo, TakesUp, IsRefused};
ghost use Rattle.dm_propagate.specs.Inside.Changing.{HasPlace};

use crate::day::Day;
use crate::held::{let_go, take_up};
use dm_base::Steps;
use dm_graph::search::Cyclic;
use dm_network::Pair;
use dm_priced::PricedTimetable;
use dm_rows::{Flip, floor_of};
use std::sync::ledger::Ledger;

/// Lets the activities go that lead into an event or out of it and are not active. They are those of these two rows.
#[tactic(auto, using(crate::proofs::Around::let_go_around))]
pub fn let_go_around(
    priced: &mut PricedTimetable,
    day: &Day<'_>,
    event: usize,
    into: &[usize],
    out: &[usize],
)
    requires priced { IsPriced day.now.net.now priced.old }
    requires is_event { event < length day.now.net.now.events }
    requires into { into.now ≡ places_into day.now.net.now event }
    requires out { out.now ≡ places_out_of day.now.net.now event }
    ensures priced { IsPriced day.now.net.now priced.new }
    ensures flags { flags_of priced.new ≡ flags_of priced.old }
    ensures gone { LetsGo day.now.net.now day.now.rows.now (Within day.now.net.now (LeadsAt day.now.net.now event)) priced.old.live
        priced.new.live }
{
    let_go(priced, day, into);
    let_go(priced, day, out);
}

/// Holds the active activities that lead into an event or out of it. They are among those of these two rows. One that would
/// make a cycle is refused.
pub fn take_up_around(
    priced: &mut PricedTimetable,
    day: &Day<'_>,
    event: usize,
    into: &[usize],
    out: &[usize],
) -> Result<(), Cyclic>
    requires priced { IsPriced day.now.net.now priced.old }
    requires is_event { event < length day.now.net.now.events }
    requires into { into.now ≡ places_into day.now.net.now event }
    requires out { out.now ≡ places_out_of day.now.net.now event }
    requires open { FixesNoOther day.now.rows.now priced.old.live.fixed }
    ensures priced { IsPriced day.now.net.now priced.new }
    ensures flags { flags_of priced.new ≡ flags_of priced.old }
    ensures taken { OnOk result (TakesUp day.now.net.now day.now.rows.now (Within day.now.net.now (LeadsAt day.now.net.now event))
        priced.old.live priced.new.live) }
    ensures refused { OnErr result (IsRefused day.now.net.now day.now.rows.now priced.old.live priced.new.live) }
{
    match take_up(priced, day, into) {
        Ok(()) => {}
        Err(Cyclic) => return Err(Cyclic),
    }
    match take_up(priced, day, out) {
        Ok(()) => Ok(()),
        Err(Cyclic) => Err(Cyclic),
    }
}

/// Gives an event its floor by the rows. Where it has passed it is fixed at this time: nothing that is held enters it then, and
/// what is held out of it leaves the order. Where it has not, this comes back. A cancelled event, which nothing that is held enters
/// or leaves, has its floor as its time at once. The rows are those of the activities into it and out of it.
#[tactic(auto, using(crate::proofs::Noted::keeps_but_one, crate::proofs::Noted::keeps_all))]
pub fn set_place<L: Ledger>(
    priced: &mut PricedTimetable,
    day: &Day<'_>,
    event: usize,
    into: &[usize],
    out: &[usize],
    steps: &mut Steps<L>,
)
    requires priced { IsPriced day.now.net.now priced.old }
    requires is_event { event < length day.now.net.now.events }
    requires into { into.now ≡ places_into day.now.net.now event }
    requires out { out.now ≡ places_out_of day.now.net.now event }
    requires entered { (t : ℕ) → passed_at day.now.rows.now event ≡ Some t → IsEnteredByNone day.now.net.now priced.old.live.given.held
        event }
    requires alone { is_cancelled day.now.rows.now event ≡ true → IsEnteredByNone day.now.net.now priced.old.live.given.held event }
    ensures priced { IsPriced day.now.net.now priced.new }
    ensures flags { flags_of priced.new ≡ record (flags_of priced.old)
        { fixed = slice_set priced.old.live.fixed event (has_passed day.now.rows.now event) } }
    ensures place { HasPlace day.now.net.now day.now.rows.now event priced.old.live priced.new.live steps.old steps.new }
{
    match day.rows.passed(event) {
        Some(time) => priced.fix(day.net, event, time, into, out, steps),
        None => set_ahead(priced, day, event, into, out, steps),
    }
}

/// The same of an event that has not passed.
#[tactic(auto, using(crate::proofs::Placing::placed_open, crate::proofs::Placing::flags_open))]
fn set_ahead<L: Ledger>(
    priced: &mut PricedTimetable,
    day: &Day<'_>,
    event: usize,
    into: &[usize],
    out: &[usize],
    steps: &mut Steps<L>,
)
    requires priced { IsPriced day.now.net.now priced.old }
    requires is_event { event < length day.now.net.now.events }
    requires into { into.now ≡ places_into day.now.net.now event }
    requires out { out.now ≡ places_out_of day.now.net.now event }
    requires ahead { passed_at day.now.rows.now event ≡ None }
    requires alone { is_cancelled day.now.rows.now event ≡ true → IsEnteredByNone day.now.net.now priced.old.live.given.held event }
    ensures priced { IsPriced day.now.net.now priced.new }
    ensures flags { flags_of priced.new ≡ record (flags_of priced.old) { fixed = slice_set priced.old.live.fixed event false } }
    ensures place { HasPlace day.now.net.now day.now.rows.now event priced.old.live priced.new.live steps.old steps.new }
{
    if day.rows.cancelled(event) {
        set_alone(priced, day, event, into, out, steps);
    } else {
        open_place(priced, day, event, out);
    }
}

/// The same of a cancelled event, into which nothing leads that is held.
fn set_alone<L: Ledger>(
    priced: &mut PricedTimetable,
    day: &Day<'_>,
    event: usize,
    into: &[usize],
    out: &[usize],
    steps: &mut Steps<L>,
)
    requires priced { IsPriced day.now.net.now priced.old }
    requires is_event { event < length day.now.net.now.events }
    requires into { into.now ≡ places_into day.now.net.now event }
    requires out { out.now ≡ places_out_of day.now.net.now event }
    requires ahead { passed_at day.now.rows.now event ≡ None }
    requires alone { IsEnteredByNone day.now.net.now priced.old.live.given.held event }
    ensures priced { IsPriced day.now.net.now priced.new }
    ensures flags { flags_of priced.new ≡ record (flags_of priced.old) { fixed = slice_set priced.old.live.fixed event false } }
    ensures place { HasPlace day.now.net.now day.now.rows.now event priced.old.live priced.new.live steps.old steps.new }
{
    let floor = floor_of(day.net, day.rows, event);
    priced.fix(day.net, event, floor, into, out, steps);
    priced.free(day.net, event, out);
}

/// Gives an event that has not passed its floor by the rows, and lets its time move.
fn open_place(priced: &mut PricedTimetable, day: &Day<'_>, event: usize, out: &[usize])
    requires priced { IsPriced day.now.net.now priced.old }
    requires is_event { event < length day.now.net.now.events }
    requires out { out.now ≡ places_out_of day.now.net.now event }
    ensures priced { IsPriced day.now.net.now priced.new }
    ensures given { priced.new.live.given ≡ with_floor priced.old.live.given event (floor_of day.now.net.now day.now.rows.now event) }
    ensures times { priced.new.live.times ≡ priced.old.live.times }
    ensures cycle_stays { priced.new.live.order.cycle ≡ priced.old.live.order.cycle }
    ensures flag { priced.new.live.fixed ≡ slice_set priced.old.live.fixed event false }
    ensures passed { priced.new.passed ≡ priced.old.passed }
    ensures cancelled { priced.new.cancelled ≡ priced.old.cancelled }
    ensures charged { priced.new.charged ≡ priced.old.charged }
{
    priced.free(day.net, event, out);
    priced.set_floor(day.net, event, floor_of(day.net, day.rows, event));
}

/// Lets the activities go that a flip decides about and that are not active.
fn let_go_by_flip<L: Ledger>(
    priced: &mut PricedTimetable,
    day: &Day<'_>,
    flip: Flip,
    steps: &mut Steps<L>,
)
    requires priced { IsPriced day.now.net.now priced.old }
    requires reaches { ReachesFlip day.now.rows.now flip }
    ensures priced { IsPriced day.now.net.now priced.new }
    ensures flags { flags_of priced.new ≡ flags_of priced.old }
    ensures gone { LetsGo day.now.net.now day.now.rows.now (Within day.now.net.now (IsDecided day.now.net.now flip)) priced.old.live
        priced.new.live }
{
    match flip {
        Flip::Keep { act } | Flip::Drop { act } => let_go(priced, day, &[act]),
        Flip::First { pair, .. } => let_go_pair(priced, day, pair, steps),
    }
}

/// Lets the activities go that lead out of the events of a pair and are not active.
fn let_go_pair<L: Ledger>(
    priced: &mut PricedTimetable,
    day: &Day<'_>,
    pair: usize,
    steps: &mut Steps<L>,
)
    requires priced { IsPriced day.now.net.now priced.old }
    requires is_pair { pair < length day.now.net.now.pairs }
    ensures priced { IsPriced day.now.net.now priced.new }
    ensures flags { flags_of priced.new ≡ flags_of priced.old }
    ensures gone { LetsGo day.now.net.now day.now.rows.now (Within day.now.net.now (IsDecided day.now.net.now (Flip.First pair true)))
        priced.old.live priced.new.live }
{
    let (small, large) = rows_of_pair(day, pair, steps);
    let_go(priced, day, small);
    let_go(priced, day, large);
}

/// The activities out of the two events of a pair.
fn rows_of_pair<'d, L: Ledger>(
    day: &Day<'d>,
    pair: usize,
    steps: &mut Steps<L>,
) -> (&'d [usize], &'d [usize])
    requires { pair < length day.now.net.now.pairs }
    ensures small { result.0.now ≡ places_out_of day.now.net.now (pair_at day.now.net.now pair).small }
    ensures large { result.1.now ≡ places_out_of day.now.net.now (pair_at day.now.net.now pair).large }
    ensures of_small { All (λ a. a < length day.now.net.now.activities) result.0.now }
    ensures of_large { All (λ a. a < length day.now.net.now.activities) result.1.now }
{
    day.net.reveal();
    let Pair { small, large } = *day.net.pair(pair);
    (day.net.out_row(small, steps), day.net.out_row(large, steps))
}

/// Holds the active activities that a flip decides about. One that would make a cycle is refused.
fn take_up_by_flip<L: Ledger>(
    priced: &mut PricedTimetable,
    day: &Day<'_>,
    flip: Flip,
    steps: &mut Steps<L>,
) -> Result<(), Cyclic>
    requires priced { IsPriced day.now.net.now priced.old }
    requires reaches { ReachesFlip day.now.rows.now flip }
    requires open { FixesNoOther day.now.rows.now priced.old.live.fixed }
    ensures priced { IsPriced day.now.net.now priced.new }
    ensures flags { flags_of priced.new ≡ flags_of priced.old }
    ensures taken { OnOk result (TakesUp day.now.net.now day.now.rows.now (Within day.now.net.now (IsDecided day.now.net.now flip))
        priced.old.live priced.new.live) }
    ensures refused { OnErr result (IsRefused day.now.net.now day.now.rows.now priced.old.live priced.new.live) }
{
    match flip {
        Flip::Keep { act } | Flip::Drop { act } => take_up(priced, day, &[act]),
        Flip::First { pair, .. } => take_up_pair(priced, day, pair, steps),
    }
}

/// Holds the active activities out of the events of a pair. One that would make a cycle is refused.
fn take_up_pair<L: Ledger>(
    priced: &mut PricedTimetable,
    day: &Day<'_>,
    pair: usize,
    steps: &mut Steps<L>,
) -> Result<(), Cyclic>
    requires priced { IsPriced day.now.net.now priced.old }
    requires is_pair { pair < length day.now.net.now.pairs }
    requires open { FixesNoOther day.now.rows.now priced.old.live.fixed }
    ensures priced { IsPriced day.now.net.now priced.new }
    ensures flags { flags_of priced.new ≡ flags_of priced.old }
    ensures taken { OnOk result (TakesUp day.now.net.now day.now.rows.now (Within day.now.net.now (IsDecided day.now.net.now (Flip.First
        pair true))) priced.old.live
        priced.new.live) }
    ensures refused { OnErr result (IsRefused day.now.net.now day.now.rows.now priced.old.live priced.new.live) }
{
    let (small, large) = rows_of_pair(day, pair, steps);
    match take_up(priced, day, small) {
        Ok(()) => {}
        Err(Cyclic) => return Err(Cyclic),
    }
    match take_up(priced, day, large) {
        Ok(()) => Ok(()),
        Err(Cyclic) => Err(Cyclic),
    }
}

/// Lets the activities go that flips decide about and that are not active.
pub fn let_go_by_flips<L: Ledger>(
    priced: &mut PricedTimetable,
    day: &Day<'_>,
    flips: &[Flip],
    steps: &mut Steps<L>,
)
    requires priced { IsPriced day.now.net.now priced.old }
    requires reaches { All (ReachesFlip day.now.rows.now) flips.now }
    ensures priced { IsPriced day.now.net.now priced.new }
    ensures flags { flags_of priced.new ≡ flags_of priced.old }
    ensures gone { LetsGo day.now.net.now day.now.rows.now (Within day.now.net.now (IsDecidedBefore day.now.net.now flips.now (length
        flips.now))) priced.old.live
        priced.new.live }
{
    for flip in flips {
        let_go_by_flip(priced, day, *flip, steps);
    }
}

/// Holds the active activities that flips decide about. One that would make a cycle is refused.
pub fn take_up_by_flips<L: Ledger>(
    priced: &mut PricedTimetable,
    day: &Day<'_>,
    flips: &[Flip],
    steps: &mut Steps<L>,
) -> Result<(), Cyclic>
    requires priced { IsPriced day.now.net.now priced.old }
    requires reaches { All (ReachesFlip day.now.rows.now) flips.now }
    requires open { FixesNoOther day.now.rows.now priced.old.live.fixed }
    ensures priced { IsPriced day.now.net.now priced.new }
    ensures flags { flags_of priced.new ≡ flags_of priced.old }
    ensures taken { OnOk result (TakesUp day.now.net.now day.now.rows.now (Within day.now.net.now (IsDecidedBefore day.now.net.now
        flips.now (length flips.now)))
        priced.old.live priced.new.live) }
    ensures refused { OnErr result (IsRefused day.now.net.now day.now.rows.now priced.old.live priced.new.live) }
{
    for flip in flips {
        match take_up_by_flip(priced, day, *flip, steps) {
            Ok(()) => {}
            Err(Cyclic) => return Err(Cyclic),
        }
    }
    Ok(())
}
