//! What is charged for, and which events have passed or are cancelled, as rows have it.
ghost use Rattle.std.specs.Prelude.{◌≡◌, ◌<◌, length, slice_set, All};
ghost use Rattle.dm_network.specs.Net.{places_into, places_out_of};
ghost use Rattle.dm_rows.specs.Active.{has_passed};
ghost use Rattle.dm_rows.specs.Rows.{is_cancelled};
ghost use Rattle.dm_rows.specs.Reach.{ReachesFlip};
ghost use Rattle.dm_priced.specs.Priced.{IsPriced};
ghost use Rattle.dm_propagate.specs.Inside.Concern.{IsOfOneBefore};
ghost use Rattle.dm_propagate.specs.Inside.Flags.{flags_of, Charges, IsNamed, IsOut, LeadsOut, SetsFlagsAt};
ghost use Rattle.dm_propagate.specs.Inside.Turning.{IsAmong, IsOnly};

use crate::day::Day;
use dm_priced::PricedTimetable;
use dm_rows::{Flip, is_lost_change};

/// Sets the flags of an event and of the activities into it and out of it, which are those of these rows, to what the rows say.
/// Those out of it are looked at only where it was cancelled or is.
pub fn set_flags_at(
    priced: &mut PricedTimetable,
    day: &Day<'_>,
    event: usize,
    into: &[usize],
    out: &[usize],
)
    requires priced { IsPriced day.now.net.now priced.old }
    requires is_event { event < length day.now.net.now.events }
    requires into { into.now ≡ places_into day.now.net.now event }
    requires out { out.now ≡ places_out_of day.now.net.now event }
    ensures priced { IsPriced day.now.net.now priced.new }
    ensures live { priced.new.live ≡ priced.old.live }
    ensures flags { SetsFlagsAt day.now.net.now day.now.rows.now event (flags_of priced.old) (flags_of priced.new) }
{
    charge_each(priced, day, into);
    set_cancelled(priced, day, event, out);
    set_passed(priced, day, event, into);
}

/// Takes an event as cancelled or not, as the rows say. Where it is or was, the activities out of it are charged for as the rows
/// say. The row is that of these.
fn set_cancelled(priced: &mut PricedTimetable, day: &Day<'_>, event: usize, out: &[usize])
    requires priced { IsPriced day.now.net.now priced.old }
    requires is_event { event < length day.now.net.now.events }
    requires out { out.now ≡ places_out_of day.now.net.now event }
    ensures priced { IsPriced day.now.net.now priced.new }
    ensures live { priced.new.live ≡ priced.old.live }
    ensures passed { priced.new.passed ≡ priced.old.passed }
    ensures cancelled { priced.new.cancelled ≡ slice_set priced.old.cancelled event (is_cancelled day.now.rows.now event) }
    ensures charged { Charges day.now.net.now day.now.rows.now (LeadsOut day.now.net.now (IsOut day.now.rows.now priced.old.cancelled)
        event) priced.old.charged priced.new.charged }
{
    let cancelled = day.rows.cancelled(event);
    if cancelled || priced.is_cancelled(event) {
        charge_each(priced, day, out);
        priced.cancel(day.net, event, cancelled, out);
    }
}

/// Takes an event as passed or not, as the rows say. The row is that of the activities into it.
fn set_passed(priced: &mut PricedTimetable, day: &Day<'_>, event: usize, into: &[usize])
    requires priced { IsPriced day.now.net.now priced.old }
    requires is_event { event < length day.now.net.now.events }
    requires into { into.now ≡ places_into day.now.net.now event }
    ensures priced { IsPriced day.now.net.now priced.new }
    ensures passed { priced.new ≡ record priced.old {
      passed = slice_set priced.old.passed event (has_passed day.now.rows.now event);
      beside = priced.new.beside;
      sums = priced.new.sums;
    } }
{
    match day.rows.passed(event) {
        Some(_) => priced.pass(day.net, event, into),
        None => priced.recall(day.net, event, into),
    }
}

/// Charges for those of these activities that are changes whose head has not passed and that are dropped or have a cancelled end,
/// and not for the others.
#[tactic(auto, using(crate::proofs::Flagging::none_charged, crate::proofs::Flagging::next_charged))]
fn charge_each(priced: &mut PricedTimetable, day: &Day<'_>, acts: &[usize])
    requires priced { IsPriced day.now.net.now priced.old }
    requires are_activities { All (λ a. a < length day.now.net.now.activities) acts.now }
    ensures priced { IsPriced day.now.net.now priced.new }
    ensures live { priced.new.live ≡ priced.old.live }
    ensures passed { priced.new.passed ≡ priced.old.passed }
    ensures cancelled { priced.new.cancelled ≡ priced.old.cancelled }
    ensures charged { Charges day.now.net.now day.now.rows.now (IsAmong acts.now (length acts.now)) priced.old.charged priced.new.charged }
{
    for a in acts {
        charge_one(priced, day, *a);
    }
}

/// Charges for an activity if it is a change whose head has not passed and that is dropped or has a cancelled end.
#[tactic(auto, using(crate::proofs::Flagging::one_charged))]
fn charge_one(priced: &mut PricedTimetable, day: &Day<'_>, a: usize)
    requires priced { IsPriced day.now.net.now priced.old }
    requires is_activity { a < length day.now.net.now.activities }
    ensures priced { IsPriced day.now.net.now priced.new }
    ensures live { priced.new.live ≡ priced.old.live }
    ensures passed { priced.new.passed ≡ priced.old.passed }
    ensures cancelled { priced.new.cancelled ≡ priced.old.cancelled }
    ensures charged { Charges day.now.net.now day.now.rows.now (IsOnly a) priced.old.charged priced.new.charged }
{
    priced.charge(day.net, a, is_lost_change(day.net, day.rows, a));
}

/// Charges for the changes that flips decide about where they are dropped or have a cancelled end, and not for the others.
#[tactic(auto, using(crate::proofs::Flagging::no_flip_charged))]
pub fn charge_by_flips(priced: &mut PricedTimetable, day: &Day<'_>, flips: &[Flip])
    requires priced { IsPriced day.now.net.now priced.old }
    requires reaches { All (ReachesFlip day.now.rows.now) flips.now }
    ensures priced { IsPriced day.now.net.now priced.new }
    ensures live { priced.new.live ≡ priced.old.live }
    ensures passed { priced.new.passed ≡ priced.old.passed }
    ensures cancelled { priced.new.cancelled ≡ priced.old.cancelled }
    ensures charged { Charges day.now.net.now day.now.rows.now (IsOfOneBefore IsNamed flips.now (length flips.now)) priced.old.charged
        priced.new.charged }
{
    for flip in flips {
        charge_by_flip(priced, day, *flip);
    }
}

/// Charges for the change that a flip drops, or no longer for the one that it keeps.
#[tactic(auto, using(crate::proofs::Flagging::charged_by, crate::proofs::Flagging::charged_as_before))]
fn charge_by_flip(priced: &mut PricedTimetable, day: &Day<'_>, flip: Flip)
    requires priced { IsPriced day.now.net.now priced.old }
    requires reaches { ReachesFlip day.now.rows.now flip }
    ensures priced { IsPriced day.now.net.now priced.new }
    ensures live { priced.new.live ≡ priced.old.live }
    ensures passed { priced.new.passed ≡ priced.old.passed }
    ensures cancelled { priced.new.cancelled ≡ priced.old.cancelled }
    ensures charged { Charges day.now.net.now day.now.rows.now (IsNamed flip) priced.old.charged priced.new.charged }
{
    match flip {
        Flip::Keep { act } | Flip::Drop { act } => charge_one(priced, day, act),
        Flip::First { .. } => {}
    }
}
