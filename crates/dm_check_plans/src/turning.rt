//! What a decision holds and charges for, flagged or no longer.
ghost use Rattle.std.specs.Prelude.{◌≡◌, ◌<◌, Bool, List, length, slice_set, MatchBool};
ghost use Rattle.dm_network.specs.Net.{activity_at};
ghost use Rattle.dm_rows.specs.Relax.{is_of_pair};
ghost use Rattle.dm_rows.specs.Rows.{IsSized};
ghost use Rattle.dm_check_times.specs.KeptCosts.{IsKeptCostOf, IsPricedFor};
ghost use Rattle.dm_paths.specs.Flags.{is_flagged};
ghost use Rattle.dm_check_plans.specs.Inside.Flags.{AreSetWhere};
ghost use Rattle.dm_check_plans.specs.Inside.Timetables.{IsTimetableOf, KeepsSpans};
ghost use Rattle.dm_paths.specs.Decisions.{is_directed, is_held_by, is_charged_by, ReachesNet};

use crate::held_timetable::HeldTimetable;
use dm_check_times::{Charges, KeptCost, row_out_of};
use dm_network::Network;
use dm_rows::{Flip, Rows, first_event};

/// Makes held and flags what a decision holds and charges for, or lets it go and takes the flags away.
pub fn turn(
    net: &Network,
    flip: Flip,
    value: bool,
    timetable: &mut HeldTimetable,
    charged: &mut [bool],
)
    requires reaches { ReachesNet net.now flip }
    requires timetable { IsTimetableOf net.now timetable.old }
    requires charged { length charged.old ≡ length net.now.activities }
    ensures timetable { IsTimetableOf net.now timetable.new }
    ensures keeps { KeepsSpans timetable.old timetable.new }
    ensures times { timetable.new.kept.times ≡ timetable.old.kept.times }
    ensures held { AreSetWhere (is_held_by net.now flip) value (length net.now.activities) timetable.old.kept.held timetable.new.kept.held }
    ensures charged { AreSetWhere (is_charged_by flip) value (length net.now.activities) charged.old charged.new }
{
    match flip {
        Flip::Keep { act } => timetable.set_held(net, act, value),
        Flip::Drop { act } => charged[act] = value,
        Flip::First { pair, small } => {
            let first = first_event(net, pair, small);
            turn_direction(net, pair, first, value, timetable);
        }
    }
}

/// Takes the weight anew of what a decision charges for, whose flag has been set or taken away.
pub fn weigh(net: &Network, rows: &Rows, flip: Flip, charged: &[bool], cost: &mut KeptCost)
    requires sized { IsSized net.now rows.now }
    requires reaches { ReachesNet net.now flip }
    requires flags { length charged.now ≡ length net.now.activities }
    requires kept { IsKeptCostOf net.now cost.old }
    ensures kept { IsKeptCostOf net.now cost.new }
    ensures times { cost.new.times ≡ cost.old.times }
    ensures priced { (before : List Bool) (value : Bool)
        → AreSetWhere (is_charged_by flip) value (length net.now.activities) before charged.now
        → IsPricedFor net.now rows.now (is_flagged before) cost.old → IsPricedFor net.now rows.now (is_flagged charged.now) cost.new }
{
    match flip {
        Flip::Keep { .. } => {}
        Flip::Drop { act } => cost.renew(net, rows, &Charges::Flagged(charged), act),
        Flip::First { .. } => {}
    }
}

/// Makes the headways of a pair out of one of its events held, or lets them go.
fn turn_direction(
    net: &Network,
    pair: usize,
    tail: usize,
    value: bool,
    timetable: &mut HeldTimetable,
)
    requires is_event { tail < length net.now.events }
    requires timetable { IsTimetableOf net.now timetable.old }
    ensures timetable { IsTimetableOf net.now timetable.new }
    ensures keeps { KeepsSpans timetable.old timetable.new }
    ensures times { timetable.new.kept.times ≡ timetable.old.kept.times }
    ensures held { AreSetWhere (is_directed net.now pair tail) value (length net.now.activities)
        timetable.old.kept.held timetable.new.kept.held }
{
    let row = row_out_of(net, tail);
    for a in row {
        turn_one(net, pair, *a, value, timetable);
    }
}

/// Makes an activity held, or lets it go, where it is a headway of a pair.
fn turn_one(net: &Network, pair: usize, a: usize, value: bool, timetable: &mut HeldTimetable)
    requires is_activity { a < length net.now.activities }
    requires timetable { IsTimetableOf net.now timetable.old }
    ensures timetable { IsTimetableOf net.now timetable.new }
    ensures keeps { KeepsSpans timetable.old timetable.new }
    ensures times { timetable.new.kept.times ≡ timetable.old.kept.times }
    ensures held { MatchBool (is_of_pair pair (activity_at net.now a).pair)
        (timetable.new.kept.held ≡ slice_set timetable.old.kept.held a value)
        (timetable.new.kept.held ≡ timetable.old.kept.held) }
{
    if is_headway_of(net, a, pair) {
        timetable.set_held(net, a, value);
    }
}

/// Whether the activity is a headway of the pair.
pub fn is_headway_of(net: &Network, a: usize, pair: usize) -> bool
    requires { a < length net.now.activities }
    ensures { result ≡ is_of_pair pair (activity_at net.now a).pair }
{
    match net.activity(a).pair {
        None => false,
        Some(its) => its == pair,
    }
}
