//! A decision that is made or taken back on a priced timetable.
ghost use Rattle.std.specs.Prelude.{true, false, OnOk, OnErr};
ghost use Rattle.dm_live.specs.Live.{IsAtRest, NoneFixed};
ghost use Rattle.dm_network.specs.Held.{is_held, IsCycleOf};
ghost use Rattle.dm_priced.specs.Priced.{IsPriced};
ghost use Rattle.dm_evaluate.specs.Marks.{MarksUnkept};
ghost use Rattle.dm_evaluate.specs.Inside.Moves.{set_where, Turns, Stays, IsOff};
ghost use Rattle.dm_paths.specs.Decisions.{is_held_by, ReachesNet};

use crate::headways::{hold_direction, release_direction};
use crate::marks::ViolationMarks;
use dm_base::Steps;
use dm_graph::search::Cyclic;
use dm_network::Network;
use dm_priced::PricedTimetable;
use dm_rows::{Flip, first_event};
use std::sync::ledger::Ledger;

/// Holds and charges for what a decision does, of which nothing is held, and settles the timetable. Where that makes a cycle,
/// it is held to what it was held to before.
pub fn turn_on<L: Ledger>(
    priced: &mut PricedTimetable,
    marks: &mut ViolationMarks,
    net: &Network,
    flip: Flip,
    steps: &mut Steps<L>,
) -> Result<(), Cyclic>
    requires priced { IsPriced net.now priced.old }
    requires at_rest { IsAtRest priced.old.live }
    requires marks { MarksUnkept net.now priced.old.live.given.spans priced.old.live.times
        (record { changes = marks.old.changes; pairs = marks.old.pairs }) }
    requires reaches { ReachesNet net.now flip }
    requires open { NoneFixed priced.old.live.fixed }
    requires off { IsOff net.now flip priced.old }
    ensures priced { IsPriced net.now priced.new }
    ensures at_rest { IsAtRest priced.new.live }
    ensures marks { MarksUnkept net.now priced.new.live.given.spans priced.new.live.times
        (record { changes = marks.new.changes; pairs = marks.new.pairs }) }
    ensures turns { OnOk result (Turns net.now flip true priced.old priced.new) }
    ensures stays { OnErr result (Stays net.now priced.old priced.new) }
    ensures cycle { OnErr result (IsCycleOf net.now (set_where (is_held_by net.now flip) true (is_held priced.old.live.given.held))
        priced.new.live.order.cycle) }
{
    net.reveal();
    match flip {
        Flip::Keep { act } => match priced.hold(net, act) {
            Ok(()) => {
                priced.settle_watched(net, marks, steps);
                Ok(())
            }
            Err(Cyclic) => Err(Cyclic),
        },
        Flip::Drop { act } => {
            priced.charge(net, act, true);
            Ok(())
        }
        Flip::First { pair, small } => {
            let first = first_event(net, pair, small);
            hold_direction(priced, marks, net, pair, first, steps)
        }
    }
}

/// Lets go what a decision holds, charges for nothing that it charges for, and settles the timetable.
pub fn turn_off<L: Ledger>(
    priced: &mut PricedTimetable,
    marks: &mut ViolationMarks,
    net: &Network,
    flip: Flip,
    steps: &mut Steps<L>,
)
    requires priced { IsPriced net.now priced.old }
    requires at_rest { IsAtRest priced.old.live }
    requires marks { MarksUnkept net.now priced.old.live.given.spans priced.old.live.times
        (record { changes = marks.old.changes; pairs = marks.old.pairs }) }
    requires reaches { ReachesNet net.now flip }
    ensures priced { IsPriced net.now priced.new }
    ensures at_rest { IsAtRest priced.new.live }
    ensures marks { MarksUnkept net.now priced.new.live.given.spans priced.new.live.times
        (record { changes = marks.new.changes; pairs = marks.new.pairs }) }
    ensures turns { Turns net.now flip false priced.old priced.new }
{
    net.reveal();
    match flip {
        Flip::Keep { act } => {
            priced.release(net, act);
            priced.settle_watched(net, marks, steps);
        }
        Flip::Drop { act } => priced.charge(net, act, false),
        Flip::First { pair, small } => {
            let first = first_event(net, pair, small);
            release_direction(priced, marks, net, pair, first, steps);
        }
    }
}
