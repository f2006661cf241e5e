//! A cost kept with rows as they change.
ghost use Rattle.std.specs.Prelude.{◌≡◌, ◌<◌, true, length};
ghost use Rattle.dm_rows.specs.Rows.{RowsValue, IsSized};
ghost use Rattle.dm_rows.specs.Reach.{Reaches};
ghost use Rattle.dm_rows.specs.Resolve.{after_change};
ghost use Rattle.dm_rows.specs.Cost.{is_lost_change};
ghost use Rattle.dm_check_times.specs.KeptCosts.{IsKeptCostOf, IsPricedFor, PassesRunning};
ghost use Rattle.dm_check_times.specs.Timetables.{ChangesNet, FlipsNet};
ghost use Rattle.dm_check_times.specs.Inside.Agreeing.{IsInto};
ghost use Rattle.dm_check_times.specs.Inside.Pricing.{Reprices, IsFlipped};

use crate::charges::Charges;
use crate::kept_cost::KeptCost;
use crate::row::row_into;
use dm_network::Network;
use dm_rows::{Change, Flip, Rows};

/// Keeps what a cost is made of with rows that have just changed so, where lost changes are charged for, and answers yes; or answers
/// no, for an adopted list and an event that is cancelled or restored, which are not followed. An event that passes was not
/// cancelled before ([`passes_running`]). The times stay. It takes no memory, and looks at what the change is about.
pub fn keep_cost(cost: &mut KeptCost, net: &Network, rows: &Rows, change: &Change) -> bool
    requires sized { IsSized net.now rows.now }
    requires kept { IsKeptCostOf net.now cost.old }
    requires within { ChangesNet net.now change.now }
    ensures kept { IsKeptCostOf net.now cost.new }
    ensures times { cost.new.times ≡ cost.old.times }
    ensures priced { result ≡ true → (before : RowsValue) → rows.now ≡ after_change before change.now →
        PassesRunning before change.now → IsPricedFor net.now before (is_lost_change net.now before) cost.old →
        IsPricedFor net.now rows.now (is_lost_change net.now rows.now) cost.new }
{
    match change {
        Change::EventDelay { .. } => true,
        Change::ActDelay { act, .. } => {
            cost.renew(net, rows, &Charges::Lost, *act);
            true
        }
        Change::Passed { event, .. } => {
            renew_into(cost, net, rows, *event);
            true
        }
        Change::Recalled { event } => {
            renew_into(cost, net, rows, *event);
            true
        }
        Change::Flipped(flip) => {
            renew_flipped(cost, net, rows, *flip);
            true
        }
        Change::Adopted(_) | Change::Cancelled { .. } | Change::Restored { .. } => false,
        Change::Clock { .. } => true,
        Change::Locked(_) => true,
        Change::Unlocked(_) => true,
    }
}

/// Whether a change of the rows lets no event pass that is cancelled.
pub fn passes_running(rows: &Rows, change: &Change) -> bool
    requires as_many { length rows.now.cancelled ≡ length rows.now.passed }
    requires reaches { Reaches rows.now change.now }
    ensures { result ≡ true → PassesRunning rows.now change.now }
{
    match change {
        Change::Passed { event, .. } => !rows.cancelled(*event),
        _ => true,
    }
}

/// Takes the weights of the activities into an event anew.
fn renew_into(cost: &mut KeptCost, net: &Network, rows: &Rows, event: usize)
    requires sized { IsSized net.now rows.now }
    requires kept { IsKeptCostOf net.now cost.old }
    requires is_event { event < length net.now.events }
    ensures kept { IsKeptCostOf net.now cost.new }
    ensures reprices { Reprices net.now rows.now (is_lost_change net.now rows.now) (IsInto net.now event) cost.old cost.new }
{
    cost.renew_row(net, rows, &Charges::Lost, row_into(net, event));
}

/// Takes the weight of the change anew that is kept or dropped.
fn renew_flipped(cost: &mut KeptCost, net: &Network, rows: &Rows, flip: Flip)
    requires sized { IsSized net.now rows.now }
    requires kept { IsKeptCostOf net.now cost.old }
    requires within { FlipsNet net.now flip }
    ensures kept { IsKeptCostOf net.now cost.new }
    ensures reprices { Reprices net.now rows.now (is_lost_change net.now rows.now) (IsFlipped flip) cost.old cost.new }
{
    match flip {
        Flip::Keep { act } => cost.renew(net, rows, &Charges::Lost, act),
        Flip::Drop { act } => cost.renew(net, rows, &Charges::Lost, act),
        Flip::First { .. } => {}
    }
}
