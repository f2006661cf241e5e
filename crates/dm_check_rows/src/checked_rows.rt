//! Rows as messages come, and their least timetable.
ghost use Rattle.std.specs.Prelude.{◌≡◌, ◌<◌, ◌≤◌, true, false, length, IsTrue, IfOk, IfErr, OnOk, OnErr};
ghost use Rattle.dm_base.specs.declared.limits.TheConstants.{ENTRIES, PENALTY};
ghost use Rattle.dm_network.specs.Net.{Net};
ghost use Rattle.dm_rows.specs.Rows.{RowsValue, IsSized};
ghost use Rattle.dm_rows.specs.Active.{HasNoCycle};
ghost use Rattle.dm_rows.specs.Reach.{Reaches};
ghost use Rattle.dm_rows.specs.Resolve.{after, after_change};
ghost use Rattle.dm_rows.specs.Refuse.{PassesAtOnce, RefusesAdmission, IsNow};
ghost use Rattle.dm_rows.specs.Timetable.{IsLeast};
ghost use Rattle.dm_rows.specs.Cost.{Costs, cost_of};
ghost use Rattle.dm_rows.specs.declared.messages.Refusal.TheVariants.{OutOfMemory};
ghost use Rattle.dm_schedule.specs.Schedule.{IsScheduleOf};
ghost use Rattle.dm_check_times.specs.Binding.{AreBelowLimit};
ghost use Rattle.dm_check_times.specs.Noting.{NotesMoves};
ghost use Rattle.dm_check_times.specs.KeptCosts.{IsKeptCostOf};
ghost use Rattle.dm_check_times.specs.Timetables.{IsRoomOf, IsTimetableOf, IsSettledFor, ChangesNet};
ghost use Rattle.dm_check_rows.specs.Claims.{AreCheckedRowsOf, IsTimeOf, IsKnownFree, IsKept, IsPriced, PassesIf, Tells, TellsAcceptance, times_of};
ghost use Rattle.dm_rows.specs.Harmless.{IsHarmless};

use dm_base::Cost;
use dm_check_times::{
    Charges, HeldCycle, KeptCost, KeptTimetable, cost_of, keep_cost, keep_up, passes_running,
};
use dm_marks::PlaceSet;
use dm_network::Network;
use dm_rows::{Change, Message, Refusal, Rows, admit};
use dm_schedule::{Scheduled, schedule_of};
use std::alloc::{AllocError, Global};
use std::marker::Model;

/// The rows of a network as messages come. Their least timetable is computed where it is asked for, from that of before and what
/// has changed since then; and no cycle is looked for after a message that makes none.
pub struct CheckedRows {
    rows: Rows,

    /// Whether the rows are known to have no cycle.
    is_free: bool,

    /// Whether the timetable is kept with the rows.
    is_kept: bool,

    /// Whether the cost is kept with the rows.
    is_priced: bool,

    /// Whether the timetable is that of the rows, and the cost is kept of its times.
    is_settled: bool,

    /// The events by their scheduled times, which tell those that a clock may move.
    schedule: Vec<Scheduled>,
    timetable: KeptTimetable,
    kept_cost: KeptCost,

    /// The events whose times may not be those of the cost.
    moved: PlaceSet,
}

impl Drop for CheckedRows {
    fn drop(self) {
        let CheckedRows {
            rows: _,
            is_free: _,
            is_kept: _,
            is_priced: _,
            is_settled: _,
            schedule: _,
            timetable: _,
            kept_cost: _,
            moved: _,
        } = self;
    }
}

impl Model for CheckedRows {
    ghost use Rattle.dm_check_rows.specs.Claims.{CheckedRowsValue};

    ghost Value = { CheckedRowsValue };

    ghost view = { λ d. record {
      rows = d.rows;
      is_free = d.is_free;
      is_kept = d.is_kept;
      is_priced = d.is_priced;
      is_settled = d.is_settled;
      schedule = d.schedule.items;
      timetable = d.timetable;
      kept_cost = d.kept_cost;
      moved = d.moved;
    } };

    ghost invariant = { λ d. Unit {0} };
}

impl CheckedRows {
    /// Rows that no message has changed yet. `Err` is want of memory alone.
    pub fn new(alloc: Global, net: &Network, rows: Rows) -> Result<CheckedRows, AllocError>
        requires { IsSized net.now rows }
        ensures stands { IfOk result (AreCheckedRowsOf net.now) }
        ensures rows { IfOk result (λ d. d.rows ≡ rows) }
    {
        Ok(CheckedRows {
            rows,
            is_free: false,
            is_kept: false,
            is_priced: false,
            is_settled: false,
            schedule: schedule_of(alloc, net)?,
            timetable: KeptTimetable::new(alloc, net)?,
            kept_cost: KeptCost::new(alloc, net)?,
            moved: PlaceSet::new(alloc, net.events())?,
        })
    }

    /// The rows.
    pub fn rows(&self) -> &Rows
        ensures { result.now ≡ self.now.rows }
    {
        &self.rows
    }

    /// Whether the rows are known to have no cycle.
    pub(crate) fn is_free(&self) -> bool
        ensures { result ≡ self.now.is_free }
    {
        self.is_free
    }

    /// Goes to other rows of the network. It takes no memory.
    pub fn go_to(&mut self, net: &Network, rows: &Rows)
        requires stands { AreCheckedRowsOf net.now self.old }
        requires sized { IsSized net.now rows.now }
        ensures stands { AreCheckedRowsOf net.now self.new }
        ensures rows { self.new.rows ≡ rows.now }
    {
        self.is_free = false;
        self.is_kept = false;
        self.is_priced = false;
        self.is_settled = false;
        self.rows.copy_from(rows);
    }

    /// Whether nothing refuses the message at so many entries, fewer than a history may have. Where it is accepted the rows are
    /// then those after it; else nothing is said of them. Only an `Adopt` takes memory, and no cycle is looked for where the
    /// message makes none.
    pub fn accept(
        &mut self,
        alloc: Global,
        net: &Network,
        entries: usize,
        message: &Message,
    ) -> Result<bool, AllocError>
        requires stands { AreCheckedRowsOf net.now self.old }
        requires few { entries < ENTRIES }
        ensures tells { IfOk result (TellsAcceptance net.now self.old.rows self.new.rows entries message.now) }
        ensures stands { AreCheckedRowsOf net.now self.new }
    {
        match self.enter(alloc, net, message) {
            Ok(()) => {}
            Err(refusal) => return refused(&refusal),
        }
        if self.is_free || is_now(message) {
            return Ok(true);
        }
        match self.settle_times(net) {
            Ok(()) => Ok(true),
            Err(HeldCycle) => Ok(false),
        }
    }

    /// Makes the rows those after a message, or tells what refuses it at once; then they are as before. Only an `Adopt` takes
    /// memory.
    pub fn enter(&mut self, alloc: Global, net: &Network, message: &Message) -> Result<(), Refusal>
        requires stands { AreCheckedRowsOf net.now self.old }
        ensures stands { AreCheckedRowsOf net.now self.new }
        ensures after { OnOk result (self.new.rows ≡ after net.now self.old.rows message.now) }
        ensures passes { OnOk result (PassesAtOnce net.now self.old.rows message.now) }
        ensures refused { IfErr result (RefusesAdmission net.now self.old.rows message.now) }
        ensures same { OnErr result (self.new ≡ self.old) }
    {
        let change = match admit(alloc, net, &self.rows, message) {
            Ok(change) => change,
            Err(refusal) => return Err(refusal),
        };
        let is_priced = prices_still(self.is_priced, &self.rows, &change);
        self.is_settled = false;
        self.is_free = stays_free(self.is_free, message);
        self.rows.apply(&change);
        self.is_kept = keep_if(
            self.is_kept,
            &mut self.timetable,
            net,
            &self.schedule,
            &self.rows,
            &change,
        );
        self.is_priced = price_if(is_priced, &mut self.kept_cost, net, &self.rows, &change);
        Ok(())
    }

    /// Computes the least timetable of the rows. `Err` comes exactly where they have a cycle. It takes no memory, and nothing is
    /// done where the rows have not changed since the last time.
    pub fn settle(&mut self, net: &Network) -> Result<(), HeldCycle>
        requires stands { AreCheckedRowsOf net.now self.old }
        ensures stands { AreCheckedRowsOf net.now self.new }
        ensures rows { self.new.rows ≡ self.old.rows }
        ensures least { OnOk result (IsLeast net.now self.new.rows (times_of self.new)) }
        ensures early { OnOk result (AreBelowLimit (times_of self.new)) }
        ensures no_cycle { OnOk result (HasNoCycle net.now self.new.rows) }
        ensures cyclic { OnErr result (HasNoCycle net.now self.new.rows → ⊥) }
    {
        if self.is_settled {
            return Ok(());
        }
        match self.compute_times(net) {
            Ok(()) => {
                self.follow_cost(net);
                Ok(())
            }
            Err(HeldCycle) => Err(HeldCycle),
        }
    }

    /// The same, with no cost kept of the times.
    pub fn settle_times(&mut self, net: &Network) -> Result<(), HeldCycle>
        requires stands { AreCheckedRowsOf net.now self.old }
        ensures stands { AreCheckedRowsOf net.now self.new }
        ensures rows { self.new.rows ≡ self.old.rows }
        ensures least { OnOk result (IsLeast net.now self.new.rows (times_of self.new)) }
        ensures early { OnOk result (AreBelowLimit (times_of self.new)) }
        ensures no_cycle { OnOk result (HasNoCycle net.now self.new.rows) }
        ensures cyclic { OnErr result (HasNoCycle net.now self.new.rows → ⊥) }
    {
        if self.is_settled {
            return Ok(());
        }
        self.compute_times(net)
    }

    /// The same, whether the rows have changed or not.
    fn compute_times(&mut self, net: &Network) -> Result<(), HeldCycle>
        requires stands { AreCheckedRowsOf net.now self.old }
        ensures stands { AreCheckedRowsOf net.now self.new }
        ensures rows { self.new.rows ≡ self.old.rows }
        ensures least { OnOk result (IsLeast net.now self.new.rows (times_of self.new)) }
        ensures early { OnOk result (AreBelowLimit (times_of self.new)) }
        ensures no_cycle { OnOk result (HasNoCycle net.now self.new.rows) }
        ensures cyclic { OnErr result (HasNoCycle net.now self.new.rows → ⊥) }
    {
        self.is_settled = false;
        self.is_priced = self.is_priced && self.is_kept;
        match least(
            self.is_kept,
            &mut self.timetable,
            net,
            &self.rows,
            &mut self.moved,
        ) {
            Ok(()) => {
                self.is_free = true;
                self.is_kept = true;
                Ok(())
            }
            Err(HeldCycle) => {
                self.is_free = false;
                self.is_kept = false;
                Err(HeldCycle)
            }
        }
    }

    /// Keeps what the times cost, which are the least ones.
    fn follow_cost(&mut self, net: &Network)
        requires stands { AreCheckedRowsOf net.now self.old }
        requires least { IsLeast net.now self.old.rows (times_of self.old) }
        requires early { AreBelowLimit (times_of self.old) }
        requires no_cycle { HasNoCycle net.now self.old.rows }
        ensures stands { AreCheckedRowsOf net.now self.new }
        ensures rows { self.new.rows ≡ self.old.rows }
        ensures times { times_of self.new ≡ times_of self.old }
    {
        self.kept_cost.bring(
            net,
            &self.rows,
            &Charges::Lost,
            self.timetable.times(),
            self.is_priced,
            &mut self.moved,
        );
        self.is_priced = true;
        self.is_settled = true;
    }

    /// Whether this is the time of the event at this place, where the times are the least ones.
    pub fn is_time(&self, i: usize, time: u128) -> bool
        requires { i < length (times_of self.now) }
        ensures { (net : Net) → IsLeast net self.now.rows (times_of self.now) → i < length net.events
            → Tells (IsTimeOf net self.now.rows i time) result }
    {
        self.timetable.time(i) as u128 == time
    }

    /// Whether the rows cost this, where the times are the least ones. It takes no memory.
    pub fn is_cost(&self, net: &Network, penalty: u64, cost: Cost) -> bool
        requires stands { AreCheckedRowsOf net.now self.now }
        requires least { IsLeast net.now self.now.rows (times_of self.now) }
        requires early { AreBelowLimit (times_of self.now) }
        requires penalty { penalty ≤ PENALTY }
        ensures { Tells (Costs net.now self.now.rows penalty cost) result }
    {
        self.cost(net, penalty) == cost
    }

    /// What the times cost.
    fn cost(&self, net: &Network, penalty: u64) -> Cost
        requires stands { AreCheckedRowsOf net.now self.now }
        requires early { AreBelowLimit (times_of self.now) }
        requires penalty { penalty ≤ PENALTY }
        ensures { result ≡ cost_of net.now self.now.rows (times_of self.now) penalty }
    {
        if self.is_settled {
            self.kept_cost.cost(net, penalty)
        } else {
            cost_of(net, &self.rows, self.timetable.times(), penalty)
        }
    }
}

/// Keeps a timetable with rows that have just changed so, if it is. Answers whether it is kept still.
fn keep_if(
    is_kept: bool,
    timetable: &mut KeptTimetable,
    net: &Network,
    schedule: &[Scheduled],
    rows: &Rows,
    change: &Change,
) -> bool
    requires sized { IsSized net.now rows.now }
    requires schedule { IsScheduleOf net.now schedule.now }
    requires within { ChangesNet net.now change.now }
    requires room { IsRoomOf net.now timetable.old }
    requires timetable { IsTrue is_kept → IsTimetableOf net.now timetable.old }
    ensures room { IsRoomOf net.now timetable.new }
    ensures times { timetable.new.times ≡ timetable.old.times }
    ensures kept { (before : RowsValue) → rows.now ≡ after_change before change.now → IsKept net.now before timetable.old is_kept
        → IsKept net.now rows.now timetable.new result }
{
    if !is_kept {
        return false;
    }
    keep_up(timetable, net, schedule, rows, change)
}

/// Whether a cost that may be kept with rows can be kept through this change of theirs: no cancelled event passes.
fn prices_still(is_priced: bool, rows: &Rows, change: &Change) -> bool
    requires as_many { length rows.now.cancelled ≡ length rows.now.passed }
    requires reaches { Reaches rows.now change.now }
    ensures only { IsTrue result → IsTrue is_priced }
    ensures passes { PassesIf rows.now change.now result }
{
    if !is_priced {
        return false;
    }
    passes_running(rows, change)
}

/// Keeps a cost with rows that have just changed so, if it is. Answers whether it is kept still.
fn price_if(
    is_priced: bool,
    cost: &mut KeptCost,
    net: &Network,
    rows: &Rows,
    change: &Change,
) -> bool
    requires sized { IsSized net.now rows.now }
    requires within { ChangesNet net.now change.now }
    requires kept { IsKeptCostOf net.now cost.old }
    ensures kept { IsKeptCostOf net.now cost.new }
    ensures times { cost.new.times ≡ cost.old.times }
    ensures only { IsTrue result → IsTrue is_priced }
    ensures priced { (before : RowsValue) → rows.now ≡ after_change before change.now → PassesIf before change.now is_priced
        → IsPriced net.now before cost.old is_priced → IsPriced net.now rows.now cost.new result }
{
    if !is_priced {
        return false;
    }
    keep_cost(cost, net, rows, change)
}

/// The least timetable of rows, from that of before where it is kept with them.
fn least(
    is_kept: bool,
    timetable: &mut KeptTimetable,
    net: &Network,
    rows: &Rows,
    moved: &mut PlaceSet,
) -> Result<(), HeldCycle>
    requires sized { IsSized net.now rows.now }
    requires room { IsRoomOf net.now timetable.old }
    requires kept { IsKept net.now rows.now timetable.old is_kept }
    requires as_many_moved { length moved.old.flags ≡ length net.now.events }
    ensures as_many_moved { length moved.new.flags ≡ length net.now.events }
    ensures notes { IsTrue is_kept → NotesMoves timetable.old.times timetable.new.times moved.old.flags moved.new.flags }
    ensures room { IsRoomOf net.now timetable.new }
    ensures settled { OnOk result (IsSettledFor net.now rows.now timetable.new) }
    ensures cyclic { OnErr result (HasNoCycle net.now rows.now → ⊥) }
{
    if is_kept {
        timetable.settle(net, rows, moved)
    } else {
        timetable.fill(net, rows, moved)
    }
}

/// Whether rows that may be known to have no cycle are known to have none after this message, as far as its kind tells.
pub(crate) fn stays_free(is_free: bool, message: &Message) -> bool
    ensures { (net : Net) (rows : RowsValue) → IsSized net rows → IsKnownFree net rows is_free
        → IsKnownFree net (after net rows message.now) result }
{
    if is_harmless(message) { is_free } else { false }
}

/// Whether the message is of a kind that makes no cycle.
fn is_harmless(message: &Message) -> bool
    ensures { result ≡ true → IsHarmless message.now }
{
    match message {
        Message::DelayEvent(_, _)
        | Message::DelayActivity(_, _)
        | Message::Pass(_, _)
        | Message::Drop(_)
        | Message::Now(_)
        | Message::Cancel(_)
        | Message::Lock(_)
        | Message::Unlock(_) => true,
        Message::Recall(_)
        | Message::Restore(_)
        | Message::Keep(_)
        | Message::First(_, _)
        | Message::Adopt(_) => false,
    }
}

/// Whether the message is a clock, which makes no cycle.
pub(crate) fn is_now(message: &Message) -> bool
    ensures is_now { result ≡ true → IsNow message.now }
    ensures is_other { result ≡ false → IsNow message.now → ⊥ }
{
    matches!(message, Message::Now(_))
}

/// No, for this reason, unless it is want of memory.
fn refused(refusal: &Refusal) -> Result<bool, AllocError>
    ensures no { IfOk result (λ b. b ≡ false) }
    ensures cause { OnOk result (refusal.now ≡ OutOfMemory → ⊥) }
{
    match refusal {
        Refusal::OutOfMemory => Err(AllocError),
        _ => Ok(false),
    }
}
