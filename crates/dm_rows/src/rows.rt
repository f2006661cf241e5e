//! The rows of a day, and what one message does to them.
ghost use Rattle.std.specs.Prelude.{ℕ, slice_index_or, ◌≡◌, ◌<◌, ◌≤◌, ◌^◌, None, IsTrue, length, All, fold, IfOk, IfSome};
ghost use Rattle.std.specs.Option.{ForSome};
ghost use Rattle.dm_network.specs.Net.{Net};
ghost use Rattle.dm_rows.specs.Rows.{IsSized, AreAsLong, RowsAreWithinLimits, NoneIsBoth, event_delay_at, act_delay_at, passed_at, is_cancelled, kept_at, is_locked_change, small_first_at, is_locked_pair};
ghost use Rattle.dm_rows.specs.Decide.{is_ahead};
ghost use Rattle.dm_rows.specs.Inside.Delays.{IsStartWith};
ghost use Rattle.dm_rows.specs.Inside.Standings.{passed_of, with_standing, with_change, with_pair, with_kept, with_first, with_locked_change, with_locked_pair, decided_at_start};
ghost use Rattle.dm_rows.specs.Resolve.{after_change, after_flip, after_lock};
ghost use Rattle.dm_rows.specs.Reach.{Reaches, ReachesFlip, ReachesSpot};

use crate::messages::{Change, Flip, Spot};
use crate::starting::first_events;
use dm_base::Secs;
use dm_base::limits::{DELAY, PASSED_TIME};
use dm_network::Network;
use std::alloc::{AllocError, Global};
use std::marker::Model;

/// Where an event stands. It takes the room of the passed time that may be there.
#[derive(Clone, Copy, PartialEq, Eq)]
pub enum Standing {
    /// It is still to come.
    Ahead,

    /// It has passed at this time, in seconds.
    Passed(u32),

    Cancelled,
}

/// How a choice stands: the one of its two decisions that holds, and whether it is locked.
#[derive(Clone, Copy, PartialEq, Eq)]
pub struct Decided {
    first: bool,
    locked: bool,
}

impl Decided {
    /// A choice that is not locked.
    pub(crate) fn free(first: bool) -> Decided
        ensures { result ≡ decided_at_start first }
    {
        Decided {
            first,
            locked: false,
        }
    }
}

/// The source delays, where each event stands, the kept changes, the order of each pair, and which of both are locked, by
/// place, and the clock.
pub struct Rows {
    alloc: Global,

    /// Delays and passed times are below 2^32, and so take half the room.
    event_delays: Vec<u32>,
    act_delays: Vec<u32>,
    standings: Vec<Standing>,
    changes: Vec<Decided>,
    pairs: Vec<Decided>,
    clock: u64,
}

impl Drop for Rows {
    fn drop(self) {
        let Rows {
            alloc: _,
            event_delays: _,
            act_delays: _,
            standings: _,
            changes: _,
            pairs: _,
            clock: _,
        } = self;
    }
}

impl Model for Rows {
    ghost use Rattle.std.specs.Prelude.{map};
    ghost use Rattle.dm_rows.specs.Rows.{RowsValue, NumbersAreWithinLimits};
    ghost use Rattle.dm_rows.specs.Inside.Standings.{passed_of, rows_of};

    ghost Value = { RowsValue };

    ghost view = { λ r. rows_of r.event_delays.items r.act_delays.items r.standings.items r.changes.items r.pairs.items r.clock };

    ghost invariant = { λ r. NumbersAreWithinLimits r.event_delays.items r.act_delays.items (map passed_of r.standings.items) r.clock };
}

/// The same number of seconds in half the room.
pub(crate) fn narrow(seconds: Secs) -> u32
    requires { seconds < 2 ^ 32 }
    ensures { result ≡ seconds }
{
    seconds as u32
}

/// The time at which an event that stands so has passed, or `None` where it has not.
fn passed_time(standing: Standing) -> Option<Secs>
    ensures { result ≡ passed_of standing }
{
    match standing {
        Standing::Passed(seconds) => Some(u64::from(seconds)),
        Standing::Ahead | Standing::Cancelled => None,
    }
}

/// The rows at an entry of a history.
pub struct Snapshot {
    pub entry: u32,
    pub rows: Rows,
}

impl Drop for Snapshot {
    fn drop(self) {
        let Snapshot { entry: _, rows: _ } = self;
    }
}

impl Rows {
    pub(crate) fn at_start(
        alloc: Global,
        net: &Network,
        event_delays: Vec<u32>,
        act_delays: Vec<u32>,
    ) -> Result<Rows, AllocError>
        requires events_within { (i : ℕ) → slice_index_or event_delays.items i 0 ≤ DELAY }
        requires activities_within { (a : ℕ) → slice_index_or act_delays.items a 0 ≤ DELAY }
        ensures { IfOk result (IsStartWith net.now event_delays.items act_delays.items) }
    {
        Ok(Rows {
            alloc,
            event_delays,
            act_delays,
            standings: vec![in alloc; Standing::Ahead; net.events()]?,
            changes: vec![in alloc; Decided::free(true); net.activities()]?,
            pairs: first_events(alloc, net)?,
            clock: 0,
        })
    }

    /// Delays are at most 1,000,000 seconds, passed times and the clock are at most 2,000,000,000, and no event has both passed and
    /// is cancelled. Callers learn it here.
    pub fn is_within_limits(&self)
        ensures limits { RowsAreWithinLimits self.now }
        ensures apart { NoneIsBoth self.now.passed self.now.cancelled }
    {
        let _read = self.clock;
    }

    /// The lists are as long as those beside them, for a proof. It does nothing.
    fn reveal(&self)
        ensures events { length self.now.cancelled ≡ length self.now.passed }
        ensures changes { length self.now.locked_changes ≡ length self.now.kept }
        ensures pairs { length self.now.locked_pairs ≡ length self.now.small_first }
    {
        let _read = self.clock;
    }

    /// How many events the rows are of.
    pub fn events(&self) -> usize
        ensures count { result ≡ length self.now.event_delays }
        ensures limits { RowsAreWithinLimits self.now }
    {
        self.event_delays.len()
    }

    /// The source delay of the event at this place, in seconds.
    pub fn event_delay(&self, i: usize) -> Secs
        requires { i < length self.now.event_delays }
        ensures value { result ≡ event_delay_at self.now i }
        ensures limit { result ≤ DELAY }
    {
        u64::from(self.event_delays[i])
    }

    /// The source delay of the activity at this place, in seconds.
    pub fn act_delay(&self, a: usize) -> Secs
        requires { a < length self.now.act_delays }
        ensures value { result ≡ act_delay_at self.now a }
        ensures limit { result ≤ DELAY }
    {
        u64::from(self.act_delays[a])
    }

    /// When the event at this place has passed, in seconds, or `None` where it has not.
    pub fn passed(&self, i: usize) -> Option<Secs>
        requires { i < length self.now.passed }
        ensures value { result ≡ passed_at self.now i }
        ensures limit { IfSome result (λ t. t ≤ PASSED_TIME) }
    {
        passed_time(self.standings[i])
    }

    /// Whether the event at this place is cancelled. One that has passed is not.
    pub fn cancelled(&self, i: usize) -> bool
        requires { i < length self.now.cancelled }
        ensures value { result ≡ is_cancelled self.now i }
        ensures not_passed { IsTrue result → passed_at self.now i ≡ None }
    {
        matches!(self.standings[i], Standing::Cancelled)
    }

    /// Whether the event at this place is still to come: it has neither passed nor is it cancelled.
    pub fn ahead(&self, i: usize) -> bool
        requires { i < length self.now.passed }
        ensures { result ≡ is_ahead self.now i }
    {
        matches!(self.standings[i], Standing::Ahead)
    }

    /// Whether the change at this place is kept.
    pub fn kept(&self, a: usize) -> bool
        requires { a < length self.now.kept }
        ensures { result ≡ kept_at self.now a }
    {
        self.changes[a].first
    }

    /// Whether the change at this place is locked.
    pub fn locked_change(&self, a: usize) -> bool
        requires { a < length self.now.locked_changes }
        ensures { result ≡ is_locked_change self.now a }
    {
        self.changes[a].locked
    }

    /// Whether the event with the smaller id is first in the pair at this place.
    pub fn small_first(&self, p: usize) -> bool
        requires { p < length self.now.small_first }
        ensures { result ≡ small_first_at self.now p }
    {
        self.pairs[p].first
    }

    /// Whether the pair at this place is locked.
    pub fn locked_pair(&self, p: usize) -> bool
        requires { p < length self.now.locked_pairs }
        ensures { result ≡ is_locked_pair self.now p }
    {
        self.pairs[p].locked
    }

    /// The clock, in seconds: no event that has not passed lies before it.
    pub fn clock(&self) -> Secs
        ensures value { result ≡ self.now.clock }
        ensures limit { result ≤ PASSED_TIME }
    {
        self.clock
    }

    /// Equal rows.
    pub fn copy(&self) -> Result<Rows, AllocError>
        ensures same { IfOk result (λ rows. rows ≡ self.now) }
        ensures limits { RowsAreWithinLimits self.now }
    {
        Ok(Rows {
            alloc: self.alloc,
            event_delays: Vec::from_slice(self.alloc, &self.event_delays)?,
            act_delays: Vec::from_slice(self.alloc, &self.act_delays)?,
            standings: Vec::from_slice(self.alloc, &self.standings)?,
            changes: Vec::from_slice(self.alloc, &self.changes)?,
            pairs: Vec::from_slice(self.alloc, &self.pairs)?,
            clock: self.clock,
        })
    }

    /// Becomes equal to other rows of the same network, in the room that is there.
    pub fn copy_from(&mut self, other: &Rows)
        requires { AreAsLong self.old other.now }
        ensures { self.new ≡ other.now }
    {
        self.event_delays.copy_from_slice(&other.event_delays);
        self.act_delays.copy_from_slice(&other.act_delays);
        self.standings.copy_from_slice(&other.standings);
        self.changes.copy_from_slice(&other.changes);
        self.pairs.copy_from_slice(&other.pairs);
        self.clock = other.clock;
    }

    /// Sets one decision.
    fn set(&mut self, flip: Flip)
        requires { ReachesFlip self.old flip }
        ensures { self.new ≡ after_flip self.old flip }
    {
        match flip {
            Flip::Keep { act } => self.set_kept(act, true),
            Flip::Drop { act } => self.set_kept(act, false),
            Flip::First { pair, small } => self.set_first(pair, small),
        }
    }

    /// Locks or unlocks one choice.
    fn set_lock(&mut self, spot: Spot, locked: bool)
        requires { ReachesSpot self.old spot }
        ensures { self.new ≡ after_lock self.old spot locked }
    {
        match spot {
            Spot::Change { act } => self.set_locked_change(act, locked),
            Spot::Pair { pair } => self.set_locked_pair(pair, locked),
        }
    }

    /// The change is kept or not from now on.
    fn set_kept(&mut self, act: usize, kept: bool)
        requires { act < length self.old.kept }
        ensures { self.new ≡ with_kept self.old act kept }
    {
        self.reveal();
        let locked = self.locked_change(act);
        self.decide_change(act, kept, locked);
    }

    /// The event with the smaller id is first in the pair or not from now on.
    fn set_first(&mut self, pair: usize, small: bool)
        requires { pair < length self.old.small_first }
        ensures { self.new ≡ with_first self.old pair small }
    {
        self.reveal();
        let locked = self.locked_pair(pair);
        self.decide_pair(pair, small, locked);
    }

    /// The change is locked or not from now on.
    fn set_locked_change(&mut self, act: usize, locked: bool)
        requires { act < length self.old.locked_changes }
        ensures { self.new ≡ with_locked_change self.old act locked }
    {
        self.reveal();
        let kept = self.kept(act);
        self.decide_change(act, kept, locked);
    }

    /// The pair is locked or not from now on.
    fn set_locked_pair(&mut self, pair: usize, locked: bool)
        requires { pair < length self.old.locked_pairs }
        ensures { self.new ≡ with_locked_pair self.old pair locked }
    {
        self.reveal();
        let small = self.small_first(pair);
        self.decide_pair(pair, small, locked);
    }

    /// The change is kept or not, and locked or not.
    fn decide_change(&mut self, act: usize, first: bool, locked: bool)
        requires { act < length self.old.kept }
        ensures { self.new ≡ with_change self.old act first locked }
    {
        self.changes[act] = Decided { first, locked };
    }

    /// The event with the smaller id is first in the pair or not, and the pair is locked or not.
    fn decide_pair(&mut self, pair: usize, first: bool, locked: bool)
        requires { pair < length self.old.small_first }
        ensures { self.new ≡ with_pair self.old pair first locked }
    {
        self.pairs[pair] = Decided { first, locked };
    }

    /// This is where the event stands now.
    fn stand(&mut self, event: usize, standing: Standing)
        requires is_event { event < length self.old.passed }
        requires limit { ForSome (passed_of standing) (λ t. t ≤ PASSED_TIME) }
        ensures { self.new ≡ with_standing self.old event standing }
    {
        self.standings[event] = standing;
    }

    /// Sets each decision in turn.
    fn set_all(&mut self, flips: &[Flip])
        requires { All (ReachesFlip self.old) flips.now }
        ensures { self.new ≡ fold after_flip self.old flips.now }
    {
        for flip in flips {
            self.set(*flip);
        }
    }

    /// Makes the change of an admitted message.
    pub fn apply(&mut self, change: &Change)
        requires { Reaches self.old change.now }
        ensures rows { self.new ≡ after_change self.old change.now }
        ensures sizes { (net : Net) → IsSized net self.old → IsSized net self.new }
    {
        match change {
            Change::EventDelay { event, delay } => self.event_delays[*event] = narrow(*delay),
            Change::ActDelay { act, delay } => self.act_delays[*act] = narrow(*delay),
            Change::Passed { event, time } => self.stand(*event, Standing::Passed(narrow(*time))),
            Change::Recalled { event } => self.recall(*event),
            Change::Flipped(flip) => self.set(*flip),
            Change::Adopted(flips) => {
                self.set_all(flips.as_slice());
            }
            Change::Clock { time } => self.clock = *time,
            Change::Cancelled { event } => self.cancel(*event),
            Change::Restored { event } => self.restore(*event),
            Change::Locked(spot) => self.set_lock(*spot, true),
            Change::Unlocked(spot) => self.set_lock(*spot, false),
        }
    }

    /// The event, which has not passed, is cancelled.
    fn cancel(&mut self, event: usize)
        requires is_event { event < length self.old.cancelled }
        requires ahead { passed_at self.old event ≡ None }
        ensures { self.new ≡ after_change self.old (Change.Cancelled event) }
    {
        self.reveal();
        self.stand(event, Standing::Cancelled);
    }

    /// The event has not passed, and stays cancelled where it is.
    fn recall(&mut self, event: usize)
        requires { event < length self.old.passed }
        ensures { self.new ≡ after_change self.old (Change.Recalled event) }
    {
        self.reveal();
        if !self.cancelled(event) {
            self.stand(event, Standing::Ahead);
        }
    }

    /// The event is not cancelled, and stays passed where it has.
    fn restore(&mut self, event: usize)
        requires { event < length self.old.cancelled }
        ensures { self.new ≡ after_change self.old (Change.Restored event) }
    {
        self.reveal();
        if self.cancelled(event) {
            self.stand(event, Standing::Ahead);
        }
    }
}
