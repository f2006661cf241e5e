//! What feeds may say, what it comes to by place, and why it is refused.

ghost use Rattle.std.specs.Prelude.{◌≡◌, MatchBool};

use dm_base::{ActId, EventId, Items, Secs};

/// A choice that a dispatcher makes.
#[derive(Clone, Copy, PartialEq, Eq, Debug)]
pub enum Decision {
    /// The change waits for its passengers.
    Keep(ActId),

    /// The change does not wait.
    Drop(ActId),

    /// The first event goes before the second one of their pair.
    First(EventId, EventId),
}

impl Decision {
    ghost use Rattle.dm_rows.specs.Decide.{choice_of};
    ghost use Rattle.dm_rows.specs.Sides.{is_first_decision, other_decision};

    /// The choice that it decides. Of a pair the smaller id stands first.
    pub fn choice(self) -> Choice
        ensures { result ≡ choice_of self }
    {
        match self {
            Decision::Keep(act) | Decision::Drop(act) => Choice::Change(act),
            Decision::First(first, second) => {
                if first.0 < second.0 {
                    Choice::Pair(first, second)
                } else {
                    Choice::Pair(second, first)
                }
            }
        }
    }

    /// Whether it is the first decision of its choice: to keep a change, or that the smaller id of a pair goes first.
    pub fn is_first(self) -> bool
        ensures { result ≡ is_first_decision self }
    {
        match self {
            Decision::Keep(_) => true,
            Decision::Drop(_) => false,
            Decision::First(first, second) => first.0 < second.0,
        }
    }

    /// The other decision of the same choice.
    pub fn other(self) -> Decision
        ensures { result ≡ other_decision self }
    {
        match self {
            Decision::Keep(act) => Decision::Drop(act),
            Decision::Drop(act) => Decision::Keep(act),
            Decision::First(first, second) => Decision::First(second, first),
        }
    }

    /// Whether the two are one.
    pub fn is_same(self, other: Decision) -> bool
        ensures { MatchBool result (self ≡ other) (self ≡ other → ⊥) }
    {
        self == other
    }
}

/// Whether two lists of decisions are one.
pub fn are_same_decisions(one: &[Decision], other: &[Decision]) -> bool
    ensures { MatchBool result (one.now ≡ other.now) (one.now ≡ other.now → ⊥) }
{
    if one.len() != other.len() {
        return false;
    }
    for i in 0..one.len() {
        if !one[i].is_same(other[i]) {
            return false;
        }
    }
    true
}

/// What may still be decided.
#[derive(Clone, Copy, PartialEq, Eq, Debug)]
pub enum Choice {
    /// Whether a change is kept.
    Change(ActId),

    /// Which event of a pair is first. The smaller id stands first.
    Pair(EventId, EventId),
}

impl Choice {
    ghost use Rattle.dm_rows.specs.Relax.{is_same_choice};
    ghost use Rattle.dm_rows.specs.Sides.{first_decision, second_decision, is_ordered, sorted_choice};

    /// Its first decision: to keep the change, or that the first event of the pair goes first.
    pub fn first(self) -> Decision
        ensures { result ≡ first_decision self }
    {
        match self {
            Choice::Change(act) => Decision::Keep(act),
            Choice::Pair(small, large) => Decision::First(small, large),
        }
    }

    /// Its second decision: to drop the change, or that the second event of the pair goes first.
    pub fn second(self) -> Decision
        ensures { result ≡ second_decision self }
    {
        match self {
            Choice::Change(act) => Decision::Drop(act),
            Choice::Pair(small, large) => Decision::First(large, small),
        }
    }

    /// Whether it is a change, or a pair of two different ids of which the smaller stands first.
    pub fn is_ordered(self) -> bool
        ensures { result ≡ is_ordered self }
    {
        match self {
            Choice::Change(_) => true,
            Choice::Pair(small, large) => small.0 < large.0,
        }
    }

    /// The same choice, of a pair the smaller id first.
    pub fn sorted(self) -> Choice
        ensures { result ≡ sorted_choice self }
    {
        match self {
            Choice::Change(act) => Choice::Change(act),
            Choice::Pair(one, other) => Decision::First(one, other).choice(),
        }
    }

    /// Whether the two are one.
    pub fn is_same(self, other: Choice) -> bool
        ensures { result ≡ is_same_choice self other }
    {
        match (self, other) {
            (Choice::Change(a), Choice::Change(b)) => a.0 == b.0,
            (Choice::Pair(i, j), Choice::Pair(k, l)) => i.0 == k.0 && j.0 == l.0,
            _ => false,
        }
    }
}

/// A message of a feed.
#[derive(PartialEq, Eq, Debug, Drop)]
pub enum Message {
    /// Sets an event's source delay, in seconds.
    DelayEvent(EventId, Secs),

    /// Sets an activity's source delay, in seconds.
    DelayActivity(ActId, Secs),

    /// The event has passed at this time, in seconds.
    Pass(EventId, Secs),

    /// The event has not passed after all.
    Recall(EventId),

    Keep(ActId),
    Drop(ActId),

    /// The first event goes before the second one of their pair.
    First(EventId, EventId),

    /// Each decision in turn.
    Adopt(Items<Decision>),

    /// It is this time now, in seconds: what has not passed comes no earlier.
    Now(Secs),

    /// The event does not take place: nothing waits for it, and it waits for nothing.
    Cancel(EventId),

    /// The cancelled event takes place after all.
    Restore(EventId),

    /// Nobody may change the decision on this choice.
    Lock(Choice),

    /// The choice may be decided again.
    Unlock(Choice),
}

impl Message {
    /// Whether the two are one.
    pub fn is_same(&self, other: &Message) -> bool
        ensures { MatchBool result (self.now ≡ other.now) (self.now ≡ other.now → ⊥) }
    {
        match (self, other) {
            (Message::DelayEvent(e, d), Message::DelayEvent(f, c)) => e.0 == f.0 && *d == *c,
            (Message::DelayActivity(a, d), Message::DelayActivity(b, c)) => a.0 == b.0 && *d == *c,
            (Message::Pass(e, t), Message::Pass(f, u)) => e.0 == f.0 && *t == *u,
            (Message::Recall(e), Message::Recall(f)) => e.0 == f.0,
            (Message::Keep(a), Message::Keep(b)) => a.0 == b.0,
            (Message::Drop(a), Message::Drop(b)) => a.0 == b.0,
            (Message::First(i, j), Message::First(k, l)) => i.0 == k.0 && j.0 == l.0,
            (Message::Adopt(decisions), Message::Adopt(others)) => {
                are_same_decisions(decisions.as_slice(), others.as_slice())
            }
            (Message::Now(t), Message::Now(u)) => *t == *u,
            (Message::Cancel(e), Message::Cancel(f)) => e.0 == f.0,
            (Message::Restore(e), Message::Restore(f)) => e.0 == f.0,
            (Message::Lock(c), Message::Lock(d)) => c.is_same(*d),
            (Message::Unlock(c), Message::Unlock(d)) => c.is_same(*d),
            _ => false,
        }
    }
}

/// An accepted message, and the feed and line that it came from, both from 1.
#[derive(Drop)]
pub struct Entry {
    pub feed: u32,
    pub line: u32,
    pub message: Message,
}

/// An answer, and the number of the entry at which it was given.
#[derive(Drop)]
pub struct At<E> {
    pub entry: u32,
    pub why: E,
}

/// A choice by place.
#[derive(Clone, Copy, PartialEq, Eq)]
pub enum Spot {
    Change { act: usize },
    Pair { pair: usize },
}

/// A decision by place.
#[derive(Clone, Copy, PartialEq, Eq)]
pub enum Flip {
    Keep { act: usize },
    Drop { act: usize },

    /// Whether the event with the smaller id is first.
    First { pair: usize, small: bool },
}

/// A message by place.
#[derive(PartialEq, Eq, Drop)]
pub enum Change {
    EventDelay { event: usize, delay: Secs },
    ActDelay { act: usize, delay: Secs },
    Passed { event: usize, time: Secs },
    Recalled { event: usize },
    Flipped(Flip),
    Adopted(Items<Flip>),
    Clock { time: Secs },
    Cancelled { event: usize },
    Restored { event: usize },
    Locked(Spot),
    Unlocked(Spot),
}

/// Why a message is refused, in the order in which the causes are looked for.
#[derive(PartialEq, Eq, Debug, Drop)]
pub enum Refusal {
    /// A delay is above 1,000,000 seconds, or a passed time or a clock above 2,000,000,000 seconds.
    Range(u64),

    /// The first id named as an event that is none.
    UnknownEvent(EventId),

    /// An id named as an activity that is none.
    UnknownActivity(ActId),

    /// The activity to keep, drop, lock or unlock is no change.
    UnknownChange(ActId),

    /// The two events form no pair.
    UnknownPair(EventId, EventId),

    /// The event, or the head of the activity, has passed at this time. Of two events it is the first that has.
    Passed(EventId, Secs),

    /// The event to recall has not passed.
    NotPassed(EventId),

    /// The event is cancelled. Of a change it is the tail, or else the head; of two events the first that is.
    Cancelled(EventId),

    /// The event to restore is not cancelled.
    NotCancelled(EventId),

    /// The choice is locked. Of a pair the smaller id stands first.
    Locked(Choice),

    /// The choice to unlock is not locked. Of a pair the smaller id stands first.
    NotLocked(Choice),

    /// The time that it is said to be is before the clock, which is this, in seconds.
    Back(Secs),

    /// The rows after the message have this cycle.
    Cycle(Items<ActId>),

    /// The history has this many entries, and takes no more.
    Full(u32),

    /// There is not enough memory.
    OutOfMemory,
}

/// Why the records of delays and of cancelled events make no start rows.
#[derive(Clone, Copy, PartialEq, Eq, Debug)]
pub enum StartFault {
    /// The first event delay of the file whose id is no event; or, where all delays are known, the first event to cancel that is none.
    UnknownEvent(EventId),

    /// The first activity delay of the file whose id is no activity. Every event is known.
    UnknownActivity(ActId),

    /// There is not enough memory.
    OutOfMemory,
}
