//! Refusals compared and copied.
ghost use Rattle.std.specs.Prelude.{◌≡◌, IfOk};
ghost use Rattle.dm_check_rows.specs.Claims.{Tells};

use dm_base::{ActId, Items};
use dm_rows::{Choice, Refusal};
use std::alloc::{AllocError, Global};

/// Whether two ids are one.
fn is_id(one: ActId, other: ActId) -> bool
    ensures { Tells (one ≡ other) result }
{
    one.0 == other.0
}

/// Whether two lists of ids are one.
fn are_ids(one: &[ActId], other: &[ActId]) -> bool
    ensures { Tells (one.now ≡ other.now) result }
{
    if one.len() != other.len() {
        return false;
    }
    for i in 0..one.len() {
        if !is_id(one[i], other[i]) {
            return false;
        }
    }
    true
}

/// Whether two choices are one.
fn is_choice(one: Choice, other: Choice) -> bool
    ensures { Tells (one ≡ other) result }
{
    match (one, other) {
        (Choice::Change(a), Choice::Change(b)) => a.0 == b.0,
        (Choice::Pair(i, j), Choice::Pair(k, l)) => i.0 == k.0 && j.0 == l.0,
        _ => false,
    }
}

/// Whether two refusals are one.
pub fn is_same_refusal(one: &Refusal, other: &Refusal) -> bool
    ensures { Tells (one.now ≡ other.now) result }
{
    match (one, other) {
        (Refusal::Range(v), Refusal::Range(w)) => *v == *w,
        (Refusal::UnknownEvent(e), Refusal::UnknownEvent(f)) => e.0 == f.0,
        (Refusal::UnknownActivity(a), Refusal::UnknownActivity(b)) => a.0 == b.0,
        (Refusal::UnknownChange(a), Refusal::UnknownChange(b)) => a.0 == b.0,
        (Refusal::UnknownPair(i, j), Refusal::UnknownPair(k, l)) => i.0 == k.0 && j.0 == l.0,
        (Refusal::Passed(e, t), Refusal::Passed(f, u)) => e.0 == f.0 && *t == *u,
        (Refusal::NotPassed(e), Refusal::NotPassed(f)) => e.0 == f.0,
        (Refusal::Cancelled(e), Refusal::Cancelled(f)) => e.0 == f.0,
        (Refusal::NotCancelled(e), Refusal::NotCancelled(f)) => e.0 == f.0,
        (Refusal::Locked(c), Refusal::Locked(d)) => is_choice(*c, *d),
        (Refusal::NotLocked(c), Refusal::NotLocked(d)) => is_choice(*c, *d),
        (Refusal::Back(v), Refusal::Back(w)) => *v == *w,
        (Refusal::Cycle(ids), Refusal::Cycle(others)) => {
            are_ids(ids.as_slice(), others.as_slice())
        }
        (Refusal::Full(n), Refusal::Full(m)) => *n == *m,
        (Refusal::OutOfMemory, Refusal::OutOfMemory) => true,
        _ => false,
    }
}

/// The refusal once more. `Err` is want of memory alone; a cycle takes it.
pub fn copy_of_refusal(alloc: Global, refusal: &Refusal) -> Result<Refusal, AllocError>
    ensures { IfOk result (λ copy. copy ≡ refusal.now) }
{
    match refusal {
        Refusal::Range(value) => Ok(Refusal::Range(*value)),
        Refusal::UnknownEvent(event) => Ok(Refusal::UnknownEvent(*event)),
        Refusal::UnknownActivity(act) => Ok(Refusal::UnknownActivity(*act)),
        Refusal::UnknownChange(act) => Ok(Refusal::UnknownChange(*act)),
        Refusal::UnknownPair(one, other) => Ok(Refusal::UnknownPair(*one, *other)),
        Refusal::Passed(event, time) => Ok(Refusal::Passed(*event, *time)),
        Refusal::NotPassed(event) => Ok(Refusal::NotPassed(*event)),
        Refusal::Cancelled(event) => Ok(Refusal::Cancelled(*event)),
        Refusal::NotCancelled(event) => Ok(Refusal::NotCancelled(*event)),
        Refusal::Locked(choice) => Ok(Refusal::Locked(*choice)),
        Refusal::NotLocked(choice) => Ok(Refusal::NotLocked(*choice)),
        Refusal::Back(clock) => Ok(Refusal::Back(*clock)),
        Refusal::Cycle(ids) => match Items::from_slice(alloc, ids.as_slice()) {
            Ok(ids) => Ok(Refusal::Cycle(ids)),
            Err(AllocError) => Err(AllocError),
        },
        Refusal::Full(entries) => Ok(Refusal::Full(*entries)),
        Refusal::OutOfMemory => Ok(Refusal::OutOfMemory),
    }
}
