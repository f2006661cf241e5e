//! Crashes at each call of a life, and the lives after them.
ghost use Rattle.std.specs.Prelude.{IfOk};
ghost use Rattle.dm_serve_cases.specs.Worked.{IsFirstLife, IsNewStore};

use crate::day::{DUE, FIRST, LOGS, SECOND, TEXT, UNREAD};
use crate::lives::{ALL, Growth, Life, live};
use dm_samples::Failure;
use dm_store::{MemStore, StoreError, Tear};
use dm_store_text::Status;
use std::alloc::{AllocError, Global};
use std::sync::Wait;
use std::thread::Threads;

/// More calls than a life makes.
const CALLS: u64 = 100;

/// How many bytes the first feed has up to its first adopted plan, and the second up to its first question.
const ADOPTED: usize = 32;

const ASKED: usize = 5;

/// How many calls a start begins with that only read: the journal, the reply file of each feed, and the journal that is to be
/// repaired.
const READS: u64 = 4;

/// An empty store of which these calls fail.
fn empty(alloc: Global, fails: &[u64]) -> Result<MemStore, AllocError>
    ensures { IfOk result IsNewStore }
{
    let mut replies = Vec::new(alloc);
    replies.push(Vec::new(alloc))?;
    replies.push(Vec::new(alloc))?;
    MemStore::new(alloc, Vec::new(alloc), replies, fails.to_vec(alloc)?)
}

/// What a crash leaves of a store, of which these calls fail next.
fn left_of(
    alloc: Global,
    store: &MemStore,
    tear: Tear,
    fails: &[u64],
) -> Result<MemStore, Failure> {
    match store.after_crash(alloc, tear, fails.to_vec(alloc)?) {
        Ok(left) => Ok(left),
        Err(StoreError::OutOfMemory) => Err(Failure::OutOfMemory),
        Err(_) => Err(Failure::Differs(0)),
    }
}

/// A life over an empty store in which no call fails.
fn first_life<R: Threads + Wait + Sync + AllocGlobal>(rt: &R) -> Result<Life, Failure>
    ensures { IfOk result IsFirstLife }
{
    let store = empty(rt.alloc(), &[])?;
    live(rt, store, ALL)
}

/// Whether a day without a crash comes to what is due.
pub fn one_life<R: Threads + Wait + Sync + AllocGlobal>(rt: &R) -> Result<(), Failure> {
    let alloc = rt.alloc();
    let life = first_life(rt)?;
    if is_whole(alloc, &life)? {
        Ok(())
    } else {
        Err(Failure::Differs(0))
    }
}

/// A digit or letter for each call of a life that begins with an empty store.
pub fn from_nothing<R: Threads + Wait + Sync + AllocGlobal>(
    rt: &R,
    tear: Tear,
    twice: bool,
) -> Result<String, Failure> {
    let alloc = rt.alloc();
    let mut line = String::new(alloc);
    for call in 1..CALLS {
        let life = live(rt, empty(alloc, &[call])?, ALL)?;
        if life.status == Status::Ok {
            break;
        }
        line.push(letter_of(rt, &life, call, tear, twice)?)?;
    }
    Ok(line)
}

/// A digit or letter for each call of a feed that fails, in a life that begins with an empty store.
pub fn failing_feed<R: Threads + Wait + Sync + AllocGlobal>(
    rt: &R,
    feed: usize,
) -> Result<String, Failure> {
    let alloc = rt.alloc();
    let mut line = String::new(alloc);
    for call in 1..CALLS {
        let listed = [call];
        let mut growth: Growth<'_> = ALL;
        if let Some(fails) = growth.fails.get_mut(feed) {
            *fails = &listed;
        }
        let life = live(rt, empty(alloc, &[])?, growth)?;
        if is_whole(alloc, &life)? {
            break;
        }
        line.push(feed_letter(rt, &life)?)?;
    }
    Ok(line)
}

/// The status of a life of which a sync of a feed failed, `f` for one in which a feed was read no further, or a letter for what is
/// wrong of it or behind it.
fn feed_letter<R: Threads + Wait + Sync + AllocGlobal>(
    rt: &R,
    life: &Life,
) -> Result<char, Failure> {
    if life.status != Status::Ok {
        return letter_of(rt, life, CALLS, Tear::All, false);
    }
    let alloc = rt.alloc();
    let next = live(rt, left_of(alloc, &life.store, Tear::All, &[])?, ALL)?;
    let before = left_of(alloc, &life.store, Tear::All, &[])?;
    let after = left_of(alloc, &next.store, Tear::All, &[])?;
    let mut each = DUE.iter().zip(before.was_shown()).zip(after.was_shown());
    if next.status == Status::Ok
        && each.all(|((due, earlier), log)| log.starts_with(earlier) && answers_each(log, due))
    {
        Ok('f')
    } else {
        Ok('n')
    }
}

/// Whether a log answers each of these lines, once and in order.
fn answers_each(log: &[u8], due: &[u8]) -> bool {
    let mut due = due.iter();
    let mut is_first = true;
    for byte in log {
        if is_first && byte.is_ascii_digit() && due.next() != Some(byte) {
            return false;
        }
        is_first = *byte == b'\n';
    }
    due.next().is_none()
}

/// Whether a day comes to what is due where each feed stands in two parts, cut at each place behind the first lines: the first
/// feed's adopted plan, and the second feed's first question.
pub fn in_two_parts<R: Threads + Wait + Sync + AllocGlobal>(rt: &R) -> Result<(), Failure> {
    for cut in ADOPTED..FIRST.len() + 1 {
        let first = [cut];
        let second = [ASKED + cut % (SECOND.len() - ASKED)];
        let growth = Growth {
            stands: [&first, &second],
            fails: [&[], &[]],
        };
        let alloc = rt.alloc();
        let life = live(rt, empty(alloc, &[])?, growth)?;
        if !is_whole(alloc, &life)? {
            return Err(Failure::Differs(cut as u32));
        }
    }
    Ok(())
}

/// The status of a life of which this call failed, or a letter for what is wrong of it or behind it.
fn letter_of<R: Threads + Wait + Sync + AllocGlobal>(
    rt: &R,
    life: &Life,
    call: u64,
    tear: Tear,
    twice: bool,
) -> Result<char, Failure> {
    if let Some(letter) = wrong(rt.alloc(), life, call, &[&[], &[]])? {
        return Ok(letter);
    }
    if !goes_on(rt, life, tear)? || twice && !each_goes_on(rt, life, tear)? {
        return Ok('n');
    }
    match life.status {
        Status::ReadFault => Ok('4'),
        _ => Ok('5'),
    }
}

/// What is wrong of a life of which this call failed, and that began with these reply files.
fn wrong(alloc: Global, life: &Life, call: u64, before: &[&[u8]]) -> Result<Option<char>, Failure> {
    let (status, printed) = if call <= READS {
        (Status::ReadFault, UNREAD)
    } else {
        (Status::WriteFault, &b""[..])
    };
    if life.status != status {
        return Ok(Some('s'));
    }
    if life.printed.as_slice() != printed {
        return Ok(Some('p'));
    }
    let after = left_of(alloc, &life.store, Tear::All, &[])?;
    for ((log, shown), earlier) in LOGS.iter().zip(after.was_shown()).zip(before) {
        if !log.starts_with(shown) || !shown.starts_with(earlier) {
            return Ok(Some('f'));
        }
    }
    Ok(None)
}

/// What the reply file of a feed had shown when the store was made.
fn shown_by(alloc: Global, store: &MemStore, feed: usize) -> Result<Vec<u8>, Failure> {
    match store.was_shown().get(feed) {
        Some(shown) => Ok(shown.to_vec(alloc)?),
        None => Err(Failure::NoDay),
    }
}

/// Whether the life that begins with what a crash leaves of this one is whole.
fn goes_on<R: Threads + Wait + Sync + AllocGlobal>(
    rt: &R,
    life: &Life,
    tear: Tear,
) -> Result<bool, Failure> {
    let alloc = rt.alloc();
    let next = live(rt, left_of(alloc, &life.store, tear, &[])?, ALL)?;
    is_whole(alloc, &next)
}

/// Whether each life goes well that begins with what a crash leaves of this one, and of which a call fails, and the one after it.
fn each_goes_on<R: Threads + Wait + Sync + AllocGlobal>(
    rt: &R,
    life: &Life,
    tear: Tear,
) -> Result<bool, Failure> {
    for call in 1..CALLS {
        let alloc = rt.alloc();
        let store = left_of(alloc, &life.store, tear, &[call])?;
        let shown = [shown_by(alloc, &store, 0)?, shown_by(alloc, &store, 1)?];
        let next = live(rt, store, ALL)?;
        if next.status == Status::Ok {
            return Ok(call > READS);
        }
        if wrong(alloc, &next, call, &[&shown[0], &shown[1]])?.is_some()
            || !goes_on(rt, &next, tear)?
        {
            return Ok(false);
        }
    }
    Ok(false)
}

/// Whether a life ended with the text and the logs of a day without a crash.
fn is_whole(alloc: Global, life: &Life) -> Result<bool, Failure> {
    let after = left_of(alloc, &life.store, Tear::All, &[])?;
    let shown = after.was_shown();
    let logs = LOGS
        .iter()
        .zip(shown)
        .all(|(log, shown)| *log == shown.as_slice());
    Ok(life.status == Status::Ok && logs && shown.len() == LOGS.len() && is_text(&life.printed))
}

/// Whether the bytes are the day's text.
fn is_text(printed: &[u8]) -> bool {
    let mut rest = printed;
    for part in TEXT {
        let Some(behind) = rest.strip_prefix(part) else {
            return false;
        };
        rest = behind;
    }
    rest.is_empty()
}
