//! Calls that fail in turn.
ghost use Rattle.std.specs.Prelude.{◌≤◌, vec_len};
ghost use Rattle.dm_base.specs.declared.limits.TheConstants.{BOARDS};

use crate::case::Case;
use crate::task::{
    ACTIVITIES, ACTIVITY_DELAYS, EVENT_DELAYS, EVENTS, Fault, NONE, Outside, Pieces, Task, WRITTEN,
    run_task,
};
use dm_base::limits::FILE;
use dm_boards::MemBoard;
use dm_outside::{Board, OpenGate};
use dm_program::Status;
use dm_samples::Failure;
use std::alloc::{AllocError, Global};
use std::fs::File;
use std::rt::Files;
use std::str;
use std::sync::Wait;
use std::thread::Threads;

/// How a run ends: with which status, which text, and which times on the boards of the stops 2 and 4.
#[derive(Drop)]
struct Outcome {
    status: Status,
    text: Vec<u8>,
    shown: String,
}

/// The events that are shown, each with the place of its board.
const SHOWN: [(usize, u32); 4] = [(0, 2), (0, 3), (0, 5), (1, 6)];

/// The files of a network, each of which can be too long.
const FILES: [&str; 4] = [EVENTS, ACTIVITIES, EVENT_DELAYS, ACTIVITY_DELAYS];

/// Which calls fail, and what is then due.
#[derive(Clone, Copy)]
struct Row<'a> {
    call: &'a str,
    first: u64,
    last: u64,
    status: u64,
    shown: &'a str,
    texts: &'a str,
}

impl<'a> Row<'a> {
    /// The row of a line `CALL FIRST LAST STATUS SHOWN TEXTS`, or `None` where it has not this form. SHOWN has the times of the
    /// events 2, 3, 5 and 6, each `-` where it is not shown, or is `*` where they may be any. TEXTS names files of the case's folder,
    /// of which one is due; `whole` is what is due where nothing fails, and `-` is no text.
    fn of(line: &'a str) -> Option<Row<'a>> {
        let mut parts = line.split_whitespace();
        Some(Row {
            call: parts.next()?,
            first: parts.next()?.parse::<u64>().ok()?,
            last: parts.next()?.parse::<u64>().ok()?,
            status: parts.next()?.parse::<u64>().ok()?,
            shown: parts.next()?,
            texts: parts.next()?,
        })
    }
}

/// Lets each call of the case's list fail in a run of its own.
pub fn each_call_fails<R: Threads + Wait + Sync + AllocGlobal + Files<File = File>>(
    rt: &R,
    case: &Case<'_>,
    task: &Task,
) -> Result<(), Failure> {
    let list = case.own_file(rt, "calls")?;
    let Ok(list) = str::from_utf8(&list) else {
        return Err(Failure::NoDay);
    };
    let mut runs: u32 = 0;
    for line in list.lines() {
        if let Some(row) = Row::of(line) {
            row_fails(rt, case, task, &row, &mut runs)?;
        }
    }
    if runs == 0 {
        Err(Failure::TooFew)
    } else {
        Ok(())
    }
}

fn row_fails<R: Threads + Wait + Sync + AllocGlobal + Files<File = File>>(
    rt: &R,
    case: &Case<'_>,
    task: &Task,
    row: &Row<'_>,
    runs: &mut u32,
) -> Result<(), Failure> {
    let due = due_texts(rt, case, task, row)?;
    for number in row.first..row.last.saturating_add(1) {
        *runs = runs.saturating_add(1);
        let outcome = run_failing(rt, case, task, row.call, number)?;
        let is_shown = row.shown == "*" || outcome.shown.as_str() == row.shown;
        let is_due = due
            .iter()
            .any(|text| text.as_slice() == outcome.text.as_slice());
        if u64::from(outcome.status as u8) != row.status || !is_shown || !is_due {
            return Err(Failure::Differs(*runs));
        }
    }
    Ok(())
}

/// The texts of which one is due.
fn due_texts<R: AllocGlobal + Files<File = File>>(
    rt: &R,
    case: &Case<'_>,
    task: &Task,
    row: &Row<'_>,
) -> Result<Vec<Vec<u8>>, AllocError> {
    let mut texts = Vec::new(rt.alloc());
    for name in row.texts.split(',') {
        texts.push(match name {
            "whole" => task.due.to_vec(rt.alloc())?,
            _ => case.own_file(rt, name)?,
        })?;
    }
    Ok(texts)
}

/// Does a case where the call of a number fails, on boards in memory.
fn run_failing<R: Threads + Wait + Sync + AllocGlobal>(
    rt: &R,
    case: &Case<'_>,
    task: &Task,
    call: &str,
    number: u64,
) -> Result<Outcome, AllocError> {
    let fault = Fault {
        call,
        numbers: [number],
    };
    let alloc = rt.alloc();
    let mut boards: Vec<Box<dyn Board>> = Vec::new(alloc);
    boards.push(Box::new(alloc, board_of(alloc, 2, &[2, 3, 5], fault.of("show-2"))?)?)?;
    boards.push(Box::new(alloc, board_of(alloc, 4, &[6], fault.of("show-4"))?)?)?;
    run_on(rt, case, task, fault, &mut boards)
}

fn run_on<R: Threads + Wait + Sync + AllocGlobal>(
    rt: &R,
    case: &Case<'_>,
    task: &Task,
    fault: Fault<'_>,
    boards: &mut Vec<Box<dyn Board>>,
) -> Result<Outcome, AllocError>
    requires { vec_len boards.old ≤ BOARDS }
{
    let outside = Outside {
        fault,
        pieces: Pieces::Small,
    };
    let (status, text) = run_task(rt, case.words.as_slice(), task, &outside, &OpenGate, boards)?;
    let shown = shown_on(rt.alloc(), boards)?;
    Ok(Outcome {
        status,
        text,
        shown,
    })
}

fn board_of(alloc: Global, stop: u32, ids: &[u32], fails: &[u64]) -> Result<MemBoard, AllocError> {
    let ids = Vec::from_slice(alloc, ids)?;
    MemBoard::new(alloc, stop, ids, Vec::from_slice(alloc, fails)?)
}

/// The times that the boards show.
fn shown_on(alloc: Global, boards: &Vec<Box<dyn Board>>) -> Result<String, AllocError> {
    let mut shown = String::new(alloc);
    for (place, event) in SHOWN {
        if !shown.is_empty() {
            shown.push(',')?;
        }
        let time = match boards.get(place) {
            Some(board) => board.shown(event),
            None => None,
        };
        shown.push_str(&spelled(alloc, time)?)?;
    }
    Ok(shown)
}

fn spelled(alloc: Global, time: Option<u64>) -> Result<String, AllocError> {
    match time {
        Some(time) => format!(in alloc; "{time}"),
        None => format!(in alloc; "-"),
    }
}

/// Lets each write of a case's text fail in a run of its own, up to one that never comes: what was written before is a front of the
/// text, of at least a byte and at most five for each write.
pub fn each_write_fails<R: Threads + Wait + Sync + AllocGlobal>(
    rt: &R,
    case: &Case<'_>,
    task: &Task,
) -> Result<(), Failure> {
    let text = task.due.as_slice();
    for before in 0..text.len().saturating_add(1) {
        let number = (before as u64).saturating_add(1);
        let outcome = run_failing(rt, case, task, "write", number)?;
        if outcome.status == Status::Ok && outcome.text.as_slice() == text {
            return Ok(());
        }
        if outcome.status != Status::WriteFault || !is_front(&outcome.text, text, before) {
            return Err(Failure::Differs(number.min(9_999) as u32));
        }
    }
    Err(Failure::TooFew)
}

/// Whether so many writes may have left this front of a text, and not all of it.
fn is_front(written: &[u8], text: &[u8], writes: usize) -> bool {
    let count = written.len();
    let many = writes <= count && count <= writes.saturating_mul(WRITTEN);
    many && count < text.len() && text.get(..count) == Some(written)
}

/// Lets each file of the network be a byte longer than a file may be, in a run of its own: it is refused, and no board is called.
pub fn each_file_is_too_long<R: Threads + Wait + Sync + AllocGlobal + Files<File = File>>(
    rt: &R,
    case: &Case<'_>,
) -> Result<(), Failure> {
    for (place, name) in FILES.iter().enumerate() {
        let mut task = Task::of(rt, case)?;
        let long = vec![in rt.alloc(); b'#'; FILE + 1]?;
        match place {
            0 => task.events = long,
            1 => task.activities = long,
            2 => task.event_delays = long,
            _ => task.activity_delays = long,
        }
        let due = format!(in rt.alloc(); "refused {name} too-long\n")?;
        let outcome = run_failing(rt, case, &task, NONE.call, 0)?;
        let is_due = outcome.status == Status::Refused && outcome.text.as_slice() == due.as_bytes();
        if !is_due || outcome.shown.as_str() != "-,-,-,-" {
            return Err(Failure::Differs(place.min(9) as u32));
        }
    }
    Ok(())
}
