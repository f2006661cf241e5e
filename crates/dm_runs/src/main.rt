//! Whole runs as data: words over the files of a folder, with the status and the text that are due.
//!
//! It stands on dm_program for what it tries, and on dm_boards for boards in memory. It promises nothing.
//!
//! It reads the file `cases`, one case a line: its name, the folder of its network, the status, and the words of the command
//! line. A name that `dispatch` opens is looked for in the case's own folder under `runs`, and then in the network's under
//! `networks`.
//!
//! The case's own folder also has what is due. The text is `text`; where any one of several texts is right, the others are
//! `text-2`, `text-3` and so on. The boards are in `boards`, one board a line, with what each must show in the end. For each case
//! it prints `NAME ok`, or what differs.
#![tactic(auto)]

ghost use Rattle.std.specs.Prelude.{◌≤◌, vec_len, IfOk};
ghost use Rattle.dm_base.specs.declared.limits.TheConstants.{BOARDS};

mod boards;
mod case;
mod due;
mod shelf;

use boards::{BoardCase, in_memory, read_boards};
use case::Case;
use dm_outside::{Board, MemSink, OpenGate};
use dm_program::dispatch;
use due::{Outcome, outcome_of, read_file};
use shelf::CaseShelf;
use std::alloc::AllocError;
use std::fs::File;
use std::rt::Files;
use std::sync::Wait;
use std::thread::Threads;
use std::{io, str};

/// The most bytes that the text of a case may have.
const ROOM: usize = 4_000_000;

fn main(rt: HostRuntime) -> io::Result<()> {
    let Some(listing) = read_file(&rt, "cases") else {
        return println!(rt; "there is no list of cases");
    };
    let Ok(text) = str::from_utf8(&listing) else {
        return println!(rt; "the list of cases is no text");
    };
    for line in text.lines() {
        match Case::of(rt.alloc(), line) {
            Ok(Some(case)) => report(&rt, &case)?,
            Ok(None) => {}
            Err(AllocError) => println!(rt; "no memory")?,
        }
    }
    Ok(())
}

/// Runs a case, and prints how it came out.
fn report<R: Print + AllocGlobal + Files<File = File> + Threads + Wait + Sync>(
    rt: &R,
    case: &Case<'_>,
) -> io::Result<()> {
    let name = case.name;
    match run(rt, case) {
        Ok(Outcome::Right) => println!(rt; "{name} ok"),
        Ok(Outcome::Status(status)) => println!(rt; "{name} ends with status {status}"),
        Ok(Outcome::Line(number)) => println!(rt; "{name} differs at line {number}"),
        Ok(Outcome::Board(number)) => println!(rt; "{name} has another board {number}"),
        Ok(Outcome::NothingDue) => println!(rt; "{name} has no text that is due"),
        Err(AllocError) => println!(rt; "{name} has no memory"),
    }
}

/// Runs a case over boards in memory, and compares what it leaves.
fn run<R: Print + AllocGlobal + Files<File = File> + Threads + Wait + Sync>(
    rt: &R,
    case: &Case<'_>,
) -> Result<Outcome, AllocError> {
    let alloc = rt.alloc();
    let due = boards_of(rt, case)?;
    let mut boards: Vec<Box<dyn Board>> = Vec::new(alloc);
    for board in &due {
        boards.push(Box::new(alloc, in_memory(alloc, board)?)?)?;
    }
    let outcome = run_over(rt, case, &mut boards)?;
    Ok(with_boards(outcome, &boards, &due))
}

/// Calls `dispatch` for a case, and compares its status and its text.
fn run_over<R: Print + AllocGlobal + Files<File = File> + Threads + Wait + Sync>(
    rt: &R,
    case: &Case<'_>,
    boards: &mut Vec<Box<dyn Board>>,
) -> Result<Outcome, AllocError>
    requires { vec_len boards.old ≤ BOARDS }
{
    let alloc = rt.alloc();
    let mut shelf = CaseShelf::new(rt, alloc, case)?;
    let mut sink = MemSink::new(alloc, ROOM, ROOM, Vec::new(alloc))?;
    let status = dispatch(
        rt,
        alloc,
        case.words.as_slice(),
        &mut shelf,
        boards,
        &OpenGate,
        &mut sink,
    );
    outcome_of(rt, case, status as u8, sink.taken())
}

fn boards_of<R: AllocGlobal + Files<File = File>>(
    rt: &R,
    case: &Case<'_>,
) -> Result<Vec<BoardCase>, AllocError>
    ensures { IfOk result (λ boards. vec_len boards ≤ BOARDS) }
{
    let name = case.name;
    let path = format!(in rt.alloc(); "runs/{name}/boards")?;
    let Some(listing) = read_file(rt, &path) else {
        return Ok(Vec::new(rt.alloc()));
    };
    match str::from_utf8(&listing) {
        Ok(listing) => read_boards(rt.alloc(), listing),
        Err(_) => Ok(Vec::new(rt.alloc())),
    }
}

/// How a case came out, with what its boards show.
fn with_boards(outcome: Outcome, boards: &[Box<dyn Board>], due: &[BoardCase]) -> Outcome {
    if outcome != Outcome::Right {
        return outcome;
    }
    let mut number = 0usize;
    for (board, due) in boards.iter().zip(due) {
        number = number.saturating_add(1);
        if !due.is_shown_on(board) {
            return Outcome::Board(number);
        }
    }
    outcome
}
