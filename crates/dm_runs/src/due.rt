//! What is due of a case, and how the result compares with it.

use crate::case::Case;
use dm_outside::{FolderShelf, Shelf, take_all};
use std::alloc::AllocError;
use std::fs::File;
use std::rt::Files;

/// The most bytes that a file of a case may have.
const LIMIT: usize = 4_000_000;

/// How many texts may be due of one case.
const TEXTS: usize = 9;

/// How a case came out.
#[derive(Clone, Copy, PartialEq, Eq, Debug)]
pub enum Outcome {
    Right,

    /// It ended with this status, which is not the one that is due.
    Status(u8),

    /// The first line of its text, from 1, that is not that of the first text that is due.
    Line(usize),

    /// The first board, from 1, that does not show what it is to show.
    Board(usize),

    /// No file has a text that is due.
    NothingDue,
}

/// The bytes of a file, or `None` where they cannot be read.
pub fn read_file<R: AllocGlobal + Files<File = File>>(rt: &R, path: &str) -> Option<Vec<u8>> {
    let mut source = FolderShelf::new(rt).open(path).ok()?;
    take_all(rt.alloc(), &mut source, LIMIT).ok()
}

/// How a case came out that ended with this status and wrote this text.
pub fn outcome_of<R: AllocGlobal + Files<File = File>>(
    rt: &R,
    case: &Case<'_>,
    status: u8,
    text: &[u8],
) -> Result<Outcome, AllocError> {
    if status != case.status {
        return Ok(Outcome::Status(status));
    }
    let name = case.name;
    let mut outcome = Outcome::NothingDue;
    for number in 1..=TEXTS {
        let path = if number == 1 {
            format!(in rt.alloc(); "runs/{name}/text")?
        } else {
            format!(in rt.alloc(); "runs/{name}/text-{number}")?
        };
        let Some(due) = read_file(rt, &path) else {
            return Ok(outcome);
        };
        if due.as_slice() == text {
            return Ok(Outcome::Right);
        }
        if outcome == Outcome::NothingDue {
            outcome = Outcome::Line(first_difference(&due, text));
        }
    }
    Ok(outcome)
}

/// The number, from 1, of the first line in which two texts differ.
fn first_difference(due: &[u8], text: &[u8]) -> usize {
    let same = due
        .iter()
        .zip(text)
        .take_while(|(a, b)| **a == **b)
        .filter(|(a, _)| **a == b'\n')
        .count();
    same.saturating_add(1)
}
