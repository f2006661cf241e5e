//! The boards of a case.
ghost use Rattle.std.specs.Prelude.{◌≤◌, vec_len, IfOk};
ghost use Rattle.dm_base.specs.declared.limits.TheConstants.{BOARDS};

use dm_base::limits::BOARDS;
use dm_boards::MemBoard;
use dm_outside::Board;
use std::alloc::{AllocError, Global};
use std::str::FromStr;

/// A board in memory that a case asks for, and what it is to show in the end.
#[derive(Drop)]
pub struct BoardCase {
    pub stop: u32,

    /// The ids of the events that it can show, and the shows that fail, from 1.
    pub ids: Vec<u32>,
    pub fails: Vec<u64>,

    /// An event id and the time that it is to show of it.
    pub shown: Vec<(u32, u64)>,
}

impl BoardCase {
    /// The board of a line `STOP IDS FAILS SHOWN`, whose last three are lists separated by commas, `-` where there is nothing.
    /// An item of the last list is `ID:TIME`. It is `None` where the line has not this form.
    pub fn of(alloc: Global, line: &str) -> Result<Option<BoardCase>, AllocError> {
        let mut parts = line.split_whitespace();
        let (Some(stop), Some(ids), Some(fails), Some(shown)) = (
            parts.next(),
            parts.next(),
            parts.next(),
            parts.next(),
        ) else {
            return Ok(None);
        };
        let Ok(stop) = stop.parse::<u32>() else {
            return Ok(None);
        };
        Ok(Some(BoardCase {
            stop,
            ids: numbers(alloc, ids)?,
            fails: numbers(alloc, fails)?,
            shown: pairs(alloc, shown)?,
        }))
    }

    /// Whether a board shows what it is to show, of each event that it can show.
    pub fn is_shown_on(&self, board: &Box<dyn Board>) -> bool {
        for id in &self.ids {
            if board.shown(*id) != self.due(*id) {
                return false;
            }
        }
        true
    }

    /// The time that it is to show of an event.
    fn due(&self, id: u32) -> Option<u64> {
        let (_, time) = self.shown.iter().find(|(event, _)| *event == id)?;
        Some(*time)
    }
}

/// A board in memory for one of a case.
pub fn in_memory(alloc: Global, case: &BoardCase) -> Result<MemBoard, AllocError> {
    let ids = Vec::from_slice(alloc, &case.ids)?;
    let fails = Vec::from_slice(alloc, &case.fails)?;
    MemBoard::new(alloc, case.stop, ids, fails)
}

fn numbers<T: FromStr + Drop>(alloc: Global, list: &str) -> Result<Vec<T>, AllocError>
where
    <T as FromStr>::Err: Drop,
{
    let mut numbers = Vec::new(alloc);
    for item in list.split(',') {
        if let Ok(number) = item.parse::<T>() {
            numbers.push(number)?;
        }
    }
    Ok(numbers)
}

fn pairs(alloc: Global, list: &str) -> Result<Vec<(u32, u64)>, AllocError> {
    let mut pairs = Vec::new(alloc);
    for item in list.split(',') {
        let Some((id, time)) = item.split_once(':') else {
            continue;
        };
        if let (Ok(id), Ok(time)) = (id.parse::<u32>(), time.parse::<u64>()) {
            pairs.push((id, time))?;
        }
    }
    Ok(pairs)
}

/// The boards of a list, a line each, of which 64 are read at most.
pub fn read_boards(alloc: Global, listing: &str) -> Result<Vec<BoardCase>, AllocError>
    ensures { IfOk result (λ boards. vec_len boards ≤ BOARDS) }
{
    let mut boards = Vec::new(alloc);
    for line in listing.lines() {
        if boards.len() == BOARDS {
            break;
        }
        if let Some(board) = BoardCase::of(alloc, line)? {
            boards.push(board)?;
        }
    }
    Ok(boards)
}
