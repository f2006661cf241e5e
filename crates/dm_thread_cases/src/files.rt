//! Boards in files.
ghost use Rattle.std.specs.Prelude.{◌≤◌, vec_len};
ghost use Rattle.dm_base.specs.declared.limits.TheConstants.{BOARDS};

use crate::case::Case;
use crate::task::{Task, run_task};
use crate::threads::WHOLE;
use dm_boards::FileBoard;
use dm_outside::{Board, OpenGate};
use dm_program::Status;
use dm_samples::Failure;
use std::alloc::AllocError;
use std::fs::{self, File};
use std::io;
use std::rt::Files;
use std::sync::Wait;
use std::thread::Threads;

/// The files of the boards, whose stops are 2 and 4.
pub const FILES: [&str; 2] = ["board-2", "board-4"];

/// The board of a stop in a file.
pub fn board_in_file<R: AllocGlobal + Files<File = File> + Drop>(
    rt: R,
    name: &str,
    stop: u32,
) -> Result<Box<FileBoard<R>>, AllocError> {
    let alloc = rt.alloc();
    let name = String::from_str(alloc, name)?;
    Ok(Box::new(alloc, FileBoard::new(alloc, rt, name, stop))?)
}

/// Runs a case over boards in files, and says whether these then hold what is due: all times at the start, behind them those that
/// moved, and before them what an earlier run has left.
pub fn files_hold<R: Threads + Wait + Sync + AllocGlobal + Files<File = File>>(
    rt: &R,
    case: &Case<'_>,
    task: &Task,
    boards: &mut Vec<Box<dyn Board>>,
) -> io::Result<Result<(), Failure>>
    requires { vec_len boards.old ≤ BOARDS }
{
    let (status, _text) = run_task(rt, case.words.as_slice(), task, &WHOLE, &OpenGate, boards)?;
    if status != Status::Ok {
        return Ok(Err(Failure::NoDay));
    }
    for name in FILES {
        let (held, due) = (fs::read(rt, name)?, case.own_file(rt, name)?);
        if held.as_slice() != due.as_slice() {
            return Ok(Err(Failure::Differs(1)));
        }
    }
    Ok(Ok(()))
}
