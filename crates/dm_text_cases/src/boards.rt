//! Boards that are kept in files.

use dm_boards::FileBoard;
use dm_outside::Board;
use dm_samples::{Case, Failure, in_one_line, read_file};
use std::alloc::{AllocError, Global};
use std::fs::File;
use std::rt::Files;
use std::str::FromStr;

/// What each call of a board says, and what its file has in the end. The case says the stop and the file. The calls have ` ; `
/// between them: `show EVENT TIME ..`, `cancel EVENT`, `run EVENT`, or `ask EVENT`.
pub fn told_of_board<R: AllocGlobal + Files<File = File> + Copy + Drop>(
    rt: R,
    case: &Case<'_>,
) -> Result<String, Failure> {
    let alloc = rt.alloc();
    let path = String::from_str(alloc, case.word(1))?;
    let mut board = FileBoard::new(alloc, rt, path, case.number(0).min(100) as u32);
    let mut told = String::new(alloc);
    for call in case.text.split(" ; ") {
        let one = told_of_call(alloc, &mut board, call)?;
        told = format!(in alloc; "{told}{one}, ")?;
    }
    match read_file(&rt, case.word(1)) {
        Some(bytes) => {
            let bytes = in_one_line(alloc, &bytes)?;
            Ok(format!(in alloc; "{told}{bytes}")?)
        }
        None => Ok(format!(in alloc; "{told}no file")?),
    }
}

/// What one call of a board says.
fn told_of_call<B: Board>(alloc: Global, board: &mut B, call: &str) -> Result<String, Failure> {
    let (word, rest) = call.split_once(" ").unwrap_or((call, ""));
    let changes = changes_of(alloc, rest)?;
    let event = changes.first().map_or(0, |(event, _)| *event);
    Ok(match word {
        "show" => told_of_result(alloc, board.show(&changes).is_ok())?,
        "cancel" => told_of_result(alloc, board.cancel(&[(event, true)]).is_ok())?,
        "run" => told_of_result(alloc, board.cancel(&[(event, false)]).is_ok())?,
        _ => {
            let (time, cancelled) = (board.shown(event), board.cancelled(event));
            format!(in alloc; "{time:?} {cancelled:?}")?
        }
    })
}

fn told_of_result(alloc: Global, is_ok: bool) -> Result<String, AllocError> {
    String::from_str(alloc, if is_ok { "ok" } else { "failed" })
}

/// Events and times, each as `EVENT:TIME` or as `EVENT` alone.
fn changes_of(alloc: Global, words: &str) -> Result<Vec<(u32, u64)>, AllocError> {
    let mut changes = Vec::new(alloc);
    for word in words.split_whitespace() {
        let (event, time) = word.split_once(":").unwrap_or((word, "0"));
        if let (Ok(event), Ok(time)) = (event.parse(), time.parse()) {
            changes.push((event, time))?;
        }
    }
    Ok(changes)
}
