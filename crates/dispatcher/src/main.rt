//! The dispatcher's server: keeps the timetable of a railway network up to date while feeds report delays.
//!
//! It stands on dm_program, dm_serve and dm_store_text for the calls that it makes, on dm_find for the plans of a server, on
//! dm_store for the real store, on dm_live_files for real feeds and the list of the network's files, on dm_hints for what is said,
//! on dm_words for what the words name, and on dm_boards and dm_outside for the other real forms.
//!
//! It makes the real shelf, sink and gate. For each stop S that the words give, it makes a board in the file `DIR/board-S.txt`.
//! Where the words ask for the live server, it looks whether the store may be begun or gone on with, opens the feeds and the folder
//! of the store, and calls `dm_serve::serve_day`. A store that is begun lists the check sums of the network's two files, and one
//! over other files is refused. Where the journal is short of room, the feeds give no line that asks for a plan. Where the words
//! ask for the text of a store, it calls `dm_store_text::text_of_store`. Where they begin with `serve` or `text` and ask for
//! neither, it writes their usage line. With all other words it calls `dm_program::dispatch`. It says on the standard error what
//! went wrong, and for a server also what it found at its start. It ends with the status.
#![tactic(auto)]

ghost use Rattle.std.specs.Prelude.{◌≤◌, vec_len, IfOk};
ghost use Rattle.dm_base.specs.declared.limits.TheConstants.{BOARDS};

mod live;
mod pace;

use crate::live::{do_live, is_live};
use dm_boards::FileBoard;
use dm_hints::{Listener, tell, tell_live};
use dm_live_files::say_taking_up;
use dm_outside::{Board, FolderShelf, OpenGate, StdSink};
use dm_program::{Status, dispatch};
use dm_words::{CommandWords, LiveWords, board_words, read_serve_words, read_words};
use std::alloc::{AllocError, Global};
use std::env;
use std::fs::File;
use std::io::{ErrorKind, IsTerminal as _};
use std::process::ExitCode;
use std::rt::{Env, Files};

fn main(rt: HostRuntime) -> ExitCode {
    let Ok(words) = words(&rt) else {
        return end(Status::NoMemory);
    };
    let Ok(stops) = stops(rt.alloc(), words.as_slice()) else {
        return end(Status::NoMemory);
    };
    let home = folder(words.as_slice());
    let mut boards: Vec<Box<dyn Board>> = Vec::new(rt.alloc());
    for stop in &stops {
        let Ok(board) = board_in(rt, home, *stop) else {
            return end(Status::NoMemory);
        };
        let Ok(()) = boards.push(board) else {
            return end(Status::NoMemory);
        };
    }
    let mut out = Listener::new(StdSink::new(rt.stdout()));
    if is_live(words.as_slice()) {
        if rt.stderr().is_terminal() {
            let _ = say_taking_up(&rt, words.as_slice());
        }
        let status = do_live(&rt, rt, words.as_slice(), &mut boards, &mut out);
        let _ = tell_live(&rt, words.as_slice(), status as u8, &out);
        return ExitCode::from(status as u8);
    }
    let mut shelf = FolderShelf::new(&rt);
    let status = dispatch(
        &rt,
        rt.alloc(),
        words.as_slice(),
        &mut shelf,
        &mut boards,
        &OpenGate,
        &mut out,
    );
    let _ = tell(&rt, words.as_slice(), status as u8, &out);
    end(status)
}

fn end(status: Status) -> ExitCode {
    ExitCode::from(status as u8)
}

/// The stops of the boards that the words give.
fn stops(alloc: Global, words: &[String]) -> Result<Vec<u32>, AllocError>
    ensures { IfOk result (λ stops. vec_len stops ≤ BOARDS) }
{
    match read_serve_words(words) {
        Some(LiveWords::Serve(server) | LiveWords::Begin(server)) => server
            .run
            .boards
            .to_vec(alloc),
        _ => board_words(alloc, words),
    }
}

/// The board of a stop, in its file of a folder.
fn board_in<R: AllocGlobal + Files<File = File> + Drop>(
    rt: R,
    folder: &str,
    stop: u32,
) -> Result<Box<FileBoard<R>>, AllocError> {
    let alloc = rt.alloc();
    let path = format!(in alloc; "{folder}/board-{stop}.txt")?;
    Ok(Box::new(alloc, FileBoard::new(alloc, rt, path, stop))?)
}

/// The folder that the words of a run or of a server name.
fn folder(words: &[String]) -> &str {
    match (read_words(words), read_serve_words(words)) {
        (Some(CommandWords::Run(run)), _) => run.files.folder,
        (_, Some(LiveWords::Serve(server) | LiveWords::Begin(server))) => server.run.files.folder,
        _ => "",
    }
}

/// The words behind the program's name, or no words where one is no text.
fn words<R: Env + AllocGlobal>(rt: &R) -> Result<Vec<String>, AllocError> {
    let mut words = Vec::new(rt.alloc());
    let mut args = match env::args(rt) {
        Ok(args) => args,
        Err(error) if error.kind() == ErrorKind::OutOfMemory => return Err(AllocError),
        Err(_) => return Ok(words),
    };
    let _program = args.next();
    for word in args {
        words.push(word)?;
    }
    Ok(words)
}
