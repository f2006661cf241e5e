//! The live server over real feeds, a real store and real boards.
ghost use Rattle.std.specs.Prelude.{◌≤◌, vec_len, IfOk};
ghost use Rattle.std.specs.Thread.{IsSync};
ghost use Rattle.dm_base.specs.declared.limits.TheConstants.{BOARDS};
ghost use Rattle.dm_desk.specs.Searching.{FindsAsked, MaySearch};
ghost use Rattle.dm_words.specs.ServerAsked.{server_of};
ghost use Rattle.dm_store_text.specs.Asked.{IsAsked};

use crate::pace::FilePace;
use dm_desk::PlanRequest;
use dm_find::find;
use dm_live_files::{Gauge, list_of, open_feeds, put_list, refusal, refusal_of_files};
use dm_outside::{Board, FolderShelf, OpenGate, Sink};
use dm_parts::AnyPlan;
use dm_serve::{Server, ServerMeans, serve_day};
use dm_store::{FileStore, Journal, OpenError};
use dm_store_text::{Status, end_server_usage, end_store, end_unread, text_of_store};
use dm_words::{LiveWords, ServeWords, read_serve_words};
use std::alloc::{AllocError, Global};
use std::fs::File;
use std::io::ErrorKind;
use std::rt::{Clock, Files};
use std::sync::Wait;
use std::thread::Threads;
use std::time::Instant;

/// Whether the first word is one of the live server's.
pub fn is_live(words: &[String]) -> bool {
    match words.first() {
        Some(word) => word.as_str() == "serve" || word.as_str() == "text",
        None => false,
    }
}

/// Does what words of the live server ask. `files` is the runtime that a store and boards keep.
pub fn do_live<
    R: Threads + Wait + Sync + Clock + Eprint + Files<File = File>,
    Q: AllocGlobal + Files<File = File> + Drop + Copy,
    K: Sink,
>(rt: &R, files: Q, words: &[String], boards: &mut Vec<Box<dyn Board>>, out: &mut K) -> Status
    requires { vec_len boards.old ≤ BOARDS }
{
    match read_serve_words(words) {
        Some(LiveWords::Serve(server)) => serve(rt, files, server, false, boards, out),
        Some(LiveWords::Begin(server)) => serve(rt, files, server, true, boards, out),
        Some(LiveWords::Text(server)) => text(rt, files, &server, out),
        None => end_server_usage(out),
    }
}

/// Prints the text of the run that a store holds, unless the store was begun over other files of the network.
fn text<R: Files<File = File>, Q: AllocGlobal + Files<File = File> + Drop, K: Sink>(
    rt: &R,
    files: Q,
    server: &ServeWords<'_>,
    out: &mut K,
) -> Status
    requires { IsAsked (server_of server.now) }
{
    let Ok(list) = list_of(&files, server) else {
        return Status::NoMemory;
    };
    match refusal_of_files(&files, server.store, list.as_deref()) {
        Ok(None) => text_of_store(files.alloc(), server, &mut FolderShelf::new(rt), out),
        Ok(Some(word)) => end_store(out, word),
        Err(_) => Status::NoMemory,
    }
}

/// Serves until the file `stop` stands in the store, which is begun where it is to be new.
fn serve<
    R: Threads + Wait + Sync + Clock + Eprint + Files<File = File>,
    Q: AllocGlobal + Files<File = File> + Drop + Copy,
    K: Sink,
>(
    rt: &R,
    files: Q,
    words: ServeWords<'_>,
    is_new: bool,
    boards: &mut Vec<Box<dyn Board>>,
    out: &mut K,
) -> Status
    requires asked { IsAsked (server_of words) }
    requires few_boards { vec_len boards.old ≤ BOARDS }
{
    let since = Instant::now(rt).ok();
    let Ok(list) = list_of(&files, &words) else {
        return Status::NoMemory;
    };
    match refusal(&files, words.store, is_new, list.as_deref()) {
        Ok(None) => {}
        Ok(Some(word)) => return end_store(out, word),
        Err(error) if error.kind() == ErrorKind::OutOfMemory => return Status::NoMemory,
        Err(_) => return end_unread(out, words.store),
    }
    let begun_over = if is_new { list } else { None };
    serve_store(rt, files, words, begun_over, since, boards, out)
}

/// Serves over a store, which lists the files of the network that it is begun over, if it is.
fn serve_store<
    R: Threads + Wait + Sync + Clock + Eprint + Files<File = File>,
    Q: AllocGlobal + Files<File = File> + Drop + Copy,
    K: Sink,
>(
    rt: &R,
    files: Q,
    words: ServeWords<'_>,
    begun_over: Option<String>,
    since: Option<Instant>,
    boards: &mut Vec<Box<dyn Board>>,
    out: &mut K,
) -> Status
    requires asked { IsAsked (server_of words) }
    requires few_boards { vec_len boards.old ≤ BOARDS }
{
    let alloc = files.alloc();
    let Ok(paths) = Paths::of(alloc, words.store) else {
        return Status::NoMemory;
    };
    let gauge = Gauge::new(rt, &paths.journal);
    let Ok(feeds) = open_feeds(rt, alloc, words.run.feeds, &paths.stop, &gauge) else {
        return Status::NoMemory;
    };
    let mut journal = match open_store(files, &words, begun_over, feeds.len() as u32) {
        Ok(store) => Journal::new(store),
        Err(stop) => return end_unopened(stop, words.store, out),
    };
    let mut pace = FilePace::new(rt, &paths.stop, &gauge, feeds.len(), since);
    let search = |request: &PlanRequest<'_>| -> Result<AnyPlan, AllocError>
        requires { IsSync R.row × MaySearch request.now }
        ensures { IfOk result (FindsAsked request.now) }
    { find(rt, alloc, request, &OpenGate) };
    let means = ServerMeans {
        rt,
        alloc,
        search: &search,
    };
    let end = serve_day(
        &means,
        Server { words, feeds },
        &mut FolderShelf::new(rt),
        &mut journal,
        boards,
        &mut pace,
        out,
    );
    end.status
}

/// Opens a store, and lists in it the files of the network that it is begun over, if it is.
fn open_store<Q: AllocGlobal + Files<File = File> + Drop + Copy>(
    files: Q,
    words: &ServeWords<'_>,
    begun_over: Option<String>,
    feeds: u32,
) -> Result<FileStore<Q>, OpenError> {
    let alloc = files.alloc();
    let folder = words.store;
    let path = format!(in alloc; "{folder}")?;
    let store = FileStore::open(alloc, files, path, feeds)?;
    if let Some(list) = begun_over {
        let Ok(()) = put_list(&files, folder, &list) else {
            return Err(OpenError::Unwritten);
        };
    }
    Ok(store)
}

/// The end of a server whose store was not opened.
fn end_unopened<K: Sink>(stop: OpenError, store: &str, out: &mut K) -> Status {
    match stop {
        OpenError::OutOfMemory => Status::NoMemory,
        OpenError::Locked => end_store(out, "locked"),
        OpenError::Failed => end_unread(out, store),
        OpenError::Unwritten => Status::WriteFault,
    }
}

/// The names of files of a store.
#[derive(Drop)]
struct Paths {
    stop: String,
    journal: String,
}

impl Paths {
    fn of(alloc: Global, store: &str) -> Result<Paths, AllocError> {
        Ok(Paths {
            stop: format!(in alloc; "{store}/stop")?,
            journal: format!(in alloc; "{store}/journal")?,
        })
    }
}
