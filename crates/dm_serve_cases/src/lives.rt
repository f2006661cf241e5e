//! A life of the server.
ghost use Rattle.std.specs.Prelude.{◌≡◌, [], Some, length, IfOk};
ghost use Rattle.std.specs.Thread.{IsSync};
ghost use Rattle.dm_desk.specs.Searching.{FindsAsked, MaySearch};
ghost use Rattle.dm_words.specs.Asked.{names_in};
ghost use Rattle.dm_words.specs.ServerAsked.{server_of};
ghost use Rattle.dm_store_text.specs.Asked.{IsAsked};
ghost use Rattle.dm_tail.specs.Memory.{given_of};
ghost use Rattle.dm_serve.specs.Lives.{NothingIsRead};
ghost use Rattle.dm_serve_cases.specs.Worked.{AreTwo, GoesOnFirst};

use crate::day::{ACTIVITIES, EVENTS, FIRST, SECOND, WORDS};
use crate::outside::Pauses;
use dm_desk::PlanRequest;
use dm_find::find;
use dm_outside::{Board, MemFile, MemShelf, MemSink, OpenGate};
use dm_parts::AnyPlan;
use dm_samples::Failure;
use dm_serve::{Server, ServerMeans, serve_day};
use dm_store::{Journal, MemStore};
use dm_store_text::Status;
use dm_tail::MemFeed;
use dm_words::{LiveWords, Names, ServeWords, read_serve_words};
use std::alloc::{AllocError, Global};
use std::sync::Wait;
use std::thread::Threads;

/// How a life ended.
#[derive(Drop)]
pub struct Life {
    pub status: Status,
    pub printed: Vec<u8>,
    pub store: MemStore,
}

/// The most bytes that a read of a file gives, and the most that are printed.
const PIECE: usize = 64;

const ROOM: usize = 4_096;

/// How often nothing may be new before a server ends.
const PAUSES: u32 = 2;

/// How the two feeds grow: how many bytes stand at each read of a feed, by read, and which of its calls fail.
#[derive(Clone, Copy)]
pub struct Growth<'f> {
    pub stands: [&'f [usize]; 2],
    pub fails: [&'f [u64]; 2],
}

/// All stands from the beginning, and no call fails.
pub const ALL: Growth<'static> = Growth {
    stands: [&[], &[]],
    fails: [&[], &[]],
};

/// Serves the day over a store, with feeds that grow so.
pub fn live<R: Threads + Wait + Sync + AllocGlobal>(
    rt: &R,
    store: MemStore,
    growth: Growth<'_>,
) -> Result<Life, Failure>
    ensures { IfOk result (λ life. GoesOnFirst store life.store) }
{
    let words = texts(rt.alloc(), &WORDS)?;
    match read_serve_words(&words) {
        Some(LiveWords::Serve(server)) => serve(rt, server, store, growth),
        _ => Err(Failure::NoDay),
    }
}

fn serve<R: Threads + Wait + Sync + AllocGlobal>(
    rt: &R,
    words: ServeWords<'_>,
    store: MemStore,
    growth: Growth<'_>,
) -> Result<Life, Failure>
    requires asked { IsAsked (server_of words) }
    ensures { IfOk result (λ life. GoesOnFirst store life.store) }
{
    let alloc = rt.alloc();
    let feeds = feeds_of(alloc, words.run.feeds, growth)?;
    let files = [
        MemFile {
            name: "net/Events-expanded.giv",
            bytes: EVENTS,
            piece: PIECE,
            fails: &[],
        },
        MemFile {
            name: "net/Activities-expanded.giv",
            bytes: ACTIVITIES,
            piece: PIECE,
            fails: &[],
        },
    ];
    let mut journal = Journal::new(store);
    let mut boards: Vec<Box<dyn Board>> = Vec::new(alloc);
    let mut out = MemSink::new(alloc, ROOM, ROOM, Vec::new(alloc))?;
    let search = |request: &PlanRequest<'_>| -> Result<AnyPlan, AllocError>
        requires { IsSync R.row × MaySearch request.now }
        ensures { IfOk result (FindsAsked request.now) }
    { find(rt, alloc, request, &OpenGate) };
    let means = ServerMeans {
        rt,
        alloc,
        search: &search,
    };
    let end = serve_day(
        &means,
        Server { words, feeds },
        &mut MemShelf::new(&files, &[]),
        &mut journal,
        &mut boards,
        &mut Pauses { left: PAUSES },
        &mut out,
    );
    Ok(Life {
        status: end.status,
        printed: out.taken().to_vec(alloc)?,
        store: journal.store,
    })
}

/// The two feeds of these names.
fn feeds_of(
    alloc: Global,
    names: Names<'_>,
    growth: Growth<'_>,
) -> Result<Vec<Option<MemFeed>>, Failure>
    ensures as_many { IfOk result (λ feeds. length feeds.items ≡ length (names_in names.entry)) }
    ensures two { IfOk result (λ feeds. AreTwo feeds.items) }
    ensures unread { IfOk result (λ feeds. NothingIsRead (λ feed. Some (given_of feed)) feeds.items) }
{
    let Some((_, rest)) = names.split_first() else {
        return Err(Failure::NoDay);
    };
    let Some((_, rest)) = rest.split_first() else {
        return Err(Failure::NoDay);
    };
    if rest.split_first().is_some() {
        return Err(Failure::NoDay);
    }
    Ok(both(alloc, growth)?)
}

/// The day's feeds.
fn both(alloc: Global, growth: Growth<'_>) -> Result<Vec<Option<MemFeed>>, AllocError>
    ensures as_many { IfOk result (λ feeds. length feeds.items ≡ 2) }
    ensures two { IfOk result (λ feeds. AreTwo feeds.items) }
    ensures unread { IfOk result (λ feeds. NothingIsRead (λ feed. Some (given_of feed)) feeds.items) }
{
    let [stands, other_stands] = growth.stands;
    let [fails, other_fails] = growth.fails;
    let first = feed_of(alloc, FIRST, stands, fails)?;
    let second = feed_of(alloc, SECOND, other_stands, other_fails)?;
    pair(alloc, first, second)
}

/// Two feeds.
fn pair(alloc: Global, first: MemFeed, second: MemFeed) -> Result<Vec<Option<MemFeed>>, AllocError>
    requires first { given_of first ≡ [] }
    requires second { given_of second ≡ [] }
    ensures as_many { IfOk result (λ feeds. length feeds.items ≡ 2) }
    ensures two { IfOk result (λ feeds. AreTwo feeds.items) }
    ensures unread { IfOk result (λ feeds. NothingIsRead (λ feed. Some (given_of feed)) feeds.items) }
{
    let mut feeds = Vec::new(alloc);
    feeds.push(Some(first))?;
    feeds.push(Some(second))?;
    Ok(feeds)
}

/// A feed of these bytes, which grows and fails so.
fn feed_of(
    alloc: Global,
    bytes: &[u8],
    stands: &[usize],
    fails: &[u64],
) -> Result<MemFeed, AllocError>
    ensures { IfOk result (λ feed. given_of feed ≡ []) }
{
    let bytes = bytes.to_vec(alloc)?;
    Ok(MemFeed::new(bytes, stands.to_vec(alloc)?, fails.to_vec(alloc)?))
}

fn texts(alloc: Global, words: &[&str]) -> Result<Vec<String>, AllocError> {
    let mut texts = Vec::new(alloc);
    for word in words {
        texts.push(String::from_str(alloc, word)?)?;
    }
    Ok(texts)
}
