//! Feeds that are compared with their logs.
ghost use Rattle.std.specs.Prelude.{◌≡◌, ◌↔◌, ◌+◌, ◌^◌, ◌<◌, ◌≤◌, ℕ, false, length, All, IfErr, IfOk, IsTrue, OnOk};
ghost use Rattle.dm_feed.specs.DueItems.{item as due};
ghost use Rattle.dm_feed.specs.Feeds.{IsUnended};
ghost use Rattle.dm_cert.specs.Logs.{IsInOrder, due_of, line_of};
ghost use Rattle.dm_cert.specs.RunTexts.{IsSpelledItem};
ghost use Rattle.dm_desk.specs.Answered.{AreTrueOf};
ghost use Rattle.dm_desk.specs.Desks.{DeskValue};
ghost use Rattle.dm_tail.specs.Feeds.{IsReady};
ghost use Rattle.dm_tail.specs.Watching.{IsWatched, Takes, largest_feed};
ghost use Rattle.dm_catch_up.specs.Catching.{IsFresh, RefusesFeed};
ghost use Rattle.dm_catch_up.specs.Inside.Comparing.{IsPassed, StopsAt, StopsReading, IsCompared, StopsComparing, IsCaughtUp};
ghost use Rattle.dm_feed.specs.declared.grammar.Heard.TheVariants.{Line as Spoken, Malformed as Unheard};

use crate::matching::is_same_line;
use dm_cert::LogItem;
use dm_feed::{FeedStop, Heard, Line, hear_first};
use dm_tail::{Growing, LARGEST_FEED, Tail, Watched};

/// Why a feed does not go on with its log.
#[derive(Clone, Copy, PartialEq, Eq)]
pub enum CatchUpStop {
    OutOfMemory,

    /// A read failed.
    Fault,

    /// The line of this number is not the one that was answered.
    Changed(u32),
}

/// How much of a part of a feed is as it was answered: so many bytes, the lines that were passed by then, and the items.
#[derive(Clone, Copy)]
struct Compared {
    bytes: usize,
    lines: u32,
    items: usize,
}

/// Passes the lines of a feed that its log answers, and stops behind the last of them. Nothing was read of the feed.
pub fn catch_up<T: Growing + Drop>(
    watched: &mut Watched<T>,
    buffer: &mut [u8],
) -> Result<(), CatchUpStop>
    requires { IsFresh T.given watched.old }
    ensures log { OnOk result (watched.new.log.items ≡ watched.old.log.items) }
    ensures shown { OnOk result (watched.new.shown ≡ watched.old.shown) }
    ensures ready { OnOk result (IsReady watched.new) }
    ensures goes_on { (desk : DeskValue) (number : ℕ) → AreTrueOf desk number watched.old.log.items
        → IsInOrder 0 0 watched.old.log.items → All IsSpelledItem watched.old.log.items
        → OnOk result (IsWatched T.given desk number watched.new) }
    ensures later { T.faults watched.old.tail.feed ≤ T.faults watched.new.tail.feed }
    ensures source { T.source watched.new.tail.feed ≡ T.source watched.old.tail.feed }
    ensures refused { IfErr result (RefusesFeed T.given T.faults watched.old.log.items watched.old watched.new) }
{
    let mut from = 0;
    while from < watched.log.len() {
        match skip_more(watched, buffer, from) {
            Ok(now) => from = now,
            Err(stop) => return Err(stop),
        }
    }
    watched.tail.has_line = ends_line(&watched.tail.pending);
    Ok(())
}

fn ends_line(bytes: &[u8]) -> bool
    ensures { result ≡ false → IsUnended bytes.now }
{
    hear_first(bytes).is_some()
}

/// Reads more of a feed, of which so many items are answered, and skips the lines that the next ones answer. It answers how many
/// are answered then.
fn skip_more<T: Growing + Drop>(
    watched: &mut Watched<T>,
    buffer: &mut [u8],
    from: usize,
) -> Result<usize, CatchUpStop>
    requires same { IsCaughtUp T.given from watched.old }
    requires unended { IsUnended watched.old.tail.pending.items }
    requires some { from < length watched.old.log.items }
    ensures same { IfOk result (λ now. IsCaughtUp T.given now watched.new) }
    ensures unended { IfOk result (λ now. now < length watched.new.log.items → IsUnended watched.new.tail.pending.items) }
    ensures log { watched.new.log.items ≡ watched.old.log.items }
    ensures shown { watched.new.shown ≡ watched.old.shown }
    ensures more { OnOk result (watched.old.tail.taken < watched.new.tail.taken) }
    ensures later { T.faults watched.old.tail.feed ≤ T.faults watched.new.tail.feed }
    ensures source { T.source watched.new.tail.feed ≡ T.source watched.old.tail.feed }
    ensures refused { IfErr result (RefusesFeed T.given T.faults watched.old.log.items watched.old watched.new) }
{
    let count = match read_more(&mut watched.tail, buffer) {
        Ok(count) => count,
        Err(stop) => return Err(stop),
    };
    if count == 0 {
        return Err(CatchUpStop::Changed(line_of(&watched.log[from])));
    }
    let pending = watched.tail.pending.as_slice();
    let compared = match compare_part(pending, watched.lines, &watched.log[from..]) {
        Ok(compared) => compared,
        Err(stop) => return Err(stop),
    };
    watched.lines = compared.lines;
    watched.tail.skip(compared.bytes);
    Ok(from + compared.items)
}

/// Reads the next bytes of a feed, as many as the buffer holds at most, and answers how many came.
fn read_more<T: Growing + Drop>(tail: &mut Tail<T>, buffer: &mut [u8]) -> Result<usize, CatchUpStop>
    requires bytes { tail.old.taken ≤ largest_feed }
    ensures takes { IfOk result (Takes T.given tail.old tail.new) }
    ensures bytes { OnOk result (tail.new.taken ≤ largest_feed) }
    ensures later { T.faults tail.old.feed ≤ T.faults tail.new.feed }
    ensures source { T.source tail.new.feed ≡ T.source tail.old.feed }
    ensures stops { IfErr result (StopsReading T.faults tail.old tail.new) }
{
    let most = buffer.len().min(LARGEST_FEED - tail.taken);
    let Ok(count) = tail.feed.read(&mut buffer[..most]) else {
        tail.stop = Some(FeedStop::Fault);
        return Err(CatchUpStop::Fault);
    };
    tail.taken += count;
    if tail.taken == LARGEST_FEED {
        tail.stop = Some(FeedStop::Long);
    }
    match tail.pending.extend_from_slice(&buffer[..count]) {
        Ok(()) => Ok(count),
        Err(_) => Err(CatchUpStop::OutOfMemory),
    }
}

/// Compares the whole lines of a part, behind so many lines, with items.
fn compare_part(part: &[u8], passed: u32, items: &[LogItem]) -> Result<Compared, CatchUpStop>
    requires room { passed + length part.now < 2 ^ 32 }
    ensures same { IfOk result (λ compared. IsCompared part.now passed items.now compared.bytes compared.lines compared.items) }
    ensures other { IfErr result (StopsComparing part.now passed items.now) }
{
    let mut rest = part;
    let mut lines = passed;
    let mut same = 0;
    while same < items.len() {
        let Some((heard, behind)) = hear_first(rest) else {
            let bytes = part.len() - rest.len();
            return Ok(Compared {
                bytes,
                lines,
                items: same,
            });
        };
        rest = behind;
        lines += 1;
        match compare(&items[same], lines, &heard) {
            Ok(count) => same += count,
            Err(stop) => return Err(stop),
        }
    }
    let bytes = part.len() - rest.len();
    Ok(Compared {
        bytes,
        lines,
        items: same,
    })
}

/// Whether a line is due, as 1 or 0, where it is the one that the item answers.
fn compare(answered: &LogItem, line: u32, heard: &Heard) -> Result<usize, CatchUpStop>
    ensures passed { IfOk result (IsPassed answered.now line heard.now) }
    ensures other { IfErr result (StopsAt answered.now line heard.now) }
{
    if *heard == Heard::Blank {
        return Ok(0);
    }
    if is_answered(answered, line, heard) {
        return Ok(1);
    }
    Err(CatchUpStop::Changed(line_of(answered).min(line)))
}

fn line_of(answered: &LogItem) -> u32
    ensures { result ≡ line_of answered.now }
{
    match answered {
        LogItem::Malformed { line } => *line,
        LogItem::Answered { line, .. } => *line,
    }
}

/// Whether an item answers what is heard in the line of this number.
fn is_answered(answered: &LogItem, line: u32, heard: &Heard) -> bool
    ensures { IsTrue result ↔ due_of answered.now ≡ due line heard.now }
{
    match answered {
        LogItem::Malformed { line: own } => *own == line && is_malformed(heard),
        LogItem::Answered {
            line: own,
            said,
            ..
        } => *own == line && is_line(said, heard),
    }
}

fn is_malformed(heard: &Heard) -> bool
    ensures { IsTrue result ↔ heard.now ≡ Unheard }
{
    match heard {
        Heard::Malformed => true,
        Heard::Blank | Heard::Line(_) => false,
    }
}

fn is_line(said: &Line, heard: &Heard) -> bool
    ensures { IsTrue result ↔ heard.now ≡ Spoken said.now }
{
    match heard {
        Heard::Line(line) => is_same_line(line, said),
        Heard::Blank | Heard::Malformed => false,
    }
}
