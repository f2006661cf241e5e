//! The lines of a run's text outside the logs' items.
ghost use Rattle.std.specs.Prelude.{◌≡◌, ◌<◌, ◌^◌, IfOk};
ghost use Rattle.dm_records.specs.RunLines.{IsNumberLine, IsVersionLine, IsEntryLine, IsOpeningLine, IsStopLine, IsNoteLine, IsTimeLine, IsWordLine};
ghost use Rattle.dm_records.specs.Readings.{IsRead, numbered, opening, note, timed};

use crate::fields::{LARGEST_ID, one_whole, three_numbers, three_whole, two_whole};
use dm_feed::{FeedStop, MessageFault, read_message};
use dm_rows::{Entry, Message};
use dm_text::behind;
use std::alloc::{AllocError, Global};

/// An entry with the number that its line says. Its feed may be no feed of the run.
#[derive(Drop)]
pub struct EntryLine {
    pub number: u32,
    pub feed: u128,
    pub line: u32,
    pub message: Message,
}

impl EntryLine {
    /// The entry, where its feed fits in memory.
    pub fn into_entry(self) -> Entry
        requires { self.feed < 2 ^ 32 }
        ensures { result ≡ (numbered self).entry }
    {
        let EntryLine {
            feed,
            line,
            message,
            ..
        } = self;
        Entry {
            feed: feed as u32,
            line,
            message,
        }
    }
}

/// The number of a feed, and how many items its log has.
#[derive(Clone, Copy)]
pub struct OpeningLine {
    pub feed: u128,
    pub items: u128,
}

/// The note of a board, which may be none.
#[derive(Clone, Copy)]
pub struct NoteLine {
    pub board: u128,
    pub stop: u128,
    pub entry: u32,
}

/// The id of an event and its time, in seconds.
#[derive(Clone, Copy)]
pub struct TimeLine {
    pub event: u32,
    pub time: u128,
}

/// The number behind the words, where the line is these.
pub fn number_line(line: &[u8], words: &str) -> Option<u128>
    ensures { IsRead (IsNumberLine words.now) (λ n. n) line.now result }
{
    one_whole(line, words, u128::MAX)
}

/// The version in the first line.
pub fn version_line(line: &[u8]) -> Option<u32>
    ensures { IsRead IsVersionLine (λ n. n) line.now result }
{
    let Some(version) = one_whole(line, "dm-run ", 2) else {
        return None;
    };
    if version == 0 {
        return None;
    }
    Some(version as u32)
}

/// Whether the line is the word alone.
pub fn is_word_line(line: &[u8], word: &str) -> Option<()>
    ensures { IsRead (IsWordLine word.now) (λ said. said) line.now result }
{
    if line == word.as_bytes() {
        Some(())
    } else {
        None
    }
}

/// An entry. `Err` is want of memory alone.
pub fn entry_line(alloc: Global, line: &[u8]) -> Result<Option<EntryLine>, AllocError>
    ensures { IfOk result (IsRead IsEntryLine numbered line.now) }
{
    let Some((number, feed, from, rest)) = three_numbers(
        line,
        "entry ",
        LARGEST_ID,
        " feed ",
        u128::MAX,
        " line ",
        LARGEST_ID,
    ) else {
        return Ok(None);
    };
    let Some(rest) = behind(rest, " ") else {
        return Ok(None);
    };
    match read_message(alloc, rest) {
        Ok(message) => Ok(Some(EntryLine {
            number: number as u32,
            feed,
            line: from as u32,
            message,
        })),
        Err(MessageFault::Form) => Ok(None),
        Err(MessageFault::OutOfMemory) => Err(AllocError),
    }
}

/// The first line of a log.
pub fn opening_line(line: &[u8]) -> Option<OpeningLine>
    ensures { IsRead IsOpeningLine opening line.now result }
{
    let Some((feed, items)) = two_whole(line, "feed ", u128::MAX, " ", u128::MAX) else {
        return None;
    };
    Some(OpeningLine { feed, items })
}

/// How a log ends.
pub fn stop_line(line: &[u8]) -> Option<FeedStop>
    ensures { IsRead IsStopLine (λ stop. stop) line.now result }
{
    if let Some(()) = is_word_line(line, "end") {
        return Some(FeedStop::End);
    }
    if let Some(()) = is_word_line(line, "fault") {
        return Some(FeedStop::Fault);
    }
    if let Some(()) = is_word_line(line, "long") {
        return Some(FeedStop::Long);
    }
    None
}

/// The note of a board.
pub fn note_line(line: &[u8]) -> Option<NoteLine>
    ensures { IsRead IsNoteLine note line.now result }
{
    let Some((board, stop, entry)) = three_whole(
        line,
        "board ",
        u128::MAX,
        " stop ",
        u128::MAX,
        " dropped ",
        LARGEST_ID,
    ) else {
        return None;
    };
    Some(NoteLine {
        board,
        stop,
        entry: entry as u32,
    })
}

/// An event and its time.
pub fn time_line(line: &[u8]) -> Option<TimeLine>
    ensures { IsRead IsTimeLine timed line.now result }
{
    let Some((event, time)) = two_whole(line, "", LARGEST_ID, "; ", u128::MAX) else {
        return None;
    };
    Some(TimeLine {
        event: event as u32,
        time,
    })
}
