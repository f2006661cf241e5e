//! What is amiss in the feeds of a run.
use crate::files::{is_plain, read_again, tell_reason};
use crate::hearing::{FeedHeard, Heard, REASONS, Stop, TOLD};
use crate::saying::{say, say_at};
use crate::text::{cut, has, has_capital, line_at, shown};
use dm_base::EventRow;
use dm_base::limits::{FEED, LINE};
use dm_input::{File as InputFile, take_name};
use dm_lintim::read_events;
use dm_outside::{FolderShelf, Piece};
use dm_words::{FileWords, RunWords};
use std::fs::File;
use std::io;
use std::rt::Files;

/// The first words of lines, and the form of such a line.
const FORMS: [(&str, &str); 18] = [
    (
        "delay",
        "the form is `delay event E D` or `delay activity A D`",
    ),
    ("pass", "the form is `pass E T`"),
    ("recall", "the form is `recall E`"),
    ("keep", "the form is `keep A`"),
    ("drop", "the form is `drop A`"),
    ("first", "the form is `first E F`"),
    ("now", "the form is `now T`"),
    ("cancel", "the form is `cancel E`"),
    ("restore", "the form is `restore E`"),
    ("lock", "the form is `lock A` or `lock E F`"),
    ("unlock", "the form is `unlock A` or `unlock E F`"),
    ("time", "the form is `time E`"),
    ("cost", "the form is `cost`"),
    ("read", "the form is `read`"),
    ("plan", "the form is `plan B`"),
    ("solve", "the form is `solve B`"),
    ("adopt", "the form is `adopt`"),
    ("carry", "the form is `carry`"),
];

/// Says what is amiss in a run: in its feeds, in its answers, and in its boards.
pub fn tell_run<R: Eprint + Files<File = File> + AllocGlobal>(
    rt: &R,
    run: &RunWords<'_>,
    heard: &Heard,
) -> io::Result<()> {
    let mut rest = run.feeds;
    for (place, feed) in heard.feeds.iter().enumerate() {
        let Some((name, others)) = rest.split_first() else {
            break;
        };
        tell_feed(rt, place.saturating_add(1), name, feed)?;
        rest = others;
    }
    tell_refusals(rt, heard)?;
    let Ok(stops) = run.boards.to_vec(rt.alloc()) else {
        return Ok(());
    };
    tell_boards(rt, &run.files, stops.as_slice())
}

/// Says what is amiss in a feed.
fn tell_feed<R: Eprint + Files<File = File> + AllocGlobal>(
    rt: &R,
    number: usize,
    name: &str,
    feed: &FeedHeard,
) -> io::Result<()> {
    tell_end(rt, number, name, feed.stop)?;
    if feed.malformed == 0 {
        return Ok(());
    }
    let count = feed.malformed;
    say(
        rt,
        &[
            Piece::Text("feed "),
            Piece::Number(number as u128),
            Piece::Text(", "),
            Piece::Text(name),
            Piece::Text(": malformed lines: "),
            Piece::Number(count as u128),
        ],
    )?;
    tell_malformed(rt, name, feed)
}

/// Says the first malformed lines of a feed, where it can be read again, or else their numbers.
fn tell_malformed<R: Eprint + Files<File = File> + AllocGlobal>(
    rt: &R,
    name: &str,
    feed: &FeedHeard,
) -> io::Result<()> {
    if !is_plain(rt, name) {
        return tell_numbers(rt, name, feed);
    }
    let mut shelf = FolderShelf::new(rt);
    match take_name(rt.alloc(), &mut shelf, name, FEED) {
        Ok(bytes) => tell_lines(rt, name, feed, bytes.as_slice()),
        Err(_) => tell_numbers(rt, name, feed),
    }
}

/// Says how a feed ended, where it did not end well.
fn tell_end<R: Eprint + Files<File = File>>(
    rt: &R,
    number: usize,
    name: &str,
    stop: Stop,
) -> io::Result<()> {
    match stop {
        Stop::End => Ok(()),
        Stop::Fault => {
            say(
                rt,
                &[
                    Piece::Text("feed "),
                    Piece::Number(number as u128),
                    Piece::Text(" ended with a fault"),
                ],
            )?;
            tell_reason(rt, name)
        }
        Stop::Long => say(
            rt,
            &[
                Piece::Text("feed "),
                Piece::Number(number as u128),
                Piece::Text(", "),
                Piece::Text(name),
                Piece::Text(", has more than 262144 bytes: what lies behind them was not answered"),
            ],
        ),
    }
}

/// Says the numbers of the first malformed lines of a feed.
fn tell_numbers<R: Eprint>(rt: &R, name: &str, feed: &FeedHeard) -> io::Result<()> {
    for number in feed.first.iter().take(told_lines(feed)) {
        say(
            rt,
            &[
                Piece::Text(name),
                Piece::Text(" line "),
                Piece::Number(*number as u128),
            ],
        )?;
    }
    Ok(())
}

/// Says the first malformed lines of a feed, with a guess why.
fn tell_lines<R: Eprint>(rt: &R, name: &str, feed: &FeedHeard, bytes: &[u8]) -> io::Result<()> {
    for number in feed.first.iter().take(told_lines(feed)) {
        let line = line_at(bytes, *number);
        let (text, why) = (shown(line), guess(line, is_ended(bytes, *number)));
        say_at(
            rt,
            name,
            *number,
            &[
                Piece::Text("\""),
                Piece::Text(text),
                Piece::Text("\": "),
                Piece::Text(why),
            ],
        )?;
    }
    Ok(())
}

/// How many malformed lines of a feed are told.
fn told_lines(feed: &FeedHeard) -> usize {
    TOLD.min(feed.malformed as usize)
}

/// Whether an LF stands behind a line.
fn is_ended(bytes: &[u8], number: u64) -> bool {
    let ends = bytes.iter().filter(|byte| **byte == b'\n').count();
    number <= ends as u64
}

/// Why a line may be malformed, behind which an LF stands or none.
fn guess(line: &[u8], is_ended: bool) -> &'static str {
    let bare = if is_ended {
        line.strip_suffix(b"\r").unwrap_or(line)
    } else {
        line
    };
    if line.starts_with(b"\xef\xbb\xbf") {
        "a byte order mark stands before it: save the feed as UTF-8 without one"
    } else if bare.len() > LINE {
        "it has more than 1024 bytes"
    } else if has(line, b'\t') {
        "a tab: words stand between spaces"
    } else if has(line, b'-') {
        "a minus sign: numbers are 0 or more"
    } else if has(bare, b'\r') {
        "a CR without LF: lines end with LF, or with CR and LF"
    } else if has_capital(line) {
        "a capital letter: words are written in small letters"
    } else {
        form_of(bare)
    }
}

/// The form of a line that begins with such a word.
fn form_of(line: &[u8]) -> &'static str {
    let (word, _) = cut(line.trim_ascii(), b' ');
    for (name, form) in &FORMS {
        if word == name.as_bytes() {
            return *form;
        }
    }
    "no line begins with this word: delay, pass, recall, cancel, restore, keep, drop, first, lock, unlock, now, time, cost, read, plan, solve, adopt, carry"
}

/// Says how many lines were refused for each reason.
fn tell_refusals<R: Eprint>(rt: &R, heard: &Heard) -> io::Result<()> {
    for (reason, count) in REASONS.iter().zip(heard.refused.iter()) {
        if *count > 0 {
            say(
                rt,
                &[
                    Piece::Text("lines answered with `"),
                    Piece::Text(*reason),
                    Piece::Text("`: "),
                    Piece::Number(*count as u128),
                ],
            )?;
        }
    }
    Ok(())
}

/// Says which stops of boards have no event.
fn tell_boards<R: Eprint + Files<File = File> + AllocGlobal>(
    rt: &R,
    files: &FileWords<'_>,
    stops: &[u32],
) -> io::Result<()> {
    if stops.is_empty() {
        return Ok(());
    }
    let Some(file) = read_again(rt, files, InputFile::Events) else {
        return Ok(());
    };
    match read_events(rt.alloc(), file.bytes(), &files.columns) {
        Ok(rows) => tell_stops(rt, rows.as_slice(), stops),
        Err(_) => Ok(()),
    }
}

/// Says which of these stops have no event.
fn tell_stops<R: Eprint>(rt: &R, rows: &[EventRow], stops: &[u32]) -> io::Result<()> {
    for stop in stops {
        if !has_event(rows, *stop) {
            let pieces = [
                Piece::Text("no event has the stop "),
                Piece::Number(*stop as u128),
                Piece::Text(", so its board shows nothing"),
            ];
            say(rt, &pieces)?;
        }
    }
    Ok(())
}

fn has_event(rows: &[EventRow], stop: u32) -> bool {
    rows.iter().any(|row| row.stop.0 == stop)
}
