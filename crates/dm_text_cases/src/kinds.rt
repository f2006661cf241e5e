//! The kinds of cases.

use crate::answers::told_of_parts;
use crate::feeds::told_of_feed;
use crate::files::{
    told_of_activities, told_of_columns, told_of_delays, told_of_events, told_of_ids,
};
use crate::journals::told_of_journal;
use crate::lines::{told_of_line, told_of_message, told_of_milli, told_of_said, told_of_whole};
use crate::long::{told_of_long_leaves, told_of_long_tree};
use crate::plans::{told_of_plan, told_of_solved};
use crate::rounds::told_of_round;
use crate::told::InARow;
use dm_samples::{Case, Failure, written_out};
use std::alloc::{AllocError, Global};

/// A byte that stands in no text.
const STRANGE: u8 = b'~';

/// What a text is read as.
#[derive(Clone, Copy)]
enum Kind {
    Whole,
    Milli,
    Said,
    Line,
    Message,
    Feed,
    Events,
    Activities,
    Delays,
    Ids,
    Columns,
    Plan,
    Solved,
    Round,
    Journal,
    Answers,
    LongTree,
    LongLeaves,
}

impl Kind {
    fn named(name: &str) -> Option<Kind> {
        match name {
            "whole" => Some(Kind::Whole),
            "milli" => Some(Kind::Milli),
            "said" => Some(Kind::Said),
            "line" => Some(Kind::Line),
            "message" => Some(Kind::Message),
            "feed" => Some(Kind::Feed),
            "events" => Some(Kind::Events),
            "activities" => Some(Kind::Activities),
            "delays" => Some(Kind::Delays),
            "ids" => Some(Kind::Ids),
            "columns" => Some(Kind::Columns),
            "plan" => Some(Kind::Plan),
            "solved" => Some(Kind::Solved),
            "round" => Some(Kind::Round),
            "journal" => Some(Kind::Journal),
            "answers" => Some(Kind::Answers),
            "long-tree" => Some(Kind::LongTree),
            "long-leaves" => Some(Kind::LongLeaves),
            _ => None,
        }
    }
}

/// What comes of a case: of its text, of each front of it, of the text with each byte changed, or of each two parts.
pub fn told_of(alloc: Global, case: &Case<'_>) -> Result<String, Failure> {
    let bytes = written_out(alloc, case.text)?;
    let (kind, words) = case.words.split_once(" ").unwrap_or((case.words, ""));
    let inner = Case {
        kind,
        words,
        text: case.text,
    };
    match case.kind {
        "fronts" => told_of_fronts(alloc, &inner, &bytes),
        "changed" => told_of_changed(alloc, &inner, &bytes),
        "cuts" => told_of_cuts(alloc, &inner, &bytes),
        _ => told_of_bytes(alloc, case, &bytes),
    }
}

fn told_of_bytes(alloc: Global, case: &Case<'_>, bytes: &[u8]) -> Result<String, Failure> {
    match Kind::named(case.kind).ok_or(Failure::NoDay)? {
        Kind::Whole => told_of_whole(alloc, bytes),
        Kind::Milli => told_of_milli(alloc, bytes),
        Kind::Said => told_of_said(alloc, bytes),
        Kind::Line => told_of_line(alloc, bytes),
        Kind::Message => told_of_message(alloc, case, bytes),
        Kind::Feed => told_of_feed(alloc, case, bytes),
        Kind::Events => told_of_events(alloc, case, bytes),
        Kind::Activities => told_of_activities(alloc, bytes),
        Kind::Delays => told_of_delays(alloc, bytes),
        Kind::Ids => told_of_ids(alloc, bytes),
        Kind::Columns => told_of_columns(alloc, case),
        Kind::Plan => told_of_plan(alloc, case, bytes),
        Kind::Solved => told_of_solved(alloc, bytes),
        Kind::Round => told_of_round(alloc, case, bytes),
        Kind::Journal => told_of_journal(alloc, case, bytes),
        Kind::Answers => told_of_parts(alloc, case, bytes, &[bytes.len(); 12]),
        Kind::LongTree => told_of_long_tree(alloc, case),
        Kind::LongLeaves => told_of_long_leaves(alloc, case),
    }
}

fn told_of_fronts(alloc: Global, case: &Case<'_>, bytes: &[u8]) -> Result<String, Failure> {
    let mut all = InARow::new(alloc);
    for length in 0..bytes.len() {
        all.add(alloc, told_of_bytes(alloc, case, &bytes[..length])?)?;
    }
    all.told(alloc)
}

fn told_of_changed(alloc: Global, case: &Case<'_>, bytes: &[u8]) -> Result<String, Failure> {
    let mut all = InARow::new(alloc);
    for place in 0..bytes.len() {
        let other = changed(alloc, bytes, place)?;
        all.add(alloc, told_of_bytes(alloc, case, &other)?)?;
    }
    all.told(alloc)
}

/// The bytes with this one changed.
fn changed(alloc: Global, bytes: &[u8], place: usize) -> Result<Vec<u8>, AllocError> {
    let mut other = Vec::from_slice(alloc, bytes)?;
    if let Some(byte) = other.get_mut(place) {
        *byte = STRANGE;
    }
    Ok(other)
}

fn told_of_cuts(alloc: Global, case: &Case<'_>, bytes: &[u8]) -> Result<String, Failure> {
    let mut all = InARow::new(alloc);
    for cut in 0..bytes.len() {
        all.add(
            alloc,
            told_of_parts(alloc, case, bytes, &[cut, bytes.len()])?,
        )?;
    }
    all.told(alloc)
}
