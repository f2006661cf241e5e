//! The first lines of a log's items.
ghost use Rattle.std.specs.Prelude.{◌≡◌, ◌==◌, ◌<◌, length, position, IfOk, IfSome};
ghost use Rattle.std.specs.Option.{option_map};
ghost use Rattle.dm_cert.specs.declared.replies.Reply.{Reply as Replied};
ghost use Rattle.dm_cert.specs.declared.replies.LogItem.TheVariants.{Answered};
ghost use Rattle.dm_cert.specs.PlanTexts.{IsVersion};
ghost use Rattle.dm_records.specs.RunLines.{lone};
ghost use Rattle.dm_records.specs.Inside.Answers.{saying, AnswerFits, HoldsReply};
ghost use Rattle.dm_records.specs.Inside.Items.{item_with, ReadsSaid, ReadsLineIn, exchanged, knows_line, around, parted};
ghost use Rattle.dm_records.specs.Readings.{IsReadAs, ReadsItem};

use crate::answers::{AnswerLine, answer_line, free_reply, told_reply};
use crate::fields::{LARGEST_ID, number_behind};
use crate::lines::is_word_line;
use dm_base::Cost;
use dm_cert::{LogItem, Reply};
use dm_feed::{Line, read_printed};
use dm_rows::{At, Refusal};
use dm_text::behind;
use dm_tree::Mark;
use std::alloc::{AllocError, Global};

/// The first line of an item that answers with a plan: how many lines of choices follow, and how many of the tree.
#[derive(Drop)]
pub struct PlanLine {
    pub line: u32,
    pub said: Line,
    pub entry: u32,
    pub mark: Mark,
    pub cost: Cost,
    pub bound: Cost,
    pub choices: u128,
    pub size: u128,
}

/// The first line of an item that answers with a plan by parts: how many lines of choices follow, how many parts, and how many
/// nodes these have together.
#[derive(Drop)]
pub struct SolvedLine {
    pub line: u32,
    pub said: Line,
    pub entry: u32,
    pub mark: Mark,
    pub cost: Cost,
    pub bound: Cost,
    pub choices: u128,
    pub parts: u128,
    pub nodes: u128,
}

/// The first line of an item.
#[derive(Drop)]
pub enum LogLine {
    /// A whole item of one line.
    Item(LogItem),

    /// A whole item of one line, with a value that is too large for its type.
    TooLarge,

    /// The first line of a plan.
    Planned(PlanLine),

    /// The first line of a plan by parts.
    Solved(SolvedLine),
}

/// What is said and answered in the first line of an item.
#[derive(Drop)]
pub(crate) struct Exchange {
    pub(crate) said: Line,
    pub(crate) answer: AnswerLine,
}

/// The item of one line that answers with this reply, unless a value in that is too large.
fn item_of(line: u32, said: Line, reply: Option<Reply>) -> LogLine
    ensures { (r : Replied) → HoldsReply r reply → IsReadAs result (lone (Answered line said r)) }
{
    match reply {
        Some(reply) => LogLine::Item(LogItem::Answered { line, said, reply }),
        None => LogLine::TooLarge,
    }
}

/// The first line of the item of this line that says and answers so.
fn log_line(line: u32, exchange: Exchange) -> LogLine
    requires { AnswerFits exchange.answer }
    ensures { IsReadAs result (item_with line exchange.said (saying exchange.answer)) }
{
    let Exchange { said, answer } = exchange;
    match answer {
        AnswerLine::Told(entry, kind, one, two) => {
            item_of(line, said, told_reply(entry, kind, one, two))
        }
        AnswerLine::Free(kind, one, two) => item_of(line, said, free_reply(kind, one, two)),
        AnswerLine::Cycle(entry, ids) => LogLine::Item(LogItem::Answered {
            line,
            said,
            reply: Reply::Refused(At {
                entry,
                why: Refusal::Cycle(ids),
            }),
        }),
        AnswerLine::Plan(entry, heading) => LogLine::Planned(PlanLine {
            line,
            said,
            entry,
            mark: heading.mark,
            cost: heading.cost,
            bound: heading.bound,
            choices: heading.choices,
            size: heading.size,
        }),
        AnswerLine::Solved(entry, heading) => LogLine::Solved(SolvedLine {
            line,
            said,
            entry,
            mark: heading.mark,
            cost: heading.cost,
            bound: heading.bound,
            choices: heading.choices,
            parts: heading.parts,
            nodes: heading.nodes,
        }),
    }
}

/// Whether a version has the words of a line: version 1 has none for plans by parts.
fn has_words(version: u32, said: &Line) -> bool
    ensures { result ≡ knows_line version said.now }
{
    match said {
        Line::Solve(_) => version != 1,
        _ => true,
    }
}

/// The line that the bytes say, where the version has its words.
fn line_said(version: u32, bytes: &[u8]) -> Option<Line>
    requires { IsVersion version }
    ensures { ReadsLineIn version bytes.now result }
{
    let Some(said) = read_printed(bytes) else {
        return None;
    };
    if has_words(version, &said) {
        Some(said)
    } else {
        None
    }
}

/// What stands before an arrow that begins in front of this byte, and what stands behind it.
fn around(bytes: &[u8], dash: usize) -> Option<(&[u8], &[u8])>
    requires { dash < length bytes.now }
    ensures { option_map (λ p. (p.0.now, p.1.now)) result ≡ around bytes.now dash }
{
    let front = dash.saturating_sub(1);
    let Some(tail) = behind(&bytes[front..], " -> ") else {
        return None;
    };
    Some((&bytes[..front], tail))
}

/// The place of the first dash.
fn first_dash(bytes: &[u8]) -> Option<usize>
    ensures is { result ≡ position (λ b. b == 45) bytes.now }
    ensures within { IfSome result (λ place. place < length bytes.now) }
{
    bytes.iter().position(|byte| *byte == b'-')
}

/// What stands before and behind the arrow, where the first dash is in one.
fn parted(bytes: &[u8]) -> Option<(&[u8], &[u8])>
    ensures { option_map (λ p. (p.0.now, p.1.now)) result ≡ parted bytes.now }
{
    let Some(dash) = first_dash(bytes) else {
        return None;
    };
    around(bytes, dash)
}

/// What is said and answered behind an item's number.
fn said_and_answered(
    alloc: Global,
    version: u32,
    line: &[u8],
) -> Result<Option<Exchange>, AllocError>
    requires { IsVersion version }
    ensures reads { IfOk result (λ read. ReadsSaid version line.now (option_map exchanged read)) }
    ensures fits { IfOk result (λ read. IfSome read (λ e. AnswerFits e.answer)) }
{
    let Some((front, tail)) = parted(line) else {
        return Ok(None);
    };
    let Some(said) = line_said(version, front) else {
        return Ok(None);
    };
    match answer_line(alloc, version, tail) {
        Ok(Some(answer)) => Ok(Some(Exchange { said, answer })),
        Ok(None) => Ok(None),
        Err(AllocError) => Err(AllocError),
    }
}

/// The first line of an item, in a version. `Err` is want of memory alone.
pub fn item_line(alloc: Global, version: u32, line: &[u8]) -> Result<Option<LogLine>, AllocError>
    requires { IsVersion version }
    ensures { IfOk result (ReadsItem version line.now) }
{
    let Some((number, rest)) = number_behind(line, "", LARGEST_ID) else {
        return Ok(None);
    };
    let line = number as u32;
    if let Some(()) = is_word_line(rest, " malformed") {
        return Ok(Some(LogLine::Item(LogItem::Malformed { line })));
    }
    let Some(rest) = behind(rest, " ") else {
        return Ok(None);
    };
    match said_and_answered(alloc, version, rest) {
        Ok(Some(exchange)) => Ok(Some(log_line(line, exchange))),
        Ok(None) => Ok(None),
        Err(AllocError) => Err(AllocError),
    }
}
