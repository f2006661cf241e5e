//! Messages and lines read from print.
ghost use Rattle.std.specs.Prelude.{◌≡◌, ◌⊎◌, IfOk, Some};
ghost use Rattle.std.specs.Option.{option_map};
ghost use Rattle.dm_feed.specs.Words.{words_of};
ghost use Rattle.dm_feed.specs.Lines.{IsMessageOf, IsNoMessage, ReadsPrinted};
ghost use Rattle.dm_feed.specs.Inside.Reading.{is_plain_word, is_plain, message_of, are_sorted, next_id, first_behind, decision_behind, next_decision};
ghost use Rattle.dm_feed.specs.Inside.Deciding.{ReadsDecisions, ReadsLine, ReadsParts};

use crate::grammar::Line;
use crate::numbers::id_of;
use crate::reading::{are_none, line_behind};
use crate::vocabulary::{Word, word_of};
use crate::words::{cut, next_word};
use dm_base::{ActId, EventId, Items};
use dm_rows::{Decision, Message};
use std::alloc::Global;

/// Why bytes give no message.
#[derive(Clone, Copy, PartialEq, Eq, Debug)]
pub enum MessageFault {
    /// The bytes are no message's spelling.
    Form,

    /// There is not enough memory for the decisions of an adopted list.
    OutOfMemory,
}

// Whether a word is spelled as in print.
fn is_plain_word(word: &[u8]) -> bool
    ensures { result ≡ is_plain_word word.now }
{
    match word {
        [] => false,
        [_] => true,
        [first, ..] => *first != b'0',
    }
}

// Whether the words are spelled as in print, with one space between them.
fn is_plain(bytes: &[u8]) -> bool
    ensures { result ≡ is_plain bytes.now }
{
    let mut rest = bytes;
    while let Some((word, behind)) = cut(rest, b' ') {
        if !is_plain_word(word) {
            return false;
        }
        rest = behind;
    }
    is_plain_word(rest)
}

// The id that is the first word, and what stands behind it.
fn next_id(words: &[u8]) -> Option<(u32, &[u8])>
    ensures { option_map (λ p. (p.0, words_of p.1.now)) result ≡ next_id (words_of words.now) }
{
    let (text, rest) = next_word(words)?;
    Some((id_of(text)?, rest))
}

// The order of a pair, behind its word.
fn next_first(words: &[u8]) -> Option<(Decision, &[u8])>
    ensures { option_map (λ p. (p.0, words_of p.1.now)) result ≡ first_behind (next_id (words_of words.now)) }
{
    let (first, rest) = next_id(words)?;
    let (second, rest) = next_id(rest)?;
    Some((Decision::First(EventId(first), EventId(second)), rest))
}

// What a change is to do, behind its word.
fn next_change(word: Word, words: &[u8]) -> Option<(Decision, &[u8])>
    ensures { option_map (λ p. (p.0, words_of p.1.now)) result ≡ decision_behind (Some word) (words_of words.now) }
{
    match word {
        Word::Keep => {
            let (act, rest) = next_id(words)?;
            Some((Decision::Keep(ActId(act)), rest))
        }
        Word::Drop => {
            let (act, rest) = next_id(words)?;
            Some((Decision::Drop(ActId(act)), rest))
        }
        Word::First => next_first(words),
        _ => None,
    }
}

// The first decision, and what stands behind it.
fn next_decision(words: &[u8]) -> Option<(Decision, &[u8])>
    ensures { option_map (λ p. (p.0, words_of p.1.now)) result ≡ next_decision (words_of words.now) }
{
    let (text, rest) = next_word(words)?;
    next_change(word_of(text)?, rest)
}

// The decisions of an adopted list, behind its word.
fn read_decisions(alloc: Global, words: &[u8]) -> Result<Vec<Decision>, MessageFault>
    ensures { ReadsDecisions (words_of words.now) result }
{
    let mut decisions = Vec::new(alloc);
    let mut rest = words;
    while let Some((decision, behind)) = next_decision(rest) {
        let Ok(()) = decisions.push(decision) else {
            return Err(MessageFault::OutOfMemory);
        };
        rest = behind;
    }
    if !are_none(rest) {
        return Err(MessageFault::Form);
    }
    Ok(decisions)
}

// The message that the line says.
fn message_of(line: Line) -> Option<Message>
    ensures { result ≡ message_of line }
{
    match line {
        Line::Say(message) => Some(message),
        _ => None,
    }
}

// Whether a pair to lock or unlock has its smaller id first.
fn are_sorted(word: Word, words: &[u8]) -> bool
    ensures { result ≡ are_sorted word (words_of words.now) }
{
    if !matches!(word, Word::Lock | Word::Unlock) {
        return true;
    }
    match next_first(words) {
        Some((Decision::First(first, second), _)) => first.0 <= second.0,
        _ => true,
    }
}

fn message_with(alloc: Global, words: &[u8]) -> Result<Message, MessageFault>
    ensures { ReadsParts (words_of words.now) result }
{
    let Some((first, rest)) = next_word(words) else {
        return Err(MessageFault::Form);
    };
    let Some(word) = word_of(first) else {
        return Err(MessageFault::Form);
    };
    if let Word::Adopt = word {
        let decisions = match read_decisions(alloc, rest) {
            Ok(decisions) => decisions,
            Err(fault) => return Err(fault),
        };
        return Ok(Message::Adopt(Items::from_vec(decisions)));
    }
    if !are_sorted(word, rest) {
        return Err(MessageFault::Form);
    }
    let Some(line) = line_behind(word, rest) else {
        return Err(MessageFault::Form);
    };
    let Some(message) = message_of(line) else {
        return Err(MessageFault::Form);
    };
    Ok(message)
}

/// The message whose printed spelling the bytes are. Memory is taken for the decisions of an adopted list alone.
pub fn read_message(alloc: Global, bytes: &[u8]) -> Result<Message, MessageFault>
    ensures ok { IfOk result (λ said. IsMessageOf said bytes.now) }

    // Form exactly where the bytes are no message's spelling, unless memory runs out.
    ensures form { result ≡ Err MessageFault.Form → IsNoMessage bytes.now }
    ensures not_form { IsNoMessage bytes.now → (result ≡ Err MessageFault.Form) ⊎ (result ≡ Err MessageFault.OutOfMemory) }
{
    if !is_plain(bytes) {
        return Err(MessageFault::Form);
    }
    message_with(alloc, bytes)
}

// The line that the words say as they are printed.
fn printed_line(words: &[u8]) -> Option<Line>
    ensures { ReadsLine (words_of words.now) result }
{
    let Some((first, rest)) = next_word(words) else {
        return None;
    };
    let Some(word) = word_of(first) else {
        return None;
    };
    if !are_sorted(word, rest) {
        return None;
    }
    line_behind(word, rest)
}

/// The line whose printed spelling the bytes are. It takes no memory.
pub fn read_printed(bytes: &[u8]) -> Option<Line>
    ensures { ReadsPrinted bytes.now result }
{
    if !is_plain(bytes) {
        return None;
    }
    printed_line(bytes)
}
