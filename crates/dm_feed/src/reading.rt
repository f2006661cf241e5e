//! What is heard in a line.
ghost use Rattle.std.specs.Prelude.{◌≡◌, ◌==◌, ◌↔◌, length};
ghost use Rattle.dm_feed.specs.Words.{words_of};
ghost use Rattle.dm_feed.specs.Lines.{Hears, IsQuiet, IsInNoForm};
ghost use Rattle.dm_feed.specs.Inside.Reading.{only, id_in, value_in, two, alone, choice_in, delay_behind, line_behind, line_in, heard_in};

use crate::grammar::{Heard, Line};
use crate::numbers::{id_of, value_of};
use crate::vocabulary::{Word, word_of};
use crate::words::next_word;
use dm_base::limits::LINE;
use dm_base::{ActId, EventId};
use dm_rows::{Choice, Message};

pub(crate) fn are_none(words: &[u8]) -> bool
    ensures { result ≡ (length (words_of words.now) == 0) }
{
    next_word(words).is_none()
}

fn one_id(words: &[u8]) -> Option<u32>
    ensures { result ≡ only id_in (words_of words.now) }
{
    let (id, rest) = next_word(words)?;
    if !are_none(rest) {
        return None;
    }
    id_of(id)
}

fn one_value(words: &[u8]) -> Option<u64>
    ensures { result ≡ only value_in (words_of words.now) }
{
    let (value, rest) = next_word(words)?;
    if !are_none(rest) {
        return None;
    }
    value_of(value)
}

fn id_and_value(words: &[u8]) -> Option<(u32, u64)>
    ensures { result ≡ two id_in value_in (words_of words.now) }
{
    let (id, rest) = next_word(words)?;
    Some((id_of(id)?, one_value(rest)?))
}

fn two_ids(words: &[u8]) -> Option<(u32, u32)>
    ensures { result ≡ two id_in id_in (words_of words.now) }
{
    let (id, rest) = next_word(words)?;
    Some((id_of(id)?, one_id(rest)?))
}

// The choice whose ids are the words: that of a change, or those of a pair in either order.
fn choice_in(words: &[u8]) -> Option<Choice>
    ensures { result ≡ choice_in (words_of words.now) }
{
    let (first, rest) = next_word(words)?;
    let first = id_of(first)?;
    if are_none(rest) {
        return Some(Choice::Change(ActId(first)));
    }
    let second = one_id(rest)?;
    Some(Choice::Pair(EventId(first), EventId(second)).sorted())
}

// The line whose first word is `delay` and whose other words are these.
fn delay_behind(words: &[u8]) -> Option<Line>
    ensures { result ≡ delay_behind (words_of words.now) }
{
    let (what, rest) = next_word(words)?;
    match word_of(what)? {
        Word::Event => {
            let (event, delay) = id_and_value(rest)?;
            Some(Line::Say(Message::DelayEvent(EventId(event), delay)))
        }
        Word::Activity => {
            let (act, delay) = id_and_value(rest)?;
            Some(Line::Say(Message::DelayActivity(ActId(act), delay)))
        }
        _ => None,
    }
}

// The line without numbers, if there are no words behind it.
fn alone(line: Line, words: &[u8]) -> Option<Line>
    ensures { result ≡ alone line (words_of words.now) }
{
    if are_none(words) { Some(line) } else { None }
}

/// The line that begins with this word, and whose other words are these.
#[inline(always)]
pub(crate) fn line_behind(word: Word, words: &[u8]) -> Option<Line>
    ensures { result ≡ line_behind word (words_of words.now) }
{
    match word {
        Word::Delay => delay_behind(words),
        Word::Pass => {
            let (event, time) = id_and_value(words)?;
            Some(Line::Say(Message::Pass(EventId(event), time)))
        }
        Word::Recall => Some(Line::Say(Message::Recall(EventId(one_id(words)?)))),
        Word::Keep => Some(Line::Say(Message::Keep(ActId(one_id(words)?)))),
        Word::Drop => Some(Line::Say(Message::Drop(ActId(one_id(words)?)))),
        Word::First => {
            let (first, second) = two_ids(words)?;
            Some(Line::Say(Message::First(EventId(first), EventId(second))))
        }
        Word::Now => Some(Line::Say(Message::Now(one_value(words)?))),
        Word::Cancel => Some(Line::Say(Message::Cancel(EventId(one_id(words)?)))),
        Word::Restore => Some(Line::Say(Message::Restore(EventId(one_id(words)?)))),
        Word::Lock => Some(Line::Say(Message::Lock(choice_in(words)?))),
        Word::Unlock => Some(Line::Say(Message::Unlock(choice_in(words)?))),
        Word::Time => Some(Line::Time(EventId(one_id(words)?))),
        Word::Cost => alone(Line::CostNow, words),
        Word::Read => alone(Line::Read, words),
        Word::Plan => Some(Line::Plan(one_value(words)?)),
        Word::Solve => Some(Line::Solve(one_value(words)?)),
        Word::Adopt => alone(Line::Adopt, words),
        Word::Carry => alone(Line::Carry, words),
        Word::Event | Word::Activity => None,
    }
}

// The line that begins with this word, as it is spelled.
fn line_with(first: &[u8], words: &[u8]) -> Option<Line>
    ensures { result ≡ line_in first.now (words_of words.now) }
{
    line_behind(word_of(first)?, words)
}

// What is heard in a line of any bytes.
fn hear(bytes: &[u8]) -> Heard
    ensures { result ≡ heard_in bytes.now }
{
    if bytes.len() > LINE {
        return Heard::Malformed;
    }
    let Some((first, rest)) = next_word(bytes) else {
        return Heard::Blank;
    };
    if let [b'#', ..] = first {
        return Heard::Blank;
    }
    match line_with(first, rest) {
        Some(line) => Heard::Line(line),
        None => Heard::Malformed,
    }
}

/// What is heard in the bytes of a line, without its end. It takes no memory.
#[tactic(auto, using(crate::proofs::Hearing::hears, crate::proofs::Hearing::blank_exactly, crate::proofs::Hearing::malformed_exactly))]
pub fn read_line(bytes: &[u8]) -> Heard
    ensures hears { Hears bytes.now result }

    // Blank exactly for blank lines and comments, malformed exactly where the bytes are in no form.
    ensures blank { (result ≡ Heard.Blank) ↔ IsQuiet bytes.now }
    ensures malformed { (result ≡ Heard.Malformed) ↔ IsInNoForm bytes.now }
{
    hear(bytes)
}
