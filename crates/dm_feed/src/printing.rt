//! Lines and messages in print. Nothing here takes memory.
ghost use Rattle.std.specs.Prelude.{◌++◌, codes};
ghost use Rattle.std.specs.List.{flat_map};
ghost use Rattle.dm_outside.specs.Printing.{Prints, Puts};
ghost use Rattle.dm_feed.specs.Lines.{IsSpelledLine, spelling_of_choice, spelling_of_decision, spelling_of_line, spelling_of_message};

use crate::grammar::Line;
use dm_outside::{Page, Sink, WriteFault};
use dm_rows::{Choice, Decision, Message};

fn put_decision<K: Sink>(
    sink: &mut K,
    page: &mut Page,
    decision: Decision,
) -> Result<(), WriteFault>
    ensures { Prints K.taken K.faults sink.old sink.new page.old page.new result (spelling_of_decision decision) }
{
    match decision {
        Decision::Keep(act) => page.put_number(sink, " keep ", act.0 as u128),
        Decision::Drop(act) => page.put_number(sink, " drop ", act.0 as u128),
        Decision::First(first, second) => {
            page.put_pair(sink, " first ", (first.0 as u128, second.0 as u128))
        }
    }
}

/// Prints a choice behind this word: the id of a change, or the ids of a pair.
pub fn put_choice<K: Sink>(
    sink: &mut K,
    page: &mut Page,
    word: &str,
    choice: Choice,
) -> Result<(), WriteFault>
    ensures { Prints K.taken K.faults sink.old sink.new page.old page.new result (word.now ++ spelling_of_choice choice) }
{
    match choice {
        Choice::Change(act) => page.put_number(sink, word, act.0 as u128),
        Choice::Pair(first, second) => {
            page.put_pair(sink, word, (first.0 as u128, second.0 as u128))
        }
    }
}

fn put_decisions<K: Sink>(
    sink: &mut K,
    page: &mut Page,
    decisions: &[Decision],
) -> Result<(), WriteFault>
    ensures { Prints K.taken K.faults sink.old sink.new page.old page.new result (flat_map spelling_of_decision decisions.now) }
{
    for decision in decisions {
        let Ok(()) = put_decision(sink, page, *decision) else {
            return Err(WriteFault);
        };
    }
    Ok(())
}

fn put_adopted<K: Sink>(
    sink: &mut K,
    page: &mut Page,
    decisions: &[Decision],
) -> Result<(), WriteFault>
    ensures { Prints K.taken K.faults sink.old sink.new page.old page.new result
        (codes "adopt" ++ flat_map spelling_of_decision decisions.now) }
{
    let Ok(()) = page.put_bytes(sink, b"adopt") else {
        return Err(WriteFault);
    };
    put_decisions(sink, page, decisions)
}

/// Prints the one spelling of the message behind all that was printed through the page before. A write fault comes only where a
/// write failed.
#[tactic(auto, unfolding(crate::specs::Lines::spelling_of_message))]
pub fn put_message<K: Sink>(
    sink: &mut K,
    page: &mut Page,
    message: &Message,
) -> Result<(), WriteFault>
    ensures { Prints K.taken K.faults sink.old sink.new page.old page.new result (spelling_of_message message.now) }
{
    match message {
        Message::DelayEvent(event, delay) => {
            page.put_pair(sink, "delay event ", (event.0 as u128, *delay as u128))
        }
        Message::DelayActivity(act, delay) => {
            page.put_pair(sink, "delay activity ", (act.0 as u128, *delay as u128))
        }
        Message::Pass(event, time) => page.put_pair(
            sink,
            "pass ",
            (event.0 as u128, *time as u128),
        ),
        Message::Recall(event) => page.put_number(sink, "recall ", event.0 as u128),
        Message::Keep(act) => page.put_number(sink, "keep ", act.0 as u128),
        Message::Drop(act) => page.put_number(sink, "drop ", act.0 as u128),
        Message::First(first, second) => {
            page.put_pair(sink, "first ", (first.0 as u128, second.0 as u128))
        }
        Message::Now(time) => page.put_number(sink, "now ", *time as u128),
        Message::Cancel(event) => page.put_number(sink, "cancel ", event.0 as u128),
        Message::Restore(event) => page.put_number(sink, "restore ", event.0 as u128),
        Message::Lock(choice) => put_choice(sink, page, "lock ", *choice),
        Message::Unlock(choice) => put_choice(sink, page, "unlock ", *choice),
        Message::Adopt(decisions) => put_adopted(sink, page, decisions.as_slice()),
    }
}

/// Prints the one spelling of the line, without an end, behind all that was printed through the page before. A write fault comes
/// only where a write failed.
#[tactic(auto, unfolding(crate::specs::Lines::spelling_of_line, crate::specs::Lines::spelling_of_message))]
pub fn put_line<K: Sink>(sink: &mut K, page: &mut Page, line: &Line) -> Result<(), WriteFault>
    requires { IsSpelledLine line.now }
    ensures { Prints K.taken K.faults sink.old sink.new page.old page.new result (spelling_of_line line.now) }
{
    match line {
        Line::Say(message) => put_message(sink, page, message),
        Line::Time(event) => page.put_number(sink, "time ", event.0 as u128),
        Line::CostNow => page.put_bytes(sink, b"cost"),
        Line::Plan(nodes) => page.put_number(sink, "plan ", *nodes as u128),
        Line::Solve(nodes) => page.put_number(sink, "solve ", *nodes as u128),
        Line::Adopt => page.put_bytes(sink, b"adopt"),
        Line::Carry => page.put_bytes(sink, b"carry"),
        Line::Read => page.put_bytes(sink, b"read"),
    }
}

/// Prints the one spelling of the line, without an end. It takes no memory. A write fault comes only where a write
/// failed; the sink has then taken a front of the spelling, and not all of it.
pub fn print_line<K: Sink>(line: &Line, sink: &mut K) -> Result<(), WriteFault>
    requires { IsSpelledLine line.now }
    ensures { Puts K.taken K.faults sink.old sink.new result (spelling_of_line line.now) }
{
    let mut page = Page::new();
    let Ok(()) = put_line(sink, &mut page, line) else {
        return Err(WriteFault);
    };
    page.finish(sink)
}

/// Prints the one spelling of the message: its line, or `adopt` and its decisions in order. It takes no memory. A write
/// fault comes only where a write failed; the sink has then taken a front of the spelling, and not all of it.
pub fn print_message<K: Sink>(message: &Message, sink: &mut K) -> Result<(), WriteFault>
    ensures { Puts K.taken K.faults sink.old sink.new result (spelling_of_message message.now) }
{
    let mut page = Page::new();
    let Ok(()) = put_message(sink, &mut page, message) else {
        return Err(WriteFault);
    };
    page.finish(sink)
}
