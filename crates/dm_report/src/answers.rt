//! What feeds were answered, in print.
ghost use Rattle.std.specs.Prelude.{◌∷◌, ◌++◌, [], codes, All};
ghost use Rattle.std.specs.Fmt.{decimal};
ghost use Rattle.std.specs.List.{flat_map};
ghost use Rattle.dm_outside.specs.Printing.{Prints, joined};
ghost use Rattle.dm_cert.specs.PlanTexts.{line_end, spelling_of_plan};
ghost use Rattle.dm_cert.specs.SolvedTexts.{spelling_of_solved};
ghost use Rattle.dm_cert.specs.RunTexts.{spaced_id, reason_text, reply_text, item_text, stop_text, log_text, logs_text, IsSpelledReason, IsSpelledReply, IsSpelledItem, IsSpelledLog};

use crate::words::{put_labelled, put_number};
use dm_base::ActId;
use dm_cert::{FeedLog, LogItem, Reply, put_plan, put_solved};
use dm_feed::{FeedStop, put_choice, put_line};
use dm_outside::{Page, Piece, Sink, WriteFault};
use dm_parts::PlanByParts;
use dm_rows::{At, Refusal};
use dm_tree::Plan;

/// Prints an activity's id with a space in front.
fn put_id<K: Sink>(sink: &mut K, page: &mut Page, id: ActId) -> Result<(), WriteFault>
    ensures { Prints K.taken K.faults sink.old sink.new page.old page.new result (spaced_id id) }
{
    page.put(sink, &[Piece::Text(" "), Piece::Number(id.0 as u128)])
}

/// Prints ids of activities, each with a space in front, behind all that was printed through the page before. A write fault comes
/// only where a write failed.
pub fn put_ids<K: Sink>(sink: &mut K, page: &mut Page, ids: &[ActId]) -> Result<(), WriteFault>
    ensures { Prints K.taken K.faults sink.old sink.new page.old page.new result (flat_map spaced_id ids.now) }
{
    for id in ids {
        let Ok(()) = put_id(sink, page, *id) else {
            return Err(WriteFault);
        };
    }
    Ok(())
}

fn put_cycle<K: Sink>(sink: &mut K, page: &mut Page, ids: &[ActId]) -> Result<(), WriteFault>
    ensures { Prints K.taken K.faults sink.old sink.new page.old page.new result (codes "cycle" ++ flat_map spaced_id ids.now) }
{
    let Ok(()) = page.put_bytes(sink, b"cycle") else {
        return Err(WriteFault);
    };
    put_ids(sink, page, ids)
}

/// Prints why something is refused.
fn put_reason<K: Sink>(sink: &mut K, page: &mut Page, why: &Refusal) -> Result<(), WriteFault>
    requires { IsSpelledReason why.now }
    ensures { Prints K.taken K.faults sink.old sink.new page.old page.new result (reason_text why.now) }
{
    match why {
        Refusal::Range(value) => put_number(sink, page, "range ", *value as u128, ""),
        Refusal::UnknownEvent(event) => {
            put_number(sink, page, "unknown-event ", event.0 as u128, "")
        }
        Refusal::UnknownActivity(act) => {
            put_number(sink, page, "unknown-activity ", act.0 as u128, "")
        }
        Refusal::UnknownChange(act) => {
            put_number(sink, page, "unknown-change ", act.0 as u128, "")
        }
        Refusal::UnknownPair(one, other) => {
            page.put_pair(sink, "unknown-pair ", (one.0 as u128, other.0 as u128))
        }
        Refusal::Passed(event, time) => {
            page.put_pair(sink, "passed ", (event.0 as u128, *time as u128))
        }
        Refusal::NotPassed(event) => put_number(sink, page, "not-passed ", event.0 as u128, ""),
        Refusal::Cancelled(event) => put_number(sink, page, "cancelled ", event.0 as u128, ""),
        Refusal::NotCancelled(event) => {
            put_number(sink, page, "not-cancelled ", event.0 as u128, "")
        }
        Refusal::Locked(choice) => put_choice(sink, page, "locked ", *choice),
        Refusal::NotLocked(choice) => put_choice(sink, page, "not-locked ", *choice),
        Refusal::Back(clock) => put_number(sink, page, "back ", *clock as u128, ""),
        Refusal::Cycle(ids) => put_cycle(sink, page, ids.as_slice()),
        Refusal::Full(_) => page.put_bytes(sink, b"full"),
        Refusal::OutOfMemory => unreachable!(),
    }
}

/// Prints a refusal and its line end.
fn put_refusal<K: Sink>(sink: &mut K, page: &mut Page, at: &At<Refusal>) -> Result<(), WriteFault>
    requires { IsSpelledReason at.now.why }
    ensures { Prints K.taken K.faults sink.old sink.new page.old page.new result
        (joined (decimal at.now.entry ∷ codes " refused " ∷ reason_text at.now.why ∷ line_end ∷ [])) }
{
    let Ok(()) = put_number(sink, page, "", at.entry as u128, " refused ") else {
        return Err(WriteFault);
    };
    let Ok(()) = put_reason(sink, page, &at.why) else {
        return Err(WriteFault);
    };
    page.put_bytes(sink, b"\n")
}

/// Prints a plan behind the entry that it is for.
fn put_planned<K: Sink>(sink: &mut K, page: &mut Page, plan: &Plan) -> Result<(), WriteFault>
    ensures { Prints K.taken K.faults sink.old sink.new page.old page.new result
        (joined (decimal plan.now.entry ∷ codes " " ∷ spelling_of_plan 2 plan.now ∷ [])) }
{
    let Ok(()) = put_number(sink, page, "", plan.entry as u128, " ") else {
        return Err(WriteFault);
    };
    put_plan(sink, page, plan)
}

/// Prints a plan by parts behind the entry that it is for.
fn put_solution<K: Sink>(
    sink: &mut K,
    page: &mut Page,
    plan: &PlanByParts,
) -> Result<(), WriteFault>
    ensures { Prints K.taken K.faults sink.old sink.new page.old page.new result
        (joined (decimal plan.now.entry ∷ codes " " ∷ spelling_of_solved plan.now ∷ [])) }
{
    let Ok(()) = put_number(sink, page, "", plan.entry as u128, " ") else {
        return Err(WriteFault);
    };
    put_solved(sink, page, plan)
}

/// Prints an answer and its line end, and of a plan of either kind all its lines.
#[tactic(auto, unfolding(dm_cert::specs::RunTexts::reply_text))]
fn put_reply<K: Sink>(sink: &mut K, page: &mut Page, reply: &Reply) -> Result<(), WriteFault>
    requires { IsSpelledReply reply.now }
    ensures { Prints K.taken K.faults sink.old sink.new page.old page.new result (reply_text 2 reply.now) }
{
    match reply {
        Reply::Ok(n) => put_number(sink, page, "", *n as u128, " ok\n"),
        Reply::Refused(at) => put_refusal(sink, page, at),
        Reply::Time(n, time) => {
            let numbers = [("", *n as u128), (" time ", *time as u128)];
            put_labelled(sink, page, &numbers, "\n")
        }
        Reply::Cost(n, cost) => {
            let numbers = [("", *n as u128), (" cost ", *cost)];
            put_labelled(sink, page, &numbers, "\n")
        }
        Reply::Read(n) => put_number(sink, page, "", *n as u128, " read\n"),
        Reply::Planned(plan) => put_planned(sink, page, plan),
        Reply::Solved(plan) => put_solution(sink, page, plan),
        Reply::Old(n) => put_number(sink, page, "", *n as u128, " old\n"),
        Reply::NoPlan => page.put_bytes(sink, b"noplan\n"),
        Reply::Plans => page.put_bytes(sink, b"plans\n"),
        Reply::Range(nodes) => put_number(sink, page, "range ", *nodes as u128, "\n"),
    }
}

#[tactic(auto, unfolding(dm_cert::specs::RunTexts::item_text))]
fn put_item<K: Sink>(sink: &mut K, page: &mut Page, item: &LogItem) -> Result<(), WriteFault>
    requires { IsSpelledItem item.now }
    ensures { Prints K.taken K.faults sink.old sink.new page.old page.new result (item_text 2 item.now) }
{
    match item {
        LogItem::Malformed { line } => put_number(sink, page, "", *line as u128, " malformed\n"),
        LogItem::Answered { line, said, reply } => {
            let Ok(()) = put_number(sink, page, "", *line as u128, " ") else {
                return Err(WriteFault);
            };
            let Ok(()) = put_line(sink, page, said) else {
                return Err(WriteFault);
            };
            let Ok(()) = page.put_bytes(sink, b" -> ") else {
                return Err(WriteFault);
            };
            put_reply(sink, page, reply)
        }
    }
}

/// Prints the items of a log, as they stand in a run's text of version 2, behind all that was printed through the page before. A
/// write fault comes only where a write failed.
pub fn put_items<K: Sink>(
    sink: &mut K,
    page: &mut Page,
    items: &[LogItem],
) -> Result<(), WriteFault>
    requires { All IsSpelledItem items.now }
    ensures { Prints K.taken K.faults sink.old sink.new page.old page.new result (flat_map (item_text 2) items.now) }
{
    for item in items {
        let Ok(()) = put_item(sink, page, item) else {
            return Err(WriteFault);
        };
    }
    Ok(())
}

/// Prints why a feed was read no further.
#[tactic(auto, unfolding(dm_cert::specs::RunTexts::stop_text))]
fn put_stop<K: Sink>(sink: &mut K, page: &mut Page, stop: FeedStop) -> Result<(), WriteFault>
    ensures { Prints K.taken K.faults sink.old sink.new page.old page.new result (stop_text stop) }
{
    match stop {
        FeedStop::End => page.put_bytes(sink, b"end\n"),
        FeedStop::Fault => page.put_bytes(sink, b"fault\n"),
        FeedStop::Long => page.put_bytes(sink, b"long\n"),
    }
}

fn put_log<K: Sink>(
    sink: &mut K,
    page: &mut Page,
    number: usize,
    log: &FeedLog,
) -> Result<(), WriteFault>
    requires { IsSpelledLog log.now }
    ensures { Prints K.taken K.faults sink.old sink.new page.old page.new result (log_text 2 number log.now) }
{
    let items = log.items.as_slice();
    let numbers = [("feed ", number as u128), (" ", items.len() as u128)];
    let Ok(()) = put_labelled(sink, page, &numbers, "\n") else {
        return Err(WriteFault);
    };
    let Ok(()) = put_items(sink, page, items) else {
        return Err(WriteFault);
    };
    put_stop(sink, page, log.stop)
}

/// Prints the logs of all feeds.
pub fn put_logs<K: Sink>(sink: &mut K, page: &mut Page, logs: &[FeedLog]) -> Result<(), WriteFault>
    requires { All IsSpelledLog logs.now }
    ensures { Prints K.taken K.faults sink.old sink.new page.old page.new result (logs_text 2 1 logs.now) }
{
    for (i, log) in logs.iter().enumerate() {
        let Ok(()) = put_log(sink, page, i + 1, log) else {
            return Err(WriteFault);
        };
    }
    Ok(())
}
