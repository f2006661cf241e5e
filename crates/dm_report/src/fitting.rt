//! The numbers of what is printed. Each is one that its type holds; a proof knows that where the number is read.
ghost use Rattle.std.specs.Prelude.{◌≤◌, All};
ghost use Rattle.dm_feed.specs.Parts.{Fits, largest_id, largest_value};
ghost use Rattle.dm_feed.specs.Lines.{parts_of_choice, parts_of_line, parts_of_message};
ghost use Rattle.dm_cert.specs.PlanTexts.{FitsDecision, FitsNode, FitsPlan};
ghost use Rattle.dm_cert.specs.SolvedTexts.{FitsPartNode, FitsPart, FitsSolved};
ghost use Rattle.dm_cert.specs.RunTexts.{FitsEntry, FitsItem, FitsLog, FitsNote, FitsReason, FitsReply};

use dm_base::{ActId, EventId};
use dm_cert::{FeedLog, LogItem, Note, Reply};
use dm_feed::Line;
use dm_parts::{Part, PartNode, PlanByParts};
use dm_rows::{Choice, Decision, Entry, Message, Refusal};
use dm_times::Times;
use dm_tree::{Node, Plan};

fn event_fits(event: &EventId)
    ensures { event.now.0 ≤ largest_id }
{
    let _id = event.0;
}

fn activity_fits(act: &ActId)
    ensures { act.now.0 ≤ largest_id }
{
    let _id = act.0;
}

fn value_fits(value: &u64)
    ensures { value.now ≤ largest_value }
{
    let _value = *value;
}

#[tactic(auto, using(crate::proofs::Fits::all_one, crate::proofs::Fits::all_more))]
fn decision_fits(decision: &Decision)
    ensures { FitsDecision decision.now }
{
    match decision {
        Decision::Keep(act) | Decision::Drop(act) => activity_fits(act),
        Decision::First(first, second) => {
            event_fits(first);
            event_fits(second);
        }
    }
}

#[tactic(auto, using(crate::proofs::Fits::all_one, crate::proofs::Fits::all_more))]
fn choice_fits(choice: &Choice)
    ensures { All Fits (parts_of_choice choice.now) }
{
    match choice {
        Choice::Change(act) => activity_fits(act),
        Choice::Pair(small, large) => {
            event_fits(small);
            event_fits(large);
        }
    }
}

fn decisions_fit(decisions: &[Decision])
    ensures { All FitsDecision decisions.now }
{
    for decision in decisions {
        decision_fits(decision);
    }
}

#[tactic(auto, using(crate::proofs::Fits::all_one, crate::proofs::Fits::all_more, crate::proofs::Fits::adopted))]
fn message_fits(message: &Message)
    ensures { All Fits (parts_of_message message.now) }
{
    match message {
        Message::DelayEvent(event, value) | Message::Pass(event, value) => {
            event_fits(event);
            value_fits(value);
        }
        Message::DelayActivity(act, value) => {
            activity_fits(act);
            value_fits(value);
        }
        Message::Recall(event) | Message::Cancel(event) | Message::Restore(event) => {
            event_fits(event)
        }
        Message::Lock(choice) | Message::Unlock(choice) => choice_fits(choice),
        Message::Keep(act) | Message::Drop(act) => activity_fits(act),
        Message::First(first, second) => {
            event_fits(first);
            event_fits(second);
        }
        Message::Adopt(decisions) => decisions_fit(decisions.as_slice()),
        Message::Now(value) => value_fits(value),
    }
}

fn entry_fits(entry: &Entry)
    ensures { FitsEntry entry.now }
{
    let _feed = entry.feed;
    let _line = entry.line;
    message_fits(&entry.message);
}

/// The numbers of entries.
pub fn entries_fit(entries: &[Entry])
    ensures { All FitsEntry entries.now }
{
    for entry in entries {
        entry_fits(entry);
    }
}

#[tactic(auto, using(crate::proofs::Fits::all_one, crate::proofs::Fits::all_more))]
fn line_fits(line: &Line)
    ensures { All Fits (parts_of_line line.now) }
{
    match line {
        Line::Say(message) => message_fits(message),
        Line::Time(event) => event_fits(event),
        Line::Plan(value) | Line::Solve(value) => value_fits(value),
        Line::CostNow | Line::Adopt | Line::Carry | Line::Read => {}
    }
}

fn ids_fit(ids: &[ActId])
    ensures { All (λ a. a.0 ≤ largest_id) ids.now }
{
    for id in ids {
        activity_fits(id);
    }
}

fn reason_fits(reason: &Refusal)
    ensures { FitsReason reason.now }
{
    match reason {
        Refusal::Range(value) | Refusal::Back(value) => value_fits(value),
        Refusal::UnknownEvent(event)
        | Refusal::NotPassed(event)
        | Refusal::Cancelled(event)
        | Refusal::NotCancelled(event) => event_fits(event),
        Refusal::Locked(choice) | Refusal::NotLocked(choice) => choice_fits(choice),
        Refusal::UnknownActivity(act) | Refusal::UnknownChange(act) => activity_fits(act),
        Refusal::UnknownPair(first, second) => {
            event_fits(first);
            event_fits(second);
        }
        Refusal::Passed(event, time) => {
            event_fits(event);
            value_fits(time);
        }
        Refusal::Cycle(ids) => ids_fit(ids.as_slice()),
        Refusal::Full(entries) => {
            let _entries = *entries;
        }
        Refusal::OutOfMemory => {}
    }
}

fn node_fits(node: &Node)
    ensures { FitsNode node.now }
{
    match node {
        Node::Inner(Choice::Change(act)) => activity_fits(act),
        Node::Inner(Choice::Pair(small, large)) => {
            event_fits(small);
            event_fits(large);
        }
        Node::Bound(cost) | Node::Open(cost) => {
            let _cost = *cost;
        }
        Node::Cycle | Node::Hole => {}
    }
}

fn nodes_fit(nodes: &[Node])
    ensures { All FitsNode nodes.now }
{
    for node in nodes {
        node_fits(node);
    }
}

fn plan_fits(plan: &Plan)
    ensures { FitsPlan plan.now }
{
    let _cost = plan.cost;
    let _bound = plan.bound;
    decisions_fit(plan.choices.as_slice());
    nodes_fit(plan.tree.as_slice());
}

fn arrivals_fit(ids: &[EventId])
    ensures { All (λ e. e.0 ≤ largest_id) ids.now }
{
    for id in ids {
        event_fits(id);
    }
}

fn part_node_fits(node: &PartNode)
    ensures { FitsPartNode node.now }
{
    match node {
        PartNode::Inner(Choice::Change(act)) => activity_fits(act),
        PartNode::Inner(Choice::Pair(small, large)) => {
            event_fits(small);
            event_fits(large);
        }
        PartNode::Leaf(cost) => {
            let _cost = *cost;
        }
        PartNode::Cycle => {}
    }
}

fn part_nodes_fit(nodes: &[PartNode])
    ensures { All FitsPartNode nodes.now }
{
    for node in nodes {
        part_node_fits(node);
    }
}

fn part_fits(part: &Part)
    ensures { FitsPart part.now }
{
    let _bound = part.bound;
    arrivals_fit(part.share.arrivals.as_slice());
    ids_fit(part.share.changes.as_slice());
    part_nodes_fit(part.tree.as_slice());
}

fn parts_fit(parts: &[Part])
    ensures { All FitsPart parts.now }
{
    for part in parts {
        part_fits(part);
    }
}

fn solved_fits(plan: &PlanByParts)
    ensures { FitsSolved plan.now }
{
    let _cost = plan.cost;
    let _bound = plan.bound;
    let _rest = plan.rest;
    decisions_fit(plan.choices.as_slice());
    parts_fit(plan.parts.as_slice());
}

fn reply_fits(reply: &Reply)
    ensures { FitsReply reply.now }
{
    match reply {
        Reply::Ok(entry) | Reply::Read(entry) | Reply::Old(entry) => {
            let _entry = *entry;
        }
        Reply::Refused(at) => {
            let _entry = at.entry;
            reason_fits(&at.why);
        }
        Reply::Time(entry, time) => {
            let _entry = *entry;
            value_fits(time);
        }
        Reply::Cost(entry, cost) => {
            let _entry = *entry;
            let _cost = *cost;
        }
        Reply::Planned(plan) => {
            let _entry = plan.entry;
            plan_fits(plan);
        }
        Reply::Solved(plan) => {
            let _entry = plan.entry;
            solved_fits(plan);
        }
        Reply::Range(value) => value_fits(value),
        Reply::NoPlan | Reply::Plans => {}
    }
}

fn item_fits(item: &LogItem)
    ensures { FitsItem item.now }
{
    match item {
        LogItem::Malformed { line } => {
            let _line = *line;
        }
        LogItem::Answered { line, said, reply } => {
            let _line = *line;
            line_fits(said);
            reply_fits(reply);
        }
    }
}

fn log_fits(log: &FeedLog)
    ensures { FitsLog log.now }
{
    items_fit(log.items.as_slice());
}

/// The numbers of a log's items: each is one that its type holds. It only reads them, and tells a proof that they are so.
pub fn items_fit(items: &[LogItem])
    ensures { All FitsItem items.now }
{
    for item in items {
        item_fits(item);
    }
}

/// The numbers of logs.
pub fn logs_fit(logs: &[FeedLog])
    ensures { All FitsLog logs.now }
{
    for log in logs {
        log_fits(log);
    }
}

fn note_fits(note: &Note)
    ensures { FitsNote note.now }
{
    let _board = note.board;
    let _stop = note.stop;
    let _entry = note.entry;
}

/// The numbers of notes.
pub fn notes_fit(notes: &[Note])
    ensures { All FitsNote notes.now }
{
    for note in notes {
        note_fits(note);
    }
}

/// The times, each below 2^64 seconds.
#[tactic(auto, using(crate::proofs::Fits::early_fit))]
pub fn times_fit(times: &Times)
    ensures { All (λ x. x ≤ largest_value) times.now }
{
    times.is_early();
}
