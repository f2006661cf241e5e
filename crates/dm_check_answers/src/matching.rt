//! Whether an entry is what an answer says that it is.
ghost use Rattle.std.specs.Prelude.{◌≡◌, true};
ghost use Rattle.dm_rows.specs.declared.messages.Message.TheVariants.{Adopt};
ghost use Rattle.dm_cert.specs.Answers.{IsEntry, IsAdopted};
ghost use Rattle.dm_check_rows.specs.Claims.{Tells};
ghost use Rattle.dm_check_answers.specs.Judging.{IsEntryAt};

use crate::claims::Answered;
use dm_cert::Reply;
use dm_check_rows::is_same_refusal;
use dm_feed::Line;
use dm_rows::{Entry, Message, are_same_decisions};
use dm_tree::Chosen;

pub(crate) fn is_claim(claim: &Answered, said: &Line, reply: &Reply) -> bool
    ensures { result ≡ true → claim.now ≡ record { said = said.now; reply = reply.now } }
{
    is_claim_of(&claim.said, said) && is_claimed(&claim.reply, reply)
}

/// Whether two lines are one, where they say a message or ask for a time or the cost; no other is compared.
fn is_claim_of(one: &Line, other: &Line) -> bool
    ensures { result ≡ true → one.now ≡ other.now }
{
    match (one, other) {
        (Line::Say(m), Line::Say(n)) => m.is_same(n),
        (Line::Time(e), Line::Time(f)) => e.0 == f.0,
        (Line::CostNow, Line::CostNow) => true,
        _ => false,
    }
}

/// Whether two answers are one, where they tell a refusal, a time or a cost; no other is compared.
fn is_claimed(one: &Reply, other: &Reply) -> bool
    ensures { result ≡ true → one.now ≡ other.now }
{
    match (one, other) {
        (Reply::Refused(at), Reply::Refused(by)) => {
            at.entry == by.entry && is_same_refusal(&at.why, &by.why)
        }
        (Reply::Time(n, t), Reply::Time(m, u)) => *n == *m && *t == *u,
        (Reply::Cost(n, c), Reply::Cost(m, d)) => *n == *m && *c == *d,
        _ => false,
    }
}

/// The entry of a number, from 1.
fn entry_at(entries: &[Entry], number: u32) -> Option<&Entry>
    ensures { IsEntryAt entries.now number result }
{
    if number == 0 {
        return None;
    }
    entries.get(number as usize - 1)
}

pub(crate) fn is_entered(
    entries: &[Entry],
    number: u32,
    feed: u32,
    line: u32,
    message: &Message,
) -> bool
    ensures { Tells (IsEntry entries.now number (record { feed = feed; line = line; message = message.now })) result }
{
    match entry_at(entries, number) {
        Some(entry) => {
            entry.feed == feed && entry.line == line && entry.message.is_same(message)
        }
        None => false,
    }
}

/// Whether the plan's choices are the entry of this number, by this feed and line, behind the entries that it is for.
pub(crate) fn is_adopted(
    entries: &[Entry],
    number: u32,
    feed: u32,
    line: u32,
    plan: &Chosen,
) -> bool
    ensures { Tells (IsAdopted entries.now feed line number plan.now) result }
{
    if number as u64 != plan.entry as u64 + 1 {
        return false;
    }
    match entry_at(entries, number) {
        Some(entry) => { entry.feed == feed && entry.line == line && adopts(&entry.message, plan) }
        None => false,
    }
}

/// Whether the message adopts the plan's choices.
fn adopts(message: &Message, plan: &Chosen) -> bool
    ensures { Tells (message.now ≡ Adopt plan.now.choices) result }
{
    match message {
        Message::Adopt(decisions) => are_same_decisions(
            decisions.as_slice(),
            plan.choices.as_slice(),
        ),
        _ => false,
    }
}
