//! What a log item's line answers.
ghost use Rattle.std.specs.Prelude.{◌≡◌, ◌≤◌, IfOk, IfSome, MatchOption, SomeIff};
ghost use Rattle.std.specs.Option.{option_map};
ghost use Rattle.dm_feed.specs.Parts.{largest_value};
ghost use Rattle.dm_records.specs.declared.fields.Shape.{Shape};
ghost use Rattle.dm_records.specs.declared.kinds.TheConstants.{TOLD, FREE};
ghost use Rattle.dm_records.specs.Inside.Fields.{row_in, whole, NumbersFit};
ghost use Rattle.dm_records.specs.Inside.Kinds.{told_text, told_shape, told_reply, free_text, free_shape, free_reply, choice_with, refused_at};
ghost use Rattle.dm_records.specs.Inside.Answers.{IsIds, IsNoIds, TellsPlan, TellsSolved, TellsCycle, ReadsTold, ReadsAnswer, saying, AnswerFits, HoldsReply};
ghost use Rattle.dm_cert.specs.PlanTexts.{IsVersion};
ghost use Rattle.dm_records.specs.Readings.{IsRead};

use crate::fields::{LARGEST_ID, LARGEST_VALUE, NO_ID, number_behind};
use crate::kinds::{FreeKind, ToldKind, free_row, told_row};
use dm_base::limits::ENTRIES;
use dm_base::{ActId, EventId, Items};
use dm_cert::{Heading, Reply, SolvedHeading, heading_in, solved_heading_in};
use dm_rows::{At, Choice, Refusal};
use dm_text::behind;
use std::alloc::{AllocError, Global};

/// What is answered at an entry or at none: a kind with the numbers that the line says, a cycle, or the first line of a plan of
/// either kind.
#[derive(Drop)]
pub(crate) enum AnswerLine {
    Told(u32, ToldKind, u128, u128),
    Free(FreeKind, u128, u128),
    Cycle(u32, Items<ActId>),
    Plan(u32, Heading),
    Solved(u32, SolvedHeading),
}

/// The choice with these ids, of which the second may be none.
pub(crate) fn choice_with(one: u128, two: u128) -> Choice
    requires { NumbersFit Shape.Choice one two }
    ensures { result ≡ choice_with one two }
{
    if two == NO_ID {
        Choice::Change(ActId(one as u32))
    } else {
        Choice::Pair(EventId(one as u32), EventId(two as u32))
    }
}

/// The number, unless it is too large for a value.
fn value_of(number: u128) -> Option<u64>
    ensures { SomeIff result (number ≤ largest_value) number }
{
    if number > LARGEST_VALUE {
        return None;
    }
    Some(number as u64)
}

fn refused(entry: u32, why: Refusal) -> Reply
    ensures { result ≡ refused_at entry why }
{
    Reply::Refused(At { entry, why })
}

/// The reply of this kind with these numbers, at an entry, unless a value in it is too large.
pub(crate) fn told_reply(entry: u32, kind: ToldKind, one: u128, two: u128) -> Option<Reply>
    requires { NumbersFit (told_shape kind) one two }
    ensures { HoldsReply (told_reply entry kind one two) result }
{
    let why = match kind {
        ToldKind::Ok => return Some(Reply::Ok(entry)),
        ToldKind::Read => return Some(Reply::Read(entry)),
        ToldKind::Old => return Some(Reply::Old(entry)),
        ToldKind::Time => return Some(Reply::Time(entry, value_of(one)?)),
        ToldKind::Cost => return Some(Reply::Cost(entry, one)),
        ToldKind::Range => Refusal::Range(value_of(one)?),
        ToldKind::UnknownEvent => Refusal::UnknownEvent(EventId(one as u32)),
        ToldKind::UnknownActivity => Refusal::UnknownActivity(ActId(one as u32)),
        ToldKind::UnknownChange => Refusal::UnknownChange(ActId(one as u32)),
        ToldKind::UnknownPair => Refusal::UnknownPair(EventId(one as u32), EventId(two as u32)),
        ToldKind::Passed => Refusal::Passed(EventId(one as u32), value_of(two)?),
        ToldKind::NotPassed => Refusal::NotPassed(EventId(one as u32)),
        ToldKind::Cancelled => Refusal::Cancelled(EventId(one as u32)),
        ToldKind::NotCancelled => Refusal::NotCancelled(EventId(one as u32)),
        ToldKind::Locked => Refusal::Locked(choice_with(one, two)),
        ToldKind::NotLocked => Refusal::NotLocked(choice_with(one, two)),
        ToldKind::Back => Refusal::Back(value_of(one)?),
        ToldKind::Full => Refusal::Full(ENTRIES),
    };
    Some(refused(entry, why))
}

/// The reply of this kind with this number, at no entry, unless it is too large.
pub(crate) fn free_reply(kind: FreeKind, one: u128, two: u128) -> Option<Reply>
    requires { NumbersFit (free_shape kind) one two }
    ensures { HoldsReply (free_reply kind one two) result }
{
    match kind {
        FreeKind::NoPlan => Some(Reply::NoPlan),
        FreeKind::Plans => Some(Reply::Plans),
        FreeKind::Range => Some(Reply::Range(value_of(one)?)),
    }
}

/// The whole line as a kind of answer at no entry, with its numbers.
fn free_line(line: &[u8]) -> Option<(FreeKind, u128, u128)>
    ensures reads { result ≡ whole (row_in free_text free_shape FREE line.now) }
    ensures fits { IfSome result (λ p. NumbersFit (free_shape p.0) p.1 p.2) }
{
    match free_row(line) {
        Some((row, [])) => Some(row),
        _ => None,
    }
}

/// The whole line behind an entry's number as a kind of answer, with its numbers.
fn told_line(line: &[u8]) -> Option<(ToldKind, u128, u128)>
    ensures reads { result ≡ whole (row_in told_text told_shape TOLD line.now) }
    ensures fits { IfSome result (λ p. NumbersFit (told_shape p.0) p.1 p.2) }
{
    match told_row(line) {
        Some((row, [])) => Some(row),
        _ => None,
    }
}

/// The ids that the bytes are, each with a space in front, or None where they are none.
fn ids_of(alloc: Global, bytes: &[u8]) -> Result<Option<Vec<ActId>>, AllocError>
    ensures { IfOk result (λ found. MatchOption found (IsNoIds bytes.now) (λ ids. IsIds ids.items bytes.now)) }
{
    let mut ids = Vec::new(alloc);
    let mut rest = bytes;
    while let Some((id, behind)) = number_behind(rest, " ", LARGEST_ID) {
        ids.push(ActId(id as u32))?;
        rest = behind;
    }
    if rest.is_empty() {
        Ok(Some(ids))
    } else {
        Ok(None)
    }
}

/// The line behind an entry's number as the first line of a plan.
fn plan_line(version: u32, line: &[u8]) -> Option<Heading>
    ensures { IsRead (TellsPlan version) (λ h. h) line.now result }
{
    let Some(rest) = behind(line, " ") else {
        return None;
    };
    heading_in(version, rest)
}

/// The line behind an entry's number as the first line of a plan by parts, which version 2 alone has.
fn solved_line(version: u32, line: &[u8]) -> Option<SolvedHeading>
    requires { IsVersion version }
    ensures { IsRead (TellsSolved version) (λ h. h) line.now result }
{
    if version == 1 {
        return None;
    }
    let Some(rest) = behind(line, " ") else {
        return None;
    };
    solved_heading_in(rest)
}

/// The line behind an entry's number as a cycle.
fn cycle_line(alloc: Global, line: &[u8]) -> Result<Option<Items<ActId>>, AllocError>
    ensures { IfOk result (IsRead TellsCycle (λ ids. ids) line.now) }
{
    let Some(rest) = behind(line, " refused cycle") else {
        return Ok(None);
    };
    let Ok(found) = ids_of(alloc, rest) else {
        return Err(AllocError);
    };
    let Some(ids) = found else {
        return Ok(None);
    };
    if ids.len() == 0 {
        return Ok(None);
    }
    Ok(Some(Items::from_vec(ids)))
}

/// What is told behind an entry's number.
fn answer_at(
    alloc: Global,
    version: u32,
    entry: u32,
    line: &[u8],
) -> Result<Option<AnswerLine>, AllocError>
    requires { IsVersion version }
    ensures reads { IfOk result (λ read. ReadsTold version entry line.now (option_map saying read)) }
    ensures fits { IfOk result (λ read. IfSome read AnswerFits) }
{
    if let Some((kind, one, two)) = told_line(line) {
        return Ok(Some(AnswerLine::Told(entry, kind, one, two)));
    }
    if let Some(heading) = plan_line(version, line) {
        return Ok(Some(AnswerLine::Plan(entry, heading)));
    }
    if let Some(heading) = solved_line(version, line) {
        return Ok(Some(AnswerLine::Solved(entry, heading)));
    }
    match cycle_line(alloc, line) {
        Ok(Some(ids)) => Ok(Some(AnswerLine::Cycle(entry, ids))),
        Ok(None) => Ok(None),
        Err(AllocError) => Err(AllocError),
    }
}

/// The answer in a log item's first line.
pub(crate) fn answer_line(
    alloc: Global,
    version: u32,
    line: &[u8],
) -> Result<Option<AnswerLine>, AllocError>
    requires { IsVersion version }
    ensures reads { IfOk result (λ read. ReadsAnswer version line.now (option_map saying read)) }
    ensures fits { IfOk result (λ read. IfSome read AnswerFits) }
{
    if let Some((kind, one, two)) = free_line(line) {
        return Ok(Some(AnswerLine::Free(kind, one, two)));
    }
    let Some((entry, rest)) = number_behind(line, "", LARGEST_ID) else {
        return Ok(None);
    };
    answer_at(alloc, version, entry as u32, rest)
}
