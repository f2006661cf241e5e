//! The claims that the answers of a text make about rows, gathered before they are judged.
ghost use Rattle.std.specs.Prelude.{◌≡◌, All, IfOk, IfSome};
ghost use Rattle.dm_cert.specs.PlanTexts.{IsVersion};
ghost use Rattle.dm_check_answers.specs.Claims.{IsSpelledAnswer};
ghost use Rattle.dm_check_answers.specs.Judging.{IsRunSetting, value_of};
ghost use Rattle.dm_check.specs.Inside.Gathering.{IsSpelled};

use dm_cert::LogItem;
use dm_check_answers::{Answered, Journal, Replay};
use dm_records::{LogLine, item_line};
use dm_text::Lines;
use std::alloc::{AllocError, Global};

/// The rows before the first entry. Where there are several logs, what their answers claim of rows is judged first, all claims in
/// the order of their entries: so the journal is gone over once for all logs, and not once for each.
pub(crate) fn replay_for<'j>(
    lines: &Lines,
    journal: Journal<'j>,
    feeds: usize,
) -> Result<Replay<'j>, AllocError>
    requires { IsRunSetting journal.setting }
    ensures { IfOk result (λ r. r.journal ≡ value_of journal.entry) }
{
    let mut replay = match Replay::new(journal) {
        Ok(replay) => replay,
        Err(AllocError) => return Err(AllocError),
    };
    if feeds < 2 {
        return Ok(replay);
    }
    let claims = match claims_in(journal.setting.alloc, journal.setting.version, lines.left()) {
        Ok(claims) => claims,
        Err(AllocError) => return Err(AllocError),
    };
    match replay.learn(claims) {
        Ok(()) => Ok(replay),
        Err(AllocError) => Err(AllocError),
    }
}

/// What the lines of a text claim of rows, in order, where they are answers. Nothing is promised of how many are found.
fn claims_in(alloc: Global, version: u32, text: &[u8]) -> Result<Vec<Answered>, AllocError>
    requires { IsVersion version }
    ensures { IfOk result (λ claims. All IsSpelledAnswer claims.items) }
{
    let mut claims = Vec::new(alloc);
    for line in text.split(|byte| *byte == b'\n') {
        claims = match with_claim(alloc, version, line, claims) {
            Ok(more) => more,
            Err(AllocError) => return Err(AllocError),
        };
    }
    Ok(claims)
}

/// Claims with that of a line, where it is an answer that claims something of rows.
fn with_claim(
    alloc: Global,
    version: u32,
    line: &[u8],
    claims: Vec<Answered>,
) -> Result<Vec<Answered>, AllocError>
    requires version { IsVersion version }
    requires claims { All IsSpelledAnswer claims.items }
    ensures { IfOk result (λ more. All IsSpelledAnswer more.items) }
{
    match claim_in(alloc, version, line) {
        Ok(Some(claim)) => pushed(claims, claim),
        Ok(None) => Ok(claims),
        Err(AllocError) => Err(AllocError),
    }
}

/// What a line claims of rows, where it is an answer.
#[tactic(auto, using(crate::proofs::Gathered::spelled_item))]
fn claim_in(alloc: Global, version: u32, line: &[u8]) -> Result<Option<Answered>, AllocError>
    requires { IsVersion version }
    ensures { IfOk result (λ found. IfSome found IsSpelledAnswer) }
{
    match item_line(alloc, version, line) {
        Ok(Some(item)) => Ok(claimed(item)),
        Ok(None) => Ok(None),
        Err(AllocError) => Err(AllocError),
    }
}

/// The first line of an item, where it is an answer that claims something of rows.
fn claimed(item: LogLine) -> Option<Answered>
    requires { IsSpelled item }
    ensures { IfSome result IsSpelledAnswer }
{
    match item {
        LogLine::Item(LogItem::Answered { said, reply, .. }) => claiming(Answered { said, reply }),
        _ => None,
    }
}

/// The answer, where it claims something of rows.
fn claiming(answered: Answered) -> Option<Answered>
    requires { IsSpelledAnswer answered }
    ensures { IfSome result IsSpelledAnswer }
{
    match answered.claims_at() {
        Some(_number) => Some(answered),
        None => None,
    }
}

/// Claims with one more.
pub(crate) fn pushed(claims: Vec<Answered>, claim: Answered) -> Result<Vec<Answered>, AllocError>
    requires claims { All IsSpelledAnswer claims.items }
    requires said { IsSpelledAnswer claim }
    ensures { IfOk result (λ more. All IsSpelledAnswer more.items) }
{
    let mut claims = claims;
    let Ok(()) = claims.push(claim) else {
        return Err(AllocError);
    };
    Ok(claims)
}
