//! What the answers of logs in memory claim of rows, found before they are judged.
ghost use Rattle.std.specs.Prelude.{◌≡◌, All, IfOk, IfSome};
ghost use Rattle.dm_cert.specs.RunTexts.{IsSpelledItem, IsSpelledLog};
ghost use Rattle.dm_check_answers.specs.Claims.{IsSpelledAnswer};
ghost use Rattle.dm_check_answers.specs.Judging.{IsRunSetting, value_of};

use crate::gathering::pushed;
use dm_cert::{FeedLog, LogItem};
use dm_check_answers::{Answered, Journal, Replay};
use std::alloc::{AllocError, Global};

/// The rows before the first entry. Where there are several logs, what their answers claim of rows is judged first, all claims in
/// the order of their entries.
pub(crate) fn replay_over<'j>(
    journal: Journal<'j>,
    logs: &[FeedLog],
) -> Result<Replay<'j>, AllocError>
    requires setting { IsRunSetting journal.setting }
    requires spelled { All IsSpelledLog logs.now }
    ensures { IfOk result (λ r. r.journal ≡ value_of journal.entry) }
{
    let mut replay = match Replay::new(journal) {
        Ok(replay) => replay,
        Err(AllocError) => return Err(AllocError),
    };
    if logs.len() < 2 {
        return Ok(replay);
    }
    let claims = match claims_of(journal.setting.alloc, logs) {
        Ok(claims) => claims,
        Err(AllocError) => return Err(AllocError),
    };
    match replay.learn(claims) {
        Ok(()) => Ok(replay),
        Err(AllocError) => Err(AllocError),
    }
}

/// What the answers of logs claim of rows, in order.
fn claims_of(alloc: Global, logs: &[FeedLog]) -> Result<Vec<Answered>, AllocError>
    requires { All IsSpelledLog logs.now }
    ensures { IfOk result (λ claims. All IsSpelledAnswer claims.items) }
{
    let mut claims = Vec::new(alloc);
    for log in logs {
        claims = match with_claims(alloc, log, claims) {
            Ok(more) => more,
            Err(AllocError) => return Err(AllocError),
        };
    }
    Ok(claims)
}

fn with_claims(
    alloc: Global,
    log: &FeedLog,
    claims: Vec<Answered>,
) -> Result<Vec<Answered>, AllocError>
    requires spelled { IsSpelledLog log.now }
    requires claims { All IsSpelledAnswer claims.items }
    ensures { IfOk result (λ more. All IsSpelledAnswer more.items) }
{
    let mut claims = claims;
    for item in log.items.as_slice() {
        claims = match with_claim(alloc, item, claims) {
            Ok(more) => more,
            Err(AllocError) => return Err(AllocError),
        };
    }
    Ok(claims)
}

/// Claims with that of an item, where it is an answer that claims something of rows.
fn with_claim(
    alloc: Global,
    item: &LogItem,
    claims: Vec<Answered>,
) -> Result<Vec<Answered>, AllocError>
    requires spelled { IsSpelledItem item.now }
    requires claims { All IsSpelledAnswer claims.items }
    ensures { IfOk result (λ more. All IsSpelledAnswer more.items) }
{
    match claim_in(alloc, item) {
        Ok(Some(claim)) => pushed(claims, claim),
        Ok(None) => Ok(claims),
        Err(AllocError) => Err(AllocError),
    }
}

/// What an item claims of rows.
fn claim_in(alloc: Global, item: &LogItem) -> Result<Option<Answered>, AllocError>
    requires { IsSpelledItem item.now }
    ensures { IfOk result (λ found. IfSome found IsSpelledAnswer) }
{
    match item {
        LogItem::Malformed { line: _ } => Ok(None),
        LogItem::Answered {
            line: _,
            said,
            reply,
        } => Answered::copied(alloc, said, reply),
    }
}
