//! Claims that are judged in the order of their entries, before the answers are.
ghost use Rattle.std.specs.Prelude.{◌≡◌, replicate, None, All, IfOk};
ghost use Rattle.dm_check_answers.specs.Claims.{IsKnown, IsSpelledAnswer};

use crate::claims::Answered;
use crate::known::Known;
use crate::replay::Replay;
use std::alloc::{AllocError, Global};

/// The place of a claim, with the number of its entry.
#[derive(Clone, Copy)]
struct Turn {
    number: u32,
    place: usize,
}

impl<'a> Replay<'a> {
    /// Judges what answers claim in the order of their entries, so that one walk over the journal serves all. The answers that
    /// claim so are told by these verdicts, where they come in the order of the claims. `Err` is want of memory alone.
    pub fn learn(&mut self, claims: Vec<Answered>) -> Result<(), AllocError>
        requires { All IsSpelledAnswer claims.items }
        ensures same { self.new.journal ≡ self.old.journal }
    {
        let alloc = self.journal.setting.alloc;
        let turns = turns_of(alloc, &claims)?;
        let verdicts = no_verdicts(alloc, claims.len())?;
        let mut known = Known {
            claims,
            verdicts,
            next: 0,
        };
        match judge_all(self, &mut known, &turns) {
            Ok(()) => (),
            Err(AllocError) => return Err(AllocError),
        }
        self.known = known;
        Ok(())
    }
}

fn no_verdicts(alloc: Global, claims: usize) -> Result<Vec<Option<bool>>, AllocError>
    ensures { IfOk result (λ verdicts. verdicts.items ≡ replicate claims None) }
{
    Ok(vec![in alloc; None; claims]?)
}

/// The places of claims in the order of their entries.
fn turns_of(alloc: Global, claims: &[Answered]) -> Result<Vec<Turn>, AllocError> {
    let mut turns = Vec::with_capacity(alloc, claims.len())?;
    for place in 0..claims.len() {
        if let Some(number) = claims[place].claims_at() {
            turns.push(Turn { number, place })?;
        }
    }
    turns.sort_by_key(|turn| turn.number)?;
    Ok(turns)
}

/// Judges the claims whose turns these are.
fn judge_all(replay: &mut Replay<'_>, known: &mut Known, turns: &[Turn]) -> Result<(), AllocError>
    requires { IsKnown replay.old.journal.setting replay.old.journal.history known.old }
    ensures known { IsKnown replay.old.journal.setting replay.old.journal.history known.new }
    ensures same { replay.new.journal ≡ replay.old.journal }
{
    for turn in turns {
        match judge_at(replay, known, turn.place) {
            Ok(()) => (),
            Err(AllocError) => return Err(AllocError),
        }
    }
    Ok(())
}

/// Judges the claim at a place.
fn judge_at(replay: &mut Replay<'_>, known: &mut Known, place: usize) -> Result<(), AllocError>
    requires { IsKnown replay.old.journal.setting replay.old.journal.history known.old }
    ensures known { IsKnown replay.old.journal.setting replay.old.journal.history known.new }
    ensures same { replay.new.journal ≡ replay.old.journal }
{
    let Some(claim) = known.claims.get(place) else {
        return Ok(());
    };
    let is_true = match replay.is_true_claim(&claim.said, &claim.reply) {
        Ok(is_true) => is_true,
        Err(AllocError) => return Err(AllocError),
    };
    if place < known.verdicts.len() {
        known.verdicts[place] = Some(is_true);
    }
    Ok(())
}
