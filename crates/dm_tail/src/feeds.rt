//! Feeds that grow, one after another.
ghost use Rattle.std.specs.Prelude.{◌≡◌, ◌<◌, ◌^◌, All, map, vec_len, IfOk};
ghost use Rattle.dm_desk.specs.Answered.{HasSeenLegal};
ghost use Rattle.dm_desk.specs.Planning.{PlansUnder};
ghost use Rattle.dm_tail.specs.Feeds.{AllAreTrue, AnswersAll, IsReady};
ghost use Rattle.dm_tail.specs.Sources.{source_in};

use crate::growing::Growing;
use crate::watched::Watched;
use dm_desk::{Desk, Search};
use dm_parts::AnyPlan;
use dm_rows::Snapshot;
use std::alloc::{AllocError, Global};

/// Reads the next bytes of each feed and answers its lines that end, up to so many due ones of each, in the order of the feeds.
/// `Err` is want of memory alone.
pub fn answer_feeds<
    T: Growing + Drop,
    D: Desk,
    P: Fn(&Snapshot, Search) -> Result<AnyPlan, AllocError>,
>(
    alloc: Global,
    desk: &mut D,
    planner: &P,
    feeds: Vec<Watched<T>>,
    batch: u32,
    buffer: &mut [u8],
) -> Result<Vec<Watched<T>>, AllocError>
    requires legal { HasSeenLegal (D.value desk.old) }
    requires plans { PlansUnder (P.pre planner.now) (P.post planner.now) (D.value desk.old).setting }
    requires are_true { AllAreTrue (D.value desk.old) feeds.items }
    requires ready { All IsReady feeds.items }
    requires few { vec_len feeds < 2 ^ 32 }
    ensures answers { IfOk result (λ now. AnswersAll T.given batch (D.value desk.old) (D.value desk.new) feeds.items now.items) }
    ensures sources { IfOk result (λ now. map (source_in T.source) now.items ≡ map (source_in T.source) feeds.items) }
{
    let mut answered = Vec::with_capacity(alloc, feeds.len())?;
    for mut watched in feeds {
        let number = (answered.len() + 1) as u32;
        watched.answer(desk, planner, number, batch, buffer)?;
        answered.push(watched)?;
    }
    Ok(answered)
}
