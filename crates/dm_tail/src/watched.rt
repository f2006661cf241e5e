//! A feed that grows, with its log.
ghost use Rattle.std.specs.Prelude.{◌≡◌, ◌<◌, length, OnOk, IsTrue, ◌↔◌};
ghost use Rattle.dm_desk.specs.Answered.{HasSeenLegal, AreTrueOf};
ghost use Rattle.dm_desk.specs.Planning.{PlansUnder};

use crate::growing::Growing;
use crate::tail::Tail;
use dm_cert::LogItem;
use dm_desk::{Desk, Search, answer_lines};
use dm_parts::AnyPlan;
use dm_rows::Snapshot;
use std::alloc::AllocError;

/// A feed that grows, and what it was answered.
#[derive(Drop)]
pub struct Watched<T: Growing + Drop> {
    pub tail: Tail<T>,

    /// How many of its lines were passed.
    pub lines: u32,

    pub log: Vec<LogItem>,

    /// How many items of the log were shown.
    pub shown: usize,
}

impl<T: Growing + Drop> Watched<T> {
    ghost use Rattle.dm_tail.specs.Watching.{Answers, IsShort, KnowsLines};

    /// Whether items of the log were not yet shown.
    pub fn has_new(&self) -> bool
        ensures { IsTrue result ↔ self.now.shown < length self.now.log.items }
    {
        self.shown < self.log.len()
    }

    /// Reads the next bytes of the feed, which has this number, and answers its lines that end, up to so many due ones. `Err` is
    /// want of memory alone, and leaves desk and feed at any point.
    pub fn answer<D: Desk, P: Fn(&Snapshot, Search) -> Result<AnyPlan, AllocError>>(
        &mut self,
        desk: &mut D,
        planner: &P,
        number: u32,
        batch: u32,
        buffer: &mut [u8],
    ) -> Result<(), AllocError>
        requires legal { HasSeenLegal (D.value desk.old) }
        requires plans { PlansUnder (P.pre planner.now) (P.post planner.now) (D.value desk.old).setting }
        requires are_true { AreTrueOf (D.value desk.old) number self.old.log.items }
        requires short { IsShort self.old }
        requires lines { KnowsLines self.old.tail }
        ensures answers { OnOk result (Answers T.given batch (D.value desk.old) (D.value desk.new) number self.old self.new) }
        ensures short { OnOk result (IsShort self.new) }
        ensures lines { OnOk result (KnowsLines self.new.tail) }
        ensures source { T.source self.new.tail.feed ≡ T.source self.old.tail.feed }
    {
        self.tail.look(buffer)?;
        self.answer_pending(desk, planner, number, batch)
    }

    // Answers lines that are pending.
    fn answer_pending<D: Desk, P: Fn(&Snapshot, Search) -> Result<AnyPlan, AllocError>>(
        &mut self,
        desk: &mut D,
        planner: &P,
        number: u32,
        batch: u32,
    ) -> Result<(), AllocError>
        requires legal { HasSeenLegal (D.value desk.old) }
        requires plans { PlansUnder (P.pre planner.now) (P.post planner.now) (D.value desk.old).setting }
        requires are_true { AreTrueOf (D.value desk.old) number self.old.log.items }
        requires short { IsShort self.old }
        requires lines { KnowsLines self.old.tail }
        ensures answers { OnOk result (Answers T.given batch (D.value desk.old) (D.value desk.new) number self.old self.new) }
        ensures short { OnOk result (IsShort self.new) }
        ensures lines { OnOk result (KnowsLines self.new.tail) }
        ensures feed { self.new.tail.feed ≡ self.old.tail.feed }
    {
        if !self.tail.has_line {
            return Ok(());
        }
        let before = self.log.len();
        let pending = self.tail.pending.as_slice();
        let (passed, lines) = answer_lines(
            pending,
            self.lines,
            desk,
            planner,
            number,
            batch,
            &mut self.log,
        )?;
        self.lines = lines;
        self.tail.has_line = self.log.len() - before == batch as usize;
        self.tail.skip(passed);
        Ok(())
    }
}
