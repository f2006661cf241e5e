//! The follower of a journal.
ghost use Rattle.std.specs.Prelude.{◌≡◌, ◌==◌, ◌≤◌, ◌++◌, ◌∷◌, [], ◌↔◌, IsTrue, position, IfOk, IfErr, OnOk, OnErr};
ghost use Rattle.dm_base.specs.declared.limits.TheConstants.{PENALTY};
ghost use Rattle.dm_text.specs.Places.{HasNoLineFeed};
ghost use Rattle.dm_rows.specs.Rows.{IsSized};
ghost use Rattle.dm_times.specs.Faults.{RefusesTimes};
ghost use Rattle.dm_follow.specs.Follower.{Follows, IsFailedTail, TakesPiece, tail_of};
ghost use Rattle.dm_follow.specs.Inside.Moving.{AnswersStage, Goes, IsLive, TakesFront};

use crate::entries::stage_behind;
use crate::faults::{FollowFault, NO_MEMORY, Tail};
use crate::headers::header_line;
use crate::stages::Stage;
use dm_network::Network;
use dm_rows::Rows;
use dm_settle::NoTimes;
use dm_table::Table;
use std::alloc::{AllocError, Global};
use std::marker::Model;

/// A table that follows a journal as its bytes arrive, seen as the table of the entries so far, how many bytes were taken, the line
/// that comes next, and the bytes of it that were taken.
pub struct Follower<'n> {
    alloc: Global,
    table: Table<'n>,

    /// How many bytes were taken.
    taken: u64,
    stage: Stage,

    /// The bytes of the line that is not whole yet.
    part: Vec<u8>,
}

impl Drop for Follower<'_> {
    fn drop(self) {
        let Follower {
            alloc: _,
            table: _,
            taken: _,
            stage: _,
            part: _,
        } = self;
    }
}

impl<'n> Model for Follower<'n> {
    ghost use Rattle.dm_follow.specs.Follower.{FollowerValue};

    ghost Value = { FollowerValue };

    ghost view = { λ f. record { table = f.table; taken = f.taken; stage = f.stage; part = f.part.items } };
}

impl<'n> Follower<'n> {
    /// A follower of a day that starts with these rows, at a penalty in seconds for each passenger, at most 1,000,000. It has taken
    /// no bytes. [`NoTimes::Cycle`] comes exactly where the rows have a cycle, unless memory is short first: then
    /// [`NoTimes::OutOfMemory`].
    pub fn new(
        alloc: Global,
        net: &'n Network,
        start: Rows,
        penalty: u64,
    ) -> Result<Follower<'n>, NoTimes>
        requires sized { IsSized net.now start }
        requires within { penalty ≤ PENALTY }
        ensures network { IfOk result (λ f. f.table.network ≡ net.now) }
        ensures start { IfOk result (λ f. f.table.start ≡ start) }
        ensures penalty { IfOk result (λ f. f.table.penalty ≡ penalty) }
        ensures follows { IfOk result (λ f. Follows f []) }
        ensures refused { IfErr result (RefusesTimes net.now start) }
    {
        let table = match Table::new(alloc, net, start, penalty) {
            Ok(table) => table,
            Err(no_times) => return Err(no_times),
        };
        Ok(Follower {
            alloc,
            table,
            taken: 0,
            stage: Stage::Version,
            part: Vec::new(alloc),
        })
    }

    /// Takes the bytes of a piece, which come behind those that were taken. Of what it takes, each entry's line is entered as soon as
    /// it is whole; bytes behind the last entry are passed over. `Form` and `Entry` come exactly where
    /// the bytes taken have a line that breaks its rule: the follower then stands at the entry before it, and each later call answers
    /// the same and takes nothing. After `OutOfMemory` some bytes from the front of the piece were taken, and the
    /// others may be given again.
    pub fn feed(&mut self, piece: &[u8]) -> Result<(), FollowFault>
        ensures takes { TakesPiece self.old self.new piece.now result }
        ensures failed { IsFailedTail (tail_of self.old) → self.new ≡ self.old }
    {
        match answer_of(self.stage) {
            Ok(()) => {}
            Err(fault) => return Err(fault),
        }
        let answer = feed_lines(self, piece);
        self.table.reveal();
        answer
    }

    /// How many bytes were taken.
    pub fn taken(&self) -> u64
        ensures { result ≡ self.now.taken }
    {
        self.taken
    }

    /// The table of the entries so far.
    pub fn table(&self) -> &Table<'n>
        ensures { result.now ≡ self.now.table }
    {
        &self.table
    }

    /// What there is of the journal's lines.
    pub fn tail(&self) -> Tail
        ensures { result ≡ tail_of self.now }
    {
        let bytes = self.part.len() as u64;
        let entered = self.table.len();
        match self.stage {
            Stage::Failed { line, .. } => Tail::Failed { line },
            Stage::Journal { entries, .. } if entered >= entries => Tail::Whole,
            Stage::Journal { .. } => Tail::Torn {
                line: entered + 5,
                bytes,
            },
            stage => Tail::Torn {
                line: header_line(stage),
                bytes,
            },
        }
    }

    /// Whether all entries were read.
    fn is_whole(&self) -> bool
        ensures { IsTrue result ↔ (tail_of self.now ≡ Tail.Whole) }
    {
        matches!(self.tail(), Tail::Whole)
    }

    /// Takes the bytes of a line that may go on. Where there is not enough memory, none is taken.
    fn take_part(&mut self, bytes: &[u8]) -> Result<(), FollowFault>
        requires live { IsLive self.old.stage }
        requires one_line { HasNoLineFeed bytes.now }
        ensures goes { OnOk result (Goes self.old self.new bytes.now) }
        ensures live { IsLive self.new.stage }
        ensures kept { OnErr result (self.new ≡ self.old) }
        ensures memory { IfErr result (λ fault. fault ≡ NO_MEMORY) }
    {
        let Some(taken) = self.taken.checked_add(bytes.len() as u64) else {
            return Err(NO_MEMORY);
        };
        if self.is_whole() {
            self.taken = taken;
            return Ok(());
        }
        let Ok(()) = self.part.extend_from_slice(bytes) else {
            return Err(NO_MEMORY);
        };
        self.taken = taken;
        Ok(())
    }

    /// Takes the LF behind the bytes of a line that were taken, and with it the line.
    fn end_line(&mut self) -> Result<(), FollowFault>
        requires { IsLive self.old.stage }
        ensures { TakesFront self.old self.new (10 ∷ []) result }
    {
        let Some(taken) = self.taken.checked_add(1) else {
            return Err(NO_MEMORY);
        };
        let Ok(stage) = stage_behind(self.alloc, &mut self.table, self.stage, &self.part) else {
            return Err(NO_MEMORY);
        };
        self.stage = stage;
        self.part.clear();
        self.taken = taken;
        answer_of(stage)
    }
}

/// What is answered where this stage comes behind a line.
fn answer_of(stage: Stage) -> Result<(), FollowFault>
    ensures { AnswersStage stage result }
{
    match stage {
        Stage::Failed { line, kind } => Err(FollowFault { line, kind }),
        Stage::Version
        | Stage::Penalty
        | Stage::Feeds
        | Stage::Entries { .. }
        | Stage::Journal { .. } => Ok(()),
    }
}

/// Takes the bytes of a line, and the LF behind them.
fn take_line(follower: &mut Follower<'_>, bytes: &[u8]) -> Result<(), FollowFault>
    requires live { IsLive follower.old.stage }
    requires one_line { HasNoLineFeed bytes.now }
    ensures { TakesFront follower.old follower.new (bytes.now ++ 10 ∷ []) result }
{
    match follower.take_part(bytes) {
        Ok(()) => follower.end_line(),
        Err(fault) => Err(fault),
    }
}

/// Takes the lines of a piece, one after another, and then what stands behind the last LF.
fn feed_lines(follower: &mut Follower<'_>, piece: &[u8]) -> Result<(), FollowFault>
    requires { IsLive follower.old.stage }
    ensures { TakesFront follower.old follower.new piece.now result }
{
    let mut rest = piece;
    while let Some(end) = line_feed(rest) {
        match take_line(follower, &rest[..end]) {
            Ok(()) => rest = &rest[end + 1..],
            Err(fault) => return Err(fault),
        }
    }
    follower.take_part(rest)
}

/// The place of the first LF.
fn line_feed(bytes: &[u8]) -> Option<usize>
    ensures { result ≡ position (λ b. b == 10) bytes.now }
{
    bytes.iter().position(|b| *b == b'\n')
}
