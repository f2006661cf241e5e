//! A journal that is followed in pieces.

use crate::case::{Case, PENALTY, is_due};
use dm_follow::{FollowKind, Follower, Tail};
use dm_network::Network;
use dm_rows::Snapshot;
use dm_samples::{Failure, rows_on_time};
use dm_settle::NoTimes;
use std::alloc::Global;

/// A delay, and the plan for it.
const JOURNAL: &[u8] =
    b"dm-run 2\npenalty 10\nfeeds 1\nentries 2\nentry 1 feed 1 line 1 delay event 1 60\nentry 2 feed 1 line 3 adopt drop 5 first 5 3\n";

/// How many bytes a piece has.
const PIECE: usize = 17;

/// What is refused memory is given again, but for the bytes that were taken.
pub struct FollowsJournal;

impl Case for FollowsJournal {
    fn come_out(alloc: Global, net: &Network, _day: &Snapshot) -> Result<(), Failure> {
        let rows = rows_on_time(alloc, net)?;
        match Follower::new(alloc, net, rows, PENALTY) {
            Ok(mut follower) => follows(&mut follower),
            Err(NoTimes::OutOfMemory) => Err(Failure::OutOfMemory),
            Err(NoTimes::Cycle(_)) => Err(Failure::NoDay),
        }
    }
}

fn follows(follower: &mut Follower<'_>) -> Result<(), Failure> {
    for piece in JOURNAL.chunks(PIECE) {
        give(follower, piece)?;
    }
    let whole = follower.tail() == Tail::Whole && follower.table().len() == 2;
    is_due(whole && follower.table().cost_now() == 940_000, 2)
}

fn give(follower: &mut Follower<'_>, piece: &[u8]) -> Result<(), Failure> {
    let before = follower.taken();
    match follower.feed(piece) {
        Ok(()) => Ok(()),
        Err(fault) => {
            is_due(fault.kind == FollowKind::OutOfMemory, 0)?;
            let taken = follower.taken().saturating_sub(before) as usize;
            let rest = piece.get(taken..).unwrap_or(&[]);
            is_due(follower.feed(rest).is_ok(), 1)
        }
    }
}
