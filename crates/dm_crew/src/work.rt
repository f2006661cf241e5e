//! The feeds' parts of a round.

ghost use Rattle.std.specs.Prelude.{◌≡◌, ◌≤◌, ◌<◌, ◌++◌, count_by, length, IfOk};
ghost use Rattle.dm_desk.specs.Planning.{PlansUnder};
ghost use Rattle.dm_crew.specs.Passes.{setting_of};
ghost use Rattle.dm_crew.specs.Inside.Works.{IsReady, IsWorked, is_read};

use crate::desk::{Caller, Seat, ServerDesk};
use crate::rounds::Crew;
use dm_desk::{HoldPoint, Search};
use dm_outside::Source;
use dm_parts::AnyPlan;
use dm_rounds::{Job, Progress, answer_job};
use dm_rows::Snapshot;
use dm_server::{Kept, Server};
use dm_turn::Pass;
use std::alloc::AllocError;
use std::marker::{Brand, PhantomData};
use std::sync::Wait;

/// A feed with its number and a pass of its own, and whether memory was wanting when its lines were answered.
#[derive(Drop)]
pub struct Work<'n, S> {
    pub pass: Pass<Kept<'n>>,

    /// In a box, since its reader's buffer is in it.
    pub job: Box<Job<S>>,

    pub feed: u32,
    pub answer: Result<(), AllocError>,
}

impl<'n, S: Source + Drop> Work<'n, S> {
    /// Answers the feed's next lines over its pass, and leaves the server to the others.
    pub fn worked<
        P: Seat,
        R: Wait,
        L: Fn(&Snapshot, Search) -> Result<AnyPlan, AllocError>,
        H: HoldPoint,
    >(self, crew: &Crew<'_, R, L, H>, server: &Server<'n>) -> Work<'n, S>
        requires ready { IsReady server.now.id crew.now.plans P.base self.feed self.pass self.job.value }
        requires plans { PlansUnder (L.pre crew.now.planner.now) (L.post crew.now.planner.now) (setting_of crew.now.plans P.base) }
        ensures feed { result.feed ≡ self.entry.feed }
        ensures worked { IsWorked S.left S.is_sound crew.now.plans P.base crew.now.batch self.entry.feed self.entry.pass
            self.entry.job.value result.pass result.job.value result.answer }
    {
        let Work {
            pass,
            mut job,
            feed,
            answer: _,
        } = self;
        let (pass, answer) = answer_seated::<Brand, R, S, L, H>(crew, server, pass, &mut job, feed);
        server.rest();
        Work {
            pass,
            job,
            feed,
            answer,
        }
    }
}

// Answers the next lines of a feed over the pass that is picked.
fn answer_seated<
    'n,
    P: Seat,
    R: Wait,
    S: Source + Drop,
    L: Fn(&Snapshot, Search) -> Result<AnyPlan, AllocError>,
    H: HoldPoint,
>(
    crew: &Crew<'_, R, L, H>,
    server: &Server<'n>,
    pass: Pass<Kept<'n>>,
    job: &mut Job<S>,
    feed: u32,
) -> (Pass<Kept<'n>>, Result<(), AllocError>)
    requires pass { pass ≡ P.pass }
    requires ready { IsReady server.now.id crew.now.plans P.base feed pass job.old }
    requires plans { PlansUnder (L.pre crew.now.planner.now) (L.post crew.now.planner.now) (setting_of crew.now.plans P.base) }
    ensures { IsWorked S.left S.is_sound crew.now.plans P.base crew.now.batch feed pass.entry job.old result.0 job.new result.1 }
{
    let mut desk: ServerDesk<'_, '_, 'n, R, P> = ServerDesk {
        caller: Caller {
            rt: crew.rt,
            server,
            plans: crew.plans,
        },
        pass,
        of: PhantomData,
    };
    let answer = answer_job(job, &mut desk, crew.planner, crew.gate, feed, crew.batch);
    (desk.pass, answer)
}

/// How many of the feeds are still read.
pub fn count_read<S>(works: &[Work<'_, S>]) -> usize
    ensures { result ≡ count_by (λ w. is_read w.job.value.progress) works.now }
{
    works
        .iter()
        .filter(|work| is_read(&work.job.progress))
        .count()
}

/// How many works from the first on have so many feeds that are still read, or else all of them.
fn front_with<S>(works: &[Work<'_, S>], read: usize) -> usize
    ensures { result ≤ length works.now }
{
    let mut left = read;
    for place in 0..works.len() {
        if left == 0 {
            return place;
        }
        if is_read(&works[place].job.progress) {
            left -= 1;
        }
    }
    works.len()
}

/// The works of the first of so many threads, and those of the others: each has as many feeds that are still read, or one more.
pub fn cut_share<'n, S: Drop>(
    works: Vec<Work<'n, S>>,
    threads: usize,
) -> Result<(Vec<Work<'n, S>>, Vec<Work<'n, S>>), AllocError>
    requires { 0 < threads }
    ensures { IfOk result (λ parts. parts.0.items ++ parts.1.items ≡ works.entry.items) }
{
    let mut share = works;
    let read = count_read(&share).div_ceil(threads);
    let rest = share.split_off(front_with(&share, read))?;
    Ok((share, rest))
}

/// Works with others behind them.
pub fn together<'n, S: Drop>(
    works: Vec<Work<'n, S>>,
    behind: Vec<Work<'n, S>>,
) -> Result<Vec<Work<'n, S>>, AllocError>
    ensures { IfOk result (λ all. all.items ≡ works.entry.items ++ behind.entry.items) }
{
    let mut all = works;
    let mut others = behind;
    all.append(&mut others)?;
    Ok(all)
}

/// Whether a feed is still read.
fn is_read<S>(progress: &Progress<S>) -> bool
    ensures { result ≡ is_read progress.now }
{
    matches!(progress, Progress::Reading(_))
}
