//! Rounds whose feeds are answered at once.

ghost use Rattle.std.specs.Prelude.{◌≡◌, ℕ, ◌+◌, ◌-◌, ◌<◌, ◌≤◌, false, length, map, Some, All, slice_get, vec_len, IfOk, OnOk, IsOk};
ghost use Rattle.std.specs.Thread.{IsSend, IsSync};
ghost use mathlib.Core.List.{IsPrefix};
ghost use Rattle.dm_base.specs.declared.limits.TheConstants.{FEEDS};
ghost use Rattle.dm_rows.specs.History.{IsLegal};
ghost use Rattle.dm_desk.specs.Answered.{HasSeenLegal};
ghost use Rattle.dm_desk.specs.Planning.{PlansUnder};
ghost use Rattle.dm_rounds.specs.Rounds.{AnswersFeeds};
ghost use Rattle.dm_rounds.specs.Inside.Jobs.{AnswersRound, CanReadAll, AllAreTrue};
ghost use Rattle.dm_crew.specs.Passes.{setting_of, desk_of, IsSamePass};
ghost use Rattle.dm_crew.specs.Inside.Works.{split_of, IsGathered, IsReady, AreWorkedEach};
ghost use Rattle.dm_display.specs.Displays.{IsFor, HasShownNothing};
ghost use Rattle.dm_crew.specs.Inside.Displays.{AreUp};

use crate::desk::Seat;
use crate::display::{show, show_growth};
use crate::work::{Work, count_read, cut_share, together};
use dm_cert::FeedLog;
use dm_desk::{HoldPoint, Search};
use dm_display::Display;
use dm_outside::{Board, Source};
use dm_parts::AnyPlan;
use dm_rounds::{Job, begin, have_ended, logs_of};
use dm_rows::Snapshot;
use dm_server::{Kept, Server};
use dm_turn::Pass;
use std::alloc::{AllocError, Global};
use std::sync::Wait;
use std::thread::{Threads, available_parallelism, join};

// So many feeds are answered at once, where the system does not tell how many processors there are, and at least.
const FEWEST_THREADS: usize = 2;

/// What feeds are answered with: threads, memory, what makes plans, how many plans a feed may have, a gate, and how many lines a
/// feed has in a round.
#[derive(Drop)]
pub struct Crew<'c, R, L, H> {
    pub rt: &'c R,
    pub alloc: Global,
    pub planner: &'c L,
    pub plans: u32,
    pub gate: &'c H,
    pub batch: u32,
}

impl<
    R: Threads + Wait + Sync,
    L: Fn(&Snapshot, Search) -> Result<AnyPlan, AllocError> + Sync,
    H: HoldPoint + Sync,
> Crew<'_, R, L, H> {
    /// Answers feeds over the server until each has ended, each round's feeds at once. Boards are shown the times before the first
    /// round, and after each round those that have moved. It may answer want of memory at any point up to the end of the last round,
    /// and then says nothing of the passes.
    pub(crate) fn answer_feeds<'n, P: Seat + Send + Sync, S: Source + Send + Drop>(
        &self,
        server: &Server<'n>,
        main: &mut Pass<Kept<'n>>,
        feeds: Vec<Option<S>>,
        display: &mut Display<'n>,
        boards: &mut Vec<Box<dyn Board>>,
    ) -> Result<Vec<FeedLog>, AllocError>
        requires here { main.old.turn ≡ server.now.id }
        requires idle { main.old.holds ≡ false }
        requires base { main.old.base ≡ Some P.base }
        requires legal { HasSeenLegal (desk_of self.now.plans P.base main.old) }
        requires plans { PlansUnder (L.pre self.now.planner.now) (L.post self.now.planner.now) (setting_of self.now.plans P.base) }
        requires few { length feeds.items ≤ FEEDS }
        requires rooms { length feeds.items < main.old.room }
        requires some { 0 < self.now.batch }
        requires fits { IsFor P.base.network (vec_len boards.old) display.old }
        requires none { HasShownNothing display.old }
        ensures same { OnOk result (IsSamePass main.old main.new) }
        ensures answers { IfOk result (λ logs. AnswersFeeds S.left S.is_sound feeds.items self.now.batch
            (desk_of self.now.plans P.base main.old) (desk_of self.now.plans P.base main.new) logs.items) }
        ensures up { OnOk result (AreUp place times flags (λ b. (Board-box b).faults b.value) (λ b. (Board-box b).is_sound b.value)
            P.base main.new.seen display.new boards.old.items boards.new.items) }
        ensures stops { map place boards.new.items ≡ map place boards.old.items }
    {
        let logs = Vec::with_capacity(self.alloc, feeds.len())?;
        let mut jobs = begin(self.alloc, feeds)?;
        let threads = threads_of(self.rt);
        show::<P, R>(self.rt, server, main, display, boards);
        for _ in self.rt.forever() {
            if have_ended(&jobs) {
                break;
            }
            jobs = self.answer_round::<P, S>(server, main, jobs, threads)?;
            show_growth::<P, R>(self.rt, server, main, display, boards);
        }
        Ok(logs_of(jobs, logs))
    }

    // Answers the next lines of each feed, in so many threads at most.
    fn answer_round<'n, P: Seat + Send + Sync, S: Source + Send + Drop>(
        &self,
        server: &Server<'n>,
        main: &mut Pass<Kept<'n>>,
        jobs: Vec<Box<Job<S>>>,
        threads: usize,
    ) -> Result<Vec<Box<Job<S>>>, AllocError>
        requires here { main.old.turn ≡ server.now.id }
        requires idle { main.old.holds ≡ false }
        requires base { main.old.base ≡ Some P.base }
        requires legal { HasSeenLegal (desk_of self.now.plans P.base main.old) }
        requires plans { PlansUnder (L.pre self.now.planner.now) (L.post self.now.planner.now) (setting_of self.now.plans P.base) }
        requires can_read { CanReadAll (map (λ b. b.value) jobs.items) }
        requires are_true { AllAreTrue (desk_of self.now.plans P.base main.old) (map (λ b. b.value) jobs.items) }
        requires few { vec_len jobs ≤ FEEDS }
        requires rooms { vec_len jobs < main.old.room }
        requires some { 0 < self.now.batch }
        ensures same { OnOk result (IsSamePass main.old main.new) }
        ensures later { OnOk result (IsPrefix main.old.seen main.new.seen) }
        ensures round { IfOk result (λ after. AnswersRound S.left S.is_sound self.now.batch (desk_of self.now.plans P.base main.old)
            (map (λ b. b.value) jobs.items) (desk_of self.now.plans P.base main.new) (map (λ b. b.value) after.items)) }
    {
        let works = share_out(self.alloc, server, main, jobs)?;
        let works = self.work_all::<P, S>(server, works, threads)?;
        gather::<P, S>(self.alloc, server, main, works)
    }

    // Answers the next lines of feeds in so many threads at most, where they can be made. Each thread answers a share of the feeds
    // that are still read, one feed after another.
    #[cycle(sharing)]
    fn work_all<'n, P: Seat + Send + Sync, S: Source + Send + Drop>(
        &self,
        server: &Server<'n>,
        works: Vec<Work<'n, S>>,
        threads: usize,
    ) -> Result<Vec<Work<'n, S>>, AllocError>
        requires ready { All (λ w. IsReady server.now.id self.now.plans P.base w.feed w.pass w.job.value) works.items }
        requires plans { PlansUnder (L.pre self.now.planner.now) (L.post self.now.planner.now) (setting_of self.now.plans P.base) }
        ensures len { IfOk result (λ after. vec_len after ≡ vec_len works.entry) }
        ensures each { IfOk result (λ after. AreWorkedEach S.left S.is_sound self.now.plans P.base self.now.batch
            works.entry.items after.items) }
    {
        if threads < 2 || count_read(&works) < 2 {
            return self.work_one_by_one::<P, S>(server, works);
        }
        let others = threads - 1;
        let (share, rest) = cut_share(works, threads)?;
        let work_share = move || -> Result<Vec<Work<'_, S>>, AllocError>
            requires { IsSync R.row × IsSync L.row × IsSync H.row × PlansUnder (L.pre self.now.planner.now) (L.post self.now.planner.now)
                (setting_of self.now.plans P.base) × All (λ w. IsReady server.now.id self.now.plans P.base w.feed w.pass w.job.value)
                share.items }
            ensures { IfOk result (λ after. (vec_len after ≡ vec_len share.entry) × AreWorkedEach S.left S.is_sound self.entry.now.plans P.base
                self.entry.now.batch share.entry.items after.items) }
        { self.work_one_by_one::<P, S>(server, share) };
        let work_rest = move || -> Result<Vec<Work<'_, S>>, AllocError>
            requires { IsSync R.row × IsSync L.row × IsSync H.row × IsSend P.row × IsSync P.row × IsSend S.row × PlansUnder
                (L.pre self.now.planner.now) (L.post self.now.planner.now) (setting_of self.now.plans P.base)
                × All (λ w. IsReady server.now.id self.now.plans P.base w.feed w.pass w.job.value) rest.items }
            ensures { IfOk result (λ after. (vec_len after ≡ vec_len rest.entry) × AreWorkedEach S.left S.is_sound self.entry.now.plans P.base
                self.entry.now.batch rest.entry.items after.items) }
        { self.work_all::<P, S>(server, rest, others) };
        let (first, second) = join(self.rt, work_share, work_rest);
        let worked = first?;
        let behind = second?;
        together(worked, behind)
    }

    // Answers the next lines of feeds, one feed after another.
    fn work_one_by_one<'n, P: Seat, S: Source + Drop>(
        &self,
        server: &Server<'n>,
        works: Vec<Work<'n, S>>,
    ) -> Result<Vec<Work<'n, S>>, AllocError>
        requires ready { All (λ w. IsReady server.now.id self.now.plans P.base w.feed w.pass w.job.value) works.items }
        requires plans { PlansUnder (L.pre self.now.planner.now) (L.post self.now.planner.now) (setting_of self.now.plans P.base) }
        ensures len { IfOk result (λ after. vec_len after ≡ vec_len works.entry) }
        ensures each { IfOk result (λ after. AreWorkedEach S.left S.is_sound self.now.plans P.base self.now.batch
            works.entry.items after.items) }
    {
        let mut done = Vec::with_capacity(self.alloc, works.len())?;
        for work in works {
            done.push(work.worked::<P, R, L, H>(self, server))?;
        }
        Ok(done)
    }
}

// How many feeds are answered at once: as many as there are processors.
fn threads_of<R: Threads>(rt: &R) -> usize {
    match available_parallelism(rt) {
        Ok(processors) => processors.get().max(FEWEST_THREADS),
        Err(_) => FEWEST_THREADS,
    }
}

// A part of the round for each feed, with a pass that is split from the main one.
fn share_out<'n, S: Drop>(
    alloc: Global,
    server: &Server<'n>,
    main: &mut Pass<Kept<'n>>,
    jobs: Vec<Box<Job<S>>>,
) -> Result<Vec<Work<'n, S>>, AllocError>
    requires here { main.old.turn ≡ server.now.id }
    requires few { vec_len jobs ≤ FEEDS }
    requires rooms { vec_len jobs < main.old.room }
    ensures main { OnOk result (main.new ≡ record main.old { room = main.old.room - vec_len jobs }) }
    ensures jobs { IfOk result (λ works. map (λ w. w.job.value) works.items ≡ map (λ b. b.value) jobs.items) }
    ensures passes { IfOk result (λ works. All (λ w. w.pass ≡ split_of main.old) works.items) }
    ensures feeds { IfOk result (λ works. (k : ℕ) (w : _) → slice_get works.items k ≡ Some w → w.feed ≡ k + 1) }
{
    let mut works = Vec::with_capacity(alloc, jobs.len())?;
    for job in jobs {
        let pass = server.split(main);
        let feed = (works.len() + 1) as u32;
        works.push(Work {
            pass,
            job,
            feed,
            answer: Ok(()),
        })?;
    }
    Ok(works)
}

// Joins the passes of a round into the main one, in the order of the feeds.
fn gather<'n, P: Seat, S: Drop>(
    alloc: Global,
    server: &Server<'n>,
    main: &mut Pass<Kept<'n>>,
    works: Vec<Work<'n, S>>,
) -> Result<Vec<Box<Job<S>>>, AllocError>
    requires here { main.old.turn ≡ server.now.id }
    requires idle { main.old.holds ≡ false }
    requires legal { IsLegal P.base.network P.base.start main.old.seen }
    requires passes { All (λ w. (w.pass.turn ≡ server.now.id) × (w.pass.holds ≡ false) × (w.pass.room ≡ 1)) works.items }
    requires legal_all { All (λ w. OnOk w.answer (IsLegal P.base.network P.base.start w.pass.seen)) works.items }
    ensures jobs { IfOk result (λ jobs. map (λ b. b.value) jobs.items ≡ map (λ w. w.job.value) works.entry.items) }
    ensures all_ok { OnOk result (All (λ w. IsOk w.answer) works.entry.items) }
    ensures gathered { OnOk result (IsGathered P.base main.old main.new (map (λ w. w.pass) works.entry.items)) }
{
    let mut jobs = Vec::with_capacity(alloc, works.len())?;
    for work in works {
        let Work {
            pass,
            job,
            feed: _,
            answer,
        } = work;
        answer?;
        server.join(main, pass);
        jobs.push(job)?;
    }
    Ok(jobs)
}
