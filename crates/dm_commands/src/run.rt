//! A run, from its words to the text of its answered feeds.

ghost use Rattle.std.specs.Prelude.{◌≡◌, ◌≤◌, ℕ, List, length, map, vec_len, IfOk};
ghost use Rattle.dm_base.specs.declared.limits.TheConstants.{BOARDS, FEEDS};
ghost use Rattle.dm_rows.specs.Rows.{IsSized};
ghost use Rattle.dm_crew.specs.AtOnce.{AnswersDay};
ghost use Rattle.dm_crew.specs.Boards.{AreShown};
ghost use Rattle.dm_display.specs.Displays.{shown_of};
ghost use Rattle.dm_input.specs.Stops.{IsKept};
ghost use Rattle.dm_words.specs.Asked.{run_of};
ghost use Rattle.dm_words.specs.Words.{Asks, RunOf};
ghost use Rattle.dm_commands.specs.Ends.{Ends};
ghost use Rattle.dm_desk.specs.Planning.{FindsFor};
ghost use Rattle.dm_desk.specs.Searching.{MaySearch, Searches};
ghost use Rattle.dm_commands.specs.Inside.Stages.{AreWithin, IsAtStart};

use crate::ending::{BoardList, Ending};
use crate::ends::end_stopped;
use crate::feeds::{names_of, open_feeds};
use crate::means::CommandMeans;
use crate::print::end_run;
use crate::status::Status;
use dm_crew::{AnsweredDay, Crew, answer_at_once};
use dm_desk::{HoldPoint, PlanRequest, Search};
use dm_input::{Opened, read_opening};
use dm_network::Network;
use dm_outside::{Board, Shelf, Sink, Source};
use dm_parts::AnyPlan;
use dm_rows::{Rows, Snapshot};
use dm_stretch::Window;
use dm_words::RunWords;
use std::alloc::AllocError;
use std::sync::Wait;
use std::thread::Threads;

/// Reads the files of a run, opens and answers its feeds, shows boards the times, and prints it.
pub fn run_feeds<
    R: Threads + Wait + Sync,
    F: Fn(&PlanRequest<'_>) -> Result<AnyPlan, AllocError> + Sync,
    W: Fn(&PlanRequest<'_>, &Window) -> Result<AnyPlan, AllocError> + Sync,
    G: HoldPoint + Sync,
    H: Shelf,
    K: Sink,
>(
    means: &CommandMeans<'_, '_, '_, '_, R, F, W, G>,
    run: &RunWords<'_>,
    shelf: &mut H,
    boards: &mut Vec<Box<dyn Board>>,
    out: &mut K,
) -> Status
    requires searches { Searches (F.pre means.now.search.now) (F.post means.now.search.now) }
    requires within { AreWithin (run_of run.now) }
    requires few_boards { vec_len boards.old ≤ BOARDS }
    ensures ends { (words : List (List ℕ)) → Asks words (RunOf (run_of run.now))
        → Ends K.taken K.faults (H.files shelf.old) (H.is_sound shelf.old) (⟦<BoardList as Ending>⟧.ends boards.old boards.new)
        words out.old out.new result }
    ensures kept { IsKept H.files H.is_sound shelf.old shelf.new }
    ensures later { K.faults out.old ≤ K.faults out.new }
    ensures stops { map place boards.new.items ≡ map place boards.old.items }
{
    let opened = match read_opening(means.alloc, shelf, &run.files) {
        Ok(opened) => opened,
        Err(stop) => return end_stopped(&run.files, &stop, out),
    };
    let Opened { net, rows } = opened;
    net.reveal();
    let Ok(names) = names_of(means.alloc, run.feeds) else {
        return Status::NoMemory;
    };
    let Ok(feeds) = open_feeds(means.alloc, shelf, names.as_slice()) else {
        return Status::NoMemory;
    };
    let answered = answer_run(means, run, &net, rows, feeds, boards);
    match answered {
        Ok(answered) => end_run(&answered, out),
        Err(AllocError) => Status::NoMemory,
    }
}

/// Answers the feeds of a run over a network in rounds, from the rows before any message. In a round as many threads as there are
/// processors share the feeds that are still read, where threads can be made. Boards are shown the times before the first round and
/// after each.
pub fn answer_run<
    'n,
    R: Threads + Wait + Sync,
    F: Fn(&PlanRequest<'_>) -> Result<AnyPlan, AllocError> + Sync,
    W: Fn(&PlanRequest<'_>, &Window) -> Result<AnyPlan, AllocError> + Sync,
    G: HoldPoint + Sync,
    S: Source + Send + Drop,
>(
    means: &CommandMeans<'_, '_, '_, '_, R, F, W, G>,
    run: &RunWords<'_>,
    net: &'n Network,
    rows: Rows,
    feeds: Vec<Option<S>>,
    boards: &mut Vec<Box<dyn Board>>,
) -> Result<AnsweredDay<'n>, AllocError>
    requires searches { Searches (F.pre means.now.search.now) (F.post means.now.search.now) }
    requires within { AreWithin (run_of run.now) }
    requires sized { IsSized net.now rows }
    requires start { IsAtStart net.now rows }
    requires few { length feeds.items ≤ FEEDS }
    requires few_boards { vec_len boards.old ≤ BOARDS }
    ensures answers { IfOk result (λ day. AnswersDay S.left S.is_sound net.now rows run.now.files.penalty run.now.files.plans
        feeds.items run.now.batch day.table day.logs.items) }
    ensures shown { IfOk result (λ day. AreShown place times flags (λ b. (Board-box b).faults b.value) (λ b. (Board-box b).is_sound b.value)
        net.now (shown_of day.table) (length day.table.history) day.publisher.notes boards.old.items boards.new.items) }
    ensures stops { map place boards.new.items ≡ map place boards.old.items }
{
    net.reveal();
    let penalty = run.files.penalty;
    let workers = run.workers;
    let planner = |snapshot: &Snapshot, asked: Search| -> Result<AnyPlan, AllocError>
        requires { Searches (F.pre means.now.search.now) (F.post means.now.search.now)
            × MaySearch (record { net = net; penalty = penalty; snapshot = snapshot; asked = asked; workers = workers }) }
        ensures { IfOk result (FindsFor net.entry.now penalty snapshot.now asked) }
    {
        let request = PlanRequest {
            net,
            penalty,
            snapshot,
            asked,
            workers,
        };
        (means.search)(&request)
    };
    let crew = Crew {
        rt: means.rt,
        alloc: means.alloc,
        planner: &planner,
        plans: run.files.plans,
        gate: means.gate,
        batch: run.batch as u32,
    };
    answer_at_once(&crew, net, rows, penalty, feeds, boards)
}
