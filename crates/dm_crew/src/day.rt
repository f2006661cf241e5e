//! A day's feeds, answered at once.

ghost use Rattle.std.specs.Prelude.{◌≡◌, ◌<◌, ◌≤◌, length, map, vec_len, IfOk};
ghost use Rattle.dm_base.specs.declared.limits.TheConstants.{BOARDS, FEEDS, PENALTY};
ghost use Rattle.dm_rows.specs.Active.{HasNoCycle};
ghost use Rattle.dm_rows.specs.Rows.{IsSized};
ghost use Rattle.dm_desk.specs.Planning.{PlansUnder};
ghost use Rattle.dm_crew.specs.AtOnce.{AnswersDay, day_desk};
ghost use Rattle.dm_crew.specs.Boards.{AreShown};
ghost use Rattle.dm_display.specs.Displays.{shown_of};
ghost use Rattle.dm_crew.specs.Inside.Works.{first_pass};

use crate::rounds::Crew;
use dm_cert::FeedLog;
use dm_desk::{HoldPoint, Search};
use dm_display::Display;
use dm_network::Network;
use dm_outside::{Board, Source};
use dm_parts::AnyPlan;
use dm_publish::Publisher;
use dm_rows::{Rows, Snapshot};
use dm_server::{Kept, Server};
use dm_settle::NoTimes;
use dm_table::Table;
use dm_turn::Pass;
use std::alloc::{AllocError, Global};
use std::marker::Brand;
use std::sync::Wait;
use std::thread::Threads;

/// The table of a day, the logs of its feeds, and the publisher with the notes of boards whose show has failed.
pub struct AnsweredDay<'n> {
    pub table: Table<'n>,
    pub logs: Vec<FeedLog>,
    pub publisher: Publisher,
}

impl Drop for AnsweredDay<'_> {
    fn drop(self) {
        let AnsweredDay {
            table: _,
            logs: _,
            publisher: _,
        } = self;
    }
}

/// Answers feeds over a server of these rows, at a penalty in seconds for each passenger, until each has ended, in rounds. In a
/// round the feeds that are still read are shared out among as many threads as there are processors, where threads can be made. A
/// feed that could not be opened is `None`. Boards are shown the times before the first round, and after each round those that
/// have moved. Want of memory may come at any point up to the end of the last round.
pub fn answer_at_once<
    'n,
    R: Threads + Wait + Sync,
    S: Source + Send + Drop,
    L: Fn(&Snapshot, Search) -> Result<AnyPlan, AllocError> + Sync,
    H: HoldPoint + Sync,
>(
    crew: &Crew<'_, R, L, H>,
    net: &'n Network,
    rows: Rows,
    penalty: u64,
    feeds: Vec<Option<S>>,
    boards: &mut Vec<Box<dyn Board>>,
) -> Result<AnsweredDay<'n>, AllocError>
    requires sized { IsSized net.now rows }
    requires no_cycle { HasNoCycle net.now rows }
    requires penalty { penalty ≤ PENALTY }
    requires plans { PlansUnder (L.pre crew.now.planner.now) (L.post crew.now.planner.now)
        (day_desk net.now rows penalty crew.now.plans).setting }
    requires few { length feeds.items ≤ FEEDS }
    requires some { 0 < crew.now.batch }
    requires few_boards { vec_len boards.old ≤ BOARDS }
    ensures answers { IfOk result (λ day. AnswersDay S.left S.is_sound net.now rows penalty crew.now.plans feeds.items
        crew.now.batch day.table day.logs.items) }

    // Each board that no note names shows the times of the table, and each note has its cause.
    ensures shown { IfOk result (λ day. AreShown place times flags (λ b. (Board-box b).faults b.value)
        (λ b. (Board-box b).is_sound b.value) net.now (shown_of day.table) (length day.table.history) day.publisher.notes
        boards.old.items boards.new.items) }
    ensures stops { map place boards.new.items ≡ map place boards.old.items }
{
    let seats = feeds.len() as u32 + 1;
    let mut display = Display::new(crew.alloc, net, boards.len())?;
    let (server, mut main) = new_server(crew.alloc, net, rows, penalty, seats)?;
    let logs = crew.answer_feeds::<Brand, S>(&server, &mut main, feeds, &mut display, boards)?;
    let table = server.close(main);
    Ok(AnsweredDay {
        table,
        logs,
        publisher: display.into_publisher(),
    })
}

// A server of rows that have no cycle, and its first pass.
fn new_server<'n>(
    alloc: Global,
    net: &'n Network,
    rows: Rows,
    penalty: u64,
    seats: u32,
) -> Result<(Server<'n>, Pass<Kept<'n>>), AllocError>
    requires sized { IsSized net.now rows }
    requires no_cycle { HasNoCycle net.now rows }
    requires within { penalty ≤ PENALTY }
    requires seats { 1 ≤ seats }
    ensures server { IfOk result (λ r. r.0.seats ≡ seats) }
    ensures pass { IfOk result (λ r. r.1 ≡ first_pass r.0.id (record { network = net.now; start = rows; penalty = penalty }) seats) }
{
    match Server::new(alloc, net, rows, penalty, seats) {
        Ok(opened) => Ok(opened),
        Err(NoTimes::OutOfMemory) => Err(AllocError),
        Err(NoTimes::Cycle(_)) => unreachable!(),
    }
}
