//! What the words ask for, done with means that are handed in.
ghost use Rattle.std.specs.Prelude.{◌≡◌, ◌≤◌, ℕ, List, map, string_bytes, vec_len};
ghost use Rattle.dm_base.specs.declared.limits.TheConstants.{BOARDS};
ghost use Rattle.dm_input.specs.Stops.{IsKept};
ghost use Rattle.dm_words.specs.Asked.{command_of};
ghost use Rattle.dm_words.specs.Words.{Asks, RunAsked, RunOf};
ghost use Rattle.dm_commands.specs.Ends.{AsksNoRun, Ends};
ghost use Rattle.dm_desk.specs.Searching.{Searches};
ghost use Rattle.dm_outlook.specs.Searching.{SearchesWindows};
ghost use Rattle.dm_commands.specs.Inside.Stages.{IsWithin};

use crate::checking::check_text;
use crate::ending::{BoardList, Ending};
use crate::ends::end_usage;
use crate::generate::generate;
use crate::means::CommandMeans;
use crate::queries::answer_query;
use crate::run::run_feeds;
use crate::status::Status;
use dm_desk::{HoldPoint, PlanRequest};
use dm_outside::{Board, Shelf, Sink};
use dm_parts::AnyPlan;
use dm_stretch::Window;
use dm_words::{CommandWords, read_words};
use std::alloc::AllocError;
use std::sync::Wait;
use std::thread::Threads;

/// Does what the words ask, which are those without the program's name, and answers the status to end with. Plans are searched by
/// what the means give.
pub fn dispatch_with<
    R: Threads + Wait + Sync,
    F: Fn(&PlanRequest<'_>) -> Result<AnyPlan, AllocError> + Sync,
    W: Fn(&PlanRequest<'_>, &Window) -> Result<AnyPlan, AllocError> + Sync,
    G: HoldPoint + Sync,
    H: Shelf,
    K: Sink,
>(
    means: &CommandMeans<'_, '_, '_, '_, R, F, W, G>,
    words: &[String],
    shelf: &mut H,
    boards: &mut Vec<Box<dyn Board>>,
    out: &mut K,
) -> Status
    requires searches { Searches (F.pre means.now.search.now) (F.post means.now.search.now) }
    requires windows { SearchesWindows (W.pre means.now.search_window.now) (W.post means.now.search_window.now) }
    requires few_boards { vec_len boards.old ≤ BOARDS }
    ensures ends { Ends K.taken K.faults (H.files shelf.old) (H.is_sound shelf.old) (⟦<BoardList as Ending>⟧.ends boards.old boards.new)
        (map string_bytes words.now) out.old out.new result }
    ensures kept { IsKept H.files H.is_sound shelf.old shelf.new }
    ensures later { K.faults out.old ≤ K.faults out.new }
    ensures stops { map place boards.new.items ≡ map place boards.old.items }
    ensures left { AsksNoRun (map string_bytes words.now) → boards.new.items ≡ boards.old.items }
{
    match read_words(words) {
        Some(command) => do_command(means, &command, shelf, boards, out),
        None => end_usage(out),
    }
}

/// Does what a command asks.
fn do_command<
    R: Threads + Wait + Sync,
    F: Fn(&PlanRequest<'_>) -> Result<AnyPlan, AllocError> + Sync,
    W: Fn(&PlanRequest<'_>, &Window) -> Result<AnyPlan, AllocError> + Sync,
    G: HoldPoint + Sync,
    H: Shelf,
    K: Sink,
>(
    means: &CommandMeans<'_, '_, '_, '_, R, F, W, G>,
    command: &CommandWords<'_>,
    shelf: &mut H,
    boards: &mut Vec<Box<dyn Board>>,
    out: &mut K,
) -> Status
    requires searches { Searches (F.pre means.now.search.now) (F.post means.now.search.now) }
    requires windows { SearchesWindows (W.pre means.now.search_window.now) (W.post means.now.search_window.now) }
    requires within { IsWithin (command_of command.now) }
    requires few_boards { vec_len boards.old ≤ BOARDS }
    ensures ends { (words : List (List ℕ)) → Asks words (command_of command.now)
        → Ends K.taken K.faults (H.files shelf.old) (H.is_sound shelf.old) (⟦<BoardList as Ending>⟧.ends boards.old boards.new)
        words out.old out.new result }
    ensures kept { IsKept H.files H.is_sound shelf.old shelf.new }
    ensures later { K.faults out.old ≤ K.faults out.new }
    ensures stops { map place boards.new.items ≡ map place boards.old.items }
    ensures left { ((asked : RunAsked) → command_of command.now ≡ RunOf asked → ⊥) → boards.new.items ≡ boards.old.items }
{
    match command {
        CommandWords::Run(run) => run_feeds(means, run, shelf, boards, out),
        CommandWords::Check(check) => check_text(means.alloc, check, shelf, out),
        CommandWords::Gen(day) => generate(means.alloc, day, out),
        CommandWords::Query(query) => answer_query(means, query, shelf, out),
    }
}
