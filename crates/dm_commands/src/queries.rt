//! What is asked of the journal of a text, from its words to its answer.
ghost use Rattle.std.specs.Prelude.{◌≤◌, ℕ, List};
ghost use Rattle.dm_base.specs.declared.limits.TheConstants.{PENALTY};
ghost use Rattle.dm_network.specs.Net.{Net};
ghost use Rattle.dm_rows.specs.Rows.{IsSized, RowsValue};
ghost use Rattle.dm_input.specs.Stops.{IsKept};
ghost use Rattle.dm_journal.specs.Journals.{IsJournal};
ghost use Rattle.dm_words.specs.Asked.{query_of};
ghost use Rattle.dm_commands.specs.Inside.Asking.{EndsAsked, EndsOnJournal, EndsQueried};
ghost use Rattle.dm_desk.specs.Searching.{Searches};
ghost use Rattle.dm_outlook.specs.Searching.{SearchesWindows};
ghost use Rattle.dm_commands.specs.Inside.Stages.{IsAtStart, IsWithinLimits};

use crate::ends::{end_broken, end_long_text, end_stopped, end_torn, end_unread_text};
use crate::follow::end_state;
use crate::journey::end_journeys;
use crate::means::CommandMeans;
use crate::ruling::end_rules;
use crate::status::Status;
use crate::window::end_window;
use dm_desk::PlanRequest;
use dm_input::{Opened, read_opening};
use dm_journal::{Journal, read_journal};
use dm_network::Network;
use dm_outside::{Shelf, Sink, TakeFault};
use dm_parts::AnyPlan;
use dm_rows::Rows;
use dm_stretch::Window;
use dm_words::{Query, QueryWords};
use std::alloc::AllocError;

/// Reads the files that the words name, and then the text, whose journal is followed over the network and from the rows that they
/// make, and answers what is asked of it.
pub fn answer_query<
    R,
    F: Fn(&PlanRequest<'_>) -> Result<AnyPlan, AllocError>,
    W: Fn(&PlanRequest<'_>, &Window) -> Result<AnyPlan, AllocError>,
    G,
    H: Shelf,
    K: Sink,
>(
    means: &CommandMeans<'_, '_, '_, '_, R, F, W, G>,
    words: &QueryWords<'_>,
    shelf: &mut H,
    out: &mut K,
) -> Status
    requires searches { Searches (F.pre means.now.search.now) (F.post means.now.search.now) }
    requires windows { SearchesWindows (W.pre means.now.search_window.now) (W.post means.now.search_window.now) }
    requires penalty { (query_of words.now).files.penalty ≤ PENALTY }
    requires limits { IsWithinLimits (query_of words.now).query }
    ensures ends { EndsQueried K.taken K.faults (H.files shelf.old) (H.is_sound shelf.old) (query_of words.now) out.old out.new result }
    ensures kept { IsKept H.files H.is_sound shelf.old shelf.new }
    ensures later { K.faults out.old ≤ K.faults out.new }
{
    let opened = match read_opening(means.alloc, shelf, &words.files) {
        Ok(opened) => opened,
        Err(stop) => return end_stopped(&words.files, &stop, out),
    };
    let Opened { net, rows } = opened;
    ask_text(means, &net, rows, words, shelf, out)
}

/// Reads a text and answers what the words ask of its journal, or says why that is not known.
fn ask_text<
    R,
    F: Fn(&PlanRequest<'_>) -> Result<AnyPlan, AllocError>,
    W: Fn(&PlanRequest<'_>, &Window) -> Result<AnyPlan, AllocError>,
    G,
    H: Shelf,
    K: Sink,
>(
    means: &CommandMeans<'_, '_, '_, '_, R, F, W, G>,
    net: &Network,
    rows: Rows,
    words: &QueryWords<'_>,
    shelf: &mut H,
    out: &mut K,
) -> Status
    requires searches { Searches (F.pre means.now.search.now) (F.post means.now.search.now) }
    requires windows { SearchesWindows (W.pre means.now.search_window.now) (W.post means.now.search_window.now) }
    requires sized { IsSized net.now rows }
    requires start { IsAtStart net.now rows }
    requires penalty { (query_of words.now).files.penalty ≤ PENALTY }
    requires limits { IsWithinLimits (query_of words.now).query }
    ensures ends { EndsAsked K.taken K.faults (H.files shelf.old) (H.is_sound shelf.old) (query_of words.now) net.now rows out.old out.new
        result }
    ensures kept { IsKept H.files H.is_sound shelf.old shelf.new }
    ensures later { K.faults out.old ≤ K.faults out.new }
{
    net.reveal();
    let penalty = words.files.penalty;
    match read_journal(means.alloc, shelf, words.text, net, rows, penalty) {
        Ok(journal) => answer_journal(means, &journal, &words.query, out),
        Err(TakeFault::ReadFault) => end_unread_text(words.text, out),
        Err(TakeFault::TooLong) => end_long_text(words.text, out),
        Err(TakeFault::OutOfMemory) => Status::NoMemory,
    }
}

/// Answers what is asked of a journal, or says which of its lines is bad.
fn answer_journal<
    R,
    F: Fn(&PlanRequest<'_>) -> Result<AnyPlan, AllocError>,
    W: Fn(&PlanRequest<'_>, &Window) -> Result<AnyPlan, AllocError>,
    G,
    K: Sink,
>(
    means: &CommandMeans<'_, '_, '_, '_, R, F, W, G>,
    journal: &Journal<'_>,
    query: &Query<'_>,
    out: &mut K,
) -> Status
    requires searches { Searches (F.pre means.now.search.now) (F.post means.now.search.now) }
    requires windows { SearchesWindows (W.pre means.now.search_window.now) (W.post means.now.search_window.now) }
    requires within { IsWithinLimits query.now }
    ensures ends { (net : Net) (rows : RowsValue) (penalty : ℕ) (bytes : List ℕ) → IsJournal net rows penalty bytes journal.now
        → EndsOnJournal K.taken K.faults query.now net rows penalty bytes out.old out.new result }
    ensures later { K.faults out.old ≤ K.faults out.new }
{
    match journal {
        Journal::Broken(broken) => end_broken(*broken, out),
        Journal::Torn(line, follower) => match query {
            Query::Follow => end_state(follower, out),
            _ => end_torn(*line, out),
        },
        Journal::Whole(follower) => match query {
            Query::Follow => end_state(follower, out),
            Query::Journey(asked) => end_journeys(means.alloc, follower.table(), *asked, out),
            Query::Rules(asked) => {
                end_rules(means.alloc, means.search, follower.table(), *asked, out)
            }
            Query::Window(asked) => end_window(
                means.alloc,
                means.search_window,
                follower.table(),
                asked,
                out,
            ),
        },
    }
}
