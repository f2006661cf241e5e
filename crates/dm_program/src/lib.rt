//! The top call: what the words of a command line ask for, from files and feeds to the text that is written.
//!
//! It stands on dm_commands for what each command does and for the definitions that its clauses name. It stands on dm_find and
//! dm_window for the search of plans, which it hands to dm_commands. These files of dm_commands say what [`dispatch`] promises:
//! `specs/Headline` what a run prints, `specs/Generated` what a generated day does, `specs/Checked` what is printed of a text
//! that is checked, `specs/Answers` what is printed of what is asked of a journal, and `specs/Ends` why a call ends otherwise.
//!
//! # What is promised
//!
//! `dispatch`.
//!
//! `headline`: at status Ok the sink has taken a text, where it tells what it took. What holds of the text depends on the words:
//!
//! - `IsSummaryFor`, where they ask for a generated day;
//! - `IsVerdictFor`, where they ask for a check;
//! - `IsAnswerFor`, where they ask something of the journal of a text;
//! - `IsRunOf`, where they ask for a run.
//!
//! `IsRunOf`: the files under the names of the words determine a network and start rows. Their bytes are those that the shelf
//! tells, where it tells them. There is a log for each feed, in order, and it answers the due lines of the feed's bytes
//! (`AreLogsOf`). The logs keep to rounds of the words' batch. The text is the spelling, in version 2, of a true run: its history
//! is legal, every log is true of it, every entry is named by exactly one accepted line, the times are the least timetable after
//! all entries, and the cost is theirs.
//!
//! Of the boards of the list (`ShowRun`; clauses name it `Ending`, by its one ghost member `ends`):
//!
//! - Each board that no note of the text names shows the run's final times of its stop, and which of its events are cancelled then,
//!   where it told at first what it shows.
//! - Each note has the stop of its place. It names a board whose count has risen and which was not sound for the network.
//! - A call that ends without a run leaves all boards as they were, except at want of memory.
//!
//! A true log has only true plans and true plans by parts, each of the rows at its entry. No choices for that entry cost less than
//! a plan of either kind that is marked optimal (`OptimalIsLeast`). Where the shelf tells nothing, the claim is only that some bytes
//! are there, not which. Where the sink tells nothing, nothing is claimed of what was written.
//!
//! `IsVerdictFor`: the files under the names of the words are refused nowhere. The bytes of the text are those that the shelf
//! tells under its name, where it tells them. The verdict of dm_check on these bytes, over the network and the start rows of the
//! files, is in print, and the status is the verdict's. The texts that are told good are exactly the spellings of true runs of
//! this network from these rows (`IsRunText`).
//!
//! `IsAnswerFor`: the files are refused nowhere, the bytes are those of the text, and what is printed answers the question
//! (`IsAnswerAt`).
//!
//! At Ok, `follow` prints exactly the state of these bytes: how many entries the longest history has that they carry, the tail of
//! the journal's lines, the least timetable of the rows after that history, the events that are cancelled in them, and the cost.
//! The other three commands answer at Ok only of a journal that stands whole:
//!
//! - `window` prints a true plan of a stretch of time after the named entry, or after the last. Where an entry is named, it also
//!   prints what becomes of the plan at the last entry (`IsWindowOf`).
//! - `rules` prints what a waiting rule chooses after the last entry and what that costs, beside a true plan (`IsComparisonOf`).
//! - `journey` prints a list of journeys that answers the query in the least timetable after the last entry.
//!
//! At Refused, the text tells that there is no such entry as `window` names, or that an activity makes no choice that `window`
//! could hold. At Bad, it tells the first line of the journal that breaks its rule. For each command but `follow` it may instead
//! be the first line that is not whole.
//!
//! `ends`: each other status has its cause, too.
//!
//! - A refusal is the first of the files, or a text that is too long, or what `window` refuses (an entry that there is not, or an
//!   activity without a choice to hold), or the text of a run in which a feed is too long.
//! - A read fault is of a file or of a text of which the shelf, as handed in, does not tell that it is sound. Or it is the text
//!   of a run in which a log ends with a fault, under a name of which the shelf does not tell that it is sound.
//! - After a write fault the sink's count has risen, and a proper front of a text that was due was taken.
//! - At want of memory the words ask for something, and nothing was written. What boards show then is said only of words that ask
//!   for no run.
//!
//! `generated`: words that ask for a generated day come to Ok, to a write fault or to want of memory. `outside`: words that ask
//! for nothing come to the usage line or to a write fault.
//!
//! The next promises hold where the shelf tells its map:
//!
//! - `first_refusal`: the first refusal of the files is answered, except for the faults that go before and want of memory. For a
//!   cycle, any one may be shown.
//! - `long_text` and `judged`: behind good files, the refusal of an over-long text, or else the verdict on the text, is answered
//!   in the same way.
//! - `complete_check`: a text that is not too long, good files, a sound shelf and a sink without a fault give a verdict or want
//!   of memory. The text of a true run then gives Ok or want of memory (`run_texts_are_good`).
//! - `answered` and `complete_query` say the same of a question to a journal and its answer.
//! - `complete`: good words, files and feeds, a sound shelf and a sink without a fault give Ok or want of memory.
//!
//! Whatever the status: `shelf_kept` (the shelf tells what it told), `later` (the sink's count has not fallen), `boards_kept`
//! (the list has its boards' stops in their order), and `boards_left` (words that ask for no run leave all boards as they were).
#![tactic(auto)]

mod top;
mod windows;

pub use dm_commands::{BoardList, Ending, Status};
pub use top::dispatch;
