//! What the words of a command line ask for.
ghost use Rattle.std.specs.Prelude.{ℕ, ◌∷◌, List, map, string_bytes, MatchOption};
ghost use Rattle.dm_words.specs.Words.{Asks, AsksCheck, AsksGen, AsksNothing, AsksRun, CheckAsked, GenAsked, IsBatch, HasBoards, QueryAsked, QueryOf, RunAsked};
ghost use Rattle.dm_words.specs.Asked.{check_of, command_of, gen_of, run_of};

use crate::files::{FileWords, number_of, number_or, penalty_of, read_files};
use crate::ids::{Ids, ids_of};
use crate::options::{
    BATCH_OPTION, BOARDS_OPTION, Kind, Names, are_known, count_names, given, next_name, two_names,
};
use crate::queries::{QueryWords, kind_of_word, read_query, workers_of};
use dm_base::limits::{BOARDS, FEEDS};

/// The most lines of a feed that are answered in a round, and how many where the words do not say it.
pub const BATCH: u64 = 1_000_000;

pub const STANDARD_BATCH: u64 = 16;

/// The most trains of a generated day.
pub const TRAINS: u64 = 2_000;

/// The largest number of a generated day.
pub const LARGEST_NUMBER: u64 = 18_446_744_073_709_551_615;

/// The words of a run.
#[derive(Drop)]
pub struct RunWords<'a> {
    pub files: FileWords<'a>,

    /// The names of the feeds, as they are opened: 1 to 64.
    pub feeds: Names<'a>,

    /// How many lines of each feed are answered in a round, from 1 to 1,000,000.
    pub batch: u64,

    /// How many workers search for a plan, from 1 to 16.
    pub workers: u32,

    /// The stops of the boards, at most 64.
    pub boards: Ids<'a>,
}

/// The words of a check.
#[derive(Drop)]
pub struct CheckWords<'a> {
    pub files: FileWords<'a>,

    /// The name of the text, as it is opened.
    pub text: &'a str,
}

/// The words of a generated day.
#[derive(Clone, Copy, PartialEq, Eq, Debug)]
pub struct GenWords {
    pub number: u64,

    /// How many trains, from 1 to 2,000.
    pub trains: u64,

    /// Seconds for each passenger of a missed change, at most `PENALTY`.
    pub penalty: u64,
}

/// What words ask for.
#[derive(Drop)]
pub enum CommandWords<'a> {
    Run(RunWords<'a>),
    Check(CheckWords<'a>),
    Gen(GenWords),
    Query(QueryWords<'a>),
}

/// How many lines of each feed are answered in a round.
fn batch_of(words: &[String]) -> Option<u64>
    ensures { MatchOption result ((n : ℕ) → IsBatch (map string_bytes words.now) n → ⊥) (λ n. IsBatch (map string_bytes words.now) n) }
{
    let Some(batch) = given(BATCH_OPTION, words) else {
        return None;
    };
    number_or(batch, 1, BATCH, STANDARD_BATCH)
}

/// The stops of the boards.
pub fn stops_of(words: &[String]) -> Option<Ids<'_>>
    ensures { MatchOption result ((stops : List ℕ) → HasBoards (map string_bytes words.now) stops → ⊥)
        (λ stops. HasBoards (map string_bytes words.now) stops) }
{
    let Some(boards) = given(BOARDS_OPTION, words) else {
        return None;
    };
    ids_of(boards, BOARDS)
}

/// What the words behind `run` ask for.
fn read_run(words: &[String]) -> Option<RunWords<'_>>
    ensures { MatchOption result ((asked : RunAsked) → AsksRun (map string_bytes words.now) asked → ⊥)
        (λ run. AsksRun (map string_bytes words.now) (run_of run)) }
{
    if !are_known(Kind::Run, words) {
        return None;
    }
    let Some((folder, rest)) = next_name(words) else {
        return None;
    };
    let feeds = count_names(rest);
    if feeds == 0 || feeds > FEEDS {
        return None;
    }
    let Some(files) = read_files(folder, words) else {
        return None;
    };
    let Some(batch) = batch_of(words) else {
        return None;
    };
    let Some(workers) = workers_of(words) else {
        return None;
    };
    let Some(boards) = stops_of(words) else {
        return None;
    };
    Some(RunWords {
        files,
        feeds: Names { words: rest },
        batch,
        workers: workers as u32,
        boards,
    })
}

/// What the words behind `check` ask for.
fn read_check(words: &[String]) -> Option<CheckWords<'_>>
    ensures { MatchOption result ((asked : CheckAsked) → AsksCheck (map string_bytes words.now) asked → ⊥)
        (λ check. AsksCheck (map string_bytes words.now) (check_of check)) }
{
    if !are_known(Kind::Check, words) {
        return None;
    }
    let Some((folder, text)) = two_names(words) else {
        return None;
    };
    let Some(files) = read_files(folder, words) else {
        return None;
    };
    Some(CheckWords { files, text })
}

/// What the words behind `gen` ask for.
fn read_gen(words: &[String]) -> Option<GenWords>
    ensures { MatchOption result ((asked : GenAsked) → AsksGen (map string_bytes words.now) asked → ⊥)
        (λ day. AsksGen (map string_bytes words.now) (gen_of day)) }
{
    if !are_known(Kind::Gen, words) {
        return None;
    }
    let Some((number, trains)) = two_names(words) else {
        return None;
    };
    let Some(number) = number_of(number, 0, LARGEST_NUMBER) else {
        return None;
    };
    let Some(trains) = number_of(trains, 1, TRAINS) else {
        return None;
    };
    let Some(penalty) = penalty_of(words) else {
        return None;
    };
    Some(GenWords {
        number,
        trains,
        penalty,
    })
}

/// What a command word and the words behind it ask for.
fn read_with<'a>(command: &str, rest: &'a [String]) -> Option<CommandWords<'a>>
    ensures { MatchOption result (AsksNothing (command.now ∷ map string_bytes rest.now))
        (λ asked. Asks (command.now ∷ map string_bytes rest.now) (command_of asked)) }
{
    if command == "run" {
        return match read_run(rest) {
            Some(run) => Some(CommandWords::Run(run)),
            None => None,
        };
    }
    if command == "check" {
        return match read_check(rest) {
            Some(check) => Some(CommandWords::Check(check)),
            None => None,
        };
    }
    if command == "gen" {
        return match read_gen(rest) {
            Some(day) => Some(CommandWords::Gen(day)),
            None => None,
        };
    }
    read_other(command, rest)
}

/// What a command word that asks something of a journal, and the words behind it, ask for.
fn read_other<'a>(command: &str, rest: &'a [String]) -> Option<CommandWords<'a>>
    ensures asks { MatchOption result ((asked : QueryAsked) → Asks (command.now ∷ map string_bytes rest.now) (QueryOf asked) → ⊥)
        (λ asked. Asks (command.now ∷ map string_bytes rest.now) (command_of asked)) }
{
    let Some(kind) = kind_of_word(command) else {
        return None;
    };
    match read_query(kind, rest) {
        Some(query) => Some(CommandWords::Query(query)),
        None => None,
    }
}

/// What the words ask for, which are those without the program's name, or nothing where they are in no form.
/// A word `--NAME=VALUE` is an option wherever it stands behind the command word.
pub fn read_words(words: &[String]) -> Option<CommandWords<'_>>
    ensures { MatchOption result (AsksNothing (map string_bytes words.now))
        (λ asked. Asks (map string_bytes words.now) (command_of asked)) }
{
    let Some((command, rest)) = words.split_first() else {
        return None;
    };
    read_with(command.as_str(), rest)
}
