//! What the words of a command line ask of the journal of a text.
ghost use Rattle.std.specs.Prelude.{ℕ, ◌≡◌, List, map, filter, string_bytes, Option, MatchOption};
ghost use Rattle.dm_words.specs.Asked.{query_of};
ghost use Rattle.dm_words.specs.Options.{is_name};
ghost use Rattle.dm_words.specs.Queries.{AsksJourney, AsksOwn, AsksRules, AsksWindow, HasChanges, HasEntry, HasHeld, HasMinimal, HasWorkers, IsRule, MayHaveNumber, kind_of, word_of};
ghost use Rattle.dm_words.specs.Words.{AsksQuery, QueryAsked};

use crate::files::{FileWords, number_of, number_or, read_files};
use crate::ids::{Ids, ids_of};
use crate::options::{
    AT_OPTION, CHANGES_OPTION, HELD_OPTION, Kind, MINIMAL_OPTION, QueryKind, SOLVE_OPTION,
    WORKERS_OPTION, are_known, given, has_flag, next_name, three_names, two_names,
};
use dm_base::limits::{BUDGET, PASSED_TIME, TIME, WORKERS};

/// The most changes of a journey, and how many where the words do not say it.
pub const CHANGES: u64 = 8;

pub const STANDARD_CHANGES: u64 = 4;

/// The most activities whose choices a window holds.
pub const HELD: usize = 4_096;

/// The largest number of an entry.
pub const LARGEST_ENTRY: u64 = 1_000_000;

/// The largest worth below which choices are given back.
pub const LARGEST_WORTH: u64 = 18_446_744_073_709_551_615;

/// The largest number of a stop.
pub const LARGEST_STOP: u64 = 4_294_967_295;

/// The longest wait of a rule, in seconds.
pub const LONGEST_WAIT: u64 = 1_000_000;

/// How many workers search where the words do not say it.
pub const STANDARD_WORKERS: u64 = 1;

/// How long the heads of changes wait.
#[derive(Clone, Copy, PartialEq, Eq, Debug)]
pub enum RuleWord {
    Never,
    Always,

    /// So many seconds, at most `LONGEST_WAIT`.
    AtMost(u64),
}

/// A waiting rule, set beside a plan.
#[derive(Clone, Copy, PartialEq, Eq, Debug)]
pub struct RulesWords {
    pub rule: RuleWord,

    /// The most nodes of the plan's tree, from 1 to `BUDGET`.
    pub budget: u64,

    /// How many workers search, from 1 to 16.
    pub workers: u32,

    /// Whether the plan is one by parts.
    pub solve: bool,
}

/// A journey from one stop to another.
#[derive(Clone, Copy, PartialEq, Eq, Debug)]
pub struct JourneyWords {
    pub from: u32,
    pub to: u32,

    /// The first departure is at this time or later, in seconds, at most `PASSED_TIME`.
    pub after: u64,

    /// The most changes, from 0 to 8.
    pub changes: u32,
}

/// A plan of a stretch of scheduled time, in seconds, with both of its ends.
#[derive(Drop)]
pub struct WindowWords<'a> {
    /// At most `TIME`, and no later than `to`.
    pub from: u64,

    /// At most `TIME`.
    pub to: u64,

    /// How many nodes the plan may have, from 1 to 16,384.
    pub budget: u64,

    /// The entry for whose rows the plan is made, at most 1,000,000, or the last one.
    pub at: Option<u32>,

    /// The ids of activities whose choices are held, at most 4,096.
    pub held: Ids<'a>,

    /// In thousandths of passenger seconds: choices that are worth less are given back, or none are.
    pub minimal: Option<u64>,

    /// Whether the plan is one by parts.
    pub solve: bool,
}

/// What is asked of a journal.
#[derive(Drop)]
pub enum Query<'a> {
    /// The timetable after the entries that the text carries.
    Follow,

    /// A plan of a stretch of time.
    Window(WindowWords<'a>),

    /// What a waiting rule chooses after the last entry, beside a plan.
    Rules(RulesWords),

    /// How a passenger travels in the timetable after the last entry.
    Journey(JourneyWords),
}

/// The words of a question to the journal of a text.
#[derive(Drop)]
pub struct QueryWords<'a> {
    pub files: FileWords<'a>,

    /// The name of the text, as it is opened.
    pub text: &'a str,
    pub query: Query<'a>,
}

/// What the command word asks of a journal, if it asks something of one.
pub fn kind_of_word(command: &str) -> Option<QueryKind>
    ensures { MatchOption result ((kind : _) → command.now ≡ word_of kind → ⊥) (λ kind. command.now ≡ word_of kind) }
{
    if command == "follow" {
        return Some(QueryKind::Follow);
    }
    if command == "window" {
        return Some(QueryKind::Window);
    }
    if command == "rules" {
        return Some(QueryKind::Rules);
    }
    if command == "journey" {
        return Some(QueryKind::Journey);
    }
    None
}

/// The waiting rule of a word.
fn rule_of(word: &str) -> Option<RuleWord>
    ensures { MatchOption result ((rule : _) → IsRule word.now rule → ⊥) (λ rule. IsRule word.now rule) }
{
    if word == "never" {
        return Some(RuleWord::Never);
    }
    if word == "always" {
        return Some(RuleWord::Always);
    }
    match number_of(word, 0, LONGEST_WAIT) {
        Some(seconds) => Some(RuleWord::AtMost(seconds)),
        None => None,
    }
}

/// How many workers search.
pub fn workers_of(words: &[String]) -> Option<u64>
    ensures { MatchOption result ((n : ℕ) → HasWorkers (map string_bytes words.now) n → ⊥)
        (λ n. HasWorkers (map string_bytes words.now) n) }
{
    let Some(workers) = given(WORKERS_OPTION, words) else {
        return None;
    };
    number_or(workers, 1, WORKERS as u64, STANDARD_WORKERS)
}

/// The rule and the plan that the names behind a text, and the options among the words, ask for.
fn read_rules(names: &[String], words: &[String]) -> Option<RulesWords>
    ensures { MatchOption result ((rules : _) → AsksRules rules (filter is_name (map string_bytes names.now)) (map string_bytes words.now)
        → ⊥)
        (λ rules. AsksRules rules (filter is_name (map string_bytes names.now)) (map string_bytes words.now)) }
{
    let Some((rule, budget)) = two_names(names) else {
        return None;
    };
    let Some(rule) = rule_of(rule) else {
        return None;
    };
    let Some(budget) = number_of(budget, 1, BUDGET) else {
        return None;
    };
    let Some(workers) = workers_of(words) else {
        return None;
    };
    let Some(solve) = has_flag(SOLVE_OPTION, words) else {
        return None;
    };
    Some(RulesWords {
        rule,
        budget,
        workers: workers as u32,
        solve,
    })
}

/// The most changes of a journey.
fn changes_of(words: &[String]) -> Option<u64>
    ensures { MatchOption result ((n : ℕ) → HasChanges (map string_bytes words.now) n → ⊥)
        (λ n. HasChanges (map string_bytes words.now) n) }
{
    let Some(changes) = given(CHANGES_OPTION, words) else {
        return None;
    };
    number_or(changes, 0, CHANGES, STANDARD_CHANGES)
}

/// The journey that the names behind a text, and the options among the words, ask for.
fn read_journey(names: &[String], words: &[String]) -> Option<JourneyWords>
    ensures { MatchOption result ((journey : _)
        → AsksJourney journey (filter is_name (map string_bytes names.now)) (map string_bytes words.now) → ⊥)
        (λ journey. AsksJourney journey (filter is_name (map string_bytes names.now)) (map string_bytes words.now)) }
{
    let Some((from, to, after)) = three_names(names) else {
        return None;
    };
    let Some(from) = number_of(from, 0, LARGEST_STOP) else {
        return None;
    };
    let Some(to) = number_of(to, 0, LARGEST_STOP) else {
        return None;
    };
    let Some(after) = number_of(after, 0, PASSED_TIME) else {
        return None;
    };
    let Some(changes) = changes_of(words) else {
        return None;
    };
    Some(JourneyWords {
        from: from as u32,
        to: to as u32,
        after,
        changes: changes as u32,
    })
}

/// The number that the words give an option, at most `most`, if they give it one.
fn optional(option: &str, most: u64, words: &[String]) -> Option<Option<u64>>
    ensures { MatchOption result ((n : Option ℕ) → MayHaveNumber option.now most (map string_bytes words.now) n → ⊥)
        (λ n. MayHaveNumber option.now most (map string_bytes words.now) n) }
{
    let Some(value) = given(option, words) else {
        return None;
    };
    match value {
        Some(text) => match number_of(text, 0, most) {
            Some(number) => Some(Some(number)),
            None => None,
        },
        None => Some(None),
    }
}

/// The entry that the words name, if they name one.
fn at_of(words: &[String]) -> Option<Option<u32>>
    ensures { MatchOption result ((at : Option ℕ) → HasEntry (map string_bytes words.now) at → ⊥)
        (λ at. HasEntry (map string_bytes words.now) at) }
{
    let Some(at) = optional(AT_OPTION, LARGEST_ENTRY, words) else {
        return None;
    };
    match at {
        Some(at) => Some(Some(at as u32)),
        None => Some(None),
    }
}

/// Below which worth choices are given back, if the words say it.
fn minimal_of(words: &[String]) -> Option<Option<u64>>
    ensures { MatchOption result ((minimal : Option ℕ) → HasMinimal (map string_bytes words.now) minimal → ⊥)
        (λ minimal. HasMinimal (map string_bytes words.now) minimal) }
{
    optional(MINIMAL_OPTION, LARGEST_WORTH, words)
}

/// The activities whose choices are held.
fn held_of(words: &[String]) -> Option<Ids<'_>>
    ensures { MatchOption result ((held : List ℕ) → HasHeld (map string_bytes words.now) held → ⊥)
        (λ held. HasHeld (map string_bytes words.now) held) }
{
    let Some(held) = given(HELD_OPTION, words) else {
        return None;
    };
    ids_of(held, HELD)
}

/// The window that the names behind a text, and the options among the words, ask for.
fn read_window<'a>(names: &'a [String], words: &'a [String]) -> Option<WindowWords<'a>>
    ensures { MatchOption result ((window : _)
        → AsksWindow window (filter is_name (map string_bytes names.now)) (map string_bytes words.now) → ⊥)
        (λ window. AsksWindow window (filter is_name (map string_bytes names.now)) (map string_bytes words.now)) }
{
    let Some((from, to, budget)) = three_names(names) else {
        return None;
    };
    let Some(from) = number_of(from, 0, TIME) else {
        return None;
    };
    let Some(to) = number_of(to, from, TIME) else {
        return None;
    };
    let Some(budget) = number_of(budget, 1, BUDGET) else {
        return None;
    };
    let Some(at) = at_of(words) else {
        return None;
    };
    let Some(held) = held_of(words) else {
        return None;
    };
    let Some(minimal) = minimal_of(words) else {
        return None;
    };
    let Some(solve) = has_flag(SOLVE_OPTION, words) else {
        return None;
    };
    Some(WindowWords {
        from,
        to,
        budget,
        at,
        held,
        minimal,
        solve,
    })
}

/// What the names behind a text, and the options among the words, ask of its journal.
fn read_own<'a>(kind: QueryKind, names: &'a [String], words: &'a [String]) -> Option<Query<'a>>
    ensures { MatchOption result ((query : _) → kind_of query ≡ kind
        → AsksOwn query (filter is_name (map string_bytes names.now)) (map string_bytes words.now) → ⊥)
        (λ query. (kind_of query ≡ kind) × AsksOwn query (filter is_name (map string_bytes names.now)) (map string_bytes words.now)) }
{
    match kind {
        QueryKind::Follow => match next_name(names) {
            Some(_) => None,
            None => Some(Query::Follow),
        },
        QueryKind::Window => match read_window(names, words) {
            Some(window) => Some(Query::Window(window)),
            None => None,
        },
        QueryKind::Rules => match read_rules(names, words) {
            Some(rules) => Some(Query::Rules(rules)),
            None => None,
        },
        QueryKind::Journey => match read_journey(names, words) {
            Some(journey) => Some(Query::Journey(journey)),
            None => None,
        },
    }
}

/// What the words behind the command word ask of the journal of a text.
pub fn read_query(kind: QueryKind, words: &[String]) -> Option<QueryWords<'_>>
    ensures { MatchOption result ((asked : QueryAsked) → kind_of asked.query ≡ kind → AsksQuery (map string_bytes words.now) asked → ⊥)
        (λ query. (kind_of query.query ≡ kind) × AsksQuery (map string_bytes words.now) (query_of query)) }
{
    if !are_known(Kind::Query(kind), words) {
        return None;
    }
    let Some((folder, behind_folder)) = next_name(words) else {
        return None;
    };
    let Some((text, names)) = next_name(behind_folder) else {
        return None;
    };
    let Some(query) = read_own(kind, names, words) else {
        return None;
    };
    let Some(files) = read_files(folder, words) else {
        return None;
    };
    Some(QueryWords { files, text, query })
}
