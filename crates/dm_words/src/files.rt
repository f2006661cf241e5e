//! The words of the files of a folder.
ghost use Rattle.std.specs.Prelude.{ℕ, ◌≡◌, Option, Some, None, Ok, map, string_bytes, MatchOption, unwrap_or};
ghost use Rattle.std.specs.Option.{option_map};
ghost use Rattle.dm_lintim.specs.Columns.{FileColumns, ReadsFileColumns};
ghost use Rattle.dm_words.specs.Values.{IsNumber, IsNumberOr};
ghost use Rattle.dm_words.specs.Words.{AsksFiles, FilesAsked, HasPlans, IsPenalty, event_words, activity_words};
ghost use Rattle.dm_words.specs.Asked.{files_of};

use crate::options::{
    ACTIVITY_COLUMNS, ACTIVITY_DELAYS, CANCELLED_OPTION, EVENT_COLUMNS, EVENT_DELAYS,
    PENALTY_OPTION, PLANS_OPTION, given,
};
use dm_base::limits::PENALTY;
use dm_base::read_whole;
use dm_lintim::Columns;

/// The penalty where the words give none, in seconds for each passenger.
pub const STANDARD_PENALTY: u64 = 3_600;

/// The most plans that a feed may have, and how many where the words do not say it.
pub const PLANS: u64 = 4_096;

pub const STANDARD_PLANS: u64 = 16;

/// The columns of the files where the words give none.
const STANDARD_EVENTS: &str = "id,periodic-id,type,time,weight,stop";

const STANDARD_ACTIVITIES: &str = "id,periodic-id,type,tail,head,lower,upper,weight";

/// The number that a text spells, from `least` to `most`.
pub fn number_of(text: &str, least: u64, most: u64) -> Option<u64>
    ensures { MatchOption result ((n : ℕ) → IsNumber text.now least most n → ⊥) (λ n. IsNumber text.now least most n) }
{
    match read_whole(text.as_bytes()) {
        Ok(number) if least <= number && number <= most => Some(number),
        _ => None,
    }
}

/// The number that a value spells, from `least` to `most`, or the standard one where no value is given.
pub fn number_or(given: Option<&str>, least: u64, most: u64, standard: u64) -> Option<u64>
    ensures { MatchOption result ((n : ℕ) → IsNumberOr (option_map (λ x. x.now) given.entry) least most standard n → ⊥)
        (λ n. IsNumberOr (option_map (λ x. x.now) given.entry) least most standard n) }
{
    match given {
        Some(text) => number_of(text, least, most),
        None => Some(standard),
    }
}

/// The penalty that the words give.
pub fn penalty_of(words: &[String]) -> Option<u64>
    ensures { MatchOption result ((n : ℕ) → IsPenalty (map string_bytes words.now) n → ⊥) (λ n. IsPenalty (map string_bytes words.now) n) }
{
    let Some(penalty) = given(PENALTY_OPTION, words) else {
        return None;
    };
    number_or(penalty, 0, PENALTY, STANDARD_PENALTY)
}

/// How many plans a feed may have.
fn plans_of(words: &[String]) -> Option<u64>
    ensures { MatchOption result ((n : ℕ) → HasPlans (map string_bytes words.now) n → ⊥) (λ n. HasPlans (map string_bytes words.now) n) }
{
    let Some(plans) = given(PLANS_OPTION, words) else {
        return None;
    };
    number_or(plans, 1, PLANS, STANDARD_PLANS)
}

/// The text that is given, or else the standard one.
fn text_or<'a>(given: Option<&'a str>, standard: &'static str) -> &'a str
    ensures { result.now ≡ unwrap_or (option_map (λ x. x.now) given.entry) standard.now }
{
    match given {
        Some(text) => text,
        None => standard,
    }
}

/// The columns that the two values name.
fn columns_of(events: Option<&str>, activities: Option<&str>) -> Option<Columns>
    ensures { MatchOption result ((columns : FileColumns)
        → ReadsFileColumns (event_words (option_map (λ x. x.now) events.entry)) (activity_words (option_map (λ x. x.now) activities.entry))
        (Ok columns) → ⊥)
        (λ columns. ReadsFileColumns (event_words (option_map (λ x. x.now) events.entry))
        (activity_words (option_map (λ x. x.now) activities.entry)) (Ok columns)) }
{
    match Columns::read(
        text_or(events, STANDARD_EVENTS),
        text_or(activities, STANDARD_ACTIVITIES),
    ) {
        Ok(columns) => Some(columns),
        Err(_) => None,
    }
}

/// What words say of the files of a folder: the folder, and the options that go with the files.
#[derive(Drop)]
pub struct FileWords<'a> {
    pub folder: &'a str,

    /// Seconds for each passenger of a missed change, at most `PENALTY`.
    pub penalty: u64,

    /// How many plans a feed may have, from 1 to 4,096.
    pub plans: u32,
    pub columns: Columns,

    /// The name of a file of the folder.
    pub event_delays: Option<&'a str>,

    /// The name of a file of the folder.
    pub activity_delays: Option<&'a str>,

    /// The name of a file of the folder.
    pub cancelled: Option<&'a str>,
}

/// What the words say of the files of this folder.
pub fn read_files<'a>(folder: &'a str, words: &'a [String]) -> Option<FileWords<'a>>
    ensures { MatchOption result ((asked : FilesAsked) → asked.folder ≡ folder.now → AsksFiles (map string_bytes words.now) asked → ⊥)
        (λ files. (folder.now ≡ files.folder.now) × AsksFiles (map string_bytes words.now) (files_of files)) }
{
    let Some(penalty) = penalty_of(words) else {
        return None;
    };
    let Some(plans) = plans_of(words) else {
        return None;
    };
    let Some(events) = given(EVENT_COLUMNS, words) else {
        return None;
    };
    let Some(activities) = given(ACTIVITY_COLUMNS, words) else {
        return None;
    };
    let Some(columns) = columns_of(events, activities) else {
        return None;
    };
    let Some(event_delays) = given(EVENT_DELAYS, words) else {
        return None;
    };
    let Some(activity_delays) = given(ACTIVITY_DELAYS, words) else {
        return None;
    };
    let Some(cancelled) = given(CANCELLED_OPTION, words) else {
        return None;
    };
    Some(FileWords {
        folder,
        penalty,
        plans: plans as u32,
        columns,
        event_delays,
        activity_delays,
        cancelled,
    })
}
