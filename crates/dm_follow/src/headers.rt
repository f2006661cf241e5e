//! The lines of a journal's header, each read as the next line.
ghost use Rattle.std.specs.Prelude.{◌≡◌, ℕ};
ghost use Rattle.dm_follow.specs.Inside.Reading.{StepsHeader, IsInHeader, header_line};

use crate::stages::Stage;
use dm_base::limits::{ENTRIES, FEEDS};
use dm_records::{number_line, version_line};

/// The number of a line of the header, from 1.
pub fn header_line(stage: Stage) -> u32
    ensures { result ≡ header_line stage }
{
    match stage {
        Stage::Version => 1,
        Stage::Penalty => 2,
        Stage::Feeds => 3,
        Stage::Entries { .. } => 4,
        Stage::Journal { .. } => 5,
        Stage::Failed { .. } => 0,
    }
}

/// What comes behind a line of the header, or nothing where it breaks its rule.
pub fn header_behind(stage: Stage, penalty: u64, line: &[u8]) -> Option<Stage>
    requires { IsInHeader stage }
    ensures { StepsHeader penalty stage line.now result }
{
    match stage {
        Stage::Version => version_behind(line),
        Stage::Penalty => penalty_behind(penalty, line),
        Stage::Feeds => feeds_behind(line),
        Stage::Entries { feeds } => entries_behind(feeds, line),
        Stage::Journal { .. } | Stage::Failed { .. } => unreachable!(),
    }
}

/// The version is one that there is.
fn version_behind(line: &[u8]) -> Option<Stage>
    ensures { (penalty : ℕ) → StepsHeader penalty Stage.Version line.now result }
{
    match version_line(line) {
        Some(_version) => Some(Stage::Penalty),
        None => None,
    }
}

fn penalty_behind(penalty: u64, line: &[u8]) -> Option<Stage>
    ensures { StepsHeader penalty Stage.Penalty line.now result }
{
    let Some(number) = number_line(line, "penalty ") else {
        return None;
    };
    if number == penalty as u128 {
        Some(Stage::Feeds)
    } else {
        None
    }
}

/// There are 1 to 64 feeds.
fn feeds_behind(line: &[u8]) -> Option<Stage>
    ensures { (penalty : ℕ) → StepsHeader penalty Stage.Feeds line.now result }
{
    let Some(feeds) = number_line(line, "feeds ") else {
        return None;
    };
    if feeds < 1 || feeds > FEEDS as u128 {
        return None;
    }
    Some(Stage::Entries {
        feeds: feeds as u32,
    })
}

/// There are at most 1,000,000 entries.
fn entries_behind(feeds: u32, line: &[u8]) -> Option<Stage>
    ensures { (penalty : ℕ) → StepsHeader penalty (Stage.Entries feeds) line.now result }
{
    let Some(entries) = number_line(line, "entries ") else {
        return None;
    };
    if entries > ENTRIES as u128 {
        return None;
    }
    Some(Stage::Journal {
        feeds,
        entries: entries as u32,
    })
}
