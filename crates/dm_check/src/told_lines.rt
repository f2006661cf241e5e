//! The next line of a text, read as each kind of record. A line that is cut or misshapen stops the judgement.
ghost use Rattle.dm_cert.specs.PlanTexts.{IsVersion};
ghost use Rattle.dm_records.specs.RunLines.{IsNumberLine, IsVersionLine, IsEntryLine, IsOpeningLine, IsStopLine, IsNoteLine, IsTimeLine, IsWordLine, IsItemLine};
ghost use Rattle.dm_records.specs.Readings.{numbered, opening, note, timed, IsReadAs};
ghost use Rattle.dm_check.specs.FalseRecords.{Reads};
ghost use Rattle.dm_check.specs.Judged.{Judges, Judged, JudgedThat};

use crate::faults::{Fault, Stop};
use crate::verdicts::BadKind;
use dm_feed::FeedStop;
use dm_records::{
    EntryLine, LogLine, NoteLine, OpeningLine, TimeLine, entry_line, is_word_line, item_line,
    note_line, number_line, opening_line, stop_line, time_line, version_line,
};
use dm_text::Lines;
use std::alloc::{AllocError, Global};

/// The version of the text.
pub(crate) fn version_told(lines: &mut Lines) -> Result<u32, Fault>
    ensures { Judges (Reads IsVersionLine) (λ v. v) lines.old lines.new result }
{
    let line = lines.line();
    let Some(bytes) = lines.next_line() else {
        return Err(Fault {
            line,
            kind: BadKind::Truncated,
        });
    };
    let Some(value) = version_line(bytes) else {
        return Err(Fault {
            line,
            kind: BadKind::Form,
        });
    };
    Ok(value)
}

/// The number behind the words.
pub(crate) fn number_told(lines: &mut Lines, words: &str) -> Result<u128, Fault>
    ensures { Judges (Reads (IsNumberLine words.now)) (λ n. n) lines.old lines.new result }
{
    let line = lines.line();
    let Some(bytes) = lines.next_line() else {
        return Err(Fault {
            line,
            kind: BadKind::Truncated,
        });
    };
    let Some(value) = number_line(bytes, words) else {
        return Err(Fault {
            line,
            kind: BadKind::Form,
        });
    };
    Ok(value)
}

/// The words alone.
pub(crate) fn word_told(lines: &mut Lines, words: &str) -> Result<(), Fault>
    ensures { Judges (Reads (IsWordLine words.now)) (λ said. said) lines.old lines.new result }
{
    let line = lines.line();
    let Some(bytes) = lines.next_line() else {
        return Err(Fault {
            line,
            kind: BadKind::Truncated,
        });
    };
    let Some(value) = is_word_line(bytes, words) else {
        return Err(Fault {
            line,
            kind: BadKind::Form,
        });
    };
    Ok(value)
}

/// The first line of a log.
pub(crate) fn opening_told(lines: &mut Lines) -> Result<OpeningLine, Fault>
    ensures { Judges (Reads IsOpeningLine) opening lines.old lines.new result }
{
    let line = lines.line();
    let Some(bytes) = lines.next_line() else {
        return Err(Fault {
            line,
            kind: BadKind::Truncated,
        });
    };
    let Some(value) = opening_line(bytes) else {
        return Err(Fault {
            line,
            kind: BadKind::Form,
        });
    };
    Ok(value)
}

/// How a log ends.
pub(crate) fn stop_told(lines: &mut Lines) -> Result<FeedStop, Fault>
    ensures { Judges (Reads IsStopLine) (λ stop. stop) lines.old lines.new result }
{
    let line = lines.line();
    let Some(bytes) = lines.next_line() else {
        return Err(Fault {
            line,
            kind: BadKind::Truncated,
        });
    };
    let Some(value) = stop_line(bytes) else {
        return Err(Fault {
            line,
            kind: BadKind::Form,
        });
    };
    Ok(value)
}

/// The note of a board.
pub(crate) fn note_told(lines: &mut Lines) -> Result<NoteLine, Fault>
    ensures { Judges (Reads IsNoteLine) note lines.old lines.new result }
{
    let line = lines.line();
    let Some(bytes) = lines.next_line() else {
        return Err(Fault {
            line,
            kind: BadKind::Truncated,
        });
    };
    let Some(value) = note_line(bytes) else {
        return Err(Fault {
            line,
            kind: BadKind::Form,
        });
    };
    Ok(value)
}

/// An event and its time.
pub(crate) fn time_told(lines: &mut Lines) -> Result<TimeLine, Fault>
    ensures { Judges (Reads IsTimeLine) timed lines.old lines.new result }
{
    let line = lines.line();
    let Some(bytes) = lines.next_line() else {
        return Err(Fault {
            line,
            kind: BadKind::Truncated,
        });
    };
    let Some(value) = time_line(bytes) else {
        return Err(Fault {
            line,
            kind: BadKind::Form,
        });
    };
    Ok(value)
}

/// An entry with its number.
pub(crate) fn entry_told(alloc: Global, lines: &mut Lines) -> Result<EntryLine, Stop>
    ensures { Judged (Reads IsEntryLine) numbered lines.old lines.new result }
{
    let line = lines.line();
    let Some(bytes) = lines.next_line() else {
        return Err(Stop::Fault(Fault {
            line,
            kind: BadKind::Truncated,
        }));
    };
    match entry_line(alloc, bytes) {
        Ok(Some(value)) => Ok(value),
        Ok(None) => Err(Stop::Fault(Fault {
            line,
            kind: BadKind::Form,
        })),
        Err(AllocError) => Err(Stop::OutOfMemory),
    }
}

/// The first line of a log's item, in a version.
pub(crate) fn item_told(alloc: Global, lines: &mut Lines, version: u32) -> Result<LogLine, Stop>
    requires { IsVersion version }
    ensures { JudgedThat (Reads (IsItemLine version)) IsReadAs lines.old lines.new result }
{
    let line = lines.line();
    let Some(bytes) = lines.next_line() else {
        return Err(Stop::Fault(Fault {
            line,
            kind: BadKind::Truncated,
        }));
    };
    match item_line(alloc, version, bytes) {
        Ok(Some(value)) => Ok(value),
        Ok(None) => Err(Stop::Fault(Fault {
            line,
            kind: BadKind::Form,
        })),
        Err(AllocError) => Err(Stop::OutOfMemory),
    }
}
