//! The rows of the files of a folder, which are opened, read and checked one after the other.
ghost use Rattle.std.specs.Prelude.{◌≡◌, ◌++◌, ◌≤◌, ◌⊎◌, ℕ, List, Option, Result, Ok, Err, Some, length, codes, string_bytes, IfOk, IfErr};
ghost use Rattle.std.specs.Option.{option_map};
ghost use Rattle.dm_base.specs.declared.limits.TheConstants.{FILE as LARGEST};
ghost use Rattle.dm_lintim.specs.Columns.{FileColumns};
ghost use Rattle.dm_lintim.specs.declared.fault.FileFault.{FileFault};
ghost use Rattle.dm_lintim.specs.Files.{ReadsEvents, ReadsActivities, ReadsDelays, ReadsIds, no_memory};
ghost use Rattle.dm_input.specs.declared.flaws.File.{File};
ghost use Rattle.dm_input.specs.declared.flaws.InputStop.{InputStop};
ghost use Rattle.dm_words.specs.Asked.{files_of};
ghost use Rattle.dm_input.specs.Input.{FileStage, FilesAnswer, NamedAnswers, file_name};
ghost use Rattle.dm_input.specs.Stops.{IsKept, StopsOpening, Takes};
ghost use Rattle.dm_input.specs.Inside.Stages.{StopsAtFile, StopsAtName, IsStopBy, AllFit, rows_in};

use crate::flaws::{File, FileFlaw, InputFlaw, InputStop};
use dm_base::limits::FILE;
use dm_base::{ActRow, DelayRow, EventRow};
use dm_lintim::{
    Columns, FileFault, FileKind, read_activities, read_delays, read_events, read_ids,
};
use dm_outside::{Shelf, TakeFault, take_all};
use dm_words::FileWords;
use std::alloc::{AllocError, Global};

/// A row of one kind of file.
pub(crate) trait FileRow: Drop {
    // What bytes read as, under the columns of the files.
    ghost reads: { FileColumns → List ℕ → Result (List Self) FileFault → Type 0 };

    fn read(alloc: Global, bytes: &[u8], columns: &Columns) -> Result<Vec<Self>, FileFault>
        requires { length bytes.now ≤ LARGEST }
        ensures rows { IfOk result (λ v. reads columns.now bytes.now (Ok v.items)) }
        ensures fault { IfErr result (λ fault. (fault ≡ no_memory) ⊎ reads columns.now bytes.now (Err fault)) };
}

impl FileRow for EventRow {
    ghost reads = { λ columns. ReadsEvents columns.events };

    fn read(alloc: Global, bytes: &[u8], columns: &Columns) -> Result<Vec<EventRow>, FileFault> {
        read_events(alloc, bytes, columns)
    }
}

impl FileRow for ActRow {
    ghost reads = { λ columns. ReadsActivities columns.activities };

    fn read(alloc: Global, bytes: &[u8], columns: &Columns) -> Result<Vec<ActRow>, FileFault> {
        read_activities(alloc, bytes, columns)
    }
}

impl FileRow for DelayRow {
    ghost reads = { λ _. ReadsDelays };

    fn read(alloc: Global, bytes: &[u8], _columns: &Columns) -> Result<Vec<DelayRow>, FileFault> {
        read_delays(alloc, bytes)
    }
}

impl FileRow for u32 {
    ghost reads = { λ _. ReadsIds };

    fn read(alloc: Global, bytes: &[u8], _columns: &Columns) -> Result<Vec<u32>, FileFault> {
        read_ids(alloc, bytes)
    }
}

/// Takes all the bytes under a name, if they are at most `limit`. `ReadFault` comes only where the name could not be opened or a
/// read failed, `TooLong` only where there are more bytes; else `Err` is want of memory.
pub fn take_name<H: Shelf>(
    alloc: Global,
    shelf: &mut H,
    name: &str,
    limit: usize,
) -> Result<Vec<u8>, TakeFault>
    ensures kept { IsKept H.files H.is_sound shelf.old shelf.new }
    ensures takes { Takes (H.files shelf.old) (H.is_sound shelf.old) name.now limit result }
{
    let Ok(mut source) = shelf.open(name) else {
        return Err(TakeFault::ReadFault);
    };
    take_all(alloc, &mut source, limit)
}

/// Why the reading stops at a file whose bytes could not be taken.
fn stop_at(file: File, fault: TakeFault) -> InputStop
    ensures read { fault ≡ TakeFault.ReadFault → result ≡ InputStop.ReadFault file }
    ensures long { fault ≡ TakeFault.TooLong → result ≡ InputStop.Refused (InputFlaw.InFile file FileFlaw.TooLong) }
    ensures memory { fault ≡ TakeFault.OutOfMemory → result ≡ InputStop.NoMemory }
{
    match fault {
        TakeFault::ReadFault => InputStop::ReadFault(file),
        TakeFault::TooLong => InputStop::Refused(InputFlaw::InFile(file, FileFlaw::TooLong)),
        TakeFault::OutOfMemory => InputStop::NoMemory,
    }
}

/// Why the reading stops at a record of a file.
fn stop_by(file: File, fault: FileFault) -> InputStop
    ensures { IsStopBy file fault result }
{
    match fault.kind {
        FileKind::OutOfMemory => InputStop::NoMemory,
        _ => InputStop::Refused(InputFlaw::InFile(file, FileFlaw::Record(fault))),
    }
}

/// The rows of the file under a name.
fn read_named<H: Shelf, R: FileRow>(
    alloc: Global,
    shelf: &mut H,
    name: &str,
    file: File,
    columns: &Columns,
) -> Result<Vec<R>, InputStop>
    ensures kept { IsKept H.files H.is_sound shelf.old shelf.new }
    ensures rows { IfOk result (λ rows. NamedAnswers (H.files shelf.old) name.now (R.reads columns.now) (Ok rows.items)) }
    ensures stops { IfErr result (StopsAtName (H.files shelf.old) (H.is_sound shelf.old) name.now file (R.reads columns.now)) }
{
    let bytes = match take_name(alloc, shelf, name, FILE) {
        Ok(bytes) => bytes,
        Err(fault) => return Err(stop_at(file, fault)),
    };
    match R::read(alloc, bytes.as_slice(), columns) {
        Ok(rows) => Ok(rows),
        Err(fault) => Err(stop_by(file, fault)),
    }
}

/// The name of a file in its folder, where the words name it.
fn name_in_folder<'x>(words: &FileWords<'x>, file: File) -> Option<&'x str>
    ensures { option_map (λ name. words.now.folder.now ++ (codes "/" ++ name.now)) result ≡ file_name (files_of words.now) file }
{
    match file {
        File::Events => Some("Events-expanded.giv"),
        File::Activities => Some("Activities-expanded.giv"),
        File::EventDelays => words.event_delays,
        File::ActivityDelays => words.activity_delays,
        File::CancelledEvents => words.cancelled,
    }
}

/// The name of a file as it is opened.
fn joined_name(alloc: Global, folder: &str, name: &str) -> Result<String, AllocError>
    ensures { IfOk result (λ joined. string_bytes joined ≡ folder.now ++ (codes "/" ++ name.now)) }
{
    let mut joined = String::from_str(alloc, folder)?;
    joined.push_str("/")?;
    joined.push_str(name)?;
    Ok(joined)
}

/// The rows of a file of the folder, none where the words name no file.
fn read_file<H: Shelf, R: FileRow>(
    alloc: Global,
    shelf: &mut H,
    words: &FileWords<'_>,
    file: File,
) -> Result<Vec<R>, InputStop>
    ensures kept { IsKept H.files H.is_sound shelf.old shelf.new }
    ensures rows { IfOk result (λ rows. FileStage (H.files shelf.old) (file_name (files_of words.now) file) file (R.reads words.now.columns)
        (Ok rows.items)) }
    ensures stops { IfErr result (StopsAtFile (H.files shelf.old) (H.is_sound shelf.old) (file_name (files_of words.now) file) file
        (R.reads words.now.columns)) }
{
    let Some(name) = name_in_folder(words, file) else {
        return Ok(Vec::new(alloc));
    };
    let Ok(name) = joined_name(alloc, words.folder, name) else {
        return Err(InputStop::NoMemory);
    };
    read_named(alloc, shelf, name.as_str(), file, &words.columns)
}

/// The rows of the files of a folder.
#[derive(Drop)]
pub(crate) struct Files {
    pub(crate) events: Vec<EventRow>,
    pub(crate) activities: Vec<ActRow>,
    pub(crate) event_delays: Vec<DelayRow>,
    pub(crate) activity_delays: Vec<DelayRow>,
    pub(crate) cancelled: Vec<u32>,
}

/// The rows of the files of a folder, in the order of reading.
pub(crate) fn read_files<H: Shelf>(
    alloc: Global,
    shelf: &mut H,
    words: &FileWords<'_>,
) -> Result<Files, InputStop>
    ensures kept { IsKept H.files H.is_sound shelf.old shelf.new }
    ensures rows { IfOk result (λ files. FilesAnswer (H.files shelf.old) (files_of words.now) (Ok (rows_in files))) }
    ensures fit { IfOk result AllFit }
    ensures stops { IfErr result (StopsOpening (H.files shelf.old) (H.is_sound shelf.old) (files_of words.now)) }
{
    let events = read_file::<H, EventRow>(alloc, shelf, words, File::Events)?;
    let activities = read_file::<H, ActRow>(alloc, shelf, words, File::Activities)?;
    let event_delays = read_file::<H, DelayRow>(alloc, shelf, words, File::EventDelays)?;
    let activity_delays = read_file::<H, DelayRow>(alloc, shelf, words, File::ActivityDelays)?;
    let cancelled = read_file::<H, u32>(alloc, shelf, words, File::CancelledEvents)?;
    Ok(Files {
        events,
        activities,
        event_delays,
        activity_delays,
        cancelled,
    })
}
