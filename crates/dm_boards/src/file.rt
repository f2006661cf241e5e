//! A board in a file.
ghost use Rattle.std.specs.Prelude.{◌≡◌, ◌≤◌};
ghost use Rattle.dm_outside.specs.Faults.{HasRisen};

use dm_outside::{Board, Failed};
use itoa::Buffer;
use std::alloc::{AllocError, Global};
use std::fs::{File, OpenOptions};
use std::io::Write as _;
use std::marker::Model;
use std::rt::Files;

/// A board that appends a line `event; time` to a file for each change of an event that is not cancelled, and a line
/// `event; cancelled` for each event that is cancelled: so the last line of an event tells what the board shows. The file is
/// opened at the first line, and made where it is not there; what it holds stays. A show or a cancel fails where the file cannot
/// be opened or written, and for want of memory. It tells nothing of what it shows.
#[derive(Drop)]
pub struct FileBoard<R: Files<File = File> + Drop> {
    files: R,
    path: String,
    stop: u32,

    /// The file, once it is open.
    file: Option<File>,

    /// The event ids that stand there, ascending, each with its time in seconds.
    times: Vec<(u32, u64)>,

    /// The ids of the events that are shown as cancelled, ascending.
    cancelled: Vec<u32>,

    /// The lines of one show or cancel.
    lines: Vec<u8>,
    faults: u64,
}

impl<R: Files<File = File> + Drop> Model for FileBoard<R> {
    ghost use Rattle.dm_boards.specs.Value.{FileBoardValue};

    ghost Value = { FileBoardValue };

    ghost view = { λ board. record { stop = board.stop; faults = board.faults } };
}

/// The count after one fault more: it stands at its last value.
fn next_fault(faults: u64) -> u64
    ensures risen { HasRisen faults result }
    ensures later { faults ≤ result }
{
    faults.saturating_add(1)
}

impl<R: Files<File = File> + Drop> FileBoard<R> {
    /// A board of this stop in the file at a path, which it opens by this runtime.
    pub fn new(alloc: Global, files: R, path: String, stop: u32) -> FileBoard<R>
        ensures { result ≡ record { stop = stop; faults = 0 } }
    {
        FileBoard {
            files,
            path,
            stop,
            file: None,
            times: Vec::new(alloc),
            cancelled: Vec::new(alloc),
            lines: Vec::new(alloc),
            faults: 0,
        }
    }

    /// Appends the changes to the file, and keeps them.
    fn write_down(&mut self, changes: &[(u32, u64)]) -> Result<(), Failed>
        ensures { self.new ≡ self.old }
    {
        self.lines.clear();
        let Ok(()) = put_lines(&mut self.lines, &self.cancelled, changes) else {
            return Err(Failed);
        };
        self.append_lines()?;
        let Ok(()) = keep(&mut self.times, changes) else {
            return Err(Failed);
        };
        Ok(())
    }

    /// Appends a line for each event that is cancelled, and keeps which are.
    fn mark_down(&mut self, changes: &[(u32, bool)]) -> Result<(), Failed>
        ensures { self.new ≡ self.old }
    {
        self.lines.clear();
        let Ok(()) = put_marks(&mut self.lines, changes) else {
            return Err(Failed);
        };
        self.append_lines()?;
        let Ok(()) = mark_all(&mut self.cancelled, changes) else {
            return Err(Failed);
        };
        Ok(())
    }

    /// Appends the lines to the file, which nothing is done to where there are none.
    fn append_lines(&mut self) -> Result<(), Failed>
        ensures { self.new ≡ self.old }
    {
        if self.lines.is_empty() {
            return Ok(());
        }
        append(&self.files, &self.path, &mut self.file, &self.lines)
    }
}

/// Keeps of each event whether it is among the cancelled ones.
fn mark_all(cancelled: &mut Vec<u32>, changes: &[(u32, bool)]) -> Result<(), AllocError> {
    for (event, is_cancelled) in changes {
        mark(cancelled, *event, *is_cancelled)?;
    }
    Ok(())
}

/// Keeps whether an event is among the cancelled ones.
fn mark(cancelled: &mut Vec<u32>, event: u32, is_cancelled: bool) -> Result<(), AllocError> {
    match (cancelled.binary_search(&event), is_cancelled) {
        (Err(at), true) => {
            cancelled.insert(at, event)?;
            Ok(())
        }
        (Ok(at), false) => {
            cancelled.remove(at);
            Ok(())
        }
        _ => Ok(()),
    }
}

/// Puts a line for each event that is cancelled behind others.
fn put_marks(lines: &mut Vec<u8>, changes: &[(u32, bool)]) -> Result<(), AllocError> {
    let mut digits = Buffer::new();
    for (event, is_cancelled) in changes {
        if *is_cancelled {
            lines.extend_from_slice(digits.format(*event).as_bytes())?;
            lines.extend_from_slice(b"; cancelled\n")?;
        }
    }
    Ok(())
}

/// Puts the lines of the changes behind others, but for those of cancelled events.
fn put_lines(
    lines: &mut Vec<u8>,
    cancelled: &[u32],
    changes: &[(u32, u64)],
) -> Result<(), AllocError> {
    let mut digits = Buffer::new();
    for (event, time) in changes {
        if cancelled.binary_search(event).is_ok() {
            continue;
        }
        lines.extend_from_slice(digits.format(*event).as_bytes())?;
        lines.extend_from_slice(b"; ")?;
        lines.extend_from_slice(digits.format(*time).as_bytes())?;
        lines.push(b'\n')?;
    }
    Ok(())
}

/// Keeps the changes among what is shown. Each is looked for first behind the one before it, as a train's arrival and departure
/// mostly stand there.
fn keep(times: &mut Vec<(u32, u64)>, changes: &[(u32, u64)]) -> Result<(), AllocError> {
    let mut first = 0;
    for (event, time) in changes {
        first = keep_time(times, first, *event, *time)?;
    }
    Ok(())
}

/// Keeps the time of an event among those that are shown, and answers the place behind it. It looks at a place first.
fn keep_time(
    times: &mut Vec<(u32, u64)>,
    first: usize,
    event: u32,
    time: u64,
) -> Result<usize, AllocError> {
    if first < times.len() && times[first].0 == event {
        times[first].1 = time;
        return Ok(first + 1);
    }
    match times.binary_search_by_key(&event, |shown| shown.0) {
        Ok(at) => {
            times[at].1 = time;
            Ok(at + 1)
        }
        Err(at) => {
            times.insert(at, (event, time))?;
            Ok(at + 1)
        }
    }
}

/// The file at a path, open behind what it holds.
fn open<R: Files<File = File>>(files: &R, path: &str) -> Result<File, Failed> {
    let Ok(file) = OpenOptions::new()
        .append(true)
        .create(true)
        .open(files, path)
    else {
        return Err(Failed);
    };
    Ok(file)
}

/// Appends bytes to the file, which is opened where it is not open yet.
fn append<R: Files<File = File>>(
    files: &R,
    path: &str,
    file: &mut Option<File>,
    bytes: &[u8],
) -> Result<(), Failed> {
    if file.is_none() {
        *file = Some(open(files, path)?);
    }
    let Some(file) = file else {
        return Err(Failed);
    };
    let Ok(()) = file.write_all(bytes) else {
        return Err(Failed);
    };
    Ok(())
}

impl<R: Files<File = File> + Drop> Board for FileBoard<R> {
    ghost use Rattle.std.specs.Prelude.{None};

    ghost place = { λ board. board.stop };

    ghost times = { λ _. None };

    ghost flags = { λ _. None };

    ghost faults = { λ board. board.faults };

    ghost is_sound = { λ _ _. ⊥ };

    fn stop(&self) -> u32 {
        self.stop
    }

    fn show(&mut self, changes: &[(u32, u64)]) -> Result<(), Failed> {
        if changes.is_empty() {
            return Ok(());
        }
        if let Err(failed) = self.write_down(changes) {
            self.faults = next_fault(self.faults);
            return Err(failed);
        }
        Ok(())
    }

    fn cancel(&mut self, changes: &[(u32, bool)]) -> Result<(), Failed> {
        if changes.is_empty() {
            return Ok(());
        }
        if let Err(failed) = self.mark_down(changes) {
            self.faults = next_fault(self.faults);
            return Err(failed);
        }
        Ok(())
    }

    fn cancelled(&self, event: u32) -> Option<bool> {
        Some(self.cancelled.binary_search(&event).is_ok())
    }

    fn shown(&self, event: u32) -> Option<u64> {
        let at = self
            .times
            .binary_search_by_key(&event, |shown| shown.0)
            .ok()?;
        Some(self.times[at].1)
    }
}
