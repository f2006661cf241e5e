//! Feeds that come in pieces, and of which a read fails.

use dm_feed::{Heard, LineReader, Next};
use dm_outside::MemSource;
use dm_samples::{Case, Failure};
use std::alloc::Global;

/// More lines than a feed can have.
const LINES: u32 = 1_000_000;

/// Due lines, told in stretches: those of a stretch stand one behind the other, and are all heard or all malformed.
#[derive(Drop)]
struct DueLines {
    before: String,
    first: u32,
    last: u32,
    malformed: bool,
}

impl DueLines {
    fn new(alloc: Global) -> DueLines {
        DueLines {
            before: String::new(alloc),
            first: 0,
            last: 0,
            malformed: false,
        }
    }

    fn add(&mut self, alloc: Global, line: u32, malformed: bool) -> Result<(), Failure> {
        let goes_on = self.last > 0 && self.last.checked_add(1) == Some(line);
        if !goes_on || self.malformed != malformed {
            self.before = self.told(alloc)?;
            self.first = line;
            self.malformed = malformed;
        }
        self.last = line;
        Ok(())
    }

    /// All of them, each stretch with a comma behind it.
    fn told(&self, alloc: Global) -> Result<String, Failure> {
        let (before, first, last) = (self.before.as_str(), self.first, self.last);
        let how = if self.malformed { "malformed" } else { "heard" };
        if last == 0 {
            Ok(String::new(alloc))
        } else if first == last {
            Ok(format!(in alloc; "{before}{first} {how}, ")?)
        } else {
            Ok(format!(in alloc; "{before}{first} to {last} {how}, ")?)
        }
    }
}

/// The due lines of a feed, how it stops, and what comes behind the stop. The case says how many bytes come at a time, and which
/// read fails.
pub fn told_of_feed(alloc: Global, case: &Case<'_>, bytes: &[u8]) -> Result<String, Failure> {
    let piece = (case.number(0) as usize).max(1);
    let fails = [case.number(1)];
    let mut reader = LineReader::new(MemSource::new(bytes, piece, &fails));
    let mut lines = DueLines::new(alloc);
    for _line in 0..LINES {
        match reader.next() {
            Next::Due { line, heard } => lines.add(alloc, line, heard == Heard::Malformed)?,
            Next::Stop(stop) => {
                let told = lines.told(alloc)?;
                let again = reader.next() == Next::Stop(stop);
                return Ok(format!(in alloc; "{told}{stop:?}, and again: {again}")?);
            }
        }
    }
    Err(Failure::TooFew)
}
