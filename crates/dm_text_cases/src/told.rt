//! What is told, in one line.

use dm_outside::{MemSink, WriteFault};
use dm_samples::{Failure, in_one_line};
use std::alloc::Global;

/// What was told one after the other, each once with the number of times that it came in a row.
#[derive(Drop)]
pub struct InARow {
    before: String,
    last: String,
    times: u64,
}

impl InARow {
    pub fn new(alloc: Global) -> InARow {
        InARow {
            before: String::new(alloc),
            last: String::new(alloc),
            times: 0,
        }
    }

    pub fn add(&mut self, alloc: Global, told: String) -> Result<(), Failure> {
        if self.times > 0 && self.last.as_str() != told.as_str() {
            self.before = self.joined(alloc)?;
            self.times = 0;
        }
        self.last = told;
        self.times = self.times.saturating_add(1);
        Ok(())
    }

    /// All of it.
    pub fn told(&self, alloc: Global) -> Result<String, Failure> {
        self.joined(alloc)
    }

    fn joined(&self, alloc: Global) -> Result<String, Failure> {
        let (last, times) = (self.last.as_str(), self.times);
        if self.before.is_empty() {
            return Ok(format!(in alloc; "{times} times {last}")?);
        }
        let before = self.before.as_str();
        Ok(format!(in alloc; "{before}, {times} times {last}")?)
    }
}

/// What a sink has taken of what was put.
pub fn told_of_put(
    alloc: Global,
    put: Result<(), WriteFault>,
    sink: &MemSink,
) -> Result<String, Failure> {
    let text = in_one_line(alloc, sink.taken())?;
    match put {
        Ok(()) => Ok(text),
        Err(WriteFault) => Ok(format!(in alloc; "{text} and no more")?),
    }
}
