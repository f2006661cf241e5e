//! Numbers, lines and messages.

use crate::told::told_of_put;
use dm_base::{NumFault, read_milli, read_whole};
use dm_feed::{Heard, MessageFault, print_line, print_message, read_line, read_message};
use dm_outside::MemSink;
use dm_samples::{Case, Failure};
use std::alloc::Global;
use std::str::FromStr;

/// The most bytes that are printed, and the most that one write takes.
const ROOM: usize = 200;

const PIECE: usize = 7;

pub fn told_of_whole(alloc: Global, bytes: &[u8]) -> Result<String, Failure> {
    told_of_number(alloc, read_whole(bytes))
}

pub fn told_of_milli(alloc: Global, bytes: &[u8]) -> Result<String, Failure> {
    told_of_number(alloc, read_milli(bytes))
}

fn told_of_number(alloc: Global, number: Result<u64, NumFault>) -> Result<String, Failure> {
    match number {
        Ok(number) => Ok(format!(in alloc; "{number}")?),
        Err(fault) => Ok(format!(in alloc; "{fault:?}")?),
    }
}

/// What a line says.
pub fn told_of_said(alloc: Global, bytes: &[u8]) -> Result<String, Failure> {
    let heard = read_line(bytes);
    Ok(format!(in alloc; "{heard:?}")?)
}

/// What is printed of a line.
pub fn told_of_line(alloc: Global, bytes: &[u8]) -> Result<String, Failure> {
    match read_line(bytes) {
        Heard::Blank => Ok(String::from_str(alloc, "blank")?),
        Heard::Malformed => Ok(String::from_str(alloc, "malformed")?),
        Heard::Line(line) => {
            let mut sink = MemSink::new(alloc, ROOM, PIECE, Vec::new(alloc))?;
            let put = print_line(&line, &mut sink);
            told_of_put(alloc, put, &sink)
        }
    }
}

/// What is printed of a message, where the sink has so much room as the case says.
pub fn told_of_message(alloc: Global, case: &Case<'_>, bytes: &[u8]) -> Result<String, Failure> {
    let message = match read_message(alloc, bytes) {
        Ok(message) => message,
        Err(MessageFault::OutOfMemory) => return Err(Failure::OutOfMemory),
        Err(MessageFault::Form) => return Ok(String::from_str(alloc, "no message")?),
    };
    let mut sink = MemSink::new(alloc, case.number(0) as usize, PIECE, Vec::new(alloc))?;
    let put = print_message(&message, &mut sink);
    told_of_put(alloc, put, &sink)
}
