//! The messages of a case.

use dm_feed::{MessageFault, read_message};
use dm_rows::Message;
use dm_samples::{Case, Failure};
use std::alloc::{AllocError, Global};

/// What is said of a case, as texts with ` + ` between them.
#[derive(Clone, Copy)]
pub struct Said<'a> {
    /// What is said in turn.
    pub turn: &'a str,

    /// What is said behind it.
    pub last: &'a str,

    /// What is said before it.
    pub first: &'a str,
}

impl<'a> Said<'a> {
    pub fn of(case: &Case<'a>) -> Said<'a> {
        let (turn, rest) = case.text.split_once(" | ").unwrap_or((case.text, ""));
        let (last, first) = rest.split_once(" | ").unwrap_or((rest, ""));
        Said { turn, last, first }
    }
}

/// The messages of a text.
pub fn messages_of(alloc: Global, text: &str) -> Result<Vec<Message>, Failure> {
    let mut messages = Vec::new(alloc);
    if text.is_empty() {
        return Ok(messages);
    }
    for piece in text.split(" + ") {
        match messages.push(message_of(alloc, piece)?) {
            Ok(()) => {}
            Err(failed) => return Err(AllocError::from(failed).into()),
        }
    }
    Ok(messages)
}

/// The message of a text.
pub fn message_of(alloc: Global, text: &str) -> Result<Message, Failure> {
    match read_message(alloc, text.as_bytes()) {
        Ok(message) => Ok(message),
        Err(MessageFault::OutOfMemory) => Err(Failure::OutOfMemory),
        Err(MessageFault::Form) => Err(Failure::NoDay),
    }
}
