//! The cases, one line each.

use std::alloc::{AllocError, Global};
use std::str::FromStr;

/// A run: words over the files of a network and of its own, and the status that is due.
#[derive(Drop)]
pub struct Case<'a> {
    pub name: &'a str,
    pub network: &'a str,
    pub status: u8,
    pub words: Vec<String>,
}

impl<'a> Case<'a> {
    /// The case of a line, or `None` where the line is a comment or has not the form
    /// `NAME NETWORK STATUS WORD..`.
    pub fn of(alloc: Global, line: &'a str) -> Result<Option<Case<'a>>, AllocError> {
        let mut parts = line.split_whitespace();
        let (Some(name), Some(network), Some(status)) = (parts.next(), parts.next(), parts.next())
        else {
            return Ok(None);
        };
        let Ok(status) = status.parse::<u8>() else {
            return Ok(None);
        };
        let mut words = Vec::new(alloc);
        for word in parts {
            words.push(String::from_str(alloc, word)?)?;
        }
        Ok(Some(Case {
            name,
            network,
            status,
            words,
        }))
    }
}
