//! The cases, one line each.

use std::alloc::{AllocError, Global};
use std::str::FromStr;

/// A text that is checked, and the verdict that is due.
#[derive(Drop)]
pub struct Case {
    pub name: String,

    /// The verdict in print.
    pub due: String,

    /// The words of the command that checks the text.
    pub words: Vec<String>,
}

impl Case {
    /// The case of a line, or `None` where the line is a comment or has not the form
    /// `NAME VERDICT FIRST SECOND NETWORK PENALTY`, with a number of plans behind it or none.
    pub fn of(alloc: Global, line: &str) -> Result<Option<Case>, AllocError> {
        let mut parts = line.split_whitespace();
        let (Some(name), Some(verdict), Some(first), Some(second)) = (
            parts.next(),
            parts.next(),
            parts.next(),
            parts.next(),
        ) else {
            return Ok(None);
        };
        let (Some(network), Some(penalty)) = (parts.next(), parts.next()) else {
            return Ok(None);
        };
        let mut words = Vec::new(alloc);
        words.push(String::from_str(alloc, "check")?)?;
        words.push(format!(in alloc; "networks/{network}/net")?)?;
        words.push(format!(in alloc; "texts/{name}")?)?;
        words.push(format!(in alloc; "--penalty={penalty}")?)?;
        if let Some(plans) = parts.next() {
            words.push(format!(in alloc; "--plans={plans}")?)?;
        }
        Ok(Some(Case {
            name: String::from_str(alloc, name)?,
            due: format!(in alloc; "{verdict} {first} {second}")?,
            words,
        }))
    }
}
