//! The cases, one line each.

use dm_samples::read_file;
use std::alloc::{AllocError, Global};
use std::fs::File;
use std::rt::Files;

/// What is tried: words over the files of a folder and of a network, in a way that its kind and some numbers say.
#[derive(Drop)]
pub struct Case<'a> {
    pub name: &'a str,
    folder: &'a str,
    network: &'a str,
    pub kind: &'a str,
    numbers: Vec<u64>,
    pub words: Vec<String>,
}

impl<'a> Case<'a> {
    /// The case of a line, or `None` where the line is a comment or has not the form
    /// `NAME FOLDER NETWORK KIND NUMBERS WORD..`. The numbers are separated by commas, and `-` is none.
    pub fn of(alloc: Global, line: &'a str) -> Result<Option<Case<'a>>, AllocError> {
        let mut parts = line.split_whitespace();
        let (Some(name), Some(folder), Some(network)) = (parts.next(), parts.next(), parts.next())
        else {
            return Ok(None);
        };
        let (Some(kind), Some(list)) = (parts.next(), parts.next()) else {
            return Ok(None);
        };
        let mut words = Vec::new(alloc);
        for word in parts {
            words.push(String::from_str(alloc, word)?)?;
        }
        Ok(Some(Case {
            name,
            folder,
            network,
            kind,
            numbers: numbers(alloc, list)?,
            words,
        }))
    }

    /// The number at a place, or 0.
    pub fn number(&self, place: usize) -> u64 {
        self.numbers.get(place).copied().unwrap_or(0)
    }

    /// The bytes of a file of its folder, or none where it is not there.
    pub fn own_file<R: AllocGlobal + Files<File = File>>(
        &self,
        rt: &R,
        name: &str,
    ) -> Result<Vec<u8>, AllocError> {
        let folder = self.folder;
        let path = format!(in rt.alloc(); "runs/{folder}/{name}")?;
        Ok(bytes_at(rt, &path))
    }

    /// The bytes of a file of its folder or of its network, or none where it is in neither.
    pub fn file<R: AllocGlobal + Files<File = File>>(
        &self,
        rt: &R,
        name: &str,
    ) -> Result<Vec<u8>, AllocError> {
        let own = self.own_file(rt, name)?;
        if !own.is_empty() {
            return Ok(own);
        }
        let network = self.network;
        let path = format!(in rt.alloc(); "networks/{network}/{name}")?;
        Ok(bytes_at(rt, &path))
    }
}

/// The bytes of a file, or none where they cannot be read.
fn bytes_at<R: AllocGlobal + Files<File = File>>(rt: &R, path: &str) -> Vec<u8> {
    match read_file(rt, path) {
        Some(bytes) => bytes,
        None => Vec::new(rt.alloc()),
    }
}

fn numbers(alloc: Global, list: &str) -> Result<Vec<u64>, AllocError> {
    let mut numbers = Vec::new(alloc);
    for item in list.split(',') {
        if let Ok(number) = item.parse::<u64>() {
            numbers.push(number)?;
        }
    }
    Ok(numbers)
}
