//! Texts of many lines alike.

use dm_base::read_whole;
use std::alloc::{AllocError, Global};
use std::str;

/// The text of a file, in which a line `*N LINE` stands for N lines. A file without a star is its text.
pub fn written_out(alloc: Global, file: Vec<u8>) -> Option<Vec<u8>> {
    if !file.contains(&b'*') {
        return Some(file);
    }
    let lines = str::from_utf8(&file).ok()?;
    let mut text = Vec::new(alloc);
    for line in lines.lines() {
        let (times, line) = repeated(line);
        add_lines(&mut text, times, line).ok()?;
    }
    Some(text)
}

/// How often a line stands, and the line.
fn repeated(line: &str) -> (u64, &str) {
    let Some(starred) = line.strip_prefix("*") else {
        return (1, line);
    };
    let Some((times, line)) = starred.split_once(" ") else {
        return (1, line);
    };
    match read_whole(times.as_bytes()) {
        Ok(times) => (times, line),
        Err(_) => (1, line),
    }
}

fn add_lines(text: &mut Vec<u8>, times: u64, line: &str) -> Result<(), AllocError> {
    for _time in 0..times {
        text.extend_from_slice(line.as_bytes())?;
        text.push(b'\n')?;
    }
    Ok(())
}
