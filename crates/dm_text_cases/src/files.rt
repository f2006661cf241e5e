//! Files of events, activities, delays and ids, and words of columns.

use dm_base::limits::FILE;
use dm_lintim::{Columns, FileFault, read_activities, read_delays, read_events, read_ids};
use dm_samples::{Case, Failure};
use std::alloc::Global;
use std::str::FromStr;

/// The columns of activities where those of events alone are tried.
const ACTIVITIES: &str = "id,type,tail,head,lower,weight";

/// The rows of a file of events, in the columns of the case or in the standard ones.
pub fn told_of_events(alloc: Global, case: &Case<'_>, bytes: &[u8]) -> Result<String, Failure> {
    if bytes.len() > FILE {
        return Err(Failure::NoDay);
    }
    let columns = match Columns::read(case.word(0), ACTIVITIES) {
        Ok(columns) => columns,
        Err(_) => Columns::standard(),
    };
    match read_events(alloc, bytes, &columns) {
        Ok(rows) => Ok(format!(in alloc; "{rows:?}")?),
        Err(fault) => told_of_fault(alloc, fault),
    }
}

pub fn told_of_activities(alloc: Global, bytes: &[u8]) -> Result<String, Failure> {
    if bytes.len() > FILE {
        return Err(Failure::NoDay);
    }
    match read_activities(alloc, bytes, &Columns::standard()) {
        Ok(rows) => Ok(format!(in alloc; "{rows:?}")?),
        Err(fault) => told_of_fault(alloc, fault),
    }
}

pub fn told_of_delays(alloc: Global, bytes: &[u8]) -> Result<String, Failure> {
    if bytes.len() > FILE {
        return Err(Failure::NoDay);
    }
    match read_delays(alloc, bytes) {
        Ok(rows) => Ok(format!(in alloc; "{rows:?}")?),
        Err(fault) => told_of_fault(alloc, fault),
    }
}

pub fn told_of_ids(alloc: Global, bytes: &[u8]) -> Result<String, Failure> {
    if bytes.len() > FILE {
        return Err(Failure::NoDay);
    }
    match read_ids(alloc, bytes) {
        Ok(ids) => Ok(format!(in alloc; "{ids:?}")?),
        Err(fault) => told_of_fault(alloc, fault),
    }
}

fn told_of_fault(alloc: Global, fault: FileFault) -> Result<String, Failure> {
    Ok(format!(in alloc; "{fault:?}")?)
}

/// Whether the text of a case names columns of events, and its word columns of activities.
pub fn told_of_columns(alloc: Global, case: &Case<'_>) -> Result<String, Failure> {
    match Columns::read(case.text, case.word(0)) {
        Ok(_columns) => Ok(String::from_str(alloc, "columns")?),
        Err(fault) => Ok(format!(in alloc; "{fault:?}")?),
    }
}
