//! Plans that are read from texts and printed again.

use dm_base::limits::TEXT;
use dm_cert::{CertFault, CertKind, print_plan, print_solved, read_plan, read_solved};
use dm_outside::MemSink;
use dm_samples::{Case, Failure, in_one_line};
use dm_tree::Plan;
use std::alloc::Global;

/// The most bytes that are printed, and the most that one write takes.
const ROOM: usize = 1_000_000;

const PIECE: usize = 4_096;

/// The number of the entry whose rows a plan is for.
const ENTRY: u32 = 1;

/// A plan that is read, and how long its text is, or what is wrong.
type ReadPlan = Result<(Plan, usize), CertFault>;

/// The plan at the front of the bytes, in the version of the case: how many bytes it takes, and how it is printed.
pub fn told_of_plan(alloc: Global, case: &Case<'_>, bytes: &[u8]) -> Result<String, Failure> {
    match plan_of(alloc, case.number(0) == 1, bytes)? {
        Ok((plan, used)) => told_of_printed(alloc, used, &printed(alloc, &plan)?),
        Err(fault) => told_of_fault(alloc, fault),
    }
}

/// The plan at the front of the bytes in the first version or in the second.
pub fn plan_of(alloc: Global, is_first: bool, bytes: &[u8]) -> Result<ReadPlan, Failure> {
    if bytes.len() > TEXT {
        Err(Failure::NoDay)
    } else if is_first {
        Ok(read_plan(alloc, 1, ENTRY, bytes))
    } else {
        Ok(read_plan(alloc, 2, ENTRY, bytes))
    }
}

/// What is printed of a plan.
pub fn printed(alloc: Global, plan: &Plan) -> Result<MemSink, Failure> {
    let mut sink = MemSink::new(alloc, ROOM, PIECE, Vec::new(alloc))?;
    match print_plan(plan, &mut sink) {
        Ok(()) => Ok(sink),
        Err(_) => Err(Failure::NoDay),
    }
}

/// The same of a plan by parts.
pub fn told_of_solved(alloc: Global, bytes: &[u8]) -> Result<String, Failure> {
    if bytes.len() > TEXT {
        return Err(Failure::NoDay);
    }
    match read_solved(alloc, ENTRY, bytes) {
        Ok((plan, used)) => {
            let mut sink = MemSink::new(alloc, ROOM, PIECE, Vec::new(alloc))?;
            match print_solved(&plan, &mut sink) {
                Ok(()) => told_of_printed(alloc, used, &sink),
                Err(_) => Err(Failure::NoDay),
            }
        }
        Err(fault) => told_of_fault(alloc, fault),
    }
}

/// How many bytes a text takes, and what is printed again.
pub fn told_of_printed(alloc: Global, used: usize, printed: &MemSink) -> Result<String, Failure> {
    let text = in_one_line(alloc, printed.taken())?;
    Ok(format!(in alloc; "{used} bytes {text}")?)
}

/// The line that is wrong, and how.
pub fn told_of_fault(alloc: Global, fault: CertFault) -> Result<String, Failure> {
    let (line, kind) = (fault.line, word_of(fault.kind));
    Ok(format!(in alloc; "line {line} {kind}")?)
}

fn word_of(kind: CertKind) -> &'static str {
    match kind {
        CertKind::Form => "form",
        CertKind::Truncated => "truncated",
        CertKind::NotATree => "not-a-tree",
        CertKind::OutOfMemory => "out-of-memory",
    }
}
