//! Runs in which threads are held up, counted, or made again and again.

use crate::case::Case;
use crate::gates::{Meeting, Meets, Watch};
use crate::task::{NONE, Outside, Pieces, Task, run_task};
use dm_outside::{Board, Gate, OpenGate};
use dm_program::Status;
use dm_samples::Failure;
use std::alloc::AllocError;
use std::sync::Wait;
use std::thread::Threads;

/// Nothing fails, and all comes that there is.
pub const WHOLE: Outside<'static> = Outside {
    fault: NONE,
    pieces: Pieces::Large,
};

/// Runs a case in which two threads wait for each other, and says whether neither has waited in vain.
pub fn two_meet<R: Threads + Wait + Sync + AllocGlobal>(
    rt: &R,
    case: &Case<'_>,
    task: &Task,
    meets: Meets,
) -> Result<(), Failure> {
    let gate = Meeting::new(meets);
    ends_well(rt, case.words.as_slice(), task, &gate)?;
    gate.end()
}

/// Runs a case whose workers expand as many nodes as its first two numbers say. The third says how many workers there are.
pub fn nodes_are_expanded<R: Threads + Wait + Sync + AllocGlobal>(
    rt: &R,
    case: &Case<'_>,
    task: &Task,
    holds: bool,
) -> Result<(), Failure> {
    let gate = Watch::new(rt.alloc(), case.number(2), holds)?;
    let text = ends_well(rt, case.words.as_slice(), task, &gate)?;
    gate.end(case.number(0), case.number(1))?;
    if text.as_slice() == task.due.as_slice() {
        Ok(())
    } else {
        Err(Failure::Differs(0))
    }
}

/// Does what words ask for through a gate, and gives the text.
fn ends_well<R: Threads + Wait + Sync + AllocGlobal, G: Gate>(
    rt: &R,
    words: &[String],
    task: &Task,
    gate: &G,
) -> Result<Vec<u8>, Failure> {
    let mut boards: Vec<Box<dyn Board>> = Vec::new(rt.alloc());
    let (status, text) = run_task(rt, words, task, &WHOLE, gate, &mut boards)?;
    if status == Status::Ok {
        Ok(text)
    } else {
        Err(Failure::NoDay)
    }
}

/// Runs a case as often as its first number says, at the penalty of its second. Each text is checked, with the verdict that is due.
pub fn each_text_is_good<R: Threads + Wait + Sync + AllocGlobal>(
    rt: &R,
    case: &Case<'_>,
    task: &mut Task,
) -> Result<(), Failure> {
    let check = check_words(rt, case.number(1))?;
    for turn in 0..case.number(0) {
        task.text = ends_well(rt, case.words.as_slice(), &*task, &OpenGate)?;
        let verdict = ends_well(rt, check.as_slice(), &*task, &OpenGate)?;
        if verdict.as_slice() != task.due.as_slice() {
            return Err(Failure::Differs(turn.min(9_999) as u32));
        }
    }
    Ok(())
}

/// The words that check a text at a penalty.
fn check_words<R: AllocGlobal>(rt: &R, penalty: u64) -> Result<Vec<String>, AllocError> {
    let alloc = rt.alloc();
    let mut words = Vec::new(alloc);
    for word in ["check", "net", "t"] {
        words.push(String::from_str(alloc, word)?)?;
    }
    words.push(format!(in alloc; "--penalty={penalty}")?)?;
    Ok(words)
}
