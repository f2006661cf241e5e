//! Whole runs whose threads are held up, whose calls fail in turn, and whose boards are files, as data.
//!
//! It stands on dm_program for what it tries, on dm_boards and dm_outside for what a run is handed, and on dm_samples. It promises
//! nothing. Runs in which nothing is held up and nothing fails are cases of dm_runs.
//!
//! It reads the file `cases`, one case a line: its name, its folder under `runs`, that of its network under `networks`, its kind,
//! its numbers, and the words of the command line. All files are read first, and are then in memory. For each case it prints
//! `NAME ok`, or where it came out otherwise. The kinds:
//!
//! - `calls` lets each call fail that the file `calls` of the folder lists: an opening, a read of a file, a write, the show of a
//!   board. It compares the status, the text and what the boards show. `faults` does so too, and lets each write fail in turn. Then
//!   what is due where nothing fails is the file of the case's name.
//! - `long` lets each file of the network be too long.
//! - `meet` lets two threads wait for each other at the point of the gate that the number says; `search` lets a line of the second
//!   feed be answered while a worker searches for the first.
//! - `count` counts the nodes that workers expand: each of them starts and ends once. `slow` holds up each worker until all others
//!   have expanded one: if one never steals, the case fails after so many looks.
//! - `often` makes a run again and again, and checks each text.
//! - `boards` compares what boards in files hold.
//!
//! What is due was worked out by hand, or is what `dispatch-tools judge` finds good, and holds however the threads take turns.
#![tactic(auto)]

mod case;
mod faults;
mod files;
mod gates;
mod task;
mod threads;

use case::Case;
use dm_outside::Board;
use dm_samples::{Failure, read_file, report};
use faults::{each_call_fails, each_file_is_too_long, each_write_fails};
use files::{FILES, board_in_file, files_hold};
use gates::Meets;
use std::fs::{self, File};
use std::rt::Files;
use std::sync::Wait;
use std::thread::Threads;
use std::{io, str};
use task::Task;
use threads::{each_text_is_good, nodes_are_expanded, two_meet};

fn main(rt: HostRuntime) -> io::Result<()> {
    for name in FILES {
        fs::write(&rt, name, b"")?;
    }
    let Some(listing) = read_file(&rt, "cases") else {
        return println!(rt; "there is no list of cases");
    };
    let Ok(text) = str::from_utf8(&listing) else {
        return println!(rt; "the list of cases is no text");
    };
    for line in text.lines() {
        let Some(case) = Case::of(rt.alloc(), line)? else {
            continue;
        };
        if case.kind == "boards" {
            let mut boards: Vec<Box<dyn Board>> = Vec::new(rt.alloc());
            boards.push(board_in_file(rt, FILES[0], 2)?)?;
            boards.push(board_in_file(rt, FILES[1], 4)?)?;
            let task = Task::of(&rt, &case)?;
            report(&rt, case.name, files_hold(&rt, &case, &task, &mut boards)?)?;
        } else {
            report(&rt, case.name, outcome_of(&rt, &case))?;
        }
    }
    Ok(())
}

/// How a case comes out.
fn outcome_of<R: Threads + Wait + Sync + AllocGlobal + Files<File = File>>(
    rt: &R,
    case: &Case<'_>,
) -> Result<(), Failure> {
    let mut task = Task::of(rt, case)?;
    match case.kind {
        "calls" => each_call_fails(rt, case, &task),
        "faults" => {
            each_call_fails(rt, case, &task)?;
            each_write_fails(rt, case, &task)
        }
        "long" => each_file_is_too_long(rt, case),
        "meet" => two_meet(rt, case, &task, Meets::At(case.number(0).min(9) as u32)),
        "search" => two_meet(rt, case, &task, Meets::InSearch),
        "count" => nodes_are_expanded(rt, case, &task, false),
        "slow" => nodes_are_expanded(rt, case, &task, true),
        "often" => each_text_is_good(rt, case, &mut task),
        _ => Err(Failure::NoDay),
    }
}
