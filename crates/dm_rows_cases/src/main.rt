//! Changes of days as data: what no run makes, and as many of one kind as are timed.
//!
//! Each line of the file `cases` is a case: a kind, a name, a network, a count, and messages. The program prints the line and what
//! comes of it. The messages of a case are those that are said in turn, that many of them as the count says, those that are said
//! behind them, and those that are said before; ` | ` stands between the three. `changes` makes them on an engine, `moves`
//! decides and takes back on an evaluator, `entries` enters them into a table, and `replay` replays each of them once. `network`
//! makes a network alone, and `generated` prints what stands at places of a generated day.
//!
//! `dm_rows_cases NAME COUNT` takes the cases of that name alone, with that count. The time is taken from outside.
//!
//! What is due was worked out by hand. The last train of the day starts 600 seconds late. Each leg has 30 seconds to spare under
//! way and 30 at the stop behind it. So the train arrives 570, 510, .. 30 seconds late: 3,000 seconds over ten legs, with ten
//! passengers each time, which is 30,000 passenger seconds. Five passengers miss the dropped change, at 3,600 seconds each: 18,000
//! passenger seconds, which is all that the decisions leave. In thousandths that is 48,000,000 and 18,000,000. The event of the
//! pair that passes last is 110 seconds late. The ten seconds to spare behind it leave 100, for one passenger: 100,000.
//!
//! It stands on the crates that it calls, and on dm_samples for cases and small networks. It promises nothing.
#![tactic(auto)]

mod engines;
mod entries;
mod evaluators;
mod generated;
mod messages;
mod networks;
mod replays;

use dm_samples::{Case, Failure, read_file, report};
use engines::told_of_changes;
use entries::told_of_entries;
use evaluators::told_of_moves;
use generated::told_of_generated;
use networks::told_of_network;
use replays::told_of_replay;
use std::alloc::Global;
use std::fs::File;
use std::rt::{Env, Files};
use std::{env, io, str};

/// The cases of a name alone, with this count.
#[derive(Drop)]
struct Asked {
    name: String,
    count: u64,
}

fn main(rt: HostRuntime) -> io::Result<()> {
    let asked = read_words(&rt)?;
    let Some(listing) = read_file(&rt, "cases") else {
        return println!(rt; "there is no list of cases");
    };
    let Ok(text) = str::from_utf8(&listing) else {
        return println!(rt; "the list of cases is no text");
    };
    for line in text.lines() {
        if let Some(case) = Case::of(line) {
            print_case(&rt, &asked, line, &case)?;
        }
    }
    Ok(())
}

/// What the words of the command line ask for, or `None` where there are none.
fn read_words<R: Env + AllocGlobal>(rt: &R) -> io::Result<Option<Asked>> {
    let mut args = env::args(rt)?;
    let _program = args.next();
    match (args.next(), args.next()) {
        (Some(name), Some(count)) => Ok(Some(Asked {
            name,
            count: count.parse().unwrap_or(0),
        })),
        _ => Ok(None),
    }
}

/// Prints a case that is asked for, and what comes of it.
fn print_case<R: Print + AllocGlobal + Files<File = File>>(
    rt: &R,
    asked: &Option<Asked>,
    line: &str,
    case: &Case<'_>,
) -> io::Result<()> {
    let count = match asked {
        Some(asked) if asked.name.as_str() != case.word(0) => return Ok(()),
        Some(asked) => asked.count,
        None => case.number(2),
    };
    println!(rt; "{line}")?;
    match told_of(rt.alloc(), case, count) {
        Ok(told) => println!(rt; "  {told}"),
        Err(failure) => report(rt, case.kind, Err::<(), Failure>(failure)),
    }
}

fn told_of(alloc: Global, case: &Case<'_>, count: u64) -> Result<String, Failure> {
    match case.kind {
        "changes" => told_of_changes(alloc, case, count),
        "moves" => told_of_moves(alloc, case, count),
        "entries" => told_of_entries(alloc, case, count),
        "replay" => told_of_replay(alloc, case),
        "network" => told_of_network(alloc, case),
        "generated" => told_of_generated(alloc, case),
        _ => Err(Failure::NoDay),
    }
}
