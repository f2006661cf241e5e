//! Words that are done over files in memory.
ghost use Rattle.std.specs.Prelude.{◌≡◌, ◌<◌, ◌≤◌, vec_len};
ghost use Rattle.dm_base.specs.declared.limits.TheConstants.{BOARDS};

use crate::case::Case;
use dm_outside::{Board, Gate, MemFile, MemShelf, MemSink};
use dm_program::{Status, dispatch};
use std::alloc::AllocError;
use std::fs::File;
use std::rt::Files;
use std::sync::Wait;
use std::thread::Threads;

/// The bytes of the files that words may name, and the text that is due where nothing fails. A file that is not there is empty.
pub struct Task {
    pub events: Vec<u8>,
    pub activities: Vec<u8>,
    pub event_delays: Vec<u8>,
    pub activity_delays: Vec<u8>,
    first: Vec<u8>,
    second: Vec<u8>,
    pub text: Vec<u8>,
    pub due: Vec<u8>,
}

impl Drop for Task {
    fn drop(self) {
        let Task {
            events: _,
            activities: _,
            event_delays: _,
            activity_delays: _,
            first: _,
            second: _,
            text: _,
            due: _,
        } = self;
    }
}

impl Task {
    /// The files of a case. What is due stands in the file of its name, or else in the file `due`.
    pub fn of<R: AllocGlobal + Files<File = File>>(
        rt: &R,
        case: &Case<'_>,
    ) -> Result<Task, AllocError> {
        let due = case.own_file(rt, case.name)?;
        Ok(Task {
            events: case.file(rt, EVENTS)?,
            activities: case.file(rt, ACTIVITIES)?,
            event_delays: case.own_file(rt, EVENT_DELAYS)?,
            activity_delays: case.own_file(rt, ACTIVITY_DELAYS)?,
            first: case.own_file(rt, "f")?,
            second: case.own_file(rt, "g")?,
            text: case.own_file(rt, "t")?,
            due: if due.is_empty() {
                case.own_file(rt, "due")?
            } else {
                due
            },
        })
    }
}

pub const EVENTS: &str = "net/Events-expanded.giv";

pub const ACTIVITIES: &str = "net/Activities-expanded.giv";

pub const EVENT_DELAYS: &str = "net/d";

pub const ACTIVITY_DELAYS: &str = "net/e";

/// A call that fails, where there is one: the `open` or `write` of this number from 1, the show of a board such as `show-2`, or
/// the read of a file by its name.
#[derive(Clone, Copy)]
pub struct Fault<'a> {
    pub call: &'a str,
    pub numbers: [u64; 1],
}

/// A fault that never comes.
pub const NONE: Fault<'static> = Fault {
    call: "none",
    numbers: [0],
};

impl Fault<'_> {
    /// Which calls of a kind fail.
    pub fn of(&self, call: &str) -> &[u64] {
        if self.call == call {
            &self.numbers
        } else {
            &[]
        }
    }
}

/// How many bytes a read gives, or a write takes, at most.
#[derive(Clone, Copy)]
pub enum Pieces {
    /// A few.
    Small,

    /// As many as there are.
    Large,
}

impl Pieces {
    /// So few, or as many as there are.
    fn most(self, few: usize) -> usize
        requires { 0 < few }
        ensures { 0 < result }
    {
        match self {
            Pieces::Small => few,
            Pieces::Large => ROOM,
        }
    }
}

/// How many bytes a write takes at most where it takes a few.
pub const WRITTEN: usize = 5;

/// The most bytes of a text.
const ROOM: usize = 1_000_000;

/// What goes wrong outside, and how much comes at a time.
#[derive(Clone, Copy)]
pub struct Outside<'a> {
    pub fault: Fault<'a>,
    pub pieces: Pieces,
}

/// Does what words ask for over the files of a task, and gives the status and what was written.
pub fn run_task<R: Threads + Wait + Sync + AllocGlobal, G: Gate>(
    rt: &R,
    words: &[String],
    task: &Task,
    outside: &Outside<'_>,
    gate: &G,
    boards: &mut Vec<Box<dyn Board>>,
) -> Result<(Status, Vec<u8>), AllocError>
    requires { vec_len boards.old ≤ BOARDS }
{
    let (fault, pieces) = (&outside.fault, outside.pieces);
    let piece = pieces.most(64);
    let files = [
        file(EVENTS, &task.events, piece, fault),
        file(ACTIVITIES, &task.activities, piece, fault),
        file(EVENT_DELAYS, &task.event_delays, piece, fault),
        file(ACTIVITY_DELAYS, &task.activity_delays, piece, fault),
        file("f", &task.first, pieces.most(7), fault),
        file("g", &task.second, pieces.most(5), fault),
        file("t", &task.text, piece, fault),
    ];
    let mut shelf = MemShelf::new(&files, fault.of("open"));
    let writes = Vec::from_slice(rt.alloc(), fault.of("write"))?;
    let mut sink = MemSink::new(rt.alloc(), ROOM, pieces.most(WRITTEN), writes)?;
    let status = dispatch(rt, rt.alloc(), words, &mut shelf, boards, gate, &mut sink);
    Ok((status, sink.taken().to_vec(rt.alloc())?))
}

/// A file in memory, of which the reads fail that a fault names by it.
fn file<'a>(name: &'a str, bytes: &'a [u8], piece: usize, fault: &'a Fault<'_>) -> MemFile<'a>
    requires { 0 < piece }
    ensures name { result.name.now ≡ name.now }
    ensures piece { 0 < result.piece }
{
    MemFile {
        name,
        bytes,
        piece,
        fails: fault.of(name),
    }
}
