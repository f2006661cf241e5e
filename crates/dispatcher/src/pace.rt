//! How a server waits, and when it ends.
use dm_live_files::Gauge;
use dm_serve::Pace;
use std::fs::File;
use std::rt::{Clock, Files};
use std::time::{Duration, Instant};
use std::{fs, io, thread};

/// How many milliseconds a server waits where nothing is new.
const PAUSE: u64 = 5;

/// So many where it has many feeds, since each is looked at before the next pause.
const PAUSE_OF_MANY: u64 = 12;

/// How many feeds are not many.
const FEW: usize = 16;

/// How many pauses lie between two looks at whether the server is to end.
const PAUSES_BETWEEN: u32 = 9;

/// A pace that waits a little where nothing is new, and ends the server where a file of this name is there.
#[derive(Drop)]
pub struct FilePace<'r, R> {
    rt: &'r R,

    /// The name of the file.
    stop: &'r str,

    /// How full the journal is.
    gauge: &'r Gauge<'r, R>,

    /// How many feeds there are.
    feeds: usize,

    /// How many pauses there are still before the next look at whether the server is to end.
    pauses: u32,

    /// When the server began, where the clock told it.
    since: Option<Instant>,
}

impl<'r, R> FilePace<'r, R> {
    /// A pace that looks at its file at the first pause.
    pub fn new(
        rt: &'r R,
        stop: &'r str,
        gauge: &'r Gauge<'r, R>,
        feeds: usize,
        since: Option<Instant>,
    ) -> FilePace<'r, R> {
        FilePace {
            rt,
            stop,
            gauge,
            feeds,
            pauses: 0,
            since,
        }
    }
}

impl<R: Clock + Eprint + Files<File = File>> Pace for FilePace<'_, R> {
    // Nothing is told of what stands in a folder.
    ghost told = { λ _. Unit {0} };

    fn begin(&mut self, entries: u32) {
        self.gauge.begin();
        let _ = say_begun(
            self.rt,
            self.feeds,
            entries,
            millis_since(self.rt, self.since),
        );
    }

    fn next(&mut self) -> bool {
        let pause = if self.feeds > FEW {
            PAUSE_OF_MANY
        } else {
            PAUSE
        };
        let _ = thread::sleep(self.rt, Duration::from_millis(pause));
        if self.pauses > 0 {
            self.pauses -= 1;
            return true;
        }
        self.pauses = PAUSES_BETWEEN;
        self.gauge.look();
        fs::metadata(self.rt, self.stop).is_err()
    }
}

/// How many milliseconds went by since then, as the clock tells it.
fn millis_since<R: Clock>(rt: &R, since: Option<Instant>) -> u64 {
    let Some(since) = since else {
        return 0;
    };
    match since.elapsed(rt) {
        Ok(time) => time
            .as_secs()
            .saturating_mul(1000)
            .saturating_add(time.subsec_millis() as u64),
        Err(_) => 0,
    }
}

/// Says what a server found, and how long that took.
fn say_begun<R: Eprint>(rt: &R, feeds: usize, entries: u32, millis: u64) -> io::Result<()> {
    let word = if feeds == 1 { "feed" } else { "feeds" };
    eprintln!(rt;
        "dispatcher: serving {feeds} {word} from entry {entries} on, read back and judged in {millis} ms"
    )
}
