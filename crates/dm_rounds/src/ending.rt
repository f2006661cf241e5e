//! Feeds that have ended.

ghost use Rattle.std.specs.Prelude.{◌≡◌, ◌≤◌, [], ℕ, true, false, Some, slice_get, length, map, vec_capacity};
ghost use Rattle.dm_rounds.specs.Inside.Jobs.{HasEnded, stop_in, log_in};

use crate::jobs::{Job, Progress};
use dm_base::Items;
use dm_cert::FeedLog;
use dm_feed::FeedStop;

/// Whether all feeds have ended.
pub fn have_ended<S>(jobs: &[Box<Job<S>>]) -> bool
    ensures ended { result ≡ true → (k : ℕ) (job : _) → slice_get jobs.now k ≡ Some job → HasEnded job.value.progress }
    ensures some_left { result ≡ false → ((k : ℕ) (job : _) → slice_get jobs.now k ≡ Some job → HasEnded job.value.progress) → ⊥ }
{
    for job in jobs {
        if let Progress::Reading(_) = job.progress {
            return false;
        }
    }
    true
}

/// The logs of feeds that are read no further, in room for as many. It takes no memory.
pub fn logs_of<S: Drop>(jobs: Vec<Box<Job<S>>>, mut logs: Vec<FeedLog>) -> Vec<FeedLog>
    requires none { logs.items ≡ [] }
    requires room { length jobs.items ≤ vec_capacity logs }
    ensures { result.items ≡ map log_in (map (λ b. b.value) jobs.items) }
{
    for job in jobs {
        logs.push_reserved(log_of(Box::into_inner(job)));
    }
    logs
}

/// The log of a feed that is read no further.
fn log_of<S: Drop>(job: Job<S>) -> FeedLog
    ensures { result ≡ log_in job }
{
    let stop = stop_of(&job.progress);
    FeedLog {
        items: Items::from_vec(job.log),
        stop,
    }
}

fn stop_of<S>(progress: &Progress<S>) -> FeedStop
    ensures { result ≡ stop_in progress.now }
{
    match progress {
        Progress::Reading(_) => FeedStop::End,
        Progress::Ended(stop) => *stop,
    }
}
