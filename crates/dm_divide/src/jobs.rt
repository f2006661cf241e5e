//! Parts that are solved side by side.
ghost use Rattle.std.specs.Prelude.{◌≡◌, IfOk};

use dm_branch::Part;
use dm_probe::Mover;
use std::alloc::AllocError;

/// A part that is taken out of its group, to be solved by anyone.
pub struct Job {
    pub group: usize,

    /// How many nodes its tree may have.
    pub most: usize,
    pub part: Part,
}

impl Drop for Job {
    fn drop(self) {
        let Job {
            group: _,
            most: _,
            part: _,
        } = self;
    }
}

impl Job {
    /// The job of the same group and terms, once a mover that stands at the root has expanded its tree.
    pub fn solved(self, mover: &mut Mover<'_>) -> Result<Job, AllocError>
        ensures { IfOk result (λ job. job ≡ self) }
    {
        let mut job = self;
        job.part.grow(mover, job.most)?;
        Ok(job)
    }

    /// The part.
    pub fn into_part(self) -> Part
        ensures { result ≡ self.part }
    {
        let Job {
            group: _,
            most: _,
            part,
        } = self;
        part
    }
}

/// Solves one job after the other by the first mover. The same jobs come back.
pub fn in_turn<'a>(
    jobs: Vec<Job>,
    first: &mut Mover<'a>,
    _others: &mut [Mover<'a>],
) -> Result<Vec<Job>, AllocError>
    ensures { IfOk result (λ back. back.items ≡ jobs.items) }
{
    let mut back = Vec::with_capacity(*jobs.allocator(), jobs.len())?;
    for job in jobs {
        back.push(job.solved(first)?)?;
    }
    Ok(back)
}
