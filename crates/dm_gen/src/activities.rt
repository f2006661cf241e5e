//! The activities of trains, with their ids.
ghost use Rattle.std.specs.Prelude.{◌≡◌, ◌≤◌, ◌<◌, ◌^◌, IfOk, length};
ghost use Rattle.dm_gen.specs.Activities.{with_id, numbered_from, activities_of};

use crate::links::{Link, links_of};
use dm_base::{ActId, ActRow};
use std::alloc::{AllocError, Global};

impl Link {
    // The activity that it is under an id.
    fn with_id(&self, id: u32) -> ActRow
        ensures { result ≡ with_id id self.now }
    {
        ActRow {
            id: ActId(id),
            kind: self.kind,
            tail: self.tail,
            head: self.head,
            lower: self.lower,
            weight: self.weight,
        }
    }
}

// Each with its id, from 1.
fn numbered(alloc: Global, links: &[Link]) -> Result<Vec<ActRow>, AllocError>
    requires { length links.now < 2 ^ 32 }
    ensures { IfOk result (λ rows. rows.items ≡ numbered_from 1 links.now) }
{
    let mut rows = Vec::with_capacity(alloc, links.len())?;
    for (place, link) in links.iter().enumerate() {
        rows.push(link.with_id(place as u32 + 1))?;
    }
    Ok(rows)
}

#[tactic(auto, unfolding(crate::specs::Activities::activities_of))]
pub(crate) fn activities_of(alloc: Global, trains: u32) -> Result<Vec<ActRow>, AllocError>
    requires { trains ≤ 2000 }
    ensures { IfOk result (λ rows. rows.items ≡ activities_of trains) }
{
    let links = links_of(alloc, trains)?;
    numbered(alloc, &links)
}
