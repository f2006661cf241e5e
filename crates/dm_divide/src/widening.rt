//! Parts that may branch on choices outside.

use crate::growing::Growth;
use crate::standing::Standing;
use dm_branch::Part;
use dm_rows::Choice;
use std::alloc::AllocError;

/// How far outside a part the choices are at most, and how many decisions are tried.
const STEPS: usize = 3;

const TRIES: u64 = 150_000;

/// How many nodes more a tree may have: so many times those that it has, and so many besides.
const TIMES: usize = 2;

const MORE: usize = 200;

impl Growth {
    /// Has parts that are done, and whose bound lies below the plan's cost, branch on the pairs at their border, and then on those
    /// farther out.
    pub fn widen_all(&self, standing: &mut Standing<'_>) -> Result<(), AllocError> {
        let most = standing.tried().saturating_add(TRIES);
        for steps in 0..STEPS {
            for group in &self.by_gap(standing)? {
                if standing.tried() <= most && !standing.is_open(*group) {
                    self.widen_one(standing, *group, steps)?;
                }
            }
        }
        Ok(())
    }

    /// Widens a part, if its tree then shows more.
    fn widen_one(
        &self,
        standing: &mut Standing<'_>,
        group: usize,
        steps: usize,
    ) -> Result<(), AllocError> {
        let room = self.room(standing);
        let near = standing
            .groups
            .atoms_near(group, steps, standing.whole.choices())?;
        let Some(mut part) = standing.groups.take(group) else {
            return Ok(());
        };
        let more = standing.pairs_outside(&near, &part)?;
        let (excess, nodes) = (part.excess(), part.size());
        let allowed = nodes.saturating_mul(TIMES).saturating_add(MORE).min(room);
        if !more.is_empty() && allowed > 1 {
            let narrow = part.widen(&more)?;
            part.grow(&mut standing.relaxed, nodes.saturating_add(allowed))?;
            if part.excess() <= excess {
                part.narrow(&narrow)?;
            }
        }
        standing.groups.put(group, part);
        Ok(())
    }
}

impl Standing<'_> {
    /// The pairs at some atoms on which a part's tree may not branch yet.
    fn pairs_outside(&self, atoms: &[usize], part: &Part) -> Result<Vec<usize>, AllocError> {
        let choices = self.whole.choices();
        let mut has = vec![in self.alloc; false; choices.len()]?;
        for number in part.candidates() {
            if let Some(flag) = has.get_mut(*number) {
                *flag = true;
            }
        }
        let mut pairs = Vec::new(self.alloc);
        for number in &self.groups.around(atoms)? {
            let is_new = has.get(*number) == Some(&false);
            match choices.get(*number) {
                Some(free) if is_new && matches!(free.choice, Choice::Pair(_, _)) => {
                    pairs.push(*number)?;
                }
                _ => {}
            }
        }
        Ok(pairs)
    }
}
