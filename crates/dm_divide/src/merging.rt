//! Groups that become one where their bound rises.

use crate::groups::planned_part;
use crate::standing::Standing;
use dm_base::Cost;
use dm_branch::Part;
use dm_probe::Share;
use std::alloc::AllocError;

/// How many nodes more a part may have whose bound does not rise.
const FEW: usize = 2;

/// How it ends where groups are tried as one.
#[derive(Clone, Copy, PartialEq, Eq)]
pub enum Trial {
    /// They are one.
    Merged,

    /// The bound of both together is no higher.
    Refused,

    /// It was no higher when there was no room for more nodes.
    CutShort,
}

/// What groups have together.
struct Together {
    atoms: Vec<usize>,
    share: Share,
    nodes: usize,
    excess: Cost,
}

impl Drop for Together {
    fn drop(self) {
        let Together {
            atoms: _,
            share: _,
            nodes: _,
            excess: _,
        } = self;
    }
}

impl Standing<'_> {
    /// Tries some groups as one, whose tree may have so many nodes or half as many again as they have now, while all trees have
    /// no more than are allowed.
    pub fn try_merge(
        &mut self,
        ids: &[usize],
        limit: usize,
        allowed: usize,
    ) -> Result<Trial, AllocError> {
        let together = self.together(ids)?;
        let group = self.groups.list.len();
        self.groups.place_all(&together.atoms, group);
        let room = allowed.saturating_sub(self.groups.nodes().saturating_sub(together.nodes));
        let wanted = limit.max(together.nodes.saturating_add(together.nodes / 2));
        let part = self.joined_part(&together, group, room.min(wanted).max(1))?;
        let nodes = together.nodes.saturating_add(FEW);
        let excess = part.excess();
        if excess > together.excess || (excess == together.excess && part.size() <= nodes) {
            self.merge(ids, together, part)?;
            return Ok(Trial::Merged);
        }
        self.part_again(ids);
        if part.is_done() {
            Ok(Trial::Refused)
        } else {
            Ok(Trial::CutShort)
        }
    }

    fn together(&self, ids: &[usize]) -> Result<Together, AllocError> {
        let mut together = Together {
            atoms: Vec::new(self.alloc),
            share: Share::new(self.alloc),
            nodes: 0,
            excess: 0,
        };
        for id in ids {
            if let Some(group) = self.groups.list.get(*id) {
                together.atoms.extend_from_slice(&group.atoms)?;
            }
            if let Some(part) = self.groups.part(*id) {
                together.share.take_in(part.share())?;
                together.nodes = together.nodes.saturating_add(part.size());
                together.excess = together.excess.saturating_add(part.excess());
            }
        }
        Ok(together)
    }

    /// The part of groups that are together, with a tree of at most so many nodes.
    fn joined_part(
        &mut self,
        together: &Together,
        group: usize,
        most: usize,
    ) -> Result<Part, AllocError> {
        let mut share = Share::new(self.alloc);
        share.take_in(&together.share)?;
        let choices = self.whole.choices();
        let candidates = self.groups.candidates(&together.atoms, group, choices)?;
        let mut part = planned_part(self.alloc, share, candidates, &mut self.whole)?;
        part.grow(&mut self.relaxed, most)?;
        Ok(part)
    }

    fn merge(&mut self, ids: &[usize], together: Together, part: Part) -> Result<(), AllocError> {
        let group = self.groups.list.len();
        let atoms = Vec::from_slice(self.alloc, &together.atoms)?;
        self.groups.add_group(atoms)?;
        self.groups.put(group, part);
        for id in ids {
            if let Some(old) = self.groups.list.get_mut(*id) {
                old.part = None;
                old.into = Some(group);
            }
        }
        Ok(())
    }

    /// Has the atoms of groups be theirs again.
    fn part_again(&mut self, ids: &[usize]) {
        for id in ids {
            self.groups.claim(*id);
        }
    }
}
