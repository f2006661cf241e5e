//! Atoms that are joined along the choices between them that cost most.

use crate::atoms::Forest;
use dm_base::Cost;
use std::alloc::{AllocError, Global};

/// How many conflicts are joined at most.
const MOST: usize = 16;

/// How strongly the choices between two atoms pull, and how many of them are conflicts. The lesser atom stands first.
#[derive(Clone, Copy)]
pub struct Bond {
    pub one: usize,
    pub two: usize,
    pub pull: Cost,
    pub conflicts: usize,
}

/// Bonds between what is joined, and how many conflicts each has within.
pub struct Bonds {
    bonds: Vec<Bond>,
    sizes: Vec<usize>,

    /// For each atom a bond with it, while bonds are counted together.
    seen: Vec<Option<usize>>,
    forest: Forest,
}

impl Drop for Bonds {
    fn drop(self) {
        let Bonds {
            bonds: _,
            sizes: _,
            seen: _,
            forest: _,
        } = self;
    }
}

impl Bonds {
    /// So many atoms with no bonds.
    pub fn new(alloc: Global, atoms: usize) -> Result<Bonds, AllocError> {
        Ok(Bonds {
            bonds: Vec::new(alloc),
            sizes: vec![in alloc; 0_usize; atoms]?,
            seen: vec![in alloc; None; atoms]?,
            forest: Forest::new(alloc, atoms)?,
        })
    }

    /// Adds a conflict within an atom.
    pub fn add_within(&mut self, atom: usize) {
        self.grow(atom, 1);
    }

    fn grow(&mut self, atom: usize, more: usize) {
        if let Some(size) = self.sizes.get_mut(atom) {
            *size = size.saturating_add(more);
        }
    }

    /// Adds a bond between two atoms, if it pulls.
    pub fn add(
        &mut self,
        a: usize,
        b: usize,
        pull: Cost,
        conflicts: usize,
    ) -> Result<(), AllocError> {
        if pull > 0 {
            self.bonds.push(Bond {
                one: a.min(b),
                two: a.max(b),
                pull,
                conflicts,
            })?;
        }
        Ok(())
    }

    /// Joins along the strongest bond while few enough conflicts come together, and gives what stands for each atom.
    pub fn join_all(&mut self, alloc: Global) -> Result<Vec<usize>, AllocError> {
        self.bonds.sort_unstable_by_key(|bond| (bond.one, bond.two));
        self.count_together();
        for _ in 0..self.sizes.len() {
            let Some(bond) = self.strongest() else {
                break;
            };
            self.join(bond);
        }
        let mut roots = Vec::new(alloc);
        for atom in 0..self.sizes.len() {
            roots.push(self.forest.root(atom))?;
        }
        Ok(roots)
    }

    fn size(&self, atom: usize) -> usize {
        self.sizes.get(atom).copied().unwrap_or(0)
    }

    /// How many conflicts a bond would bring together.
    fn joined_size(&self, bond: &Bond) -> usize {
        let both = self.size(bond.one).saturating_add(self.size(bond.two));
        both.saturating_add(bond.conflicts)
    }

    /// The bond that pulls most for the conflicts of both, the first of several.
    fn strongest(&self) -> Option<Bond> {
        let mut strongest: Option<(Cost, Bond)> = None;
        for bond in &self.bonds {
            if bond.one == bond.two || self.joined_size(bond) > MOST {
                continue;
            }
            let both = self.size(bond.one).saturating_add(self.size(bond.two));
            let pull = pull_for(bond.pull, both);
            strongest = match strongest {
                Some((most, other)) if !is_before(pull, bond, most, &other) => Some((most, other)),
                _ => Some((pull, *bond)),
            };
        }
        strongest.map(|found| found.1)
    }

    /// Joins along a bond, and counts the bonds of both with a third together.
    fn join(&mut self, bond: Bond) {
        let more = self.size(bond.two).saturating_add(bond.conflicts);
        self.grow(bond.one, more);
        self.forest.join(bond.one, bond.two);
        for other in self.bonds.iter_mut() {
            move_ends(other, bond.two, bond.one);
        }
        self.count_together_at(bond.one);
        self.forget_firsts(bond.one);
        self.bonds.retain(|other| other.one != other.two);
    }

    /// Counts bonds between the same two together, where they stand one behind the other.
    fn count_together(&mut self) {
        for k in 1..self.bonds.len() {
            let before = self.bonds.get(k.saturating_sub(1)).copied();
            if let (Some(before), Some(bond)) = (before, self.bonds.get_mut(k)) {
                if before.one == bond.one && before.two == bond.two {
                    bond.pull = bond.pull.saturating_add(before.pull);
                    bond.conflicts = bond.conflicts.saturating_add(before.conflicts);
                    self.drop_bond(k.saturating_sub(1));
                }
            }
        }
        self.bonds.retain(|bond| bond.one != bond.two);
    }

    fn drop_bond(&mut self, k: usize) {
        if let Some(bond) = self.bonds.get_mut(k) {
            bond.two = bond.one;
        }
    }

    /// Counts the bonds of an atom with the same other one together.
    fn count_together_at(&mut self, atom: usize) {
        for k in 0..self.bonds.len() {
            if let Some(bond) = self.bonds.get(k).copied() {
                if let Some(other) = other_end(&bond, atom) {
                    self.count_with_first(k, bond, other);
                }
            }
        }
    }

    /// Forgets which bonds of an atom come first.
    fn forget_firsts(&mut self, atom: usize) {
        for bond in &self.bonds {
            if let Some(other) = other_end(bond, atom) {
                if let Some(slot) = self.seen.get_mut(other) {
                    *slot = None;
                }
            }
        }
    }

    /// Counts a bond with the first one to the same other atom, or notes that it is the first.
    fn count_with_first(&mut self, k: usize, bond: Bond, other: usize) {
        let Some(slot) = self.seen.get_mut(other) else {
            return;
        };
        let Some(first) = *slot else {
            *slot = Some(k);
            return;
        };
        if let Some(all) = self.bonds.get_mut(first) {
            all.pull = all.pull.saturating_add(bond.pull);
            all.conflicts = all.conflicts.saturating_add(bond.conflicts);
        }
        self.drop_bond(k);
    }
}

/// How much a bond pulls for so many conflicts.
fn pull_for(pull: Cost, conflicts: usize) -> Cost {
    let many = Cost::from(conflicts as u64).saturating_add(1);
    pull.checked_div(many).unwrap_or(0)
}

/// Whether a bond comes before another.
fn is_before(pull: Cost, bond: &Bond, most: Cost, other: &Bond) -> bool {
    pull > most || (pull == most && (bond.one, bond.two) < (other.one, other.two))
}

/// The atom at the other end of a bond, if this one is at an end of it and not at both.
fn other_end(bond: &Bond, atom: usize) -> Option<usize> {
    if bond.one == bond.two {
        None
    } else if bond.one == atom {
        Some(bond.two)
    } else if bond.two == atom {
        Some(bond.one)
    } else {
        None
    }
}

/// Has a bond lead to one atom in place of another.
fn move_ends(bond: &mut Bond, from: usize, to: usize) {
    let one = if bond.one == from { to } else { bond.one };
    let two = if bond.two == from { to } else { bond.two };
    bond.one = one.min(two);
    bond.two = one.max(two);
}
