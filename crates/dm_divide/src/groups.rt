//! Groups of atoms, each with a part of the cost.

use crate::atoms::Atoms;
use crate::reliefs::ends;
use dm_base::Cost;
use dm_branch::Part;
use dm_network::Network;
use dm_probe::{Arrival, Choices, Connection, FreeChoice, Mover, Share};
use dm_rows::Choice;
use std::alloc::{AllocError, Global};

/// Atoms whose terms make one part.
pub struct Group {
    pub part: Option<Part>,
    pub atoms: Vec<usize>,

    /// The group that took this one in.
    pub into: Option<usize>,

    /// Whether nobody has looked yet at what it would gain from others.
    pub is_fresh: bool,
}

impl Drop for Group {
    fn drop(self) {
        let Group {
            part: _,
            atoms: _,
            into: _,
            is_fresh: _,
        } = self;
    }
}

/// Atoms in groups, and the choices at each atom.
pub struct Groups {
    alloc: Global,
    pub atoms: Atoms,
    around: Vec<Vec<usize>>,
    of: Vec<usize>,
    pub list: Vec<Group>,
}

impl Drop for Groups {
    fn drop(self) {
        let Groups {
            alloc: _,
            atoms: _,
            around: _,
            of: _,
            list: _,
        } = self;
    }
}

impl Groups {
    /// No groups of no atoms.
    pub fn none(alloc: Global) -> Groups {
        Groups {
            alloc,
            atoms: Atoms::none(alloc),
            around: Vec::new(alloc),
            of: Vec::new(alloc),
            list: Vec::new(alloc),
        }
    }

    /// The groups in which each atom is with what stands for it. They have no parts yet.
    pub fn new(
        alloc: Global,
        atoms: Atoms,
        roots: &[usize],
        choices: &Choices,
    ) -> Result<Groups, AllocError> {
        let mut groups = Groups {
            alloc,
            around: empty_lists(alloc, atoms.len())?,
            of: vec![in alloc; 0_usize; atoms.len()]?,
            list: Vec::new(alloc),
            atoms,
        };
        groups.gather(roots)?;
        groups.gather_choices(choices)?;
        Ok(groups)
    }

    fn gather(&mut self, roots: &[usize]) -> Result<(), AllocError> {
        let mut names: Vec<Option<usize>> = vec![in self.alloc; None; roots.len()]?;
        for (atom, root) in roots.iter().enumerate() {
            let known = names.get(*root).copied().flatten();
            let group = known.unwrap_or(self.list.len());
            if known.is_none() {
                self.add_group(Vec::new(self.alloc))?;
                name(&mut names, *root, group);
            }
            self.put_atom(atom, group)?;
        }
        Ok(())
    }

    /// Adds a group of these atoms.
    pub fn add_group(&mut self, atoms: Vec<usize>) -> Result<(), AllocError> {
        self.list.push(Group {
            part: None,
            atoms,
            into: None,
            is_fresh: true,
        })?;
        Ok(())
    }

    fn put_atom(&mut self, atom: usize, group: usize) -> Result<(), AllocError> {
        self.place(atom, group);
        if let Some(group) = self.list.get_mut(group) {
            group.atoms.push(atom)?;
        }
        Ok(())
    }

    /// Has an atom be of a group.
    fn place(&mut self, atom: usize, group: usize) {
        if let Some(slot) = self.of.get_mut(atom) {
            *slot = group;
        }
    }

    /// Has atoms be of a group.
    pub fn place_all(&mut self, atoms: &[usize], group: usize) {
        for atom in atoms {
            self.place(*atom, group);
        }
    }

    /// Has a group's atoms be of it.
    pub fn claim(&mut self, group: usize) {
        if let Some(members) = self.list.get(group) {
            for atom in &members.atoms {
                if let Some(slot) = self.of.get_mut(*atom) {
                    *slot = group;
                }
            }
        }
    }

    fn gather_choices(&mut self, choices: &Choices) -> Result<(), AllocError> {
        for number in 0..choices.len() {
            if let Some(free) = choices.get(number) {
                let (a, b) = ends(&self.atoms, &free);
                self.put_choice(a, number)?;
                if a != b {
                    self.put_choice(b, number)?;
                }
            }
        }
        Ok(())
    }

    fn put_choice(&mut self, atom: usize, number: usize) -> Result<(), AllocError> {
        if let Some(numbers) = self.around.get_mut(atom) {
            numbers.push(number)?;
        }
        Ok(())
    }

    /// The group of an event.
    pub fn at(&self, event: usize) -> usize {
        self.of.get(self.atoms.at(event)).copied().unwrap_or(0)
    }

    /// The groups of a choice's two ends.
    pub fn ends(&self, free: &FreeChoice) -> (usize, usize) {
        (self.at(free.tail), self.at(free.head))
    }

    /// The group that a group is in now.
    pub fn living(&self, group: usize) -> usize {
        let mut at = group;
        for _ in 0..self.list.len() {
            match self.list.get(at).and_then(|group| group.into) {
                Some(above) => at = above,
                None => break,
            }
        }
        at
    }

    /// A group's part.
    pub fn part(&self, group: usize) -> Option<&Part> {
        match self.list.get(group) {
            Some(group) => group.part.as_ref(),
            None => None,
        }
    }

    /// Takes a group's part out, to be put back.
    pub fn take(&mut self, group: usize) -> Option<Part> {
        match self.list.get_mut(group) {
            Some(group) => group.part.take(),
            None => None,
        }
    }

    pub fn put(&mut self, group: usize, part: Part) {
        if let Some(group) = self.list.get_mut(group) {
            group.part = Some(part);
        }
    }

    /// How far a group's bound lies below the plan's cost.
    pub fn gap(&self, group: usize) -> Cost {
        match self.part(group) {
            Some(part) => part.gap(),
            None => 0,
        }
    }

    /// How many nodes all trees have, the rest counting as one.
    pub fn nodes(&self) -> usize {
        let mut nodes = 1_usize;
        for group in &self.list {
            if let Some(part) = &group.part {
                nodes = nodes.saturating_add(part.size());
            }
        }
        nodes
    }

    /// The choices at the atoms of a group, in ascending order, each once.
    pub fn around(&self, atoms: &[usize]) -> Result<Vec<usize>, AllocError> {
        let mut numbers = Vec::new(self.alloc);
        for atom in atoms {
            if let Some(more) = self.around.get(*atom) {
                numbers.extend_from_slice(more)?;
            }
        }
        numbers.sort_unstable();
        numbers.dedup();
        Ok(numbers)
    }

    /// The choices at the atoms of a group.
    pub fn around_group(&self, group: usize) -> Result<Vec<usize>, AllocError> {
        match self.list.get(group) {
            Some(members) => self.around(&members.atoms),
            None => Ok(Vec::new(self.alloc)),
        }
    }

    /// The atoms of a group, and those that so many choices in a row lead to.
    pub fn atoms_near(
        &self,
        group: usize,
        steps: usize,
        choices: &Choices,
    ) -> Result<Vec<usize>, AllocError> {
        let mut atoms = Vec::new(self.alloc);
        if let Some(members) = self.list.get(group) {
            atoms.extend_from_slice(&members.atoms)?;
        }
        for _ in 0..steps {
            self.add_neighbours(&mut atoms, choices)?;
        }
        Ok(atoms)
    }

    /// Adds the atoms to which a choice leads from some of these.
    fn add_neighbours(&self, atoms: &mut Vec<usize>, choices: &Choices) -> Result<(), AllocError> {
        for number in &self.around(atoms)? {
            if let Some(free) = choices.get(*number) {
                let (a, b) = ends(&self.atoms, &free);
                atoms.push(a)?;
                atoms.push(b)?;
            }
        }
        atoms.sort_unstable();
        atoms.dedup();
        Ok(())
    }

    /// The choices on which the tree of a group may branch: pairs within, and changes into it.
    pub fn candidates(
        &self,
        atoms: &[usize],
        group: usize,
        choices: &Choices,
    ) -> Result<Vec<usize>, AllocError> {
        let mut numbers = Vec::new(self.alloc);
        for number in &self.around(atoms)? {
            if let Some(free) = choices.get(*number) {
                if self.is_within(&free, group) {
                    numbers.push(*number)?;
                }
            }
        }
        Ok(numbers)
    }

    fn is_within(&self, free: &FreeChoice, group: usize) -> bool {
        let (a, b) = self.ends(free);
        b == group && (a == group || matches!(free.choice, Choice::Change(_)))
    }

    /// Gives each group its part of the terms. The mover stands at the plan.
    pub fn divide(
        &mut self,
        net: &Network,
        all: &Share,
        whole: &mut Mover<'_>,
    ) -> Result<(), AllocError> {
        let mut shares = empty_shares(self.alloc, self.list.len())?;
        for arrival in &all.arrivals {
            self.give_arrival(&mut shares, *arrival)?;
        }
        self.give_connections(&mut shares, net, &all.connections)?;
        shares.reverse();
        self.equip_all(shares, whole)
    }

    /// Gives each group a part of its share, of which the first group's stands last.
    fn equip_all(&mut self, shares: Vec<Share>, whole: &mut Mover<'_>) -> Result<(), AllocError> {
        let mut shares = shares;
        for group in 0..self.list.len() {
            if let Some(share) = shares.pop() {
                self.equip(group, share, whole)?;
            }
        }
        Ok(())
    }

    fn give_connections(
        &self,
        shares: &mut [Share],
        net: &Network,
        connections: &[Connection],
    ) -> Result<(), AllocError> {
        for connection in connections {
            self.give_connection(shares, net, *connection)?;
        }
        Ok(())
    }

    fn give_arrival(&self, shares: &mut [Share], arrival: Arrival) -> Result<(), AllocError> {
        if let Some(share) = shares.get_mut(self.at(arrival.event)) {
            share.arrivals.push(arrival)?;
        }
        Ok(())
    }

    fn give_connection(
        &self,
        shares: &mut [Share],
        net: &Network,
        connection: Connection,
    ) -> Result<(), AllocError> {
        if connection.act >= net.activities() {
            return Ok(());
        }
        let head = net.activity(connection.act).head;
        if let Some(share) = shares.get_mut(self.at(head)) {
            share.connections.push(connection)?;
        }
        Ok(())
    }

    fn equip(
        &mut self,
        group: usize,
        share: Share,
        whole: &mut Mover<'_>,
    ) -> Result<(), AllocError> {
        let Some(members) = self.list.get(group) else {
            return Ok(());
        };
        let candidates = self.candidates(&members.atoms, group, whole.choices())?;
        let part = planned_part(self.alloc, share, candidates, whole)?;
        self.put(group, part);
        Ok(())
    }
}

/// A part, and what a plan costs over it. The mover stands at the plan.
pub fn planned_part(
    alloc: Global,
    share: Share,
    candidates: Vec<usize>,
    whole: &mut Mover<'_>,
) -> Result<Part, AllocError> {
    let mut part = Part::new(alloc, share, candidates)?;
    plan(&mut part, whole)?;
    Ok(part)
}

/// Tells a part what the plan costs over it, where a mover stands at the plan.
pub fn plan(part: &mut Part, whole: &mut Mover<'_>) -> Result<(), AllocError> {
    whole.load(part.share())?;
    let cost = whole.share_cost();
    whole.unload(part.share());
    part.plan_at(cost);
    Ok(())
}

fn name(names: &mut [Option<usize>], root: usize, group: usize) {
    if let Some(slot) = names.get_mut(root) {
        *slot = Some(group);
    }
}

fn empty_lists(alloc: Global, many: usize) -> Result<Vec<Vec<usize>>, AllocError> {
    let mut lists = Vec::new(alloc);
    for _ in 0..many {
        lists.push(Vec::new(alloc))?;
    }
    Ok(lists)
}

fn empty_shares(alloc: Global, many: usize) -> Result<Vec<Share>, AllocError> {
    let mut shares = Vec::new(alloc);
    for _ in 0..many {
        shares.push(Share::new(alloc))?;
    }
    Ok(shares)
}
