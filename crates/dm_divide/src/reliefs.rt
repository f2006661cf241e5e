//! How much each choice of a plan costs.

use crate::atoms::Atoms;
use crate::bonds::Bonds;
use dm_base::{Cost, Secs};
use dm_network::Network;
use dm_probe::{FreeChoice, Mover, Side};
use dm_rows::Choice;
use std::alloc::{AllocError, Global};

/// For each choice, by how much the plan's cost falls where it is not made. The mover stands at the plan.
pub fn reliefs(alloc: Global, whole: &mut Mover<'_>) -> Result<Vec<Cost>, AllocError> {
    let mut reliefs = Vec::new(alloc);
    for number in 0..whole.choices().len() {
        reliefs.push(relief(whole, number))?;
    }
    Ok(reliefs)
}

fn relief(whole: &mut Mover<'_>, number: usize) -> Cost {
    let before = whole.cost();
    let side = whole.side(number);
    let (true, Some(side)) = (whole.is_binding(number), side) else {
        return 0;
    };
    whole.undecide(number);
    let after = whole.cost();
    let _decided = whole.decide(number, side);
    before.saturating_sub(after)
}

/// The two atoms of a choice.
pub fn ends(atoms: &Atoms, free: &FreeChoice) -> (usize, usize) {
    (atoms.at(free.tail), atoms.at(free.head))
}

/// The bonds between atoms along the choices of a plan. One mover stands at the plan, the other at the root.
pub fn bonds(
    alloc: Global,
    atoms: &Atoms,
    reliefs: &[Cost],
    whole: &mut Mover<'_>,
    relaxed: &mut Mover<'_>,
) -> Result<Bonds, AllocError> {
    whole.settle();
    relaxed.settle();
    let mut bonds = Bonds::new(alloc, atoms.len())?;
    for (number, relief) in reliefs.iter().enumerate() {
        if *relief > 0 {
            add_bond(&mut bonds, atoms, (number, *relief), whole, relaxed)?;
        }
    }
    Ok(bonds)
}

/// Adds the bond of a choice of which the relief is known.
fn add_bond(
    bonds: &mut Bonds,
    atoms: &Atoms,
    relieved: (usize, Cost),
    whole: &Mover<'_>,
    relaxed: &Mover<'_>,
) -> Result<(), AllocError> {
    let (number, relief) = relieved;
    let Some(free) = whole.choices().get(number) else {
        return Ok(());
    };
    let (a, b) = ends(atoms, &free);
    if a == b {
        bonds.add_within(a);
        return Ok(());
    }
    match free.choice {
        Choice::Pair(_, _) => bonds.add(a, b, relief, 1),
        Choice::Change(_) => {
            bonds.add_within(b);
            let pull = from_outside(relief, number, whole, relaxed);
            bonds.add(a, b, pull, 0)
        }
    }
}

/// The part of a change's relief that comes of what makes its tail later in the plan than where the other mover stands.
pub fn from_outside(relief: Cost, number: usize, whole: &Mover<'_>, relaxed: &Mover<'_>) -> Cost {
    let Some(act) = whole.choices().binding(number, Side::First).first() else {
        return 0;
    };
    let due = due_of(number, whole);
    let planned = whole.earliest(*act).saturating_sub(due);
    let early = relaxed.earliest(*act).saturating_sub(due);
    let more = Cost::from(planned.saturating_sub(early));
    let pull = relief.saturating_mul(more);
    pull.checked_div(Cost::from(planned.max(1))).unwrap_or(0)
}

/// For when the head of a change is scheduled.
fn due_of(number: usize, whole: &Mover<'_>) -> Secs {
    match whole.choices().get(number) {
        Some(free) => time_of(whole.net(), free.head),
        None => 0,
    }
}

/// For when an event is scheduled.
fn time_of(net: &Network, event: usize) -> Secs {
    if event < net.events() {
        net.event(event).time
    } else {
        0
    }
}
