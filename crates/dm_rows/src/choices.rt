//! What may still be decided.
ghost use Rattle.std.specs.Prelude.{◌≡◌, ◌<◌, ◌≤◌, ◌++◌, ◌∷◌, [], length, vec_capacity, IfOk};
ghost use Rattle.dm_network.specs.Start.{first_event};
ghost use Rattle.dm_rows.specs.Rows.{IsSized};
ghost use Rattle.dm_rows.specs.Carry.{free_among};
ghost use Rattle.dm_rows.specs.Decide.{free_choices_of, free_changes_of, free_pairs_of, is_free_change, is_free_pair, pair_choice};

use crate::activity::{has_cancelled_end, head_has_passed};
use crate::admission::flip_of;
use crate::messages::{Choice, Decision};
use crate::rows::Rows;
use dm_base::{ActKind, Items};
use dm_network::Network;
use std::alloc::{AllocError, Global};

/// What may still be decided: the changes whose head has not passed, none of whose ends is cancelled, and that are not locked, in
/// ascending id; after them the pairs of which no event has passed or is cancelled, and that are not locked, in ascending order of
/// their ids.
pub fn free_choices(alloc: Global, net: &Network, rows: &Rows) -> Result<Vec<Choice>, AllocError>
    requires { IsSized net.now rows.now }
    ensures { IfOk result (λ choices. choices.items ≡ free_choices_of net.now rows.now) }
{
    let changes = free_changes(alloc, net, rows)?;
    with_free_pairs(net, rows, changes)
}

/// The free changes.
fn free_changes(alloc: Global, net: &Network, rows: &Rows) -> Result<Vec<Choice>, AllocError>
    requires { IsSized net.now rows.now }
    ensures { IfOk result (λ choices. choices.items ≡ free_changes_of net.now rows.now) }
{
    let mut choices = Vec::new(alloc);
    for a in 0..net.activities() {
        if is_free_change(net, rows, a) {
            choices.push(Choice::Change(net.activity(a).id))?;
        }
    }
    Ok(choices)
}

/// These choices, and after them the free pairs.
fn with_free_pairs(
    net: &Network,
    rows: &Rows,
    choices: Vec<Choice>,
) -> Result<Vec<Choice>, AllocError>
    requires { IsSized net.now rows.now }
    ensures { IfOk result (λ all. all.items ≡ choices.items ++ free_pairs_of net.now rows.now) }
{
    let mut all = choices;
    for p in 0..net.pairs() {
        if is_free_pair(net, rows, p) {
            all.push(choice_of_pair(net, p))?;
        }
    }
    Ok(all)
}

/// Whether the activity at this place is a change whose head has not passed, none of whose ends is cancelled, and that is not
/// locked.
pub fn is_free_change(net: &Network, rows: &Rows, a: usize) -> bool
    requires sized { IsSized net.now rows.now }
    requires is_activity { a < length net.now.activities }
    ensures { result ≡ is_free_change net.now rows.now a }
{
    if !matches!(net.activity(a).kind, ActKind::Change) || rows.locked_change(a) {
        return false;
    }
    !head_has_passed(net, rows, a) && !has_cancelled_end(net, rows, a)
}

/// Whether no event of the pair at this place has passed or is cancelled, and it is not locked.
pub fn is_free_pair(net: &Network, rows: &Rows, p: usize) -> bool
    requires sized { IsSized net.now rows.now }
    requires is_pair { p < length net.now.pairs }
    ensures { result ≡ is_free_pair net.now rows.now p }
{
    net.reveal();
    let pair = net.pair(p);
    rows.ahead(pair.small) && rows.ahead(pair.large) && !rows.locked_pair(p)
}

/// Those of the decisions that decide free choices, in their order, in room for all of them. It takes no memory.
pub fn free_among(
    net: &Network,
    rows: &Rows,
    decisions: &[Decision],
    room: Vec<Decision>,
) -> Items<Decision>
    requires sized { IsSized net.now rows.now }
    requires empty { room.items ≡ [] }
    requires room { length decisions.now ≤ vec_capacity room }
    ensures { result ≡ free_among net.now rows.now decisions.now }
{
    let mut free = room;
    for decision in decisions {
        keep_free(net, rows, *decision, &mut free);
    }
    Items::from_vec(free)
}

/// Keeps a decision that decides a free choice, in the room that is there.
fn keep_free(net: &Network, rows: &Rows, decision: Decision, free: &mut Vec<Decision>)
    requires sized { IsSized net.now rows.now }
    requires room { length free.old.items < vec_capacity free.old }
    ensures kept { free.new.items ≡ free.old.items ++ free_among net.now rows.now (decision ∷ []) }
    ensures room { vec_capacity free.new ≡ vec_capacity free.old }
{
    net.reveal();
    match flip_of(net, rows, &decision) {
        Ok(_) => free.push_reserved(decision),
        Err(_) => {}
    }
}

/// The pair at this place as a choice.
pub fn choice_of_pair(net: &Network, p: usize) -> Choice
    requires { p < length net.now.pairs }
    ensures { result ≡ pair_choice net.now p }
{
    net.reveal();
    let pair = net.pair(p);
    Choice::Pair(net.event(pair.small).id, net.event(pair.large).id)
}

/// The event that goes first in a pair, where its event with the smaller id does or does not.
pub fn first_event(net: &Network, pair: usize, small: bool) -> usize
    requires { pair < length net.now.pairs }
    ensures first { result ≡ first_event net.now pair small }
    ensures is_event { result < length net.now.events }
{
    net.reveal();
    let pair = net.pair(pair);
    if small { pair.small } else { pair.large }
}
