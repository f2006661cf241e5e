//! What stands outside a window.
ghost use Rattle.std.specs.Prelude.{◌≡◌, ◌<◌, ◌++◌, length, IfOk};
ghost use Rattle.dm_rows.specs.Rows.{IsSized};
ghost use Rattle.dm_stretch.specs.Windows.{is_held, is_within, is_change_within, is_pair_within, window_base};
ghost use Rattle.dm_stretch.specs.Inside.Standing.{standing_change, standing_pair, standing_changes, standing_pairs};

use crate::windows::Window;
use dm_base::Secs;
use dm_network::Network;
use dm_paths::{change_decision, pair_decision, push_some};
use dm_rows::{Choice, Decision, Rows, choice_of_pair, is_free_change, is_free_pair};
use std::alloc::{AllocError, Global};

/// The decisions that keep each free choice outside a window, or held, as the rows have it: the changes in ascending id, then the
/// pairs.
pub fn window_base(
    alloc: Global,
    net: &Network,
    rows: &Rows,
    window: &Window,
) -> Result<Vec<Decision>, AllocError>
    requires { IsSized net.now rows.now }
    ensures { IfOk result (λ ds. ds.items ≡ window_base net.now rows.now window.now) }
{
    let changes = standing_changes(alloc, net, rows, window)?;
    with_standing_pairs(net, rows, window, changes)
}

/// The free changes outside a window, each as the rows have it.
fn standing_changes(
    alloc: Global,
    net: &Network,
    rows: &Rows,
    window: &Window,
) -> Result<Vec<Decision>, AllocError>
    requires { IsSized net.now rows.now }
    ensures { IfOk result (λ ds. ds.items ≡ standing_changes net.now rows.now window.now (length net.now.activities)) }
{
    let mut decisions = Vec::new(alloc);
    for a in 0..net.activities() {
        push_some(&mut decisions, standing_change(net, rows, window, a))?;
    }
    Ok(decisions)
}

/// These decisions, and behind them the free pairs outside a window, each as the rows have it.
fn with_standing_pairs(
    net: &Network,
    rows: &Rows,
    window: &Window,
    changes: Vec<Decision>,
) -> Result<Vec<Decision>, AllocError>
    requires { IsSized net.now rows.now }
    ensures { IfOk result (λ ds. ds.items ≡ changes.items
        ++ standing_pairs net.now rows.now window.now (length net.now.pairs)) }
{
    let mut decisions = changes;
    for p in 0..net.pairs() {
        push_some(&mut decisions, standing_pair(net, rows, window, p))?;
    }
    Ok(decisions)
}

/// The decision of the activity at a place, where it is a free change outside a window.
fn standing_change(net: &Network, rows: &Rows, window: &Window, a: usize) -> Option<Decision>
    requires sized { IsSized net.now rows.now }
    requires is_activity { a < length net.now.activities }
    ensures { result ≡ standing_change net.now rows.now window.now a }
{
    if is_free_change(net, rows, a) && !is_change_within(net, window, a) {
        Some(change_decision(net, a, rows.kept(a)))
    } else {
        None
    }
}

/// The decision of the pair at a place, where it is a free pair outside a window.
fn standing_pair(net: &Network, rows: &Rows, window: &Window, p: usize) -> Option<Decision>
    requires sized { IsSized net.now rows.now }
    requires is_pair { p < length net.now.pairs }
    ensures { result ≡ standing_pair net.now rows.now window.now p }
{
    if is_free_pair(net, rows, p) && !is_pair_within(net, window, p) {
        Some(pair_decision(net, p, rows.small_first(p)))
    } else {
        None
    }
}

fn is_held(window: &Window, choice: Choice) -> bool
    ensures { result ≡ is_held window.now.held choice }
{
    window
        .held
        .as_slice()
        .iter()
        .any(|other| other.is_same(choice))
}

fn is_within(window: &Window, time: Secs) -> bool
    ensures { result ≡ is_within window.now.from window.now.to time }
{
    window.from <= time && time <= window.to
}

/// Whether the head of the activity at a place is scheduled in a window, and its choice is not held.
fn is_change_within(net: &Network, window: &Window, a: usize) -> bool
    requires { a < length net.now.activities }
    ensures { result ≡ is_change_within net.now window.now a }
{
    net.reveal();
    let activity = net.activity(a);
    is_within(window, net.event(activity.head).time)
        && !is_held(window, Choice::Change(activity.id))
}

/// Whether both events of the pair at a place are scheduled in a window, and its choice is not held.
fn is_pair_within(net: &Network, window: &Window, p: usize) -> bool
    requires { p < length net.now.pairs }
    ensures { result ≡ is_pair_within net.now window.now p }
{
    net.reveal();
    let pair = net.pair(p);
    is_within(window, net.event(pair.small).time)
        && is_within(window, net.event(pair.large).time)
        && !is_held(window, choice_of_pair(net, p))
}
