//! Lists of different ids.
ghost use Rattle.std.specs.Prelude.{ℕ, ◌≡◌, List, [], Option, length, nat_le, option_map, IfOk, MatchOption};
ghost use Rattle.std.specs.List.{list_any};
ghost use Rattle.std.specs.Prelude.{◌==◌};
ghost use Rattle.dm_lintim.specs.Pieces.{is_comma, pieces, pieces_left};
ghost use Rattle.dm_words.specs.Ids.{AreIds, AreIdsOrNone, IsId, Spell, are_different};
ghost use Rattle.dm_words.specs.Inside.Pieces.{AreAllIds, BeginsWithId, numbers_left};

use dm_base::read_whole;
use dm_lintim::first_piece;
use std::alloc::{AllocError, Global};
use std::marker::Model;

/// Ids that a text names, read from it again whenever they are looked at. It takes no memory.
#[derive(Drop)]
pub struct Ids<'a> {
    left: Option<&'a [u8]>,
}

impl<'a> Model for Ids<'a> {
    ghost use Rattle.std.specs.Prelude.{ℕ, List, option_map};
    ghost use Rattle.dm_lintim.specs.Pieces.{pieces_left};
    ghost use Rattle.dm_words.specs.Inside.Pieces.{AreAllIds, numbers_left};

    ghost Value = { List ℕ };

    ghost view = { λ ids. numbers_left (option_map (λ x. x.now) ids.left) };

    ghost invariant = { λ ids. AreAllIds (pieces_left (option_map (λ x. x.now) ids.left)) };
}

impl Ids<'_> {
    /// The ids, in their order.
    pub fn to_vec(&self, alloc: Global) -> Result<Vec<u32>, AllocError>
        ensures { IfOk result (λ ids. ids.items ≡ self.now) }
    {
        collect(alloc, self.left)
    }

    /// Whether there are so many at most.
    fn are_few(&self, most: usize) -> bool
        ensures { result ≡ nat_le (length self.now) most }
    {
        are_at_most(self.left, most)
    }

    /// Whether no id stands twice.
    fn are_different(&self) -> bool
        ensures { result ≡ are_different self.now }
    {
        differ(self.left)
    }
}

fn id_of(piece: &[u8]) -> Option<u32>
    ensures { MatchOption result ((id : ℕ) → IsId piece.now id → ⊥) (λ id. IsId piece.now id) }
{
    match read_whole(piece) {
        Ok(number) if number <= 4_294_967_295 => Some(number as u32),
        _ => None,
    }
}

/// The first id of what is left of a text, and what is left behind it.
fn next_id(left: Option<&[u8]>) -> Option<(u32, Option<&[u8]>)>
    requires { AreAllIds (pieces_left (option_map (λ x. x.now) left)) }
    ensures { MatchOption result (numbers_left (option_map (λ x. x.now) left.entry) ≡ [])
        (λ next. BeginsWithId (option_map (λ x. x.now) left.entry) next.0 (option_map (λ x. x.now) next.1)) }
{
    let Some(text) = left else {
        return None;
    };
    let (piece, after) = first_piece(text);
    let Some(id) = id_of(piece) else {
        return None;
    };
    Some((id, after))
}

/// The ids of what is left of a text, in their order.
fn collect(alloc: Global, all: Option<&[u8]>) -> Result<Vec<u32>, AllocError>
    requires { AreAllIds (pieces_left (option_map (λ x. x.now) all)) }
    ensures { IfOk result (λ ids. ids.items ≡ numbers_left (option_map (λ x. x.now) all.entry)) }
{
    let mut ids = Vec::new(alloc);
    let mut left = all;
    while let Some((id, after)) = next_id(left) {
        ids.push(id)?;
        left = after;
    }
    Ok(ids)
}

/// Whether there are so many ids at most.
fn are_at_most(all: Option<&[u8]>, most: usize) -> bool
    requires { AreAllIds (pieces_left (option_map (λ x. x.now) all)) }
    ensures { result ≡ nat_le (length (numbers_left (option_map (λ x. x.now) all.entry))) most }
{
    let mut room = most;
    let mut left = all;
    while let Some((_, after)) = next_id(left) {
        if room == 0 {
            return false;
        }
        room -= 1;
        left = after;
    }
    true
}

/// Whether an id stands in what is left of a text.
fn is_among(id: u32, all: Option<&[u8]>) -> bool
    requires { AreAllIds (pieces_left (option_map (λ x. x.now) all)) }
    ensures { result ≡ list_any (λ other. other == id) (numbers_left (option_map (λ x. x.now) all.entry)) }
{
    let mut left = all;
    while let Some((other, after)) = next_id(left) {
        if other == id {
            return true;
        }
        left = after;
    }
    false
}

/// Whether no id stands twice in what is left of a text.
fn differ(all: Option<&[u8]>) -> bool
    requires { AreAllIds (pieces_left (option_map (λ x. x.now) all)) }
    ensures { result ≡ are_different (numbers_left (option_map (λ x. x.now) all.entry)) }
{
    let mut left = all;
    while let Some((id, after)) = next_id(left) {
        if is_among(id, after) {
            return false;
        }
        left = after;
    }
    true
}

fn read_pieces(text: &[u8]) -> Option<Ids<'_>>
    ensures { MatchOption result ((all : List ℕ) → Spell (pieces is_comma text.now) all → ⊥)
        (λ ids. Spell (pieces is_comma text.now) ids) }
{
    let mut rest = Some(text);
    while let Some(left) = rest {
        let (piece, after) = first_piece(left);
        let Some(_) = id_of(piece) else {
            return None;
        };
        rest = after;
    }
    Some(Ids { left: Some(text) })
}

/// The ids that a text names, so many at most.
fn read_ids(text: &[u8], most: usize) -> Option<Ids<'_>>
    ensures { MatchOption result ((all : List ℕ) → AreIds most text.now all → ⊥) (λ ids. AreIds most text.now ids) }
{
    let Some(ids) = read_pieces(text) else {
        return None;
    };
    if !ids.are_few(most) {
        return None;
    }
    if !ids.are_different() {
        return None;
    }
    Some(ids)
}

/// The ids of an option's value, so many at most, or none where it is not given.
pub fn ids_of(given: Option<&str>, most: usize) -> Option<Ids<'_>>
    ensures { MatchOption result ((all : List ℕ) → AreIdsOrNone most (option_map (λ x. x.now) given.entry) all → ⊥)
        (λ ids. AreIdsOrNone most (option_map (λ x. x.now) given.entry) ids) }
{
    match given {
        Some(text) => read_ids(text.as_bytes(), most),
        None => Some(Ids { left: None }),
    }
}
