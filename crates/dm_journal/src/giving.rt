//! Bytes of a text, given to a follower until a line breaks its rule.
ghost use Rattle.std.specs.Prelude.{◌≡◌, ℕ, List, None, IfOk};
ghost use Rattle.dm_network.specs.Net.{Net};
ghost use Rattle.dm_rows.specs.Rows.{RowsValue};
ghost use Rattle.dm_journal.specs.Journals.{IsFollowerOf, IsJournal};
ghost use Rattle.dm_journal.specs.Inside.Giving.{GivesMore, broken_of};

use dm_follow::{FollowFault, FollowKind, Follower, Tail};
use std::alloc::AllocError;

/// A rule of a journal's lines.
#[derive(Clone, Copy)]
pub enum BrokenRule {
    /// The line has not the form that must stand there, or says a number of the header that may not stand there.
    Form,

    /// The line is an entry that is not in turn, or that the rows after the entries before it refuse.
    Entry,
}

/// The first line of a journal that stands whole and breaks its rule.
#[derive(Clone, Copy)]
pub struct BrokenLine {
    /// The number of the line, from 1.
    pub line: u32,
    pub rule: BrokenRule,
}

/// What the journal at the front of a text carries.
pub enum Journal<'n> {
    /// All its lines stand whole, and this follower has taken the text.
    Whole(Follower<'n>),

    /// The first line that is not whole; none before it breaks its rule, and this follower has taken the text.
    Torn(u32, Follower<'n>),

    /// The first line that breaks its rule.
    Broken(BrokenLine),
}

impl Drop for Journal<'_> {
    fn drop(self) {
        match self {
            Journal::Whole(_) | Journal::Torn(_, _) | Journal::Broken(_) => {}
        }
    }
}

/// The line that a fault of a follower is of, or none where it is want of memory.
fn broken_of(fault: FollowFault) -> Option<BrokenLine>
    ensures { result ≡ broken_of fault.line fault.kind }
{
    let rule = match fault.kind {
        FollowKind::Form => BrokenRule::Form,
        FollowKind::Entry => BrokenRule::Entry,
        FollowKind::OutOfMemory => return None,
    };
    Some(BrokenLine {
        line: fault.line,
        rule,
    })
}

/// Gives the next bytes. Behind a line that breaks its rule they are passed over.
pub(crate) fn give(
    follower: &mut Follower<'_>,
    broken: Option<BrokenLine>,
    bytes: &[u8],
) -> Result<Option<BrokenLine>, AllocError>
    ensures { IfOk result (λ now. GivesMore follower.old broken follower.new now bytes.now) }
{
    match broken {
        Some(line) => Ok(Some(line)),
        None => give_next(follower, bytes),
    }
}

/// Gives the next bytes, where no line has broken its rule.
fn give_next(follower: &mut Follower<'_>, bytes: &[u8]) -> Result<Option<BrokenLine>, AllocError>
    ensures { IfOk result (λ now. GivesMore follower.old None follower.new now bytes.now) }
{
    match follower.feed(bytes) {
        Ok(()) => Ok(None),
        Err(fault) => match broken_of(fault) {
            Some(line) => Ok(Some(line)),
            None => Err(AllocError),
        },
    }
}

/// What the journal carries of a text that a follower has taken, and of which no line breaks its rule.
pub(crate) fn followed(follower: Follower<'_>) -> Journal<'_>
    ensures { (net : Net) (rows : RowsValue) (penalty : ℕ) (bytes : List ℕ) → IsFollowerOf net rows penalty bytes follower.entry
        → IsJournal net rows penalty bytes result }
{
    match follower.tail() {
        Tail::Torn { line, .. } => Journal::Torn(line, follower),
        Tail::Whole => Journal::Whole(follower),
        Tail::Failed { .. } => Journal::Whole(follower),
    }
}
