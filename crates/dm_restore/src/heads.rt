//! The first block of a journal: what goes with its run.
ghost use Rattle.std.specs.Prelude.{◌≡◌, ◌≤◌, IfOk, IfSome};
ghost use Rattle.std.specs.Option.{option_map};
ghost use Rattle.dm_cert.specs.Inside.PlanLines.{number_behind};
ghost use Rattle.dm_outside.specs.Printing.{Prints};
ghost use Rattle.dm_book.specs.Books.{head_text};
ghost use Rattle.dm_restore.specs.Heads.{ReadsHead};
ghost use Rattle.dm_restore.specs.Inside.HeadLines.{numbers_in, head_in};

use dm_items::Gathered;
use dm_outside::{Page, Piece, Sink, WriteFault};
use dm_text::{behind, number_in_front};
use std::alloc::{AllocError, Global};

/// The largest penalty that its type holds.
const LARGEST_VALUE: u128 = 18_446_744_073_709_551_615;

/// The largest count that its type holds.
const LARGEST_COUNT: u128 = 4_294_967_295;

/// What goes with a journal: the penalty in seconds for each passenger, how many plans a feed may have, and the number of feeds.
#[derive(Clone, Copy, PartialEq, Eq)]
pub struct Head {
    pub penalty: u64,
    pub plans: u32,
    pub feeds: u32,
}

/// The content of the first block of a journal with this head. `Err` is want of memory alone.
pub fn head_text(alloc: Global, head: Head) -> Result<Vec<u8>, AllocError>
    ensures { IfOk result (λ text. text.items ≡ head_text head.penalty head.plans head.feeds) }
{
    let mut sink = Gathered::new(alloc);
    let mut page = Page::new();
    let Ok(()) = put_head(&mut sink, &mut page, head) else {
        return Err(AllocError);
    };
    let Ok(()) = page.finish(&mut sink) else {
        return Err(AllocError);
    };
    Ok(sink.into_bytes())
}

/// Prints the content of a first block.
fn put_head<K: Sink>(sink: &mut K, page: &mut Page, head: Head) -> Result<(), WriteFault>
    ensures { Prints K.taken K.faults sink.old sink.new page.old page.new result
        (head_text head.penalty head.plans head.feeds) }
{
    let pieces = [
        Piece::Text("dm-store 1\npenalty "),
        Piece::Number(head.penalty as u128),
        Piece::Text("\nplans "),
        Piece::Number(head.plans as u128),
        Piece::Text("\nfeeds "),
        Piece::Number(head.feeds as u128),
        Piece::Text("\n"),
    ];
    page.put(sink, &pieces)
}

/// The head that the content of a block spells, where it is one.
pub(crate) fn read_head(content: &[u8]) -> Option<Head>
    ensures { ReadsHead content.now result }
{
    head_in(content)
}

/// The head that a content spells.
fn head_in(content: &[u8]) -> Option<Head>
    ensures { result ≡ head_in content.now }
{
    let Some((head, rest)) = numbers_in(content) else {
        return None;
    };
    match behind(rest, "\n") {
        Some([]) => Some(head),
        _ => None,
    }
}

/// The numbers of a head, and what stands behind the last of them.
fn numbers_in(content: &[u8]) -> Option<(Head, &[u8])>
    ensures { option_map (λ p. (p.0, p.1.now)) result ≡ numbers_in content.now }
{
    let Some((penalty, rest)) = number_behind(content, "dm-store 1\npenalty ", LARGEST_VALUE) else {
        return None;
    };
    let Some((plans, rest)) = number_behind(rest, "\nplans ", LARGEST_COUNT) else {
        return None;
    };
    let Some((feeds, rest)) = number_behind(rest, "\nfeeds ", LARGEST_COUNT) else {
        return None;
    };
    let head = Head {
        penalty: penalty as u64,
        plans: plans as u32,
        feeds: feeds as u32,
    };
    Some((head, rest))
}

/// A number behind the text, up to the largest.
fn number_behind<'l>(line: &'l [u8], text: &str, largest: u128) -> Option<(u128, &'l [u8])>
    ensures reads { option_map (λ p. (p.0, p.1.now)) result ≡ number_behind largest text.now line.now }
    ensures fits { IfSome result (λ p. p.0 ≤ largest) }
{
    let Some(rest) = behind(line, text) else {
        return None;
    };
    number_in_front(rest, largest)
}
