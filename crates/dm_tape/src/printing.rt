//! Rounds in print.
ghost use Rattle.std.specs.Prelude.{All};
ghost use Rattle.dm_outside.specs.Printing.{Prints};
ghost use Rattle.dm_cert.specs.RunTexts.{IsSpelledItem};
ghost use Rattle.dm_tape.specs.Rounds.{part_text, round_text};

use dm_base::Items;
use dm_cert::LogItem;
use dm_outside::{Page, Sink, WriteFault};
use dm_report::{put_items, put_labelled};

/// Prints what the feed of this number was answered, behind all that was printed through the page before. A write fault comes
/// only where a write failed.
pub fn put_part<K: Sink>(
    sink: &mut K,
    page: &mut Page,
    number: usize,
    items: &[LogItem],
) -> Result<(), WriteFault>
    requires { All IsSpelledItem items.now }
    ensures { Prints K.taken K.faults sink.old sink.new page.old page.new result (part_text number items.now) }
{
    let numbers = [("feed ", number as u128), (" ", items.len() as u128)];
    let Ok(()) = put_labelled(sink, page, &numbers, "\n") else {
        return Err(WriteFault);
    };
    put_items(sink, page, items)
}

/// Prints a round, behind all that was printed through the page before. A write fault comes only where a write failed.
pub fn put_round<K: Sink>(
    sink: &mut K,
    page: &mut Page,
    round: &[Items<LogItem>],
) -> Result<(), WriteFault>
    requires { All (λ items. All IsSpelledItem items) round.now }
    ensures { Prints K.taken K.faults sink.old sink.new page.old page.new result (round_text round.now) }
{
    for (i, items) in round.iter().enumerate() {
        let Ok(()) = put_part(sink, page, i + 1, items.as_slice()) else {
            return Err(WriteFault);
        };
    }
    Ok(())
}
