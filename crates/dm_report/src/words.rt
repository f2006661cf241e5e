//! Words and numbers in print.
ghost use Rattle.std.specs.Prelude.{◌∷◌, []};
ghost use Rattle.std.specs.Fmt.{decimal};
ghost use Rattle.dm_outside.specs.Printing.{Prints, joined};
ghost use Rattle.dm_report.specs.Printed.{labelled};

use dm_outside::{Page, Sink, WriteFault};

/// Prints words, a number, and more words.
pub fn put_number<'w, K: Sink>(
    sink: &mut K,
    page: &mut Page,
    before: &'w str,
    number: u128,
    after: &'w str,
) -> Result<(), WriteFault>
    ensures { Prints K.taken K.faults sink.old sink.new page.old page.new result (joined (before.now ∷ decimal number ∷ after.now ∷ [])) }
{
    let Ok(()) = page.put_number(sink, before, number) else {
        return Err(WriteFault);
    };
    page.put_bytes(sink, after.as_bytes())
}

/// Prints numbers, each behind its words, and then a last text, behind all that was printed through the page before. A write
/// fault comes only where a write failed. It is inlined, so that words that a caller writes down are stored and not copied.
#[inline(always)]
pub fn put_labelled<'w, K: Sink>(
    sink: &mut K,
    page: &mut Page,
    numbers: &[(&'w str, u128)],
    last: &'w str,
) -> Result<(), WriteFault>
    ensures { Prints K.taken K.faults sink.old sink.new page.old page.new result
        (labelled (λ one. one.0.now) (λ one. one.1) numbers.now last.now) }
{
    for one in numbers {
        let Ok(()) = page.put_number(sink, one.0, one.1) else {
            return Err(WriteFault);
        };
    }
    page.put_bytes(sink, last.as_bytes())
}
