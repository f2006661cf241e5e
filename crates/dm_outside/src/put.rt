//! Whole texts into a sink.
ghost use Rattle.dm_outside.specs.Printing.{Puts, pieces_text};

use crate::{Failed, Page, Piece, Sink, WriteFault};

/// Puts all the bytes into the sink and takes no memory. A write fault comes only where a write
/// failed, and then the sink has taken a front of the bytes and not all of them.
pub fn put_all<K: Sink>(sink: &mut K, bytes: &[u8]) -> Result<(), WriteFault>
    ensures { Puts K.taken K.faults sink.old sink.new result bytes.now }
{
    let mut rest = bytes;
    while !rest.is_empty() {
        match sink.write(rest) {
            Ok(count) => rest = &rest[count..],
            Err(Failed) => return Err(WriteFault),
        }
    }
    Ok(())
}

/// Puts the pieces, one after another. A write fault comes only where a write failed.
pub fn put_pieces<K: Sink>(sink: &mut K, pieces: &[Piece<'_>]) -> Result<(), WriteFault>
    ensures { Puts K.taken K.faults sink.old sink.new result (pieces_text pieces.now) }
{
    let mut page = Page::new();
    let Ok(()) = page.put(sink, pieces) else {
        return Err(WriteFault);
    };
    page.finish(sink)
}
