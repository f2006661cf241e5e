//! Texts in memory.
ghost use Rattle.std.specs.Prelude.{◌≡◌, [], All, IfOk};
ghost use Rattle.std.specs.List.{flat_map};
ghost use Rattle.dm_cert.specs.RunTexts.{item_text, IsSpelledItem};

use dm_cert::LogItem;
use dm_outside::{Failed, Page, Sink};
use dm_report::put_items;
use std::alloc::{AllocError, Global};
use std::marker::Model;

/// A sink that gathers bytes in memory, which it takes as they come. A write fails where there is none.
#[derive(Drop)]
pub struct Gathered {
    bytes: Vec<u8>,
    faults: u64,
}

impl Model for Gathered {
    ghost use Rattle.dm_items.specs.Gathering.{GatheredValue};

    ghost Value = { GatheredValue };

    ghost view = { λ sink. record { bytes = sink.bytes.items; faults = sink.faults } };
}

impl Gathered {
    /// A sink that has taken nothing.
    pub fn new(alloc: Global) -> Gathered
        ensures { result ≡ record { bytes = []; faults = 0 } }
    {
        Gathered {
            bytes: Vec::new(alloc),
            faults: 0,
        }
    }

    /// The bytes that it took.
    pub fn into_bytes(self) -> Vec<u8>
        ensures { result.items ≡ self.bytes }
    {
        let Gathered { bytes, faults: _ } = self;
        bytes
    }
}

impl Sink for Gathered {
    ghost use Rattle.std.specs.Prelude.{Some};

    ghost taken = { λ sink. Some sink.bytes };

    ghost faults = { λ sink. sink.faults };

    fn write(&mut self, bytes: &[u8]) -> Result<usize, Failed> {
        let Ok(()) = self.bytes.extend_from_slice(bytes) else {
            self.faults = self.faults.saturating_add(1);
            return Err(Failed);
        };
        Ok(bytes.len())
    }
}

/// The items as they stand in a run's text of version 2. `Err` is want of memory alone.
pub fn items_text(alloc: Global, items: &[LogItem]) -> Result<Vec<u8>, AllocError>
    requires { All IsSpelledItem items.now }
    ensures { IfOk result (λ text. text.items ≡ flat_map (item_text 2) items.now) }
{
    let mut sink = Gathered::new(alloc);
    let mut page = Page::new();
    let Ok(()) = put_items(&mut sink, &mut page, items) else {
        return Err(AllocError);
    };
    let Ok(()) = page.finish(&mut sink) else {
        return Err(AllocError);
    };
    Ok(sink.into_bytes())
}
