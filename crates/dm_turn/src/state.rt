//! What a state that is handed out has.
ghost use Rattle.std.specs.Prelude.{◌≡◌, List, length};
ghost use Rattle.dm_rows.specs.declared.messages.Entry.{Entry as AnEntry};

/// A state with a history of entries, over plain data that never change.
pub trait HasHistory {
    /// What never changes. It is used in contracts alone.
    type Base;

    // The entries of the state, in order.
    ghost history: { Self → List AnEntry };

    // What never changes.
    ghost base: { Self → Self.Base };

    /// The number of entries.
    fn entries(&self) -> u32
        ensures { result ≡ length (history self.now) };
}
