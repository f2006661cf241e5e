//! What becomes of the boards of a server, under one name for clauses.
ghost use Rattle.std.specs.Prelude.{ℕ, List};
ghost use Rattle.dm_network.specs.Net.{Net};
ghost use Rattle.dm_cert.specs.declared.notes.Note.{Note};
ghost use Rattle.dm_publish.specs.Value.{Published};

use dm_outside::Board;

/// The boards of a server.
pub type BoardList = Vec<Box<dyn Board>>;

/// Boards that are kept up with times, for clauses alone: there is nothing to call.
pub trait Shown {
    /// Whether the boards have come from the first list to the second one as a server leaves them that publishes this:
    /// each that no note names shows what is published, and each note has its cause.
    ghost up: { Self → Self → Net → Published → List Note → Type 0 };
}

impl Shown for Vec<Box<dyn Board>> {
    ghost use Rattle.dm_publish.specs.Since.{AreUpSince};

    ghost up = { λ old new net shown notes. AreUpSince (λ b. (Board-box b).place b.value) (λ b. (Board-box b).times b.value)
        (λ b. (Board-box b).flags b.value) (λ b. (Board-box b).faults b.value) (λ b. (Board-box b).is_sound b.value) net shown notes
        old.items new.items };
}
