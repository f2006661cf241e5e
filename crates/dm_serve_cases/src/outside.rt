//! What a server is handed besides its store and its feeds.

use dm_serve::Pace;

/// A pace that ends a server once nothing was new so often.
#[derive(Drop)]
pub struct Pauses {
    pub left: u32,
}

impl Pace for Pauses {
    ghost told = { λ _. Unit {0} };

    fn begin(&mut self, _entries: u32) {}

    fn next(&mut self) -> bool {
        let goes_on = self.left > 0;
        self.left = self.left.saturating_sub(1);
        goes_on
    }
}
