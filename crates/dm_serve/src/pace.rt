//! How a server waits where nothing is new.
ghost use Rattle.std.specs.Prelude.{◌≡◌, false};

/// What a server does where nothing is new.
pub trait Pace {
    /// It was told that the server is to end.
    ghost told: { Self → Type 0 };

    /// The server answers from now on, with so many entries.
    fn begin(&mut self, entries: u32);

    /// Waits a little, and tells whether the server is to go on.
    fn next(&mut self) -> bool
        ensures { result ≡ false → told self.new };
}
