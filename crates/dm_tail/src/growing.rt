//! Feeds that others append to.
ghost use Rattle.std.specs.Prelude.{◌≡◌, ◌≤◌, ℕ, List, Option, length, take, IfOk, OnErr};
ghost use Rattle.dm_outside.specs.Faults.{Counts};
ghost use Rattle.dm_tail.specs.Given.{GivesFront, given_behind};

use dm_outside::Failed;

/// A feed that others append to while it is read.
pub trait Growing {
    /// All the bytes that it has given, where it tells them.
    ghost given: { Self → Option (List ℕ) };

    /// All the bytes that others write to it, before and later, where it tells them: no call changes them.
    ghost source: { Self → Option (List ℕ) };

    /// How many of its calls have failed: it never falls.
    ghost faults: { Self → ℕ };

    /// Reads the next bytes into the front of `buf` and answers how many: none where there are no more yet. After a failed read it
    /// has given nothing of them.
    fn read(&mut self, buf: &mut [u8]) -> Result<usize, Failed>
        ensures count { IfOk result (λ n. n ≤ length buf.old) }
        ensures gives { IfOk result (λ n. given self.new ≡ given_behind (given self.old) (take n buf.new)) }
        ensures keeps { OnErr result (given self.new ≡ given self.old) }
        ensures source { source self.new ≡ source self.old }
        ensures cause { Counts (faults self.old) (faults self.new) result };

    /// Waits until all the bytes that it has given are on the disk.
    fn sync(&mut self) -> Result<(), Failed>
        ensures same { given self.new ≡ given self.old }
        ensures source { source self.new ≡ source self.old }
        ensures cause { Counts (faults self.old) (faults self.new) result };

    /// A feed that tells its source tells what it has given, and has given a front of that.
    ghost from_source: { (feed : Self) → GivesFront (source feed) (given feed) };
}
