//! Where the lines of a text begin.
ghost use Rattle.std.specs.Prelude.{◌≡◌, ℕ, ◌≤◌, length};
ghost use Rattle.dm_base.specs.declared.limits.TheConstants.{TEXT};
ghost use Rattle.dm_tape.specs.Begins.{BeginsAt};

use crate::faults::RoundFault;
use dm_cert::CertFault;
use dm_text::Lines;

/// The fault, with the byte at which its line begins.
pub(crate) fn placed(bytes: &[u8], told: CertFault) -> RoundFault
    requires { length bytes.now ≤ TEXT }
    ensures told { result.told ≡ told }
    ensures at { (byte : ℕ) → BeginsAt bytes.now told.line byte → result.byte ≡ byte }
    ensures none { told.line ≡ 0 → result.byte ≡ 0 }
{
    RoundFault {
        told,
        byte: begin_of(bytes, told.line),
    }
}

/// The byte at which the line of this number begins; 0 for line 0, and the end where there are fewer lines.
fn begin_of(bytes: &[u8], line: u32) -> usize
    requires { length bytes.now ≤ TEXT }
    ensures at { (byte : ℕ) → BeginsAt bytes.now line byte → result ≡ byte }
    ensures none { line ≡ 0 → result ≡ 0 }
{
    let mut lines = Lines::new(bytes);
    while lines.line() < line {
        let Some(_) = lines.next_line() else {
            return bytes.len();
        };
    }
    bytes.len() - lines.left().len()
}
