//! Why bytes do not begin with a round's text.

use dm_cert::CertFault;

/// What is told of the first line that is wrong, and the byte, from 0, at which that line begins: all lines before it are as the
/// format says.
#[derive(Clone, Copy, PartialEq, Eq)]
pub struct RoundFault {
    pub told: CertFault,
    pub byte: usize,
}
