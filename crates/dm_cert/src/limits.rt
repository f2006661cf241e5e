//! A limit of runs.

/// The most plans that each feed of a run may be allowed.
pub const PLANS: usize = 4_096;
