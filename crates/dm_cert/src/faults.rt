//! Why bytes give no plan.

/// What is wrong with the text of a plan.
#[derive(Clone, Copy, PartialEq, Eq)]
pub enum CertKind {
    /// The line is the first that is not as the format says.
    Form,

    /// The bytes end before this line is whole with its LF. All lines before it are as the format says.
    Truncated,

    /// All lines are as the format says, but they show no whole tree: no tree has these leaves in this order, or the nodes
    /// are not one tree in preorder. The line is 1.
    NotATree,

    /// There is not enough memory. The line is 0.
    OutOfMemory,
}

/// Why bytes give no plan, and at which line, from 1.
#[derive(Clone, Copy, PartialEq, Eq)]
pub struct CertFault {
    pub line: u32,
    pub kind: CertKind,
}

/// There is not enough memory.
pub(crate) const WANT_OF_MEMORY: CertFault = CertFault {
    line: 0,
    kind: CertKind::OutOfMemory,
};
