//! What the stages of a command share.

use std::alloc::Global;

/// What a call may use: threads, memory, what searches for plans, of all rows and of a window, and the gate that threads pass.
#[derive(Drop)]
pub struct CommandMeans<'r, 's, 'w, 'g, R, F, W, G> {
    pub rt: &'r R,
    pub alloc: Global,
    pub search: &'s F,
    pub search_window: &'w W,
    pub gate: &'g G,
}
