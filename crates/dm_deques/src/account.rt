//! What a thread has put on a deque and taken off it.

use std::collections::LinkedList;

/// Whether the account is the owner's, who alone puts tasks and lends tallies, and whether it is that of a tally that is out; the
/// tasks that were put and taken, each in order; and how many tallies are out, of those that it has lent. No value of it is made.
pub struct Account<T> {
    pub puts: bool,
    pub is_out: bool,
    pub put: LinkedList<T>,
    pub taken: LinkedList<T>,
    pub lent: u64,
}
