//! How a case came out.

use std::alloc::AllocError;
use std::io;

/// Why a case fails.
#[derive(Clone, Copy, Debug)]
pub enum Failure {
    /// The two ways differ after so many steps.
    Differs(u32),

    /// What the case is there for came too seldom.
    TooFew,

    /// Its network, rows or times cannot be made.
    NoDay,
    OutOfMemory,
}

impl From<AllocError> for Failure {
    fn from(_error: AllocError) -> Failure {
        Failure::OutOfMemory
    }
}

/// Prints `NAME ok`, or why the case fails.
pub fn report<R: Print>(rt: &R, name: &str, outcome: Result<(), Failure>) -> io::Result<()> {
    match outcome {
        Ok(()) => println!(rt; "{name} ok"),
        Err(Failure::Differs(steps)) => println!(rt; "{name} differs after {steps} steps"),
        Err(Failure::TooFew) => println!(rt; "{name} tries too little"),
        Err(Failure::NoDay) => println!(rt; "{name} has no day"),
        Err(Failure::OutOfMemory) => println!(rt; "{name} has no memory"),
    }
}
