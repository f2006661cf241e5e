//! What the calls of the outside answer in place of a result.

/// A call of the outside failed. The object that was called has counted the fault.
#[derive(Clone, Copy, Debug, PartialEq, Eq)]
pub struct Failed;

/// Why the bytes of a source were not all taken.
#[derive(Clone, Copy, Debug, PartialEq, Eq)]
pub enum TakeFault {
    /// A read failed.
    ReadFault,
    /// The source holds more bytes than the limit.
    TooLong,
    /// There was no memory for the bytes.
    OutOfMemory,
}

/// A write failed before all was written.
#[derive(Clone, Copy, Debug, PartialEq, Eq)]
pub struct WriteFault;
