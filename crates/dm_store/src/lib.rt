//! A journal of blocks that survives a crash at any moment.
//!
//! It stands on dm_text, which reads a number from its front, on dm_outside for counts of faults, and on itoa for digits.
//!
//! A block is an open gate `+`, the length of its content in decimal digits, LF, and the content. Behind the last block stands a
//! closed gate `~`. Blocks count up to the first whose gate is not open. To commit a block is to write it behind the closed gate,
//! to sync, to open the gate, and to sync. No checksum is trusted.
//!
//! # What is promised
//!
//! Of a [`Store`] that tells, this is promised. It tells on, unless a reply file is put anew with a text that does not go on from
//! what the file showed.
//!
//! At `Ok` of [`Journal::commit`] every later crash leaves the block. A crash at any moment of the call leaves the blocks from
//! before, or one more. [`Journal::recover`] gives exactly the whole blocks and repairs the end behind them. A crash at any
//! moment of it leaves the same blocks.
//!
//! [`Journal::recover`] refuses, and leaves as it stands, what no crash leaves: a file that is no journal (`NoJournal`), a file
//! of another version (`OtherVersion`), and a file where, behind the blocks, an open gate stands before less than a block
//! (`Broken`). If it would not have refused a journal, it never refuses what a crash during either call left of that journal.
//!
//! `Full` comes only where the journal would be longer than [`LARGEST_JOURNAL`], and there no commit answers `Ok`. `Failed` and
//! `Unread` come only where the store's count of faults rose, or stands at its last value. At `Unread` the journal could not be
//! read, and stands as it did. At `Failed` of [`Journal::recover`] the journal was read, and nothing is refused of it.
//!
//! [`first_block`] reads the block in front of a file, where one stands there. [`refusal`] tells why the file of a journal is
//! left as it stands, or that its end is repaired.
//!
//! Laws, in [`laws`]: in each file one list of contents stands, and no other; a journal of a head and a round has the bytes that
//! were worked out by hand; and at each moment of the life of a store in memory a crash left some image.
//!
//! [`MemStore`] is a store in memory that tells. Some image is always left of a store that tells: what a read returns, with what is
//! shown. What was shown is never taken back: at whatever moment a crash comes, each reply file shows a front of what it shows
//! now (`shows_on`). A new one tells, and has its journal on the disk: it is found (`IsFound`) with the blocks that stand there.
//! [`MemStore::after_crash`] gives a store that a crash at this moment may leave, torn as asked. `dm_store_cases` tries that calls
//! fail where they are listed.
//!
//! # What is argued of a real folder
//!
//! [`FileStore`] tells nothing, so nothing is promised of it. It is argued that a folder is such a store. A read is `read`, a
//! write is `lseek` and `write`, a cut is `ftruncate`, and a sync is `fdatasync`, which also puts a changed length on the disk.
//!
//! This has to hold of the file system. After a sync that answered well the bytes are on the disk, whatever comes. A write that
//! was cut short, or whose sync failed, changes no byte outside its range. A cut leaves a front.
//!
//! To put a file anew, a new file is synced and takes its name by a rename, with the folder synced. So the name leads to the old
//! bytes or to the new ones. [`FileStore::open`] puts the journal anew with what it reads of it. So what is read at a start is on
//! the disk, also behind a sync that failed in an earlier life: there a system may keep bytes in memory that it takes for written.
//!
//! A reply file is appended to and never synced, since the journal has its lines. It has shown what a read of it returns. After a
//! loss of power, that may be less than people saw; the journal has the rest.
//!
//! One server has the folder: it holds `flock` on `lock`, which the system lets go where the process ends. [`FileStore::open`]
//! answers `Locked` where another server has it. Each sync checks by device and inode whether `lock` and `journal` still are the
//! files that were opened, and fails where they are not. That happens where the folder was moved, removed or put anew under a
//! running server. Before bytes are shown, the same is checked of the reply file. Nothing of this holds on a disk that loses what
//! it said was written.
#![tactic(auto)]

mod blocks;
mod faults;
mod folder;
mod journal;
pub mod laws;
mod memory;
mod store;

pub use blocks::{VERSION, first_block, refusal};
pub use faults::StoreError;
pub use folder::{FileStore, OpenError};
pub use journal::{Journal, LARGEST_JOURNAL};
pub use memory::{MemStore, Tear};
pub use store::Store;
