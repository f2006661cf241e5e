//! A store over a real folder. Nothing is told of it.
ghost use Rattle.std.specs.Prelude.{◌≡◌, ◌≤◌};
ghost use Rattle.dm_outside.specs.Faults.{HasRisen};
ghost use Rattle.dm_store.specs.Calls.{HasCause};

use crate::{Store, StoreError};
use std::alloc::{AllocError, Global};
use std::fs::{File, OpenOptions, TryLockError};
use std::io;
use std::io::{Read as _, Seek as _, SeekFrom, Write as _};
use std::marker::Model;
use std::os::unix::fs::MetadataExt as _;
use std::rt::Files;

/// Why the store of a folder was not opened.
#[derive(Clone, Copy, Debug, PartialEq, Eq)]
pub enum OpenError {
    /// There was no memory.
    OutOfMemory,
    /// Another server has the folder.
    Locked,
    /// The folder or a file of it cannot be opened, made or read.
    Failed,
    /// The journal cannot be put anew. It stands as it did.
    Unwritten,
}

impl From<AllocError> for OpenError {
    fn from(_: AllocError) -> OpenError {
        OpenError::OutOfMemory
    }
}

impl From<io::Error> for OpenError {
    fn from(_: io::Error) -> OpenError {
        OpenError::Failed
    }
}

/// A file that is held open, and the path that it was opened by.
#[derive(Drop)]
struct NamedFile {
    path: String,
    file: File,
}

/// A store over a folder, with its files `lock`, `journal`, and `reply-1.txt` and so on. It keeps the lock as long as it
/// lives.
#[derive(Drop)]
pub struct FileStore<R: Files<File = File> + Drop> {
    files: R,
    alloc: Global,
    folder: File,
    lock: NamedFile,
    journal: NamedFile,
    replies: Vec<NamedFile>,
    faults: u64,
}

impl<R: Files<File = File> + Drop> Model for FileStore<R> {
    ghost use Rattle.std.specs.Prelude.{ℕ};

    ghost Value = { ℕ };

    ghost view = { λ store. store.faults };
}

/// Opens a file to read and to write, and makes it where it is not there.
fn open_or_make<R: Files<File = File>>(files: &R, path: &str) -> io::Result<File> {
    let mut how = OpenOptions::new();
    how.read(true);
    how.write(true);
    how.create(true);
    how.open(files, path)
}

/// Opens a file to read and to write, and keeps its path.
fn open_named<R: Files<File = File>>(files: &R, path: String) -> io::Result<NamedFile> {
    let file = open_or_make(files, &path)?;
    Ok(NamedFile { path, file })
}

/// A fault where the path no longer leads to the file: then people no longer see what is written, and the next server would
/// not find it.
fn look_for<R: Files<File = File>>(files: &R, named: &NamedFile) -> io::Result<()> {
    let held = named.file.metadata()?;
    let found = files.metadata(&named.path)?;
    if held.dev() == found.dev() && held.ino() == found.ino() {
        Ok(())
    } else {
        Err(io::Error::from(io::ErrorKind::NotFound))
    }
}

/// Puts the journal on the disk. A fault where the folder was taken away since it was opened, or its journal.
fn sync_and_look<R: Files<File = File>>(
    files: &R,
    journal: &NamedFile,
    lock: &NamedFile,
) -> io::Result<()> {
    journal.file.sync_data()?;
    look_for(files, lock)?;
    look_for(files, journal)
}

/// Opens a file to append to it, makes it where it is not there, and keeps its path.
fn open_to_append<R: Files<File = File>>(files: &R, path: String) -> io::Result<NamedFile> {
    let mut how = OpenOptions::new();
    how.append(true);
    how.create(true);
    let file = how.open(files, &path)?;
    Ok(NamedFile { path, file })
}

/// Appends to a file. A fault where people would not see it, since its path no longer leads to it.
fn append<R: Files<File = File>>(files: &R, named: &mut NamedFile, bytes: &[u8]) -> io::Result<()> {
    look_for(files, named)?;
    named.file.write_all(bytes)
}

/// All the bytes of a file.
fn read_whole(alloc: Global, file: &mut File) -> Result<Vec<u8>, StoreError> {
    let Ok(about) = file.metadata() else {
        return Err(StoreError::Failed);
    };
    let Ok(len) = usize::try_from(about.len()) else {
        return Err(StoreError::OutOfMemory);
    };
    let mut bytes = zeros(alloc, len)?;
    let Ok(_) = file.seek(SeekFrom::Start(0)) else {
        return Err(StoreError::Failed);
    };
    let Ok(()) = file.read_exact(&mut bytes) else {
        return Err(StoreError::Failed);
    };
    Ok(bytes)
}

fn zeros(alloc: Global, len: usize) -> Result<Vec<u8>, AllocError> {
    vec![in alloc; 0u8; len]
}

/// Writes the bytes from an offset on.
fn write_from(file: &mut File, at: usize, bytes: &[u8]) -> io::Result<()> {
    file.seek(SeekFrom::Start(at as u64))?;
    file.write_all(bytes)
}

/// Puts a file anew, with the rights that it has: the text is written and synced under another name, which then takes the file's
/// place.
fn put_anew<R: Files<File = File>>(
    files: &R,
    folder: &File,
    new: &str,
    path: &str,
    text: &[u8],
) -> io::Result<()> {
    let mut file = File::create(files, new)?;
    file.set_permissions(files.metadata(path)?.permissions())?;
    file.write_all(text)?;
    file.sync_all()?;
    files.rename(new, path)?;
    folder.sync_all()
}

/// Puts a reply file anew, and opens it.
fn renewed<R: Files<File = File>>(
    files: &R,
    folder: &File,
    new: &str,
    path: String,
    text: &[u8],
) -> io::Result<NamedFile> {
    put_anew(files, folder, new, &path, text)?;
    open_to_append(files, path)
}

/// Puts the journal anew with what a read gives. Where a sync of an earlier server failed, that may stand in memory alone, and no
/// later sync of the same file has to say so.
fn put_journal<R: Files<File = File>>(
    alloc: Global,
    files: &R,
    folder: &File,
    journal: NamedFile,
) -> Result<NamedFile, OpenError> {
    let NamedFile { path, mut file } = journal;
    let bytes = match read_whole(alloc, &mut file) {
        Ok(bytes) => bytes,
        Err(StoreError::OutOfMemory) => return Err(OpenError::OutOfMemory),
        Err(_) => return Err(OpenError::Failed),
    };
    let new = format!(in alloc; "{path}.new")?;
    let Ok(()) = put_anew(files, folder, &new, &path, &bytes) else {
        return Err(OpenError::Unwritten);
    };
    Ok(open_named(files, path)?)
}

/// The path of the reply file of a feed; feeds count from 0 and files from 1.
fn reply_path(alloc: Global, folder: &str, feed: usize) -> Result<String, AllocError> {
    let file = feed as u128 + 1;
    format!(in alloc; "{folder}/reply-{file}.txt")
}

impl<R: Files<File = File> + Drop> FileStore<R> {
    /// Locks the folder, opens its files, of so many feeds, and puts the journal anew; what is not there is made. `Locked` comes
    /// where another server has it, and nothing but the lock's file was made then.
    pub fn open(
        alloc: Global,
        files: R,
        path: String,
        feeds: u32,
    ) -> Result<FileStore<R>, OpenError> {
        let lock = open_named(&files, format!(in alloc; "{path}/lock")?)?;
        match lock.file.try_lock() {
            Ok(()) => {}
            Err(TryLockError::WouldBlock) => return Err(OpenError::Locked),
            Err(TryLockError::Error(_)) => return Err(OpenError::Failed),
        }
        let journal = open_named(&files, format!(in alloc; "{path}/journal")?)?;
        let mut replies = Vec::new(alloc);
        for feed in 0..feeds {
            let name = reply_path(alloc, &path, feed as usize)?;
            replies
                .push(open_to_append(&files, name)?)
                .map_err(AllocError::from)?;
        }
        let folder = File::open(&files, &path)?;
        let journal = put_journal(alloc, &files, &folder, journal)?;
        Ok(FileStore {
            files,
            alloc,
            folder,
            lock,
            journal,
            replies,
            faults: 0,
        })
    }

    // One fault more: the count stands at its last value.
    fn fault(&mut self) -> StoreError
        ensures failed { result ≡ StoreError.Failed }
        ensures risen { HasRisen self.old self.new }
        ensures later { self.old ≤ self.new }
    {
        self.faults = self.faults.saturating_add(1);
        StoreError::Failed
    }

    // The answer of a call of the system.
    fn told(&mut self, answer: io::Result<()>) -> Result<(), StoreError>
        ensures { HasCause self.old self.new result }
    {
        match answer {
            Ok(()) => Ok(()),
            Err(_) => Err(self.fault()),
        }
    }
}

impl<R: Files<File = File> + Drop> Store for FileStore<R> {
    ghost use Rattle.std.specs.Prelude.{[]};

    ghost tells = { λ _. ⊥ };

    ghost seen = { λ _. [] };

    ghost shown = { λ _. [] };

    ghost may_leave = { λ _ _. ⊥ };

    ghost moment = { λ _. 0 };

    ghost left_since = { λ _ _ _. ⊥ };

    ghost faults = { λ count. count };

    ghost shows_now = { λ store image told left. absurd told };

    ghost counts_now = { λ store t image told le left. absurd told };

    ghost only_now = { λ store image told left. absurd told };

    ghost shows_on = { λ store t image told left. absurd told };

    ghost leaves_now = { λ store told. absurd told };

    fn read(&mut self, alloc: Global) -> Result<Vec<u8>, StoreError> {
        match read_whole(alloc, &mut self.journal.file) {
            Ok(bytes) => Ok(bytes),
            Err(StoreError::OutOfMemory) => Err(StoreError::OutOfMemory),
            Err(_) => Err(self.fault()),
        }
    }

    fn write_at(&mut self, at: usize, bytes: &[u8]) -> Result<(), StoreError> {
        let answer = write_from(&mut self.journal.file, at, bytes);
        self.told(answer)
    }

    fn cut(&mut self, len: usize) -> Result<(), StoreError> {
        let answer = self.journal.file.set_len(len as u64);
        self.told(answer)
    }

    fn sync(&mut self) -> Result<(), StoreError> {
        let answer = sync_and_look(&self.files, &self.journal, &self.lock);
        self.told(answer)
    }

    fn read_shown(&mut self, alloc: Global, feed: usize) -> Result<Vec<u8>, StoreError> {
        let Some(reply) = self.replies.get(feed) else {
            return Err(self.fault());
        };
        let Ok(mut file) = File::open(&self.files, &reply.path) else {
            return Err(self.fault());
        };
        match read_whole(alloc, &mut file) {
            Ok(bytes) => Ok(bytes),
            Err(StoreError::OutOfMemory) => Err(StoreError::OutOfMemory),
            Err(_) => Err(self.fault()),
        }
    }

    fn show(&mut self, feed: usize, bytes: &[u8]) -> Result<(), StoreError> {
        let Some(reply) = self.replies.get_mut(feed) else {
            return Err(self.fault());
        };
        let answer = append(&self.files, reply, bytes);
        self.told(answer)
    }

    fn renew(&mut self, feed: usize, text: &[u8]) -> Result<(), StoreError> {
        let Some(reply) = self.replies.get_mut(feed) else {
            return Err(self.fault());
        };
        let path = reply.path.clone()?;
        let new = format!(in self.alloc; "{path}.new")?;
        let answer = renewed(&self.files, &self.folder, &new, path, text);
        match answer {
            Ok(file) => {
                *reply = file;
                Ok(())
            }
            Err(_) => Err(self.fault()),
        }
    }
}
