//! Whether a server may begin a store or go on with one, and over which files of the network a store was begun.
use dm_words::{LiveWords, ServeWords, read_serve_words};
use sha2::{Digest, Sha256};
use std::alloc::AllocError;
use std::fs::File;
use std::io::{ErrorKind, Read as _, Write as _};
use std::rt::Files;
use std::{fs, io};

/// So many bytes of a file are read at once.
const PIECE: usize = 8_192;

/// A journal of so many bytes takes about a second to take up, on a slow host.
const LONG: u64 = 8_000_000;

/// The word that a server is refused by over its store, if it is. A store is begun where its journal has a byte. `list` has the files
/// of the network as they are now, if they can be read: that they cannot is said where the network is read.
pub fn refusal<R: AllocGlobal + Files<File = File>>(
    rt: &R,
    store: &str,
    is_new: bool,
    list: Option<&str>,
) -> io::Result<Option<&'static str>> {
    let journal = format!(in rt.alloc(); "{store}/journal")?;
    let is_begun = match fs::metadata(rt, &journal) {
        Ok(about) => about.len() > 0,
        Err(error) if error.kind() == ErrorKind::NotFound => false,
        Err(error) => return Err(error),
    };
    match (is_new, is_begun) {
        (true, true) => Ok(Some("exists")),
        (true, false) => Ok(None),
        (false, false) => Ok(Some("missing")),
        (false, true) => refusal_of_files(rt, store, list),
    }
}

/// The word that a store is refused by over the files of the network, if it is. One of before has no list.
pub fn refusal_of_files<R: AllocGlobal + Files<File = File>>(
    rt: &R,
    store: &str,
    list: Option<&str>,
) -> io::Result<Option<&'static str>> {
    let Some(list) = list else {
        return Ok(None);
    };
    let path = format!(in rt.alloc(); "{store}/files")?;
    match fs::read_to_string(rt, &path) {
        Ok(listed) if has_lines(&listed, list) => Ok(None),
        Ok(_) => Ok(Some("files")),
        Err(error) if error.kind() == ErrorKind::NotFound => Ok(None),
        Err(error) if error.kind() == ErrorKind::OutOfMemory => Err(error),
        Err(_) => Ok(Some("files")),
    }
}

/// Says that a server takes up what its store holds, where the journal is long.
pub fn say_taking_up<R: Eprint + AllocGlobal + Files<File = File>>(
    rt: &R,
    words: &[String],
) -> io::Result<()> {
    let Some(LiveWords::Serve(server) | LiveWords::Begin(server)) = read_serve_words(words) else {
        return Ok(());
    };
    let store = server.store;
    let Ok(journal) = format!(in rt.alloc(); "{store}/journal") else {
        return Ok(());
    };
    let bytes = match fs::metadata(rt, journal.as_str()) {
        Ok(about) => about.len(),
        Err(_) => return Ok(()),
    };
    if bytes < LONG {
        return Ok(());
    }
    let megabytes = bytes / 1_000_000;
    eprintln!(rt; "dispatcher: taking up {megabytes} MB of {journal}")
}

/// Lists the files of the network in a store that is begun, and puts that on the disk.
pub fn put_list<R: AllocGlobal + Files<File = File>>(
    rt: &R,
    store: &str,
    list: &str,
) -> io::Result<()> {
    let path = format!(in rt.alloc(); "{store}/files")?;
    let new = format!(in rt.alloc(); "{store}/files.new")?;
    let mut file = File::create(rt, &new)?;
    file.write_all(list.as_bytes())?;
    file.sync_all()?;
    fs::rename(rt, &new, &path)?;
    File::open(rt, store)?.sync_all()
}

/// The files of the network as they are now, if they can be read, a line for each with its check sum, as `sha256sum` writes it.
pub fn list_of<R: AllocGlobal + Files<File = File>>(
    rt: &R,
    server: &ServeWords<'_>,
) -> Result<Option<String>, AllocError> {
    match list_in(rt, server.run.files.folder) {
        Ok(list) => Ok(Some(list)),
        Err(error) if error.kind() == ErrorKind::OutOfMemory => Err(AllocError),
        Err(_) => Ok(None),
    }
}

/// The files of the network in a folder.
fn list_in<R: AllocGlobal + Files<File = File>>(rt: &R, folder: &str) -> io::Result<String> {
    let activities = sum_of(rt, folder, "Activities-expanded.giv")?;
    let events = sum_of(rt, folder, "Events-expanded.giv")?;
    Ok(format!(in rt.alloc();
        "{activities}  Activities-expanded.giv\n{events}  Events-expanded.giv\n"
    )?)
}

/// Whether each line of a list is a whole line of another one, where the files may be in some folder.
fn has_lines(listed: &str, list: &str) -> bool {
    let Some((whole, _)) = listed.rsplit_once("\n") else {
        return false;
    };
    list.lines().all(|line| whole.lines().any(|other| is_same_file(other, line)))
}

/// Whether a line has the check sum and the name of another one, which names no folder.
fn is_same_file(listed: &str, line: &str) -> bool {
    match (listed.split_once("  "), line.split_once("  ")) {
        (Some((sum, path)), Some((wanted, name))) => sum == wanted && last_part(path) == name,
        _ => false,
    }
}

/// What stands behind the last slash of a path.
fn last_part(path: &str) -> &str {
    match path.rsplit_once("/") {
        Some((_, name)) => name,
        None => path,
    }
}

/// The check sum of a file, in hexadecimal digits.
fn sum_of<R: AllocGlobal + Files<File = File>>(
    rt: &R,
    folder: &str,
    name: &str,
) -> io::Result<String> {
    let path = format!(in rt.alloc(); "{folder}/{name}")?;
    let digest = digest_of(rt, &path)?;
    Ok(hex::encode(rt.alloc(), digest)?)
}

/// The digest of a file.
fn digest_of<R: Files<File = File>>(rt: &R, path: &str) -> io::Result<[u8; 32]> {
    let about = fs::metadata(rt, path)?;
    // A read of what is no file may wait for ever.
    if !about.is_file() {
        return Err(io::Error::from(ErrorKind::InvalidInput));
    }
    let mut file = File::open(rt, path)?;
    let mut hasher = Sha256::new();
    let mut buffer = [0u8; PIECE];
    for _piece in 0..about.len() / PIECE as u64 {
        file.read_exact(&mut buffer)?;
        hasher.update(buffer.as_slice());
    }
    let rest = &mut buffer[..(about.len() % PIECE as u64) as usize];
    file.read_exact(rest)?;
    hasher.update(&*rest);
    Ok(hasher.finalize())
}
