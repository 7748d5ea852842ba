//! A journal's file in the file system.
//!
//! What is assumed of it is written here and nowhere else. No contract can say what a file gives or takes: `Opened`
//! makes each call that it notes, and the clauses of a `Device` speak of a real disk only if
//! 1. nobody else writes the file while it is open, but to delete, replace or cut it: it is locked, its owner alone may
//!    write it, and each write looks at its name and its length first;
//! 2. `write_all_at` inside the file leaves after a crash each byte of its range as it was or as it was written, and
//!    all others as they were: so does each disk that finishes a sector which it has begun, and the range was written
//!    before, so that no block is given to the file then;
//! 3. `set_len` leaves after a crash some length between the old and the new one, and zeros after the old end;
//! 4. after a `sync_data` that succeeds a crash leaves what a read returns of what was written since the file was
//!    opened. With `Syncing::Never` no such call is made, and a crash is then the program's alone, after which the
//!    kernel still has what was written.
//!
//! That what a read returned is on the disk isn't assumed: after a sync that failed in an earlier process it need not
//! be. So `recover` writes it again before anything rests on a sync; a test that watches the system's calls sees that
//! it does.

ghost use Rattle.std.specs.Prelude.{◌≡◌, [], IfOk};
ghost use Rattle.journal_file.specs.OpenedFile.{is_each, has_syncs, opened_file};
ghost use Rattle.journal_file.specs.Tracked.{tracked_seen};

use crate::raw_file::{ASIDE, FOUND, RESIZED, RawFault, RawFile, SYNCED, WRITTEN};
use crate::record::Record;
use crate::tracked::Tracked;
use std::alloc::Global;
use std::fs::{self, File, Metadata, OpenOptions, Permissions, TryLockError};
use std::io::{self, Read, Write};
use std::os::fd::AsRawFd;
use std::os::unix::fs::{FileExt, MetadataExt, OpenOptionsExt, PermissionsExt};
use std::path::Path;

const ZEROS_AT_ONCE: usize = 65_536;

/// Its owner alone may read and write a journal.
const OWNERS_ALONE: u32 = 0o600;

/// That others may write a file.
const OTHERS_WRITE: u32 = 0o022;

/// How many numbers a file of what was put aside may have.
const MOST_ASIDE: u64 = 1_000_000;

/// How what was written comes to the disk.
#[derive(Clone, Copy, Debug, PartialEq, Eq)]
pub enum Syncing {
    /// Each commit is synced: it survives a crash of the machine.
    Each,
    /// None is: it survives a crash of the program, and not one of the machine.
    Never,
}

/// An open file of the file system, with its name and the length that it was left with.
#[derive(Drop)]
struct Handle<'a> {
    host: &'a HostRuntime,
    name: String,
    file: File,
    len: u64,
    syncing: Syncing,
}

/// An open file of the file system, and the calls that were made on it.
#[derive(Drop)]
pub struct Opened<'a> {
    handle: Handle<'a>,
    pub(crate) calls: Record,
}

/// Why a journal's file can't be opened.
#[derive(Clone, Copy, Debug)]
pub enum OpenFileFault {
    /// Another run has it open.
    Busy,
    /// It is a link, no regular file, or has another name beside this one.
    NotRegular,
    /// Another user owns it.
    Foreign,
    /// Others than its owner may write it.
    Shared,
    /// It is the input or an output of this process.
    Stream,
    Failed(io::Error),
}

impl From<io::Error> for OpenFileFault {
    fn from(error: io::Error) -> OpenFileFault {
        OpenFileFault::Failed(error)
    }
}

/// Writes zeros from the old length to the new one, so that blocks are ready for the bytes that come.
fn fill(file: &File, from: u64, to: u64) -> io::Result<()> {
    let zeros = [0u8; ZEROS_AT_ONCE];
    let mut at = from;
    'chunks: for _ in 0..u64::MAX {
        if at >= to {
            return Ok(());
        }
        let count = (to - at).min(ZEROS_AT_ONCE as u64);
        file.write_all_at(&zeros[..count as usize], at)?;
        at += count;
    }
    Ok(())
}

/// Whether these are of one file.
fn is_same_file(one: &Metadata, other: &Metadata) -> bool {
    one.dev() == other.dev() && one.ino() == other.ino()
}

/// The folder of a file.
fn folder_of(path: &str) -> Path<'_> {
    match Path::new(path).parent() {
        Some(folder) if !folder.as_str().is_empty() => folder,
        _ => Path::new("."),
    }
}

/// Has a file's name put on the disk.
fn sync_name(host: &HostRuntime, path: &str, syncing: Syncing) -> io::Result<()> {
    match syncing {
        Syncing::Each => File::open(host, folder_of(path))?.sync_all(),
        Syncing::Never => Ok(()),
    }
}

/// The first file `NAME.cut-N` that there isn't, made, with its number.
fn make_aside(host: &HostRuntime, name: &str) -> io::Result<(u64, File)> {
    for number in 1..MOST_ASIDE {
        let path = format!(in host.alloc(); "{name}.cut-{number}")?;
        let mut options = OpenOptions::new();
        options.write(true).create_new(true).mode(OWNERS_ALONE);
        match options.open(host, path.as_str()) {
            Ok(file) => return Ok((number, file)),
            Err(error) if error.kind() == io::ErrorKind::AlreadyExists => {}
            Err(error) => return Err(error),
        }
    }
    Err(io::ErrorKind::AlreadyExists.into())
}

impl Handle<'_> {
    /// Whether the file is the one of its name still, and as long as it was left.
    fn is_as_left(&self) -> io::Result<bool> {
        let named = match fs::symlink_metadata(self.host, self.name.as_str()) {
            Ok(named) => named,
            Err(error) if error.kind() == io::ErrorKind::NotFound => return Ok(false),
            Err(error) => return Err(error),
        };
        let found = self.file.metadata()?;
        Ok(is_same_file(&found, &named) && found.nlink() == 1 && found.len() == self.len)
    }

    /// Looks whether others have changed the file.
    fn look(&self) -> Result<(), RawFault> {
        match self.is_as_left() {
            Ok(true) => Ok(()),
            Ok(false) => Err(RawFault::Changed),
            Err(_) => Err(RawFault::Failed),
        }
    }

    /// Writes bytes inside the file, which has to be as it was left.
    fn overwrite(&mut self, at: usize, bytes: &[u8]) -> Result<(), RawFault> {
        self.look()?;
        match self.file.write_all_at(bytes, at as u64) {
            Ok(()) => Ok(()),
            Err(_) => Err(RawFault::Failed),
        }
    }

    /// Changes the length, and fills what is new with zeros, so that a commit gives no block to the file.
    fn change_len(&mut self, len: u64) -> io::Result<()> {
        self.file.set_len(len)?;
        let before = self.len;
        self.len = len;
        match self.syncing {
            Syncing::Each => fill(&self.file, before, len),
            Syncing::Never => Ok(()),
        }
    }

    /// Changes the length of the file, which has to be as it was left. From then on its owner alone may read it, so
    /// that nobody else can hold its lock.
    fn resize(&mut self, len: u64) -> Result<(), RawFault> {
        self.look()?;
        let owners = Permissions::from_mode(OWNERS_ALONE);
        if self.file.set_permissions(owners).is_err() || self.change_len(len).is_err() {
            return Err(RawFault::Failed);
        }
        Ok(())
    }

    /// Writes bytes to a new file beside this one: its number.
    fn write_aside(&self, bytes: &[u8]) -> io::Result<u64> {
        let name = self.name.as_str();
        let (number, file) = make_aside(self.host, name)?;
        file.write_all_at(bytes, 0)?;
        if self.syncing == Syncing::Each {
            file.sync_all()?;
        }
        sync_name(self.host, name, self.syncing)?;
        Ok(number)
    }

    /// Has what was written put on the disk, where that is asked for.
    fn put_on_disk(&self) -> Result<(), RawFault> {
        match self.syncing {
            Syncing::Each if self.file.sync_data().is_err() => Err(RawFault::Failed),
            _ => Ok(()),
        }
    }
}

impl RawFile for Opened<'_> {
    ghost calls = { λ file. file.calls.events };

    fn write_all_at(&mut self, at: usize, bytes: &[u8]) -> Result<(), RawFault> {
        let done = self.handle.overwrite(at, bytes);
        self.calls
            .note(&[WRITTEN, at as u64, u64::from(done.is_ok())], bytes);
        done
    }

    fn set_len(&mut self, len: usize) -> Result<(), RawFault> {
        let done = self.handle.resize(len as u64);
        self.calls
            .note(&[RESIZED, len as u64, u64::from(done.is_ok())], &[]);
        done
    }

    fn sync(&mut self) -> Result<(), RawFault> {
        let done = self.handle.put_on_disk();
        self.calls.note(&[SYNCED, 0, u64::from(done.is_ok())], &[]);
        done
    }

    fn put_aside(&mut self, bytes: &[u8]) -> Result<u64, RawFault> {
        let done = self.handle.write_aside(bytes);
        self.calls.note(&[ASIDE, 0, u64::from(done.is_ok())], bytes);
        match done {
            Ok(number) => Ok(number),
            Err(_) => Err(RawFault::Failed),
        }
    }
}

/// The file, made for its owner alone if it is missing. A link or a device of that name isn't opened.
fn open_or_make(host: &HostRuntime, path: &str) -> Result<File, OpenFileFault> {
    let mut options = OpenOptions::new();
    options
        .read(true)
        .write(true)
        .create_new(true)
        .mode(OWNERS_ALONE);
    match options.open(host, path) {
        Ok(file) => Ok(file),
        Err(error) if error.kind() == io::ErrorKind::AlreadyExists => {
            if !fs::symlink_metadata(host, path)?.is_file() {
                return Err(OpenFileFault::NotRegular);
            }
            Ok(options.create_new(false).open(host, path)?)
        }
        Err(error) => Err(OpenFileFault::Failed(error)),
    }
}

/// Whether a file is the input or an output of this process, as `>> FILE` makes it.
fn is_stream(host: &HostRuntime, found: &Metadata) -> bool {
    for name in ["/proc/self/fd/0", "/proc/self/fd/1", "/proc/self/fd/2"] {
        match fs::metadata(host, name) {
            Ok(stream) if is_same_file(found, &stream) => return true,
            _ => {}
        }
    }
    false
}

/// Why a file can't be a journal of this user's, if there is a reason: it has to be regular, of this name and no other,
/// the user's own, nobody else's to write, and no standard stream.
fn refusal(host: &HostRuntime, path: &str, file: &File) -> io::Result<Option<OpenFileFault>> {
    let (found, named) = (file.metadata()?, fs::symlink_metadata(host, path)?);
    // The folder of the process has its effective user as its owner.
    let user = fs::metadata(host, "/proc/self")?.uid();
    if !is_same_file(&found, &named) || !found.is_file() || found.nlink() != 1 {
        return Ok(Some(OpenFileFault::NotRegular));
    }
    if found.uid() != user {
        return Ok(Some(OpenFileFault::Foreign));
    }
    if found.mode() & OTHERS_WRITE != 0 {
        return Ok(Some(OpenFileFault::Shared));
    }
    if is_stream(host, &found) {
        return Ok(Some(OpenFileFault::Stream));
    }
    Ok(None)
}

/// Opens a journal's file, and locks it.
fn open_locked(host: &HostRuntime, path: &str) -> Result<File, OpenFileFault> {
    let mut file = open_or_make(host, path)?;
    // What is meant for a standard stream that was closed must not land in the journal.
    if file.as_raw_fd() <= 2 {
        file = file.try_clone()?;
    }
    if let Some(fault) = refusal(host, path, &file)? {
        return Err(fault);
    }
    match file.try_lock() {
        Ok(()) => Ok(file),
        Err(TryLockError::WouldBlock) => Err(OpenFileFault::Busy),
        Err(TryLockError::Error(error)) => Err(OpenFileFault::Failed(error)),
    }
}

/// Opens a file, or makes it, has its name put on the disk, and reads all its bytes.
fn open_whole<'a>(
    host: &'a HostRuntime,
    path: &str,
    syncing: Syncing,
    bytes: &mut Vec<u8>,
) -> Result<Handle<'a>, OpenFileFault>
    ensures { IfOk result (λ handle. handle.syncing ≡ syncing) }
{
    let mut file = open_locked(host, path)?;
    sync_name(host, path, syncing)?;
    file.read_to_end(bytes)?;
    let name = format!(in host.alloc(); "{path}").map_err(io::Error::from)?;
    Ok(Handle {
        host,
        name,
        file,
        len: bytes.len() as u64,
        syncing,
    })
}

/// Opens a file, or makes it, and reads all its bytes into `bytes`, which is empty. The file is locked until it is
/// dropped. It is refused where it is a link or no regular file, has another name beside this one, is another user's,
/// may be written by others, or is a standard stream of the process.
pub fn open<'a>(
    host: &'a HostRuntime,
    path: &str,
    syncing: Syncing,
    bytes: &mut Vec<u8>,
) -> Result<Tracked<Opened<'a>>, OpenFileFault>
    requires { bytes.old.items ≡ [] }
    ensures read { IfOk result (λ device. tracked_seen opened_file device ≡ bytes.new.items) }
    ensures synced { IfOk result (λ device. has_syncs device ≡ is_each syncing) }
{
    let handle = open_whole(host, path, syncing, bytes)?;
    let mut calls = Record::new();
    calls.note(&[FOUND, 0, 1], bytes);
    Ok(Tracked::over(Opened { handle, calls }))
}
