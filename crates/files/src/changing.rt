// A file written anew: under its lock, whole or not at all.
ghost use Rattle.io.specs.Counts.{IsPrefixLen};

use crate::{Told, modes};
use std::fs::{File, Metadata, OpenOptions, Permissions};
use std::io::{ErrorKind, Write};
use std::os::unix::fs::PermissionsExt;
use std::{fs, io};

// The bits of a mode that say who may use a file. `Permissions` has these and the file's kind, and cannot be copied.
const MODE_BITS: u32 = 0o7777;

// Who may use a file that is made from what is no plain file: its owner.
const OWNERS_MODE: u32 = 0o600;

// What stands behind a file's name in that of its lock, and the bytes of the longest name with it.
const LOCK_SUFFIX: &[u8; 5] = b".lock";

const LOCK_BYTES: usize = 4101;

fn mode_bits(metadata: &Metadata) -> u32 {
    metadata.permissions().mode() & MODE_BITS
}

// Who may use the file that stands under a name; none, where there is none. What is no plain file is told: it is left as it is.
pub fn look_at(rt: &HostRuntime, name: &[u8]) -> Result<Option<u32>, Told> {
    match modes::is_link(rt, name) {
        Ok(false) => {}
        Ok(true) => return Err(crate::tell(rt, name, "a link: name the file that it leads to")),
        Err(e) if e.kind() == ErrorKind::NotFound => return Ok(None),
        Err(e) => return Err(crate::fail(rt, name, &e)),
    }
    let metadata = modes::metadata_of(rt, name).map_err(|e| crate::fail(rt, name, &e))?;
    if !metadata.is_file() {
        return Err(crate::tell(rt, name, "not a plain file"));
    }
    Ok(Some(mode_bits(&metadata)))
}

// A new file, to be written, where there is none.
fn create(rt: &HostRuntime, name: &[u8]) -> io::Result<File> {
    OpenOptions::new()
        .write(true)
        .create_new(true)
        .open(rt, modes::path_of(name)?)
}

// Takes away what stands under a name.
fn unlink(rt: &HostRuntime, name: &[u8]) -> io::Result<()> {
    fs::remove_file(rt, modes::path_of(name)?)
}

// Puts one name in the place of another.
fn rename(rt: &HostRuntime, from: &[u8], to: &[u8]) -> io::Result<()> {
    fs::rename(rt, modes::path_of(from)?, modes::path_of(to)?)
}

// Makes an empty file where there is none.
pub fn make_empty(rt: &HostRuntime, name: &[u8]) -> Result<(), Told> {
    let file = create(rt, name).map_err(|e| crate::fail(rt, name, &e))?;
    file.sync_all().map_err(|e| {
        let told = crate::fail(rt, name, &e);
        let _ = unlink(rt, name);
        told
    })
}

// The name of a file's lock; of no bytes where the buffer is too short.
fn lock_name(name: &[u8], lock: &mut [u8]) -> usize
    ensures { IsPrefixLen result lock.new }
{
    let n = name.len();
    if lock.len() < n.saturating_add(LOCK_SUFFIX.len()) {
        return 0;
    }
    lock[..n].copy_from_slice(name);
    lock[n..][..LOCK_SUFFIX.len()].copy_from_slice(LOCK_SUFFIX);
    n + LOCK_SUFFIX.len()
}

// The name of a lock. The buffer has room for that of a name that is longer than a path may be, so that making it tells its name.
#[derive(Drop)]
struct LockName {
    bytes: [u8; LOCK_BYTES],
    n: usize,
    ghost inside: { IsPrefixLen n bytes },
}

impl LockName {
    fn of(name: &[u8]) -> LockName {
        let mut bytes = [0u8; LOCK_BYTES];
        let n = lock_name(name, &mut bytes);
        LockName { bytes, n }
    }

    fn as_slice(&self) -> &[u8] {
        &self.bytes[..self.n]
    }
}

// The lock of a file that is to be changed, a new file itself. It has no `Drop`: it is released, or takes the file's place.
#[must_use]
pub struct Lock<'a> {
    file: File,
    of: &'a [u8],
    name: LockName,
}

// Tells that a lock cannot be made, and where it is there what to do.
fn tell_taken(rt: &HostRuntime, lock: &[u8], error: &io::Error) -> Told {
    let told = crate::fail(rt, lock, error);
    if error.kind() == ErrorKind::AlreadyExists {
        let mut err = rt.stderr();
        let _ = write!(err, "remove ");
        let _ = err.write_all(lock);
        let _ = writeln!(err, " where no other pbook runs");
    }
    told
}

// The mode of a file that is made from another: the other's, or its owner's alone where that is no plain file.
fn mode_from(rt: &HostRuntime, from: &[u8]) -> Result<u32, Told> {
    let metadata = modes::metadata_of(rt, from).map_err(|e| crate::fail(rt, from, &e))?;
    if metadata.is_file() {
        Ok(mode_bits(&metadata))
    } else {
        Ok(OWNERS_MODE)
    }
}

// The same, for a name that may be missing.
fn mode_for(rt: &HostRuntime, name: &[u8], from: &[u8]) -> Result<u32, Told> {
    look_at(rt, name)?;
    mode_from(rt, from)
}

// The bytes, the mode, and both on the device.
fn fill(file: &mut File, bytes: &[u8], mode: u32) -> io::Result<()> {
    file.write_all(bytes)?;
    file.set_permissions(Permissions::from_mode(mode))?;
    file.sync_all()
}

impl<'a> Lock<'a> {
    // Makes the lock of a file. Where that cannot be done it is told.
    pub fn make(rt: &HostRuntime, of: &'a [u8]) -> Result<Lock<'a>, Told> {
        let name = LockName::of(of);
        match create(rt, name.as_slice()) {
            Ok(file) => Ok(Lock { file, of, name }),
            Err(e) => Err(tell_taken(rt, name.as_slice(), &e)),
        }
    }

    // Takes the lock back.
    pub fn release(self, rt: &HostRuntime) {
        let Lock { file, of: _, name } = self;
        drop(file);
        let _ = unlink(rt, name.as_slice());
    }

    // Puts the lock, filled and closed, in the place of its file.
    fn replace(self, rt: &HostRuntime) -> Result<(), Told> {
        let Lock { file, of, name } = self;
        drop(file);
        rename(rt, name.as_slice(), of).map_err(|e| {
            let told = crate::fail(rt, of, &e);
            let _ = unlink(rt, name.as_slice());
            told
        })
    }

    // Writes the bytes to the lock and puts it in the file's place. Where that fails it is told, the lock is taken back, and the file is as it was.
    pub fn keep(mut self, rt: &HostRuntime, bytes: &[u8], mode: u32) -> Result<(), Told> {
        if let Err(e) = fill(&mut self.file, bytes, mode) {
            let told = crate::fail(rt, self.name.as_slice(), &e);
            self.release(rt);
            return Err(told);
        }
        self.replace(rt)
    }

    // The same, under the name of a file that may be missing, with the mode of the file `from`.
    pub fn keep_from(self, rt: &HostRuntime, bytes: &[u8], from: &[u8]) -> Result<(), Told> {
        match mode_for(rt, self.of, from) {
            Ok(mode) => self.keep(rt, bytes, mode),
            Err(told) => {
                self.release(rt);
                Err(told)
            }
        }
    }
}
