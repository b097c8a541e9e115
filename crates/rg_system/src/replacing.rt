use rg_ports::WriteError;
use std::alloc::Global;
use std::fs;
use std::fs::{Metadata, OpenFile, OpenOptions};
use std::io::{ErrorKind, Write};
use std::os::unix::fs::{MetadataExt, chown};
use std::path::{Path, PathBuf};
use std::rt::Files;

/// As many symbolic links as Linux follows from one name.
const MOST_LINKS: u32 = 40;

/// As many names as are tried for a new file beside the old one.
const MOST_NAMES: u32 = 100;

/// A file that was just made under a name that no other had.
#[derive(Drop)]
struct Fresh<F: Drop> {
    path: PathBuf,
    file: F,
}

/// Why there is no fresh file.
enum Unmade {
    /// The folder can't be written.
    Forbidden,
    Failed(WriteError),
}

/// Puts the bytes in place of the file's, or makes the file. A symbolic link is followed. A regular file is replaced
/// by a new one that holds all the bytes, so that after a failure or a sudden end it holds what it held. Where its
/// folder can't be written it is overwritten in its place. What is no regular file is written as it stands, and so is
/// an output of this process (`/dev/stdout`), behind what it holds.
pub fn put_file<R: Files + AllocGlobal>(
    runtime: &R,
    name: &str,
    bytes: &[u8],
) -> Result<(), WriteError> {
    match plain_path(runtime, name)? {
        None => add_to(runtime, name, bytes),
        Some(path) => put_plain(runtime, path.as_path(), bytes),
    }
}

/// Whether the name is that of an output of this process, or of another's.
fn is_output(name: &str) -> bool {
    name.starts_with("/dev/std") || name.starts_with("/dev/fd/") || name.starts_with("/proc/")
}

/// The path of the regular file that the name leads to, or that isn't there yet, behind all symbolic links; `None`
/// where it leads to something else.
fn plain_path<R: Files + AllocGlobal>(
    runtime: &R,
    name: &str,
) -> Result<Option<PathBuf>, WriteError> {
    let mut path = owned(runtime.alloc(), name)?;
    for _ in 0..MOST_LINKS {
        if is_output(path.as_path().as_str()) {
            return Ok(None);
        }
        match fs::symlink_metadata(runtime, path.as_path()) {
            Ok(found) => {
                if !found.is_symlink() {
                    return Ok(found.is_file().then_some(path));
                }
            }
            Err(error) if error.kind() == ErrorKind::NotFound => return Ok(Some(path)),
            Err(_) => return Err(WriteError::Failed),
        }
        path = led_to(runtime, path.as_path())?;
    }
    Err(WriteError::Failed)
}

fn owned(alloc: Global, name: &str) -> Result<PathBuf, WriteError> {
    match PathBuf::from_str(alloc, name) {
        Ok(path) => Ok(path),
        Err(_) => Err(WriteError::Memory),
    }
}

/// What a symbolic link leads to.
fn led_to<R: Files + AllocGlobal>(runtime: &R, link: Path<'_>) -> Result<PathBuf, WriteError> {
    match fs::read_link(runtime, link) {
        Ok(to) => match link.with_file_name(runtime.alloc(), to.as_path().as_str()) {
            Ok(path) => Ok(path),
            Err(_) => Err(WriteError::Memory),
        },
        Err(error) if error.kind() == ErrorKind::OutOfMemory => Err(WriteError::Memory),
        Err(_) => Err(WriteError::Failed),
    }
}

/// Writes the bytes to what stands there, behind what it holds if it is a file.
fn add_to<R: Files>(runtime: &R, name: &str, bytes: &[u8]) -> Result<(), WriteError> {
    match OpenOptions::new().append(true).open(runtime, name) {
        Ok(mut file) => whole(write_all(&mut file, bytes)),
        Err(_) => Err(WriteError::Failed),
    }
}

/// Overwrites a file in its place.
fn overwrite<R: Files>(runtime: &R, path: Path<'_>, bytes: &[u8]) -> Result<(), WriteError> {
    match fs::create(runtime, path) {
        Ok(mut file) => whole(write_all(&mut file, bytes)),
        Err(_) => Err(WriteError::Failed),
    }
}

fn whole(written: bool) -> Result<(), WriteError> {
    if written {
        Ok(())
    } else {
        Err(WriteError::Failed)
    }
}

/// Puts a new file in the place of the one that the path has, or of none.
fn put_plain<R: Files + AllocGlobal>(
    runtime: &R,
    path: Path<'_>,
    bytes: &[u8],
) -> Result<(), WriteError> {
    let old = writable(runtime, path)?;
    let mut fresh = match made(runtime, path) {
        Ok(fresh) => fresh,
        Err(Unmade::Forbidden) => return overwrite(runtime, path, bytes),
        Err(Unmade::Failed(error)) => return Err(error),
    };
    let ready = is_filled(runtime, &mut fresh, old, bytes);
    let fresh = fresh.path;
    if !ready {
        let _gone = fs::remove_file(runtime, fresh.as_path());
        return Err(WriteError::Failed);
    }
    match fs::rename(runtime, fresh.as_path(), path) {
        Ok(()) => Ok(()),
        Err(error) => {
            let _gone = fs::remove_file(runtime, fresh.as_path());
            if is_forbidden(error.kind()) {
                overwrite(runtime, path, bytes)
            } else {
                Err(WriteError::Failed)
            }
        }
    }
}

/// What is known of the file that the path has, if it has one and that may be written.
fn writable<R: Files>(runtime: &R, path: Path<'_>) -> Result<Option<Metadata>, WriteError> {
    match OpenOptions::new().write(true).open(runtime, path) {
        Ok(file) => match file.metadata() {
            Ok(old) => Ok(Some(old)),
            Err(_) => Err(WriteError::Failed),
        },
        Err(error) if error.kind() == ErrorKind::NotFound => Ok(None),
        Err(_) => Err(WriteError::Failed),
    }
}

/// Whether an error says that a folder takes no new file, or that a file in it can't be replaced.
fn is_forbidden(kind: ErrorKind) -> bool {
    kind == ErrorKind::PermissionDenied
        || kind == ErrorKind::ReadOnlyFilesystem
        || kind == ErrorKind::ResourceBusy
}

/// A file of a new name in the folder of the path.
fn made<R: Files + AllocGlobal>(runtime: &R, path: Path<'_>) -> Result<Fresh<R::File>, Unmade> {
    for number in 0..MOST_NAMES {
        let path = numbered(runtime.alloc(), path, number)?;
        match fs::File::create_new(runtime, path.as_path()) {
            Ok(file) => return Ok(Fresh { path, file }),
            Err(error) => {
                if is_forbidden(error.kind()) {
                    return Err(Unmade::Forbidden);
                }
                if error.kind() != ErrorKind::AlreadyExists {
                    return Err(Unmade::Failed(WriteError::Failed));
                }
            }
        }
    }
    Err(Unmade::Failed(WriteError::Failed))
}

/// The name of a new file beside the one of the path.
fn numbered(alloc: Global, path: Path<'_>, number: u32) -> Result<PathBuf, Unmade> {
    let made = format!(in alloc; ".regoto-{number}");
    if let Ok(name) = made {
        if let Ok(path) = path.with_file_name(alloc, name.as_str()) {
            return Ok(path);
        }
    }
    Err(Unmade::Failed(WriteError::Memory))
}

/// Writes the bytes to the new file, with the permissions of the old one and, where it may be, its owner, and answers
/// whether they are all on the device.
fn is_filled<R: Files>(
    runtime: &R,
    fresh: &mut Fresh<R::File>,
    old: Option<Metadata>,
    bytes: &[u8],
) -> bool {
    if let Some(old) = old {
        // Only the superuser may give a file away. Where it can't be, the new one is its writer's.
        let _owned = chown(
            runtime,
            fresh.path.as_path(),
            Some(old.uid()),
            Some(old.gid()),
        );
        if fresh.file.set_permissions(old.permissions()).is_err() {
            return false;
        }
    }
    write_all(&mut fresh.file, bytes) && fresh.file.sync_all().is_ok()
}

/// Writes all the bytes, and answers whether they were taken. A write that takes nothing has failed.
fn write_all<F: Write>(file: &mut F, bytes: &[u8]) -> bool {
    let mut at = 0;
    while at < bytes.len() {
        match file.write(&bytes[at..]) {
            Ok(0) => return false,
            Ok(count) => at += count,
            Err(_) => return false,
        }
    }
    true
}
