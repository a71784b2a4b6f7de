ghost use Rattle.std.specs.Prelude.{ℕ, IfOk, IfSome};
ghost use Rattle.std.specs.Path.{path_buf_bytes};
ghost use Rattle.rsp_cli_files.specs.Beside.{IsBeside};
ghost use Rattle.rsp_cli_files.specs.Targets.{IsTarget};

use crate::beside::beside;
use crate::target::{Target, target_of};
use std::alloc::AllocGlobal;
use std::fs::{self, File, Metadata, OpenFile, OpenOptions};
use std::io::{self, ErrorKind, Write};
use std::os::unix::fs::{MetadataExt, OpenOptionsExt, chown};
use std::path::{Path, PathBuf};
use std::rt::Files;

/// Makes a file of these bytes. A file of that name keeps its bytes until the new ones are whole on the disk: they are written to a
/// new file beside it, which takes its name. If no new file can replace it, it is written in place.
pub(crate) fn save<R: Files + AllocGlobal>(
    runtime: &R,
    name: &str,
    bytes: &[u8],
) -> io::Result<()> {
    if let Some(target) = target_of(runtime, name)? {
        if is_open_to(runtime, name, &target)? && replace(runtime, &target, bytes)? {
            return Ok(());
        }
    }
    fs::write(runtime, name, bytes)
}

/// Whether the system lets this name be written, and leads it to the target. What may not be written is refused here, and not
/// replaced.
fn is_open_to<R: Files>(runtime: &R, name: &str, target: &Target) -> io::Result<bool> {
    let Some(old) = &target.old else {
        return Ok(true);
    };
    let opened = OpenOptions::new()
        .write(true)
        .open(runtime, name)?
        .metadata()?;
    Ok(opened.dev() == old.dev() && opened.ino() == old.ino())
}

/// Puts a new file of these bytes in the place of the target. False if no such file can be made beside it, or none with its owner,
/// its group and its permissions; then nothing has changed.
fn replace<R: Files + AllocGlobal>(runtime: &R, target: &Target, bytes: &[u8]) -> io::Result<bool>
    requires { IsTarget target.now }
{
    let Some((new, file)) = create_beside(runtime, target)? else {
        return Ok(false);
    };
    match fill(runtime, new.as_path(), file, target.old.as_ref(), bytes) {
        Ok(true) => {
            put(runtime, new.as_path(), target.path.as_path(), bytes)?;
            Ok(true)
        }
        unfilled => {
            let _ = fs::remove_file(runtime, new.as_path());
            unfilled
        }
    }
}

/// A new file beside the target, with its path. None if the folder takes none.
fn create_beside<R: Files + AllocGlobal>(
    runtime: &R,
    target: &Target,
) -> io::Result<Option<(PathBuf, R::File)>>
    ensures { IfOk result (λ made. IfSome made (λ new. (number : ℕ) × IsBeside (path_buf_bytes new.0) (path_buf_bytes target.now.path) number)) }
{
    let mut options = OpenOptions::new();
    options.write(true).create_new(true);
    if target.old.is_some() {
        // Closed to everybody else until it has the old one's group and permissions.
        options.mode(0o600);
    }
    for number in 0..u32::MAX {
        let new = beside(runtime.alloc(), target.path.as_path(), number)?;
        match options.open(runtime, new.as_path()) {
            Ok(file) => return Ok(Some((new, file))),
            // Another run writes it, or was killed while it did.
            Err(error) if error.kind() == ErrorKind::AlreadyExists => {}
            Err(error) if takes_no_file(error.kind()) => return Ok(None),
            Err(error) => return Err(error),
        }
    }
    Err(io::Error::from(ErrorKind::AlreadyExists))
}

fn takes_no_file(kind: ErrorKind) -> bool {
    matches!(
        kind,
        ErrorKind::PermissionDenied | ErrorKind::ReadOnlyFilesystem | ErrorKind::InvalidFilename
    )
}

/// Gives the new file the old one's group and permissions, and writes the bytes to the disk. False, and no byte is written, if it
/// can't have these or has another owner.
fn fill<R: Files>(
    runtime: &R,
    new: Path<'_>,
    mut file: R::File,
    old: Option<&Metadata>,
    bytes: &[u8],
) -> io::Result<bool> {
    if let Some(old) = old {
        let made = file.metadata()?;
        let is_alike = made.uid() == old.uid()
            && (made.gid() == old.gid() || chown(runtime, new, None, Some(old.gid())).is_ok())
            && file.set_permissions(old.permissions()).is_ok();
        if !is_alike {
            return Ok(false);
        }
    }
    file.write_all(bytes)?;
    file.sync_all()?;
    Ok(true)
}

/// Gives the new file the name of the old one. If the system refuses that, as where a file system is mounted on the old file, the
/// bytes are written in place, and the new file goes only when they are whole.
fn put<R: Files>(runtime: &R, new: Path<'_>, path: Path<'_>, bytes: &[u8]) -> io::Result<()> {
    if fs::rename(runtime, new, path).is_ok() {
        sync_folder(runtime, path);
        return Ok(());
    }
    fs::write(runtime, path, bytes)?;
    fs::remove_file(runtime, new)
}

/// Waits until a file's new name is on the disk too, so that it outlasts a loss of power. What the system refuses here is left: the
/// bytes are whole, under the old name or the new one.
fn sync_folder<R: Files>(runtime: &R, path: Path<'_>) {
    let folder = match path.parent() {
        Some(folder) if !folder.as_str().is_empty() => folder.as_str(),
        _ => ".",
    };
    if let Ok(folder) = File::open(runtime, folder) {
        let _ = folder.sync_all();
    }
}
