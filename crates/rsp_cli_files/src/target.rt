ghost use Rattle.std.specs.Prelude.{IfOk, IfSome, IsTrue};
ghost use Rattle.std.specs.Path.{path_bytes};
ghost use Rattle.rsp_cli_files.specs.Targets.{EndsInName, IsTarget, IsFound};

use std::alloc::AllocGlobal;
use std::fs::{self, Metadata};
use std::io::{self, ErrorKind};
use std::os::unix::fs::MetadataExt;
use std::path::{Path, PathBuf};
use std::rt::Files;

/// How many symbolic links are followed. The system follows as many.
const LINK_LIMIT: u32 = 40;

/// A path that a new file can take.
#[derive(Drop)]
pub(crate) struct Target {
    pub(crate) path: PathBuf,
    /// The file that has the path.
    pub(crate) old: Option<Metadata>,
}

/// What is found at a path.
#[derive(Drop)]
enum Found {
    /// A symbolic link, with the path that it leads to.
    Link(PathBuf),
    /// A regular file with one name.
    File(Metadata),
    /// Nothing, and a file can be made there.
    Nothing,
    /// Something that no new file can replace.
    Fixed,
}

/// What a new file has to replace for the file of this name to have other bytes: the file that its symbolic links lead to, or the
/// free path. None if that is no regular file, if it has several names, if a link leads to nothing or to an open file.
pub(crate) fn target_of<R: Files + AllocGlobal>(
    runtime: &R,
    name: &str,
) -> io::Result<Option<Target>>
    ensures { IfOk result (λ found. IfSome found IsTarget) }
{
    let mut path = PathBuf::from_str(runtime.alloc(), name)?;
    for followed in 0..=LINK_LIMIT {
        let old = match found_at(runtime, path.as_path())? {
            Found::Link(next) => {
                path = next;
                continue;
            }
            Found::File(old) => Some(old),
            Found::Nothing if followed == 0 => None,
            Found::Nothing | Found::Fixed => return Ok(None),
        };
        return Ok(Some(Target { path, old }));
    }
    Ok(None)
}

/// What is found at a path. A link at its end isn't followed.
fn found_at<R: Files + AllocGlobal>(runtime: &R, path: Path<'_>) -> io::Result<Found>
    ensures { IfOk result (λ found. IsFound found (path_bytes path.entry)) }
{
    let found = match fs::symlink_metadata(runtime, path) {
        Ok(found) => found,
        Err(error) if error.kind() == ErrorKind::NotFound && ends_in_name(path) => {
            return Ok(Found::Nothing);
        }
        Err(_) => return Ok(Found::Fixed),
    };
    if found.is_file() && found.nlink() == 1 {
        return Ok(Found::File(found));
    }
    if !found.is_symlink() || stands_for_open_file(runtime, &found) {
        return Ok(Found::Fixed);
    }
    match fs::read_link(runtime, path) {
        Ok(next) => Ok(Found::Link(path.with_file_name(runtime.alloc(), next.as_path().as_str())?)),
        Err(error) if error.kind() == ErrorKind::OutOfMemory => Err(error),
        Err(_) => Ok(Found::Fixed),
    }
}

/// Whether a path's text ends with the name of a file, and with no slash or dot after it.
fn ends_in_name(path: Path<'_>) -> bool
    ensures { IsTrue result → EndsInName (path_bytes path.entry) }
{
    match path.file_name() {
        Some(name) => path.as_str().ends_with(name),
        None => false,
    }
}

/// Whether a link is one of those in /proc, which lead to open files and not to paths.
fn stands_for_open_file<R: Files>(runtime: &R, link: &Metadata) -> bool {
    match fs::symlink_metadata(runtime, "/proc/self") {
        Ok(process) => process.dev() == link.dev(),
        Err(_) => false,
    }
}
