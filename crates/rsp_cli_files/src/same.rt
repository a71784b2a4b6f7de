ghost use Rattle.std.specs.Prelude.{IsTrue};
ghost use Rattle.std.specs.Fs.{file_type, IsFile};

use std::fs::{self, Metadata};
use std::os::unix::fs::MetadataExt;
use std::rt::Files;

/// Whether two names lead to one regular file, through links. False if one of them leads to none, or the system doesn't tell.
pub(crate) fn is_same_file<R: Files>(runtime: &R, one: &str, other: &str) -> bool {
    match (fs::metadata(runtime, one), fs::metadata(runtime, other)) {
        (Ok(one), Ok(other)) => are_one_file(&one, &other),
        _ => false,
    }
}

/// Whether both are of one regular file: its device and its number there are the same. Of a device, a pipe or a terminal it is false, since
/// what is written there overwrites nothing.
fn are_one_file(one: &Metadata, other: &Metadata) -> bool
    ensures { IsTrue result → IsFile (file_type one.now) }
{
    one.is_file() && one.dev() == other.dev() && one.ino() == other.ino()
}
