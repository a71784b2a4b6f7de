ghost use Rattle.std.specs.Prelude.{◌≡◌, [], IfOk, string_bytes};
ghost use Rattle.std.specs.Option.{unwrap_or};
ghost use Rattle.std.specs.Path.{path_bytes, path_buf_bytes, path_file_name};
ghost use Rattle.rsp_cli_files.specs.Beside.{IsBeside, IsNameStart, save_name};

use std::alloc::{AllocError, Global};
use std::path::{Path, PathBuf};

/// The most bytes of a file's name in the name of a new file beside it, which must not be too long either.
const NAME_LIMIT: usize = 100;

/// The path of a new file in the folder of another: `.NAME.rsp-save-NUMBER`. NAME is the other's name, or how it begins.
pub(crate) fn beside(alloc: Global, path: Path<'_>, number: u32) -> Result<PathBuf, AllocError>
    ensures { IfOk result (λ new. IsBeside (path_buf_bytes new) (path_bytes path.entry) number) }
{
    let name = new_name(alloc, name_start(path), number)?;
    path.with_file_name(alloc, name.as_str())
}

/// How the name of a path's file begins, or the whole of a short one.
fn name_start<'a>(path: Path<'a>) -> &'a str
    ensures { IsNameStart result.now (unwrap_or (path_file_name (path_bytes path.entry)) []) }
{
    let name = path.file_name().unwrap_or("");
    let (start, _) = name.split_at(name.floor_char_boundary(NAME_LIMIT));
    start
}

fn new_name(alloc: Global, start: &str, number: u32) -> Result<String, AllocError>
    ensures { IfOk result (λ name. string_bytes name ≡ save_name start.now number) }
{
    format!(in alloc; ".{start}.rsp-save-{number}")
}
