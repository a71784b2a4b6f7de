ghost use Rattle.std.specs.Prelude.{◌≡◌, ◌≤◌, length, vec_len, Ok, IfOk, IfErr, MatchOption, option_map};
ghost use Rattle.rsp_script_io.specs.Feeds.{script_limit};
ghost use Rattle.rsp_cli_files.specs.Files.{Holds, SameFiles};
ghost use Rattle.rsp_cli.specs.Inputs.{zeros, default_image, IsScriptFault, IsImageFault};

use rsp_cli_files::{Fault, FileLength, FileStore, read_file};
use rsp_memory::Rdram;
use rsp_script_io::SCRIPT_LIMIT;
use std::alloc::Global;

/// The length of the RDRAM if no file is named: 4 MB, as in a console without its expansion.
const DEFAULT_LENGTH: usize = 4_194_304;

/// One byte more than the longest image, since a file of which so many were read is too long.
const IMAGE_READ_LIMIT: u64 = 8_388_609;

/// The same of a script.
const SCRIPT_READ_LIMIT: u64 = 1_048_577;

/// The bytes of a script's file. ScriptTooLong if they are too many.
pub(crate) fn read_script<'a, F: FileStore>(
    alloc: Global,
    files: &mut F,
    name: &'a str,
) -> Result<Vec<u8>, Fault<'a>>
    ensures ok { IfOk result (λ script. Holds (F.content files.old name.now) (Ok script.items)) }
    ensures few { IfOk result (λ script. length script.items ≤ script_limit) }
    ensures err { IfErr result (IsScriptFault name.now (F.content files.old name.now)) }
    ensures same { SameFiles (F.content files.old) (F.content files.new) }
{
    let script = read_file(alloc, files, name, SCRIPT_READ_LIMIT)?;
    if script.len() > SCRIPT_LIMIT {
        return Err(Fault::ScriptTooLong);
    }
    Ok(script)
}

/// The image of the RDRAM: the bytes of the file, or zeros if none is named. ImageSize if no image has so many bytes.
pub(crate) fn read_image<'a, F: FileStore>(
    alloc: Global,
    files: &mut F,
    name: Option<&'a str>,
) -> Result<Rdram, Fault<'a>>
    ensures ok { IfOk result (λ image. MatchOption (option_map (λ t. t.now) name.entry) (image ≡ default_image) (λ named.
        Holds (F.content files.old named) (Ok image))) }
    ensures err { IfErr result (λ fault. MatchOption (option_map (λ t. t.now) name.entry) (fault ≡ Fault.OutOfMemory) (λ named.
        IsImageFault named (F.content files.old named) fault)) }
    ensures same { SameFiles (F.content files.old) (F.content files.new) }
{
    match name {
        Some(name) => read_image_file(alloc, files, name),
        None => default_image(alloc),
    }
}

/// The image in the file of this name.
fn read_image_file<'a, F: FileStore>(
    alloc: Global,
    files: &mut F,
    name: &'a str,
) -> Result<Rdram, Fault<'a>>
    ensures ok { IfOk result (λ image. Holds (F.content files.old name.now) (Ok image)) }
    ensures err { IfErr result (IsImageFault name.now (F.content files.old name.now)) }
    ensures same { SameFiles (F.content files.old) (F.content files.new) }
{
    let bytes = read_file(alloc, files, name, IMAGE_READ_LIMIT)?;
    match Rdram::from_bytes(bytes) {
        Ok(image) => Ok(image),
        Err(refused) => Err(Fault::ImageSize(FileLength {
            name,
            bytes: refused.bytes.len(),
        })),
    }
}

/// The image if no file is named.
fn default_image<'a>(alloc: Global) -> Result<Rdram, Fault<'a>>
    ensures ok { IfOk result (λ image. image ≡ default_image) }
    ensures err { IfErr result (λ fault. fault ≡ Fault.OutOfMemory) }
{
    let bytes = zeros(alloc, DEFAULT_LENGTH)?;
    match Rdram::from_bytes(bytes) {
        Ok(image) => Ok(image),
        Err(refused) => Err(Fault::ImageSize(FileLength {
            name: "",
            bytes: refused.bytes.len(),
        })),
    }
}

/// So many zeros.
#[tactic(auto, unfolding(crate::specs::Inputs::zeros))]
fn zeros<'a>(alloc: Global, count: usize) -> Result<Vec<u8>, Fault<'a>>
    ensures items { IfOk result (λ bytes. bytes.items ≡ zeros count) }
    ensures len { IfOk result (λ bytes. vec_len bytes ≡ count) }
    ensures err { IfErr result (λ fault. fault ≡ Fault.OutOfMemory) }
{
    match vec![in alloc; 0; count] {
        Ok(bytes) => Ok(bytes),
        Err(_) => Err(Fault::OutOfMemory),
    }
}
