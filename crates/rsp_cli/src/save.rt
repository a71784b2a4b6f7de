ghost use Rattle.std.specs.Prelude.{◌≡◌, Ok, Err, IsOk, IfOk, IfErr, OnOk, OnErr, option_map};
ghost use Rattle.rsp_cli_files.specs.Files.{SameFiles};
ghost use Rattle.rsp_cli.specs.Ends.{fault_of_run};
ghost use Rattle.rsp_cli.specs.Runs.{IsRunFault, IsSaved};
ghost use Rattle.rsp_cli.specs.Streams.{run_end, end_of};

use rsp_cli_files::{Fault, FileStore, write_file};
use rsp_memory::Rdram;
use rsp_script_io::RunFault;

/// Saves the image that a run left to the file of this name, if one is named. A run that ended early saves nothing, and is a fault.
pub(crate) fn save_left<'a, F: FileStore>(
    files: &mut F,
    name: Option<&'a str>,
    ran: Result<Rdram, RunFault>,
) -> Result<(), Fault<'a>>
    ensures ok { OnOk result (IsOk ran) }
    ensures saved { OnOk result (IfOk ran (IsSaved (option_map (λ t. t.now) name.entry) (F.content files.old) (F.content files.new))) }
    ensures early { IfErr ran (λ fault. result ≡ Err (fault_of_run fault)) }
    ensures end { run_end result ≡ end_of ran }
    ensures err { IfErr result (IsRunFault (option_map (λ t. t.now) name.entry)) }
    ensures same { OnErr result (SameFiles (F.content files.old) (F.content files.new)) }
{
    let image = finished(ran)?;
    save_image(files, name, image)
}

/// The image that a run left, or the fault of one that ended early.
fn finished<'a>(ran: Result<Rdram, RunFault>) -> Result<Rdram, Fault<'a>>
    ensures ok { IfOk ran (λ image. result ≡ Ok image) }
    ensures err { IfErr ran (λ fault. result ≡ Err (fault_of_run fault)) }
{
    match ran {
        Ok(image) => Ok(image),
        Err(RunFault::ReadFault) => Err(Fault::RunRead),
        Err(RunFault::WriteFault) => Err(Fault::RunWrite),
        Err(RunFault::ScriptTooLong) => Err(Fault::ScriptTooLong),
        Err(RunFault::OutOfMemory) => Err(Fault::RunOutOfMemory),
    }
}

/// Writes an image to the file of this name, if one is named.
fn save_image<'a, F: FileStore>(
    files: &mut F,
    name: Option<&'a str>,
    image: Rdram,
) -> Result<(), Fault<'a>>
    ensures ok { OnOk result (IsSaved (option_map (λ t. t.now) name.entry) (F.content files.old) (F.content files.new) image) }
    ensures err { IfErr result (IsRunFault (option_map (λ t. t.now) name.entry)) }
    ensures end { run_end result ≡ Ok tt }
    ensures same { OnErr result (SameFiles (F.content files.old) (F.content files.new)) }
{
    match name {
        Some(name) => write_file(files, name, image.into_bytes().as_slice()),
        None => Ok(()),
    }
}
