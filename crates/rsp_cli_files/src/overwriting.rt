ghost use Rattle.std.specs.Prelude.{◌≡◌, true, false, IfSome, MatchResult};
ghost use Rattle.rsp_cli_files.specs.Overwriting.{overwrites};

use crate::fault::{Fault, Overwritten};
use crate::files::FileStore;
use rsp_cli_args::Request;

/// What a script is read from if no file is named.
const STANDARD_INPUT: &str = "/dev/stdin";

/// Refuses a command line that would overwrite what it reads: the source text by the words, or the script by the contents of RDRAM. (It may
/// write these to the file that they were read from.)
pub fn refuse_overwriting<'a, F: FileStore>(files: &F, asked: &Request<'a>) -> Result<(), Fault<'a>>
    ensures { IfSome (overwrites (F.same files.now) asked.now) (λ does. MatchResult result (λ _. does ≡ false) (λ _. does ≡ true)) }
{
    let (what, read, written) = match asked {
        Request::Run(named) => match named.save {
            Some(save) => {
                let script = named.script.unwrap_or(STANDARD_INPUT);
                (Overwritten::Script, script, save)
            }
            None => return Ok(()),
        },
        Request::Assemble(named) => (Overwritten::SourceText, named.source, named.out),
        Request::Disassemble(_) => return Ok(()),
    };
    if files.is_same(read, written) {
        return Err(Fault::Overwrites(written, what));
    }
    Ok(())
}
