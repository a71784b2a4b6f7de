ghost use Rattle.std.specs.Prelude.{◌≡◌, ◌≤◌, ◌%◌, Some, IfOk, MatchResult, option_map};
ghost use Rattle.rsp_cli_files.specs.Words.{origin_of, IsAddressFault};

use crate::fault::Fault;
use rsp_commands::instruction_address;

/// The address that `--at` gives: a multiple of 4 from 0 to 4092, read as the `ADDR` of a script's `asm`. Without `--at` it is 0.
/// NoAddress for any other text.
pub fn origin_of<'a>(at: Option<&'a str>) -> Result<u16, Fault<'a>>
    ensures value { MatchResult result (λ origin. origin_of (option_map (λ t. t.now) at.entry) ≡ Some origin) (IsAddressFault (option_map (λ t. t.now) at.entry)) }
    ensures range { IfOk result (λ origin. (origin ≤ 4092) × (origin % 4 ≡ 0)) }
{
    match at {
        Some(text) => instruction_address(text.as_bytes()).ok_or(Fault::NoAddress(text)),
        None => Ok(0),
    }
}
