use std::io::Write;

/// The commands and how to end, in lines of at most 80 bytes.
const COMMANDS: &str = "\
Commands: load asm end task; step run back break unbreak watch unwatch;
          regs vregs acc flags sp mem dis; pc read write
'rsp help run' shows their operands. Ctrl-D ends the script.
";

/// What helps if faults aren't explained.
const EXPLANATIONS: &str =
    "'rsp run --explain' says what is wrong with a line that gets a fault.\n";

/// Tells who types a script which commands there are, how it ends and, unless faults are explained, that they can be.
pub(crate) fn greet<E: Write>(errors: &mut E, are_explained: bool) {
    let _ = errors.write_all(COMMANDS.as_bytes());
    if !are_explained {
        let _ = errors.write_all(EXPLANATIONS.as_bytes());
    }
}
