//! Laws of listings, replies and scripts: each is the contract of a function that does nothing.

ghost use Rattle.std.specs.Prelude.{◌≡◌, ℕ, ◌<◌, ◌≤◌, List, length, Ok};
ghost use Rattle.std.specs.List.{All};
ghost use Rattle.rsp_syntax.specs.SourceText.{meaning_of_text, meaning_of_lines};
ghost use Rattle.rsp_syntax.specs.SourceLine.{text_of_lines};
ghost use Rattle.rsp_syntax.specs.Disassembly.{listing};
ghost use Rattle.rsp_bench.specs.Laws.{LooksAndRunsComeOut, LooksChangeNothing};
ghost use Rattle.rsp_bench.specs.Refusals.{RefusedCommandsChangeNothing, RefusedLinesChangeNothing};
ghost use Rattle.rsp_bench.specs.OutOfMemoryReplies.{NoReplyIsOutOfMemory};

/// Listings assemble back: for every list of at most 1024 words, the lines of their disassembly from address 0 on mean that list
/// at origin 0. So does their text, with an LF after each line.
pub fn l3()
    ensures lines { (ws : List ℕ) → length ws ≤ 1024 → All (λ w. w < 4294967296) ws → meaning_of_lines (listing 0 ws) 0 ≡ Ok ws }
    ensures text { (ws : List ℕ) → length ws ≤ 1024 → All (λ w. w < 4294967296) ws → meaning_of_text (text_of_lines (listing 0 ws)) 0 ≡ Ok ws }
{}

/// Looking changes nothing: a line that looks, accepted or refused, leaves the session as it was.
#[tactic(auto, using(crate::proofs::Exchanges::exchanges))]
pub fn looks_change_nothing()
    ensures { LooksChangeNothing }
{}

/// A refused command changes nothing: if the reply to a command or a line is a fault, the session stays as it was. The one
/// exception is a refused `end`, which still closes its block. A line that is no command, with a fault 30 to 33, is refused too.
pub fn refusals_change_nothing()
    ensures commands { RefusedCommandsChangeNothing }
    ensures lines { RefusedLinesChangeNothing }
{}

/// No reply is fault 17, OutOfMemory: what is written for a script is a reply to each line and a fault at the end of an open
/// block, and none of them is that fault. An assembly that runs out of memory makes `exec` return `AllocError`.
pub fn no_reply_is_out_of_memory()
    ensures { (script image : List ℕ) → NoReplyIsOutOfMemory script image }
{}

/// Looks and runs come out: whatever the lines before and after it, a line that looks can be taken out of a script, and a line
/// `run` be exchanged for as many lines `step` as the steps that its reply gives. No other reply changes, nor does what is
/// written at the end, nor the image.
#[tactic(auto, using(crate::proofs::Exchanges::exchanges))]
pub fn l6()
    ensures { LooksAndRunsComeOut }
{}
