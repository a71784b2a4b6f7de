//! A law of scripts in pieces: the contract of a function that does nothing.

ghost use Rattle.rsp_feed.specs.Laws.{AnyCutComesOut};

/// However a script is cut into pieces: what a bench replies to them one after another, and then to the end of input, is what is
/// written for the whole script. The session is the one that the script leaves, and so is the image of the RDRAM.
pub fn any_cut_comes_out()
    ensures { AnyCutComesOut }
{}
