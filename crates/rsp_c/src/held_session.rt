// What a session's handle owns.

use rsp_bench::Reply;
use rsp_feed::Bench;
use std::marker::Model;

/// The bench of a session, and the reply that its calls overwrite, which is too large to be blanked for each. Contracts see the bench.
#[derive(Drop)]
pub struct HeldSession {
    pub bench: Bench,
    pub reply: Reply,
}

impl Model for HeldSession {
    ghost use Rattle.rsp_feed.specs.Bench.{BenchState};

    ghost Value = { BenchState };

    ghost view = { λ h. h.bench };
}
