// The bytes of watches, as they were when a run began.

ghost use Rattle.std.specs.Prelude.{◌≡◌};
ghost use Rattle.rsp_debug.specs.Stops.{watched};
ghost use Rattle.rsp_debug.specs.Snapshots.{IsShort, snapshot_of, is_other, differs};

use crate::stop::Watch;
use arrayvec::ArrayVec;

/// A watch, and its bytes as they were.
#[derive(Drop)]
pub struct Snapshot {
    watch: Watch,
    bytes: ArrayVec<u8, 64>,
}

/// The bytes of a watch.
fn watched<'a>(watch: &Watch, dmem: &'a [u8]) -> &'a [u8]
    ensures { result.now ≡ watched watch.now dmem.now }
{
    let from = (watch.address as usize).min(dmem.len());
    let rest = &dmem[from..];
    &rest[..(watch.len as usize).min(rest.len())]
}

/// The watch of a number, if it has one, with its bytes.
pub fn snapshot_of(watch: Option<Watch>, dmem: &[u8]) -> Option<Snapshot>
    requires { IsShort watch }
    ensures { result ≡ snapshot_of dmem.now watch }
{
    let watch = watch?;
    match ArrayVec::try_from(watched(&watch, dmem)) {
        Ok(bytes) => Some(Snapshot { watch, bytes }),
        Err(_) => unreachable!(),
    }
}

/// Whether a byte of a watch isn't what it was.
fn is_other(snapshot: &Option<Snapshot>, dmem: &[u8]) -> bool
    ensures { result ≡ is_other dmem.now snapshot.now }
{
    match snapshot {
        None => false,
        Some(snapshot) => snapshot.bytes.as_slice() != watched(&snapshot.watch, dmem),
    }
}

/// The lowest number of a watch with a byte that isn't what it was.
#[tactic(auto, unfolding(crate::specs::Snapshots::differs))]
pub fn differs(snapshots: &[Option<Snapshot>], dmem: &[u8]) -> Option<usize>
    ensures { result ≡ differs snapshots.now dmem.now }
{
    snapshots
        .iter()
        .position(|snapshot| is_other(snapshot, dmem))
}
