//! Keeping the references of a drawing through a whole stack.
ghost use Rattle.replay.specs.Replays.{Kept};
ghost use Rattle.std.specs.Prelude.{IfOk};

use super::acts::replay_table;
use super::replay::{ReplayError, Replayed};
use coalescing::Log;
use counts::Count;
use ledgers::Bottom;
use parts::Edit;
use queue::Queue;
use std::alloc::Global;
use zeros::Zeros;

/// Keeps the references of a table through a queue over a log over a zero table over counts of kind `K`, in memory of the caller.
pub fn keep<K: Count>(
    heap: Global,
    rows: &mut [K::Row],
    slots: &[u16],
    edits: &[Edit],
) -> Result<Replayed, ReplayError>
    ensures { IfOk result (Kept K.Count.ceiling slots.now edits.now) }
{
    let mut ledger = Queue::new(Log::new(Zeros::new(Bottom::<K>::new(rows))));
    replay_table(heap, &mut ledger, slots, edits)
}
