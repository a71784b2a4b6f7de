// The records of the last steps, which undo them.
//
// The ring is filled once, and written in place: the push of `circular_buffer` copies a whole record. So the index after the newest entry, and
// the number of entries, are kept beside it. One step takes its entry by the index; a run lends the ring as one slice, which costs more.

ghost use Rattle.std.specs.Prelude.{◌≡◌, ◌<◌, ◌≤◌, ◌+◌, ◌-◌, ◌⊎◌, ℕ, true, false, [], length, drop, slice_get, slice_index_or, option_copied, IfOk};
ghost use Rattle.rsp_machine.specs.Step.{step_of};
ghost use Rattle.rsp_machine.specs.Laws.{steps_of, done_steps};
ghost use Rattle.rsp_machine.specs.Undo.{record_at};
ghost use Rattle.rsp_machine.specs.Footprint.{makes_no_dma};
ghost use Rattle.rsp_machine.specs.Until.{ends_after, refuses_at};
ghost use Rattle.rsp_debug.specs.Calls.{IsAfter};
ghost use Rattle.rsp_debug.specs.History.{history_after, history_after_steps};
ghost use Rattle.rsp_debug.specs.HistoryRing.{previous_entry, states_before};

use circular_buffer::HeapCircularBuffer;
use rsp_acc::Acc;
use rsp_machine::{Machine, Never, Record, StepEnd, Until};
use std::alloc::{AllocError, Global};
use std::marker::Model;
use std::slice;

/// The records of the last steps, in a ring. Its entries are all allocated at the start, and written in place in the order of the
/// steps. Contracts see the records, the newest first, and how many there may be.
#[derive(Drop)]
pub struct History {
    pub(crate) slots: HeapCircularBuffer<Record>,
    /// The entry after the newest record. The older ones are before it, round the ring's start.
    pub(crate) next: usize,
    /// How many records there are.
    pub(crate) count: usize,
}

impl Model for History {
    ghost use Rattle.std.specs.Prelude.{length};
    ghost use Rattle.rsp_debug.specs.HistoryRing.{Records, entries_before, IsWithin};

    ghost Value = { Records };

    ghost view = { λ h. record {
      newest = entries_before h.next h.count h.slots.items;
      depth = length h.slots.items;
    } };

    ghost invariant = { λ h. IsWithin h.next h.count h.slots.items };
}

/// The entry before an entry of a ring.
fn previous_entry(n: usize, i: usize) -> usize
    requires { 0 < n }
    ensures { result ≡ previous_entry n i }
{
    if i == 0 { n - 1 } else { i - 1 }
}

/// Whether the first `made` steps of some records can all be undone. Only the last of them may have started a DMA.
fn can_undo_steps(records: &[Record], made: usize) -> bool
    requires { made ≤ length records.now }
    ensures none { made ≡ 0 → result ≡ true }
    ensures last { 0 < made → result ≡ makes_no_dma (record_at records.now (made - 1)).footprint }
{
    made == 0 || records[made - 1].can_undo()
}

impl History {
    /// A history without records, with room for `depth` of them.
    pub fn try_new(alloc: Global, depth: usize) -> Result<History, AllocError>
        ensures { IfOk result (λ h. h ≡ record { newest = []; depth = depth }) }
    {
        let mut slots = HeapCircularBuffer::with_capacity(alloc, depth)?;
        for _ in 0..depth {
            let _ = slots.push_back(Record::new());
        }
        Ok(History {
            slots,
            next: 0,
            count: 0,
        })
    }

    /// How many records there may be.
    pub fn depth(&self) -> usize
        ensures value { result ≡ self.now.depth }
        ensures within { length self.now.newest ≤ result }
    {
        self.slots.len()
    }

    /// How many records there are.
    pub fn len(&self) -> usize
        ensures len { result ≡ length self.now.newest }
        ensures within { result ≤ self.now.depth }
    {
        self.count
    }

    /// Drops all records.
    pub fn clear(&mut self)
        ensures { self.new ≡ record self.old { newest = [] } }
    {
        self.count = 0;
    }

    /// The newest record. There must be one, so it is always Some.
    #[tactic(auto, using(crate::proofs::Ring::turns))]
    pub fn newest(&self) -> Option<&Record>
        requires { 0 < length self.now.newest }
        ensures { option_copied result ≡ slice_get self.now.newest 0 }
    {
        self.slots.get(previous_entry(self.slots.len(), self.next))
    }

    /// Makes one step of a machine, and with a depth other than 0 keeps its record.
    #[inline(always)]
    pub fn recorded_step<A: Acc>(&mut self, machine: &mut Machine<A>) -> StepEnd
        ensures answer { result ≡ (step_of machine.old).0 }
        ensures state { machine.new ≡ (step_of machine.old).1 }
        ensures past { states_before machine.new self.new.newest ≡ history_after self.old.depth machine.old (states_before machine.old self.old.newest) }
        ensures depth { self.new.depth ≡ self.old.depth }
    {
        let depth = self.slots.len();
        if depth == 0 {
            return machine.step();
        }
        let entry = if self.next == depth { 0 } else { self.next };
        let Some(record) = self.slots.get_mut(entry) else {
            return machine.step();
        };
        if machine.steps_recorded_until(slice::from_mut(record), &Never) == 0 {
            return machine.step();
        }
        self.count = if record.can_undo() {
            (self.count + 1).min(depth)
        } else {
            0
        };
        self.next = entry + 1;
        StepEnd::Done
    }

    /// Drops the newest record. There must be one.
    #[tactic(auto, using(crate::proofs::Ring::turns))]
    pub fn drop_newest(&mut self)
        requires { 0 < length self.old.newest }
        ensures { self.new ≡ record self.old { newest = drop 1 self.old.newest } }
    {
        self.next = previous_entry(self.slots.len(), self.next);
        self.count -= 1;
    }

    /// Makes 1 to `n` steps of a machine, or none if the next one isn't Done or `until` refuses it. Returns how many. With a depth other than 0 it
    /// keeps their records. It stops early at the ring's last entry, after a step that starts a DMA, or if `until` ends it or refuses the next step.
    pub fn stretch<A: Acc, U: Until>(&mut self, machine: &mut Machine<A>, n: u32, until: &U) -> u32
        requires { 0 < n }
        ensures within { result ≤ n }
        ensures after { IsAfter result machine.old machine.new }
        ensures stuck { result ≡ 0 → (done_steps (step_of machine.new).0 ≡ 0) ⊎ (refuses_at (U.refuses until.now) machine.new ≡ true) }
        ensures asked { (i : ℕ) → i + 1 < result → ends_after (U.ends until.now) (steps_of i machine.old) ≡ false }
        ensures permitted { (i : ℕ) → i < result → refuses_at (U.refuses until.now) (steps_of i machine.old) ≡ false }
        ensures past { states_before machine.new self.new.newest ≡ history_after_steps result self.old.depth machine.old (states_before machine.old self.old.newest) }
        ensures depth { self.new.depth ≡ self.old.depth }
    {
        let depth = self.slots.len();
        if depth == 0 {
            return machine.steps_until(u64::from(n), until) as u32;
        }
        let first = if self.next == depth { 0 } else { self.next };
        let room = (n as usize).min(depth - first);
        let lent = &mut self.slots.make_contiguous()[first..first + room];
        let made = machine.steps_recorded_until(lent, until);
        self.count = if can_undo_steps(lent, made) {
            (self.count + made).min(depth)
        } else {
            0
        };
        self.next = first + made;
        made as u32
    }

    /// Undoes the last step of a machine by the newest record, and drops that record.
    #[tactic(auto, using(crate::proofs::HistoryRecords::backs))]
    pub fn undo<A: Acc>(&mut self, machine: &mut Machine<A>)
        requires { 0 < length self.old.newest }
        ensures state { machine.new ≡ slice_index_or (states_before machine.old self.old.newest) 0 machine.old }
        ensures past { states_before machine.new self.new.newest ≡ drop 1 (states_before machine.old self.old.newest) }
        ensures depth { self.new.depth ≡ self.old.depth }
    {
        let Some(record) = self.newest() else {
            unreachable!()
        };
        machine.undo(record);
        self.drop_newest();
    }
}
