//! A table that a ledger follows, as it is filled and edited.
ghost use Rattle.std.specs.Prelude.{◌≡◌, ◌*◌, ◌<◌, ◌≤◌, length, replicate, vec_len, IfOk, MatchResult, OnOk, slice_set};
ghost use Rattle.replay.specs.Replays.{BadContent, BadEdit, KeepsUp, edited};
ghost use Rattle.replay.specs.declared.replay.ReplayError.TheVariants.{OutOfRange};

use super::replay::ReplayError;
use ledgers::Ledger;
use parts::Edit;
use std::alloc::{AllocError, Global};

// Four slots for each cell, each with 0 or a cell.
#[derive(Drop)]
pub(crate) struct Table {
    slots: Vec<u16>,
    cells: u16,
    ghost size: { vec_len slots ≡ 4 * cells },
    ghost few: { cells ≤ 1024 },
}

impl Table {
    // A table whose slots are empty.
    pub(crate) fn empty(heap: Global, cells: u16) -> Result<Table, AllocError>
        requires { cells ≤ 1024 }
        ensures cells { IfOk result (λ t. t.cells ≡ cells) }
        ensures slots { IfOk result (λ t. t.slots.items ≡ replicate (4 * cells) 0) }
    {
        let slots = vec![in heap; 0; 4 * usize::from(cells)]?;
        Ok(Table { slots, cells })
    }

    // Puts a content into a slot. Only a change is noted, and what is out of range is refused.
    fn write<L: Ledger>(
        &mut self,
        ledger: &mut L,
        slot: usize,
        content: u16,
    ) -> Result<(), ReplayError>
        ensures cells { self.new.cells ≡ self.old.cells }
        ensures written { MatchResult result
            (λ _. self.new.slots.items ≡ slice_set self.old.slots.items slot content)
            (λ e. (e ≡ OutOfRange) × (slot < vec_len self.old.slots → content ≤ self.old.cells → ⊥)) }
        ensures follows { OnOk result (KeepsUp L.Ledger.ops self.old.cells self.old.slots.items self.new.slots.items ledger.old ledger.new) }
    {
        if slot >= self.slots.len() || content > self.cells {
            return Err(ReplayError::OutOfRange);
        }
        let old = self.slots[slot];
        if old != content {
            ledger.note(slot as u16, old, content);
            self.slots[slot] = content;
        }
        Ok(())
    }

    // Fills the slots with these contents.
    pub(crate) fn fill<L: Ledger>(
        &mut self,
        ledger: &mut L,
        contents: &[u16],
    ) -> Result<(), ReplayError>
        requires { length contents.now ≡ vec_len self.old.slots }
        ensures cells { self.new.cells ≡ self.old.cells }
        ensures filled { MatchResult result
            (λ _. self.new.slots.items ≡ contents.now)
            (λ e. (e ≡ OutOfRange) × BadContent self.old.cells contents.now) }
        ensures follows { OnOk result (KeepsUp L.Ledger.ops self.old.cells self.old.slots.items self.new.slots.items ledger.old ledger.new) }
    {
        for (slot, content) in contents.iter().enumerate() {
            self.write(ledger, slot, *content)?;
        }
        Ok(())
    }

    // Makes the edits, one after the other.
    pub(crate) fn change<L: Ledger>(
        &mut self,
        ledger: &mut L,
        edits: &[Edit],
    ) -> Result<(), ReplayError>
        ensures cells { self.new.cells ≡ self.old.cells }
        ensures changed { MatchResult result
            (λ _. self.new.slots.items ≡ edited self.old.slots.items edits.now)
            (λ e. (e ≡ OutOfRange) × BadEdit self.old.cells (vec_len self.old.slots) edits.now) }
        ensures follows { OnOk result (KeepsUp L.Ledger.ops self.old.cells self.old.slots.items self.new.slots.items ledger.old ledger.new) }
    {
        for edit in edits {
            self.write(ledger, usize::from(edit.slot), edit.content)?;
        }
        Ok(())
    }
}
