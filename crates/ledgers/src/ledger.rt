//! What every ledger promises.
ghost use Rattle.std.specs.Prelude.{◌≡◌};
ghost use Rattle.ledgers.specs.Answers.{Clearing, NextZero, Numbered, OfAgreeing};
ghost use Rattle.ledgers.specs.Meaning.{Lawful, Ops};

/// Clear was asked for more cells than the ledger has room for.
#[derive(Clone, Copy, Debug, PartialEq, Eq)]
pub struct TooManyCells;

/// A ledger follows the slots of a heap by notes of what changed, and tells of each cell how many slots hold it.
/// Any number and any state gets an answer. What a call does is a relation of `ops`; what follows from it is in `laws`.
pub trait Ledger: Sized {
    /// The greatest number that is told of a cell.
    const CEILING: u16;

    /// The words of this ledger.
    ghost ops: { Ops Self };

    /// What it promises of them.
    ghost laws: { Lawful ops };

    /// `CEILING`, tied to what the contracts mean by it.
    fn top() -> u16
        ensures { result ≡ ops.ceiling };

    /// How many cells there is room for.
    fn capacity(&self) -> u16
        ensures { result ≡ ops.capacity self.now };

    /// The cells of the last clear, 0 before.
    fn cells(&self) -> u16
        ensures { result ≡ ops.cells self.now };

    /// How much is put off. The ledger is settled where this is 0.
    fn waiting(&self) -> u16
        ensures { result ≡ ops.waiting self.now };

    /// Begins anew with `n` cells and all slots empty.
    fn clear(&mut self, n: u16) -> Result<(), TooManyCells>
        ensures { Clearing ops n self.old self.new result };

    /// The slot, which contained `old`, contains `new`.
    // Three numbers, and no struct as in a queue: not every ledger keeps its notes.
    fn note(&mut self, slot: u16, old: u16, new: u16)
        ensures { ops.Notes slot old new self.old self.new };

    /// Makes up for all that was put off.
    fn settle(&mut self)
        ensures { ops.Settles self.old self.new };

    /// What a settled ledger tells of cell `c`.
    fn number(&self, c: u16) -> Option<u16>
        ensures { OfAgreeing ops self.now (Numbered ops self.now c result) };

    /// The first cell from `c` on of which a settled ledger tells 0.
    fn next_zero(&self, c: u16) -> Option<u16>
        ensures { OfAgreeing ops self.now (NextZero ops self.now c result) };

    /// Cell `c` has `m` holders.
    fn recount(&mut self, c: u16, m: u16)
        ensures { ops.Recounts c m self.old self.new };
}
