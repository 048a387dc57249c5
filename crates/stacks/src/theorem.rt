//! Every stack of layers is a ledger again.
ghost use Rattle.std.specs.Prelude.{◌≡◌};
ghost use Rattle.ledgers.specs.Bottoms.{bottom_ops, counts_of};
ghost use Rattle.ledgers.specs.declared.bottom.Bottom.{Bottom as BottomOf};
ghost use Rattle.stacks.specs.Stacks.{EveryStackStands};

use counts::Count;
use ledgers::Ledger;

/// The ceiling of every stack of layers over this ledger, in any order and number: each of them is lawful, with that ceiling.
pub fn stack_ceiling<L: Ledger>() -> u16
    ensures ceiling { result ≡ L.Ledger.ops.ceiling }
    ensures stands { EveryStackStands L.Ledger.ops }
{
    L::top()
}

/// The same over the bottom ledger, whatever the kind of count.
pub fn bottom_stack_ceiling<K: Count>() -> u16
    ensures ceiling { result ≡ K.Count.ceiling }
    ensures stands { EveryStackStands (bottom_ops result (λ (l : BottomOf K K.Row). l.n) (λ l. counts_of K.Count.reads l.rows.now)) }
{
    K::top()
}
