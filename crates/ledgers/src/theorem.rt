//! What holds of the bottom ledger over every kind of count.
ghost use Rattle.std.specs.Prelude.{◌≡◌};
ghost use Rattle.ledgers.specs.Bottoms.{bottom_ops, counts_of};
ghost use Rattle.ledgers.specs.Meaning.{Lawful};
ghost use Rattle.ledgers.specs.declared.bottom.Bottom.{Bottom as BottomOf};

use counts::Count;

/// The ceiling of a bottom ledger over counts of kind `K`, whatever the kind: that ledger is lawful.
pub fn bottom_ceiling<K: Count>() -> u16
    ensures ceiling { result ≡ K.Count.ceiling }
    ensures lawful { Lawful (bottom_ops result (λ (l : BottomOf K K.Row). l.n) (λ l. counts_of K.Count.reads l.rows.now)) }
{
    K::top()
}
