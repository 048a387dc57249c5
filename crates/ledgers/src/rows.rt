//! Counts in a memory of rows, where cell `c` lies at `c - 1`. A number that is no cell there changes nothing.
ghost use Rattle.std.specs.Prelude.{◌≡◌, ℕ, ◌≤◌, ◌++◌, map, length, drop, replicate, Some, None, Option, slice_index_or};
ghost use Rattle.ledgers.specs.Bottoms.{changed, counts_of, less, more};
ghost use Rattle.ledgers.specs.Rows.{FirstZero, Placed};

use counts::Count;

// Where the count of cell `c` lies.
fn place(c: u16, len: usize) -> Option<usize>
    ensures { Placed c len result }
{
    usize::from(c).checked_sub(1).filter(|i| *i < len)
}

pub(crate) fn read<K: Count>(rows: &[K::Row], c: u16) -> Option<u16>
    ensures { result ≡ slice_index_or (counts_of K.Count.reads rows.now) c None }
{
    let i = place(c, rows.len())?;
    K::from_row(rows[i]).number()
}

// The first cell from `c` to `n` of which 0 is told.
pub(crate) fn first_zero<K: Count>(rows: &[K::Row], c: u16, n: u16) -> Option<u16>
    ensures { FirstZero (counts_of K.Count.reads rows.now) c n result }
{
    // Of a range that contains its end, the library doesn't say that `find` finds the first.
    for d in c.max(1)..=n {
        if read::<K>(rows, d) == Some(0) {
            return Some(d);
        }
    }
    None
}

// Changes the count of cell `c`, which `step` gets and answers.
pub(crate) fn change<K: Count, F: FnOnce(K) -> K>(rows: &mut [K::Row], c: u16, step: F)
    requires { (k : K) → F.pre step k }
    ensures { (f : Option ℕ → Option ℕ) → (c ≡ 0 → f None ≡ None) → ((k k' : K) → F.post step k k' → K.Count.tells k' ≡ f (K.Count.tells k))
        → counts_of K.Count.reads rows.new ≡ changed f c (counts_of K.Count.reads rows.old) }
{
    if let Some(i) = place(c, rows.len()) {
        rows[i] = step(K::from_row(rows[i])).to_row();
    }
}

// One line each, `lower` and `raise`, so that `note` is proved without an answer, and an edit of it refused by its contract.
pub(crate) fn lower<K: Count>(rows: &mut [K::Row], c: u16)
    ensures { counts_of K.Count.reads rows.new ≡ less c (counts_of K.Count.reads rows.old) }
{
    change::<K, _>(rows, c, K::down);
}

pub(crate) fn raise<K: Count>(rows: &mut [K::Row], c: u16)
    ensures { counts_of K.Count.reads rows.new ≡ more K.Count.ceiling c (counts_of K.Count.reads rows.old) }
{
    change::<K, _>(rows, c, K::up);
}

// Makes the first `n` counts new.
pub(crate) fn renew<K: Count>(rows: &mut [K::Row], n: usize)
    requires { n ≤ length rows.old }
    ensures { map K.Count.reads rows.new ≡ replicate n (Some 0) ++ drop n (map K.Count.reads rows.old) }
{
    // No `fill`: of the row of any kind nothing says that its copy by `clone` can't fail.
    for row in rows[..n].iter_mut() {
        *row = K::new().to_row();
    }
}
