//! A drawing as it is built, one description after another.
ghost use Rattle.std.specs.Prelude.{◌≡◌, ◌*◌, ◌≤◌, vec_len, count_by};

mod describe;
mod views;

/// The parts that descriptions name, and what their slots contain.
#[derive(Drop)]
pub struct Drawing<'a> {
    // the parts' names, part c at c - 1: a list of its own, as `names` lends it
    names: Vec<&'a [u8]>,
    // four for each part, as `slots` lends them: slot f of part c at 4 * (c - 1) + f; 0 is empty
    slots: Vec<u16>,
    // for each part, whether a line described it
    described: Vec<bool>,
    // how many descriptions there were, and how many references they made: counted as they come, plainer than by the lists
    lines: usize,
    references: usize,
    ghost slotted: { vec_len slots ≡ 4 * vec_len names },
    ghost marked: { vec_len described ≡ vec_len names },
    ghost few: { vec_len names ≤ 1024 },
    ghost counted: { lines ≡ count_by (λ b. b) described.items },
    ghost bounded: { references ≤ 4 * lines },
}
