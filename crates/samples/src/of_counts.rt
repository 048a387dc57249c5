//! The samples of counts.
ghost use Rattle.std.specs.Prelude.{◌≡◌, Some, None};
ghost use Rattle.samples.specs.OfCounts.{ups};
ghost use Rattle.samples.specs.Samples.{Samples};

use counts::{Count, Sticky, Tally};

/// What the counts answered.
#[derive(Clone, Copy, Debug)]
pub struct CountAnswers {
    pub sticky_two_ups: Option<u16>,
    pub sticky_three_ups: Option<u16>,
    pub sticky_down_then: Option<u16>,
    pub tally_seven_ups: Option<u16>,
    pub tally_eight_ups: Option<u16>,
}

/// Plays the samples of counts. The contract carries the statement of all samples, and that the code answers as they say.
pub fn play_counts() -> CountAnswers
    ensures samples { Samples }
    ensures sticky { (result.sticky_two_ups ≡ Some 2) × ((result.sticky_three_ups ≡ None) × (result.sticky_down_then ≡ None)) }
    ensures tally { (result.tally_seven_ups ≡ Some 7) × (result.tally_eight_ups ≡ None) }
{
    CountAnswers {
        sticky_two_ups: raised::<Sticky>(2).number(),
        sticky_three_ups: raised::<Sticky>(3).number(),
        sticky_down_then: raised::<Sticky>(3).down().number(),
        tally_seven_ups: raised::<Tally>(7).number(),
        tally_eight_ups: raised::<Tally>(8).number(),
    }
}

// A new count after some ups.
fn raised<K: Count>(times: u8) -> K
    ensures { K.Count.tells result ≡ ups K.Count.ceiling times }
{
    let mut count = K::new();
    for _ in 0..times {
        count = count.up();
    }
    count
}
