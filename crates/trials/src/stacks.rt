//! Twelve stacks of layers over the three kinds of count.
use super::course::{Course, Fault};
use super::trial::play;
use coalescing::Log;
use counts::{Exact, Sticky, Tally};
use ledgers::{Bottom, Ledger};
use queue::Queue;
use trial_tools::{Kind, Layer};
use zeros::Zeros;

// How many cells the left and the right ledger have room for, and both.
const MANY: usize = 1024;

const FEW: usize = 40;

const ROWS: usize = MANY + FEW;

/// How many layers may be put on two ledgers. Each makes another type, so that the most have to be known beforehand.
// The other trials have this with one ledger. Tried for an array of them too: the check can't state a trait with a const parameter.
trait Height {
    /// Plays with the ledgers under these layers, the lowest first. Those past the height are left out.
    fn play_under<L: Ledger + Drop>(
        left: L,
        right: L,
        layers: &[Layer],
        course: &mut Course,
    ) -> Result<(), Fault>;
}

struct Top;

struct Below<H>(H);

impl Height for Top {
    fn play_under<L: Ledger + Drop>(
        left: L,
        right: L,
        _layers: &[Layer],
        course: &mut Course,
    ) -> Result<(), Fault> {
        play(left, right, course)
    }
}

impl<H: Height> Height for Below<H> {
    fn play_under<L: Ledger + Drop>(
        left: L,
        right: L,
        layers: &[Layer],
        course: &mut Course,
    ) -> Result<(), Fault> {
        match layers {
            [] => play(left, right, course),
            [Layer::Queue, above @ ..] => {
                H::play_under(Queue::new(left), Queue::new(right), above, course)
            }
            [Layer::Log, above @ ..] => {
                H::play_under(Log::new(left), Log::new(right), above, course)
            }
            [Layer::Zeros, above @ ..] => {
                H::play_under(Zeros::new(left), Zeros::new(right), above, course)
            }
        }
    }
}

fn over<K: Kind>(rows: &mut [K::Row], layers: &[Layer], course: &mut Course) -> Result<(), Fault> {
    course.begin::<K>(rows);
    let many = rows.len().min(MANY);
    let (left, right) = rows.split_at_mut(many);
    let left = Bottom::<K>::new(left);
    let right = Bottom::<K>::new(right);
    <Below<Below<Below<Top>>> as Height>::play_under(left, right, layers, course)
}

fn over_kind<K: Kind>(stacks: &[&[Layer]], course: &mut Course) -> Result<(), Fault> {
    let rows = &mut vec![in course.memory; K::row(0); ROWS]?;
    for layers in stacks {
        over::<K>(rows, layers, course)?;
    }
    Ok(())
}

const QUEUE: Layer = Layer::Queue;

const LOG: Layer = Layer::Log;

const ZEROS: Layer = Layer::Zeros;

pub fn every_stack(course: &mut Course) -> Result<(), Fault> {
    over_kind::<Exact>(
        &[&[], &[QUEUE], &[ZEROS, LOG], &[QUEUE, LOG, ZEROS]],
        course,
    )?;
    over_kind::<Sticky>(
        &[&[LOG], &[ZEROS], &[LOG, QUEUE], &[ZEROS, QUEUE, LOG]],
        course,
    )?;
    over_kind::<Tally>(
        &[&[], &[QUEUE, LOG], &[QUEUE, ZEROS], &[LOG, ZEROS, QUEUE]],
        course,
    )
}
