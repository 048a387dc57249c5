//! Every stack of up to three layers over the bottom ledger of one kind of count.
use super::trial::{Course, Fault, ROOM, play};
use coalescing::Log;
use ledgers::{Bottom, Ledger};
use queue::Queue;
use trial_tools::{Kind, Layer};
use zeros::Zeros;

const LAYERS: [Layer; 3] = [Layer::Queue, Layer::Log, Layer::Zeros];

/// How many layers may be put on a ledger. Each makes another type, so that the most have to be known beforehand.
trait Height {
    /// Plays with the ledger under these layers, the lowest first. Those past the height are left out.
    fn play_under<L: Ledger + Drop>(
        ledger: L,
        layers: &[Layer],
        course: &mut Course,
    ) -> Result<(), Fault>;
}

struct Top;

struct Below<H>(H);

impl Height for Top {
    fn play_under<L: Ledger + Drop>(
        ledger: L,
        _layers: &[Layer],
        course: &mut Course,
    ) -> Result<(), Fault> {
        play(ledger, course)
    }
}

impl<H: Height> Height for Below<H> {
    fn play_under<L: Ledger + Drop>(
        ledger: L,
        layers: &[Layer],
        course: &mut Course,
    ) -> Result<(), Fault> {
        match layers {
            [] => play(ledger, course),
            [Layer::Queue, above @ ..] => H::play_under(Queue::new(ledger), above, course),
            [Layer::Log, above @ ..] => H::play_under(Log::new(ledger), above, course),
            [Layer::Zeros, above @ ..] => H::play_under(Zeros::new(ledger), above, course),
        }
    }
}

pub fn every_stack<K: Kind>(course: &mut Course) -> Result<(), Fault> {
    course.kind = K::NAME;
    let rows = &mut vec![in course.memory; K::row(0); usize::from(ROOM)]?;
    over_bottom::<K>(rows, &[], course)?;
    for a in LAYERS {
        over_bottom::<K>(rows, &[a], course)?;
        for b in LAYERS {
            over_bottom::<K>(rows, &[a, b], course)?;
            for c in LAYERS {
                over_bottom::<K>(rows, &[a, b, c], course)?;
            }
        }
    }
    Ok(())
}

fn over_bottom<K: Kind>(
    rows: &mut [K::Row],
    layers: &[Layer],
    course: &mut Course,
) -> Result<(), Fault> {
    course.begin::<K>(rows, layers)?;
    <Below<Below<Below<Top>>> as Height>::play_under(Bottom::<K>::new(rows), layers, course)
}
