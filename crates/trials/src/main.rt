//! Trials of the heap: random calls on two heaps at a time, over twelve stacks of ledgers, against a plain model.
#![tactic(auto)]

mod calls;
mod compare;
mod course;
mod kept;
mod model;
mod stacks;
mod trial;

use anyhow::anyhow;
use course::{Course, Fault};
use heap::Refusal;
use stacks::every_stack;

// The causes of the calls that are played: no work memory is lent to them.
const CAUSES: [Refusal; 10] = [
    Refusal::Cells,
    Refusal::Root,
    Refusal::Slot,
    Refusal::Unsized,
    Refusal::Sized,
    Refusal::Ledger,
    Refusal::Full,
    Refusal::Empty,
    Refusal::Holds,
    Refusal::Token,
];

fn report_causes(rt: &HostRuntime, refused: &[u64]) -> anyhow::Result<()> {
    for cause in CAUSES {
        let number = cause.number();
        let times = refused.get(usize::from(number)).copied().unwrap_or(0);
        println!(rt; "refused by {number}, {cause}: {times}")?;
    }
    Ok(())
}

fn report(rt: &HostRuntime, course: &Course, outcome: Result<(), Fault>) -> anyhow::Result<()> {
    println!(rt; "stacks: {}\ncalls: {}", course.stacks, course.calls)?;
    report_causes(rt, &course.refused)?;
    println!(rt;
        "settles: {}\nanswers compared: {}",
        course.settles, course.compared
    )?;
    if let Err(what) = outcome {
        println!(rt;
            "round {}, call {}: {what} differs",
            course.round, course.step
        )?;
        return Err(anyhow!("a heap differs from the plain model"));
    }
    println!(rt; "none differed")?;
    Ok(())
}

fn main(rt: HostRuntime) -> anyhow::Result<()> {
    let mut course = Course::new(rt.alloc());
    let outcome = every_stack(&mut course);
    report(&rt, &course, outcome)
}
