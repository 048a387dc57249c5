//! Trials of the ledgers: random notes go through every stack of layers, over every kind of count, against a plain recount.
#![tactic(auto)]

mod plain;
mod sight;
mod stacks;
mod trial;

use anyhow::anyhow;
use counts::{Exact, Sticky, Tally};
use stacks::every_stack;
use trial::{Course, Fault};

fn every_kind(course: &mut Course) -> Result<(), Fault> {
    every_stack::<Exact>(course)?;
    every_stack::<Sticky>(course)?;
    every_stack::<Tally>(course)
}

fn main(rt: HostRuntime) -> anyhow::Result<()> {
    let mut course = Course::new(rt.alloc());
    let outcome = every_kind(&mut course);
    println!(rt; "stacks: {}", course.stacks)?;
    println!(rt; "notes: {}", course.notes)?;
    println!(rt; "settles: {}", course.settles)?;
    println!(rt; "answers compared: {}", course.compared)?;
    if let Err(fault) = outcome {
        println!(rt;
            "{} over {}, round {}: {fault}",
            course.stack(),
            course.kind,
            course.round
        )?;
        return Err(anyhow!("a ledger differs from the plain count"));
    }
    println!(rt; "none differed")?;
    Ok(())
}
