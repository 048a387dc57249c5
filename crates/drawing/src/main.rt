//! Reads a drawing and edits of it from standard input, keeps its references through a stack of ledgers, and prints what it found.
#![tactic(auto)]

use counts::{Count, Exact, Sticky, Tally};
use parts::{Drawing, Edit};
use replay::{Replayed, keep};
use std::alloc::Global;
use std::io::Read;
use std::process::ExitCode;
use std::{fmt, str};

/// What a count answered, for people: its number, or `stuck`.
#[derive(Clone, Copy)]
struct Answer(Option<u16>);

impl fmt::Display for Answer {
    fn fmt<W: fmt::Write>(&self, f: &mut fmt::Formatter<W>) -> fmt::Result {
        match self.0 {
            Some(number) => write!(f, "{number}"),
            None => f.write_str("stuck"),
        }
    }
}

/// What the references of a drawing came to, by each kind of count.
#[derive(Drop)]
struct Answers {
    exact: Replayed,
    sticky: Replayed,
    tally: Replayed,
}

// What the references come to by counts of kind `K`.
fn count<K: Count>(
    heap: Global,
    drawing: &Drawing<'_>,
    edits: &[Edit],
) -> anyhow::Result<Replayed> {
    let mut rows = vec![in heap; K::new().to_row(); drawing.names().len()]?;
    Ok(keep::<K>(heap, &mut rows, drawing.slots(), edits)?)
}

// A line for each part.
fn print_numbers(rt: &HostRuntime, names: &[&[u8]], answers: &Answers) -> anyhow::Result<()> {
    let exact = answers.exact.numbers.iter();
    let sticky = answers.sticky.numbers.iter();
    let tally = answers.tally.numbers.iter();
    println!(rt; "part: exact, sticky, tally")?;
    for (((name, exact), sticky), tally) in names.iter().zip(exact).zip(sticky).zip(tally) {
        let name = str::from_utf8(name)?;
        println!(rt;
            "{name}: {}, {}, {}",
            Answer(*exact),
            Answer(*sticky),
            Answer(*tally)
        )?;
    }
    Ok(())
}

// The parts of these numbers, to which nobody points.
fn print_zeros(rt: &HostRuntime, names: &[&[u8]], zeros: &[u16]) -> anyhow::Result<()> {
    println!(rt; "nobody points to:")?;
    for part in zeros {
        if let Some(name) = usize::from(*part).checked_sub(1).and_then(|i| names.get(i)) {
            println!(rt; "{}", str::from_utf8(name)?)?;
        }
    }
    Ok(())
}

// Everything that can be refused is done before the first line is printed.
fn run(rt: &HostRuntime) -> anyhow::Result<()> {
    let heap = rt.alloc();
    let mut text = Vec::new(heap);
    rt.stdin().read_to_end(&mut text)?;
    let drawing = parts::read(heap, &text)?;
    let edits = parts::read_edits(heap, &text, &drawing)?;
    let answers = Answers {
        exact: count::<Exact>(heap, &drawing, &edits)?,
        sticky: count::<Sticky>(heap, &drawing, &edits)?,
        tally: count::<Tally>(heap, &drawing, &edits)?,
    };
    println!(rt; "waiting before settle: {}", answers.exact.waiting)?;
    print_numbers(rt, drawing.names(), &answers)?;
    print_zeros(rt, drawing.names(), &answers.exact.zeros)?;
    let lines = drawing.lines();
    let parts = drawing.names().len();
    let references = drawing.references();
    let edits = edits.len();
    println!(rt;
        "completed: {lines} lines, {parts} parts, {references} references, {edits} edits"
    )?;
    Ok(())
}

fn main(rt: HostRuntime) -> ExitCode {
    let Err(error) = run(&rt) else {
        return ExitCode::SUCCESS;
    };
    // Where the refusal can't be printed either, the status alone tells of it.
    let _ = eprintln!(rt; "{error}");
    ExitCode::FAILURE
}
