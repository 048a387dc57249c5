//! Reads a drawing and edits of it from standard input, enters it into a heap through the heap's calls, and prints what heap and ledger answer.
#![tactic(auto)]

mod show;

use coalescing::Log;
use counts::{Count, Exact, ExactRow};
use entry::{Answers, Entered};
use heap::Heap;
use ledgers::{Bottom, Ledger};
use parts::{Drawing, Edit};
use queue::Queue;
use show::part_line;
use std::io::Read;
use std::process::ExitCode;
use std::str;
use zeros::Zeros;

// The most cells that a heap can have.
const CELLS: usize = 1024;

// A line for each part, then the parts that nobody points to.
fn print_parts(
    rt: &HostRuntime,
    names: &[&[u8]],
    cells: &[u16],
    slots: &[u16],
    answers: &Answers,
) -> anyhow::Result<()> {
    println!(rt; "waiting before settle: {}", answers.waiting)?;
    let parts = answers.parts.iter();
    for (((name, cell), told), slots) in names.iter().zip(cells).zip(parts).zip(slots.chunks(4)) {
        let line = part_line(rt.alloc(), name, *told, slots, names)?;
        println!(rt; "cell {cell}, {line}")?;
    }
    println!(rt; "nobody points to:")?;
    let parts = answers.parts.iter();
    for (name, _) in names.iter().zip(parts).filter(|(_, told)| told.bare) {
        println!(rt; "{}", str::from_utf8(name)?)?;
    }
    Ok(())
}

// Settles the ledger, and prints what it and the heap answered, and the heap itself.
fn print_answers<L: Ledger>(
    rt: &HostRuntime,
    heap: &Heap,
    ledger: &mut L,
    names: &[&[u8]],
    cells: &[u16],
    slots: &[u16],
) -> anyhow::Result<()> {
    let answers = entry::ask(rt.alloc(), ledger, cells)?;
    print_parts(rt, names, cells, slots, &answers)?;
    print!(rt; "the heap:\n{heap}")?;
    Ok(())
}

// What was done, in numbers.
fn print_completed(
    rt: &HostRuntime,
    heap: &Heap,
    drawing: &Drawing<'_>,
    edits: usize,
) -> anyhow::Result<()> {
    let lines = drawing.lines();
    let parts = drawing.names().len();
    let references = drawing.references();
    let used = heap.live();
    let cells = heap.cells();
    println!(rt;
        "completed: {lines} lines, {parts} parts, {references} references, {edits} edits, {used} of {cells} cells in use"
    )?;
    Ok(())
}

// Everything that can be refused is done before the first line is printed, and the token is released however printing ends.
fn enter_and_print<L: Ledger>(
    rt: &HostRuntime,
    ledger: &mut L,
    text: &[u8],
    drawing: &Drawing<'_>,
    edits: &[Edit],
) -> anyhow::Result<()> {
    let mut heap = Heap::new();
    let Entered {
        cells,
        slots,
        token,
    } = entry::enter(rt.alloc(), &mut heap, ledger, text, drawing, edits)?;
    let printed = print_answers(rt, &heap, ledger, drawing.names(), &cells, &slots);
    // The hold is open, as nothing was released since.
    if let Some(token) = token {
        heap.release(ledger, token).unwrap();
    }
    printed?;
    print_completed(rt, &heap, drawing, edits.len())
}

fn answer<L: Ledger>(rt: &HostRuntime, ledger: &mut L, text: &[u8]) -> anyhow::Result<()> {
    let memory = rt.alloc();
    let drawing = parts::read(memory, text)?;
    let edits = parts::read_edits(memory, text, &drawing)?;
    enter_and_print(rt, ledger, text, &drawing, &edits)
}

fn run(rt: &HostRuntime) -> anyhow::Result<()> {
    let memory = rt.alloc();
    let mut text = Vec::new(memory);
    rt.stdin().read_to_end(&mut text)?;
    let mut rows = vec![in memory; ExactRow { value: 0 }; CELLS]?;
    let mut ledger = Queue::new(Log::new(Zeros::new(Bottom::<Exact>::new(&mut rows))));
    answer(rt, &mut ledger, &text)
}

fn main(rt: HostRuntime) -> ExitCode {
    let Err(error) = run(&rt) else {
        return ExitCode::SUCCESS;
    };
    // Where the refusal can't be printed either, the status alone tells of it.
    let _ = eprintln!(rt; "{error}");
    ExitCode::FAILURE
}
