//! Drawings in a heap, through a queue over a log over a zero table over exact counts.
#![tactic(auto)]

#[cfg(test)]
mod tests {
    use coalescing::Log;
    use counts::{Count, Exact, ExactRow};
    use entry::{Answers, Entered, EntryError, ask, enter};
    use heap::Heap;
    use ledgers::{Bottom, Ledger};
    use parts::{read, read_edits};
    use queue::Queue;
    use std::alloc::Global;
    use std::process::Abort;
    use std::test::Fail;
    use zeros::Zeros;

    // What a drawing came to, once its token was released.
    #[derive(Drop)]
    struct Outcome {
        slots: Vec<u16>,
        answers: Answers,
        was_held: bool,
        cells_in_use: u16,
    }

    // The drawing of a text, or why it was not entered.
    fn play<L: Ledger>(
        memory: Global,
        ledger: &mut L,
        text: &[u8],
    ) -> Result<Result<Outcome, EntryError>, Fail> {
        let drawing = read(memory, text)?;
        let edits = read_edits(memory, text, &drawing)?;
        let mut heap = Heap::new();
        let Entered {
            cells,
            slots,
            token,
        } = match enter(memory, &mut heap, ledger, text, &drawing, &edits) {
            Ok(entered) => entered,
            Err(error) => return Ok(Err(error)),
        };
        let was_held = token.is_some();
        if let Some(token) = token {
            heap.release(ledger, token).unwrap();
        }
        let answers = ask(memory, ledger, &cells)?;
        let cells_in_use = heap.live();
        Ok(Ok(Outcome {
            slots,
            answers,
            was_held,
            cells_in_use,
        }))
    }

    fn draw(memory: Global, text: &[u8]) -> Result<Result<Outcome, EntryError>, Fail> {
        let mut rows = vec![in memory; ExactRow { value: 0 }; 1024]?;
        let mut ledger = Queue::new(Log::new(Zeros::new(Bottom::<Exact>::new(&mut rows))));
        play(memory, &mut ledger, text)
    }

    // Compares what a drawing points to, and how many references there are to each part.
    fn check_drawing(
        rt: &impl Abort,
        memory: Global,
        text: &[u8],
        slots: &[u16],
        references: &[u16],
    ) -> Result<(), Fail> {
        let found = draw(memory, text)??;
        assert!(rt; found.slots.as_slice() == slots);
        assert_eq!(rt; found.answers.parts.len(), references.len());
        for (told, number) in found.answers.parts.iter().zip(references.iter()) {
            assert_eq!(rt; told.references, Some(*number));
            assert_eq!(rt; told.bare, *number == 0);
        }
        assert!(rt; found.was_held);
        Ok(())
    }

    #[test]
    fn an_empty_text_holds_nothing(rt: HostRuntime) -> Result<(), Fail> {
        let found = draw(rt.alloc(), b"")??;
        assert_eq!(rt; found.slots.len(), 0);
        assert_eq!(rt; found.cells_in_use, 1);
        assert!(rt; !found.was_held);
        Ok(())
    }

    #[test]
    fn nobody_points_to_a_part(rt: HostRuntime) -> Result<(), Fail> {
        check_drawing(
            &rt,
            rt.alloc(),
            b"a b b\nc b",
            &[2, 2, 0, 0, 0, 0, 0, 0, 2, 0, 0, 0],
            &[0, 3, 0],
        )
    }

    #[test]
    fn a_cycle_is_counted(rt: HostRuntime) -> Result<(), Fail> {
        check_drawing(
            &rt,
            rt.alloc(),
            b"a b\nb a a",
            &[2, 0, 0, 0, 1, 1, 0, 0],
            &[2, 1],
        )
    }

    #[test]
    fn an_edit_empties_a_slot(rt: HostRuntime) -> Result<(), Fail> {
        check_drawing(
            &rt,
            rt.alloc(),
            b"a.0 =\na b a",
            &[0, 1, 0, 0, 0, 0, 0, 0],
            &[1, 0],
        )
    }

    #[test]
    fn a_slot_is_edited_twice(rt: HostRuntime) -> Result<(), Fail> {
        check_drawing(
            &rt,
            rt.alloc(),
            b"a b\na.2 = a\na.2 = b",
            &[2, 0, 2, 0, 0, 0, 0, 0],
            &[0, 2],
        )
    }

    // A comment, and then a description of `parts` parts, `pN` on a line of its own.
    fn many(memory: Global, parts: u16) -> Result<String, Fail> {
        let mut text = String::from_str(memory, "# many\n")?;
        for i in 0..parts {
            text.push_str(format!(in memory; "p{i}\n")?.as_str())?;
        }
        Ok(text)
    }

    #[test]
    fn the_heap_has_room_for_768_parts(rt: HostRuntime) -> Result<(), Fail> {
        let memory = rt.alloc();
        let found = draw(memory, many(memory, 768)?.as_bytes())??;
        assert_eq!(rt; found.cells_in_use, 1024);
        match draw(memory, many(memory, 769)?.as_bytes())? {
            Ok(_) => Err(Fail::new("769 parts were entered")),
            Err(error) => {
                assert_eq!(rt;
                    error.to_string(memory)?.as_str(),
                    "line 770: refusal 8: every cell is in use"
                );
                Ok(())
            },
        }
    }
}
