//! The heap at its edges.
#![tactic(auto)]

ghost use Rattle.std.specs.Prelude.{◌≡◌, false, None};
ghost use Rattle.heap.specs.Calls.{open_token, release_checks, with_hold};
ghost use Rattle.heap.specs.Refusals.{cause_of};
ghost use Rattle.heap.specs.States.{state};

#[cfg(test)]
mod tests {
    use counts::{Count, Exact, ExactRow};
    use heap::{Heap, Refusal, Token, Unreleased};
    use ledgers::{Bottom, Ledger};
    use queue::Queue;
    use std::test::Fail;

    // What the rows held before the heap was sized does not matter. A ledger borrows its rows, so each test makes its own three values.
    const ROW: ExactRow = ExactRow { value: 7 };

    // The number of the refusal, if there is one.
    fn cause<T: Drop>(answer: Result<T, Refusal>) -> Option<u8> {
        answer.err().map(Refusal::number)
    }

    #[test]
    fn sizes(rt: HostRuntime) {
        let mut rows = [ROW; 1024];
        let mut ledger = Bottom::<Exact>::new(&mut rows);
        let mut heap = Heap::new();
        let causes = [
            cause(heap.size(&mut ledger, 0)),
            cause(heap.size(&mut ledger, 1025)),
            cause(heap.clear(&ledger, 0)),
            cause(heap.size(&mut ledger, 1024)),
            cause(heap.size(&mut ledger, 1)),
        ];
        assert_eq!(rt; causes, [Some(1), Some(1), Some(5), None, Some(6)]);
        assert_eq!(rt;
            [heap.slot(1024, 3), heap.slot(1024, 4), heap.slot(1025, 0)],
            [Some(0), None, None]
        );
    }

    #[test]
    fn the_ledger_has_to_have_room(rt: HostRuntime) {
        let mut rows = [ROW; 1];
        let mut ledger = Bottom::<Exact>::new(&mut rows);
        let mut heap = Heap::new();
        let causes = [
            cause(heap.size(&mut ledger, 2)),
            cause(heap.size(&mut ledger, 1)),
        ];
        assert_eq!(rt; causes, [Some(7), None]);
        assert_eq!(rt; heap.cells(), 1);
    }

    #[test]
    fn a_full_heap(rt: HostRuntime) {
        let mut rows = [ROW; 2];
        let mut ledger = Bottom::<Exact>::new(&mut rows);
        let mut heap = Heap::new();
        let causes = [
            cause(heap.size(&mut ledger, 2)),
            cause(heap.new_cell(&ledger, 16)),
            cause(heap.new_cell(&ledger, 0)),
            cause(heap.new_cell(&ledger, 0)),
            cause(heap.new_cell(&ledger, 0)),
        ];
        assert_eq!(rt; causes, [None, Some(2), None, None, Some(8)]);
        assert_eq!(rt; heap.root(0), Some(2));
        assert_eq!(rt; heap.is_suspect(1), Some(true));
    }

    // Only a store that changes its slot is noted.
    #[test]
    fn a_store_of_the_same_content(rt: HostRuntime) {
        let mut rows = [ROW; 2];
        let mut ledger = Queue::new(Bottom::<Exact>::new(&mut rows));
        let mut heap = Heap::new();
        let causes = [
            cause(heap.size(&mut ledger, 2)),
            cause(heap.store(&mut ledger, 0, 0, 1)),
            cause(heap.new_cell(&ledger, 0)),
            cause(heap.store(&mut ledger, 0, 4, 0)),
            cause(heap.store(&mut ledger, 0, 3, 0)),
            cause(heap.store(&mut ledger, 0, 3, 0)),
        ];
        assert_eq!(rt; causes, [None, Some(9), None, Some(3), None, None]);
        assert_eq!(rt; ledger.waiting(), 1);
        assert_eq!(rt; heap.is_suspect(1), Some(false));
    }

    #[test]
    fn a_picture(rt: HostRuntime) -> Result<(), Fail> {
        let mut rows = [ROW; 3];
        let mut ledger = Bottom::<Exact>::new(&mut rows);
        let mut heap = Heap::new();
        let causes = [
            cause(heap.size(&mut ledger, 3)),
            cause(heap.new_cell(&ledger, 0)),
            cause(heap.new_cell(&ledger, 2)),
            cause(heap.store(&mut ledger, 0, 1, 2)),
        ];
        assert_eq!(rt; causes, [None; 4]);
        let text = heap.to_string(rt.alloc())?;
        assert_eq!(rt;
            text.as_str(),
            "1: - 2 - -\n2: - - - -\nroots: 1 - 2 - - - - - - - - - - - - -\nholds: - - - - - - - - - - - - - - - -\n"
        );
        Ok(())
    }

    // A second release of one token doesn't compile. Another hold is taken in its place.
    fn hold_once<L: Ledger>(heap: &mut Heap, ledger: &L) -> Result<(), Refusal> {
        let token = heap.hold(ledger, 0)?;
        heap.release(ledger, token).unwrap();
        Ok(())
    }

    #[test]
    fn another_hold(rt: HostRuntime) {
        let mut rows = [ROW; 1];
        let mut ledger = Bottom::<Exact>::new(&mut rows);
        let mut heap = Heap::new();
        let causes = [
            cause(heap.size(&mut ledger, 1)),
            cause(hold_once(&mut heap, &ledger)),
            cause(heap.new_cell(&ledger, 0)),
            cause(hold_once(&mut heap, &ledger)),
            cause(hold_once(&mut heap, &ledger)),
        ];
        assert_eq!(rt; causes, [None, Some(9), None, None, None]);
    }

    // Offers a token that is not open here.
    fn offer<L: Ledger>(heap: &mut Heap, ledger: &L, token: Token) -> Unreleased
        requires { open_token (state heap.old) token ≡ false }
        ensures token { result.token ≡ token }
        ensures heap { heap.new ≡ heap.old }
    {
        let Err(unreleased) = heap.release(ledger, token) else {
            unreachable()
        };
        unreleased
    }

    // Offers the token of one heap to another, and brings it back.
    fn offer_elsewhere<L: Ledger>(
        left: &mut Heap,
        right: &mut Heap,
        ledger: &L,
        token: Token,
    ) -> Result<(), Refusal>
        requires { cause_of (release_checks (state left.old) token) ≡ None }
        ensures { right.new ≡ right.old }
    {
        if right.is_open(&token) {
            left.release(ledger, token).unwrap();
            return Ok(());
        }
        let Unreleased { cause, token } = offer(right, ledger, token);
        left.release(ledger, token).unwrap();
        Err(cause)
    }

    // Both heaps have cells, and a cell in root 0.
    fn hold_both<L: Ledger>(left: &mut Heap, right: &mut Heap, ledger: &L) -> Result<(), Refusal> {
        let ours = left.hold(ledger, 0)?;
        match right.hold(ledger, 0) {
            Ok(theirs) => {
                let outcome = offer_elsewhere(left, right, ledger, ours);
                right.release(ledger, theirs).unwrap();
                outcome
            }
            Err(refusal) => {
                left.release(ledger, ours).unwrap();
                Err(refusal)
            }
        }
    }

    // Hold 0 is open in both heaps, with another cell in each.
    #[test]
    fn a_token_of_another_heap(rt: HostRuntime) {
        let mut rows = [ROW; 2];
        let mut ledger = Bottom::<Exact>::new(&mut rows);
        let mut left = Heap::new();
        let mut right = Heap::new();
        let causes = [
            cause(left.size(&mut ledger, 2)),
            cause(right.size(&mut ledger, 2)),
            cause(left.new_cell(&ledger, 0)),
            cause(right.new_cell(&ledger, 0)),
            cause(right.new_cell(&ledger, 0)),
            cause(hold_both(&mut left, &mut right, &ledger)),
        ];
        assert_eq!(rt; causes, [None, None, None, None, None, Some(11)]);
    }

    // Opens as many holds, one within the other, and empties them again. Answers the first refusal.
    fn nest<L: Ledger>(heap: &mut Heap, ledger: &L, holds: u8) -> Result<(), Refusal>
        ensures cells { (state heap.new).graph.cells ≡ (state heap.old).graph.cells }
        ensures holds { (state heap.new).graph.holds ≡ (state heap.old).graph.holds }
    {
        if holds == 0 {
            return Ok(());
        }
        let token = heap.hold(ledger, 0)?;
        let outcome = nest(heap, ledger, holds - 1);
        heap.release(ledger, token).unwrap();
        outcome
    }

    #[test]
    fn sixteen_holds(rt: HostRuntime) {
        let mut rows = [ROW; 1];
        let mut ledger = Bottom::<Exact>::new(&mut rows);
        let mut heap = Heap::new();
        let causes = [
            cause(heap.size(&mut ledger, 1)),
            cause(heap.new_cell(&ledger, 0)),
            cause(nest(&mut heap, &ledger, 16)),
            cause(nest(&mut heap, &ledger, 17)),
        ];
        assert_eq!(rt; causes, [None, None, None, Some(10)]);
    }
}
