//! Layers at their edges, and the worked example of the documents.
#![tactic(auto)]

#[cfg(test)]
mod tests {
    use coalescing::Log;
    use counts::{Count, Exact, ExactRow, Sticky, StickyRow};
    use ledgers::{Bottom, Ledger, TooManyCells};
    use queue::Queue;
    use std::process::Abort;
    use zeros::Zeros;

    // Rows with any bytes in them: what they held before the first clear does not matter.
    const STICKY: StickyRow = StickyRow { value: 200 };

    const EXACT: ExactRow = ExactRow { value: 7 };

    #[test]
    fn the_worked_example(rt: HostRuntime) {
        let mut rows = [STICKY; 2];
        let mut ledger = Queue::new(Log::new(Zeros::new(Bottom::<Sticky>::new(&mut rows))));
        assert_eq!(rt; ledger.clear(2), Ok(()));
        ledger.note(0, 0, 1);
        ledger.note(0, 1, 2);
        ledger.note(1, 0, 2);
        assert_eq!(rt; ledger.waiting(), 3);
        assert_eq!(rt; ledger.number(1), None);
        ledger.settle();
        assert_eq!(rt; ledger.waiting(), 0);
        assert_eq!(rt; ledger.number(1), Some(0));
        assert_eq!(rt; ledger.number(2), Some(2));
        assert_eq!(rt; ledger.next_zero(1), Some(1));
        assert_eq!(rt; ledger.next_zero(2), None);
    }

    // Two slots hold cell 1, and a third is moved there and back: a bare count is stuck by that, one under a log is not.
    fn there_and_back<L: Ledger>(ledger: &mut L) -> Option<u16> {
        let _ = ledger.clear(1);
        ledger.note(0, 0, 1);
        ledger.note(1, 0, 1);
        ledger.settle();
        ledger.note(2, 0, 1);
        ledger.note(2, 1, 0);
        ledger.settle();
        ledger.number(1)
    }

    #[test]
    fn a_log_spares_the_counts(rt: HostRuntime) {
        let mut rows = [STICKY; 1];
        assert_eq!(rt; there_and_back(&mut Bottom::<Sticky>::new(&mut rows)), None);
        assert_eq!(rt;
            there_and_back(&mut Queue::new(Bottom::<Sticky>::new(&mut rows))),
            None
        );
        assert_eq!(rt;
            there_and_back(&mut Log::new(Bottom::<Sticky>::new(&mut rows))),
            Some(2)
        );
    }

    #[test]
    fn the_65th_note_sends_64_down(rt: HostRuntime) {
        let mut rows = [EXACT; 40];
        let mut ledger = Queue::new(Log::new(Bottom::<Exact>::new(&mut rows)));
        assert_eq!(rt; ledger.clear(40), Ok(()));
        for slot in 0..64 {
            ledger.note(slot, 0, 1);
        }
        assert_eq!(rt; ledger.waiting(), 64);
        ledger.note(64, 0, 1);
        // One waits in the queue, 64 in the log.
        assert_eq!(rt; ledger.waiting(), 65);
        ledger.settle();
        assert_eq!(rt; ledger.number(1), Some(65));
    }

    // A constant that is another type's can't be tied to a ghost member, so that a layer names the ceiling of the ledger below is tested.
    fn names_its_ceiling<L: Ledger>(rt: &impl Abort, _: &L) {
        assert_eq!(rt; L::CEILING, L::top());
    }

    #[test]
    fn every_layer_names_its_ceiling(rt: HostRuntime) {
        let mut rows = [STICKY; 1];
        names_its_ceiling(&rt, &Bottom::<Sticky>::new(&mut rows));
        names_its_ceiling(&rt, &Queue::new(Bottom::<Sticky>::new(&mut rows)));
        names_its_ceiling(&rt, &Log::new(Bottom::<Sticky>::new(&mut rows)));
        names_its_ceiling(&rt, &Zeros::new(Bottom::<Sticky>::new(&mut rows)));
    }

    #[test]
    fn out_of_range_changes_nothing(rt: HostRuntime) {
        let mut rows = [EXACT; 3];
        let mut ledger = Queue::new(Zeros::new(Bottom::<Exact>::new(&mut rows)));
        assert_eq!(rt; ledger.clear(4), Err(TooManyCells));
        assert_eq!(rt; ledger.cells(), 0);
        assert_eq!(rt; ledger.clear(3), Ok(()));
        ledger.note(12, 0, 1);
        ledger.note(0, 4, 1);
        ledger.note(0, 0, 4);
        assert_eq!(rt; ledger.waiting(), 0);
        assert_eq!(rt; ledger.number(0), None);
        assert_eq!(rt; ledger.number(4), None);
        ledger.recount(4, 1);
        assert_eq!(rt; ledger.next_zero(0), Some(1));
    }
}
