//! The edges of the three kinds of count.
#![tactic(auto)]

#[cfg(test)]
mod tests {
    use counts::{Count, Exact, ExactRow, Sticky, StickyRow, Tally, TallyRow};
    use std::process::Abort;

    fn exact(value: u16) -> Exact {
        <Exact as Count>::from_row(ExactRow { value })
    }

    // Up to the ceiling, past it, and down again: what each kind does there, whatever its ceiling is.
    fn edges<K: Count>(rt: &impl Abort) {
        let top = K::set(K::CEILING);
        assert_eq!(rt; K::top(), K::CEILING);
        assert_eq!(rt; K::new().number(), Some(0));
        assert_eq!(rt; K::new().down().number(), Some(0));
        assert_eq!(rt; K::new().up().down().number(), Some(0));
        assert_eq!(rt; top.number(), Some(K::CEILING));
        assert_eq!(rt; top.up().number(), None);
        assert_eq!(rt; top.up().up().number(), None);
        assert_eq!(rt; top.up().down().number(), None);
        assert_eq!(rt; top.down().up().number(), Some(K::CEILING));
        assert_eq!(rt; K::set(u16::MAX).number(), None);
    }

    #[test]
    fn every_kind_at_its_edges(rt: HostRuntime) {
        edges::<Exact>(&rt);
        edges::<Sticky>(&rt);
        edges::<Tally>(&rt);
    }

    #[test]
    fn exact_near_its_ceiling(rt: HostRuntime) {
        assert_eq!(rt; exact(65_533).up().number(), Some(65_534));
        assert_eq!(rt; exact(65_534).number(), Some(65_534));
        assert_eq!(rt; exact(65_534).up().to_row().value, 65_535);
        assert_eq!(rt; exact(65_535).number(), None);
        assert_eq!(rt; exact(65_535).down().to_row().value, 65_535);
    }

    #[test]
    fn every_byte_as_a_sticky_row(rt: HostRuntime) {
        for value in 0..=u8::MAX {
            let count: Sticky = <Sticky as Count>::from_row(StickyRow { value });
            let told = (value <= 2).then_some(u16::from(value));
            assert_eq!(rt; count.number(), told);
            assert_eq!(rt; count.to_row().value, value.min(3));
        }
    }

    #[test]
    fn every_byte_as_a_tally_row(rt: HostRuntime) {
        let tallies: [(u8, u16); 8] = [
            (0b0, 0),
            (0b1, 1),
            (0b11, 2),
            (0b111, 3),
            (0b1111, 4),
            (0b1_1111, 5),
            (0b11_1111, 6),
            (0b111_1111, 7),
        ];
        for ones in 0..=u8::MAX {
            let is = tallies.iter().find(|(tally, _)| *tally == ones);
            let told = is.map(|(_, number)| *number);
            let count: Tally = <Tally as Count>::from_row(TallyRow { ones });
            assert_eq!(rt; count.number(), told);
            assert_eq!(rt;
                count.to_row().ones,
                if told.is_some() { ones } else { u8::MAX }
            );
        }
    }
}
