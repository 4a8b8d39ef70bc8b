// Examples at the boundaries of receipts and rolls, run on the built code.
#![tactic(auto)]

#[cfg(test)]
mod tests {
    use model::action::Action;
    use model::fault::{Fault, Layer, ReceiptFault, Refusal, RollFault};
    use roll::write::{roll_length, write_roll};
    use store::Store;
    use till::Till;
    use till::calls::ring_up;

    // Levels 0 1 2 2 1 2 2, labels 1 2 3 3 2 3 4, depth 2.
    fn worked() -> Till {
        ring_up(&[
            Action::Open(1),
            Action::Open(2),
            Action::Open(3),
            Action::Close,
            Action::Open(3),
            Action::Close,
            Action::Close,
            Action::Open(2),
            Action::Open(3),
            Action::Close,
            Action::Open(4),
            Action::Close,
        ])
    }

    #[test]
    fn holds_256_elements(rt: HostRuntime) {
        let mut till = Till::new();
        assert_eq!(rt; till.open(1), Ok(0));
        for i in 1..256usize {
            assert_eq!(rt; till.open(250), Ok(i));
            assert_eq!(rt; till.close(), Ok(()));
        }
        assert_eq!(rt; till.count(), 256);
        assert_eq!(rt; till.open(250), Err(ReceiptFault::Full));
        assert_eq!(rt; till.next_sibling(254), Some(255));
        assert_eq!(rt; roll_length(&till), 520);
    }

    #[test]
    fn opens_16_deep(rt: HostRuntime) {
        let mut till = Till::new();
        for i in 0..16usize {
            assert_eq!(rt; till.open(7), Ok(i));
        }
        assert_eq!(rt; till.open(7), Err(ReceiptFault::TooDeep));
        assert_eq!(rt; till.depth(), 16);
        assert_eq!(rt; till.level(15), Some(15));
    }

    #[test]
    fn refuses_labels(rt: HostRuntime) {
        let mut till = Till::new();
        assert_eq!(rt; till.open(0), Err(ReceiptFault::BadLabel));
        assert_eq!(rt; till.open(251), Err(ReceiptFault::BadLabel));
        assert_eq!(rt; till.open(250), Ok(0));
        assert_eq!(rt; till.label(0), Some(250));
        assert_eq!(rt; till.label(1), None);
    }

    #[test]
    fn ends(rt: HostRuntime) {
        let mut till = Till::new();
        assert_eq!(rt; till.close(), Err(ReceiptFault::NothingOpen));
        assert_eq!(rt;
            till.run(&[
                Action::Open(1),
                Action::Close,
                Action::Open(1),
                Action::Close,
            ],),
            2
        );
        assert_eq!(rt; till.open(0), Err(ReceiptFault::BadLabel));
        assert_eq!(rt; till.open(1), Err(ReceiptFault::Ended));
        assert_eq!(rt; till.close(), Err(ReceiptFault::NothingOpen));
        assert_eq!(rt; till.count(), 1);
    }

    #[test]
    fn names_refusals(rt: HostRuntime) {
        let numbers = [
            (ReceiptFault::BadLabel, 2),
            (ReceiptFault::Ended, 3),
            (ReceiptFault::Full, 4),
            (ReceiptFault::TooDeep, 5),
            (ReceiptFault::NothingOpen, 6),
        ];
        for (fault, number) in &numbers {
            assert_eq!(rt;
                fault.refusal(),
                Refusal {
                    number: *number,
                    layer: Layer::Receipt,
                    place: 0,
                }
            );
        }
    }

    #[test]
    fn links_relatives(rt: HostRuntime) {
        let till = worked();
        // Parent, first child, next and previous sibling of each rank.
        let relatives = [
            (None, Some(1), None, None),
            (Some(0), Some(2), Some(4), None),
            (Some(1), None, Some(3), None),
            (Some(1), None, None, Some(2)),
            (Some(0), Some(5), None, Some(1)),
            (Some(4), None, Some(6), None),
            (Some(4), None, None, Some(5)),
            (None, None, None, None),
        ];
        for (rank, (parent, child, next, previous)) in relatives.iter().enumerate() {
            assert_eq!(rt; till.parent(rank), *parent);
            assert_eq!(rt; till.first_child(rank), *child);
            assert_eq!(rt; till.next_sibling(rank), *next);
            assert_eq!(rt; till.previous_sibling(rank), *previous);
        }
        assert_eq!(rt; till.depth(), 2);
    }

    #[test]
    fn writes_into_exact_memory(rt: HostRuntime) {
        let till = worked();
        let mut short = [9u8; 21];
        assert_eq!(rt; write_roll(&till, &mut short), Err(RollFault::ShortMemory));
        assert_eq!(rt; short, [9u8; 21]);
        let mut memory = [9u8; 23];
        assert_eq!(rt; write_roll(&till, &mut memory), Ok(22));
        assert_eq!(rt;
            memory,
            [
                1, 2, 0, 7, 0, 8, 0, 15, 0, 1, 2, 2, 1, 2, 2, 1, 2, 3, 3, 2, 3, 4, 9,
            ]
        );
    }
}
