// Examples of reading rolls: the roll store beside the till's store, and damaged rolls.
#![tactic(auto)]

#[cfg(test)]
mod tests {
    use model::action::Action;
    use model::fault::{Fault, Layer, Refusal};
    use roll::Roll;
    use roll::write::write_roll;
    use std::process::Abort;
    use std::test::Fail;
    use store::Store;
    use till::Till;
    use till::calls::ring_up;

    // Levels 0 1 2 2 1 2 2, labels 1 2 3 3 2 3 4, depth 2.
    const WORKED: [u8; 22] = [
        1, 2, 0, 7, 0, 8, 0, 15, 0, 1, 2, 2, 1, 2, 2, 1, 2, 3, 3, 2, 3, 4,
    ];

    fn check_same<A: Store, B: Store>(rt: &impl Abort, a: &A, b: &B) {
        assert_eq!(rt; a.count(), b.count());
        assert_eq!(rt; a.depth(), b.depth());
        for rank in 0..257usize {
            assert_eq!(rt; a.label(rank), b.label(rank));
            assert_eq!(rt; a.level(rank), b.level(rank));
            assert_eq!(rt; a.parent(rank), b.parent(rank));
            assert_eq!(rt; a.first_child(rank), b.first_child(rank));
            assert_eq!(rt; a.next_sibling(rank), b.next_sibling(rank));
            assert_eq!(rt; a.previous_sibling(rank), b.previous_sibling(rank));
        }
    }

    fn check_reads_back(rt: &impl Abort, till: &Till) -> Result<(), Fail> {
        let mut memory = [9u8; 520];
        let length = write_roll(till, &mut memory)?;
        assert!(rt; length <= 520);
        let roll = Roll::read(&memory[..length]);
        assert_eq!(rt; roll.fault(), None);
        check_same(rt, till, &roll);
        Ok(())
    }

    #[test]
    fn worked_reads_back(rt: HostRuntime) -> Result<(), Fail> {
        let till = ring_up(&[
            Action::Open(1),
            Action::Open(2),
            Action::Open(3),
            Action::Close,
            Action::Open(3),
            Action::Close,
            Action::Close,
            Action::Open(2),
            Action::Open(3),
            Action::Close,
            Action::Open(4),
            Action::Close,
        ]);
        check_same(&rt, &till, &Roll::read(&WORKED));
        check_reads_back(&rt, &till)
    }

    #[test]
    fn deep_reads_back(rt: HostRuntime) -> Result<(), Fail> {
        let mut till = Till::new();
        check_reads_back(&rt, &till)?;
        for label in 1..=16 {
            assert_eq!(rt; till.open(label).is_ok(), true);
        }
        check_reads_back(&rt, &till)
    }

    #[test]
    fn wide_reads_back(rt: HostRuntime) -> Result<(), Fail> {
        let mut till = Till::new();
        assert_eq!(rt; till.open(1).is_ok(), true);
        for _ in 1..256usize {
            assert_eq!(rt; till.open(250).is_ok(), true);
            assert_eq!(rt; till.close().is_ok(), true);
        }
        check_reads_back(&rt, &till)
    }

    fn refusal_of(bytes: &[u8]) -> Option<Refusal> {
        Roll::read(bytes).fault().map(|fault| fault.refusal())
    }

    fn refused(number: u8, place: usize) -> Option<Refusal> {
        Some(Refusal {
            number,
            layer: Layer::Roll,
            place,
        })
    }

    // The worked roll with one byte changed.
    fn damaged(at: usize, byte: u8) -> Option<Refusal> {
        let mut bytes = WORKED;
        if let Some(place) = bytes.get_mut(at) {
            *place = byte;
        }
        refusal_of(&bytes)
    }

    #[test]
    fn refuses_no_rolls(rt: HostRuntime) {
        assert_eq!(rt; refusal_of(&[]), refused(16, 0));
        assert_eq!(rt; refusal_of(&WORKED[..7]), refused(16, 0));
        assert_eq!(rt; damaged(0, 2), refused(16, 0));
    }

    #[test]
    fn refuses_layouts(rt: HostRuntime) {
        assert_eq!(rt; damaged(2, 1), refused(17, 0));
        assert_eq!(rt; damaged(3, 6), refused(17, 0));
        assert_eq!(rt; damaged(5, 15), refused(17, 0));
        assert_eq!(rt; damaged(7, 8), refused(17, 0));
        assert_eq!(rt; refusal_of(&WORKED[..21]), refused(17, 0));
    }

    #[test]
    fn refuses_levels(rt: HostRuntime) {
        assert_eq!(rt; damaged(8, 1), refused(18, 8));
        assert_eq!(rt; damaged(9, 0), refused(18, 9));
        assert_eq!(rt; damaged(14, 4), refused(18, 14));
        assert_eq!(rt; damaged(14, 3), None);
    }

    #[test]
    fn refuses_labels_and_depths(rt: HostRuntime) {
        assert_eq!(rt; damaged(15, 0), refused(19, 15));
        assert_eq!(rt; damaged(21, 251), refused(19, 21));
        assert_eq!(rt; damaged(21, 250), None);
        assert_eq!(rt; damaged(1, 3), None);
        assert_eq!(rt; damaged(1, 4), refused(20, 1));
        assert_eq!(rt; refusal_of(&[1, 1, 0, 0, 0, 8, 0, 8]), refused(20, 1));
        assert_eq!(rt; refusal_of(&[1, 0, 0, 0, 0, 8, 0, 8]), None);
    }
}
