// Names sheets and query texts on either side of each limit, and texts that break the grammar at each kind of place.
#![tactic(auto)]

#[cfg(test)]
mod tests {
    use model::axis::Axis;
    use names::lookup::{Lookup, Unchecked};
    use names::sheet::Sheet;
    use names::{NamesFault, check as check_sheet, label};
    use query::{QueryFault, QuerySize, compile, read};
    use std::process::Abort;
    use std::test::Fail;
    use table::CheckedQuery;
    use table::part::{Part, Tag};

    // A sheet with five names.
    const SHEET: &[u8] = b"a\nb\nc\nline\nproduct\n";

    const EMPTY: Part = Part {
        tag: Tag::Any,
        first: 0,
        second: 0,
    };

    const OTHER: Part = Part {
        tag: Tag::Any,
        first: 9,
        second: 9,
    };

    fn part(tag: Tag, first: usize, second: usize) -> Part {
        Part { tag, first, second }
    }

    // The answer to a text that is read, with so many places in the table, at most 110.
    fn outcome(text: &[u8], places: usize) -> Result<QuerySize, QueryFault> {
        let mut table = [EMPTY; 110];
        read(text, &Unchecked(SHEET), &mut table[..places.min(110)])
    }

    // The same where the text is compiled.
    fn compiled(text: &[u8], places: usize) -> Result<usize, QueryFault> {
        let mut table = [OTHER; 110];
        compile(text, &Sheet::read(SHEET), &mut table[..places.min(110)])
    }

    // With so much room the text is accepted, and has this size.
    fn fits(rt: &impl Abort, text: &[u8], room: usize, size: QuerySize) {
        assert_eq!(rt; outcome(text, room), Ok(size));
        assert_eq!(rt; compiled(text, room), Ok(size.steps));
    }

    fn is_ok(rt: &impl Abort, text: &[u8], steps: usize, places: usize) {
        fits(rt, text, 110, QuerySize { steps, places });
    }

    // With so much room the text is refused.
    fn refused(rt: &impl Abort, text: &[u8], room: usize, fault: QueryFault) {
        assert_eq!(rt; outcome(text, room), Err(fault));
        assert_eq!(rt; compiled(text, room), Err(fault));
    }

    fn breaks(rt: &impl Abort, text: &[u8], place: usize) {
        refused(rt, text, 110, QueryFault::Broken(place));
    }

    #[test]
    fn sizes(rt: HostRuntime) {
        refused(&rt, b"", 110, QueryFault::BadSize);
        refused(&rt, &[b'/'; 512], 110, QueryFault::Broken(1));
        refused(&rt, &[b'/'; 513], 110, QueryFault::BadSize);
    }

    #[test]
    fn worked_places(rt: HostRuntime) {
        breaks(&rt, b"/child:line", 7);
        breaks(&rt, b"/child::line[", 13);
    }

    #[test]
    fn names(rt: HostRuntime) {
        refused(
            &rt,
            b"/child::abcdefghijklmnopqrstuvwx",
            110,
            QueryFault::UnknownName(8),
        );
        breaks(&rt, b"/child::abcdefghijklmnopqrstuvwxy", 32);
        refused(
            &rt,
            b"/child::a/child::d[child::e]",
            110,
            QueryFault::UnknownName(17),
        );
        breaks(&rt, b"/child::d/child::", 17);
    }

    #[test]
    fn depths(rt: HostRuntime) {
        is_ok(&rt, b"/child::a[(((((((child::b)))))))]", 2, 6);
        refused(
            &rt,
            b"/child::a[((((((((child::b))))))))]",
            110,
            QueryFault::TooDeep(17),
        );
        breaks(&rt, b"/child::a[((((((((child::b)))))))]", 33);
    }

    #[test]
    fn lengths(rt: HostRuntime) {
        let text =
            b"/self::a/self::a/self::a/self::a/self::a/self::a/self::a/self::a/self::a/self::a/self::a/self::a/self::a/self::a/self::a/self::a/self::a";
        is_ok(&rt, &text[..128], 16, 33);
        refused(&rt, text, 110, QueryFault::TooLong);
        fits(
            &rt,
            &text[..128],
            97,
            QuerySize {
                steps: 16,
                places: 33,
            },
        );
        refused(&rt, &text[..128], 96, QueryFault::ShortTable);
    }

    #[test]
    fn blanks(rt: HostRuntime) {
        breaks(&rt, b"/child::a[self::a  or self::b]", 18);
        breaks(&rt, b"/child::a[not (self::a)]", 13);
        breaks(&rt, b"/child::a[self::a ]", 18);
        breaks(&rt, b"/child::a[self::a andself::b]", 21);
        breaks(&rt, b"/child::a/", 10);
        breaks(&rt, b"/child::a]", 9);
        breaks(&rt, b"/child::a[self::a][self::b]", 18);
    }

    fn cut(rt: &impl Abort, text: &[u8]) {
        for n in 1..text.len() {
            breaks(rt, &text[..n], n);
        }
    }

    #[test]
    fn axes_cut(rt: HostRuntime) {
        cut(&rt, b"/descendant-or-self::*");
        cut(&rt, b"/ancestor-or-self::*");
        cut(&rt, b"/following-sibling::*");
        cut(&rt, b"/preceding-sibling::*");
        cut(&rt, b"/parent::*");
        breaks(&rt, b"/descendant-of", 13);
        breaks(&rt, b"/followed", 7);
        breaks(&rt, b"/previous", 4);
    }

    // `and` binds tighter than `or`, and each joins from the left.
    #[test]
    fn grouping(rt: HostRuntime) -> Result<(), Fail> {
        let size = QuerySize {
            steps: 6,
            places: 12,
        };
        let names = Unchecked(SHEET);
        let mut table = [EMPTY; 110];
        let text = b"/self::a[self::a or self::b and self::c]";
        assert_eq!(rt; read(text, &names, &mut table)?, size);
        assert_eq!(rt; table[8], part(Tag::And, 5, 7));
        assert_eq!(rt; table[9], part(Tag::Or, 3, 8));
        assert_eq!(rt; table[12], EMPTY);
        let text = b"/self::a[self::a or self::b or self::c]";
        assert_eq!(rt; read(text, &names, &mut table)?, size);
        assert_eq!(rt; table[6], part(Tag::Or, 3, 5));
        assert_eq!(rt; table[9], part(Tag::Or, 6, 8));
        grouping_compiled(&rt)
    }

    // The whole table is handed on, and what stands past the query counts for nothing.
    fn grouping_compiled(rt: &impl Abort) -> Result<(), Fail> {
        let mut table = [OTHER; 110];
        let sheet = Sheet::read(SHEET);
        let text = b"/self::a[self::a or self::b and self::c]";
        let length = compile(text, &sheet, &mut table)?;
        let query = CheckedQuery::over(&table);
        assert_eq!(rt; query.length(), length);
        assert!(rt; query.parts().len() == 12);
        assert_eq!(rt; query.parts()[0].first, 11);
        assert_eq!(rt; query.parts()[8].tag, Tag::And);
        assert_eq!(rt; query.parts()[9].tag, Tag::Or);
        assert_eq!(rt; query.parts()[9].second, 8);
        assert_eq!(rt; table[12], OTHER);
        let text = b"/self::a[self::a or self::b or self::c]";
        compile(text, &sheet, &mut table)?;
        assert_eq!(rt; table[9].first, 6);
        Ok(())
    }

    // Parts that no text wrote: a chain of `and` over itself is too long, and a last part that is not there or no step is none.
    #[test]
    fn other_tables(rt: HostRuntime) {
        let long = [
            part(Tag::First, 7, 0),
            part(Tag::Any, 0, 0),
            part(Tag::Along(Axis::Child), 1, 0),
            part(Tag::And, 2, 2),
            part(Tag::And, 3, 3),
            part(Tag::And, 4, 4),
            part(Tag::Filtered, 1, 5),
            part(Tag::Step(Axis::Child), 6, 0),
        ];
        assert_eq!(rt; CheckedQuery::over(&long).length(), 16);
        let mut longer = long;
        longer[6] = part(Tag::And, 5, 5);
        assert_eq!(rt; CheckedQuery::over(&longer).length(), 1);
        longer[7] = part(Tag::Named, 251, 0);
        assert_eq!(rt; CheckedQuery::over(&longer).parts().len(), 3);
        assert_eq!(rt; CheckedQuery::over(&[]).length(), 1);
        assert_eq!(rt; CheckedQuery::over(&long[..7]).length(), 1);
    }

    // A checked query's parts have no number above 65,535, used or not; what stands past them may.
    #[test]
    fn wide_numbers(rt: HostRuntime) {
        let mut table = [
            part(Tag::First, 4, 0),
            part(Tag::Any, 65_535, 0),
            part(Tag::Step(Axis::Child), 1, 65_535),
            part(Tag::Any, 0, 0),
            part(Tag::Step(Axis::Child), 3, 2),
            part(Tag::Any, 65_536, 65_536),
        ];
        assert_eq!(rt; CheckedQuery::over(&table).length(), 2);
        assert_eq!(rt; CheckedQuery::over(&table).parts()[1].first, 65_535);
        table[1].first = 65_536;
        assert_eq!(rt; CheckedQuery::over(&table).length(), 1);
        assert_eq!(rt; CheckedQuery::over(&table).parts().len(), 3);
        table[1].first = 0;
        table[2].second = 65_536;
        assert_eq!(rt; CheckedQuery::over(&table).parts().len(), 3);
    }

    // Each fault that applies to a text, with a later one that would apply too.
    #[test]
    fn first_of_two(rt: HostRuntime) {
        let mut table = [OTHER; 3];
        assert_eq!(rt;
            compile(b"", &Sheet::read(b"a\na\n"), &mut table),
            Err(QueryFault::BadSheet(NamesFault::Repeated(2)))
        );
        refused(&rt, &[b'['; 513], 0, QueryFault::BadSize);
        refused(
            &rt,
            b"/child::d[(((((((((self::a",
            0,
            QueryFault::Broken(26),
        );
        refused(
            &rt,
            b"/child::d[((((((((child::b))))))))]",
            0,
            QueryFault::TooDeep(17),
        );
        refused(&rt, b"/child::a[child::d]", 12, QueryFault::UnknownName(17));
        refused(&rt, b"/child::a[child::b]", 12, QueryFault::ShortTable);
        fits(
            &rt,
            b"/child::a[child::b]",
            13,
            QuerySize {
                steps: 2,
                places: 6,
            },
        );
    }

    #[test]
    fn too_long_before_unknown(rt: HostRuntime) {
        let text =
            b"/self::d/self::a/self::a/self::a/self::a/self::a/self::a/self::a/self::a/self::a/self::a/self::a/self::a/self::a/self::a/self::a/self::a";
        refused(&rt, text, 0, QueryFault::TooLong);
        refused(&rt, &text[..128], 0, QueryFault::UnknownName(7));
    }

    // Brackets count where they are open, not how many there are.
    #[test]
    fn brackets(rt: HostRuntime) {
        is_ok(
            &rt,
            b"/self::a[((((self::b)))) and (((((self::c)))))]",
            4,
            9,
        );
        is_ok(
            &rt,
            b"/self::a[not(not(not(not(not(not(not(self::b)))))))]",
            9,
            13,
        );
        refused(
            &rt,
            b"/self::a[not(not(not(not(not(not(not(not(self::b))))))))]",
            110,
            QueryFault::TooDeep(40),
        );
    }

    // Eleven steps of 45 bytes and one of 17.
    #[test]
    fn longest_text(rt: HostRuntime) {
        let names = b"abcdefghijklmnopqrstuvwx\nabcdefghij\n";
        let text =
            b"/descendant-or-self::abcdefghijklmnopqrstuvwx/descendant-or-self::abcdefghijklmnopqrstuvwx/descendant-or-self::abcdefghijklmnopqrstuvwx/descendant-or-self::abcdefghijklmnopqrstuvwx/descendant-or-self::abcdefghijklmnopqrstuvwx/descendant-or-self::abcdefghijklmnopqrstuvwx/descendant-or-self::abcdefghijklmnopqrstuvwx/descendant-or-self::abcdefghijklmnopqrstuvwx/descendant-or-self::abcdefghijklmnopqrstuvwx/descendant-or-self::abcdefghijklmnopqrstuvwx/descendant-or-self::abcdefghijklmnopqrstuvwx/self::abcdefghij";
        let size = QuerySize {
            steps: 12,
            places: 25,
        };
        let mut table = [OTHER; 97];
        assert_eq!(rt; text.len(), 512);
        assert_eq!(rt; read(text, &Unchecked(names), &mut table), Ok(size));
        assert_eq!(rt; compile(text, &Sheet::read(names), &mut table), Ok(12));
    }

    #[test]
    fn sheets(rt: HostRuntime) {
        assert_eq!(rt; check_sheet(b""), Ok(0));
        assert_eq!(rt; check_sheet(SHEET), Ok(5));
        assert_eq!(rt; check_sheet(&[10; 250]), Err(NamesFault::BadName(0)));
        assert_eq!(rt; check_sheet(&[10; 251]), Err(NamesFault::TooMuch));
        assert_eq!(rt; check_sheet(&[b'a'; 6250]), Err(NamesFault::BadName(24)));
        assert_eq!(rt; check_sheet(&[b'a'; 6251]), Err(NamesFault::TooMuch));
    }

    #[test]
    fn sheet_places(rt: HostRuntime) {
        assert_eq!(rt; check_sheet(b"abcdefghijklmnopqrstuvwx\n"), Ok(1));
        assert_eq!(rt; check_sheet(b"line"), Err(NamesFault::BadName(4)));
        assert_eq!(rt; check_sheet(b"line\n\n"), Err(NamesFault::BadName(5)));
        assert_eq!(rt; check_sheet(b"2for1\n"), Err(NamesFault::BadName(0)));
        assert_eq!(rt; check_sheet(b"a\nb\nb\na\n"), Err(NamesFault::Repeated(4)));
    }

    // Byte `at` of 250 names of 24 bytes, which end in three digits.
    fn sheet_byte(at: usize) -> u8 {
        let row = at / 25 % 1000;
        match at % 25 {
            21 => b'0' + (row / 100) as u8,
            22 => b'0' + (row / 10 % 10) as u8,
            23 => b'0' + (row % 10) as u8,
            24 => 10,
            _ => b'x',
        }
    }

    #[test]
    fn greatest_sheet(rt: HostRuntime) {
        let mut bytes = [0; 6250];
        for (i, b) in bytes.iter_mut().enumerate() {
            *b = sheet_byte(i);
        }
        assert_eq!(rt; check_sheet(&bytes), Ok(250));
        let sheet = Sheet::read(&bytes);
        assert_eq!(rt; sheet.label(b"xxxxxxxxxxxxxxxxxxxxx000"), Some(1));
        assert_eq!(rt; sheet.label(b"xxxxxxxxxxxxxxxxxxxxx249"), Some(250));
        assert_eq!(rt; sheet.label(b"xxxxxxxxxxxxxxxxxxxxx250"), None);
    }

    #[test]
    fn labels(rt: HostRuntime) {
        assert_eq!(rt; label(SHEET, b"a"), Some(1));
        assert_eq!(rt; label(SHEET, b"product"), Some(5));
        assert_eq!(rt; label(SHEET, b"prod"), None);
        assert_eq!(rt; label(SHEET, b""), None);
        let sheet = Sheet::read(SHEET);
        assert_eq!(rt; sheet.label(b"a"), Some(1));
        assert_eq!(rt; sheet.label(b"product"), Some(5));
        assert_eq!(rt; sheet.label(b"prod"), None);
        assert_eq!(rt; sheet.label(b""), None);
        let refused = Sheet::read(b"a\nb\n\n");
        assert_eq!(rt; refused.fault(), Some(NamesFault::BadName(4)));
        assert_eq!(rt; refused.label(b"a"), None);
    }
}
