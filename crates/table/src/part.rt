// The parts of a query table, one a place, each over parts that stand before it.
use model::axis::Axis;

// What a part is.
#[derive(Clone, Copy, PartialEq, Eq, Debug, Default)]
pub enum Tag {
    // Where a query starts: the first element. In the table's first place, `first` is the place of the query's last part.
    #[default]
    First,
    // The test "*".
    Any,
    // The test for the label `first`.
    Named,
    // The test at `first` with the filter at `second`.
    Filtered,
    // In a filter: what is asked at `first`, and from there the path at `second`.
    Then,
    // A path in a filter: along the axis to what is asked at `first`, and on if that part is a `Then`.
    Along(Axis),
    // The filters at `first` and at `second`.
    And,
    // The filter at `first` or that at `second`.
    Or,
    // Not the filter at `first`.
    Not,
    // The query at `second` with one step more: along the axis to what is asked at `first`.
    Step(Axis),
}

#[derive(Clone, Copy, PartialEq, Eq, Debug, Default)]
pub struct Part {
    // A tag and two numbers in every place: the form in which a table is lent.
    pub tag: Tag,
    pub first: usize,
    pub second: usize,
}

impl Part {
    // What a place may hold before a text is read into the table.
    pub const UNUSED: Part = Part {
        tag: Tag::First,
        first: 0,
        second: 0,
    };
}
