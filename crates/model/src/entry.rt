// How an element stands under a query while the receipt goes on.
#[derive(Clone, Copy, PartialEq, Eq, Debug)]
pub enum Certainty {
    // It is selected and stays so, whatever is rung up later.
    Sure,
    // What is rung up so far does not settle it.
    Undecided,
}

// One element of a show.
#[derive(Clone, Copy, PartialEq, Eq, Debug)]
pub struct Entry {
    pub rank: usize,
    // Whether it is selected now.
    pub selected: bool,
    pub certainty: Certainty,
}

// What a show adds up: how many elements are selected and how many are sure, and the points of each.
#[derive(Clone, Copy, PartialEq, Eq, Debug)]
pub struct Tally {
    pub selected: usize,
    pub sure: usize,
    pub points: u32,
    pub sure_points: u32,
}
