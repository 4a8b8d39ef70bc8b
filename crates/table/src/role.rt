// What sort of thing a part is, and which sorts serve where a part names another.
ghost use Rattle.std.specs.Prelude.{◌≡◌};
ghost use Rattle.table.specs.Sorts.{sort_of, serves as serves_as};

use crate::part::Tag;

// What a part reads as, by its tag alone.
#[derive(Clone, Copy, PartialEq, Eq, Debug)]
pub enum Sort {
    // Where a query starts.
    Start,
    // A test.
    Test,
    // A test with a filter.
    Kept,
    // What a step of a path in a filter asks, and the rest of that path.
    Onward,
    // A path in a filter.
    Path,
    // A filter that is no path.
    Filter,
    // A query.
    Query,
}

// What a part is named for by a later one.
#[derive(Clone, Copy, PartialEq, Eq, Debug)]
pub enum Role {
    // As a test.
    Testing,
    // As what a step asks of the elements it keeps.
    Asking,
    // As what an axis in a filter leads to.
    Reaching,
    // As the rest of a path in a filter.
    Going,
    // As a filter.
    Filtering,
    // As the query before a step.
    Starting,
}

impl Tag {
    pub fn sort(self) -> Sort
        ensures { result ≡ sort_of self }
    {
        match self {
            Tag::First => Sort::Start,
            Tag::Any | Tag::Named => Sort::Test,
            Tag::Filtered => Sort::Kept,
            Tag::Then => Sort::Onward,
            Tag::Along(_) => Sort::Path,
            Tag::And | Tag::Or | Tag::Not => Sort::Filter,
            Tag::Step(_) => Sort::Query,
        }
    }
}

impl Sort {
    // Whether a part of this sort serves in the role.
    pub fn serves(self, role: Role) -> bool
        ensures { result ≡ serves_as self role }
    {
        match self {
            Sort::Start | Sort::Query => matches!(role, Role::Starting),
            Sort::Test => matches!(role, Role::Testing | Role::Asking | Role::Reaching),
            Sort::Kept => matches!(role, Role::Asking | Role::Reaching),
            Sort::Onward => matches!(role, Role::Reaching),
            Sort::Path => matches!(role, Role::Going | Role::Filtering),
            Sort::Filter => matches!(role, Role::Filtering),
        }
    }
}
