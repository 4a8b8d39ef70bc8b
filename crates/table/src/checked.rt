// Reading a table as a query.
ghost use Rattle.std.specs.Prelude.{◌≡◌, ◌≤◌, ◌&&◌, ◌⊎◌, length, take, nat_le, IfSome, MatchOption};
ghost use Rattle.std.specs.List.{AllPass};
ghost use Rattle.model.specs.Limits.{most_length, places};
ghost use Rattle.model.specs.Query.{path_length};
ghost use Rattle.table.specs.Reading.{itself as self_path};
ghost use Rattle.table.specs.Formulas.{PartByPart};
ghost use Rattle.table.specs.Lawful.{LawfulQuery, parts_in, narrow, checked_reading, EveryTableIsLawful, PastTheQueryNothingCounts};
ghost use Rattle.table.specs.Held.{EndsAt, Fitting, itself_parts, parts_of, reads_as};

use crate::CheckedQuery;
use crate::measure::measure;
use crate::part::{Part, Tag};
use crate::role::Sort;
use model::axis::Axis;
use model::limits::{MOST_LENGTH, MOST_PARTS, places as most_places};

// The parts of /self::*.
const ITSELF: [Part; 3] = [
    Part {
        tag: Tag::First,
        first: 2,
        ..Part::UNUSED
    },
    Part {
        tag: Tag::Any,
        ..Part::UNUSED
    },
    Part {
        tag: Tag::Step(Axis::Itself),
        first: 1,
        ..Part::UNUSED
    },
];

// The parts that the query takes, if its last one is there, is a step, and is not past the most that a query has.
fn query_parts(table: &[Part]) -> Option<&[Part]>
    ensures reads { MatchOption result (checked_reading table.now ≡ self_path) (λ parts. EndsAt parts.now (length parts.now) × (checked_reading parts.now ≡ checked_reading table.now)) }
    ensures front { IfSome result (λ parts. parts.now ≡ take (parts_in table.now) table.now) }
{
    let last = table.first()?.first;
    let Sort::Query = table.get(last)?.tag.sort() else {
        return None;
    };
    (last < MOST_PARTS).then_some(&table[..last + 1])
}

// Whether a lawful query may have this length and so many parts.
fn allowed(length: usize, parts: usize) -> bool
    ensures { result ≡ (nat_le length most_length && nat_le parts (places length)) }
{
    length <= MOST_LENGTH && parts <= most_places(length)
}

// The length of the lawful query that the parts make, or none.
fn lawful_length(parts: &[Part]) -> Option<usize>
    requires { EndsAt parts.now (length parts.now) }
    ensures { MatchOption result (checked_reading parts.now ≡ self_path) (Fitting parts.now (length parts.now)) }
{
    let length = measure(parts);
    allowed(length, parts.len()).then_some(length)
}

impl<'a> CheckedQuery<'a> {
    fn itself() -> CheckedQuery<'a>
        ensures reads { reads_as result ≡ self_path }
        ensures parts { parts_of result ≡ itself_parts }
    {
        CheckedQuery {
            parts: &ITSELF,
            query_length: 1,
        }
    }

    // The lawful query of a table, or none.
    fn lawful(table: &'a [Part]) -> Option<CheckedQuery<'a>>
        ensures reads { MatchOption result (checked_reading table.now ≡ self_path) (λ q. reads_as q ≡ checked_reading table.now) }
        ensures front { IfSome result (λ q. parts_of q ≡ take (parts_in table.now) table.now) }
    {
        let parts = query_parts(table)?;
        let query_length = lawful_length(parts)?;
        Some(CheckedQuery {
            parts,
            query_length,
        })
    }

    // The query of a table, whatever it holds: /self::* where its parts make no lawful one or have too great a number.
    pub fn over(table: &'a [Part]) -> CheckedQuery<'a>
        ensures reads { reads_as result ≡ checked_reading table.now }
        ensures lawful { LawfulQuery (reads_as result) }
        ensures every { EveryTableIsLawful }
        ensures past { PastTheQueryNothingCounts }
        ensures source { (parts_of result ≡ take (parts_in table.now) table.now) ⊎ (parts_of result ≡ itself_parts) }
    {
        CheckedQuery::lawful(table).unwrap_or(CheckedQuery::itself())
    }

    // The length of the query: its steps and each `and`, `or` and `not`.
    pub fn length(&self) -> usize
        ensures value { result ≡ path_length (reads_as self.now) }
        ensures some { 1 ≤ result }
        ensures bound { result ≤ most_length }
    {
        self.query_length
    }

    // The parts of the query, for evaluators to go through. The last one is the whole query's.
    pub fn parts(&self) -> &'a [Part]
        ensures value { result.now ≡ parts_of self.now }
        ensures few { length result.now ≤ places (path_length (reads_as self.now)) }
        ensures each { PartByPart result.now (reads_as self.now) }
        ensures narrow { AllPass narrow result.now }
    {
        self.parts
    }
}
