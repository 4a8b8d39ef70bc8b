// The length of the query that parts read as, found in one pass over them.
ghost use Rattle.std.specs.Prelude.{◌≡◌, ◌+◌, ◌-◌, ◌<◌, ◌≤◌, cond, length, slice_get, Some};
ghost use Rattle.std.specs.List.{list_all};
ghost use Rattle.arrayvec.specs.ArrayVec.{array_vec_len};
ghost use Rattle.model.specs.Limits.{most_parts};
ghost use Rattle.model.specs.Query.{named};
ghost use Rattle.table.specs.Formulas.{stand_in};
ghost use Rattle.table.specs.Lawful.{narrow};
ghost use Rattle.table.specs.Lengths.{Costed, capped, cost_at, cost_from, piece_cost, tag_cost, test_cost, too_much};

use crate::part::{Part, Tag};
use crate::role::Role;
use arrayvec::ArrayVec;
use model::limits::{MOST_LABEL, MOST_LENGTH, MOST_PARTS};

// Stands for all lengths above the greatest; a number, so that sums go on with it and need no cases.
const TOO_MUCH: usize = MOST_LENGTH + 1;

// The greatest number that a part of a checked query may have.
const MOST_NUMBER: usize = 65_535;

// What stands in where no part serves: self::* counts one step, "*" and the start none.
fn stand_in_cost(role: Role) -> usize
    ensures { result ≡ capped (piece_cost (stand_in role)) }
{
    match role {
        Role::Going | Role::Filtering => 1,
        _ => 0,
    }
}

// A label that no element can have counts too much.
fn label_cost(label: usize) -> usize
    ensures { result ≡ capped (test_cost (named label)) }
{
    if (1..=usize::from(MOST_LABEL)).contains(&label) {
        0
    } else {
        TOO_MUCH
    }
}

// The first parts of a table, each with what it counts.
#[derive(Drop)]
struct Counted<'a> {
    parts: &'a [Part],
    costs: ArrayVec<usize, MOST_PARTS>,
    ghost within: { array_vec_len costs ≤ length parts.now },
    ghost costed: { Costed parts.now costs.items },
}

impl<'a> Counted<'a> {
    fn none(parts: &'a [Part]) -> Counted<'a>
        ensures over { result.parts.now ≡ parts.now }
        ensures none { array_vec_len result.costs ≡ 0 }
    {
        Counted {
            parts,
            costs: ArrayVec::new(),
        }
    }

    // What the part at place j counts in the role, seen from the next place.
    fn share(&self, j: usize, role: Role) -> usize
        ensures { result ≡ capped (cost_from role self.now.parts.now (array_vec_len self.now.costs) j) }
    {
        match self.costs.get(j) {
            Some(cost) if self.parts[j].tag.sort().serves(role) => *cost,
            _ => stand_in_cost(role),
        }
    }

    // What a part counts that stands at the next place.
    fn cost(&self, part: Part) -> usize
        ensures { result ≡ capped (tag_cost part.tag self.now.parts.now (array_vec_len self.now.costs) part.first part.second) }
    {
        let Part { tag, first, second } = part;
        let cost = match tag {
            Tag::First | Tag::Any => 0,
            Tag::Named => label_cost(first),
            Tag::Filtered => self.share(first, Role::Testing) + self.share(second, Role::Filtering),
            Tag::Then => self.share(first, Role::Asking) + self.share(second, Role::Going),
            Tag::Along(_) => 1 + self.share(first, Role::Reaching),
            Tag::And | Tag::Or => 1
                + self.share(first, Role::Filtering)
                + self.share(second, Role::Filtering),
            Tag::Not => 1 + self.share(first, Role::Filtering),
            Tag::Step(_) => 1
                + self.share(first, Role::Asking)
                + self.share(second, Role::Starting),
        };
        cost.min(TOO_MUCH)
    }

    // Counts the next part.
    fn count(&mut self, part: Part)
        requires next { slice_get self.old.parts.now (array_vec_len self.old.costs) ≡ Some part }
        requires room { array_vec_len self.old.costs < most_parts }
        ensures over { self.new.parts.now ≡ self.old.parts.now }
        ensures more { array_vec_len self.new.costs ≡ array_vec_len self.old.costs + 1 }
    {
        let cost = self.cost(part);
        self.costs.push(cost);
    }
}

// What the last of the parts counts, or too much where not all are narrow.
pub(crate) fn measure(parts: &[Part]) -> usize
    requires some { 1 ≤ length parts.now }
    requires few { length parts.now ≤ most_parts }
    ensures { result ≡ cond (list_all narrow parts.now) (capped (cost_at parts.now (length parts.now - 1))) too_much }
{
    let mut counted = Counted::none(parts);
    let mut greatest = 0;
    for part in parts {
        greatest = part.first.max(part.second).max(greatest);
        counted.count(*part);
    }
    if greatest > MOST_NUMBER {
        return TOO_MUCH;
    }
    counted.costs[parts.len() - 1]
}
