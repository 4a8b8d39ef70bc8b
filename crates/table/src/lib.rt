// Query tables: parts in lent places, and the one lawful query that a table reads as, whatever it holds.
#![tactic(auto)]

ghost use Rattle.std.specs.Prelude.{◌≡◌, ◌+◌, ◌≤◌, true, length};
ghost use Rattle.std.specs.List.{AllPass};
ghost use Rattle.model.specs.Limits.{most_length, places};
ghost use Rattle.model.specs.Query.{path_length};
ghost use Rattle.table.specs.Reading.{last_place, reading};
ghost use Rattle.table.specs.Formulas.{ends_in_step};
ghost use Rattle.table.specs.Lawful.{path_labelled, narrow};

use crate::part::Part;

pub mod checked;
mod measure;
pub mod part;
pub mod role;

// The parts of one lawful query, over the caller's table, and the query's length.
#[derive(Clone, Copy)]
pub struct CheckedQuery<'a> {
    parts: &'a [Part],
    query_length: usize,
    ghost whole: { last_place parts.now + 1 ≡ length parts.now },
    ghost step: { ends_in_step parts.now ≡ true },
    ghost measured: { path_length (reading parts.now) ≡ query_length },
    ghost short: { query_length ≤ most_length },
    ghost labelled: { path_labelled (reading parts.now) ≡ true },
    ghost few: { length parts.now ≤ places query_length },
    ghost narrow_parts: { AllPass narrow parts.now },
}
