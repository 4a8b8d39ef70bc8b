// Readers of query texts: recursive descent that drafts the parts of a table, in one pass.
#![tactic(auto)]

mod axes;
pub mod descent;
pub mod draft;
