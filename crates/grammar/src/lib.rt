// What holds of the grammar of query texts. The functions here have nothing to compute: each states a theorem.
#![tactic(auto)]

ghost use Rattle.grammar.specs.Theorems.{QueryOrOnePlace, Unambiguous};

// Every text is a query or breaks the grammar at one place.
pub fn one_place()
    ensures { QueryOrOnePlace }
{}

// A text has at most one tree, and so at most one meaning.
pub fn one_tree()
    ensures { Unambiguous }
{}
