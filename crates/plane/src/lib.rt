// What the pre/post plane and the axes mean on every lawful receipt: theorems alone, each the contract of a function.
#![tactic(auto)]

ghost use Rattle.plane.specs.Steady.{RelationsStay};
ghost use Rattle.plane.specs.Tree.{PlaneIsTree};

// The plane's descendants, children and following elements are those of the tree that the parents make.
pub fn plane_is_tree()
    ensures { PlaneIsTree }
{}

// Labels, and where the axes lead between present elements, stay as the receipt goes on, and where an axis does not grow nothing is added.
pub fn relations_stay()
    ensures { RelationsStay }
{}
