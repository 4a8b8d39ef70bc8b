ghost use Rattle.std.specs.Prelude.{Some};
ghost use Rattle.model.specs.Words.{axis_word};

use std::fmt;

// The eleven directions in which a step may lead from an element to others.
#[derive(Clone, Copy, PartialEq, Eq, Debug)]
pub enum Axis {
    // The element itself; `Self` is a word of the language.
    Itself,
    Child,
    Parent,
    Descendant,
    Ancestor,
    DescendantOrSelf,
    AncestorOrSelf,
    FollowingSibling,
    PrecedingSibling,
    Following,
    Preceding,
}

// The axis as it is named in a query text.
impl fmt::Display for Axis {
    ghost output = { λ a. Some (axis_word a) };

    fn fmt<W: fmt::Write>(&self, f: &mut fmt::Formatter<W>) -> fmt::Result {
        f.write_str(match self {
            Axis::Itself => "self",
            Axis::Child => "child",
            Axis::Parent => "parent",
            Axis::Descendant => "descendant",
            Axis::Ancestor => "ancestor",
            Axis::DescendantOrSelf => "descendant-or-self",
            Axis::AncestorOrSelf => "ancestor-or-self",
            Axis::FollowingSibling => "following-sibling",
            Axis::PrecedingSibling => "preceding-sibling",
            Axis::Following => "following",
            Axis::Preceding => "preceding",
        })
    }
}
