// A draft of a table: the parts are written here while a text is read, and reach the caller's table only once nothing is refused.
ghost use Rattle.std.specs.Prelude.{◌≡◌, ◌-◌};
ghost use Rattle.reader.specs.Drafts.{part, started, added, counted, noted, labelled, entered, exited, joined_to, reached, closed};

use model::limits::{MOST_LENGTH, MOST_OPEN, MOST_PARTS};
use table::part::{Part, Tag};

// A reader stopped with so many bytes left.
#[derive(Clone, Copy)]
pub struct Stuck {
    pub left: usize,
}

// An array with its count, since the kit's vector of fixed capacity is never `Copy`.
#[derive(Clone, Copy)]
pub struct Draft {
    pub parts: [Part; MOST_PARTS],
    // How many parts are written; what finds no room is dropped.
    pub used: usize,
    // The length so far; one more than the greatest stands for all above, a number like the others so that counting needs no cases.
    pub count: usize,
    // How many bytes are left from the first unknown name on.
    pub unknown: Option<usize>,
    // How many "[" and "(" are open, up to the most; once `deep` is noted it says nothing.
    pub depth: usize,
    // How many bytes are left after the first "[" or "(" that is one too many.
    pub deep: Option<usize>,
}

pub fn start() -> Draft
    ensures { result ≡ started }
{
    Draft {
        parts: [Part::UNUSED; MOST_PARTS],
        used: 1,
        count: 0,
        unknown: None,
        depth: 0,
        deep: None,
    }
}

impl Draft {
    // The place of the part that was written last.
    pub(crate) fn root(&self) -> usize
        ensures { result ≡ self.now.used - 1 }
    {
        self.used.saturating_sub(1)
    }

    pub(crate) fn add(&mut self, tag: Tag, first: usize, second: usize)
        ensures { self.new ≡ added (part tag first second) self.old }
    {
        if self.used < MOST_PARTS {
            self.parts[self.used] = Part { tag, first, second };
            self.used += 1;
        }
    }

    // One more step, `and`, `or` or `not`.
    pub(crate) fn count(&mut self)
        ensures { self.new ≡ counted self.old }
    {
        if self.count <= MOST_LENGTH {
            self.count += 1;
        }
    }

    // An unknown name, with so many bytes left.
    fn note(&mut self, left: usize)
        ensures { self.new ≡ noted left self.old }
    {
        self.unknown = self.unknown.or(Some(left));
    }

    // A name that has this label, or none, with so many bytes left. The part of an unknown name has label 0, as no element has, and reaches no table.
    pub(crate) fn name(&mut self, label: Option<usize>, left: usize)
        ensures { self.new ≡ labelled label left self.old }
    {
        self.add(Tag::Named, label.unwrap_or(0), 0);
        if label.is_none() {
            self.note(left);
        }
    }

    // A "[" or "(", with so many bytes left after it.
    pub(crate) fn enter(&mut self, left: usize)
        ensures { self.new ≡ entered left self.old }
    {
        if self.depth < MOST_OPEN {
            self.depth += 1;
        } else {
            self.deep = self.deep.or(Some(left));
        }
    }

    // A "]" or ")".
    pub(crate) fn leave(&mut self)
        ensures { self.new ≡ exited self.old }
    {
        self.depth = self.depth.saturating_sub(1);
    }

    // Joins the part at `first` with the last one.
    pub(crate) fn join(&mut self, tag: Tag, first: usize)
        ensures { self.new ≡ joined_to tag first self.old }
    {
        self.add(tag, first, self.root());
    }

    // The last part, along the axis or negated.
    pub(crate) fn over(&mut self, tag: Tag)
        ensures { self.new ≡ reached tag self.old }
    {
        self.add(tag, self.root(), 0);
    }

    // Joins what waits at the left of an `or`, if anything, with the last part.
    pub(crate) fn close(&mut self, waiting: Option<usize>)
        ensures { self.new ≡ closed waiting self.old }
    {
        if let Some(left) = waiting {
            self.join(Tag::Or, left);
        }
    }
}
