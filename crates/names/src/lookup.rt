// Where names have their labels from: all that a reader of query texts knows of it.
ghost use Rattle.std.specs.Prelude.{◌≡◌, ℕ, List};
ghost use Rattle.names.specs.Sheet.{label_in};
ghost use Rattle.names.specs.Labels.{InRange, Labels};

use crate::label;

// A source of names gives some names a label.
pub trait Naming {
    // The label of each name, if it has one.
    ghost labels: { Self → Labels };

    // The label of a name, whatever number it is.
    fn find(&self, name: &[u8]) -> Option<usize>
        ensures { result ≡ labels self.now name.now };
}

// A source of names whose labels are ones that an element can have.
pub trait Lookup: Naming {
    ghost ranged: { (s : Self) (name : List ℕ) → InRange (Self.labels s name) };

    // The label of a name, which fits an element's.
    final fn label(&self, name: &[u8]) -> Option<u16>
        ensures { result ≡ Self.labels self.now name.now }
    {
        let label = self.find(name)?;
        Some(label as u16)
    }
}

// The names of any bytes, taken as a sheet without a check: the first row has label 1, the next 2.
#[derive(Clone, Copy)]
pub struct Unchecked<'a>(pub &'a [u8]);

impl<'a> Naming for Unchecked<'a> {
    ghost labels = { λ s. label_in s.0.now };

    fn find(&self, name: &[u8]) -> Option<usize> {
        label(self.0, name)
    }
}
