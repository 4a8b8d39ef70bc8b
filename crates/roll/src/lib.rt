// Rolls: the bytes by which a receipt is kept on paper, and the store over the bytes of one.
#![tactic(auto)]

ghost use Rattle.std.specs.Prelude.{◌≡◌, length};
ghost use Rattle.model.specs.Receipt.{Lawful};
ghost use Rattle.roll.specs.Told.{told};

use crate::scan::{first_no_deeper, last_no_deeper};
use model::fault::RollFault;
use store::Store;

pub mod check;
mod layout;
pub mod read;
mod scan;
pub mod write;

// The receipt of bytes that were accepted; of bytes that were refused the empty one, and the reason.
#[derive(Clone, Copy)]
pub struct Roll<'a> {
    levels: &'a [u8],
    labels: &'a [u8],
    depth: u8,
    // Beside the rows, since `read` refuses nothing and its callers ask afterwards.
    fault: Option<RollFault>,
    ghost paired: { length labels.now ≡ length levels.now },
    ghost lawful: { Lawful (told levels.now labels.now depth) },
}

impl<'a> Store for Roll<'a> {
    ghost receipt = { λ r. told r.levels.now r.labels.now r.depth };

    ghost lawful = { λ r. r.lawful };

    fn count(&self) -> usize {
        self.levels.len()
    }

    fn depth(&self) -> u8 {
        self.depth
    }

    fn label(&self, rank: usize) -> Option<u16> {
        self.labels.get(rank).map(|label| u16::from(*label))
    }

    fn level(&self, rank: usize) -> Option<u8> {
        self.levels.get(rank).copied()
    }

    // Back from the element, to the nearest one whose level is one less.
    fn parent(&self, rank: usize) -> Option<usize> {
        let above = self.levels.get(rank)?.checked_sub(1)?;
        self.levels[..rank]
            .iter()
            .rposition(|level| *level == above)
    }

    // The element that comes next, if it is deeper.
    fn first_child(&self, rank: usize) -> Option<usize> {
        let level = self.levels.get(rank)?;
        let next = rank + 1;
        (self.levels.get(next)? > level).then_some(next)
    }

    // On from the element, to the first one that is no deeper.
    fn next_sibling(&self, rank: usize) -> Option<usize> {
        let level = *self.levels.get(rank)?;
        let next = rank + 1;
        let at = next + first_no_deeper(&self.levels[next..], level)?;
        (self.levels[at] == level).then_some(at)
    }

    // Back from the element, to the last one that is no deeper.
    fn previous_sibling(&self, rank: usize) -> Option<usize> {
        let level = *self.levels.get(rank)?;
        let at = last_no_deeper(&self.levels[..rank], level)?;
        (self.levels[at] == level).then_some(at)
    }
}
