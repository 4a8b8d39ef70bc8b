ghost use Rattle.std.specs.Prelude.{◌≡◌, ◌<◌, IfSome};
ghost use Rattle.arrayvec.specs.ArrayVec.{array_vec_len};
ghost use Rattle.till.specs.Links.{attached, with_child, with_next};

use arrayvec::ArrayVec;
use model::limits::MOST_ELEMENTS;

// One element's record: what it is, and the ranks of its relatives.
#[derive(Clone, Copy, Default)]
pub struct Link {
    pub label: u16,
    pub level: u8,
    pub parent: Option<usize>,
    pub child: Option<usize>,
    pub next: Option<usize>,
    pub previous: Option<usize>,
}

impl Link {
    fn precede(&mut self, next: usize)
        ensures { self.new ≡ with_next self.old next }
    {
        self.next = Some(next);
    }

    fn adopt(&mut self, child: usize)
        ensures { self.new ≡ with_child self.old child }
    {
        self.child = Some(child);
    }
}

// Appends a record. The record of its previous sibling, or where it has none that of its parent, is lent and changed; no other is.
pub(crate) fn attach(links: &mut ArrayVec<Link, MOST_ELEMENTS>, link: Link)
    requires room { array_vec_len links.old < 256 }
    requires parent { IfSome link.parent (λ p. p < array_vec_len links.old) }
    requires previous { IfSome link.previous (λ q. q < array_vec_len links.old) }
    ensures { links.new.items ≡ attached links.old.items link }
{
    let rank = links.len();
    links.push(link);
    if let Some(q) = link.previous {
        links[q].precede(rank);
    } else if let Some(p) = link.parent {
        links[p].adopt(rank);
    }
}
