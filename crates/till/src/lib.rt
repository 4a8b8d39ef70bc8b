// The till's store: a receipt as it is rung up, with one record of links for each element.
#![tactic(auto)]

ghost use Rattle.std.proofs.Props.{props};
ghost use Rattle.model.specs.Receipt.{Lawful};
ghost use Rattle.till.specs.Links.{Linked, told};

use crate::link::Link;
use arrayvec::ArrayVec;
use model::limits::MOST_ELEMENTS;
use store::Store;

pub mod calls;
mod link;

// The records tell the receipt: each its element, and the links that the receipt gives that element.
#[derive(Drop)]
pub struct Till {
    links: ArrayVec<Link, MOST_ELEMENTS>,
    depth: u8,
    ghost lawful: { Lawful (told links.items depth) } by { Prim.hlevel props },
    ghost linked: { Linked links.items depth } by { Prim.hlevel props },
}

impl Store for Till {
    ghost receipt = { λ t. told t.links.items t.depth };

    ghost lawful = { λ t. t.lawful };

    fn count(&self) -> usize {
        self.links.len()
    }

    fn depth(&self) -> u8 {
        self.depth
    }

    fn label(&self, rank: usize) -> Option<u16> {
        self.links.get(rank).map(|l| l.label)
    }

    fn level(&self, rank: usize) -> Option<u8> {
        self.links.get(rank).map(|l| l.level)
    }

    fn parent(&self, rank: usize) -> Option<usize> {
        self.links.get(rank).and_then(|l| l.parent)
    }

    fn first_child(&self, rank: usize) -> Option<usize> {
        self.links.get(rank).and_then(|l| l.child)
    }

    fn next_sibling(&self, rank: usize) -> Option<usize> {
        self.links.get(rank).and_then(|l| l.next)
    }

    fn previous_sibling(&self, rank: usize) -> Option<usize> {
        self.links.get(rank).and_then(|l| l.previous)
    }
}
