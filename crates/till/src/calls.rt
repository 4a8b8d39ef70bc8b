// Beginning, opening, closing, and lists of these.
ghost use Rattle.std.specs.Prelude.{◌≡◌, length};
ghost use Rattle.model.specs.Receipt.{Lawful, count_of, empty};
ghost use Rattle.model.specs.Runs.{accepted, after, after_one, answer, effects, fault_of, opening_fault};
ghost use Rattle.model.specs.declared.action.Action.TheVariants.{Open, Close};
ghost use Rattle.till.specs.Held.{KeepsRecords, receipt_of};

use crate::Till;
use crate::link::{Link, attach};
use arrayvec::ArrayVec;
use model::action::Action;
use model::fault::ReceiptFault;
use model::limits::{MOST_DEPTH, MOST_LABEL};
use store::{Place, next_place};

impl Till {
    // A store that holds the empty receipt.
    pub fn new() -> Till
        ensures { receipt_of result ≡ empty }
    {
        Till {
            links: ArrayVec::new(),
            depth: 0,
        }
    }

    // Opens an element with this label and answers its rank.
    pub fn open(&mut self, label: u16) -> Result<usize, ReceiptFault>
        ensures answers { result ≡ answer (fault_of (Open label) (receipt_of self.old)) (count_of (receipt_of self.old)) }
        ensures holds { receipt_of self.new ≡ after_one (Open label) (receipt_of self.old) }
        ensures keeps { KeepsRecords self.old self.new }
    {
        self.may_open(label)?;
        let rank = self.links.len();
        let Place { parent, previous } = next_place(self);
        attach(
            &mut self.links,
            Link {
                label,
                level: self.depth,
                parent,
                child: None,
                next: None,
                previous,
            },
        );
        self.depth += 1;
        Ok(rank)
    }

    // Refuses an opening for the first reason that applies.
    fn may_open(&self, label: u16) -> Result<(), ReceiptFault>
        ensures { result ≡ answer (opening_fault label (receipt_of self.now)) tt }
    {
        if label == 0 || label > MOST_LABEL {
            return Err(ReceiptFault::BadLabel);
        }
        if self.depth == 0 && !self.links.is_empty() {
            return Err(ReceiptFault::Ended);
        }
        if self.links.is_full() {
            return Err(ReceiptFault::Full);
        }
        if self.depth >= MOST_DEPTH {
            return Err(ReceiptFault::TooDeep);
        }
        Ok(())
    }

    // Closes the innermost open element.
    pub fn close(&mut self) -> Result<(), ReceiptFault>
        ensures answers { result ≡ answer (fault_of Close (receipt_of self.old)) tt }
        ensures holds { receipt_of self.new ≡ after_one Close (receipt_of self.old) }
    {
        if self.depth == 0 {
            return Err(ReceiptFault::NothingOpen);
        }
        self.depth -= 1;
        Ok(())
    }

    // Does one action.
    pub fn act(&mut self, action: Action) -> Result<(), ReceiptFault>
        ensures answers { result ≡ answer (fault_of action (receipt_of self.old)) tt }
        ensures holds { receipt_of self.new ≡ after_one action (receipt_of self.old) }
    {
        match action {
            Action::Open(label) => self.open(label).map(|_| ()),
            Action::Close => self.close(),
        }
    }

    // Does the actions in their order, and answers how many were accepted. A loop: a chain's closure would change the till unseen.
    pub fn run(&mut self, actions: &[Action]) -> usize
        ensures counts { result ≡ length (accepted actions.now (receipt_of self.old)) }
        ensures holds { receipt_of self.new ≡ after actions.now (receipt_of self.old) }
    {
        let mut done = 0;
        for action in actions {
            if self.act(*action).is_ok() {
                done += 1;
            }
        }
        done
    }
}

// Rings up a receipt from nothing. Whatever the list of actions, the store holds the receipt of that moment: the empty one after the accepted actions, in order.
pub fn ring_up(actions: &[Action]) -> Till
    ensures holds { receipt_of result ≡ after actions.now empty }
    ensures moment { receipt_of result ≡ effects (accepted actions.now empty) empty }
    ensures lawful { Lawful (receipt_of result) }
{
    let mut till = Till::new();
    let _done = till.run(actions);
    till
}
