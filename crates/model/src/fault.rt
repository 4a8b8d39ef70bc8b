ghost use Rattle.std.specs.Prelude.{◌≡◌, ℕ, List, Some};
ghost use Rattle.model.specs.Refusals.{receipt_refusal, roll_refusal};
ghost use Rattle.model.specs.Words.{layer_text, refusal_text};
ghost use Rattle.model.specs.Sentences.{receipt_sentence, roll_sentence};
ghost use Rattle.model.specs.declared.fault.Refusal.{Refusal};

use std::fmt;

// The part of the product that refuses.
#[derive(Clone, Copy, PartialEq, Eq, Debug)]
pub enum Layer {
    Till,
    Receipt,
    Names,
    Query,
    Roll,
    Count,
}

impl Layer {
    // The layer in a word.
    pub fn name(self) -> &'static str
        ensures { result.now ≡ layer_text self }
    {
        match self {
            Layer::Till => "till",
            Layer::Receipt => "receipt",
            Layer::Names => "names",
            Layer::Query => "query",
            Layer::Roll => "roll",
            Layer::Count => "count",
        }
    }
}

impl fmt::Display for Layer {
    ghost output = { λ l. Some (layer_text l) };

    fn fmt<W: fmt::Write>(&self, f: &mut fmt::Formatter<W>) -> fmt::Result {
        f.write_str(self.name())
    }
}

// A refusal as callers are told of it: its number, the layer that refuses, and the place of what is wrong.
#[derive(Clone, Copy, PartialEq, Eq, Debug)]
pub struct Refusal {
    // The number itself: callers and their customers go by it.
    pub number: u8,
    pub layer: Layer,
    pub place: usize,
}

impl fmt::Display for Refusal {
    ghost output = { λ r. Some (refusal_text r) };

    fn fmt<W: fmt::Write>(&self, f: &mut fmt::Formatter<W>) -> fmt::Result {
        let Refusal {
            number,
            layer,
            place,
        } = self;
        write!(f, "{number}, layer {layer}, place {place}")
    }
}

// A reason to refuse, whose number, layer and place a definition gives.
pub trait Fault {
    ghost refusal: { Self → Refusal };

    fn refusal(&self) -> Refusal
        ensures { result ≡ refusal self.now };
}

// A reason to refuse that is told in a plain sentence.
pub trait Described {
    ghost says: { Self → List ℕ };

    fn sentence(&self) -> &'static str
        ensures { result.now ≡ says self.now };
}

// Why an opening or a closing is refused.
#[derive(Clone, Copy, PartialEq, Eq, Debug)]
pub enum ReceiptFault {
    // The label is 0 or too great.
    BadLabel,
    // The receipt has ended.
    Ended,
    // The receipt has as many elements as one can have.
    Full,
    // Nothing opens any deeper.
    TooDeep,
    // Nothing is open.
    NothingOpen,
}

impl Fault for ReceiptFault {
    ghost refusal = { receipt_refusal };

    fn refusal(&self) -> Refusal {
        let number = match self {
            ReceiptFault::BadLabel => 2,
            ReceiptFault::Ended => 3,
            ReceiptFault::Full => 4,
            ReceiptFault::TooDeep => 5,
            ReceiptFault::NothingOpen => 6,
        };
        Refusal {
            number,
            layer: Layer::Receipt,
            place: 0,
        }
    }
}

impl Described for ReceiptFault {
    ghost says = { receipt_sentence };

    fn sentence(&self) -> &'static str {
        match self {
            ReceiptFault::BadLabel => "The label is 0 or above the greatest.",
            ReceiptFault::Ended => "The receipt has ended.",
            ReceiptFault::Full => "The receipt has as many elements as it can have.",
            ReceiptFault::TooDeep => "Nothing opens any deeper.",
            ReceiptFault::NothingOpen => "Nothing is open.",
        }
    }
}

// Why bytes are not read as a roll, or a roll is not written.
#[derive(Clone, Copy, PartialEq, Eq, Debug)]
pub enum RollFault {
    // The bytes are too few for a roll, or of another edition.
    NoRoll,
    // The count is too great, an offset is wrong, or the length does not fit the count.
    BadLayout,
    // The level at this byte, and at none before it, breaks its rule.
    BadLevel(usize),
    // The label at this byte, and at none before it, is 0 or too great.
    BadLabel(usize),
    // The depth is too great for the last level.
    BadDepth,
    // The memory is shorter than the roll.
    ShortMemory,
}

impl Fault for RollFault {
    ghost refusal = { roll_refusal };

    fn refusal(&self) -> Refusal {
        let (number, place) = match self {
            RollFault::NoRoll => (16, 0),
            RollFault::BadLayout => (17, 0),
            RollFault::BadLevel(at) => (18, *at),
            RollFault::BadLabel(at) => (19, *at),
            RollFault::BadDepth => (20, 1),
            RollFault::ShortMemory => (21, 0),
        };
        Refusal {
            number,
            layer: Layer::Roll,
            place,
        }
    }
}

impl Described for RollFault {
    ghost says = { roll_sentence };

    fn sentence(&self) -> &'static str {
        match self {
            RollFault::NoRoll => "These bytes are no roll of this edition.",
            RollFault::BadLayout => "The count, an offset or the length is wrong.",
            RollFault::BadLevel(_) => "This level breaks its rule.",
            RollFault::BadLabel(_) => "This label is 0 or above the greatest.",
            RollFault::BadDepth => "The depth does not fit the last level.",
            RollFault::ShortMemory => "The memory is shorter than the roll.",
        }
    }
}
