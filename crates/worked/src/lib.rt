// One receipt worked through by all definitions at once: a theorem alone, the contract of a function.
#![tactic(auto)]

ghost use Rattle.worked.specs.Worked.{WorkedReceipt};

// A receipt of seven elements: how it is rung up, its post ranks and roll, what five queries select and what of it is sure, and where two texts break the grammar.
pub fn worked_receipt()
    ensures { WorkedReceipt }
{}
