// Reading bytes as a roll.
ghost use Rattle.std.specs.Prelude.{◌≡◌, Some, None};
ghost use Rattle.model.specs.Receipt.{Receipt, Lawful, empty};
ghost use Rattle.model.specs.Reading.{reading_fault, reading_of};
ghost use Rattle.model.specs.Roll.{roll_of};
ghost use Rattle.roll.specs.Held.{IsReading, fault_of, receipt_of};

use crate::Roll;
use crate::check::Parts;
use model::fault::RollFault;

// Bytes that are a roll, as the store over them; others are refused with the first reason.
impl<'a> TryFrom<&'a [u8]> for Roll<'a> {
    type Error = RollFault;

    ghost try_from_gives = { λ bytes r. IsReading bytes.now r };

    fn try_from(bytes: &'a [u8]) -> Result<Roll<'a>, RollFault> {
        let parts = Parts::split(bytes)?;
        parts.check()?;
        Ok(Roll {
            levels: parts.levels,
            labels: parts.labels,
            depth: parts.depth,
            fault: None,
        })
    }
}

impl<'a> Roll<'a> {
    // An empty store, for bytes that are no roll.
    fn refused(fault: RollFault) -> Roll<'a>
        ensures fault { fault_of result ≡ Some fault }
        ensures tells { receipt_of result ≡ empty }
    {
        Roll {
            levels: &[],
            labels: &[],
            depth: 0,
            fault: Some(fault),
        }
    }

    // Reads bytes, whatever they are, as a roll.
    pub fn read(bytes: &'a [u8]) -> Roll<'a>
        ensures fault { fault_of result ≡ reading_fault bytes.now }
        ensures tells { receipt_of result ≡ reading_of bytes.now }
        ensures back { (s : Receipt) → Lawful s → bytes.now ≡ roll_of s → (fault_of result ≡ None) × (receipt_of result ≡ s) }
        ensures written { fault_of result ≡ None → bytes.now ≡ roll_of (receipt_of result) }
    {
        match Roll::try_from(bytes) {
            Ok(roll) => roll,
            Err(fault) => Roll::refused(fault),
        }
    }

    // Why the bytes were refused.
    pub fn fault(&self) -> Option<RollFault>
        ensures { result ≡ fault_of self.now }
    {
        self.fault
    }
}
