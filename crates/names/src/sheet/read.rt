// Reading bytes as a names sheet, and its names.
ghost use Rattle.std.specs.Prelude.{◌≡◌, ℕ, Result};
ghost use Rattle.names.specs.Sheet.{Checked};
ghost use Rattle.names.specs.Held.{bytes_of, fault_of, labels_of, outcome_of, Parsed};
ghost use Rattle.names.specs.Ranged.{labels_ranged};
ghost use Rattle.names.specs.declared.NamesFault.{NamesFault};

use crate::lookup::{Lookup, Naming};
use crate::sheet::Sheet;
use crate::{NamesFault, check, label};

impl<'a> Sheet<'a> {
    // Reads bytes, whatever they are, as a names sheet.
    pub fn read(bytes: &'a [u8]) -> Sheet<'a>
        ensures answers { Checked bytes.now (outcome_of result) }
        ensures only { (other : Result ℕ NamesFault) → Checked bytes.now other → other ≡ outcome_of result }
        ensures keeps { bytes_of result ≡ bytes.now }
    {
        Sheet {
            bytes,
            fault: check(bytes).err(),
        }
    }

    // Why the bytes were refused.
    pub fn fault(&self) -> Option<NamesFault>
        ensures { result ≡ fault_of self.now }
    {
        self.fault
    }
}

impl<'a> TryFrom<&'a [u8]> for Sheet<'a> {
    type Error = NamesFault;

    ghost try_from_gives = { λ bytes r. Parsed bytes.now r };

    // The sheet of bytes that the check accepts.
    fn try_from(bytes: &'a [u8]) -> Result<Sheet<'a>, NamesFault> {
        check(bytes)?;
        Ok(Sheet { bytes, fault: None })
    }
}

impl<'a> Naming for Sheet<'a> {
    ghost labels = { labels_of };

    fn find(&self, name: &[u8]) -> Option<usize> {
        let None = self.fault else {
            return None;
        };
        label(self.bytes, name)
    }
}

impl<'a> Lookup for Sheet<'a> {
    ghost ranged = { labels_ranged };
}
