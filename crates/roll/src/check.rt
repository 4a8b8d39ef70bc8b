// The check of bytes that are to be read as a roll.
ghost use Rattle.std.specs.Prelude.{◌≡◌, [], ◌∷◌, ◌<◌, ◌≤◌, length, slice_index, IfOk, IfErr, Some};
ghost use Rattle.model.specs.Receipt.{first_where};
ghost use Rattle.model.specs.Reading.{Applies, number_in, outcome, reading_fault, receipt_in, wrong_label};
ghost use Rattle.roll.specs.Told.{told};
ghost use Rattle.roll.specs.Parts.{fault_in, greatest_after, level_wrong, misnumbered};

use crate::layout::{EDITION, HEADER_LENGTH};
use model::fault::RollFault;
use model::limits::{MOST_DEPTH, MOST_ELEMENTS, MOST_LABEL};

// The number in two bytes, the high byte first.
fn number(high: u8, low: u8) -> usize
    ensures { result ≡ number_in (high ∷ low ∷ []) }
{
    usize::from(u16::from_be_bytes([high, low]))
}

// Whether a header's numbers, or the length of what follows it, are not those of a roll.
fn is_misnumbered(count: usize, levels_at: usize, labels_at: usize, body: usize) -> bool
    ensures { result ≡ misnumbered count levels_at labels_at body }
{
    count > MOST_ELEMENTS
        || levels_at != HEADER_LENGTH
        || labels_at != HEADER_LENGTH + count
        || body != 2 * count
}

// Whether the level at a rank breaks its rule.
fn level_breaks(levels: &[u8], rank: usize) -> bool
    requires { rank < length levels.now }
    ensures { result ≡ level_wrong levels.now rank }
{
    let level = levels[rank];
    match rank.checked_sub(1) {
        None => level != 0,
        Some(before) => !(1..MOST_DEPTH).contains(&level) || level - 1 > levels[before],
    }
}

// What a header with the right numbers is followed by.
#[derive(Clone, Copy)]
pub(crate) struct Parts<'a> {
    pub(crate) depth: u8,
    pub(crate) levels: &'a [u8],
    pub(crate) labels: &'a [u8],
    ghost paired: { length labels.now ≡ length levels.now },
    ghost few: { length levels.now ≤ 256 },
}

impl<'a> Parts<'a> {
    // The parts of bytes whose header and length are those of a roll.
    pub(crate) fn split(bytes: &'a [u8]) -> Result<Parts<'a>, RollFault>
        ensures ok { IfOk result (λ p. (reading_fault bytes.now ≡ fault_in p.levels.now p.labels.now p.depth) × (receipt_in bytes.now ≡ told p.levels.now p.labels.now p.depth)) }
        ensures err { IfErr result (λ fault. reading_fault bytes.now ≡ Some fault) }
    {
        let [
            EDITION,
            depth,
            count_high,
            count_low,
            levels_high,
            levels_low,
            labels_high,
            labels_low,
            body @ ..,
        ] = bytes
        else {
            return Err(RollFault::NoRoll);
        };
        let count = number(*count_high, *count_low);
        let levels_at = number(*levels_high, *levels_low);
        let labels_at = number(*labels_high, *labels_low);
        if is_misnumbered(count, levels_at, labels_at, body.len()) {
            return Err(RollFault::BadLayout);
        }
        let (levels, labels) = body.split_at(count);
        Ok(Parts {
            depth: *depth,
            levels,
            labels,
        })
    }

    // The first rank whose level breaks its rule.
    fn first_bad_level(&self) -> Option<usize>
        ensures { result ≡ first_where (level_wrong self.now.levels.now) (length self.now.levels.now) }
    {
        (0..self.levels.len()).find(|rank| level_breaks(self.levels, *rank))
    }

    // The first rank whose label is 0 or too great.
    fn first_bad_label(&self) -> Option<usize>
        ensures { result ≡ first_where (λ i. wrong_label (slice_index self.now.labels.now i)) (length self.now.labels.now) }
    {
        self.labels
            .iter()
            .position(|label| !(1..=MOST_LABEL).contains(&u16::from(*label)))
    }

    // The greatest depth that fits the last level.
    fn greatest_depth(&self) -> usize
        ensures { result ≡ greatest_after self.now.levels.now }
    {
        self.levels
            .last()
            .map_or(0, |level| usize::from(*level) + 1)
    }

    // Whether levels, labels and depth keep their rules, and if not, the first reason.
    pub(crate) fn check(&self) -> Result<(), RollFault>
        ensures { result ≡ outcome (fault_in self.now.levels.now self.now.labels.now self.now.depth) }
    {
        if let Some(rank) = self.first_bad_level() {
            return Err(RollFault::BadLevel(HEADER_LENGTH + rank));
        }
        if let Some(rank) = self.first_bad_label() {
            return Err(RollFault::BadLabel(HEADER_LENGTH + self.levels.len() + rank));
        }
        if usize::from(self.depth) > self.greatest_depth() {
            return Err(RollFault::BadDepth);
        }
        Ok(())
    }
}

// Whether the bytes are a roll, and if not, the first reason.
pub fn check_roll(bytes: &[u8]) -> Result<(), RollFault>
    ensures answers { result ≡ outcome (reading_fault bytes.now) }
    ensures named { IfErr result (λ fault. Applies bytes.now fault) }
{
    Parts::split(bytes)?.check()
}
