// The names sheet: a run of names, each ended by a line end. The first name has label 1, the next 2.
#![tactic(auto)]

ghost use Rattle.std.specs.Prelude.{◌≡◌, ℕ, Result, length};
ghost use Rattle.model.specs.Names.{is_letter, is_name_byte};
ghost use Rattle.names.specs.Sheet.{label_in, line_ends, rows, first_repeat, repeated, Checked};
ghost use Rattle.names.specs.Rule.{room_after, to_next, fresh, run, stopped};
ghost use Rattle.names.specs.Refusals.{names_refusal, names_sentence};
ghost use Rattle.names.specs.declared.NamesFault.{NamesFault};

use crate::rows::Rows;
use model::fault::{Described, Fault, Layer, Refusal};

pub mod lookup;
mod rows;
pub mod sheet;

// The most bytes of a sheet.
pub const MOST_SHEET: usize = 6250;

// The most names of a sheet.
pub const MOST_NAMES: usize = 250;

// The most bytes of a name.
pub const MOST_NAME: usize = 24;

// The byte that ends a name in a sheet.
pub const LINE_END: u8 = 10;

// Why a sheet is refused.
#[derive(Clone, Copy, PartialEq, Eq, Debug)]
pub enum NamesFault {
    // The sheet has too many bytes or too many line ends.
    TooMuch,
    // From this place on, nothing makes the sheet a run of names.
    BadName(usize),
    // The name that begins here stands earlier too.
    Repeated(usize),
}

impl Fault for NamesFault {
    ghost refusal = { names_refusal };

    fn refusal(&self) -> Refusal {
        let (number, place) = match self {
            NamesFault::TooMuch => (7, 0),
            NamesFault::BadName(p) => (8, *p),
            NamesFault::Repeated(p) => (9, *p),
        };
        Refusal {
            number,
            layer: Layer::Names,
            place,
        }
    }
}

impl Described for NamesFault {
    ghost says = { names_sentence };

    fn sentence(&self) -> &'static str {
        match self {
            NamesFault::TooMuch => "The sheet has too many bytes or too many line ends.",
            NamesFault::BadName(_) => "From here on this is no run of names.",
            NamesFault::Repeated(_) => "This name stands earlier too.",
        }
    }
}

// Whether the byte is an ASCII letter.
pub fn is_letter(b: u8) -> bool
    ensures { result ≡ is_letter b }
{
    matches!(b, b'A'..=b'Z' | b'a'..=b'z')
}

// Whether the byte may stand in a name after its first.
pub fn is_name_byte(b: u8) -> bool
    ensures { result ≡ is_name_byte b }
{
    is_letter(b) || matches!(b, b'0'..=b'9' | b'-' | b'_' | b'.')
}

// The label of the name in the sheet, or none.
pub fn label(sheet: &[u8], name: &[u8]) -> Option<usize>
    ensures { result ≡ label_in sheet.now name.now }
{
    Rows(sheet).position(|row| row == name).map(|i| i + 1)
}

// How many line ends the sheet has.
fn line_ends(sheet: &[u8]) -> usize
    ensures { result ≡ line_ends sheet.now }
{
    sheet.iter().filter(|b| **b == LINE_END).count()
}

// What room the byte leaves in its name, or none where it is refused.
fn next(room: usize, b: u8) -> Option<usize>
    ensures { to_next result ≡ room_after room b }
{
    match room {
        MOST_NAME => is_letter(b).then_some(MOST_NAME - 1),
        _ if b == LINE_END => Some(MOST_NAME),
        0 => None,
        _ => is_name_byte(b).then_some(room - 1),
    }
}

// Whether the sheet is a run of names, or the fault where it stops being one.
fn run_of_names(sheet: &[u8]) -> Result<(), NamesFault>
    ensures { result ≡ stopped (length sheet.now) (run fresh sheet.now) }
{
    let mut room = MOST_NAME;
    for (i, b) in sheet.iter().enumerate() {
        room = next(room, *b).ok_or(NamesFault::BadName(i))?;
    }
    if room == MOST_NAME {
        Ok(())
    } else {
        Err(NamesFault::BadName(sheet.len()))
    }
}

// Whether each row stands once, or the fault of the first that stands earlier too. `start` is a place in the bytes, no count of rows.
fn no_repeat(sheet: &[u8]) -> Result<(), NamesFault>
    ensures { result ≡ repeated (first_repeat (rows sheet.now)) }
{
    let mut start = 0;
    for row in Rows(sheet) {
        if label(&sheet[..start], row).is_some() {
            return Err(NamesFault::Repeated(start));
        }
        start += row.len() + 1;
    }
    Ok(())
}

// Checks a sheet of any contents: the number of its names, or why it is refused. No other answer meets the definition.
pub fn check(sheet: &[u8]) -> Result<usize, NamesFault>
    ensures answers { Checked sheet.now result }
    ensures only { (other : Result ℕ NamesFault) → Checked sheet.now other → other ≡ result }
{
    let ends = line_ends(sheet);
    if sheet.len() > MOST_SHEET || ends > MOST_NAMES {
        return Err(NamesFault::TooMuch);
    }
    run_of_names(sheet)?;
    no_repeat(sheet)?;
    Ok(ends)
}
