// The limits of the product, each once; `specs/Limits.antt` has them for the contracts.
ghost use Rattle.std.specs.Prelude.{◌≡◌, ◌≤◌};
ghost use Rattle.model.specs.Limits.{most_length, most_parts, places};

// The most elements that a receipt has.
pub const MOST_ELEMENTS: usize = 256;

// The greatest label; the least is 1.
pub const MOST_LABEL: u16 = 250;

// The depth at which nothing more opens: levels go from 0 to one less.
pub const MOST_DEPTH: u8 = 16;

// The greatest rate, in points for each selected element; the least is 1.
pub const MOST_RATE: u32 = 1000;

// The most bytes of a query text; the least is 1.
pub const MOST_TEXT: usize = 512;

// The most "[" and "(" that are open at once.
pub const MOST_OPEN: usize = 8;

// The greatest length of a query.
pub const MOST_LENGTH: usize = 16;

// The most places that a query takes in a table.
pub const MOST_PARTS: usize = 6 * MOST_LENGTH + 1;

// The places that a query of this length may take in a table; past the greatest length, those of the greatest.
pub fn places(length: usize) -> usize
    ensures each { length ≤ most_length → result ≡ places length }
    ensures past { most_length ≤ length → result ≡ most_parts }
{
    6 * length.min(MOST_LENGTH) + 1
}
