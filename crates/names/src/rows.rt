// The rows of a sheet one by one: what each line end ends, without it.
ghost use Rattle.std.specs.Iterator.{YieldsFirstRef, item_count};
ghost use Rattle.names.specs.Sheet.{rows};

use crate::LINE_END;

// The rows of the bytes; what stands after the last line end is no row.
#[derive(Drop)]
pub(crate) struct Rows<'a>(pub(crate) &'a [u8]);

impl<'a> Iterator for Rows<'a> {
    type Item = &'a [u8];

    ghost next_gives = { YieldsFirstRef (λ s. rows s.0.now) };

    ghost remaining = { item_count (λ s. rows s.0.now) };

    fn next(&mut self) -> Option<&'a [u8]> {
        let end = self.0.iter().position(|b| *b == LINE_END)?;
        let row = &self.0[..end];
        self.0 = &self.0[end + 1..];
        Some(row)
    }
}
