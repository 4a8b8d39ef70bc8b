// A names sheet over lent bytes.
ghost use Rattle.std.specs.Prelude.{◌≤◌};
ghost use Rattle.names.specs.Sheet.{most_names};
ghost use Rattle.names.specs.Labels.{names_among};

use crate::NamesFault;

pub mod read;

// The names of bytes that were accepted; of bytes that were refused none, and the reason.
#[derive(Clone, Copy)]
pub struct Sheet<'a> {
    bytes: &'a [u8],
    // Beside the bytes, since `read` refuses nothing and its callers ask afterwards.
    fault: Option<NamesFault>,
    ghost few: { names_among fault bytes.now ≤ most_names },
}
