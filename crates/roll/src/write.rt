// Writing the roll of any store's receipt into lent memory.
ghost use Rattle.std.specs.Prelude.{◌≡◌, ℕ, ◌<◌, ◌≤◌, length, IfOk, slice_index};
ghost use Rattle.model.specs.Receipt.{count_of};
ghost use Rattle.model.specs.Roll.{header as header_bytes, memory_after, roll_length, writing};

use crate::layout::{EDITION, HEADER_LENGTH};
use model::fault::RollFault;
use store::Store;

// How many bytes the roll of the store's receipt has.
pub fn roll_length<S: Store>(store: &S) -> usize
    ensures { result ≡ roll_length (count_of (S.receipt store.now)) }
{
    HEADER_LENGTH + 2 * store.count()
}

fn header(depth: u8, count: u16) -> [u8; HEADER_LENGTH]
    requires { count ≤ 256 }
    ensures { result ≡ header_bytes depth count }
{
    let [count_high, count_low] = count.to_be_bytes();
    let [levels_high, levels_low] = (HEADER_LENGTH as u16).to_be_bytes();
    let [labels_high, labels_low] = (HEADER_LENGTH as u16 + count).to_be_bytes();
    [
        EDITION,
        depth,
        count_high,
        count_low,
        levels_high,
        levels_low,
        labels_high,
        labels_low,
    ]
}

// Writes a row of bytes, one for each rank.
fn write_row<F: Fn(usize) -> u8>(row: &mut [u8], byte: F)
    requires { (rank : ℕ) → rank < length row.old → F.pre byte rank }
    ensures { (rank : ℕ) → rank < length row.old → F.post byte rank (slice_index row.new rank) }
{
    for (rank, place) in row.iter_mut().enumerate() {
        *place = byte(rank);
    }
}

// Writes the roll and answers its length. Memory past the roll stays as it is, and all of it where it is too short.
pub fn write_roll<S: Store>(store: &S, memory: &mut [u8]) -> Result<usize, RollFault>
    ensures answers { result ≡ writing (S.receipt store.now) memory.old }
    ensures leaves { memory.new ≡ memory_after (S.receipt store.now) memory.old }
    ensures bound { IfOk result (λ n. n ≤ length memory.old) }
{
    let count = store.count();
    let length = roll_length(store);
    if memory.len() < length {
        return Err(RollFault::ShortMemory);
    }
    let labels_at = HEADER_LENGTH + count;
    // Each rank has a level and a label; `unwrap` would want clauses on the closures.
    memory[..HEADER_LENGTH].copy_from_slice(&header(store.depth(), count as u16));
    write_row(
        &mut memory[HEADER_LENGTH..labels_at],
        |rank| store.level(rank).unwrap_or(0),
    );
    write_row(
        &mut memory[labels_at..length],
        |rank| store.label(rank).unwrap_or(0) as u8,
    );
    Ok(length)
}
