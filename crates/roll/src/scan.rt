// Scans of levels for the nearest one that is no deeper than a level: two, since they go opposite ways.
ghost use Rattle.std.specs.Prelude.{◌+◌, ◌<◌, ◌≤◌, length, slice_index, MatchOption};
ghost use Rattle.roll.specs.Deeper.{Deeper};

// On from the front, to the first.
pub(crate) fn first_no_deeper(levels: &[u8], level: u8) -> Option<usize>
    ensures { MatchOption result (Deeper levels.now level 0 (length levels.now)) (λ at. (at < length levels.now) × (slice_index levels.now at ≤ level) × Deeper levels.now level 0 at) }
{
    levels.iter().position(|other| *other <= level)
}

// Back from the end, to the last.
pub(crate) fn last_no_deeper(levels: &[u8], level: u8) -> Option<usize>
    ensures { MatchOption result (Deeper levels.now level 0 (length levels.now)) (λ at. (at < length levels.now) × (slice_index levels.now at ≤ level) × Deeper levels.now level (at + 1) (length levels.now)) }
{
    levels.iter().rposition(|other| *other <= level)
}
