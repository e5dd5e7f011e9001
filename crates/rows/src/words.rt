// Words of lent rows.
ghost use Rattle.std.specs.Prelude.{◌≡◌, ◌*◌, ◌<◌, length, slice_index};
ghost use Rattle.std.specs.Option.{MatchOption};
ghost use Rattle.rows.specs.RowFronts.{FirstThrees};

// The word at that place; 0 where there is none.
pub fn word_at(words: &[u32], place: usize) -> u32
    ensures { result ≡ slice_index words.now place }
{
    words.get(place).copied().unwrap_or(0)
}

// So many threes of words at the front of a row, and the row behind them; none where the row is shorter.
pub(crate) fn first_threes(row: &[u32], count: u32) -> Option<(&[[u32; 3]], &[u32])>
    ensures { MatchOption result (length row.now < 3 * count) (FirstThrees row.now count) }
{
    let (threes, rest) = row.split_at_checked(3 * count as usize)?;
    Some((threes.as_chunks::<3>().0, rest))
}
