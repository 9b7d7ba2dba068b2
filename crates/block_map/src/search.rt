// Binary searches.
ghost use Rattle.std.specs.Prelude.{◌≡◌, ◌+◌, ◌<◌, ◌≤◌, ℕ, List, length, slice_index_or, IfSome};
ghost use Rattle.block_map.specs.Sorted.{KeyAndValue, KeysRise, IsLastUpTo};
ghost use Rattle.block_map.specs.Rows.{first_key, FirstsRise};

use crate::block::Block;

/// The place of the last entry with a key up to `n`. The first has one.
#[inline(always)]
pub(crate) fn last_up_to(entries: &[(u64, u64)], n: u64) -> usize
    requires rises { KeysRise entries.now }
    requires first { (0 < length entries.now) × ((d : KeyAndValue) → (slice_index_or entries.now 0 d).0 ≤ n) }
    ensures { IsLastUpTo entries.now n result }
{
    let mut index = 0;
    let mut size = entries.len();
    while size > 1 {
        let half = size / 2;
        if entries[index + half].0 <= n {
            index += half;
        }
        size -= half;
    }
    index
}

/// The place of the last row whose first key is up to `n`. That of the first row is.
#[inline(always)]
pub(crate) fn last_row(rows: &[Block], n: u64) -> usize
    requires rise { FirstsRise rows.now }
    requires first { (0 < length rows.now) × ((d : List KeyAndValue) → first_key (slice_index_or rows.now 0 d) ≤ n) }
    ensures fits { result < length rows.now }
    ensures up_to { (d : List KeyAndValue) → first_key (slice_index_or rows.now result d) ≤ n }
    ensures above { (k : ℕ) (d : List KeyAndValue) → result < k → k < length rows.now → n < first_key (slice_index_or rows.now k d) }
{
    let mut index = 0;
    let mut size = rows.len();
    while size > 1 {
        let half = size / 2;
        if rows[index + half].first() <= n {
            index += half;
        }
        size -= half;
    }
    index
}

/// The place of the last entry with a key up to `n`, if it is a place or the one behind it, and another entry follows.
#[inline(always)]
pub(crate) fn near(entries: &[(u64, u64)], index: usize, n: u64) -> Option<usize>
    ensures fits { IfSome result (λ i. i + 1 < length entries.now) }
    ensures up_to { IfSome result (λ i. (d : KeyAndValue) → (slice_index_or entries.now i d).0 ≤ n) }
    ensures above { IfSome result (λ i. (d : KeyAndValue) → n < (slice_index_or entries.now (i + 1) d).0) }
{
    let len = entries.len();
    if len < 2 || index > len - 2 || entries[index].0 > n {
        return None;
    }
    if n < entries[index + 1].0 {
        return Some(index);
    }
    if index + 2 < len && n < entries[index + 2].0 {
        return Some(index + 1);
    }
    None
}
