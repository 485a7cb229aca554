//! Lists with something for each of some variables, by rising variable: fractions, or whole numbers.
ghost use Rattle.std.specs.Prelude.{◌≡◌, ◌≢◌, ℕ, ◌+◌, ◌^◌, ◌<◌, ◌≤◌, true, false, length, slice_index_or};
ghost use Rattle.cip_dict.specs.SparseLines.{AreRising, IsPlace};

/// The place of the first entry on a variable from k on, or the number of entries.
pub(crate) fn place_from<T: Copy>(entries: &[(u32, T)], k: u32) -> usize
    requires { AreRising 0 entries.now }
    ensures { IsPlace k entries.now result }
{
    let mut low = 0;
    let mut high = entries.len();
    while low < high {
        let middle = low + (high - low) / 2;
        if entries[middle].0 < k {
            low = middle + 1;
        } else {
            high = middle;
        }
    }
    low
}

/// Whether the entry at a place is that on variable k.
#[inline(always)]
pub(crate) fn stands_at<T: Copy>(entries: &[(u32, T)], place: usize, k: u32) -> bool
    ensures within { result ≡ true → place < length entries.now }
    ensures fits { result ≡ true → place + 1 < 2 ^ 64 }
    ensures yes { result ≡ true → (d : ℕ × T) → (slice_index_or entries.now place d).0 ≡ k }
    ensures no { result ≡ false
        → (d : ℕ × T) → place < length entries.now → (slice_index_or entries.now place d).0 ≢ k }
{
    place < entries.len() && entries[place].0 == k
}

/// Whether there is an entry at a place, on one of the first n variables.
#[inline(always)]
pub(crate) fn is_within<T: Copy>(entries: &[(u32, T)], place: usize, n: usize) -> bool
    ensures within { result ≡ true → place < length entries.now }
    ensures below { result ≡ true → (d : ℕ × T) → (slice_index_or entries.now place d).0 < n }
    ensures past { result ≡ false → (d : ℕ × T) → place < length entries.now
        → n ≤ (slice_index_or entries.now place d).0 }
{
    place < entries.len() && (entries[place].0 as usize) < n
}

/// Whether all entries are on variables below k.
#[inline(always)]
pub(crate) fn is_past<T: Copy>(entries: &[(u32, T)], k: u32) -> bool
    requires { AreRising 0 entries.now }
    ensures { result ≡ true → IsPlace k entries.now (length entries.now) }
{
    let len = entries.len();
    len == 0 || entries[len - 1].0 < k
}
