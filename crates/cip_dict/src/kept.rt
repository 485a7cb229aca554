//! Lists of the entries of a line that aren't 0, each with its variable, by rising variable.
ghost use Rattle.std.specs.Prelude.{◌≡◌, ℕ, suc, ◌+◌, ◌<◌, ◌≤◌, ◌==◌, ◌++◌, false, length, slice_index_or, OnOk, OnErr, if◌then◌else◌};
ghost use Rattle.cip_dict.specs.SparseLines.{Kept, entry_on, AreKept, kept_at, IsPlace, IsNext};

use crate::entries::vanishes;
use crate::listed::{is_past, place_from, stands_at};
use cip_frac::Frac;
use std::alloc::AllocError;

/// The entry on variable k, of which the place is known.
#[inline(always)]
pub(crate) fn entry_from(entries: &[(u32, Frac)], place: usize, k: u32) -> Frac
    requires kept { (n : ℕ) × AreKept 0 n entries.now }
    requires at { IsPlace k entries.now place }
    ensures { result ≡ entry_on entries.now k }
{
    if stands_at(entries, place, k) {
        entries[place].1
    } else {
        Frac::zero()
    }
}

/// The entry on variable k.
pub(crate) fn entry_of(entries: &[(u32, Frac)], k: u32) -> Frac
    requires { (n : ℕ) × AreKept 0 n entries.now }
    ensures { result ≡ entry_on entries.now k }
{
    entry_from(entries, place_from(entries, k), k)
}

/// The place of the variable after k, where that of k is known.
#[inline(always)]
pub(crate) fn place_past(entries: &[(u32, Frac)], place: usize, k: u32) -> usize
    requires kept { (n : ℕ) × AreKept 0 n entries.now }
    requires at { IsPlace k entries.now place }
    ensures { IsPlace (suc k) entries.now result }
{
    if stands_at(entries, place, k) {
        place + 1
    } else {
        place
    }
}

/// The variable of the entry at a place, or `len` where there is none.
#[inline(always)]
fn variable_at(entries: &[(u32, Frac)], place: usize, len: u32) -> u32
    requires { AreKept 0 len entries.now }
    ensures within { result ≤ len }
    ensures first { (d : Kept) → place < length entries.now → result ≡ (slice_index_or entries.now place d).0 }
    ensures last { length entries.now ≤ place → result ≡ len }
{
    if place < entries.len() {
        entries[place].0
    } else {
        len
    }
}

/// The next variable on which one of two lines has an entry, by the places where they go on, or `len` where there is
/// none.
#[inline(always)]
pub(crate) fn next_variable(
    row: &[(u32, Frac)],
    here: usize,
    new: &[(u32, Frac)],
    there: usize,
    len: u32,
) -> u32
    requires row_kept { AreKept 0 len row.now }
    requires new_kept { AreKept 0 len new.now }
    ensures within { result ≤ len }
    ensures next { (from : ℕ) → from ≤ len → IsPlace from row.now here → IsPlace from new.now there
        → IsNext row.now new.now here there from result }
{
    let first = variable_at(row, here, len);
    let second = variable_at(new, there, len);
    if first < second { first } else { second }
}

/// Keeps an entry at the end, unless it is 0.
#[inline(always)]
pub(crate) fn keep_entry(
    entries: &mut Vec<(u32, Frac)>,
    k: u32,
    entry: Frac,
) -> Result<(), AllocError>
    ensures kept { OnOk result (entries.new.items ≡ entries.old.items ++ kept_at k entry) }
    ensures refused { OnErr result (entries.new.items ≡ entries.old.items) }
{
    if !vanishes(entry) {
        entries.push((k, entry))?;
    }
    Ok(())
}

/// Puts an entry on variable k, whatever stood there. `Err` where memory was refused.
pub(crate) fn put_entry(
    entries: &mut Vec<(u32, Frac)>,
    k: u32,
    entry: Frac,
) -> Result<(), AllocError>
    requires { (n : ℕ) × (k < n) × AreKept 0 n entries.old.items }
    ensures put { OnOk result ((v : ℕ) → entry_on entries.new.items v
        ≡ (if v == k then entry else entry_on entries.old.items v)) }
    ensures kept { (n : ℕ) → k < n → AreKept 0 n entries.old.items → AreKept 0 n entries.new.items }
{
    if is_past(entries.as_slice(), k) {
        keep_entry(entries, k, entry)?;
        return Ok(());
    }
    let place = place_from(entries.as_slice(), k);
    let stands = stands_at(entries.as_slice(), place, k);
    if vanishes(entry) {
        if !stands {
            return Ok(());
        }
        let _gone = entries.remove(place);
        return Ok(());
    }
    if stands {
        entries[place] = (k, entry);
        return Ok(());
    }
    entries.insert(place, (k, entry))?;
    Ok(())
}
