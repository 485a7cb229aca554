//! The place of each column among those of its owner.
ghost use Rattle.std.specs.Prelude.{◌≡◌, ◌+◌, ◌<◌, ◌≤◌, ◌^◌, length, slice_index, All, IfSome, IfOk};
ghost use Rattle.cip_problem.specs.Limits.{most_columns};
ghost use Rattle.cip_lagrange.specs.Places.{ArePlaces, slot, next_counts};

use std::alloc::{AllocError, Global};

/// Where the count of an owner stands: first that of the columns of no block, and then those of the blocks.
fn slot(owner: Option<u32>) -> usize
    ensures { result ≡ slot owner }
{
    match owner {
        None => 0,
        Some(block) => block as usize + 1,
    }
}

/// The count at a place, which is one more then.
fn next_place(counts: &mut [u32], at: usize) -> u32
    requires inside { at < length counts.old }
    requires low { slice_index counts.old at < most_columns }
    ensures place { result ≡ slice_index counts.old at }
    ensures counts { counts.new ≡ next_counts at counts.old }
{
    let place = counts[at];
    counts[at] = place + 1;
    place
}

/// The place of each column among those of its owner, from 0.
pub(crate) fn places_of(
    alloc: Global,
    count: usize,
    owners: &[Option<u32>],
) -> Result<Vec<u32>, AllocError>
    requires below { All (λ owner. IfSome owner (λ block. block < count)) owners.now }
    requires few { length owners.now ≤ most_columns }
    requires room { count < 2 ^ 32 }
    ensures { IfOk result (λ places. ArePlaces owners.now places.items) }
{
    let mut counts = vec![in alloc; 0u32; count + 1]?;
    let mut places = Vec::new(alloc);
    for owner in owners {
        places.push(next_place(counts.as_mut_slice(), slot(*owner)))?;
    }
    Ok(places)
}
