//! How many rows have each column: hints, of which nothing is promised.
use cip_lin::Row;
use std::alloc::{AllocError, Global};

/// Counts one row more.
fn add(counts: &mut Vec<u32>, row: &Row) {
    for term in row.terms() {
        if let Some(count) = counts.get_mut(term.col as usize) {
            *count = count.saturating_add(1);
        }
    }
}

/// In how many of these rows each of so many columns has a term. `Err` where the memory for it was refused.
pub(crate) fn row_counts(
    alloc: Global,
    rows: &[Row],
    columns: usize,
) -> Result<Vec<u32>, AllocError> {
    let mut counts = vec![in alloc; 0u32; columns]?;
    for row in rows {
        add(&mut counts, row);
    }
    Ok(counts)
}
