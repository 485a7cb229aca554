//! The rows of the program, made of one group.
ghost use Rattle.std.specs.Prelude.{◌≡◌, ◌≤◌, map, length, IfOk};
ghost use Rattle.cip_mps.specs.GroupedRows.{empty_row, put_numbers};

use crate::groups::{Far, GROUP, Group, Near};
use crate::row_head::RowHead;
use crate::row_terms::{put_far, put_near};
use cip_lin::Row;
use std::alloc::{AllocError, Global};

/// Counts one more at a place, if there is one.
fn count_at(counts: &mut [usize], place: u32)
    ensures { length counts.new ≡ length counts.old }
{
    let place = place as usize;
    if place < counts.len() {
        counts[place] = counts[place].saturating_add(1);
    }
}

/// Counts how many numbers of 32 bits each row has.
fn count_near(counts: &mut [usize], near: &[Near])
    ensures { length counts.new ≡ length counts.old }
{
    for number in near {
        count_at(counts, number.row);
    }
}

/// Counts how many other numbers each row has.
fn count_far(counts: &mut [usize], far: &[Far])
    ensures { length counts.new ≡ length counts.old }
{
    for number in far {
        count_at(counts, number.row);
    }
}

/// Rows without terms, with room for so many of them. `Err` comes where a growth was refused.
fn rows_with_room(
    alloc: Global,
    heads: &[RowHead],
    counts: &[usize],
) -> Result<Vec<Row>, AllocError>
    requires { length heads.now ≤ length counts.now }
    ensures { IfOk result (λ rows. rows.items ≡ map empty_row heads.now) }
{
    let mut rows = Vec::new(alloc);
    for place in 0..heads.len() {
        let head = &heads[place];
        let sides = head.sides();
        let Ok(()) = rows.reserve(1) else {
            return Err(AllocError);
        };
        let Ok(row) = Row::with_room(alloc, sides.low, sides.high, counts[place]) else {
            return Err(AllocError);
        };
        rows.push_reserved(row);
    }
    Ok(rows)
}

impl Group {
    /// Room for the numbers of each row. `Err` comes where a growth was refused.
    fn empty_rows(&self, alloc: Global, heads: &[RowHead]) -> Result<Vec<Row>, AllocError>
        requires { length heads.now ≤ 64 }
        ensures { IfOk result (λ rows. rows.items ≡ map empty_row heads.now) }
    {
        let mut counts = vec![in alloc; 0usize; GROUP]?;
        count_near(counts.as_mut_slice(), self.near.as_slice());
        count_far(counts.as_mut_slice(), self.far.as_slice());
        rows_with_room(alloc, heads, counts.as_slice())
    }

    /// The rows of these heads, with open sides where they are of type N. `Err` comes where a growth was refused.
    pub(crate) fn into_rows(self, alloc: Global, heads: &[RowHead]) -> Result<Vec<Row>, AllocError>
        requires { length heads.now ≤ 64 }
        ensures { IfOk result (λ rows. rows.items ≡ put_numbers (map empty_row heads.now) self) }
    {
        let mut rows = self.empty_rows(alloc, heads)?;
        put_near(&mut rows, self.near.as_slice())?;
        put_far(&mut rows, self.far.as_slice())?;
        Ok(rows)
    }
}
