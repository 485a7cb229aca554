//! The rows of the program.
ghost use Rattle.std.specs.Prelude.{◌≡◌, ◌++◌, map, IfOk, OnOk};
ghost use Rattle.std.specs.List.{filter};
ghost use Rattle.cip_text_rules.specs.MpsState.{is_kept, finished_row};
ghost use Rattle.cip_mps.specs.GroupedRows.{kept_rows};

use crate::groups::GROUP;
use crate::row_head::RowHead;
use crate::row_table::RowTable;
use cip_lin::Row;
use std::alloc::AllocError;

/// Puts the rows whose heads aren't of type N behind others. `Err` comes where a growth was refused.
fn keep_rows(finished: &mut Vec<Row>, heads: &[RowHead], rows: Vec<Row>) -> Result<(), AllocError>
    ensures { OnOk result (finished.new.items ≡ finished.old.items ++ kept_rows heads.now rows.items) }
{
    let mut rest = heads;
    for row in rows {
        let Some((head, behind)) = rest.split_first() else {
            drop(row);
            return Ok(());
        };
        if !head.is_free() {
            finished.push(row)?;
        } else {
            drop(row);
        }
        rest = behind;
    }
    Ok(())
}

impl RowTable {
    /// The rows of the program, in their order: all but those of type N. `Err` comes where a growth was refused. The
    /// numbers of 64 rows are dropped before those of the next are looked at.
    pub fn into_rows(self) -> Result<Vec<Row>, AllocError>
        ensures { IfOk result (λ rows. rows.items ≡ map finished_row (filter is_kept self)) }
    {
        let RowTable {
            alloc,
            heads,
            held_to,
            groups,
        } = self;
        drop(held_to);
        let mut finished = Vec::new(alloc);
        let mut rest = heads.as_slice();
        for group in groups {
            let (here, behind) = rest.split_at(rest.len().min(GROUP));
            let rows = group.into_rows(alloc, here)?;
            keep_rows(&mut finished, here, rows)?;
            rest = behind;
        }
        Ok(finished)
    }
}
