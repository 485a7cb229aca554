//! The lines of ROWS.
ghost use Rattle.std.specs.Prelude.{◌≡◌, ◌++◌, ◌∷◌, ◌+◌, ◌&&◌, [], not, false, None, nat_le, OnOk, OnErr, option_map, if◌then◌else◌};
ghost use Rattle.cip_problem.specs.Limits.{most_rows};
ghost use Rattle.cip_mps_lines.specs.MpsKinds.{row_kind_in};
ghost use Rattle.cip_text_rules.specs.MpsWords.{is_in};
ghost use Rattle.cip_text_rules.specs.MpsProgram.{is_free};
ghost use Rattle.cip_text_rules.specs.MpsRules.{least};
ghost use Rattle.cip_text_rules.specs.MpsSteps.{new_row};
ghost use Rattle.cip_mps.specs.DraftStates.{kept};
ghost use Rattle.cip_mps.specs.DraftLines.{row_line_tests};

use crate::RowTable;
use crate::draft::Draft;
use cip_model::{LONGEST_NAME, MOST_ROWS};
use cip_mps_lines::{NameIndex, RowKind};
use cip_mps_sides::is_free_kind;
use std::alloc::{AllocError, Global};

/// Puts a row with a name behind the others. `Err` comes where a growth was refused, and changes nothing.
fn put_row(
    alloc: Global,
    rows: &mut RowTable,
    names: &mut NameIndex,
    kind: RowKind,
    name: &[u8],
) -> Result<(), AllocError>
    requires { is_in names.old name.now ≡ false }
    ensures ok { OnOk result ((rows.new ≡ rows.old ++ new_row (row_kind_in kind) ∷ [])
        × (names.new ≡ names.old ++ name.now ∷ [])) }
    ensures err { OnErr result ((rows.new ≡ rows.old) × (names.new ≡ names.old)) }
{
    let owned = name.to_vec(alloc)?;
    rows.push(kind)?;
    let added = names.add(owned);
    if added.is_err() {
        rows.pop();
    }
    added
}

impl Draft {
    /// The least kind of fault of a line of ROWS; the type is none where its word is none of the four.
    pub(crate) fn row_fault(&self, kind: Option<RowKind>, name: &[u8]) -> Option<u32>
        ensures { result ≡ least (row_line_tests (kept self.now) (option_map row_kind_in kind) name.now) }
    {
        if self.row_names.find(name).is_some() {
            return Some(10);
        }
        let Some(kind) = kind else {
            return Some(13);
        };
        if !is_free_kind(kind) && self.row_count >= MOST_ROWS {
            return Some(18);
        }
        if name.len() > LONGEST_NAME {
            return Some(19);
        }
        None
    }

    /// Adds a row. `Err` comes where a growth was refused.
    pub(crate) fn add_row(&mut self, kind: RowKind, name: &[u8]) -> Result<(), AllocError>
        requires absent { is_in self.old.row_names name.now ≡ false }
        requires few { (not (is_free (row_kind_in kind)) && nat_le most_rows self.old.row_count) ≡ false }
        ensures { OnOk result (kept self.new ≡ record (kept self.old) {
          row_names = self.old.row_names ++ name.now ∷ [];
          rows = self.old.rows ++ new_row (row_kind_in kind) ∷ [];
          row_count = if is_free (row_kind_in kind) then self.old.row_count else self.old.row_count + 1;
        }) }
    {
        put_row(self.alloc, &mut self.rows, &mut self.row_names, kind, name)?;
        if !is_free_kind(kind) {
            self.row_count += 1;
        }
        Ok(())
    }
}
