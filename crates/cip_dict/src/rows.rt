//! The rows of basic variables in an exchange.
ghost use Rattle.std.specs.Prelude.{◌≡◌, ◌<◌, ◌^◌, true, length, false, None, OnOk, IfOk, MatchResult, if◌then◌else◌};
ghost use Rattle.cip_problem.specs.Activity.{value_at};
ghost use Rattle.cip_bland.specs.Tables.{table, each};
ghost use Rattle.cip_bland.specs.Operations.{first_overflow};
ghost use Rattle.cip_dict.specs.Lists.{basic_in};
ghost use Rattle.cip_dict.specs.MoveFaults.{IsMoveFault};
ghost use Rattle.cip_dict.specs.Pivots.{changes_by, form_operations_by, written_by};
ghost use Rattle.cip_dict.specs.Row.{form_changes, taken_form, row_in, AreMarked, HasRows, HasSpelled};

use crate::fault::MoveFault;
use crate::forms::{Form, count_room};
use crate::lines::{is_basic, write_substituted};
use crate::lists::Scratch;
use crate::pivots::Pivot;
use cip_bland::{Line, Stand};

/// Whether the row of variable v changes when i leaves and j enters: it is basic, stays so, and has an entry on j.
#[inline(always)]
fn is_changed(standing: &[Option<Stand>], i: u32, j: u32, v: usize, row: &Form) -> bool
    requires within { v < length standing.now }
    requires entering { j < length standing.now }
    requires long { basic_in standing.now v ≡ true → length row.now ≡ length standing.now }
    ensures { result ≡ form_changes standing.now i j v row.now }
{
    is_basic(standing, v) && v != i as usize && row.has(j)
}

/// Writes the row of variable v, where it changes, and counts what it has room for then; answers whether it does. `new`
/// is the row of the variable that enters.
fn write_row(
    pivot: &Pivot,
    new: &Form,
    v: usize,
    row: &Form,
    out: &mut Form,
    scratch: &mut Scratch,
) -> Result<bool, MoveFault>
    requires few { length pivot.now.standing.now < 2 ^ 32 }
    requires within { v < length pivot.now.standing.now }
    requires entering { pivot.now.entering < length pivot.now.standing.now }
    requires leaving { pivot.now.leaving < length pivot.now.standing.now }
    requires new_long { length new.now ≡ length pivot.now.standing.now }
    requires new_spelled { HasSpelled new.now scratch.old.entering }
    requires is_leaving { value_at new.now pivot.now.leaving ≡ pivot.now.inverse }
    requires row_long { basic_in pivot.now.standing.now v ≡ true → length row.now ≡ length pivot.now.standing.now }
    requires out_long { basic_in pivot.now.standing.now v ≡ true → length out.old ≡ length pivot.now.standing.now }
    ensures written { let operations = form_operations_by pivot.now (value_at new.now) v row.now in
        MatchResult result
        (λ _. (first_overflow operations ≡ None)
        × (out.new ≡ written_by pivot.now (value_at new.now) v row.now out.old))
        (IsMoveFault operations) }
    ensures long { length out.new ≡ length out.old }
    ensures marked { IfOk result (λ changes. changes ≡ changes_by pivot.now v row.now) }
    ensures spelled { HasSpelled new.now scratch.new.entering }
{
    let changes = is_changed(pivot.standing, pivot.leaving, pivot.entering, v, row);
    if !changes {
        return Ok(false);
    }
    let before = out.room();
    match write_substituted(Line::Row(v as u32), pivot, new, row, out, scratch) {
        Ok(()) => (),
        Err(fault) => return Err(fault),
    }
    match count_room(out, before, &mut scratch.held) {
        Ok(()) => Ok(true),
        Err(_) => Err(MoveFault::NoMemory),
    }
}

/// Writes the rows that change, and marks them; `new` is the row of the variable that enters. Rows that don't change
/// are left alone, and all keep their lengths.
pub(crate) fn write_rows(
    pivot: &Pivot,
    new: &Form,
    rows: &[Form],
    out: &mut [Form],
    changed: &mut [bool],
    scratch: &mut Scratch,
) -> Result<(), MoveFault>
    requires few { length pivot.now.standing.now < 2 ^ 32 }
    requires entering { pivot.now.entering < length pivot.now.standing.now }
    requires leaving { pivot.now.leaving < length pivot.now.standing.now }
    requires new_long { length new.now ≡ length pivot.now.standing.now }
    requires new_spelled { HasSpelled new.now scratch.old.entering }
    requires is_leaving { value_at new.now pivot.now.leaving ≡ pivot.now.inverse }
    requires rows_long { HasRows pivot.now.standing.now rows.now }
    requires out_long { HasRows pivot.now.standing.now out.old }
    requires changed_long { length changed.old ≡ length pivot.now.standing.now }
    ensures written { let n = length pivot.now.standing.now in
        let operations = each n (λ v. form_operations_by pivot.now (value_at new.now) v (row_in rows.now v)) in
        MatchResult result
        (λ _. (first_overflow operations ≡ None)
        × (out.new ≡ table n
        (λ v. written_by pivot.now (value_at new.now) v (row_in rows.now v) (row_in out.old v))))
        (IsMoveFault operations) }
    ensures marked { OnOk result
        (AreMarked pivot.now.standing.now pivot.now.leaving pivot.now.entering rows.now changed.new) }
    ensures long { HasRows pivot.now.standing.now out.new }
    ensures changed_long { length changed.new ≡ length changed.old }
    ensures spelled { HasSpelled new.now scratch.new.entering }
{
    for v in 0..pivot.standing.len() {
        match write_row(pivot, new, v, &rows[v], &mut out[v], scratch) {
            Ok(changes) => changed[v] = changes,
            Err(fault) => return Err(fault),
        }
    }
    Ok(())
}

/// Takes the rows that change, which are marked, from another list, and gives the old ones for them; i leaves, and j
/// enters.
pub(crate) fn take_rows(
    standing: &[Option<Stand>],
    i: u32,
    j: u32,
    changed: &[bool],
    rows: &mut [Form],
    other: &mut [Form],
)
    requires marked { AreMarked standing.now i j rows.old changed.now }
    requires rows_long { HasRows standing.now rows.old }
    requires other_long { HasRows standing.now other.old }
    ensures taken { rows.new ≡ table (length standing.now) (taken_form standing.now i j rows.old other.old) }
    ensures rows_long { HasRows standing.now rows.new }
    ensures other_long { HasRows standing.now other.new }
{
    for v in 0..standing.len() {
        if changed[v] {
            std::mem::swap(&mut rows[v], &mut other[v]);
        }
    }
}
