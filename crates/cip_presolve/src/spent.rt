//! Rows that go with a column that is left out.
ghost use Rattle.std.specs.Prelude.{◌≡◌, None, slice_index_or, IfSome};
ghost use Rattle.std.specs.Bool.{OnTrue};
ghost use Rattle.cip_presolve.specs.SpentRows.{IsSpentBy};

use crate::forms::{ColumnForm, form_in};
use cip_lin::Row;

/// The form by which a column is left out; `None` where it isn't.
pub(crate) fn form_on(forms: &[Option<ColumnForm>], column: usize) -> Option<ColumnForm>
    ensures { result ≡ slice_index_or forms.now column None }
{
    match forms.get(column) {
        Some(form) => *form,
        None => None,
    }
}

/// Whether a column is left out by the form that a row gives it.
fn is_spent_by(forms: &[Option<ColumnForm>], row: &Row, column: u32) -> bool
    ensures { OnTrue result (IsSpentBy forms.now row.now column) }
{
    let Some(own) = form_on(forms, column as usize) else {
        return false;
    };
    match form_in(row, column) {
        Some(form) => form.is_same(&own),
        None => false,
    }
}

/// The column that is left out by the form that a row of two terms gives it; `None` where none is.
pub(crate) fn spent_column(forms: &[Option<ColumnForm>], row: &Row) -> Option<u32>
    ensures { IfSome result (IsSpentBy forms.now row.now) }
{
    match row.terms() {
        [first, second] => {
            if is_spent_by(forms, row, first.col) {
                return Some(first.col);
            }
            if is_spent_by(forms, row, second.col) {
                return Some(second.col);
            }
            None
        }
        _ => None,
    }
}
