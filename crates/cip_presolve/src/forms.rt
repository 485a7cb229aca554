//! The value of a column of an equality of two terms as a form of the other one's.
ghost use Rattle.std.specs.Prelude.{◌≡◌, ◌<◌, length, IfSome};
ghost use Rattle.std.specs.Bool.{OnTrue};
ghost use Rattle.cip_rational.specs.Rational.{zeroℚ};
ghost use Rattle.cip_presolve.specs.Equalities.{equality_form};
ghost use Rattle.cip_presolve.specs.ColumnForms.{GivesForm, RowGives, IsSubstitute};

use crate::drafts::Draft;
use crate::fixed_columns::only_value;
use cip_frac::Frac;
use cip_lin::{Row, Sides, Term};
use std::marker::Model;

/// A value as an affine form of that of one column: a constant, and a factor times the value of that column.
#[derive(Clone, Copy)]
pub struct ColumnForm {
    /// What is added.
    pub constant: Frac,
    /// What the value of the source is multiplied by.
    pub factor: Frac,
    /// The number of the column that the value follows from, from 0.
    pub source: u32,
}

impl Model for ColumnForm {
    ghost use Rattle.cip_presolve.specs.Forms.{Form};
    ghost use Rattle.cip_presolve.specs.ColumnForms.{form_code};

    ghost Value = { Form };

    ghost coded = { form_code };

    ghost view = { λ f. record { constant = f.constant; factor = f.factor; source = f.source } };

    ghost inverse = { λ f. record { constant = f.constant; factor = f.factor; source = f.source } };
}

impl ColumnForm {
    /// Whether two forms are the same.
    #[tactic(auto, using(crate::proofs::FormsOfRows::same_forms))]
    pub fn is_same(&self, other: &ColumnForm) -> bool
        ensures { OnTrue result (self.now ≡ other.now) }
    {
        self.constant == other.constant
            && self.factor == other.factor
            && self.source == other.source
    }
}

/// The value of the column of the first of two terms by that of the second one's, where both come to a value; `None`
/// where a number of the form isn't in range.
fn form_of(own: Term, other: Term, value: Frac) -> Option<ColumnForm>
    requires { ¬ (own.coefficient ≡ zeroℚ) }
    ensures { IfSome result (λ form. form ≡ equality_form own.coefficient other.coefficient value other.column) }
{
    let Ok(constant) = value.div(own.coef) else {
        return None;
    };
    let Ok(factor) = other.coef.neg().div(own.coef) else {
        return None;
    };
    Some(ColumnForm {
        constant,
        factor,
        source: other.col,
    })
}

/// The form that the value of a column has where a row holds, an equality of two terms, one of them on the column;
/// `None` for other rows, and where a number of the form isn't in range.
#[tactic(auto, using(crate::proofs::FormsOfRows::forms_given))]
pub fn form_in(row: &Row, column: u32) -> Option<ColumnForm>
    ensures { IfSome result (GivesForm row.now column) }
{
    let sides = Sides {
        low: row.low(),
        high: row.high(),
    };
    let Some(value) = only_value(sides) else {
        return None;
    };
    match row.terms() {
        [first, second] => {
            if first.col == column {
                return form_of(*first, *second, value);
            }
            if second.col == column {
                return form_of(*second, *first, value);
            }
            None
        }
        _ => None,
    }
}

/// The form that a row of a program in work gives the value of a column, as `form_in` has it.
#[tactic(auto, using(crate::proofs::FormsOfRows::row_gives))]
pub fn form_at(draft: &Draft, place: usize, column: u32) -> Option<ColumnForm>
    requires { place < length draft.now.rows }
    ensures { IfSome result (RowGives draft.now place column) }
{
    form_in(draft.row(place), column)
}

/// Whether a column and the source of its form are two columns of the program, neither of them semi-continuous.
pub fn is_substitute(draft: &Draft, column: u32, form: &ColumnForm) -> bool
    ensures { OnTrue result (IsSubstitute draft.now column form.now) }
{
    let columns = draft.bounds().len();
    let source = form.source;
    if column as usize >= columns || source as usize >= columns || column == source {
        return false;
    }
    !draft.is_semi(column) && !draft.is_semi(source)
}
