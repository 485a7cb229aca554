//! Forms of split cuts: whether they are whole and in order.
ghost use Rattle.std.specs.Prelude.{◌≡◌, suc};
ghost use Rattle.cip_split.specs.SplitChecks.{is_out_of_order, first_out_of_order, first_unknown, first_fractional, form_fault, sign_fault};

use cip_cert::{FormTerm, SplitFormFault, SplitSide};
use cip_frac::Frac;

/// Whether the column of a term is below the next one that may stand, or its coefficient is 0.
fn is_out_of_order(next: u64, term: FormTerm) -> bool
    ensures { result ≡ is_out_of_order next term }
{
    u64::from(term.col) < next || term.coef == 0
}

/// The least column that may stand behind one.
fn column_after(column: u32) -> u64
    ensures { result ≡ suc column }
{
    u64::from(column) + 1
}

/// The place of the first term whose column doesn't rise, or whose coefficient is 0.
fn first_out_of_order(form: &[FormTerm]) -> Option<usize>
    ensures { result ≡ first_out_of_order 0 0 form.now }
{
    let mut next = 0;
    for at in 0..form.len() {
        let term = form[at];
        if is_out_of_order(next, term) {
            return Some(at);
        }
        next = column_after(term.col);
    }
    None
}

/// The first column of a form that isn't one of so many.
fn first_unknown(form: &[FormTerm], columns: usize) -> Option<usize>
    ensures { result ≡ first_unknown columns form.now }
{
    for term in form {
        let column = term.col as usize;
        if column >= columns {
            return Some(column);
        }
    }
    None
}

/// The first column of a form that isn't whole.
fn first_fractional(form: &[FormTerm], whole: &[bool]) -> Option<usize>
    ensures { result ≡ first_fractional whole.now form.now }
{
    for term in form {
        let column = term.col as usize;
        if column >= whole.len() || !whole[column] {
            return Some(column);
        }
    }
    None
}

/// What is wrong with a form on columns with these flags, if anything is.
pub(crate) fn form_fault(form: &[FormTerm], whole: &[bool]) -> Option<SplitFormFault>
    ensures { result ≡ form_fault whole.now form.now }
{
    if let Some(at) = first_out_of_order(form) {
        return Some(SplitFormFault::FormOrder { at });
    }
    if let Some(column) = first_unknown(form, whole.len()) {
        return Some(SplitFormFault::UnknownColumn { column });
    }
    match first_fractional(form, whole) {
        Some(column) => Some(SplitFormFault::NotWhole { column }),
        None => None,
    }
}

/// Which factor is below 0, if one is.
pub(crate) fn sign_fault(left: Frac, right: Frac) -> Option<SplitFormFault>
    ensures { result ≡ sign_fault left right }
{
    let side = if left.is_negative() {
        SplitSide::Left
    } else if right.is_negative() {
        SplitSide::Right
    } else {
        return None;
    };
    Some(SplitFormFault::Negative { side })
}
