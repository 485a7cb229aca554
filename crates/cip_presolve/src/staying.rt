//! Columns stay that a form or a row needs.
ghost use Rattle.std.specs.Prelude.{◌<◌, length, All, Some};
ghost use Rattle.cip_problem.specs.Activity.{StandsBelow};
ghost use Rattle.cip_presolve.specs.ColumnsOut.{IsIn, SourceStays, SourcesStay, GoFewer};
ghost use Rattle.cip_presolve.specs.SpentRows.{TermsInBut};
ghost use Rattle.cip_presolve.specs.KeptRows.{RowsKept};

use crate::forms::ColumnForm;
use crate::spent::{form_on, spent_column};
use cip_lin::{Row, Term};

/// A column stays.
#[tactic(auto, using(crate::proofs::StayingColumns::staying))]
fn keep_column(forms: &mut Vec<Option<ColumnForm>>, column: usize)
    requires { column < length forms.old.items }
    ensures fewer { GoFewer forms.old.items forms.new.items }
    ensures stays { IsIn forms.new.items column }
{
    forms[column] = None;
}

/// The source of a column's form stays, where the column is left out by one; the column stays where the source is none
/// of the columns.
#[tactic(auto, using(crate::proofs::StayingColumns::one_source))]
fn keep_source(forms: &mut Vec<Option<ColumnForm>>, column: usize)
    requires { column < length forms.old.items }
    ensures fewer { GoFewer forms.old.items forms.new.items }
    ensures source { SourceStays forms.new.items column }
{
    let Some(form) = form_on(forms.as_slice(), column) else {
        return;
    };
    if form.factor.is_zero() {
        return;
    }
    let source = form.source as usize;
    if source < forms.len() {
        keep_column(forms, source);
    } else {
        keep_column(forms, column);
    }
}

/// The sources of all forms stay.
#[tactic(auto, using(crate::proofs::StayingColumns::all_sources))]
pub(crate) fn keep_sources(forms: &mut Vec<Option<ColumnForm>>)
    ensures fewer { GoFewer forms.old.items forms.new.items }
    ensures sources { SourcesStay forms.new.items }
{
    for column in 0..forms.len() {
        keep_source(forms, column);
    }
}

/// The columns of a row stay, but for the one that needn't.
#[tactic(auto, using(crate::proofs::StayingColumns::term_stays))]
fn keep_terms(forms: &mut Vec<Option<ColumnForm>>, terms: &[Term], but: Option<u32>)
    requires { StandsBelow (length forms.old.items) terms.now }
    ensures fewer { GoFewer forms.old.items forms.new.items }
    ensures terms { TermsInBut forms.new.items but terms.now }
{
    for term in terms {
        if but == Some(term.col) {
            continue;
        }
        keep_column(forms, term.col as usize);
    }
}

/// The columns of each row stay, but for those that are left out by the form that the row gives them.
#[tactic(auto, using(crate::proofs::StayingColumns::row_stays))]
pub(crate) fn keep_rows(forms: &mut Vec<Option<ColumnForm>>, rows: &[Row])
    requires { All (λ row. StandsBelow (length forms.old.items) row.terms) rows.now }
    ensures fewer { GoFewer forms.old.items forms.new.items }
    ensures rows { RowsKept forms.new.items rows.now }
{
    for row in rows {
        let but = spent_column(forms.as_slice(), row);
        keep_terms(forms, row.terms(), but);
    }
}
