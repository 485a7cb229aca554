//! The form in hand: the numbers of its columns.
ghost use Rattle.std.specs.Prelude.{◌≡◌, ◌<◌, ◌++◌, ◌∷◌, [], ℕ, nat_lt, true, Some, slice_get, vec_len, vec_capacity, OnOk, IfOk};
ghost use Rattle.std.specs.List.{list_all};
ghost use Rattle.cip_text_rules.specs.LpFacts as facts;
ghost use Rattle.cip_text_rules.specs.LpSound.{form_rises};
ghost use Rattle.cip_lp.specs.LpForms.{form_of};

use crate::{Amount, is_zero};
use cip_frac::Frac;
use cip_lin::{Row, RowFault, Term};
use std::alloc::{AllocError, Global};
use std::marker::Model;

/// The number of a column in a form.
#[derive(Clone, Copy)]
pub(crate) struct FormTerm {
    pub(crate) column: u32,
    pub(crate) value: Frac,
}

impl Model for FormTerm {
    ghost use Rattle.cip_text_rules.specs.LpFacts as facts;
    ghost use Rattle.cip_lp.specs.LpForms.{term_code, term_shown};

    ghost Value = { facts.FormTerm };

    ghost coded = { term_code };

    ghost view = { λ t. term_shown t.column t.value };

    ghost inverse = { λ t. record { column = t.column; value = t.value } };
}

impl FormTerm {
    ghost use Rattle.std.specs.Prelude.{◌≡◌};
    ghost use Rattle.cip_text_rules.specs.LpFacts as facts;

    /// The number of a column.
    pub(crate) fn of(column: u32, amount: &Amount) -> FormTerm
        ensures { result ≡ facts.form_term column amount.now }
    {
        FormTerm {
            column,
            value: amount.value,
        }
    }
}

/// A form: numbers of columns, kept in the order in which they came. Contracts see them by rising column.
#[derive(Drop)]
pub(crate) struct Form {
    pub(crate) terms: Vec<FormTerm>,
    /// By column, where its number stands among the terms. Of a column that has none it says nothing.
    pub(crate) places: Vec<usize>,
}

impl Model for Form {
    ghost use Rattle.std.specs.Prelude.{List};
    ghost use Rattle.std.specs.Coded.{coded_list};
    ghost use Rattle.cip_text_rules.specs.LpFacts as facts;
    ghost use Rattle.cip_lp.specs.LpForms.{term_code, form_of, ArePlaced};

    ghost Value = { List facts.FormTerm };

    ghost coded = { coded_list term_code };

    ghost view = { λ f. form_of f.terms.items };

    ghost invariant = { λ f. ArePlaced f.terms.items f.places.items };
}

/// Makes room for one number more, and for the place of its column; the numbers and what was told of other columns
/// stay.
fn make_room(
    terms: &mut Vec<FormTerm>,
    places: &mut Vec<usize>,
    column: u32,
) -> Result<(), AllocError>
    ensures terms { terms.new.items ≡ terms.old.items }
    ensures len { vec_len terms.new ≡ vec_len terms.old }
    ensures term_room { OnOk result (vec_len terms.new < vec_capacity terms.new) }
    ensures kept { (other place : ℕ) → slice_get places.old.items other ≡ Some place
        → slice_get places.new.items other ≡ Some place }
    ensures room { OnOk result (column < vec_len places.new) }
{
    terms.reserve(1)?;
    let count = column as usize + 1;
    if count <= places.len() {
        return Ok(());
    }
    places.resize(count, 0)
}

impl Form {
    ghost use Rattle.std.specs.Prelude.{◌≡◌, [], true, OnOk, OnErr, IfOk};
    ghost use Rattle.cip_text_rules.specs.LpFacts as facts;
    ghost use Rattle.cip_text_rules.specs.LpSound.{form_rises};

    /// No number yet.
    pub(crate) fn new(alloc: Global) -> Form
        ensures { result ≡ [] }
    {
        Form {
            terms: Vec::new(alloc),
            places: Vec::new(alloc),
        }
    }

    /// Whether a column has a number, by two looks whatever the length of the form.
    pub(crate) fn has(&self, column: u32) -> bool
        ensures { result ≡ facts.has_term self.now column }
    {
        match self.places.as_slice().get(column as usize) {
            None => false,
            Some(place) => match self.terms.as_slice().get(*place) {
                None => false,
                Some(term) => term.column == column,
            },
        }
    }

    /// Puts a number where its column belongs. `Err` comes where a growth was refused, and changes nothing.
    pub(crate) fn put(&mut self, term: FormTerm) -> Result<(), AllocError>
        ensures ok { OnOk result (self.new ≡ facts.form_with term self.old) }
        ensures err { OnErr result (self.new ≡ self.old) }
    {
        make_room(&mut self.terms, &mut self.places, term.column)?;
        self.places[term.column as usize] = self.terms.len();
        self.terms.push_reserved(term);
        Ok(())
    }

    /// Takes all numbers away.
    pub(crate) fn clear(&mut self)
        ensures { self.new ≡ [] }
    {
        self.terms.clear();
    }

    /// The row of the form between two sides; no number is left. `Err` comes where a growth was refused.
    pub(crate) fn take_row(
        &mut self,
        alloc: Global,
        low: Option<Frac>,
        high: Option<Frac>,
    ) -> Result<Row, AllocError>
        requires { form_rises self.old ≡ true }
        ensures row { IfOk result (λ row. row ≡ record { terms = facts.terms_of self.old; low = low; high = high }) }
        ensures left { self.new ≡ [] }
    {
        self.terms.sort_unstable_by_key(|term| term.column);
        let row = row_of(alloc, self.terms.as_slice(), low, high);
        self.terms.clear();
        row
    }
}

/// Puts the number of a form behind the terms of a row; 0 is no term. `Err` comes where a growth was refused.
fn append(row: &mut Row, number: FormTerm) -> Result<(), AllocError>
    requires { list_all (λ term. nat_lt term.column number.column) row.old.terms ≡ true }
    ensures { OnOk result (row.new ≡ record row.old { terms = row.old.terms ++ facts.terms_of (number ∷ []) }) }
{
    if is_zero(number.value) {
        return Ok(());
    }
    let term = Term {
        col: number.column,
        coef: number.value,
    };
    match row.append(term) {
        Ok(()) => Ok(()),
        Err(RowFault::NoMemory) => Err(AllocError),
        Err(RowFault::NotRising { .. }) => unreachable!(),
        Err(RowFault::ZeroTerm { .. }) => unreachable!(),
    }
}

/// The row of a form between two sides.
fn row_of(
    alloc: Global,
    form: &[FormTerm],
    low: Option<Frac>,
    high: Option<Frac>,
) -> Result<Row, AllocError>
    requires { form_rises form.now ≡ true }
    ensures { IfOk result (λ row. row ≡ record { terms = facts.terms_of form.now; low = low; high = high }) }
{
    let mut row = Row::empty(alloc, low, high);
    for number in form {
        append(&mut row, *number)?;
    }
    Ok(row)
}
