//! Linear rows: sums of products by rising column, between two sides.
ghost use Rattle.std.specs.Prelude.{◌≡◌, ◌++◌, ◌∷◌, [], length, MatchOption, MatchResult, IfOk};
ghost use Rattle.cip_frac.specs.Rational.{zeroℚ};
ghost use Rattle.cip_problem.specs.Activity.{StandsBelow, activity};
ghost use Rattle.cip_problem.specs.RowTerms.{AreTerms, no_term};
ghost use Rattle.cip_lin.specs.RowFaults.{CanStandAfter, IsAppendFault, IsBuildFault};
ghost use Rattle.cip_lin.specs.RowSums.{activity_from};

use cip_frac::{Frac, Wide};
use smallvec::SmallVec;
use std::alloc::{AllocError, Global};
use std::marker::Model;

/// One product of a linear sum: a column and the coefficient that stands on it.
#[derive(Clone, Copy, PartialEq, Eq)]
pub struct Term {
    /// The number of the column, from 0.
    pub col: u32,
    /// The coefficient; in a row it is not 0.
    pub coef: Frac,
}

impl Model for Term {
    ghost use Rattle.cip_problem.specs.Program as problem;
    ghost use Rattle.cip_problem.specs.Codes.{term_code};

    ghost Value = { problem.Term };

    ghost coded = { term_code };

    ghost view = { λ t. record { column = t.col; coefficient = t.coef } };

    ghost inverse = { λ t. record { col = t.column; coef = t.coefficient } };
}

/// The term of column 0 with the coefficient 0, which stands in no row.
impl Default for Term {
    ghost is_default = { λ term. term ≡ no_term };

    fn default() -> Term {
        Term {
            col: 0,
            coef: Frac::zero(),
        }
    }
}

/// Why a row or a term was refused. `at` is the place of the term in the row, from 0.
#[derive(Clone, Copy, PartialEq, Eq)]
pub enum RowFault {
    /// The column of the term is not above that of the term before it.
    NotRising { at: usize },
    /// The coefficient of the term is 0.
    ZeroTerm { at: usize },
    /// A growth was refused.
    NoMemory,
}

/// A row: its terms by rising column, none with the coefficient 0, and its two sides.
#[derive(Drop)]
pub struct Row {
    terms: SmallVec<Term, 4>,
    low: Option<Frac>,
    high: Option<Frac>,
}

/// The sum of the terms' products at a point, in their order, or the first operation that overflows.
fn sum_of_products(terms: &[Term], point: &[Frac]) -> Result<Frac, Wide>
    requires { StandsBelow (length point.now) terms.now }
    ensures steps { result ≡ activity_from zeroℚ terms.now point.now }
{
    let mut sum = Frac::zero();
    for term in terms {
        let value = &point[term.col as usize];
        if !sum.add_product(&term.coef, value) {
            return sum.plus_product(term.coef, *value);
        }
    }
    Ok(sum)
}

/// Why a term can't stand after these; none where it can.
fn refusal(terms: &[Term], term: Term) -> Option<RowFault>
    ensures { MatchOption result (CanStandAfter terms.now term) (IsAppendFault terms.now term) }
{
    let at = terms.len();
    if let Some(last) = terms.last() {
        if term.col <= last.col {
            return Some(RowFault::NotRising { at });
        }
    }
    if term.coef.is_zero() {
        Some(RowFault::ZeroTerm { at })
    } else {
        None
    }
}

impl Model for Row {
    ghost use Rattle.cip_problem.specs.Program as problem;
    ghost use Rattle.cip_problem.specs.RowTerms.{AreTerms};
    ghost use Rattle.cip_problem.specs.Codes.{row_code};

    ghost Value = { problem.Row };

    ghost coded = { row_code };

    ghost view = { λ r. record { terms = r.terms.items; low = r.low; high = r.high } };

    ghost invariant = { λ r. AreTerms r.terms.items };
}

impl Row {
    /// A row without terms between two sides, `None` for an open one.
    pub fn empty(alloc: Global, low: Option<Frac>, high: Option<Frac>) -> Row
        ensures { result ≡ record { terms = []; low = low; high = high } }
    {
        Row {
            terms: SmallVec::new(alloc),
            low,
            high,
        }
    }

    /// A row without terms between two sides, `None` for an open one, with room for so many terms. `Err` comes where
    /// the growth was refused.
    pub fn with_room(
        alloc: Global,
        low: Option<Frac>,
        high: Option<Frac>,
        count: usize,
    ) -> Result<Row, AllocError>
        ensures { IfOk result (λ row. row ≡ record { terms = []; low = low; high = high }) }
    {
        let terms = SmallVec::with_capacity(alloc, count)?;
        Ok(Row { terms, low, high })
    }

    /// The row of these terms between two sides, `None` for an open one. `NotRising` and `ZeroTerm`
    /// name the first term that cannot stand in a row, the former where both hold; `NoMemory` comes
    /// where a growth was refused before it.
    pub fn build(
        alloc: Global,
        terms: &[Term],
        low: Option<Frac>,
        high: Option<Frac>,
    ) -> Result<Row, RowFault>
        ensures { MatchResult result
            (λ row. (row ≡ record { terms = terms.now; low = low; high = high }) × AreTerms terms.now)
            (IsBuildFault terms.now) }
    {
        let mut row = Row::empty(alloc, low, high);
        for term in terms {
            match row.append(*term) {
                Ok(()) => (),
                Err(fault) => {
                    drop(row);
                    return Err(fault);
                }
            }
        }
        Ok(row)
    }

    /// Puts a term at the end. `NotRising` comes exactly where its column is not above that of the
    /// last term, `ZeroTerm` where it is and the coefficient is 0, `at` being the number of terms;
    /// `NoMemory` only where the term could stand there. After an `Err` the row is as before.
    pub fn append(&mut self, term: Term) -> Result<(), RowFault>
        ensures { MatchResult result
            (λ _. (self.new ≡ record self.old { terms = self.old.terms ++ term ∷ [] })
            × CanStandAfter self.old.terms term)
            (λ fault. (self.new ≡ self.old) × IsAppendFault self.old.terms term fault) }
    {
        match refusal(self.terms.as_slice(), term) {
            Some(fault) => Err(fault),
            None => match self.terms.push(term) {
                Ok(()) => Ok(()),
                Err(_) => Err(RowFault::NoMemory),
            },
        }
    }

    /// Sets the high side, `None` for an open one.
    pub fn set_high(&mut self, high: Option<Frac>)
        ensures { self.new ≡ record self.old { high = high } }
    {
        self.high = high;
    }

    /// The terms, by rising column.
    pub fn terms(&self) -> &[Term]
        ensures terms { result.now ≡ self.now.terms }
        ensures valid { AreTerms self.now.terms }
    {
        self.terms.as_slice()
    }

    /// The low side, `None` where it is open.
    pub fn low(&self) -> Option<Frac>
        ensures { result ≡ self.now.low }
    {
        self.low
    }

    /// The high side, `None` where it is open.
    pub fn high(&self) -> Option<Frac>
        ensures { result ≡ self.now.high }
    {
        self.high
    }

    /// The sum of the row's products at a point, by rising column. `Wide` comes exactly where an
    /// operation of it overflows, and names the first. The point has a value for each column of the
    /// row.
    pub fn activity(&self, point: &[Frac]) -> Result<Frac, Wide>
        requires { StandsBelow (length point.now) self.now.terms }
        ensures steps { result ≡ activity_from zeroℚ self.now.terms point.now }
        ensures value { IfOk result (λ sum. sum ≡ activity self.now.terms point.now) }
    {
        sum_of_products(self.terms.as_slice(), point)
    }
}
