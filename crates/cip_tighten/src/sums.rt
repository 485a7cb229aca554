//! Rows that stand at a side, made whole and added up.
use crate::numbers::{product, raised};
use crate::stops::Stop;
use cip_frac::Frac;
use cip_lin::{RowId, Term};
use std::alloc::Global;
use std::mem;

/// Whole coefficients by rising column.
pub type Terms = Vec<(u32, i64)>;

// The most columns of a sum, so that no combination is too long.
const MOST_TERMS: usize = 2_000;

/// At which of its sides a row stands.
#[derive(Clone, Copy, PartialEq, Eq)]
pub enum Standing {
    /// At none.
    Between,
    /// At its low side.
    Low,
    /// At its high side.
    High,
    /// At both, which are the same.
    Both,
}

/// A row that stands at a side, with the least number that makes its coefficients whole.
#[derive(Clone, Copy)]
pub struct TightRow<'a> {
    /// Its name.
    pub id: RowId,
    /// Its terms.
    pub terms: &'a [Term],
    /// The side at which it stands.
    pub standing: Standing,
    /// What that side is.
    pub side: Frac,
    /// The number that makes it whole, from 1 to 2^40.
    pub common: i64,
}

/// A row of a sum: how often it was taken after it was made whole.
#[derive(Clone, Copy)]
pub struct Used {
    /// Its name.
    pub id: RowId,
    /// The side at which it stands.
    pub standing: Standing,
    /// The number that makes it whole.
    pub common: i64,
    /// How often it was taken behind that, of a size of at most 2^40.
    pub times: i64,
}

impl Used {
    /// Whether the row, taken so often, is at most its side times that.
    pub fn fits(&self) -> bool {
        match self.standing {
            Standing::Low => self.times < 0,
            Standing::High => self.times > 0,
            _ => true,
        }
    }

    /// How often the row itself was taken; none where that is above 2^40 in size.
    pub fn factor(&self) -> Option<i64> {
        product(self.times, self.common)
    }
}

/// A row that is added so often, after it was made whole.
#[derive(Clone, Copy)]
pub struct Multiple<'a> {
    /// Its terms.
    pub terms: &'a [Term],
    /// The number that makes it whole.
    pub common: i64,
    /// How often it is added.
    pub times: i64,
}

/// Writes a row times a factor with a multiple of another one added, without coefficients of 0. `GaveUp` where a number
/// is above 2^40 in size, `NoMemory` where memory was refused; a front part is written then.
pub fn write_sum(
    own: &[(u32, i64)],
    factor: i64,
    multiple: Multiple<'_>,
    out: &mut Terms,
) -> Result<(), Stop> {
    out.clear();
    let mut here = 0usize;
    let mut there = 0usize;
    for _ in 0..own.len().saturating_add(multiple.terms.len()) {
        let (mine, other) = (own.get(here), multiple.terms.get(there));
        let col = match (mine, other) {
            (Some(item), Some(term)) => item.0.min(term.col),
            (Some(item), None) => item.0,
            (None, Some(term)) => term.col,
            (None, None) => return Ok(()),
        };
        let mut value = 0i64;
        if let Some(item) = mine {
            if item.0 == col {
                let Some(scaled) = product(item.1, factor) else {
                    return Err(Stop::GaveUp);
                };
                value = scaled;
                here = here.wrapping_add(1);
            }
        }
        if let Some(term) = other {
            if term.col == col {
                let Some(whole) = raised(term.coef, multiple.common) else {
                    return Err(Stop::GaveUp);
                };
                let Some(more) = product(whole, multiple.times) else {
                    return Err(Stop::GaveUp);
                };
                value = value.wrapping_add(more);
                there = there.wrapping_add(1);
            }
        }
        if value != 0 {
            out.push((col, value))?;
        }
    }
    Ok(())
}

/// A sum of rows, each at a side: its coefficients are whole, and it is at most the right side where each of its rows
/// fits.
#[derive(Drop)]
pub struct Sum {
    /// Its rows.
    pub used: Vec<Used>,
    /// Its coefficients.
    pub terms: Terms,
    /// What it is at most.
    pub right: Frac,
    spare: Terms,
}

impl Sum {
    /// No row.
    pub fn new(alloc: Global) -> Sum {
        Sum {
            used: Vec::new(alloc),
            terms: Vec::new(alloc),
            right: Frac::zero(),
            spare: Vec::new(alloc),
        }
    }

    /// A row alone. Errors come as of `add`.
    pub fn begin(&mut self, row: &TightRow<'_>) -> Result<(), Stop> {
        self.used.clear();
        self.terms.clear();
        self.right = Frac::zero();
        self.add(1, row, 1)
    }

    /// A row alone, with the sign by which it is at most the right side. Errors come as of `add`.
    pub fn begin_at_most(&mut self, row: &TightRow<'_>) -> Result<(), Stop> {
        self.begin(row)?;
        if row.standing == Standing::Low {
            self.turn();
        }
        Ok(())
    }

    /// The sum so often, and a row so often. `GaveUp` where a number leaves its range, or there are more than 2,000
    /// columns; `NoMemory` where memory was refused. It is of use again once it begins with a row.
    pub fn add(&mut self, own: i64, row: &TightRow<'_>, times: i64) -> Result<(), Stop> {
        let multiple = Multiple {
            terms: row.terms,
            common: row.common,
            times,
        };
        write_sum(self.terms.as_slice(), own, multiple, &mut self.spare)?;
        mem::swap(&mut self.terms, &mut self.spare);
        let mut right = Frac::zero();
        let mut is_kept = match product(times, row.common) {
            Some(factor) => {
                self.terms.len() <= MOST_TERMS
                    && right.add_product(&self.right, &Frac::from(own))
                    && right.add_product(&row.side, &Frac::from(factor))
            }
            None => false,
        };
        self.right = right;
        for used in self.used.iter_mut() {
            let scaled = product(used.times, own);
            is_kept &= scaled.is_some();
            used.times = scaled.unwrap_or(0);
        }
        if !is_kept {
            return Err(Stop::GaveUp);
        }
        self.used.push(Used {
            id: row.id,
            standing: row.standing,
            common: row.common,
            times,
        })?;
        Ok(())
    }

    /// The sum with the other sign.
    pub fn turn(&mut self) {
        for used in self.used.iter_mut() {
            used.times = used.times.wrapping_neg();
        }
        for term in self.terms.iter_mut() {
            term.1 = term.1.wrapping_neg();
        }
        self.right = self.right.neg();
    }

    /// Whether a row is one of its rows.
    pub fn uses(&self, id: RowId) -> bool {
        for used in self.used.as_slice() {
            if used.id == id {
                return true;
            }
        }
        false
    }

    /// The coefficient of a column; 0 where it has none.
    pub fn coefficient(&self, col: u32) -> i64 {
        for term in &self.terms {
            if term.0 == col {
                return term.1;
            }
        }
        0
    }
}
