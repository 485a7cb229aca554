//! Powers of two by which rows and columns are scaled.
use crate::fixed::order;
use crate::given::Given;
use crate::stops::Stop;
use crate::variables::Variables;
use cip_lin::{Frac, Row};
use std::alloc::Global;

// How often rows and columns are scaled in turn.
const PASSES: u32 = 4;

// The order of magnitude of the greatest cost.
const COST_ORDER: i32 = 8;

/// The least and the greatest order of magnitude of some numbers.
#[derive(Clone, Copy)]
struct Span {
    least: i32,
    most: i32,
}

impl Span {
    /// That of no numbers.
    fn none() -> Span {
        Span {
            least: i32::MAX,
            most: i32::MIN,
        }
    }

    /// With one more.
    fn with(self, order: i32) -> Span {
        Span {
            least: self.least.min(order),
            most: self.most.max(order),
        }
    }

    /// What lies between them; 0 where there are none.
    fn middle(self) -> i32 {
        if self.least > self.most {
            0
        } else {
            self.least.wrapping_add(self.most) / 2
        }
    }
}

/// The power of two of a row whose columns have theirs.
pub(crate) fn row_up(row: &Row, variables: &Variables) -> i32 {
    let mut span = Span::none();
    for term in row.terms() {
        span = span.with(order(term.coef).wrapping_sub(variables.up(term.col as usize)));
    }
    span.middle().wrapping_neg()
}

/// Takes the terms of a row into the spans of their columns.
fn widen(spans: &mut [Span], row: &Row, up: i32) {
    for term in row.terms() {
        if let Some(span) = spans.get_mut(term.col as usize) {
            *span = span.with(order(term.coef).wrapping_add(up));
        }
    }
}

/// Scales the rows, and takes them into the spans of the columns.
fn scale_rows(given: &Given, variables: &mut Variables, spans: &mut [Span]) {
    let columns = given.columns();
    for number in 0..given.rows() {
        if let Some(row) = given.row(number) {
            let up = row_up(row, variables);
            variables.set_up(columns.wrapping_add(number), up);
            widen(spans, row, up);
        }
    }
}

/// The power of two of the costs: the greatest gets a fixed order of magnitude.
pub(crate) fn cost_up(costs: &[Frac], variables: &Variables) -> i32 {
    let mut most = i32::MIN;
    for (column, cost) in costs.iter().enumerate() {
        if !cost.is_zero() {
            most = most.max(order(*cost).wrapping_sub(variables.up(column)));
        }
    }
    if most == i32::MIN {
        0
    } else {
        COST_ORDER.wrapping_sub(most)
    }
}

/// Scales the rows and then the columns, whose spans stand in a list.
fn scale_once(given: &Given, variables: &mut Variables, spans: &mut Vec<Span>) -> Result<(), Stop> {
    spans.clear();
    spans.resize(given.columns(), Span::none())?;
    scale_rows(given, variables, spans.as_mut_slice());
    for (column, span) in spans.iter().enumerate() {
        variables.set_up(column, span.middle());
    }
    Ok(())
}

/// Makes the variables of a linear program, scaled so that the least and the greatest entry of each row and column lie
/// equally far from 1: the columns at their low sides, the rows basic.
pub(crate) fn make_scaled(
    alloc: Global,
    given: &Given,
    variables: &mut Variables,
) -> Result<(), Stop> {
    variables.begin(given.columns(), given.rows())?;
    let mut spans = Vec::new(alloc);
    for _ in 0..PASSES {
        scale_once(given, variables, &mut spans)?;
    }
    Ok(())
}
