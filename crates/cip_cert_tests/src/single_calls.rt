//! The checks on rows worked out by hand.
use crate::asked::Asked;
use crate::draws::fraction;
use cip_cert::{CutFault, FaultPlace, Scratch};
use cip_frac::Frac;
use cip_lin::{Bounds, ColumnMultiple, Row, RowId, RowMultiple, Side, Sides, Term};
use std::alloc::{AllocError, Global};

/// A row over five columns, of which those with a coefficient 0 have no term, its sides, and its factor by numerator
/// and denominator, where it is in the combination.
type Line = ([i64; 5], Option<i64>, Option<i64>, Option<(i64, i64)>);

/// What is asked.
#[derive(Clone, Copy)]
enum Question {
    /// The row, rounded.
    Row,
    Emptiness,
    Bound,
    /// Whether this is a high side of the first column.
    HighSide(i64),
}

/// What is answered.
#[derive(Clone, Copy)]
enum Want {
    /// A number, by numerator and denominator.
    Number(i64, i64),
    Empty,
    NotWhole(usize),
    NoSideOf(usize),
    WrongSignOf(usize),
    /// The sum isn't above 0, but 0.
    NotPositive,
    /// No side is implied that is as strong, but this one.
    NotImplied(i64),
}

/// Five whole columns from 0 to a number, each of cost 1, and rows; the factor of the low side of the first column, if
/// there is one; what is asked, and what is answered.
#[derive(Clone, Copy)]
struct Case {
    top: i64,
    lines: &'static [Line],
    low: Option<i64>,
    question: Question,
    want: Want,
}

/// Half of 2x + 2y at most 3, for x and y from 0 to 1: x + y is at most 1.
const HALF_A_ROW: Case = Case {
    top: 1,
    lines: &[([2, 2, 0, 0, 0], None, Some(3), Some((-1, 2)))],
    low: None,
    question: Question::Row,
    want: Want::Number(-1, 1),
};

const CASES: [Case; 9] = [
    HALF_A_ROW,
    // a third of it has no whole coefficients
    Case {
        lines: &[([2, 2, 0, 0, 0], None, Some(3), Some((-1, 3)))],
        want: Want::NotWhole(0),
        ..HALF_A_ROW
    },
    // it has no low side
    Case {
        lines: &[([2, 2, 0, 0, 0], None, Some(3), Some((1, 2)))],
        want: Want::NoSideOf(0),
        ..HALF_A_ROW
    },
    // a low side has no negative factor
    Case {
        low: Some(-1),
        want: Want::WrongSignOf(1),
        ..HALF_A_ROW
    },
    // x is at least 2 and at most 1
    Case {
        top: 5,
        lines: &[
            ([1, 0, 0, 0, 0], Some(2), None, Some((1, 1))),
            ([1, 0, 0, 0, 0], None, Some(1), Some((-1, 1))),
        ],
        low: None,
        question: Question::Emptiness,
        want: Want::Empty,
    },
    // neither of them is used
    Case {
        top: 5,
        lines: &[
            ([1, 0, 0, 0, 0], Some(2), None, None),
            ([1, 0, 0, 0, 0], None, Some(1), None),
        ],
        low: None,
        question: Question::Emptiness,
        want: Want::NotPositive,
    },
    // half of an equation bounds the cost
    Case {
        top: 1,
        lines: &[([2, 2, 2, 2, 2], Some(5), Some(5), Some((1, 2)))],
        low: None,
        question: Question::Bound,
        want: Want::Number(5, 2),
    },
    // 2a + 3b + c at most 5 implies that a is at most 2
    Case {
        top: 10,
        lines: &[([2, 3, 1, 0, 0], None, Some(5), Some((-1, 1)))],
        low: None,
        question: Question::HighSide(2),
        want: Want::Number(2, 1),
    },
    // and not that it is at most 1
    Case {
        top: 10,
        lines: &[([2, 3, 1, 0, 0], None, Some(5), Some((-1, 1)))],
        low: None,
        question: Question::HighSide(1),
        want: Want::NotImplied(2),
    },
];

/// Appends the terms of a row.
fn is_filled(row: &mut Row, coefficients: &[i64]) -> bool {
    let mut col = 0u32;
    for coefficient in coefficients {
        let coef = Frac::from(*coefficient);
        if !coef.is_zero() && row.append(Term { col, coef }).is_err() {
            return false;
        }
        col = col.wrapping_add(1);
    }
    true
}

/// A side, where there is one.
fn side_of(side: Option<i64>) -> Option<Frac> {
    match side {
        Some(side) => Some(Frac::from(side)),
        None => None,
    }
}

/// The row with these sides and coefficients.
fn row_of(alloc: Global, low: Option<i64>, high: Option<i64>, values: &[i64]) -> Option<Row> {
    let mut row = Row::empty(alloc, side_of(low), side_of(high));
    if is_filled(&mut row, values) {
        Some(row)
    } else {
        drop(row);
        None
    }
}

/// Adds a row of this number, with its factor.
fn is_added(alloc: Global, number: u32, line: &Line, asked: &mut Asked) -> bool {
    match row_of(alloc, line.1, line.2, line.0.as_slice()) {
        Some(row) => asked.own.push(row).is_ok() && is_used(number, line.3, asked),
        None => false,
    }
}

/// Adds at most five rows, with their factors.
fn are_added(alloc: Global, lines: &[Line], asked: &mut Asked) -> bool {
    if lines.len() > 5 {
        return false;
    }
    for at in 0..lines.len() {
        if !is_added(alloc, at as u32, &lines[at], asked) {
            return false;
        }
    }
    true
}

/// Puts a row into the combination, where it has a factor.
fn is_used(number: u32, factor: Option<(i64, i64)>, asked: &mut Asked) -> bool {
    match factor {
        Some((over, under)) => {
            let factor = fraction(over as i128, under as i128);
            let row = RowId::Own(number);
            asked.combo.rows.push(RowMultiple { row, factor }).is_ok()
        }
        None => true,
    }
}

/// Appends five columns from 0 to a number.
pub fn put_columns(bounds: &mut Bounds, high: i64) -> Result<(), AllocError> {
    for _ in 0..5 {
        bounds.push(Sides {
            low: Some(Frac::zero()),
            high: Some(Frac::from(high)),
        })?;
    }
    Ok(())
}

/// Makes five columns whole, and gives each the cost 1.
fn put_costs(asked: &mut Asked) -> Result<(), AllocError> {
    for _ in 0..5 {
        asked.whole.push(true)?;
        asked.costs.push(Frac::one())?;
    }
    Ok(())
}

/// Puts the low side of the first column in, where it has a factor.
fn is_low_used(low: Option<i64>, asked: &mut Asked) -> bool {
    match low {
        Some(factor) => {
            let factor = Frac::from(factor);
            asked
                .combo
                .lows
                .push(ColumnMultiple { col: 0, factor })
                .is_ok()
        }
        None => true,
    }
}

/// Puts a case in, where nothing is yet.
fn is_put(alloc: Global, case: &Case, asked: &mut Asked) -> bool {
    asked.round = true;
    asked.side = Side::High;
    if let Question::HighSide(value) = case.question {
        asked.value = Frac::from(value);
    }
    put_columns(&mut asked.bounds, case.top).is_ok()
        && put_costs(asked).is_ok()
        && are_added(alloc, case.lines, asked)
        && is_low_used(case.low, asked)
}

fn is_number(answer: Option<Result<Frac, CutFault>>, want: Want) -> bool {
    match (answer, want) {
        (Some(Ok(number)), Want::Number(over, under)) => {
            number == fraction(over as i128, under as i128)
        }
        (Some(Err(fault)), _) => is_fault(fault, want),
        _ => false,
    }
}

fn is_empty(answer: Option<Result<(), CutFault>>, want: Want) -> bool {
    match (answer, want) {
        (Some(Ok(())), Want::Empty) => true,
        (Some(Err(fault)), _) => is_fault(fault, want),
        _ => false,
    }
}

fn is_fault(fault: CutFault, want: Want) -> bool {
    match want {
        Want::Number(_, _) => false,
        Want::Empty => false,
        Want::NotWhole(column) => fault == CutFault::NotWhole { column },
        Want::NoSideOf(entry) => {
            let place = FaultPlace::Entry(entry);
            fault == CutFault::NoSide { place }
        }
        Want::WrongSignOf(entry) => fault == CutFault::WrongSign { entry },
        Want::NotPositive => {
            let value = Frac::zero();
            fault == CutFault::NotPositive { value }
        }
        Want::NotImplied(side) => {
            let implied = Some(Frac::from(side));
            fault == CutFault::NotImplied { implied }
        }
    }
}

/// Asks, and compares the answer.
fn is_answered(asked: &Asked, case: &Case, scratch: &mut Scratch) -> bool {
    match case.question {
        Question::Row => is_number(asked.derived(scratch), case.want),
        Question::Emptiness => is_empty(asked.emptied(scratch), case.want),
        Question::Bound => is_number(asked.bounded(scratch), case.want),
        Question::HighSide(_) => is_number(asked.reduced(scratch), case.want),
    }
}

fn is_as(alloc: Global, case: &Case, scratch: &mut Scratch) -> bool {
    match Asked::new(alloc, 5) {
        Ok(mut asked) => {
            let is_so = is_put(alloc, case, &mut asked) && is_answered(&asked, case, scratch);
            drop(asked);
            is_so
        }
        Err(_) => false,
    }
}

/// Half of a row is rounded; its coefficients, -1 on the first two columns, stand in the scratch.
pub fn is_half_a_row(alloc: Global, scratch: &mut Scratch) -> bool {
    let (one, zero) = (Frac::from(-1), Frac::zero());
    is_as(alloc, &HALF_A_ROW, scratch)
        && scratch.row.entries() == [one, one, zero, zero, zero].as_slice()
}

/// The first case that is answered otherwise; their number where there is none.
fn first_wrong(alloc: Global, scratch: &mut Scratch) -> usize {
    let cases = &CASES;
    for at in 0..cases.len() {
        if !is_as(alloc, &cases[at], scratch) {
            return at;
        }
    }
    cases.len()
}

#[test]
fn checks_answer_as_worked_out(rt: HostRuntime) {
    let mut scratch = Scratch::new(rt.alloc(), 5).expect(&rt, "memory");
    let wrong = first_wrong(rt.alloc(), &mut scratch);
    drop(scratch);
    assert_eq!(rt; wrong, 9);
}

#[test]
fn half_a_row_is_rounded(rt: HostRuntime) {
    let mut scratch = Scratch::new(rt.alloc(), 5).expect(&rt, "memory");
    let is_so = is_half_a_row(rt.alloc(), &mut scratch);
    drop(scratch);
    assert!(rt; is_so);
}
