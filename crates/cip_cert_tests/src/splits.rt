//! Split cuts on rows worked out by hand.
use crate::asked::Asked;
use crate::draws::fraction;
use cip_cert::{CutFault, FaultPlace, FormTerm, Scratch, SplitCut, SplitFormFault, SplitSide};
use cip_frac::Frac;
use cip_lin::{ColumnMultiple, Combo, Row, RowId, RowMultiple, Sides, Term};
use std::alloc::Global;

/// A split cut over x, whole from 0 to 3, and y, at least 0, of which x + y is at least 1/2: its form and the number
/// that splits it; the factor of the row, if it is used, and of the form on the left; those of the low side of y and of
/// the form on the right; and what is answered.
#[derive(Clone, Copy)]
struct Case {
    form: &'static [(u32, i128)],
    k: i128,
    left: Option<i64>,
    left_factor: i64,
    right: i64,
    right_factor: i64,
    want: Result<i64, SplitFormFault>,
}

/// Twice the row less x at most 0, and twice the low side of y with x at least 1: both are x + 2y at least 1.
const ROUNDED: Case = Case {
    form: &[(0, 1)],
    k: 0,
    left: Some(2),
    left_factor: 1,
    right: 2,
    right_factor: 1,
    want: Ok(1),
};

const CASES: [Case; 14] = [
    ROUNDED,
    // where x is at most 0 isn't used
    Case {
        left_factor: 0,
        want: Err(SplitFormFault::Differs { column: 0 }),
        ..ROUNDED
    },
    // y isn't whole
    Case {
        form: &[(1, 1)],
        want: Err(SplitFormFault::NotWhole { column: 1 }),
        ..ROUNDED
    },
    // the lesser right side counts: where x is at most 1 the row says less
    Case {
        k: 1,
        want: Ok(0),
        ..ROUNDED
    },
    Case {
        form: &[(0, 0)],
        want: Err(SplitFormFault::FormOrder { at: 0 }),
        ..ROUNDED
    },
    Case {
        form: &[(0, 1), (0, 1)],
        want: Err(SplitFormFault::FormOrder { at: 1 }),
        ..ROUNDED
    },
    // the order comes first, and then the columns that aren't there
    Case {
        form: &[(1, 1), (2, 1)],
        want: Err(SplitFormFault::UnknownColumn { column: 2 }),
        ..ROUNDED
    },
    Case {
        left_factor: -1,
        right_factor: -1,
        want: Err(SplitFormFault::Negative {
            side: SplitSide::Left,
        }),
        ..ROUNDED
    },
    Case {
        right_factor: -1,
        want: Err(SplitFormFault::Negative {
            side: SplitSide::Right,
        }),
        ..ROUNDED
    },
    // there is no number above the greatest
    Case {
        k: i128::MAX,
        left: Some(-2),
        want: Err(SplitFormFault::FormWide),
        ..ROUNDED
    },
    // the row has no high side, which comes before the least number
    Case {
        k: i128::MIN,
        left: Some(-2),
        want: Err(SplitFormFault::Left(CutFault::NoSide {
            place: FaultPlace::Entry(0),
        })),
        ..ROUNDED
    },
    // the sums of the left come before the right
    Case {
        k: i128::MIN,
        right: -1,
        want: Err(SplitFormFault::FormWide),
        ..ROUNDED
    },
    Case {
        right: -1,
        want: Err(SplitFormFault::Right(CutFault::WrongSign { entry: 0 })),
        ..ROUNDED
    },
    // the rows differ on a column that the form doesn't have
    Case {
        right: 3,
        want: Err(SplitFormFault::Differs { column: 1 }),
        ..ROUNDED
    },
];

/// A combination of nothing.
pub fn no_combo(alloc: Global) -> Combo {
    Combo {
        rows: Vec::new(alloc),
        lows: Vec::new(alloc),
        highs: Vec::new(alloc),
    }
}

/// A split cut of nothing, with these factors.
pub fn no_cut(alloc: Global, k: i128, left_factor: Frac, right_factor: Frac) -> SplitCut {
    SplitCut {
        form: Vec::new(alloc),
        k,
        left: no_combo(alloc),
        left_factor,
        right: no_combo(alloc),
        right_factor,
    }
}

/// Whether there is memory for these terms of a form.
fn is_form_put(terms: &[(u32, i128)], form: &mut Vec<FormTerm>) -> bool {
    for at in 0..terms.len() {
        let (col, coef) = terms[at];
        if form.push(FormTerm { col, coef }).is_err() {
            return false;
        }
    }
    true
}

/// Whether there is memory for the row with its factor, if it is used.
fn is_row_put(left: Option<i64>, rows: &mut Vec<RowMultiple>) -> bool {
    let Some(number) = left else {
        return true;
    };
    let row = RowId::Own(0);
    let factor = Frac::from(number);
    rows.push(RowMultiple { row, factor }).is_ok()
}

/// Puts the form, the row and the low side of y into a cut of nothing.
fn is_cut_filled(case: &Case, cut: &mut SplitCut) -> bool {
    let col = 1;
    let factor = Frac::from(case.right);
    is_form_put(case.form, &mut cut.form)
        && is_row_put(case.left, &mut cut.left.rows)
        && cut.right.lows.push(ColumnMultiple { col, factor }).is_ok()
}

/// Appends x + y to a row.
fn is_row_filled(row: &mut Row) -> bool {
    let coef = Frac::one();
    row.append(Term { col: 0, coef }).is_ok() && row.append(Term { col: 1, coef }).is_ok()
}

/// Puts the sides of a column in, and whether it is whole.
fn is_column_put(asked: &mut Asked, high: Option<Frac>, whole: bool) -> bool {
    let low = Some(Frac::zero());
    asked.bounds.push(Sides { low, high }).is_ok() && asked.whole.push(whole).is_ok()
}

/// Puts the columns in, where nothing is yet.
fn are_columns_put(asked: &mut Asked) -> bool {
    is_column_put(asked, Some(Frac::from(3)), true) && is_column_put(asked, None, false)
}

/// Fills the last of these rows.
fn is_last_filled(rows: &mut [Row]) -> bool {
    match rows.last_mut() {
        Some(row) => is_row_filled(row),
        None => false,
    }
}

fn is_asked_filled(alloc: Global, asked: &mut Asked) -> bool {
    are_columns_put(asked)
        && asked
            .own
            .push(Row::empty(alloc, Some(fraction(1, 2)), None))
            .is_ok()
        && is_last_filled(asked.own.as_mut_slice())
}

/// The answer to a cut is this one.
fn is_wanted(answer: Result<Frac, SplitFormFault>, want: Result<i64, SplitFormFault>) -> bool {
    match (answer, want) {
        (Ok(least), Ok(number)) => least == Frac::from(number),
        (Err(fault), Err(other)) => fault == other,
        _ => false,
    }
}

/// Asks a case, and compares the answer.
fn is_as(asked: &Asked, case: &Case, cut: &mut SplitCut, room: &mut SplitRoom) -> bool {
    if !is_cut_filled(case, cut) {
        return false;
    }
    match asked.split(cut, room) {
        Some(answer) => is_wanted(answer, case.want),
        None => false,
    }
}

fn is_case(alloc: Global, asked: &Asked, case: &Case, room: &mut SplitRoom) -> bool {
    let left_factor = Frac::from(case.left_factor);
    let right_factor = Frac::from(case.right_factor);
    let mut cut = no_cut(alloc, case.k, left_factor, right_factor);
    let is_so = is_as(asked, case, &mut cut, room);
    drop(cut);
    is_so
}

/// The first of some cases that is answered otherwise; their number where there is none.
fn first_wrong(alloc: Global, cases: &[Case], asked: &Asked, room: &mut SplitRoom) -> usize {
    for at in 0..cases.len() {
        if !is_case(alloc, asked, &cases[at], room) {
            return at;
        }
    }
    cases.len()
}

/// The two scratches in which split cuts are checked.
#[derive(Drop)]
pub struct SplitRoom {
    pub first: Scratch,
    pub second: Scratch,
}

impl SplitRoom {
    /// Room for so many columns.
    pub fn new(alloc: Global, columns: usize) -> Option<SplitRoom> {
        if columns > 64 {
            return None;
        }
        let Ok(first) = Scratch::new(alloc, columns) else {
            return None;
        };
        let Ok(second) = Scratch::new(alloc, columns) else {
            drop(first);
            return None;
        };
        Some(SplitRoom { first, second })
    }
}

/// All cases are answered so.
fn are_cases(alloc: Global, asked: &Asked, room: &mut SplitRoom) -> bool {
    let cases = &CASES;
    first_wrong(alloc, cases.as_slice(), asked, room) == cases.len()
}

/// Two coefficients stand in the first scratch.
fn is_first(room: &SplitRoom, one: Frac, other: Frac) -> bool {
    room.first.row.entries() == [one, other].as_slice()
}

/// All cases are answered so, and the coefficients of the first stand in the first scratch.
fn are_answered(alloc: Global, asked: &mut Asked, room: &mut SplitRoom) -> bool {
    is_asked_filled(alloc, asked)
        && are_cases(alloc, asked, room)
        && is_case(alloc, asked, &ROUNDED, room)
        && is_first(room, Frac::one(), Frac::from(2))
}

/// The same, in a room for two columns.
fn are_answered_in_room(alloc: Global, asked: &mut Asked) -> bool {
    match SplitRoom::new(alloc, 2) {
        Some(mut room) => {
            let is_so = are_answered(alloc, asked, &mut room);
            drop(room);
            is_so
        }
        None => false,
    }
}

/// The same, of what is asked with two columns.
fn are_answered_as_asked(alloc: Global) -> bool {
    match Asked::new(alloc, 2) {
        Ok(mut asked) => {
            let is_so = are_answered_in_room(alloc, &mut asked);
            drop(asked);
            is_so
        }
        Err(_) => false,
    }
}

#[test]
fn split_cuts_answer_as_worked_out(rt: HostRuntime) {
    assert!(rt; are_answered_as_asked(rt.alloc()));
}
