//! Dictionaries of small programs, worked out by hand. The columns are x and y, 0 and 1, and the rows r and s, 2 and 3.
use crate::entries::Program;
use crate::steps::{Step, first_wrong};
use cip_dict::Spare;
use cip_frac::Frac;
use cip_lin::Sides;
use std::alloc::{AllocError, Global};

/// A low and a high side.
type Between = (i64, Option<i64>);

/// A program of two columns, each of cost 1: its entries, and the sides of its rows and columns. Then the steps.
#[derive(Clone, Copy)]
struct Case {
    entries: &'static [(u32, u32, i64)],
    rows: &'static [Between],
    columns: &'static [Between],
    steps: &'static [Step],
}

/// Two columns, each from 0.
const FROM_ZERO: &[Between] = &[(0, None), (0, None)];

/// A row from 1 and one from 0.
const TWO_ROWS: &[Between] = &[(1, None), (0, None)];

/// r = 2x - 3y from 1, where x is from 0 to 4.
const SMALL: Case = Case {
    entries: &[(0, 0, 2), (0, 1, -3)],
    rows: &[(1, None)],
    columns: &[(0, Some(4)), (0, None)],
    steps: &[],
};

static CASES: [Case; 12] = [
    // an exchange solves the row for its column
    Case {
        steps: &[
            Step::Value(2, (0, 1)),
            Step::Lowers(2, 0),
            Step::Entry(0, 2, (1, 2)),
            Step::Entry(0, 1, (3, 2)),
            Step::NoRow(2),
            Step::Value(0, (1, 2)),
            Step::Value(2, (1, 1)),
            Step::Cost((1, 2)),
            Step::Lifts(0, 2),
            Step::Entry(2, 1, (-3, 1)),
            Step::Value(2, (8, 1)),
        ],
        ..SMALL
    },
    // a flip goes to the other side
    Case {
        steps: &[
            Step::Flips(0),
            Step::Value(0, (4, 1)),
            Step::Value(2, (8, 1)),
            Step::Cost((4, 1)),
            Step::StaysPut(1),
        ],
        ..SMALL
    },
    // lists that were used hold nothing
    Case {
        steps: &[
            Step::Entry(2, 0, (2, 1)),
            Step::Entry(2, 1, (-3, 1)),
            Step::Entry(2, 2, (0, 1)),
            Step::Value(2, (0, 1)),
        ],
        ..SMALL
    },
    // a row grows: s = x, where x = 1/2 r + 3/2 y
    Case {
        entries: &[(0, 0, 2), (0, 1, -3), (1, 0, 1)],
        rows: TWO_ROWS,
        columns: FROM_ZERO,
        steps: &[
            Step::Row(3, &[(0, (1, 1))]),
            Step::Lowers(2, 0),
            Step::Row(3, &[(1, (3, 2)), (2, (1, 2))]),
        ],
    },
    // an entry that cancels isn't kept: r = x + y and s = x + y, so s = r where x has entered for r
    Case {
        entries: &[(0, 0, 1), (0, 1, 1), (1, 0, 1), (1, 1, 1)],
        rows: TWO_ROWS,
        columns: FROM_ZERO,
        steps: &[
            Step::Lowers(2, 0),
            Step::Row(3, &[(2, (1, 1))]),
            Step::Row(0, &[(1, (-1, 1)), (2, (1, 1))]),
        ],
    },
    // entries come in any order, the last of two counts, and 0 isn't kept
    Case {
        entries: &[
            (1, 1, 5),
            (0, 1, -3),
            (0, 0, 2),
            (1, 0, 4),
            (0, 1, 0),
            (1, 1, 7),
        ],
        rows: TWO_ROWS,
        columns: FROM_ZERO,
        steps: &[
            Step::Row(2, &[(0, (2, 1))]),
            Step::Row(3, &[(0, (4, 1)), (1, (7, 1))]),
        ],
    },
    // a row with a negative entry is turned round: r = -2x + 3y, so x = -1/2 r + 3/2 y, and s = 4x + y
    Case {
        entries: &[(0, 0, -2), (0, 1, 3), (1, 0, 4), (1, 1, 1)],
        rows: TWO_ROWS,
        columns: FROM_ZERO,
        steps: &[
            Step::Lowers(2, 0),
            Step::Row(0, &[(1, (3, 2)), (2, (-1, 2))]),
            Step::Row(3, &[(1, (7, 1)), (2, (-2, 1))]),
        ],
    },
    // a row of great numbers is put into a small one: r = 2^44 x - 3 * 2^43 y, so x = r / 2^44 + 3/2 y, and s = x
    Case {
        entries: &[(0, 0, 17592186044416), (0, 1, -26388279066624), (1, 0, 1)],
        rows: TWO_ROWS,
        columns: FROM_ZERO,
        steps: &[
            Step::Lowers(2, 0),
            Step::Row(0, &[(1, (3, 2)), (2, (1, 17592186044416))]),
            Step::Row(3, &[(1, (3, 2)), (2, (1, 17592186044416))]),
        ],
    },
    // numbers that grow are kept as fractions: r = a x + y and s = b x + c y, where a = 2^41 - 1, b = 2^41 - 3 and
    // c = 2^41, so s = b / a r + (c a - b) / a y
    Case {
        entries: &[
            (0, 0, 2199023255551),
            (0, 1, 1),
            (1, 0, 2199023255549),
            (1, 1, 2199023255552),
        ],
        rows: TWO_ROWS,
        columns: FROM_ZERO,
        steps: &[
            Step::Lowers(2, 0),
            Step::Row(
                3,
                &[
                    (1, (4835703278454118652313603, 2199023255551)),
                    (2, (2199023255549, 2199023255551)),
                ],
            ),
            Step::Lowers(0, 2),
            Step::Row(3, &[(0, (2199023255549, 1)), (1, (2199023255552, 1))]),
        ],
    },
    // entries are told with their signs: r = -2x + y, so x = 1/2 y - 1/2 r, and the cost is 3/2 y - 1/2 r
    Case {
        entries: &[(0, 0, -2), (0, 1, 1)],
        rows: &[(0, None)],
        columns: FROM_ZERO,
        steps: &[
            Step::Lowers(2, 0),
            Step::Row(0, &[(1, (1, 2)), (2, (-1, 2))]),
            Step::Sign(0, 1, (true, true)),
            Step::Sign(0, 2, (true, false)),
            Step::Sign(0, 0, (false, false)),
            Step::Costs(&[(1, (3, 2)), (2, (-1, 2))]),
        ],
    },
    // a cost that cancels isn't kept: r = 2x + 2y, so the cost is 1/2 r
    Case {
        entries: &[(0, 0, 2), (0, 1, 2)],
        rows: &[(0, None)],
        columns: FROM_ZERO,
        steps: &[Step::Lowers(2, 0), Step::Costs(&[(2, (1, 2))])],
    },
    // rows of small numbers stay whole: r = 2x - 3y and s = x + y; x = 1/2 r + 3/2 y, s = 1/2 r + 5/2 y; then
    // y = 2/5 s - 1/5 r, x = 3/5 s + 1/5 r; then r = 5x - 3s, y = s - x
    Case {
        entries: &[(0, 0, 2), (0, 1, -3), (1, 0, 1), (1, 1, 1)],
        rows: FROM_ZERO,
        columns: FROM_ZERO,
        steps: &[
            Step::AllWhole,
            Step::Lowers(2, 0),
            Step::AllWhole,
            Step::Entry(3, 1, (5, 2)),
            Step::Lowers(3, 1),
            Step::AllWhole,
            Step::Entry(0, 3, (3, 5)),
            Step::Lowers(0, 2),
            Step::AllWhole,
            Step::Entry(2, 3, (-3, 1)),
        ],
    },
];

fn sides((low, high): Between) -> Sides {
    Sides {
        low: Some(Frac::from(low)),
        high: high.map(Frac::from),
    }
}

/// Puts a case into a program that is empty.
fn put(program: &mut Program, case: &Case) -> Result<(), AllocError> {
    for row in case.rows {
        program.rows.push(sides(*row))?;
    }
    for column in case.columns {
        program.columns.push(sides(*column))?;
        program.costs.push(Frac::one())?;
    }
    for (row, column, number) in case.entries {
        program.entries.push((*row, *column, Frac::from(*number)))?;
    }
    Ok(())
}

/// All steps of a case are so. Its lists are those that are spare, and then are spare again.
fn is_so(alloc: Global, spare: &mut Spare, case: &Case) -> bool {
    let mut program = Program::new(alloc);
    if put(&mut program, case).is_err() {
        drop(program);
        return false;
    }
    let first = program.first(alloc, spare);
    drop(program);
    match first {
        Some(mut dict) => {
            let wrong = first_wrong(&mut dict, case.steps);
            dict.give_back(spare);
            wrong == case.steps.len()
        }
        None => false,
    }
}

/// The first of cases that isn't so; their number where there is none.
fn first_unlike(alloc: Global, spare: &mut Spare, cases: &[Case]) -> usize {
    for at in 0..cases.len() {
        if !is_so(alloc, spare, &cases[at]) {
            return at;
        }
    }
    cases.len()
}

#[test]
fn states_are_as_worked_out(rt: HostRuntime) {
    let mut spare = Spare::new(rt.alloc());
    let cases: &[Case] = &CASES;
    let unlike = first_unlike(rt.alloc(), &mut spare, cases);
    drop(spare);
    assert_eq!(rt; unlike, cases.len());
}
