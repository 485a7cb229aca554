//! Single calls of presolve, on programs worked out by hand.
use crate::programs::{THREE_COLUMNS, program_of};
use cip_frac::Frac;
use cip_model::Program;
use cip_presolve::{
    Place, PresolveEnd, Presolved, Steps, leaf_fits, postsolve, presolve, presolve_all, whole_part,
};
use std::alloc::{AllocError, Global};

/// What presolve comes to: how many rows and columns are left, and what a point of zeros comes back as; or where no
/// point is feasible.
#[derive(Clone, Copy)]
enum Kind {
    Left {
        rows: usize,
        columns: usize,
        point: &'static [i64],
        wholes: &'static [i64],
    },
    NoRow(u32),
    NoColumn(u32),
}

/// A text, what presolve comes to, and what it does where each feasible point is to come back.
#[derive(Clone, Copy)]
struct Case {
    text: &'static str,
    any: Kind,
    all: Kind,
}

const CASES: &[Case] = &[
    // x is at least 2 and at most 1
    Case {
        text: "ROWS\n N COST\n G R\n L S\nCOLUMNS\n x COST 1 R 1\n x S 1\nRHS\n RHS R 2 S 1\n\
            BOUNDS\n UI B x 5\nENDATA\n",
        any: Kind::NoRow(1),
        all: Kind::NoRow(1),
    },
    // the greatest whole x from 0 on with x <= 7: the row becomes a bound, and x goes there
    Case {
        text: "ROWS\n N COST\n L R\nCOLUMNS\n M 'MARKER' 'INTORG'\n x COST -1 R 1\nRHS\n RHS R 7\n\
            BOUNDS\n LO B x 0\nENDATA\n",
        any: Kind::Left {
            rows: 0,
            columns: 0,
            point: &[7],
            wholes: &[7],
        },
        all: Kind::Left {
            rows: 0,
            columns: 1,
            point: &[0],
            wholes: &[0],
        },
    },
    // x is whole and 1/2
    Case {
        text: "ROWS\n N COST\nCOLUMNS\n x COST 1\nBOUNDS\n BV B x\n FX B x .5\nENDATA\n",
        any: Kind::NoColumn(0),
        all: Kind::NoColumn(0),
    },
    // 3x + 2y <= 8 for whole x and y from 0 to 5, once more with a high side 9: x is at most 2, and y at most 4; the
    // second row is dropped, and as both cost less the greater they are, none moves
    Case {
        text: "ROWS\n N COST\n L R\n L S\nCOLUMNS\n x COST -1 R 3\n x S 3\n y COST -1 R 2\n y S 2\n\
            RHS\n RHS R 8 S 9\nBOUNDS\n UI B x 5\n UI B y 5\nENDATA\n",
        any: Kind::Left {
            rows: 1,
            columns: 2,
            point: &[0, 0],
            wholes: &[0, 0],
        },
        all: Kind::Left {
            rows: 1,
            columns: 2,
            point: &[0, 0],
            wholes: &[0, 0],
        },
    },
    // x is 2, so y is at most 3, and z, which no row holds, costs least at 1
    Case {
        text: "ROWS\n N COST\n L R\n G S\nCOLUMNS\n x COST 1 R 1\n y COST -1 R 1\n z COST 2 S 1\n\
            RHS\n RHS R 5 S -9\nBOUNDS\n FX B x 2\n LO B z 1\nENDATA\n",
        any: Kind::Left {
            rows: 0,
            columns: 0,
            point: &[2, 3, 1],
            wholes: &[],
        },
        all: Kind::Left {
            rows: 0,
            columns: 2,
            point: &[2, 0, 0],
            wholes: &[],
        },
    },
    // for whole x and y, y is 2x + 3, which is from 3 to 9 as x + y <= 9 says, so x is at most 3; y leaves that row,
    // which then says 3x <= 6, and the cost 4x - y, which is 2x - 3; the equality alone has both, so x goes to 0, and y
    // with it to 3
    Case {
        text: "ROWS\n N COST\n E R\n L S\nCOLUMNS\n M 'MARKER' 'INTORG'\n x COST 4 R 2\n x S 1\n\
            \x20y COST -1 R -1\n y S 1\nRHS\n RHS R -3 S 9\nBOUNDS\n UI B x 5\n UI B y 20\nENDATA\n",
        any: Kind::Left {
            rows: 0,
            columns: 0,
            point: &[0, 3],
            wholes: &[0, 3],
        },
        all: Kind::Left {
            rows: 2,
            columns: 2,
            point: &[0, 0],
            wholes: &[0, 0],
        },
    },
    // y is x / 2 + 1, which is from 0 to 9 wherever x is from 0 to 3; it stands in no other row and costs nothing, so
    // it leaves with the equality; no column moves, as each costs less the greater it is
    Case {
        text: "ROWS\n N COST\n E R\n L S\nCOLUMNS\n x COST -1 R 1\n x S 1\n y R -2\n z COST -3 S 2\n\
            RHS\n RHS R -2 S 4\nBOUNDS\n UP B x 3\n UP B y 9\n UP B z 7\nENDATA\n",
        any: Kind::Left {
            rows: 1,
            columns: 2,
            point: &[0, 1, 0],
            wholes: &[],
        },
        all: Kind::Left {
            rows: 2,
            columns: 3,
            point: &[0, 0, 0],
            wholes: &[],
        },
    },
];

/// So many zeros.
fn zeros(alloc: Global, count: usize) -> Result<Vec<Frac>, AllocError> {
    vec![in alloc; Frac::zero(); count]
}

/// The values are these whole numbers.
fn are(values: &[Frac], numbers: &[i64]) -> bool {
    if values.len() != numbers.len() {
        return false;
    }
    for at in 0..values.len() {
        if values[at] != Frac::from(numbers[at]) {
            return false;
        }
    }
    true
}

/// A point of zeros of a reduced program with so many columns comes back as these.
fn point_is(alloc: Global, steps: &Steps, columns: usize, point: &[i64]) -> bool {
    let Ok(left) = zeros(alloc, columns) else {
        return false;
    };
    match postsolve(alloc, steps, left.as_slice()) {
        Ok(whole) => are(whole.as_slice(), point),
        Err(_) => false,
    }
}

/// Zeros of all whole columns that are left come back as these.
fn wholes_are(
    alloc: Global,
    steps: &Steps,
    columns: usize,
    wholes: &[i64],
) -> Result<bool, AllocError> {
    let left = zeros(alloc, columns)?;
    if !leaf_fits(alloc, steps, left.as_slice())? {
        return Ok(false);
    }
    let whole = whole_part(alloc, steps, left.as_slice())?;
    Ok(are(whole.as_slice(), wholes))
}

/// What is left is as told.
fn is_left(alloc: Global, presolved: &Presolved, kind: Kind) -> bool {
    let Kind::Left {
        rows,
        columns,
        point,
        wholes,
    } = kind
    else {
        return false;
    };
    if presolved.reduced.rows().len() != rows || presolved.reduced.columns() != columns {
        return false;
    }
    point_is(alloc, &presolved.steps, columns, point)
        && matches!(
            wholes_are(alloc, &presolved.steps, columns, wholes),
            Ok(true)
        )
}

/// An answer is as told.
fn is_so(alloc: Global, answer: Result<PresolveEnd, AllocError>, kind: Kind) -> bool {
    match answer {
        Err(_) => false,
        Ok(PresolveEnd::Reduced(presolved)) => {
            let is_so = is_left(alloc, &presolved, kind);
            drop(presolved);
            is_so
        }
        Ok(
            PresolveEnd::NoPoint {
                place: Place::Row(row),
            },
        ) => matches!(kind, Kind::NoRow(number) if number == row),
        Ok(
            PresolveEnd::NoPoint {
                place: Place::Column(column),
            },
        ) => { matches!(kind, Kind::NoColumn(number) if number == column) }
    }
}

fn holds(alloc: Global, case: Case) -> bool {
    let Some(program) = program_of(alloc, case.text) else {
        return false;
    };
    let are_so = is_so(alloc, presolve(alloc, &program), case.any)
        && is_so(alloc, presolve_all(alloc, &program), case.all);
    drop(program);
    are_so
}

/// The first case that is wrong; their number where there is none.
fn first_wrong(alloc: Global) -> usize {
    for at in 0..CASES.len() {
        if !holds(alloc, CASES[at]) {
            return at;
        }
    }
    CASES.len()
}

#[test]
fn presolve_takes_its_steps(rt: HostRuntime) {
    assert_eq!(rt; first_wrong(rt.alloc()), CASES.len());
}

/// The program is the same, its columns have their numbers, and a point comes back as it is.
fn is_same(alloc: Global, program: &Program, presolved: &Presolved) -> bool {
    presolved.reduced.rows().len() == program.rows().len()
        && presolved.reduced.bounds().as_slice() == program.bounds().as_slice()
        && presolved.kept.as_slice() == [0u32, 1, 2].as_slice()
        && point_is(alloc, &presolved.steps, 3, &[0, 0, 0])
}

fn stays_same(alloc: Global) -> bool {
    let Some(program) = program_of(alloc, THREE_COLUMNS) else {
        return false;
    };
    let mut is_so = false;
    if let Ok(presolved) = Presolved::same(alloc, &program) {
        is_so = is_same(alloc, &program, &presolved);
        drop(presolved);
    }
    drop(program);
    is_so
}

#[test]
fn a_program_stays_itself(rt: HostRuntime) {
    assert!(rt; stays_same(rt.alloc()));
}
