//! What is shown of linear programs, one after another from one basis.
ghost use Rattle.std.specs.Prelude.{◌≡◌, ◌≤◌, length};
ghost use Rattle.cip_basis.specs.Shown.{IsReady};

use crate::programs::{Between, FROM_ZERO, Posed, Written, pose};
use cip_basis::{Basis, Problem, Safe, Shown, safe_bound, show};
use cip_cert::Scratch;
use cip_frac::Frac;
use cip_simplex::Lp;
use std::alloc::{AllocError, Global};

/// What is to be shown.
#[derive(Clone, Copy)]
enum Expected {
    /// This least cost, over a denominator.
    Cost(i128, i128),
    /// That there is no point.
    Empty,
    /// Nothing but a bound close to this cost, over a denominator.
    Near(i128, i128),
    /// Nothing.
    Nothing,
}

/// A linear program, and what is to be shown of it.
#[derive(Clone, Copy)]
struct Case {
    program: Written,
    expected: Expected,
}

static CASES: [Case; 7] = [
    // minimise -2a - b with 2a + 2b <= 3, each from 0 to 1: at 1, 1/2
    Case {
        program: Written {
            rows: &[(&[2, 2], 1, (None, Some(3)))],
            columns: &[(Some(0), Some(1)), (Some(0), Some(1))],
            costs: &[-2, -1],
            under: 1,
        },
        expected: Expected::Cost(-5, 2),
    },
    // a + b >= 3, each from 0 to 1
    Case {
        program: Written {
            rows: &[(&[1, 1], 1, (Some(3), None))],
            columns: &[(Some(0), Some(1)), (Some(0), Some(1))],
            costs: &[1, 1],
            under: 1,
        },
        expected: Expected::Empty,
    },
    // the tenth of: minimise 10a + 20b + 30c with 10a + 10b = 7, 10b + 10c = 5 and, the first less the second,
    // 10a - 10c = 2: at 1/5, 1/2, 0
    Case {
        program: Written {
            rows: &[
                (&[10, 10, 0], 10, (Some(7), Some(7))),
                (&[0, 10, 10], 10, (Some(5), Some(5))),
                (&[10, 0, -10], 10, (Some(2), Some(2))),
            ],
            columns: &[FROM_ZERO, FROM_ZERO, FROM_ZERO],
            costs: &[10, 20, 30],
            under: 10,
        },
        expected: Expected::Cost(6, 5),
    },
    // minimise -a - b with 7a + 3b <= 21 and 4a + 5b <= 20: at 45/23, 56/23
    Case {
        program: Written {
            rows: &[
                (&[7, 3], 1, (None, Some(21))),
                (&[4, 5], 1, (None, Some(20))),
            ],
            columns: &[FROM_ZERO, FROM_ZERO],
            costs: &[-1, -1],
            under: 1,
        },
        expected: Expected::Cost(-101, 23),
    },
    // minimise b, which is free, with 3a + 3b >= 1 and -3a + 3b >= -1, a from 0 to 1: at 1/3, 0
    Case {
        program: Written {
            rows: &[
                (&[3, 3], 1, (Some(1), None)),
                (&[-3, 3], 1, (Some(-1), None)),
            ],
            columns: &[(Some(0), Some(1)), (None, None)],
            costs: &[0, 1],
            under: 1,
        },
        expected: Expected::Cost(0, 1),
    },
    // minimise the sum of seven columns, each of which is at least one half by a row with a coefficient that is prime
    // to the others': the least cost has a denominator of 140 bits
    Case {
        program: Written {
            rows: &[
                (&[999_983], 1_000_000, HALF),
                (&[0, 999_979], 1_000_000, HALF),
                (&[0, 0, 999_961], 1_000_000, HALF),
                (&[0, 0, 0, 999_959], 1_000_000, HALF),
                (&[0, 0, 0, 0, 999_953], 1_000_000, HALF),
                (&[0, 0, 0, 0, 0, 999_931], 1_000_000, HALF),
                (&[0, 0, 0, 0, 0, 0, 999_917], 1_000_000, HALF),
            ],
            columns: &[
                FROM_ZERO, FROM_ZERO, FROM_ZERO, FROM_ZERO, FROM_ZERO, FROM_ZERO, FROM_ZERO,
            ],
            costs: &[1, 1, 1, 1, 1, 1, 1],
            under: 1,
        },
        expected: Expected::Near(35_001, 10_000),
    },
    // minimise -a with a >= 0: the cost falls without end
    Case {
        program: Written {
            rows: &[(&[1], 1, (Some(0), None))],
            columns: &[FROM_ZERO],
            costs: &[-1],
            under: 1,
        },
        expected: Expected::Nothing,
    },
];

/// At least one half of a million.
const HALF: Between = (Some(500_000), None);

fn is_expected(found: &Option<Shown>, expected: Expected) -> bool {
    match (found, expected) {
        (Some(Shown::Optimal { cost, .. }), Expected::Cost(over, under)) => {
            cost.numerator() == over && cost.denominator() == under
        }
        (Some(Shown::Empty), Expected::Empty) => true,
        (None, Expected::Nothing | Expected::Near(_, _)) => true,
        _ => false,
    }
}

/// Whether a number lies within 1/1000 below a fraction, or also above it.
fn is_close(number: Frac, over: i128, under: i128, above: bool) -> bool {
    let (Ok(other), Ok(most)) = (Frac::new(over, under), Frac::new(1, 1000)) else {
        return false;
    };
    match other.sub(number) {
        Ok(gap) => gap.abs() <= most && (above || !gap.is_negative()),
        Err(_) => false,
    }
}

fn is_safe(found: &Option<Safe>, expected: Expected) -> bool {
    match (found, expected) {
        (Some(Safe::Bound { cost }), Expected::Cost(over, under)) => {
            is_close(*cost, over, under, false)
        }
        (Some(Safe::Bound { cost }), Expected::Near(over, under)) => {
            is_close(*cost, over, under, true)
        }
        (Some(Safe::Empty), Expected::Empty) => true,
        (None, Expected::Nothing) => true,
        _ => false,
    }
}

/// Whether a basis shows of a program what is expected.
fn shows(
    alloc: Global,
    basis: &mut Basis,
    problem: &Problem<'_>,
    scratch: &mut Scratch,
    expected: Expected,
) -> Result<bool, AllocError>
    requires ready { IsReady problem.now }
    requires room { length problem.now.bounds.now ≤ length scratch.old.row.entries }
    ensures room { length scratch.new.row.entries ≡ length scratch.old.row.entries }
{
    let found = show(alloc, basis, problem, scratch)?;
    let is_so = is_expected(&found, expected);
    drop(found);
    Ok(is_so)
}

/// What a basis shows of a program twice, the second time from where the first ended, and by rounded multipliers.
fn are_expected(
    alloc: Global,
    basis: &mut Basis,
    parts: &Posed,
    scratch: &mut Scratch,
    expected: Expected,
) -> Result<bool, AllocError> {
    let rows = parts.rows.as_slice();
    let costs = parts.costs.as_slice();
    if scratch.row.entries().len() < parts.bounds.len()
        || !Lp::is_solvable(rows, &parts.bounds, costs)
    {
        return Ok(false);
    }
    let problem = Problem::of_rows(rows, &parts.bounds, costs);
    let is_first = shows(alloc, basis, &problem, scratch, expected)?;
    let is_second = shows(alloc, basis, &problem, scratch, expected)?;
    let safe = safe_bound(alloc, basis, &problem, scratch)?;
    let is_bounded = is_safe(&safe, expected);
    drop(safe);
    Ok(is_first && is_second && is_bounded)
}

/// What a new basis shows of a program.
fn show_new(alloc: Global, parts: &Posed, expected: Expected) -> Result<bool, AllocError> {
    let mut scratch = Scratch::new(alloc, 8)?;
    let mut basis = Basis::new(alloc);
    let is_so = are_expected(alloc, &mut basis, parts, &mut scratch, expected);
    drop(basis);
    drop(scratch);
    is_so
}

fn is_shown(alloc: Global, case: &Case) -> bool {
    match pose(alloc, &case.program) {
        Some(parts) => {
            let is_so = show_new(alloc, &parts, case.expected) == Ok(true);
            drop(parts);
            is_so
        }
        None => false,
    }
}

#[test]
fn bases_show(rt: HostRuntime) {
    let cases: &[Case] = &CASES;
    for at in 0..cases.len() {
        assert!(rt; is_shown(rt.alloc(), &cases[at]), "case {at}");
    }
}
