//! Linear programs worked out by hand.
use crate::programs::{FROM_ZERO, Posed, Written, fraction, pose};
use crate::slow_check::{Program, is_right};
use cip_frac::Frac;
use cip_lin::Row;
use cip_simplex::{Lp, LpAnswer, Solver, Start, solve, solve_from, solve_fully, solve_greedily};
use std::alloc::Global;

/// What is answered.
#[derive(Clone, Copy)]
enum Want {
    /// The point, what its values are divided by, and the cost by numerator and denominator.
    Optimal(&'static [i64], i64, (i64, i64)),
    Infeasible,
    Unbounded,
}

/// A program, what is answered, how many moves by the list that takes at most, and whether the rule of few moves gets
/// there.
#[derive(Clone, Copy)]
struct Case {
    program: Written,
    want: Want,
    moves: u32,
    is_quick: bool,
}

/// 2a + 3b + c <= 5, 4a + b + 2c <= 11, 3a + 4b + 2c <= 8, each from 0 to 10.
const THREE_COLUMNS: Case = Case {
    program: Written {
        rows: &[
            (&[2, 3, 1], 1, (None, Some(5))),
            (&[4, 1, 2], 1, (None, Some(11))),
            (&[3, 4, 2], 1, (None, Some(8))),
        ],
        columns: &[
            (Some(0), Some(10)),
            (Some(0), Some(10)),
            (Some(0), Some(10)),
        ],
        costs: &[-5, -4, -3],
        under: 1,
    },
    want: Want::Optimal(&[2, 0, 1], 1, (-13, 1)),
    moves: 100,
    is_quick: true,
};

static CASES: [Case; 5] = [
    THREE_COLUMNS,
    // two units are no three
    Case {
        program: Written {
            rows: &[(&[1, 1], 1, (Some(3), None))],
            columns: &[(Some(0), Some(1)), (Some(0), Some(1))],
            costs: &[1, 1],
            under: 1,
        },
        want: Want::Infeasible,
        moves: 100,
        is_quick: true,
    },
    // a cost falls without end
    Case {
        program: Written {
            rows: &[(&[1, -1], 1, (None, Some(2)))],
            columns: &[FROM_ZERO, FROM_ZERO],
            costs: &[-1, 0],
            under: 1,
        },
        want: Want::Unbounded,
        moves: 100,
        is_quick: true,
    },
    // crossed sides have no point
    Case {
        program: Written {
            rows: &[(&[1], 1, (Some(3), Some(2)))],
            columns: &[(Some(0), Some(10))],
            costs: &[1],
            under: 1,
        },
        want: Want::Infeasible,
        moves: 0,
        is_quick: true,
    },
    // minimise -3/4 x1 + 150 x2 - 1/50 x3 + 6 x4, where 1/4 x1 - 60 x2 - 1/25 x3 + 9 x4 <= 0,
    // 1/2 x1 - 90 x2 - 1/50 x3 + 3 x4 <= 0 and x3 <= 1, a row: other rules for the entering variable never end here
    Case {
        program: Written {
            rows: &[
                (&[25, -6000, -4, 900], 100, (None, Some(0))),
                (&[25, -4500, -1, 150], 50, (None, Some(0))),
                (&[0, 0, 1], 1, (None, Some(1))),
            ],
            columns: &[FROM_ZERO, FROM_ZERO, FROM_ZERO, FROM_ZERO],
            costs: &[-75, 15000, -2, 600],
            under: 100,
        },
        want: Want::Optimal(&[1, 0, 25, 0], 25, (-1, 20)),
        moves: 100,
        is_quick: false,
    },
];

fn is_point(point: &[Frac], values: &[i64], under: i64) -> bool {
    if point.len() != values.len() {
        return false;
    }
    for at in 0..point.len() {
        if point[at] != fraction(values[at], under) {
            return false;
        }
    }
    true
}

/// An answer is right, and the one that is wanted.
fn is_as(alloc: Global, program: Program<'_>, found: &LpAnswer, want: Want) -> bool {
    let is_wanted = match (found, want) {
        (
            LpAnswer::Optimal {
                point,
                combo: _,
                cost,
            },
            Want::Optimal(values, under, least),
        ) => is_point(point.as_slice(), values, under) && *cost == fraction(least.0, least.1),
        (LpAnswer::Infeasible { combo: _ }, Want::Infeasible) => true,
        (LpAnswer::Unbounded { point: _, ray: _ }, Want::Unbounded) => true,
        _ => false,
    };
    is_wanted && is_right(alloc, program, found)
}

/// By the list, in so many moves.
fn is_solved(alloc: Global, solver: &mut Solver, program: Program<'_>, case: &Case) -> bool {
    if !Lp::is_solvable(program.rows, program.bounds, program.costs) {
        return false;
    }
    let lp = Lp::new(program.rows, program.bounds, program.costs);
    match solve(alloc, solver, &lp, case.moves) {
        Ok(found) => {
            let is_so = is_as(alloc, program, &found, case.want);
            drop(found);
            is_so
        }
        Err(_) => false,
    }
}

/// By the list, without a limit.
fn is_fully_solved(alloc: Global, solver: &mut Solver, program: Program<'_>, want: Want) -> bool {
    if !Lp::is_solvable(program.rows, program.bounds, program.costs) {
        return false;
    }
    let lp = Lp::new(program.rows, program.bounds, program.costs);
    match solve_fully(alloc, solver, &lp) {
        Ok(found) => {
            let is_so = is_as(alloc, program, &found, want);
            drop(found);
            is_so
        }
        Err(_) => false,
    }
}

/// Where variables are in the first state.
fn first_start(alloc: Global, program: Program<'_>) -> Option<Start> {
    if !Lp::is_solvable(program.rows, program.bounds, program.costs) {
        return None;
    }
    let lp = Lp::new(program.rows, program.bounds, program.costs);
    Start::slack(alloc, &lp).ok()
}

/// What is found in so many moves by the rule of few moves, from a start that fits.
fn found_greedily(
    alloc: Global,
    solver: &mut Solver,
    program: Program<'_>,
    start: &Start,
    moves: u32,
) -> Option<(Option<LpAnswer>, Start)> {
    if !Lp::is_solvable(program.rows, program.bounds, program.costs)
        || start.len() != program.bounds.len() + program.rows.len()
    {
        return None;
    }
    let lp = Lp::new(program.rows, program.bounds, program.costs);
    solve_greedily(alloc, solver, &lp, start, moves).ok()
}

/// Something is found, which is wanted.
fn is_found(alloc: Global, program: Program<'_>, found: &Option<LpAnswer>, want: Want) -> bool {
    match found {
        Some(found) => is_as(alloc, program, found, want),
        None => false,
    }
}

/// With few moves, from a start.
fn is_found_greedily(
    alloc: Global,
    solver: &mut Solver,
    program: Program<'_>,
    start: &Start,
    want: Want,
) -> bool {
    match found_greedily(alloc, solver, program, start, 100) {
        Some((found, last)) => {
            drop(last);
            let is_so = is_found(alloc, program, &found, want);
            drop(found);
            is_so
        }
        None => false,
    }
}

/// With few moves, from the first state.
fn is_quickly_solved(alloc: Global, solver: &mut Solver, program: Program<'_>, want: Want) -> bool {
    match first_start(alloc, program) {
        Some(first) => {
            let is_so = is_found_greedily(alloc, solver, program, &first, want);
            drop(first);
            is_so
        }
        None => false,
    }
}

/// In each of these ways.
fn is_answered(alloc: Global, program: Program<'_>, case: &Case) -> bool {
    let mut solver = Solver::new(alloc);
    let is_so = is_solved(alloc, &mut solver, program, case)
        && is_fully_solved(alloc, &mut solver, program, case.want)
        && (!case.is_quick || is_quickly_solved(alloc, &mut solver, program, case.want));
    drop(solver);
    is_so
}

fn is_so(alloc: Global, case: &Case) -> bool {
    match pose(alloc, &case.program) {
        Some(posed) => {
            let is_so = is_answered(alloc, posed.program(), case);
            drop(posed);
            is_so
        }
        None => false,
    }
}

#[test]
fn programs_are_answered_in_each_way(rt: HostRuntime) {
    for at in 0..CASES.len() {
        assert!(rt; is_so(rt.alloc(), &CASES[at]), "case {at}");
    }
}

/// The list answers so after so many moves from a start; then where variables are.
fn start_behind(
    alloc: Global,
    program: Program<'_>,
    start: &Start,
    moves: u32,
    want: Option<Want>,
) -> Option<Start> {
    if !Lp::is_solvable(program.rows, program.bounds, program.costs)
        || start.len() != program.bounds.len() + program.rows.len()
    {
        return None;
    }
    let lp = Lp::new(program.rows, program.bounds, program.costs);
    let mut solver = Solver::new(alloc);
    let behind = solve_from(alloc, &mut solver, &lp, start, moves);
    drop(solver);
    let Ok((found, last)) = behind else {
        return None;
    };
    let is_wanted = match want {
        Some(want) => is_as(alloc, program, &found, want),
        None => matches!(&found, LpAnswer::Limit),
    };
    drop(found);
    if is_wanted {
        Some(last)
    } else {
        drop(last);
        None
    }
}

/// From the first state no move is made; then the optimum is found, and from there it is found without a move.
fn is_found_from_starts(alloc: Global, program: Program<'_>, want: Want) -> bool {
    let Some(first) = first_start(alloc, program) else {
        return false;
    };
    let same = start_behind(alloc, program, &first, 0, None);
    drop(first);
    let Some(slack) = same else {
        return false;
    };
    let best = start_behind(alloc, program, &slack, 100, Some(want));
    drop(slack);
    let Some(last) = best else {
        return false;
    };
    let end = start_behind(alloc, program, &last, 0, Some(want));
    drop(last);
    let is_so = end.is_some();
    drop(end);
    is_so
}

/// No move leads to no answer by the list.
fn is_list_limited(alloc: Global, program: Program<'_>) -> bool {
    if !Lp::is_solvable(program.rows, program.bounds, program.costs) {
        return false;
    }
    let lp = Lp::new(program.rows, program.bounds, program.costs);
    let mut solver = Solver::new(alloc);
    let found = solve(alloc, &mut solver, &lp, 0);
    drop(solver);
    let is_so = matches!(&found, Ok(LpAnswer::Limit));
    drop(found);
    is_so
}

/// A start fits six variables, and can be made to fit eight.
fn is_fitted(alloc: Global, start: &Start) -> bool {
    match start.fitted(alloc, 8) {
        Ok(fitted) => {
            let is_so = fitted.len() == 8 && start.len() == 6;
            drop(fitted);
            is_so
        }
        Err(_) => false,
    }
}

/// No move leads to no answer by the rule of few moves, and the start behind it fits.
fn is_greedily_limited(alloc: Global, program: Program<'_>, first: &Start) -> bool {
    let mut solver = Solver::new(alloc);
    let limited = found_greedily(alloc, &mut solver, program, first, 0);
    drop(solver);
    match limited {
        Some((found, start)) => {
            let is_so = found.is_none() && is_fitted(alloc, &start);
            drop(found);
            drop(start);
            is_so
        }
        None => false,
    }
}

/// No move leads to no answer, by either rule.
fn is_limited(alloc: Global, program: Program<'_>) -> bool {
    match first_start(alloc, program) {
        Some(first) => {
            let is_so = is_list_limited(alloc, program)
                && is_greedily_limited(alloc, program, &first);
            drop(first);
            is_so
        }
        None => false,
    }
}

fn has_starts(alloc: Global) -> bool {
    match pose(alloc, &THREE_COLUMNS.program) {
        Some(posed) => {
            let is_so = is_found_from_starts(alloc, posed.program(), THREE_COLUMNS.want)
                && is_limited(alloc, posed.program());
            drop(posed);
            is_so
        }
        None => false,
    }
}

#[test]
fn starts_are_told(rt: HostRuntime) {
    assert!(rt; has_starts(rt.alloc()));
}

/// 5,800 rows without a term, all of which are basic.
fn are_many_put(alloc: Global, posed: &mut Posed) -> bool {
    for _ in 0..5800 {
        if posed.rows.push(Row::empty(alloc, None, None)).is_err() {
            return false;
        }
    }
    true
}

fn are_many_solved(alloc: Global) -> bool {
    match Posed::new(alloc) {
        Ok(mut posed) => {
            let mut solver = Solver::new(alloc);
            let nothing = Want::Optimal(&[], 1, (0, 1));
            let is_so = are_many_put(alloc, &mut posed)
                && is_quickly_solved(alloc, &mut solver, posed.program(), nothing);
            drop(solver);
            drop(posed);
            is_so
        }
        Err(_) => false,
    }
}

#[test]
fn many_rows_without_columns_are_solved(rt: HostRuntime) {
    assert!(rt; are_many_solved(rt.alloc()));
}
