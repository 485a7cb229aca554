//! Linear programs at random, each answer checked.
ghost use Rattle.std.specs.Prelude.{◌≡◌, length};
ghost use Rattle.cip_simplex.specs.LpShape.{variables};

use crate::programs::Posed;
use crate::simplex_draws::Random;
use crate::slow_check::{Program, is_right};
use cip_bland::Stand;
use cip_frac::Frac;
use cip_lin::{Row, RowFault, Term};
use cip_simplex::{Lp, LpAnswer, Solver, Start, solve, solve_from, solve_greedily};
use std::alloc::{AllocError, Global};

impl Random {
    // a whole number from -4 to 4, 0 in half of the cases
    fn small(&mut self) -> Frac {
        if self.below(2) == 0 {
            return Frac::zero();
        }
        Frac::from(self.below(9) as i64 - 4)
    }

    fn place(&mut self) -> Option<Stand> {
        match self.below(5) {
            0 => Some(Stand::Low),
            1 => Some(Stand::High),
            2 => Some(Stand::Zero),
            _ => None,
        }
    }

    // appends the terms of a row
    fn fill_row(&mut self, row: &mut Row, columns: u32) -> Result<(), RowFault> {
        for col in 0..columns {
            let coef = self.small();
            if !coef.is_zero() {
                row.append(Term { col, coef })?;
            }
        }
        Ok(())
    }

    // appends up to eight rows
    fn fill_rows(&mut self, alloc: Global, posed: &mut Posed, columns: u32) -> bool {
        for _ in 0..self.below(9) {
            let sides = self.sides(3);
            let mut row = Row::empty(alloc, sides.low, sides.high);
            if self.fill_row(&mut row, columns).is_err() {
                drop(row);
                return false;
            }
            if posed.rows.push(row).is_err() {
                return false;
            }
        }
        true
    }

    // appends columns
    fn fill_columns(&mut self, posed: &mut Posed, columns: u32) -> Result<(), AllocError> {
        for _ in 0..columns {
            posed.bounds.push(self.sides(3))?;
        }
        for _ in 0..columns {
            posed.costs.push(self.small())?;
        }
        Ok(())
    }

    // fills an empty program
    fn fill(&mut self, alloc: Global, posed: &mut Posed) -> bool {
        let columns = self.below(9);
        self.fill_rows(alloc, posed, columns) && self.fill_columns(posed, columns).is_ok()
    }

    // appends so many places
    fn fill_start(
        &mut self,
        standing: &mut Vec<Option<Stand>>,
        len: usize,
    ) -> Result<(), AllocError> {
        for _ in 0..len {
            standing.push(self.place())?;
        }
        Ok(())
    }

    fn start(&mut self, alloc: Global, len: usize) -> Option<Start> {
        let mut standing = Vec::new(alloc);
        if self.fill_start(&mut standing, len).is_err() {
            return None;
        }
        Some(Start::new(standing))
    }
}

fn agree(first: &LpAnswer, second: &LpAnswer) -> bool {
    match (first, second) {
        (
            LpAnswer::Optimal {
                point: _,
                combo: _,
                cost,
            },
            LpAnswer::Optimal {
                point: _,
                combo: _,
                cost: other,
            },
        ) => { *cost == *other }
        (LpAnswer::Infeasible { combo: _ }, LpAnswer::Infeasible { combo: _ }) => true,
        (LpAnswer::Unbounded { point: _, ray: _ }, LpAnswer::Unbounded { point: _, ray: _ }) =>
            true,
        _ => false,
    }
}

// an answer is right, and like another one
fn is_like(alloc: Global, program: Program<'_>, other: &LpAnswer, found: &LpAnswer) -> bool {
    is_right(alloc, program, other) && agree(found, other)
}

// a rule that makes few moves answers as the list does
fn is_few_alike(
    alloc: Global,
    solver: &mut Solver,
    lp: &Lp<'_>,
    program: Program<'_>,
    start: &Start,
    found: &LpAnswer,
) -> bool
    requires { length start.now ≡ variables lp.now }
{
    match solve_greedily(alloc, solver, lp, start, 10000) {
        Ok((other, last)) => {
            drop(last);
            let is_so = match &other {
                Some(other) => is_like(alloc, program, other, found),
                None => false,
            };
            drop(other);
            is_so
        }
        Err(_) => false,
    }
}

// the list from a start answers as it does from the first state
fn is_begun_alike(
    alloc: Global,
    solver: &mut Solver,
    lp: &Lp<'_>,
    program: Program<'_>,
    start: &Start,
    found: &LpAnswer,
) -> bool
    requires { length start.now ≡ variables lp.now }
{
    match solve_from(alloc, solver, lp, start, 10000) {
        Ok((other, last)) => {
            drop(last);
            let is_so = is_like(alloc, program, &other, found);
            drop(other);
            is_so
        }
        Err(_) => false,
    }
}

// all ways to solve a program from a start answer alike
fn are_alike(
    alloc: Global,
    solver: &mut Solver,
    lp: &Lp<'_>,
    program: Program<'_>,
    start: &Start,
) -> bool
    requires { length start.now ≡ variables lp.now }
{
    match solve(alloc, solver, lp, 10000) {
        Ok(found) => {
            let is_so = is_right(alloc, program, &found)
                && is_few_alike(alloc, solver, lp, program, start, &found)
                && is_begun_alike(alloc, solver, lp, program, start, &found);
            drop(found);
            is_so
        }
        Err(_) => false,
    }
}

// solves from the first state and from a start at random, and checks all answers
fn is_solved(
    alloc: Global,
    solver: &mut Solver,
    random: &mut Random,
    program: Program<'_>,
) -> bool {
    if !Lp::is_solvable(program.rows, program.bounds, program.costs) {
        return false;
    }
    let lp = Lp::new(program.rows, program.bounds, program.costs);
    let len = program.bounds.len() + program.rows.len();
    match random.start(alloc, len) {
        Some(start) => {
            let is_so = start.len() == len && are_alike(alloc, solver, &lp, program, &start);
            drop(start);
            is_so
        }
        None => false,
    }
}

fn is_answered(alloc: Global, solver: &mut Solver, random: &mut Random) -> bool {
    match Posed::new(alloc) {
        Ok(mut posed) => {
            let is_so = random.fill(alloc, &mut posed)
                && is_solved(alloc, solver, random, posed.program());
            drop(posed);
            is_so
        }
        Err(_) => false,
    }
}

#[test]
fn a_thousand_programs_are_answered_right(rt: HostRuntime) {
    let mut random = Random::new(20260727);
    let mut solver = Solver::new(rt.alloc());
    for number in 0..1000 {
        assert!(rt;
            is_answered(rt.alloc(), &mut solver, &mut random),
            "program {number}"
        );
    }
}
