//! A program whose choices are made.
ghost use Rattle.std.specs.Prelude.{◌≡◌, ◌↔◌, [], length, true, All, IsTrue, IfOk};
ghost use Rattle.cip_problem.specs.Choices.{decided, open_count};
ghost use Rattle.cip_problem.specs.Points.{IsFeasible};
ghost use Rattle.cip_problem.specs.WellFormed.{IsWellFormed, columns};
ghost use Rattle.cip_model.specs.Meaning.{VerdictHolds};
ghost use Rattle.cip_model.specs.Rays.{IsShownRay};
ghost use Rattle.cip_model.specs.Verdicts.{verdict_of};
ghost use Rattle.cip_search.specs.LeafProgram.{at_continuous};

use crate::lists::{continuous_sides, decided_sides};
use cip_frac::Frac;
use cip_lin::{Bounds, Row};
use cip_model::{Program, Verdict};
use std::alloc::{AllocError, Global};
use std::marker::Model;

/// A program whose choices are made: a semi-continuous column lies between its own sides where it is on, and is 0 where
/// it is off. Nothing is copied.
#[derive(Drop)]
pub(crate) struct Decided<'a> {
    program: &'a Program,
    on: &'a [bool],
}

impl<'a> Model for Decided<'a> {
    ghost use Rattle.std.specs.Prelude.{◌≡◌, length};
    ghost use Rattle.cip_problem.specs.Program as problem;
    ghost use Rattle.cip_problem.specs.Choices.{decided, open_count};
    ghost use Rattle.cip_problem.specs.Codes.{program_code};

    ghost Value = { problem.Program };

    ghost coded = { program_code };

    ghost view = { λ d. decided d.program.now d.on.now };

    ghost invariant = { λ d. length d.on.now ≡ open_count d.program.now.choices };
}

impl<'a> Decided<'a> {
    /// The program with each semi-continuous column on or off, by rising column.
    pub(crate) fn new(program: &'a Program, on: &'a [bool]) -> Decided<'a>
        requires { length on.now ≡ open_count program.now.choices }
        ensures { result ≡ decided program.now on.now }
    {
        Decided { program, on }
    }

    /// The number of columns.
    pub(crate) fn columns(&self) -> usize
        ensures count { result ≡ columns self.now }
        ensures formed { IsWellFormed self.now }
    {
        self.program.columns()
    }

    /// Whether each column takes whole values only.
    pub(crate) fn whole(&self) -> &[bool]
        ensures whole { result.now ≡ self.now.integral }
        ensures formed { IsWellFormed self.now }
        ensures none { self.now.choices ≡ [] }
    {
        self.program.whole()
    }

    /// The rows by number.
    pub(crate) fn rows(&self) -> &[Row]
        ensures rows { result.now ≡ self.now.rows }
        ensures formed { IsWellFormed self.now }
    {
        self.program.rows()
    }

    /// The costs of the columns, in the minimised form.
    pub(crate) fn costs(&self) -> &[Frac]
        ensures costs { result.now ≡ self.now.costs }
        ensures formed { IsWellFormed self.now }
    {
        self.program.costs()
    }

    /// The sides of the continuous columns; `Err` where memory was refused.
    pub(crate) fn continuous_sides(&self, alloc: Global) -> Result<Bounds, AllocError>
        ensures { IfOk result (λ bounds. bounds ≡ at_continuous self.now.integral self.now.bounds) }
    {
        let (whole, bounds) = (self.program.whole(), self.program.bounds());
        let choices = self.program.choices();
        if choices.is_empty() {
            return continuous_sides(alloc, whole, bounds.as_slice());
        }
        let sides = decided_sides(alloc, bounds, choices, self.on)?;
        continuous_sides(alloc, whole, sides.as_slice())
    }

    /// The verdict on a feasible point.
    pub(crate) fn check(&self, point: &[Frac]) -> Verdict
        requires long { length point.now ≡ columns self.now }
        requires feasible { IsFeasible self.now point.now }
        ensures verdict { result ≡ verdict_of self.now point.now }
        ensures meaning { VerdictHolds self.now point.now result }
    {
        let _columns = self.program.columns();
        self.program.check(point)
    }

    /// The verdict on a point, where no column is continuous, and so none semi-continuous.
    pub(crate) fn check_whole(&self, point: &[Frac]) -> Verdict
        requires long { length point.now ≡ columns self.now }
        requires whole { All (λ whole. whole ≡ true) self.now.integral }
        ensures verdict { result ≡ verdict_of self.now point.now }
        ensures meaning { VerdictHolds self.now point.now result }
    {
        let _columns = self.program.columns();
        self.program.check(point)
    }

    /// Whether a ray is shown beside a feasible point.
    pub(crate) fn check_ray(&self, point: &[Frac], ray: &[Frac]) -> bool
        requires point { length point.now ≡ columns self.now }
        requires ray { length ray.now ≡ columns self.now }
        requires feasible { IsFeasible self.now point.now }
        ensures shown { IsTrue result ↔ IsShownRay self.now point.now ray.now }
    {
        let _columns = self.program.columns();
        self.program.check_ray(point, ray)
    }
}
