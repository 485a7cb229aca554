//! Programs with linear rows, and the test of a point against one.
ghost use Rattle.std.specs.Prelude.{◌≡◌, length};
ghost use Rattle.cip_problem.specs.BoxBound.{box_bound};
ghost use Rattle.cip_problem.specs.WellFormed.{IsWellFormed, columns};
ghost use Rattle.cip_model.specs.Programs.{is_maximize, program_from};
ghost use Rattle.cip_model.specs.Verdicts.{verdict_of};
ghost use Rattle.cip_model.specs.Least.{least_cost_from};
ghost use Rattle.cip_model.specs.Meaning.{VerdictHolds, BoundHolds};

use crate::checks::{broken_row, cost, not_whole, outside};
use crate::names::Names;
use crate::parts::{Parts, Sense};
use crate::verdicts::{Place, Verdict};
use cip_frac::Frac;
use cip_lin::{Bounds, Choices, Least, Row, add_least};
use std::marker::Model;

/// A program: rows and columns by number from 0, at most `MOST_ROWS` and `MOST_COLUMNS`. Costs and
/// the constant are those of the minimised form.
#[derive(Drop)]
pub struct Program {
    parts: Parts,
}

impl Model for Program {
    ghost use Rattle.cip_problem.specs.Program as problem;
    ghost use Rattle.cip_problem.specs.Codes.{program_code};

    ghost Value = { problem.Program };

    ghost coded = { program_code };

    ghost use Rattle.cip_model.specs.Inside.{shown, IsSound};

    ghost view = { shown };

    ghost invariant = { IsSound };
}

impl Program {
    /// The program of these parts, whose lists fit together.
    pub fn new(parts: Parts) -> Program
        requires { IsWellFormed (program_from parts) }
        ensures { result ≡ program_from parts }
    {
        Program { parts }
    }

    /// The number of columns, at most `MOST_COLUMNS`.
    pub fn columns(&self) -> usize
        ensures count { result ≡ columns self.now }
        ensures formed { IsWellFormed self.now }
    {
        self.parts.costs.len()
    }

    /// The names of the columns.
    pub fn column_names(&self) -> &Names
        ensures names { result.now ≡ self.now.column_names }
        ensures formed { IsWellFormed self.now }
    {
        &self.parts.column_names
    }

    /// The names of the rows.
    pub fn row_names(&self) -> &Names
        ensures names { result.now ≡ self.now.row_names }
        ensures formed { IsWellFormed self.now }
    {
        &self.parts.row_names
    }

    /// The rows by number, at most `MOST_ROWS`.
    pub fn rows(&self) -> &[Row]
        ensures rows { result.now ≡ self.now.rows }
        ensures formed { IsWellFormed self.now }
    {
        self.parts.rows.as_slice()
    }

    /// The costs of the columns, in the minimised form.
    pub fn costs(&self) -> &[Frac]
        ensures costs { result.now ≡ self.now.costs }
        ensures formed { IsWellFormed self.now }
    {
        self.parts.costs.as_slice()
    }

    /// The constant of the cost, in the minimised form.
    pub fn constant(&self) -> Frac
        ensures { result ≡ self.now.constant }
    {
        self.parts.constant
    }

    /// Which way the cost is to go in the text.
    pub fn sense(&self) -> Sense
        ensures { is_maximize result ≡ self.now.maximized }
    {
        self.parts.sense
    }

    /// Whether each column takes whole values only.
    pub fn whole(&self) -> &[bool]
        ensures whole { result.now ≡ self.now.integral }
        ensures formed { IsWellFormed self.now }
    {
        self.parts.whole.as_slice()
    }

    /// The sides of the columns.
    pub fn bounds(&self) -> &Bounds
        ensures bounds { result.now ≡ self.now.bounds }
        ensures formed { IsWellFormed self.now }
    {
        &self.parts.bounds
    }

    /// The choices of the columns: open ones, with their own sides, of the semi-continuous columns, and else plain.
    pub fn choices(&self) -> &Choices
        ensures choices { result.now ≡ self.now.choices }
        ensures formed { IsWellFormed self.now }
    {
        &self.parts.choices
    }

    /// The verdict on a point with a value for each column: the first that is met of bounds and choices by
    /// column, whole columns, rows in order, the cost.
    pub fn check(&self, point: &[Frac]) -> Verdict
        requires { length point.now ≡ columns self.now }
        ensures verdict { result ≡ verdict_of self.now point.now }
        ensures meaning { VerdictHolds self.now point.now result }
    {
        if let Some(col) = outside(self.parts.bounds.as_slice(), &self.parts.choices, point) {
            return Verdict::BreaksBound { col };
        }
        if let Some(col) = not_whole(self.parts.whole.as_slice(), point) {
            return Verdict::BreaksWhole { col };
        }
        if let Some(verdict) = broken_row(self.parts.rows.as_slice(), point) {
            return verdict;
        }
        match cost(self.parts.constant, self.parts.costs.as_slice(), point) {
            Ok(cost) => Verdict::Feasible(cost),
            Err(_) => Verdict::Wide { place: Place::Cost },
        }
    }

    /// The constant and the least cost of each column in a box, by rising column, in the minimised
    /// form: `NoBound` or `Wide`, whichever the first column that has no least cost answers. A column
    /// without a cost adds nothing. The box has a column for each of the program.
    pub fn box_bound(&self, bounds: &Bounds) -> Least
        requires { length bounds.now ≡ columns self.now }
        ensures steps { result ≡ least_cost_from self.now.constant self.now.costs bounds.now }
        ensures meaning { BoundHolds (box_bound self.now bounds.now) result }
    {
        let costs = self.parts.costs.as_slice();
        let sides = bounds.as_slice();
        let mut sum = self.parts.constant;
        for at in 0..costs.len() {
            let (cost, own) = (costs[at], sides[at]);
            if cost == Frac::zero() {
                continue;
            }
            match add_least(sum, cost, own) {
                Least::Value(value) => sum = value,
                other => return other,
            }
        }
        Least::Value(sum)
    }
}
