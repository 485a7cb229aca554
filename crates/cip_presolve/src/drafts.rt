//! A program in work: its parts without the names, which steps change in place.
ghost use Rattle.std.specs.Prelude.{◌≡◌, ◌<◌, false, length, slice_get, Some};
ghost use Rattle.cip_problem.specs.Activity.{StandsBelow};
ghost use Rattle.cip_problem.specs.Choices.{choice_at, is_open};
ghost use Rattle.cip_presolve.specs.NarrowedPrograms.{with_row, with_sides};
ghost use Rattle.cip_presolve.specs.DraftParts.{IsDraft};

use cip_frac::Frac;
use cip_lin::{Bounds, Choices, Row, Sides};
use std::marker::Model;

/// A program in work, without names. Contracts see it as a program.
#[derive(Drop)]
pub struct Draft {
    pub(crate) rows: Vec<Row>,
    pub(crate) costs: Vec<Frac>,
    pub(crate) constant: Frac,
    pub(crate) whole: Vec<bool>,
    pub(crate) bounds: Bounds,
    pub(crate) choices: Choices,
}

impl Model for Draft {
    ghost use Rattle.cip_problem.specs.Program as problem;
    ghost use Rattle.cip_problem.specs.Codes.{program_code};

    ghost Value = { problem.Program };

    ghost coded = { program_code };

    ghost use Rattle.cip_presolve.specs.DraftInside.{shown, IsSound};

    ghost view = { shown };

    ghost invariant = { IsSound };
}

impl Draft {
    /// The number of rows.
    pub fn count(&self) -> usize
        ensures count { result ≡ length self.now.rows }
        ensures formed { IsDraft self.now }
    {
        self.rows.len()
    }

    /// The row of a number.
    pub fn row(&self, number: usize) -> &Row
        requires { number < length self.now.rows }
        ensures row { slice_get self.now.rows number ≡ Some result.now }
        ensures stands { StandsBelow (length self.now.bounds) result.now.terms }
    {
        &self.rows[number]
    }

    /// The rows by number.
    pub fn rows(&self) -> &[Row]
        ensures { result.now ≡ self.now.rows }
    {
        self.rows.as_slice()
    }

    /// The sides of the columns.
    pub fn bounds(&self) -> &Bounds
        ensures bounds { result.now ≡ self.now.bounds }
        ensures formed { IsDraft self.now }
    {
        &self.bounds
    }

    /// The costs of the columns.
    pub fn costs(&self) -> &[Frac]
        ensures { result.now ≡ self.now.costs }
    {
        self.costs.as_slice()
    }

    /// The constant of the cost.
    pub fn constant(&self) -> Frac
        ensures { result ≡ self.now.constant }
    {
        self.constant
    }

    /// Whether each column is whole.
    pub fn whole(&self) -> &[bool]
        ensures { result.now ≡ self.now.integral }
    {
        self.whole.as_slice()
    }

    /// The choices of the columns.
    pub fn choices(&self) -> &Choices
        ensures { result.now ≡ self.now.choices }
    {
        &self.choices
    }

    /// The rows; all else is let go.
    pub fn into_rows(self) -> Vec<Row>
        ensures { result.items ≡ self.rows }
    {
        let Draft { rows, .. } = self;
        rows
    }

    /// Replaces a row.
    pub fn set_row(&mut self, number: usize, row: Row)
        requires inside { number < length self.old.rows }
        requires stands { StandsBelow (length self.old.bounds) row.terms }
        ensures { self.new ≡ with_row self.old number row }
    {
        self.rows[number] = row;
    }

    /// Replaces the sides of a column that isn't semi-continuous.
    pub fn set_sides(&mut self, column: u32, sides: Sides)
        requires inside { column < length self.old.bounds }
        requires plain { is_open (choice_at self.old.choices column) ≡ false }
        ensures { self.new ≡ with_sides self.old column sides }
    {
        self.bounds.set_sides(column, sides);
    }

    /// Whether a column is whole.
    pub fn is_whole(&self, column: u32) -> bool
        requires { column < length self.now.bounds }
        ensures { slice_get self.now.integral column ≡ Some result }
    {
        self.whole[column as usize]
    }

    /// Whether a column is semi-continuous.
    pub fn is_semi(&self, column: u32) -> bool
        ensures { result ≡ is_open (choice_at self.now.choices column) }
    {
        self.choices.at(column).is_open()
    }
}
