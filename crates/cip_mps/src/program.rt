//! The program that the lines of a text have said.
ghost use Rattle.std.specs.Prelude.{◌≡◌, ◌≤◌, ◌<◌, true, false, length, map, slice_index_or, unwrap_or, ◌++◌, ◌∷◌, [], if◌then◌else◌, IfOk, OnOk, MatchOption};
ghost use Rattle.std.specs.List.{filter};
ghost use Rattle.cip_rational.specs.Rational.{negate};
ghost use Rattle.cip_problem.specs.Limits.{most_columns};
ghost use Rattle.cip_text_rules.specs.MpsWords.{is_in};
ghost use Rattle.cip_text_rules.specs.MpsState.{no_row, is_kept, right_side_of, objective_row, kept_names, minimized_by, costs_from, finished_row, program_from};
ghost use Rattle.cip_model.specs.Programs.{is_maximize};
ghost use Rattle.cip_mps.specs.CopiedParts.{IsCopied};
ghost use Rattle.cip_mps.specs.DraftStates.{kept};

use crate::RowTable;
use crate::column_program::{bounds_of, choices_of, costs_of, minimized, wholes_of};
use crate::draft::Draft;
use cip_frac::Frac;
use cip_lin::{Bounds, Choices, Row};
use cip_model::{Names, Parts, Program, Sense};
use cip_mps_lines::NameIndex;
use cip_text_rules::step_laws::numbers_are_of_names;
use std::alloc::{AllocError, Global};

/// The number of the first row of type N.
fn objective_at(rows: &RowTable) -> Option<usize>
    ensures { MatchOption result (objective_row rows.now ≡ no_row)
        (λ number. (number < length rows.now) × (objective_row rows.now ≡ slice_index_or rows.now number no_row)) }
{
    for number in 0..rows.len() {
        if rows.head(number).is_free() {
            return Some(number);
        }
    }
    None
}

/// The costs of so many columns, in the minimised form.
fn objective_costs(
    alloc: Global,
    sense: Option<bool>,
    rows: &RowTable,
    columns: usize,
) -> Result<Vec<Frac>, AllocError>
    requires { columns ≤ most_columns }
    ensures { IfOk result (λ costs. costs.items ≡ costs_from sense (objective_row rows.now).held 0 columns) }
{
    match objective_at(rows) {
        None => costs_of(alloc, sense, &[], columns),
        Some(number) => {
            let held = rows.numbers(alloc, number)?;
            costs_of(alloc, sense, held.as_slice(), columns)
        }
    }
}

/// The constant of the cost, in the minimised form: a right-hand side of the objective is subtracted.
fn objective_constant(sense: Option<bool>, rows: &RowTable) -> Frac
    ensures { result ≡ minimized_by sense (negate (right_side_of (objective_row rows.now))) }
{
    match objective_at(rows) {
        None => minimized(sense, Frac::zero().neg()),
        Some(number) => {
            let right_side = rows.head(number).right_side.unwrap_or(Frac::zero());
            minimized(sense, right_side.neg())
        }
    }
}

/// Puts the name of a row behind others, unless the row is of type N. `Err` comes where a growth was refused.
fn keep_name(alloc: Global, kept: &mut Names, name: &[u8], free: bool) -> Result<(), AllocError>
    requires { is_in kept.old name.now ≡ false }
    ensures { OnOk result (kept.new ≡ (if free then kept.old else kept.old ++ name.now ∷ [])) }
{
    numbers_are_of_names();
    if !free {
        kept.add(name.to_vec(alloc)?)?;
    }
    Ok(())
}

/// The names of the rows that aren't of type N.
fn names_of(alloc: Global, names: &NameIndex, rows: &RowTable) -> Result<Names, AllocError>
    requires { length names.now ≡ length rows.now }
    ensures { IfOk result (λ kept. kept ≡ kept_names names.now rows.now) }
{
    let mut kept = Names::new(alloc);
    for number in 0..rows.len() {
        keep_name(
            alloc,
            &mut kept,
            names.name(number),
            rows.head(number).is_free(),
        )?;
    }
    Ok(kept)
}

/// Which way the cost is to go.
fn sense_of(sense: Option<bool>) -> Sense
    ensures { is_maximize result ≡ unwrap_or sense false }
{
    match sense {
        Some(true) => Sense::Maximize,
        _ => Sense::Minimize,
    }
}

/// What a program takes of the names and numbers of a draft, besides its rows and the names of its columns.
#[derive(Drop)]
struct Copied {
    row_names: Names,
    costs: Vec<Frac>,
    whole: Vec<bool>,
    bounds: Bounds,
    choices: Choices,
}

impl Draft {
    /// Its names of rows, costs, whole columns, bounds and choices. `Err` comes where a growth was refused.
    fn copied(&self) -> Result<Copied, AllocError>
        ensures { IfOk result (IsCopied self.now) }
    {
        let alloc = self.alloc;
        let columns = self.columns.as_slice();
        let Ok(whole) = wholes_of(alloc, columns) else {
            return Err(AllocError);
        };
        let Ok(bounds) = bounds_of(alloc, columns) else {
            return Err(AllocError);
        };
        let Ok(choices) = choices_of(alloc, columns) else {
            return Err(AllocError);
        };
        let Ok(costs) = objective_costs(alloc, self.sense, &self.rows, columns.len()) else {
            return Err(AllocError);
        };
        let Ok(row_names) = names_of(alloc, &self.row_names, &self.rows) else {
            return Err(AllocError);
        };
        Ok(Copied {
            row_names,
            costs,
            whole,
            bounds,
            choices,
        })
    }

    /// The names of its columns, and the rows of the program; what else it has is freed first. `Err` comes where a
    /// growth was refused.
    fn into_rows(self) -> Result<(Names, Vec<Row>), AllocError>
        ensures names { IfOk result (λ parts. parts.0 ≡ self.column_names) }
        ensures rows { IfOk result (λ parts. parts.1.items ≡ map finished_row (filter is_kept self.rows)) }
    {
        let Draft {
            opened,
            row_names,
            rows,
            column_names,
            columns,
            ..
        } = self;
        drop(opened);
        drop(row_names);
        drop(columns);
        let Ok(rows) = rows.into_rows() else {
            drop(column_names);
            return Err(AllocError);
        };
        Ok((column_names.into_names(), rows))
    }

    /// The program of the lines that were read. `Err` comes where a growth was refused.
    pub fn into_program(self) -> Result<Program, AllocError>
        ensures { IfOk result (λ program. program ≡ program_from (kept self)) }
    {
        let Ok(copied) = self.copied() else {
            drop(self);
            return Err(AllocError);
        };
        let constant = objective_constant(self.sense, &self.rows);
        let sense = sense_of(self.sense);
        let Ok((column_names, rows)) = self.into_rows() else {
            drop(copied);
            return Err(AllocError);
        };
        let Copied {
            row_names,
            costs,
            whole,
            bounds,
            choices,
        } = copied;
        let parts = Parts {
            column_names,
            row_names,
            rows,
            costs,
            constant,
            sense,
            whole,
            bounds,
            choices,
        };
        Ok(Program::new(parts))
    }
}
