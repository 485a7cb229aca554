//! The first facts, and the program that was said.
ghost use Rattle.std.specs.Prelude.{◌≡◌, IfOk};
ghost use Rattle.cip_text_rules.specs.LpFacts as facts;
ghost use Rattle.cip_model.specs.Programs.{is_maximize};

use crate::draft::LpDraft;
use crate::form::Form;
use cip_frac::Frac;
use cip_lin::{Bounds, Choices, Sides};
use cip_model::{Parts, Program, Sense};
use cip_mps_lines::NameIndex;
use std::alloc::{AllocError, Global};

/// The sides of the columns.
fn bounds_of(alloc: Global, sides: &[Sides]) -> Result<Bounds, AllocError>
    ensures { IfOk result (λ bounds. bounds ≡ sides.now) }
{
    let mut bounds = Bounds::new(alloc, 0)?;
    for own in sides {
        let Ok(()) = bounds.push(*own) else {
            drop(bounds);
            return Err(AllocError);
        };
    }
    Ok(bounds)
}

/// Which way the cost is to go.
fn sense_of(maximized: bool) -> Sense
    ensures { is_maximize result ≡ maximized }
{
    if maximized {
        Sense::Maximize
    } else {
        Sense::Minimize
    }
}

impl LpDraft {
    /// Before the first token.
    pub fn new(alloc: Global) -> LpDraft
        ensures { result ≡ facts.nothing_said }
    {
        LpDraft {
            alloc,
            maximized: false,
            objective: None,
            row_names: NameIndex::new(alloc),
            rows: Vec::new(alloc),
            row_name: None,
            column_names: NameIndex::new(alloc),
            costs: Vec::new(alloc),
            sides: Vec::new(alloc),
            whole: Vec::new(alloc),
            constant: Frac::zero(),
            form: Form::new(alloc),
            entries: 0,
            near: 0,
        }
    }

    /// The program that was said, whose columns have these sides.
    fn into_bounded(self, bounds: Bounds) -> Program
        requires { bounds ≡ self.bounds }
        ensures { result ≡ facts.program_of self }
    {
        let LpDraft {
            alloc,
            maximized,
            objective,
            row_names,
            rows,
            row_name,
            column_names,
            costs,
            sides,
            whole,
            constant,
            form,
            ..
        } = self;
        drop(objective);
        drop(row_name);
        drop(sides);
        drop(form);
        Program::new(Parts {
            column_names: column_names.into_names(),
            row_names: row_names.into_names(),
            rows,
            costs,
            constant,
            sense: sense_of(maximized),
            whole,
            bounds,
            choices: Choices::new(alloc),
        })
    }

    /// The program that was said. `Err` comes where a growth was refused.
    pub fn into_program(self) -> Result<Program, AllocError>
        ensures { IfOk result (λ program. program ≡ facts.program_of self) }
    {
        match bounds_of(self.alloc, self.sides.as_slice()) {
            Ok(bounds) => Ok(self.into_bounded(bounds)),
            Err(error) => {
                drop(self);
                Err(error)
            }
        }
    }
}
