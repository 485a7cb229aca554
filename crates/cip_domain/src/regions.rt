//! A box with the choices of its columns.
ghost use Rattle.std.specs.Prelude.{◌≡◌, ◌<◌, length, IfOk};
ghost use Rattle.cip_problem.specs.Box.{sides_at};
ghost use Rattle.cip_problem.specs.Choices.{choice_at};
ghost use Rattle.cip_domain.specs.Changes.{with_column};

use cip_lin::{Bounds, Choice, Choices, Sides};
use std::alloc::{AllocError, Global};
use std::marker::Model;

/// A box with the choices of its columns.
#[derive(Drop)]
pub struct Region {
    bounds: Bounds,
    choices: Choices,
}

impl Model for Region {
    ghost use Rattle.cip_domain.specs.Changes.{Region as Meaning, region_code};

    ghost Value = { Meaning };

    ghost coded = { region_code };

    ghost view = { λ r. record { box = r.bounds; choices = r.choices } };
}

impl Region {
    /// The region of this box and these choices.
    pub fn new(bounds: Bounds, choices: Choices) -> Region
        ensures { result ≡ record { box = bounds; choices = choices } }
    {
        Region { bounds, choices }
    }

    /// A copy; `Err` where memory was refused.
    pub fn copied(&self, alloc: Global) -> Result<Region, AllocError>
        ensures { IfOk result (λ copy. copy ≡ self.now) }
    {
        let bounds = self.bounds.copied(alloc)?;
        let choices = self.choices.copied(alloc)?;
        Ok(Region { bounds, choices })
    }

    /// The box.
    pub fn bounds(&self) -> &Bounds
        ensures { result.now ≡ self.now.box }
    {
        &self.bounds
    }

    /// The choices.
    pub fn choices(&self) -> &Choices
        ensures { result.now ≡ self.now.choices }
    {
        &self.choices
    }

    /// The sides of a column, by its number from 0.
    pub fn sides(&self, column: u32) -> Sides
        requires { column < length self.now.box }
        ensures { result ≡ sides_at self.now.box column }
    {
        self.bounds.sides(column)
    }

    /// The choice of a column, by its number from 0.
    pub fn choice(&self, column: u32) -> Choice
        ensures { result ≡ choice_at self.now.choices column }
    {
        self.choices.at(column)
    }

    /// Sets the sides and the choice of a column, by its number from 0; the choice of one past the end of the choices
    /// stays plain.
    pub(crate) fn set(&mut self, column: u32, sides: Sides, choice: Choice)
        requires { column < length self.old.box }
        ensures { self.new ≡ with_column self.old column sides choice }
    {
        self.bounds.set_sides(column, sides);
        self.choices.set(column, choice);
    }
}
