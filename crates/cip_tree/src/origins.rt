//! Halves of nodes that were split. A half keeps which one it is, and no sides: what a choice leaves is told by the
//! root's choice of the column.
ghost use Rattle.std.specs.Prelude.{◌≡◌, Some, cond};
ghost use Rattle.cip_problem.specs.Box.{no_sides};
ghost use Rattle.cip_tree.specs.Origins.{IsNear, filled, filled_sides, half_change, low_part, high_part};
ghost use Rattle.cip_tree.specs.declared.origins.Parting.TheVariants.{Whole};

use cip_domain::{Change, Choice, Choices, Sides, choice_change, high_change, low_change};
use std::marker::Model;

/// Which half of a column.
#[derive(Clone, Copy)]
pub(crate) enum Half {
    /// Values up to a whole number.
    AtMost,
    /// Values from the whole number after one on.
    AtLeast,
    /// The value 0, of a column whose choice was open.
    Off,
    /// The values between such a column's own sides.
    On,
}

/// What parts the values of a column.
#[derive(Clone, Copy)]
pub(crate) enum Parting {
    /// A whole number.
    Whole,
    /// The column's choice, which is open.
    Chosen,
}

/// How a split gave a node.
#[derive(Drop)]
pub(crate) struct Origin {
    at: i128,
    // the place of the node that was split
    parent: usize,
    col: u32,
    half: Half,
}

impl Model for Origin {
    ghost use Rattle.cip_tree.specs.Origins.{Origin as Meaning, origin_code, half_change, IsNear};

    ghost Value = { Meaning };

    ghost coded = { origin_code };

    ghost view = { λ o. record { parent = o.parent; change = half_change o.half o.col o.at } };

    ghost invariant = { λ o. IsNear o.at };
}

/// The change that makes a choice of a column, with the sides that this leaves.
fn made_change(col: u32, choice: Choice, on: bool) -> Change
    ensures { result ≡ record { column = col; sides = filled_sides choice (Some on) no_sides; made = Some on } }
{
    match choice.own() {
        Some(own) => choice_change(col, own, on),
        None => Change {
            col,
            sides: Sides::open(),
            made: Some(on),
        },
    }
}

impl Origin {
    /// The low or the high half of the node at a place.
    pub(crate) fn half(parting: Parting, is_low: bool, parent: usize, col: u32, at: i128) -> Origin
        requires { parting ≡ Whole → IsNear at }
        ensures { result ≡ record {
          parent = parent;
          change = half_change (cond is_low (low_part parting) (high_part parting)) col at;
        } }
    {
        let (half, at) = match (parting, is_low) {
            (Parting::Whole, true) => (Half::AtMost, at),
            (Parting::Whole, false) => (Half::AtLeast, at),
            (Parting::Chosen, true) => (Half::Off, 0),
            (Parting::Chosen, false) => (Half::On, 0),
        };
        Origin {
            at,
            parent,
            col,
            half,
        }
    }

    /// The place of the node that was split.
    pub(crate) fn parent(&self) -> usize
        ensures { result ≡ self.now.parent }
    {
        self.parent
    }

    /// The change that gave the node, with the sides that choices leave, which these are.
    pub(crate) fn change(&self, choices: &Choices) -> Change
        ensures { result ≡ filled choices.now self.now.change }
    {
        match self.half {
            Half::AtMost => low_change(self.col, self.at),
            Half::AtLeast => high_change(self.col, self.at),
            Half::Off => made_change(self.col, choices.at(self.col), false),
            Half::On => made_change(self.col, choices.at(self.col), true),
        }
    }
}
