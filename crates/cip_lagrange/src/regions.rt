//! The box in which a tree is checked, and its halves.
ghost use Rattle.std.specs.Prelude.{◌≡◌, ◌<◌, ◌^◌, ◌≤◌, false, length, slice_set, unsigned_abs, Some, None};
ghost use Rattle.cip_rational.specs.Rational.{integer};
ghost use Rattle.cip_problem.specs.Box.{sides_at};
ghost use Rattle.cip_problem.specs.Choices.{choice_at, is_open};
ghost use Rattle.cip_lagrange.specs.TreeOutcomes.{node_in, half_of, open_half, whole_half};

use cip_frac::Frac;
use cip_lin::{Bounds, Choice, Choices, Sides};

/// A box with the choices of its columns; those past the end of the choices are plain. The check of a tree goes down to
/// the halves in it, and leaves it as it was.
#[derive(Drop)]
pub struct TreeRegion {
    /// The sides of each column.
    pub bounds: Bounds,
    /// What is chosen of each column.
    pub choices: Choices,
}

/// A half that a check goes down to: its number, and the split that gives it.
#[derive(Clone, Copy)]
pub(crate) struct Half {
    /// The number of the half.
    pub(crate) node: u128,
    /// The column.
    pub(crate) col: u32,
    /// The number that the column is split at.
    pub(crate) at: i128,
    /// Whether it is the high half.
    pub(crate) is_high: bool,
}

/// The sides of a column, whose choice is open, in a half.
fn open_half(sides: Sides, own: Sides, is_high: bool) -> Sides
    ensures { result ≡ open_half is_high own sides }
{
    if is_high {
        sides.met(own)
    } else {
        sides.met(Sides::zero())
    }
}

/// A whole number as a fraction.
fn whole(at: i128) -> Frac
    requires { unsigned_abs at ≤ 2 ^ 102 }
    ensures { result ≡ integer at }
{
    match Frac::whole(at) {
        Ok(value) => value,
        Err(_) => unreachable!(),
    }
}

/// The sides of a whole column in a half.
fn whole_half(sides: Sides, half: Half) -> Sides
    requires { unsigned_abs half.at ≤ 2 ^ 101 }
    ensures { result ≡ whole_half half.is_high half.at sides }
{
    if half.is_high {
        Sides {
            low: Some(whole(half.at + 1)),
            high: sides.high,
        }
    } else {
        Sides {
            low: sides.low,
            high: Some(whole(half.at)),
        }
    }
}

impl TreeRegion {
    /// Sets the sides and the choice of a column; one past the end of the choices stays plain.
    pub(crate) fn set(&mut self, col: u32, sides: Sides, choice: Choice)
        requires { col < length self.old.bounds }
        ensures bounds { self.new.bounds ≡ slice_set self.old.bounds col sides }
        ensures choices { self.new.choices ≡ slice_set self.old.choices col choice }
    {
        self.bounds.set_sides(col, sides);
        self.choices.set(col, choice);
    }

    /// Goes down to a half. With the sides and the choice of the column set again it is as it was.
    pub(crate) fn enter(&mut self, half: Half)
        requires inside { half.col < length self.old.bounds }
        requires near { is_open (choice_at self.old.choices half.col) ≡ false → unsigned_abs half.at ≤ 2 ^ 101 }
        ensures half { node_in self.new ≡ half_of half.is_high (node_in self.old) half.col half.at }
        ensures bounds { slice_set self.new.bounds half.col (sides_at self.old.bounds half.col) ≡ self.old.bounds }
        ensures choices { slice_set self.new.choices half.col (choice_at self.old.choices half.col)
            ≡ self.old.choices }
        ensures columns { length self.new.bounds ≡ length self.old.bounds }
    {
        let sides = self.bounds.sides(half.col);
        let choice = self.choices.at(half.col);
        match choice.own() {
            Some(own) => {
                let sides = open_half(sides, own, half.is_high);
                self.set(half.col, sides, Choice::made(half.is_high));
            }
            None => {
                let sides = whole_half(sides, half);
                self.set(half.col, sides, choice);
            }
        }
    }
}
