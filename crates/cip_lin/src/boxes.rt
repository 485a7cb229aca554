//! Boxes: a low and a high side for each column.
ghost use Rattle.std.specs.Prelude.{◌≡◌, ◌<◌, ◌++◌, ◌∷◌, [], ◌↔◌, IsTrue, length, slice_set, IfOk, OnOk, OnErr, replicate};
ghost use Rattle.cip_problem.specs.Box.{no_sides, sides_at, box_inside, sides_inside, low_inside, high_inside, two_wholes_between, sides_equal, at_least, at_most, is_between};
ghost use Rattle.cip_problem.specs.Choices.{greater, lesser, met, zero_sides};
ghost use Rattle.cip_lin.specs.MetSides.{is_past};

use cip_frac::Frac;
use std::alloc::{AllocError, Global};
use std::marker::Model;

/// The low and the high side of a column; a side that is not there is open.
#[derive(Clone, Copy, PartialEq, Eq)]
pub struct Sides {
    /// The least value, itself allowed.
    pub low: Option<Frac>,
    /// The greatest value, itself allowed.
    pub high: Option<Frac>,
}

impl Model for Sides {
    ghost use Rattle.cip_problem.specs.Program as problem;
    ghost use Rattle.cip_problem.specs.Codes.{sides_code};

    ghost Value = { problem.Sides };

    ghost coded = { sides_code };

    ghost view = { λ s. record { low = s.low; high = s.high } };

    ghost inverse = { λ s. record { low = s.low; high = s.high } };
}

/// Whether an own low side is at least as strong as an outer one.
fn is_low_inside(own: Option<Frac>, outer: Option<Frac>) -> bool
    ensures { result ≡ low_inside own outer }
{
    match (own, outer) {
        (_, None) => true,
        (None, Some(_)) => false,
        (Some(own), Some(outer)) => outer <= own,
    }
}

/// Whether an own high side is at least as strong as an outer one.
fn is_high_inside(own: Option<Frac>, outer: Option<Frac>) -> bool
    ensures { result ≡ high_inside own outer }
{
    match (own, outer) {
        (_, None) => true,
        (None, Some(_)) => false,
        (Some(own), Some(outer)) => own <= outer,
    }
}

/// Whether a value is at least a low side.
fn is_at_least(low: Option<Frac>, value: Frac) -> bool
    ensures { result ≡ at_least low value }
{
    match low {
        None => true,
        Some(side) => side <= value,
    }
}

/// Whether a value is at most a high side.
fn is_at_most(high: Option<Frac>, value: Frac) -> bool
    ensures { result ≡ at_most high value }
{
    match high {
        None => true,
        Some(side) => value <= side,
    }
}

/// The greater of two low sides, as far as they are there.
fn greater_of(low: Option<Frac>, other: Option<Frac>) -> Option<Frac>
    ensures { result ≡ greater low other }
{
    match (low, other) {
        (None, other) => other,
        (Some(side), None) => Some(side),
        (Some(side), Some(other)) => Some(if side <= other { other } else { side }),
    }
}

/// The lesser of two high sides, as far as they are there.
fn lesser_of(high: Option<Frac>, other: Option<Frac>) -> Option<Frac>
    ensures { result ≡ lesser high other }
{
    match (high, other) {
        (None, other) => other,
        (Some(side), None) => Some(side),
        (Some(side), Some(other)) => Some(if side <= other { side } else { other }),
    }
}

impl Sides {
    /// No side at all.
    pub fn open() -> Sides
        ensures { result ≡ no_sides }
    {
        Sides {
            low: None,
            high: None,
        }
    }

    /// Both sides at 0.
    pub fn zero() -> Sides
        ensures { result ≡ zero_sides }
    {
        Sides {
            low: Some(Frac::zero()),
            high: Some(Frac::zero()),
        }
    }

    /// These sides met with others: what lies between both.
    pub fn met(self, others: Sides) -> Sides
        ensures { result ≡ met self others }
    {
        Sides {
            low: greater_of(self.low, others.low),
            high: lesser_of(self.high, others.high),
        }
    }

    /// Whether the low side passes the high one, so that no value lies between them.
    pub fn cross(self) -> bool
        ensures { result ≡ is_past self.low self.high }
    {
        match (self.low, self.high) {
            (Some(low), Some(high)) => high < low,
            _ => false,
        }
    }

    /// Whether a value lies between the sides, each of which is allowed itself.
    pub fn contains(self, value: Frac) -> bool
        ensures { result ≡ is_between self.low self.high value }
    {
        is_at_least(self.low, value) && is_at_most(self.high, value)
    }

    /// Whether at least two whole numbers lie between the sides, which they do where one is open.
    pub fn has_two_wholes(self) -> bool
        ensures { result ≡ two_wholes_between self.low self.high }
    {
        match (self.low, self.high) {
            (Some(low), Some(high)) => low.ceil() < high.floor(),
            _ => true,
        }
    }

    /// Whether both sides are there and equal.
    pub fn is_fixed(self) -> bool
        ensures { result ≡ sides_equal self.low self.high }
    {
        match (self.low, self.high) {
            (Some(low), Some(high)) => low == high,
            _ => false,
        }
    }

    /// Whether these sides are at least as strong as those of `outer`.
    pub fn is_inside(self, outer: Sides) -> bool
        ensures { result ≡ sides_inside self outer }
    {
        is_low_inside(self.low, outer.low) && is_high_inside(self.high, outer.high)
    }
}

/// Whether each column's sides are at least as strong as those of an outer box.
fn is_box_inside(own: &[Sides], outer: &[Sides]) -> bool
    requires { length own.now ≡ length outer.now }
    ensures { result ≡ box_inside own.now outer.now }
{
    for at in 0..own.len() {
        if !own[at].is_inside(outer[at]) {
            return false;
        }
    }
    true
}

/// A box: the sides of each column, by its number.
#[derive(Drop)]
pub struct Bounds {
    sides: Vec<Sides>,
}

impl Model for Bounds {
    ghost use Rattle.std.specs.Prelude.{List};
    ghost use Rattle.cip_problem.specs.Program as problem;
    ghost use Rattle.cip_problem.specs.Codes.{box_code};

    ghost Value = { List problem.Sides };

    ghost coded = { box_code };

    ghost view = { λ b. b.sides.items };
}

impl Bounds {
    /// A box of so many columns without sides; `Err` where the memory for it was refused.
    pub fn new(alloc: Global, columns: usize) -> Result<Bounds, AllocError>
        ensures { IfOk result (λ bounds. bounds ≡ replicate columns no_sides) }
    {
        let sides = vec![in alloc; Sides::open(); columns]?;
        Ok(Bounds { sides })
    }

    /// The number of columns.
    pub fn len(&self) -> usize
        ensures { result ≡ length self.now }
    {
        self.sides.len()
    }

    /// Whether there is no column.
    pub fn is_empty(&self) -> bool
        ensures { IsTrue result ↔ (self.now ≡ []) }
    {
        self.sides.is_empty()
    }

    /// The sides of a column, by its number from 0.
    #[inline]
    pub fn sides(&self, column: u32) -> Sides
        requires { column < length self.now }
        ensures { result ≡ sides_at self.now column }
    {
        self.sides[column as usize]
    }

    /// The sides by column.
    pub fn as_slice(&self) -> &[Sides]
        ensures { result.now ≡ self.now }
    {
        self.sides.as_slice()
    }

    /// Sets the sides of a column, by its number from 0.
    pub fn set_sides(&mut self, column: u32, sides: Sides)
        requires { column < length self.old }
        ensures { self.new ≡ slice_set self.old column sides }
    {
        self.sides[column as usize] = sides;
    }

    /// Adds a column with these sides at the end. `Err` comes where a growth was refused, and changes
    /// nothing.
    pub fn push(&mut self, sides: Sides) -> Result<(), AllocError>
        ensures ok { OnOk result (self.new ≡ self.old ++ sides ∷ []) }
        ensures err { OnErr result (self.new ≡ self.old) }
    {
        self.sides.push(sides)?;
        Ok(())
    }

    /// A box of its own with the same sides; `Err` where the memory for it was refused.
    pub fn copied(&self, alloc: Global) -> Result<Bounds, AllocError>
        ensures { IfOk result (λ copy. copy ≡ self.now) }
    {
        let sides = self.sides.as_slice().to_vec(alloc)?;
        Ok(Bounds { sides })
    }

    /// Whether this box lies inside `outer`, of as many columns: each side of `outer` is met by one
    /// at least as strong.
    pub fn inside(&self, outer: &Bounds) -> bool
        requires { length self.now ≡ length outer.now }
        ensures { result ≡ box_inside self.now outer.now }
    {
        is_box_inside(self.sides.as_slice(), outer.sides.as_slice())
    }

    /// Whether at least two whole numbers lie between the sides of a column, which they do where one
    /// is open.
    pub fn has_two_wholes(&self, column: u32) -> bool
        requires { column < length self.now }
        ensures { let sides = sides_at self.now column in result ≡ two_wholes_between sides.low sides.high }
    {
        self.sides(column).has_two_wholes()
    }

    /// Whether both sides of a column are there and equal.
    pub fn is_fixed(&self, column: u32) -> bool
        requires { column < length self.now }
        ensures { let sides = sides_at self.now column in result ≡ sides_equal sides.low sides.high }
    {
        self.sides(column).is_fixed()
    }
}
