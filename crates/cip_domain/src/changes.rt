//! Changes of one column.
ghost use Rattle.std.specs.Prelude.{◌≡◌};
ghost use Rattle.cip_problem.specs.Choices.{met};
ghost use Rattle.cip_domain.specs.Domain.{is_settled as is_settled_lem};
ghost use Rattle.cip_domain.specs.Changes.{with_side, side_change, is_as_strong, choice_after};

use cip_lin::{Choice, Frac, Side, Sides};
use std::marker::Model;

/// A change of one column: its sides are met with others, and its choice may be made.
#[derive(Clone, Copy)]
pub struct Change {
    /// The number of the column, from 0.
    pub col: u32,
    /// Whether the column is on, where the change makes its choice.
    pub made: Option<bool>,
    /// The sides that its sides are met with.
    pub sides: Sides,
}

impl Model for Change {
    ghost use Rattle.cip_domain.specs.Changes.{Change as Meaning, change_code};

    ghost Value = { Meaning };

    ghost coded = { change_code };

    ghost view = { λ c. record { column = c.col; sides = c.sides; made = c.made } };

    ghost inverse = { λ c. record { col = c.column; sides = c.sides; made = c.made } };
}

impl Change {
    /// The change that meets one side of a column, by its number from 0, with a value.
    pub fn of_side(col: u32, side: Side, value: Frac) -> Change
        ensures { result ≡ side_change col side value }
    {
        Change {
            col,
            sides: with_value(Sides::open(), side, Some(value)),
            made: None,
        }
    }

    /// The sides of its column after the change.
    pub fn narrow(self, sides: Sides) -> Sides
        ensures { result ≡ met sides self.sides }
    {
        sides.met(self.sides)
    }

    /// The choice of its column after the change. A plain column has none, and one that is off stays off.
    pub fn choose(self, choice: Choice) -> Choice
        ensures { result ≡ choice_after choice self.made }
    {
        choice_past(choice, self.made)
    }
}

/// A choice after one was made, if it was.
pub(crate) fn choice_past(choice: Choice, made: Option<bool>) -> Choice
    ensures { result ≡ choice_after choice made }
{
    match made {
        Some(on) if choice.is_open() || choice.is_on() => Choice::made(on),
        _ => choice,
    }
}

/// Whether a choice is as a change would make it.
pub(crate) fn is_settled(choice: &Choice, made: Option<bool>) -> bool
    ensures { result ≡ is_settled_lem choice.now made }
{
    match made {
        None => true,
        Some(on) => !choice.is_open() && (on || !choice.is_on()),
    }
}

/// The sides with another value for one of them, `None` for an open one.
pub(crate) fn with_value(sides: Sides, side: Side, value: Option<Frac>) -> Sides
    ensures { result ≡ with_side sides side value }
{
    match side {
        Side::Low => Sides {
            low: value,
            high: sides.high,
        },
        Side::High => Sides {
            low: sides.low,
            high: value,
        },
    }
}

/// Whether a side is at least as strong as a value already.
pub(crate) fn is_strong(sides: Sides, side: Side, value: Frac) -> bool
    ensures { result ≡ is_as_strong sides side value }
{
    match side {
        Side::Low => match sides.low {
            None => false,
            Some(own) => value <= own,
        },
        Side::High => match sides.high {
            None => false,
            Some(own) => own <= value,
        },
    }
}
