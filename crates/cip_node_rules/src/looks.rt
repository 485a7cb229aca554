//! The look of a box.
ghost use Rattle.std.specs.Prelude.{◌≤◌, ◌≡◌, length};
ghost use Rattle.cip_problem.specs.Limits.{most_columns};
ghost use Rattle.cip_node_rules.specs.BoxLooks.{IsBoxLook};

use crate::choices::choice_column;
use crate::columns::{lacking_column, open_column};
use cip_lin::{Bounds, Choices};

/// What the look of a node's box comes to.
#[derive(Clone, Copy, PartialEq, Eq)]
pub enum Looked {
    /// The box has no point, or a whole column of it has no whole value.
    Empty,
    /// Each whole column has one whole value, and no choice is open.
    Leaf,
    /// Each whole column has a whole value, and one of them has two, or a choice is open.
    Open,
}

/// What the look of a box comes to, by its whole columns and its choices: empty where a whole column has no whole
/// value, a leaf where each has one and no choice is open, and else open.
pub fn look_at(whole: &[bool], bounds: &Bounds, choices: &Choices) -> Looked
    requires columns { length whole.now ≤ most_columns }
    requires long { length whole.now ≡ length bounds.now }
    ensures { IsBoxLook whole.now bounds.now choices.now result }
{
    if lacking_column(whole, bounds).is_some() {
        return Looked::Empty;
    }
    if open_column(whole, bounds).is_some() {
        return Looked::Open;
    }
    match choice_column(whole.len(), choices) {
        None => Looked::Leaf,
        Some(_) => Looked::Open,
    }
}
