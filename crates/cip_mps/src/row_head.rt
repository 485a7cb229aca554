//! A row without its numbers.
ghost use Rattle.std.specs.Prelude.{◌≡◌, false, None, Some};
ghost use Rattle.cip_mps_lines.specs.MpsKinds.{row_kind_in};
ghost use Rattle.cip_text_rules.specs.MpsProgram.{is_free};
ghost use Rattle.cip_text_rules.specs.MpsSteps.{or_else, new_row, overflows_with, with_right_side, with_range};
ghost use Rattle.cip_mps.specs.GroupedRows.{sides_or_open};

use cip_frac::Frac;
use cip_lin::Sides;
use cip_mps_lines::RowKind;
use cip_mps_sides::{is_free_kind, is_wide, row_sides};
use std::marker::Model;

/// A row without its numbers: its type, and its values in RHS and RANGES. The side that RANGES moves can be formed.
#[derive(Drop)]
pub(crate) struct RowHead {
    pub(crate) kind: RowKind,
    pub(crate) right_side: Option<Frac>,
    pub(crate) range: Option<Frac>,
}

impl Model for RowHead {
    ghost use Rattle.std.specs.Prelude.{[]};
    ghost use Rattle.cip_mps_lines.specs.MpsKinds.{row_kind_in};
    ghost use Rattle.cip_text_rules.specs.MpsState as steps;
    ghost use Rattle.cip_mps.specs.Entries.{row_read_code};
    ghost use Rattle.cip_mps.specs.Tables.{HasSides};

    ghost Value = { steps.RowRead };

    ghost coded = { row_read_code };

    ghost view = { λ r. record {
      kind = row_kind_in r.kind;
      held = [];
      right_side = r.right_side;
      range = r.range;
    } };

    ghost invariant = { λ r. HasSides (record {
      kind = row_kind_in r.kind;
      held = [];
      right_side = r.right_side;
      range = r.range;
    }) };
}

/// The first of two values that is there.
fn either(first: Option<Frac>, other: Option<Frac>) -> Option<Frac>
    ensures { result ≡ or_else first other }
{
    match first {
        Some(value) => Some(value),
        None => other,
    }
}

impl RowHead {
    /// A row of this type.
    pub(crate) fn new(kind: RowKind) -> RowHead
        ensures { result ≡ new_row (row_kind_in kind) }
    {
        RowHead {
            kind,
            right_side: None,
            range: None,
        }
    }

    /// Whether it is of type N.
    pub(crate) fn is_free(&self) -> bool
        ensures { result ≡ is_free self.now.kind }
    {
        is_free_kind(self.kind)
    }

    /// Whether a side can't be formed with a value in RHS, which counts where there is none yet.
    pub(crate) fn is_wide_with_right_side(&self, value: Frac) -> bool
        ensures { result ≡ overflows_with (Some value) None (Some self.now) }
    {
        let right_side = either(self.right_side, Some(value)).unwrap_or(Frac::zero());
        is_wide(self.kind, right_side, self.range)
    }

    /// Whether a side can't be formed with a value in RANGES, which counts where there is none yet.
    pub(crate) fn is_wide_with_range(&self, value: Frac) -> bool
        ensures { result ≡ overflows_with None (Some value) (Some self.now) }
    {
        let right_side = self.right_side.unwrap_or(Frac::zero());
        is_wide(self.kind, right_side, either(self.range, Some(value)))
    }

    /// Sets the value in RHS, where there is none yet.
    pub(crate) fn set_right_side(&mut self, value: Frac)
        requires { overflows_with (Some value) None (Some self.old) ≡ false }
        ensures { self.new ≡ with_right_side value self.old }
    {
        self.right_side = either(self.right_side, Some(value));
    }

    /// Sets the value in RANGES, where there is none yet.
    pub(crate) fn set_range(&mut self, value: Frac)
        requires { overflows_with None (Some value) (Some self.old) ≡ false }
        ensures { self.new ≡ with_range value self.old }
    {
        self.range = either(self.range, Some(value));
    }

    /// Its sides; open ones where it is of type N.
    pub(crate) fn sides(&self) -> Sides
        ensures { result ≡ sides_or_open self.now }
    {
        if is_free_kind(self.kind) {
            return Sides::open();
        }
        let right_side = self.right_side.unwrap_or(Frac::zero());
        row_sides(self.kind, right_side, self.range)
    }
}
