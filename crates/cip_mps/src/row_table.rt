//! The rows of a text.
ghost use Rattle.std.specs.Prelude.{◌≡◌, ◌<◌, ◌≤◌, ◌+◌, ◌*◌, ◌-◌, ◌^◌, ◌++◌, ◌∷◌, ◌==◌, [], ℕ, true, false, Some, None, length, take, slice_index_or, IfOk, OnOk, OnErr};
ghost use Rattle.std.specs.List.{list_any};
ghost use Rattle.cip_mps_lines.specs.MpsKinds.{row_kind_in};
ghost use Rattle.cip_text_rules.specs.MpsState.{no_row};
ghost use Rattle.cip_text_rules.specs.MpsSteps.{changed, new_row, overflows_with, with_held, with_right_side, with_range};
ghost use Rattle.cip_text_rules.specs.MpsSoundState.{held_below, rises};
ghost use Rattle.cip_mps.specs.Tables.{numbers_at};

use crate::groups::{GROUP, Group, Held};
use crate::row_head::RowHead;
use cip_frac::Frac;
use cip_mps_lines::RowKind;
use std::alloc::{AllocError, Global};
use std::marker::Model;

/// Rows in the order of a text: each with its type, its numbers by rising column, those that are 0 among them, and its
/// values in RHS and RANGES. The side that RANGES moves can be formed.
#[derive(Drop)]
pub struct RowTable {
    pub(crate) alloc: Global,
    pub(crate) heads: Vec<RowHead>,
    /// A number above the columns of all numbers of a row, for each row.
    pub(crate) held_to: Vec<u32>,
    /// The numbers of the first 64 rows, of the next 64, and so on.
    pub(crate) groups: Vec<Group>,
}

impl Model for RowTable {
    ghost use Rattle.std.specs.Prelude.{List};
    ghost use Rattle.std.specs.Coded.{coded_list};
    ghost use Rattle.cip_text_rules.specs.MpsState.{RowRead};
    ghost use Rattle.cip_mps.specs.Entries.{row_read_code};
    ghost use Rattle.cip_mps.specs.Tables.{rows_of, IsSoundTable};

    ghost Value = { List RowRead };

    ghost coded = { coded_list row_read_code };

    ghost view = { λ t. rows_of t.heads.items t.groups.items };

    ghost invariant = { λ t. IsSoundTable t.held_to.items t.heads.items t.groups.items };
}

/// Makes a group for the row of a number, where it has none yet. `Err` comes where a growth was refused.
fn make_group(alloc: Global, groups: &mut Vec<Group>, number: usize) -> Result<(), AllocError>
    requires { number ≤ 64 * length groups.old.items }
    ensures room { OnOk result (number < 64 * length groups.new.items) }
    ensures enough { number ≤ 64 * length groups.new.items }
    ensures same { (row : ℕ) → numbers_at groups.new.items row ≡ numbers_at groups.old.items row }
{
    if groups.len() <= number / GROUP {
        groups.push(Group::new(alloc))?;
    }
    Ok(())
}

impl RowTable {
    /// No row.
    pub fn new(alloc: Global) -> RowTable
        ensures { result ≡ [] }
    {
        RowTable {
            alloc,
            heads: Vec::new(alloc),
            held_to: Vec::new(alloc),
            groups: Vec::new(alloc),
        }
    }

    /// How many rows there are.
    pub fn len(&self) -> usize
        ensures { result ≡ length self.now }
    {
        self.heads.len()
    }

    /// Puts a row of this type at the end. `Err` comes where a growth was refused, and changes nothing.
    pub fn push(&mut self, kind: RowKind) -> Result<(), AllocError>
        ensures ok { OnOk result (self.new ≡ self.old ++ new_row (row_kind_in kind) ∷ []) }
        ensures err { OnErr result (self.new ≡ self.old) }
    {
        let number = self.heads.len();
        let Ok(()) = self.heads.reserve(1) else {
            return Err(AllocError);
        };
        let Ok(()) = self.held_to.reserve(1) else {
            return Err(AllocError);
        };
        let Ok(()) = make_group(self.alloc, &mut self.groups, number) else {
            return Err(AllocError);
        };
        self.heads.push_reserved(RowHead::new(kind));
        self.held_to.push_reserved(0);
        Ok(())
    }

    /// Takes the last row away, which has no numbers.
    pub fn pop(&mut self)
        requires some { 0 < length self.old }
        requires empty { (slice_index_or self.old (length self.old - 1) no_row).held ≡ [] }
        ensures { self.new ≡ take (length self.old - 1) self.old }
    {
        let count = self.heads.len() - 1;
        self.heads.truncate(count);
        self.held_to.truncate(count);
    }

    /// A row without its numbers.
    pub(crate) fn head(&self, number: usize) -> &RowHead
        requires { number < length self.now }
        ensures kind { result.now.kind ≡ (slice_index_or self.now number no_row).kind }
        ensures right_side { result.now.right_side ≡ (slice_index_or self.now number no_row).right_side }
        ensures range { result.now.range ≡ (slice_index_or self.now number no_row).range }
    {
        &self.heads[number]
    }

    /// Whether a row has a number in a column. Where the column is behind all of them no number is looked at.
    pub fn holds(&self, number: usize, column: u32) -> bool
        requires { number < length self.now }
        ensures { result ≡ list_any (λ h. h.column == column) (slice_index_or self.now number no_row).held }
    {
        if self.held_to[number] <= column {
            return false;
        }
        let group = &self.groups[number / GROUP];
        group.holds((number % GROUP) as u32, column)
    }

    /// Puts a number at the end of a row; its column is behind those of the row's others. `Err` comes where a growth
    /// was refused, and changes nothing.
    pub fn hold(&mut self, number: usize, column: u32, value: Frac) -> Result<(), AllocError>
        requires within { number < length self.old }
        requires few { column + 1 < 2 ^ 32 }
        requires behind { held_below column (slice_index_or self.old number no_row).held ≡ true }
        ensures ok { OnOk result (self.new ≡ changed no_row self.old (Some number) (with_held column value)) }
        ensures err { OnErr result (self.new ≡ self.old) }
    {
        let row = (number % GROUP) as u32;
        let group = &mut self.groups[number / GROUP];
        group.push(row, Held { column, value })?;
        self.held_to[number] = column + 1;
        Ok(())
    }

    /// Sets the value of a row in RHS, where there is none yet.
    pub fn set_right_side(&mut self, number: usize, value: Frac)
        requires within { number < length self.old }
        requires fits { overflows_with (Some value) None (Some (slice_index_or self.old number no_row)) ≡ false }
        ensures { self.new ≡ changed no_row self.old (Some number) (with_right_side value) }
    {
        let head = &mut self.heads[number];
        head.set_right_side(value);
    }

    /// Sets the value of a row in RANGES, where there is none yet.
    pub fn set_range(&mut self, number: usize, value: Frac)
        requires within { number < length self.old }
        requires fits { overflows_with None (Some value) (Some (slice_index_or self.old number no_row)) ≡ false }
        ensures { self.new ≡ changed no_row self.old (Some number) (with_range value) }
    {
        let head = &mut self.heads[number];
        head.set_range(value);
    }

    /// The numbers of a row, by rising column. `Err` comes where a growth was refused.
    pub fn numbers(&self, alloc: Global, number: usize) -> Result<Vec<Held>, AllocError>
        requires { number < length self.now }
        ensures items { IfOk result (λ numbers. numbers.items ≡ (slice_index_or self.now number no_row).held) }
        ensures rising { rises (slice_index_or self.now number no_row).held ≡ true }
    {
        let group = &self.groups[number / GROUP];
        group.numbers(alloc, (number % GROUP) as u32)
    }
}
