//! The numbers of a group of rows.
ghost use Rattle.std.specs.Prelude.{◌≡◌, ◌++◌, ◌∷◌, [], ◌==◌, ◌&&◌, true, map, IfSome, IfOk, OnOk, OnErr};
ghost use Rattle.std.specs.List.{list_any};
ghost use Rattle.cip_text_rules.specs.MpsSoundState.{held_below, rises};
ghost use Rattle.cip_mps.specs.Entries.{numbers_of};
ghost use Rattle.cip_mps.specs.GroupEntries.{near_entry, far_entry};

use cip_frac::Frac;
use std::alloc::{AllocError, Global};
use std::marker::Model;

/// How many rows a group has.
pub(crate) const GROUP: usize = 64;

/// The number of a row in a column.
#[derive(Clone, Copy)]
pub struct Held {
    /// The number of the column.
    pub column: u32,
    /// What stands there.
    pub value: Frac,
}

impl Model for Held {
    ghost use Rattle.cip_text_rules.specs.MpsState as steps;
    ghost use Rattle.cip_mps.specs.Entries.{held_code};

    ghost Value = { steps.Held };

    ghost coded = { held_code };

    ghost view = { λ h. record { column = h.column; value = h.value } };

    ghost inverse = { λ h. record { column = h.column; value = h.value } };
}

/// A whole number of 32 bits, with its row in the group and its column.
#[derive(Clone, Copy)]
pub(crate) struct Near {
    pub(crate) row: u32,
    pub(crate) column: u32,
    pub(crate) value: i32,
}

/// Any number, with its row in the group and its column.
#[derive(Clone, Copy)]
pub(crate) struct Far {
    pub(crate) row: u32,
    pub(crate) column: u32,
    pub(crate) value: Frac,
}

/// The numbers of 64 rows in the order of the text: those of each row by rising column. The first are whole numbers of
/// 32 bits.
#[derive(Drop)]
pub(crate) struct Group {
    pub(crate) near: Vec<Near>,
    pub(crate) far: Vec<Far>,
}

impl Model for Group {
    ghost use Rattle.std.specs.Prelude.{List};
    ghost use Rattle.std.specs.Coded.{coded_list};
    ghost use Rattle.cip_mps.specs.Entries.{Entry, entry_code, AreRising};

    ghost Value = { List Entry };

    ghost coded = { coded_list entry_code };

    ghost use Rattle.cip_mps.specs.GroupEntries.{entries_of};

    ghost view = { λ g. entries_of g.near.items g.far.items };

    ghost invariant = { λ g. AreRising (entries_of g.near.items g.far.items) };
}

impl Near {
    /// The number without its row.
    #[inline]
    pub(crate) fn held(&self) -> Held
        ensures { result ≡ (near_entry self.now).held }
    {
        Held {
            column: self.column,
            value: Frac::from(self.value as i64),
        }
    }
}

impl Far {
    /// The number without its row.
    #[inline]
    pub(crate) fn held(&self) -> Held
        ensures { result ≡ (far_entry self.now).held }
    {
        Held {
            column: self.column,
            value: self.value,
        }
    }
}

/// The number in 32 bits, where it is whole and has no more.
fn near_of(row: u32, held: Held) -> Option<Near>
    ensures { IfSome result (λ near. near_entry near ≡ record { row = row; held = held }) }
{
    if !held.value.is_whole() {
        return None;
    }
    let value = held.value.numerator();
    if i32::MIN as i128 <= value && value <= i32::MAX as i128 {
        Some(Near {
            row,
            column: held.column,
            value: value as i32,
        })
    } else {
        None
    }
}

/// Whether a row has a number of 32 bits in a column.
fn any_near(near: &[Near], row: u32, column: u32) -> bool
    ensures { result ≡ list_any (λ n. n.column == column && n.row == row) near.now }
{
    for number in near {
        if number.column == column && number.row == row {
            return true;
        }
    }
    false
}

/// Whether a row has another number in a column.
fn any_far(far: &[Far], row: u32, column: u32) -> bool
    ensures { result ≡ list_any (λ n. n.column == column && n.row == row) far.now }
{
    for other in far {
        if other.column == column && other.row == row {
            return true;
        }
    }
    false
}

/// The numbers of a row, of those in 32 bits.
fn near_numbers(alloc: Global, near: &[Near], row: u32) -> Result<Vec<Held>, AllocError>
    ensures { IfOk result (λ numbers. numbers.items ≡ numbers_of row (map near_entry near.now)) }
{
    let mut numbers = Vec::new(alloc);
    for number in near {
        if number.row == row {
            numbers.push(number.held())?;
        }
    }
    Ok(numbers)
}

/// Puts the numbers of a row behind others. `Err` comes where a growth was refused.
fn add_far(numbers: &mut Vec<Held>, far: &[Far], row: u32) -> Result<(), AllocError>
    ensures { OnOk result (numbers.new.items ≡ numbers.old.items ++ numbers_of row (map far_entry far.now)) }
{
    for number in far {
        if number.row == row {
            numbers.push(number.held())?;
        }
    }
    Ok(())
}

impl Group {
    /// No number.
    pub(crate) fn new(alloc: Global) -> Group
        ensures { result ≡ [] }
    {
        Group {
            near: Vec::new(alloc),
            far: Vec::new(alloc),
        }
    }

    /// Whether a row has a number in a column.
    pub(crate) fn holds(&self, row: u32, column: u32) -> bool
        ensures { result ≡ list_any (λ h. h.column == column) (numbers_of row self.now) }
    {
        any_near(self.near.as_slice(), row, column) || any_far(self.far.as_slice(), row, column)
    }

    /// Puts a number of a row behind all others; its column is behind those of the row's others. `Err` comes where a
    /// growth was refused, and changes nothing.
    pub(crate) fn push(&mut self, row: u32, held: Held) -> Result<(), AllocError>
        requires { held_below held.column (numbers_of row self.old) ≡ true }
        ensures ok { OnOk result (self.new ≡ self.old ++ record { row = row; held = held } ∷ []) }
        ensures err { OnErr result (self.new ≡ self.old) }
    {
        if self.far.is_empty() {
            if let Some(near) = near_of(row, held) {
                self.near.push(near)?;
                return Ok(());
            }
        }
        self.far.push(Far {
            row,
            column: held.column,
            value: held.value,
        })?;
        Ok(())
    }

    /// The numbers of a row, by rising column. `Err` comes where a growth was refused.
    pub(crate) fn numbers(&self, alloc: Global, row: u32) -> Result<Vec<Held>, AllocError>
        ensures items { IfOk result (λ numbers. numbers.items ≡ numbers_of row self.now) }
        ensures rising { rises (numbers_of row self.now) ≡ true }
    {
        let mut numbers = near_numbers(alloc, self.near.as_slice(), row)?;
        add_far(&mut numbers, self.far.as_slice(), row)?;
        Ok(numbers)
    }
}
