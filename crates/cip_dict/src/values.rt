//! The values of a dictionary after a variable has moved.
ghost use Rattle.std.specs.Prelude.{◌≡◌, ◌<◌, ◌^◌, true, false, length, Some, None, MatchResult, if◌then◌else◌};
ghost use Rattle.cip_rational.specs.Rational.{◌+ℚ◌};
ghost use Rattle.cip_problem.specs.Activity.{value_at};
ghost use Rattle.cip_bland.specs.Tables.{table, each};
ghost use Rattle.cip_bland.specs.Operations.{first_overflow, value_place};
ghost use Rattle.cip_bland.specs.declared.places.Line.TheVariants.{Row};
ghost use Rattle.std.specs.Bool.{MatchBool};
ghost use Rattle.cip_dict.specs.Lists.{basic_in};
ghost use Rattle.cip_dict.specs.Pivots.{changes_by};
ghost use Rattle.cip_dict.specs.Row.{AreMarked, HasRows};
ghost use Rattle.cip_dict.specs.Values.{IsAdded, moved_in, moved_operations_in, flipped_operations_in, value_moves, taken_value};

use crate::fault::OutOfRange;
use crate::forms::Form;
use crate::lines::{is_basic, number_at};
use crate::pivots::Pivot;
use cip_bland::{EntryPlace, Line, Stand};
use cip_frac::Frac;

/// By how much a variable moves, and what moves with it.
#[derive(Clone, Copy)]
pub(crate) struct Shift<'a> {
    /// The rows of all variables.
    pub(crate) rows: &'a [Form],
    /// Their values before.
    pub(crate) values: &'a [Frac],
    /// By how much.
    pub(crate) by: Frac,
}

/// The place of the value of a line.
#[inline(always)]
pub(crate) fn value_of(line: Line) -> EntryPlace
    ensures { result ≡ record { line = line; variable = None } }
{
    EntryPlace {
        line,
        variable: None,
    }
}

/// An operation at the value of variable v leaves the range.
#[cold]
fn out_of_range(v: usize) -> OutOfRange
    requires { v < 2 ^ 32 }
    ensures { result.place ≡ value_place (Row v) }
{
    OutOfRange {
        place: value_of(Line::Row(v as u32)),
    }
}

/// Whether a variable's value may change as j moves: it is basic, or j.
#[inline(always)]
fn is_moved(standing: &[Option<Stand>], j: u32, v: usize) -> bool
    requires { v < length standing.now }
    ensures { result ≡ value_moves standing.now j v }
{
    is_basic(standing, v) || v == j as usize
}

/// Writes the value of variable v after the one that enters has moved, if it may change; `false` where an operation
/// leaves the range. A row that doesn't change has no entry on the one that enters, but for the row of the one that
/// leaves.
#[inline(always)]
fn move_on(pivot: &Pivot, shift: &Shift, changed: &[bool], v: usize, value: &mut Frac) -> bool
    requires few { length pivot.now.standing.now < 2 ^ 32 }
    requires entering { pivot.now.entering < length pivot.now.standing.now }
    requires within { v < length pivot.now.standing.now }
    requires rows_long { HasRows pivot.now.standing.now shift.now.rows.now }
    requires values_long { length shift.now.values.now ≡ length pivot.now.standing.now }
    requires marked { AreMarked pivot.now.standing.now pivot.now.leaving pivot.now.entering shift.now.rows.now
        changed.now }
    ensures { let p = pivot.now in
        let s = shift.now in
        let operations = moved_operations_in p.standing.now s.rows.now p.entering s.by s.values.now v in
        MatchBool result
        ((first_overflow operations ≡ None)
        × ((if value_moves p.standing.now p.entering v then value.new else value_at s.values.now v)
        ≡ moved_in p.standing.now s.rows.now p.entering s.by s.values.now v))
        (first_overflow operations ≡ Some (value_place (Row v))) }
{
    if v == pivot.entering as usize {
        *value = number_at(shift.values, v);
        value.add_assign(shift.by)
    } else if is_basic(pivot.standing, v) {
        *value = number_at(shift.values, v);
        if changed[v] || v == pivot.leaving as usize {
            shift.rows[v].add_times(pivot.entering, shift.by, value)
        } else {
            true
        }
    } else {
        true
    }
}

/// Writes the values of basic variables and of the one that enters after that has moved, where the rows that change are
/// marked.
pub(crate) fn write_moved(
    pivot: &Pivot,
    shift: &Shift,
    changed: &[bool],
    out: &mut [Frac],
) -> Result<(), OutOfRange>
    requires few { length pivot.now.standing.now < 2 ^ 32 }
    requires entering { pivot.now.entering < length pivot.now.standing.now }
    requires rows_long { HasRows pivot.now.standing.now shift.now.rows.now }
    requires values_long { length shift.now.values.now ≡ length pivot.now.standing.now }
    requires out_long { length out.old ≡ length pivot.now.standing.now }
    requires marked { AreMarked pivot.now.standing.now pivot.now.leaving pivot.now.entering shift.now.rows.now
        changed.now }
    ensures written { let p = pivot.now in
        let s = shift.now in
        let n = length p.standing.now in
        let operations = each n (moved_operations_in p.standing.now s.rows.now p.entering s.by s.values.now) in
        MatchResult result
        (λ _. (first_overflow operations ≡ None)
        × (table n (taken_value p.standing.now p.entering s.values.now out.new)
        ≡ table n (moved_in p.standing.now s.rows.now p.entering s.by s.values.now)))
        (λ fault. first_overflow operations ≡ Some fault.place) }
    ensures long { length out.new ≡ length out.old }
{
    for v in 0..pivot.standing.len() {
        if !move_on(pivot, shift, changed, v, &mut out[v]) {
            return Err(out_of_range(v));
        }
    }
    Ok(())
}

/// Writes the value of variable v after j, which isn't basic, has flipped to a side, if it may change; `false` where an
/// operation leaves the range. For the value of j nothing is formed.
#[inline(always)]
fn flip_on(
    standing: &[Option<Stand>],
    shift: &Shift,
    j: u32,
    side: Frac,
    v: usize,
    value: &mut Frac,
) -> bool
    requires few { length standing.now < 2 ^ 32 }
    requires flips { j < length standing.now }
    requires nonbasic { basic_in standing.now j ≡ false }
    requires arrives { side ≡ value_at shift.now.values.now j +ℚ shift.now.by }
    requires within { v < length standing.now }
    requires rows_long { HasRows standing.now shift.now.rows.now }
    requires values_long { length shift.now.values.now ≡ length standing.now }
    ensures { let s = shift.now in
        let operations = flipped_operations_in standing.now s.rows.now j s.by s.values.now v in
        MatchBool result
        ((first_overflow operations ≡ None)
        × ((if value_moves standing.now j v then value.new else value_at s.values.now v)
        ≡ moved_in standing.now s.rows.now j s.by s.values.now v))
        (first_overflow operations ≡ Some (value_place (Row v))) }
{
    if v == j as usize {
        *value = side;
        true
    } else if is_basic(standing, v) {
        *value = number_at(shift.values, v);
        shift.rows[v].add_times(j, shift.by, value)
    } else {
        true
    }
}

/// Writes the values of basic variables and of j after j, which isn't basic, has flipped to a side.
pub(crate) fn write_flipped(
    standing: &[Option<Stand>],
    shift: &Shift,
    j: u32,
    side: Frac,
    out: &mut [Frac],
) -> Result<(), OutOfRange>
    requires few { length standing.now < 2 ^ 32 }
    requires flips { j < length standing.now }
    requires nonbasic { basic_in standing.now j ≡ false }
    requires arrives { side ≡ value_at shift.now.values.now j +ℚ shift.now.by }
    requires rows_long { HasRows standing.now shift.now.rows.now }
    requires values_long { length shift.now.values.now ≡ length standing.now }
    requires out_long { length out.old ≡ length standing.now }
    ensures written { let s = shift.now in
        let n = length standing.now in
        let operations = each n (flipped_operations_in standing.now s.rows.now j s.by s.values.now) in
        MatchResult result
        (λ _. (first_overflow operations ≡ None)
        × (table n (taken_value standing.now j s.values.now out.new)
        ≡ table n (moved_in standing.now s.rows.now j s.by s.values.now)))
        (λ fault. first_overflow operations ≡ Some fault.place) }
    ensures long { length out.new ≡ length out.old }
{
    for v in 0..standing.len() {
        if !flip_on(standing, shift, j, side, v, &mut out[v]) {
            return Err(out_of_range(v));
        }
    }
    Ok(())
}

/// Takes the values of basic variables and of j from another list.
pub(crate) fn take_values(standing: &[Option<Stand>], j: u32, values: &mut [Frac], other: &[Frac])
    requires values_long { length values.old ≡ length standing.now }
    requires other_long { length other.now ≡ length standing.now }
    ensures { values.new ≡ table (length standing.now) (taken_value standing.now j values.old other.now) }
{
    for v in 0..standing.len() {
        if is_moved(standing, j, v) {
            values[v] = number_at(other, v);
        }
    }
}
