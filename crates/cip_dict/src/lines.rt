//! The lines of a dictionary, entry by entry.
ghost use Rattle.std.specs.Prelude.{◌≡◌, ◌==◌, ◌<◌, ◌^◌, ◌∷◌, ◌++◌, List, [], true, false, pos, neg_ℤ, unsigned_abs, length, Some, None, OnOk, OnErr, IfOk, MatchResult, if◌then◌else◌};
ghost use Rattle.cip_rational.specs.Rational.{ℚ, inverse, ratio, is_zero};
ghost use Rattle.cip_bland.specs.declared.places.Line as places;
ghost use Rattle.cip_problem.specs.Activity.{value_at};
ghost use Rattle.cip_bland.specs.Tables.{table, each};
ghost use Rattle.cip_bland.specs.Operations.{Placed, first_overflow, entry_place};
ghost use Rattle.cip_dict.specs.Lists.{basic_in};
ghost use Rattle.cip_dict.specs.MoveFaults.{IsMoveFault};
ghost use Rattle.cip_dict.specs.Pivots.{absent_by, solved_by, solved_operations_by, substituted_by, substituted_operations_by, solved_on, solved_operations_on, substituted_on, substituted_operations_on};
ghost use Rattle.cip_dict.specs.Row.{HasSpelled};
ghost use Rattle.cip_dict.specs.SparseLines.{entry_on, kept_at, kept_of, AreKept};
ghost use Rattle.cip_dict.specs.WholeLines.{over, number_on, IsWhole, IsSpelled};

use crate::entries::{product, sum};
use crate::fault::{MoveFault, OutOfRange};
use crate::forms::Form;
use crate::kept::{entry_from, keep_entry, next_variable, place_past};
use crate::lists::{Scratch, Spelled};
use crate::pivots::Pivot;
use crate::whole::{Wholes, number_of};
use crate::whole_sums::put_whole;
use crate::whole_turns::turn_entries;
use cip_bland::{EntryPlace, Line, Stand};
use cip_frac::Frac;
use std::alloc::AllocError;

/// Whether a variable is basic.
#[inline(always)]
pub(crate) fn is_basic(standing: &[Option<Stand>], v: usize) -> bool
    requires { v < length standing.now }
    ensures { result ≡ basic_in standing.now v }
{
    standing[v].is_none()
}

/// The place of the entry of a line on a variable.
#[inline(always)]
pub(crate) fn place_on(line: Line, k: u32) -> EntryPlace
    ensures { result ≡ entry_place line k }
{
    EntryPlace {
        line,
        variable: Some(k),
    }
}

/// Whether no entry stands on variable k after an exchange: k is basic, or the one that enters. (The one that leaves is
/// asked for before.)
#[inline(always)]
pub(crate) fn is_absent_on(pivot: &Pivot, k: u32) -> bool
    requires { k < length pivot.now.standing.now }
    ensures { result ≡ absent_by pivot.now k }
{
    is_basic(pivot.standing, k as usize) || k == pivot.entering
}

/// The entry on variable k of the row of the variable that enters, where a stands on k in that of the one that leaves:
/// nothing where no entry stands, and else a negated, over the entry on the variable that enters.
#[inline(always)]
fn solved_entry(pivot: &Pivot, k: u32, a: Frac) -> Result<Frac, OutOfRange>
    requires { k < length pivot.now.standing.now }
    ensures { MatchResult result
        (λ v. (first_overflow (solved_operations_on pivot.now k a) ≡ None) × (v ≡ solved_on pivot.now k a))
        (λ fault. first_overflow (solved_operations_on pivot.now k a) ≡ Some fault.place) }
{
    if k == pivot.leaving {
        Ok(pivot.inverse)
    } else if is_absent_on(pivot, k) {
        Ok(Frac::zero())
    } else {
        product(
            place_on(Line::Row(pivot.entering), k),
            a.neg(),
            pivot.inverse,
        )
    }
}

/// The entry on variable k of another line, where a stands on k and b on the variable that enters, in whose row c
/// stands on k.
#[inline(always)]
fn substituted_entry(
    line: Line,
    pivot: &Pivot,
    k: u32,
    a: Frac,
    b: Frac,
    c: Frac,
) -> Result<Frac, OutOfRange>
    requires { k < length pivot.now.standing.now }
    ensures { let operations = substituted_operations_on line pivot.now k a b c in
        MatchResult result
        (λ v. (first_overflow operations ≡ None) × (v ≡ substituted_on pivot.now k a b c))
        (λ fault. first_overflow operations ≡ Some fault.place) }
{
    if k == pivot.leaving {
        product(place_on(line, k), b, pivot.inverse)
    } else if is_absent_on(pivot, k) {
        Ok(Frac::zero())
    } else {
        sum(place_on(line, k), a, b, c)
    }
}

/// Keeps the entry that was formed for variable k at the end, unless it is 0.
#[inline(always)]
fn keep_formed(
    out: &mut Vec<(u32, Frac)>,
    k: u32,
    formed: Result<Frac, OutOfRange>,
) -> Result<(), MoveFault>
    ensures written { (operations : List Placed) (value : ℚ)
        → MatchResult formed (λ v. (first_overflow operations ≡ None) × (v ≡ value))
        (λ fault. first_overflow operations ≡ Some fault.place)
        → MatchResult result
        (λ _. (first_overflow operations ≡ None) × (out.new.items ≡ out.old.items ++ kept_at k value))
        (IsMoveFault operations) }
    ensures left { OnErr result (out.new.items ≡ out.old.items) }
{
    match formed {
        Ok(entry) => match keep_entry(out, k, entry) {
            Ok(()) => Ok(()),
            Err(_) => Err(MoveFault::NoMemory),
        },
        Err(fault) => Err(MoveFault::OutOfRange { place: fault.place }),
    }
}

/// Keeps the entries of the row of the variable that enters: those on the variables on which `row`, that of the one
/// that leaves, has an entry, and that on the one that leaves, `leaving`.
fn solve_entries(
    pivot: &Pivot,
    row: &[(u32, Frac)],
    leaving: &[(u32, Frac)],
    out: &mut Vec<(u32, Frac)>,
) -> Result<(), MoveFault>
    requires few { length pivot.now.standing.now < 2 ^ 32 }
    requires row_kept { AreKept 0 (length pivot.now.standing.now) row.now }
    requires leaves { leaving.now ≡ (pivot.now.leaving, pivot.now.inverse) ∷ [] }
    requires leaving_kept { AreKept 0 (length pivot.now.standing.now) leaving.now }
    ensures written { let n = length pivot.now.standing.now in
        let operations = each n (solved_operations_by pivot.now (entry_on row.now)) in
        MatchResult result
        (λ _. (first_overflow operations ≡ None)
        × (out.new.items ≡ kept_of n (solved_by pivot.now (entry_on row.now))))
        (IsMoveFault operations) }
    ensures kept { AreKept 0 (length pivot.now.standing.now) out.new.items }
{
    out.clear();
    let len = pivot.standing.len() as u32;
    let mut here = 0;
    let mut there = 0;
    let mut k = next_variable(row, here, leaving, there, len);
    while k < len {
        let a = entry_from(row, here, k);
        match keep_formed(out, k, solved_entry(pivot, k, a)) {
            Ok(()) => (),
            Err(fault) => return Err(fault),
        }
        here = place_past(row, here, k);
        there = place_past(leaving, there, k);
        k = next_variable(row, here, leaving, there, len);
    }
    Ok(())
}

/// Whether a number is positive, and a denominator with its sign.
fn signed_below(n: i64, below: u64) -> (bool, i64)
    requires { below < 2 ^ 42 }
    ensures yes { result.0 ≡ true → n ≡ pos (unsigned_abs n) }
    ensures no { result.0 ≡ false → n ≡ neg_ℤ (pos (unsigned_abs n)) }
    ensures value { result.1 ≡ (if result.0 then pos below else neg_ℤ (pos below)) }
    ensures small { unsigned_abs result.1 < 2 ^ 42 }
{
    let signed = below as i64;
    if n > 0 {
        (true, signed)
    } else {
        (false, -signed)
    }
}

/// Writes the row of the variable that enters: `row`, that of the one that leaves, solved for it. Whole numbers are
/// turned round.
pub(crate) fn write_solved(pivot: &Pivot, row: &Form, out: &mut Form) -> Result<(), MoveFault>
    requires few { length pivot.now.standing.now < 2 ^ 32 }
    requires leaving { pivot.now.leaving < length pivot.now.standing.now }
    requires entering { pivot.now.entering < length pivot.now.standing.now }
    requires nonzero { is_zero pivot.now.inverse ≡ false }
    requires pivot { pivot.now.inverse ≡ inverse (value_at row.now pivot.now.entering) }
    requires row_long { length row.now ≡ length pivot.now.standing.now }
    ensures written { let n = length pivot.now.standing.now in
        let operations = each n (solved_operations_by pivot.now (value_at row.now)) in
        MatchResult result
        (λ _. (first_overflow operations ≡ None) × (out.new ≡ table n (solved_by pivot.now (value_at row.now))))
        (IsMoveFault operations) }
    ensures long { length out.new ≡ length pivot.now.standing.now }
{
    out.len = pivot.standing.len();
    out.is_whole = false;
    out.entries.clear();
    if row.is_whole {
        let wholes = row.wholes.as_slice();
        let own = number_of(wholes, pivot.entering);
        let (positive, d) = signed_below(own, row.below);
        let leaving = [(pivot.leaving, d)];
        match turn_entries(pivot, positive, d, wholes, &leaving, &mut out.wholes) {
            Ok(()) => {
                out.below = own.unsigned_abs();
                out.is_whole = true;
                return Ok(());
            }
            Err(_) => return Err(MoveFault::NoMemory),
        }
    }
    let leaving = [(pivot.leaving, pivot.inverse)];
    solve_entries(pivot, row.entries.as_slice(), &leaving, &mut out.entries)
}

/// Keeps the entries of another line, which has b on the variable that enters: the row of that, `new`, put in its
/// place.
fn substitute_entries(
    line: Line,
    pivot: &Pivot,
    b: Frac,
    new: &[(u32, Frac)],
    row: &[(u32, Frac)],
    out: &mut Vec<(u32, Frac)>,
) -> Result<(), MoveFault>
    requires few { length pivot.now.standing.now < 2 ^ 32 }
    requires row_kept { AreKept 0 (length pivot.now.standing.now) row.now }
    requires new_kept { AreKept 0 (length pivot.now.standing.now) new.now }
    requires leaving { entry_on new.now pivot.now.leaving ≡ pivot.now.inverse }
    requires on { b ≡ entry_on row.now pivot.now.entering }
    ensures written { let n = length pivot.now.standing.now in
        let operations = each n (substituted_operations_by line pivot.now (entry_on new.now) (entry_on row.now)) in
        MatchResult result
        (λ _. (first_overflow operations ≡ None)
        × (out.new.items ≡ kept_of n (substituted_by pivot.now (entry_on new.now) (entry_on row.now))))
        (IsMoveFault operations) }
    ensures kept { AreKept 0 (length pivot.now.standing.now) out.new.items }
{
    out.clear();
    let len = pivot.standing.len() as u32;
    let mut here = 0;
    let mut there = 0;
    let mut k = next_variable(row, here, new, there, len);
    while k < len {
        let a = entry_from(row, here, k);
        let c = entry_from(new, there, k);
        match keep_formed(out, k, substituted_entry(line, pivot, k, a, b, c)) {
            Ok(()) => (),
            Err(fault) => return Err(fault),
        }
        here = place_past(row, here, k);
        there = place_past(new, there, k);
        k = next_variable(row, here, new, there, len);
    }
    Ok(())
}

/// Writes another line in whole numbers, where that and the row of the variable that enters, `new`, are kept so and the
/// numbers stay small; answers whether it did.
fn put_form(
    pivot: &Pivot,
    new: &Form,
    row: &Form,
    out: &mut Form,
    sums: &mut Vec<(u32, i128)>,
) -> Result<bool, AllocError>
    requires few { length pivot.now.standing.now < 2 ^ 32 }
    requires entering { pivot.now.entering < length pivot.now.standing.now }
    requires leaving { pivot.now.leaving < length pivot.now.standing.now }
    requires new_long { length new.now ≡ length pivot.now.standing.now }
    requires row_long { length row.now ≡ length pivot.now.standing.now }
    requires is_leaving { value_at new.now pivot.now.leaving ≡ pivot.now.inverse }
    ensures written { let n = length pivot.now.standing.now in
        IfOk result (λ done. done ≡ true → (line : places.Line)
        → (first_overflow (each n (substituted_operations_by line pivot.now (value_at new.now) (value_at row.now)))
        ≡ None)
        × (out.new ≡ table n (substituted_by pivot.now (value_at new.now) (value_at row.now)))) }
    ensures long { length out.new ≡ length pivot.now.standing.now }
{
    out.len = pivot.standing.len();
    out.is_whole = false;
    out.entries.clear();
    if !row.is_whole || !new.is_whole {
        return Ok(false);
    }
    let own = Wholes {
        numbers: row.wholes.as_slice(),
        below: row.below,
    };
    let other = Wholes {
        numbers: new.wholes.as_slice(),
        below: new.below,
    };
    match put_whole(pivot, &own, &other, sums, &mut out.wholes) {
        Ok(Some(below)) => {
            out.below = below;
            out.is_whole = true;
            Ok(true)
        }
        Ok(None) => Ok(false),
        Err(error) => Err(error),
    }
}

/// Spells a line, where that isn't done. `Err` where memory was refused.
fn ensure_spelled(line: &Form, spelled: &mut Spelled) -> Result<(), AllocError>
    requires { HasSpelled line.now spelled.old }
    ensures done { OnOk result (IsSpelled (length line.now) line.now spelled.new.entries.items) }
    ensures has { HasSpelled line.now spelled.new }
{
    if !spelled.is_done {
        line.spell(&mut spelled.entries)?;
        spelled.is_done = true;
    }
    Ok(())
}

/// Writes another line: the row of the variable that enters, `new`, put in its place. In `scratch` that row is spelled,
/// where a line needs it so.
pub(crate) fn write_substituted(
    line: Line,
    pivot: &Pivot,
    new: &Form,
    row: &Form,
    out: &mut Form,
    scratch: &mut Scratch,
) -> Result<(), MoveFault>
    requires few { length pivot.now.standing.now < 2 ^ 32 }
    requires entering { pivot.now.entering < length pivot.now.standing.now }
    requires leaving { pivot.now.leaving < length pivot.now.standing.now }
    requires new_long { length new.now ≡ length pivot.now.standing.now }
    requires new_spelled { HasSpelled new.now scratch.old.entering }
    requires row_long { length row.now ≡ length pivot.now.standing.now }
    requires is_leaving { value_at new.now pivot.now.leaving ≡ pivot.now.inverse }
    ensures written { let n = length pivot.now.standing.now in
        let operations = each n (substituted_operations_by line pivot.now (value_at new.now) (value_at row.now)) in
        MatchResult result
        (λ _. (first_overflow operations ≡ None)
        × (out.new ≡ table n (substituted_by pivot.now (value_at new.now) (value_at row.now))))
        (IsMoveFault operations) }
    ensures long { length out.new ≡ length pivot.now.standing.now }
    ensures spelled { HasSpelled new.now scratch.new.entering }
{
    match put_form(pivot, new, row, out, &mut scratch.sums) {
        Ok(true) => return Ok(()),
        Ok(false) => (),
        Err(_) => return Err(MoveFault::NoMemory),
    }
    match ensure_spelled(new, &mut scratch.entering) {
        Ok(()) => (),
        Err(_) => return Err(MoveFault::NoMemory),
    }
    out.len = pivot.standing.len();
    out.is_whole = false;
    out.entries.clear();
    let b = row.entry(pivot.entering);
    match row.spell(&mut scratch.row) {
        Ok(()) => (),
        Err(_) => return Err(MoveFault::NoMemory),
    }
    let entering = scratch.entering.entries.as_slice();
    substitute_entries(
        line,
        pivot,
        b,
        entering,
        scratch.row.as_slice(),
        &mut out.entries,
    )
}

/// The entry of a line on variable k.
#[inline(always)]
pub(crate) fn number_at(row: &[Frac], k: usize) -> Frac
    requires { k < length row.now }
    ensures { result ≡ value_at row.now k }
{
    row[k]
}
