//! What an exchange writes, and how it is taken over.
ghost use Rattle.std.specs.Prelude.{◌≡◌, ◌≢◌, ℕ, ◌<◌, ◌^◌, true, false, length, Some, None, MatchResult};
ghost use Rattle.cip_rational.specs.Rational.{zeroℚ, inverse, is_zero};
ghost use Rattle.cip_problem.specs.Box.{sides_at};
ghost use Rattle.cip_problem.specs.Activity.{value_at};
ghost use Rattle.cip_bland.specs.Tables.{table, each};
ghost use Rattle.cip_bland.specs.Operations.{first_overflow};
ghost use Rattle.cip_dict.specs.Lists.{basic_in, entry_in};
ghost use Rattle.cip_dict.specs.Pivots.{solved_by, solved_operations_by, substituted_by, substituted_operations_by};
ghost use Rattle.cip_dict.specs.Row.{row_in, taken_form, AreMarked, HasRows, HasRowsAfter, HasSpelled};
ghost use Rattle.cip_bland.specs.Dictionary.{standing_value};
ghost use Rattle.cip_bland.specs.Exchange.{CanExchange};
ghost use Rattle.cip_bland.specs.MoveOperations.{exchange_operations};
ghost use Rattle.cip_dict.specs.MoveFaults.{IsMoveFault};
ghost use Rattle.cip_dict.specs.State.{state, HasLists, HasRoom};
ghost use Rattle.cip_dict.specs.Written.{entering_in, other_operations, OthersWritten, lines_operations, LinesWritten, moves_operations, MovesWritten, step_in, values_operations, IsPlanned, entered_form, IsTakenOver};

use crate::entries::{step_to, sum};
use crate::fault::{MoveFault, OutOfRange};
use crate::forms::{Form, count_room};
use crate::lines::{number_at, write_solved, write_substituted};
use crate::lists::{Lists, Room, Scratch};
use crate::pivots::{Exchange, Pivot};
use crate::rows::{take_rows, write_rows};
use crate::values::{Shift, take_values, value_of, write_moved};
use cip_bland::{Line, Stand};
use cip_frac::Frac;
use cip_lin::Sides;

/// Writes the row of the cost, and counts what it has room for then; `new` is the row of the variable that enters.
fn write_costs(
    pivot: &Pivot,
    new: &Form,
    costs: &Form,
    out: &mut Form,
    scratch: &mut Scratch,
) -> Result<(), MoveFault>
    requires few { length pivot.now.standing.now < 2 ^ 32 }
    requires leaving { pivot.now.leaving < length pivot.now.standing.now }
    requires entering { pivot.now.entering < length pivot.now.standing.now }
    requires new_long { length new.now ≡ length pivot.now.standing.now }
    requires new_spelled { HasSpelled new.now scratch.old.entering }
    requires is_leaving { value_at new.now pivot.now.leaving ≡ pivot.now.inverse }
    requires costs_long { length costs.now ≡ length pivot.now.standing.now }
    ensures written { let n = length pivot.now.standing.now in
        let operations =
        each n (substituted_operations_by Line.Cost pivot.now (value_at new.now) (value_at costs.now)) in
        MatchResult result
        (λ _. (first_overflow operations ≡ None)
        × (out.new ≡ table n (substituted_by pivot.now (value_at new.now) (value_at costs.now))))
        (IsMoveFault operations) }
    ensures long { length out.new ≡ length pivot.now.standing.now }
{
    let before = out.room();
    match write_substituted(Line::Cost, pivot, new, costs, out, scratch) {
        Ok(()) => (),
        Err(fault) => return Err(fault),
    }
    match count_room(out, before, &mut scratch.held) {
        Ok(()) => Ok(()),
        Err(_) => Err(MoveFault::NoMemory),
    }
}

/// Writes the rows that change and the row of the cost, where that of the variable that enters is written already.
fn write_others(pivot: &Pivot, lists: &Lists, room: &mut Room) -> Result<(), MoveFault>
    requires few { length pivot.now.standing.now < 2 ^ 32 }
    requires leaving { pivot.now.leaving < length pivot.now.standing.now }
    requires entering { pivot.now.entering < length pivot.now.standing.now }
    requires lists_long { HasLists pivot.now.standing.now lists.now }
    requires room_long { HasRoom pivot.now.standing.now room.old }
    requires is_spelled { HasSpelled room.old.entering room.old.scratch.entering }
    requires is_entering { let p = pivot.now in room.old.entering
        ≡ table (length p.standing.now) (entering_in p.standing.now p.leaving p.entering p.inverse lists.now) }
    ensures written { let p = pivot.now in
        let operations = other_operations p.standing.now p.leaving p.entering p.inverse lists.now in
        MatchResult result
        (λ _. (first_overflow operations ≡ None)
        × OthersWritten p.standing.now p.leaving p.entering p.inverse lists.now room.old room.new)
        (IsMoveFault operations) }
    ensures long { HasRoom pivot.now.standing.now room.new }
{
    let new = &room.entering;
    let rows = lists.rows.as_slice();
    let others = room.rows.as_mut_slice();
    let changed = room.changed.as_mut_slice();
    match write_rows(pivot, new, rows, others, changed, &mut room.scratch) {
        Ok(()) => (),
        Err(fault) => return Err(fault),
    }
    write_costs(pivot, new, &lists.costs, &mut room.costs, &mut room.scratch)
}

/// Writes the row of the variable that enters, by that of the one that leaves, and counts what it has room for then; it
/// isn't spelled yet. And writes the rows that change, and the row of the cost.
fn write_lines(pivot: &Pivot, lists: &Lists, room: &mut Room) -> Result<(), MoveFault>
    requires few { length pivot.now.standing.now < 2 ^ 32 }
    requires leaving { pivot.now.leaving < length pivot.now.standing.now }
    requires basic { basic_in pivot.now.standing.now pivot.now.leaving ≡ true }
    requires nonzero { is_zero pivot.now.inverse ≡ false }
    requires pivot { pivot.now.inverse
        ≡ inverse (entry_in lists.now.rows.items pivot.now.leaving pivot.now.entering) }
    requires entering { pivot.now.entering < length pivot.now.standing.now }
    requires lists_long { HasLists pivot.now.standing.now lists.now }
    requires room_long { HasRoom pivot.now.standing.now room.old }
    ensures written { let p = pivot.now in
        let operations = lines_operations p.standing.now p.leaving p.entering p.inverse lists.now in
        MatchResult result
        (λ _. (first_overflow operations ≡ None)
        × LinesWritten p.standing.now p.leaving p.entering p.inverse lists.now room.old room.new)
        (IsMoveFault operations) }
    ensures long { HasRoom pivot.now.standing.now room.new }
{
    let rows = lists.rows.as_slice();
    let before = room.entering.room();
    room.scratch.entering.is_done = false;
    match write_solved(pivot, &rows[pivot.leaving as usize], &mut room.entering) {
        Ok(()) => (),
        Err(fault) => return Err(fault),
    }
    match count_room(&room.entering, before, &mut room.scratch.held) {
        Ok(()) => (),
        Err(_) => return Err(MoveFault::NoMemory),
    }
    write_others(pivot, lists, room)
}

/// Writes the values after the variable that enters has moved by t, and answers the cost.
fn write_moves(pivot: &Pivot, t: Frac, lists: &Lists, room: &mut Room) -> Result<Frac, OutOfRange>
    requires few { length pivot.now.standing.now < 2 ^ 32 }
    requires entering { pivot.now.entering < length pivot.now.standing.now }
    requires lists_long { HasLists pivot.now.standing.now lists.now }
    requires room_long { HasRoom pivot.now.standing.now room.old }
    requires marked { AreMarked pivot.now.standing.now pivot.now.leaving pivot.now.entering lists.now.rows.items
        room.old.changed.items }
    ensures written { let p = pivot.now in
        MatchResult result
        (λ cost. (first_overflow (moves_operations p.standing.now p.entering t lists.now) ≡ None)
        × MovesWritten p.standing.now p.entering t lists.now room.old room.new cost)
        (λ fault. first_overflow (moves_operations p.standing.now p.entering t lists.now) ≡ Some fault.place) }
    ensures long { HasRoom pivot.now.standing.now room.new }
{
    let shift = Shift {
        rows: lists.rows.as_slice(),
        values: lists.values.as_slice(),
        by: t,
    };
    let changed = room.changed.as_slice();
    match write_moved(pivot, &shift, changed, room.values.as_mut_slice()) {
        Ok(()) => (),
        Err(fault) => return Err(fault),
    }
    let entry = lists.costs.entry(pivot.entering);
    sum(value_of(Line::Cost), lists.cost, entry, t)
}

/// Writes the values after an exchange, by which the one that leaves goes to a side, and answers the cost.
fn write_values(
    pivot: &Pivot,
    side: Frac,
    lists: &Lists,
    room: &mut Room,
) -> Result<Frac, OutOfRange>
    requires few { length pivot.now.standing.now < 2 ^ 32 }
    requires leaving { pivot.now.leaving < length pivot.now.standing.now }
    requires entering { pivot.now.entering < length pivot.now.standing.now }
    requires lists_long { HasLists pivot.now.standing.now lists.now }
    requires room_long { HasRoom pivot.now.standing.now room.old }
    requires marked { AreMarked pivot.now.standing.now pivot.now.leaving pivot.now.entering lists.now.rows.items
        room.old.changed.items }
    ensures written { let p = pivot.now in
        let operations = values_operations p.standing.now p.leaving p.entering side p.inverse lists.now in
        let t = step_in p.leaving side p.inverse lists.now in
        MatchResult result
        (λ cost. (first_overflow operations ≡ None)
        × MovesWritten p.standing.now p.entering t lists.now room.old room.new cost)
        (λ fault. first_overflow operations ≡ Some fault.place) }
    ensures long { HasRoom pivot.now.standing.now room.new }
{
    let value = number_at(lists.values.as_slice(), pivot.leaving as usize);
    match step_to(
        value_of(Line::Row(pivot.leaving)),
        side,
        value,
        pivot.inverse,
    ) {
        Ok(t) => write_moves(pivot, t, lists, room),
        Err(fault) => Err(fault),
    }
}

/// The value where a variable with these sides stands; 0 where the side isn't there.
pub(crate) fn value_at_stand(sides: Sides, at: Stand) -> Frac
    ensures { result ≡ standing_value sides at }
{
    match at {
        Stand::Low => sides.low.unwrap_or(Frac::zero()),
        Stand::High => sides.high.unwrap_or(Frac::zero()),
        Stand::Zero => Frac::zero(),
    }
}

/// The value where a variable stands, by its number; 0 where it hasn't that side.
pub(crate) fn side_of(sides: &[Sides], v: u32, at: Stand) -> Frac
    requires { v < length sides.now }
    ensures { result ≡ standing_value (sides_at sides.now v) at }
{
    value_at_stand(sides[v as usize], at)
}

/// Writes all that an exchange changes, and answers the cost after it.
pub(crate) fn plan(
    sides: &[Sides],
    standing: &[Option<Stand>],
    lists: &Lists,
    asked: Exchange,
    room: &mut Room,
) -> Result<Frac, MoveFault>
    requires few { length standing.now < 2 ^ 32 }
    requires sides_long { length sides.now ≡ length standing.now }
    requires lists_long { HasLists standing.now lists.now }
    requires room_long { HasRoom standing.now room.old }
    requires can { CanExchange (state sides.now standing.now lists.now) asked.leaving asked.entering asked.to }
    ensures written { let d = state sides.now standing.now lists.now in
        let operations = exchange_operations d asked.leaving asked.entering asked.to in
        MatchResult result
        (λ cost. (first_overflow operations ≡ None)
        × IsPlanned d asked.leaving asked.entering asked.to room.new cost)
        (IsMoveFault operations) }
    ensures long { HasRoom standing.now room.new }
{
    let rows = lists.rows.as_slice();
    let entry = rows[asked.leaving as usize].entry(asked.entering);
    let pivot = Pivot {
        standing,
        leaving: asked.leaving,
        entering: asked.entering,
        inverse: entry.reciprocal(),
    };
    match write_lines(&pivot, lists, room) {
        Ok(()) => (),
        Err(fault) => return Err(fault),
    }
    let side = side_of(sides, asked.leaving, asked.to);
    match write_values(&pivot, side, lists, room) {
        Ok(cost) => Ok(cost),
        Err(fault) => Err(MoveFault::OutOfRange { place: fault.place }),
    }
}

/// Puts the row of the variable j that enters into the place of j, and lets that of i go.
fn enter_row(i: u32, j: u32, rows: &mut [Form], entering: &mut Form)
    requires leaving { i < length rows.old }
    requires entering { j < length rows.old }
    requires apart { i ≢ j }
    ensures entered { (v : ℕ) → v < length rows.old
        → row_in rows.new v ≡ entered_form i j rows.old entering.old v }
    ensures count { length rows.new ≡ length rows.old }
    ensures left { entering.new ≡ row_in rows.old i }
{
    let leaving = &mut rows[i as usize];
    std::mem::swap(leaving, entering);
    rows.swap(i as usize, j as usize);
}

/// Puts two rows into each other's places.
fn swap_rows(i: u32, j: u32, rows: &mut [Form])
    requires leaving { i < length rows.old }
    requires entering { j < length rows.old }
    requires apart { i ≢ j }
    ensures swapped { (v : ℕ) → v < length rows.old
        → row_in rows.new v ≡ entered_form i j rows.old (row_in rows.old i) v }
    ensures count { length rows.new ≡ length rows.old }
{
    rows.swap(i as usize, j as usize);
}

/// Takes the rows that were written for those that they replace: those that change, and that of the variable that
/// enters.
fn take_over_rows(
    standing: &[Option<Stand>],
    asked: Exchange,
    changed: &[bool],
    rows: &mut [Form],
    other: &mut [Form],
    entering: &mut Form,
)
    requires leaving { asked.leaving < length standing.now }
    requires entering { asked.entering < length standing.now }
    requires basic { basic_in standing.now asked.leaving ≡ true }
    requires nonbasic { basic_in standing.now asked.entering ≡ false }
    requires marked { AreMarked standing.now asked.leaving asked.entering rows.old changed.now }
    requires rows_long { HasRows standing.now rows.old }
    requires other_long { HasRows standing.now other.old }
    requires entering_long { length entering.old ≡ length standing.now }
    ensures rows { let taken = taken_form standing.now asked.leaving asked.entering rows.old other.old in
        (v : ℕ) → v < length standing.now → row_in rows.new v
        ≡ entered_form asked.leaving asked.entering (table (length standing.now) taken) entering.old v }
    ensures rows_long { HasRowsAfter standing.now asked.leaving asked.entering rows.new }
    ensures other_long { HasRowsAfter standing.now asked.leaving asked.entering other.new }
    ensures entering_long { length entering.new ≡ length standing.now }
{
    take_rows(
        standing,
        asked.leaving,
        asked.entering,
        changed,
        rows,
        other,
    );
    enter_row(asked.leaving, asked.entering, rows, entering);
    swap_rows(asked.leaving, asked.entering, other);
}

/// Takes over what was planned: the rows, the costs, the values, the cost, and where the two variables then stand.
pub(crate) fn take_over(
    standing: &mut Vec<Option<Stand>>,
    asked: Exchange,
    cost: Frac,
    lists: &mut Lists,
    room: &mut Room,
)
    requires leaving { asked.leaving < length standing.old.items }
    requires entering { asked.entering < length standing.old.items }
    requires basic { basic_in standing.old.items asked.leaving ≡ true }
    requires nonbasic { basic_in standing.old.items asked.entering ≡ false }
    requires lists_long { HasLists standing.old.items lists.old }
    requires room_long { HasRoom standing.old.items room.old }
    requires marked { AreMarked standing.old.items asked.leaving asked.entering lists.old.rows.items
        room.old.changed.items }
    ensures { IsTakenOver standing.old.items asked.leaving asked.entering asked.to cost lists.old room.old
        standing.new.items lists.new room.new }
{
    let rows = lists.rows.as_mut_slice();
    let other = room.rows.as_mut_slice();
    let places = standing.as_slice();
    let changed = room.changed.as_slice();
    take_over_rows(places, asked, changed, rows, other, &mut room.entering);
    std::mem::swap(&mut lists.costs, &mut room.costs);
    let values = lists.values.as_mut_slice();
    take_values(places, asked.entering, values, room.values.as_slice());
    lists.cost = cost;
    standing[asked.leaving as usize] = Some(asked.to);
    standing[asked.entering as usize] = None;
}
