//! The first state of a linear program.
ghost use Rattle.std.specs.Prelude.{◌≡◌, ℕ, ◌+◌, ◌-◌, ◌<◌, ◌≤◌, ◌^◌, ◌++◌, length, Some, None, MatchResult, IfOk, OnOk, replicate, slice_set};
ghost use Rattle.cip_rational.specs.Rational.{zeroℚ};
ghost use Rattle.cip_problem.specs.Activity.{value_at};
ghost use Rattle.cip_bland.specs.Tables.{table, each, form};
ghost use Rattle.cip_bland.specs.FirstState.{first, first_stand, first_operations};
ghost use Rattle.cip_bland.specs.Operations.{first_overflow};
ghost use Rattle.cip_dict.specs.Row.{row_in, row_length};
ghost use Rattle.cip_dict.specs.Entries.{entry_from, AreWithin, system_in, IsRowFault, IsFirstFault};
ghost use Rattle.cip_dict.specs.FirstLists.{stand_in, cost_in, column_value, row_form, row_operations, row_of_entries, column_values_of, value_operations_at, value_operations};
ghost use Rattle.cip_dict.specs.State.{state, HasLists, HasRoom};

use crate::exchange::value_at_stand;
use crate::fault::{FirstFault, OutOfRange};
use crate::forms::{Form, room_of};
use crate::lines::is_basic;
use crate::lists::{Lists, Room, Scratch, Spelled};
use crate::settle::settle_lists;
use crate::spare::{Spare, emptied, filled, keep, taken};
use cip_bland::{Line, Stand};
use cip_frac::Frac;
use cip_lin::Sides;
use std::alloc::{AllocError, Global};

/// A linear program: its entries, each a row, a column and the coefficient there, the sides of rows and of columns, and
/// the costs.
#[derive(Clone, Copy)]
pub(crate) struct System<'a> {
    pub(crate) entries: &'a [(u32, u32, Frac)],
    pub(crate) rows: &'a [Sides],
    pub(crate) columns: &'a [Sides],
    pub(crate) costs: &'a [Frac],
}

/// Where a column with these sides stands at first.
fn first_stand(sides: Sides) -> Stand
    ensures { result ≡ first_stand sides }
{
    match (sides.low, sides.high) {
        (Some(_), _) => Stand::Low,
        (None, Some(_)) => Stand::High,
        (None, None) => Stand::Zero,
    }
}

/// Where variable v stands at first: a column at a side or at 0; a row is basic.
fn stand_of(columns: &[Sides], v: usize) -> Option<Stand>
    ensures { result ≡ stand_in columns.now v }
{
    if v < columns.len() {
        Some(first_stand(columns[v]))
    } else {
        None
    }
}

/// Where all n variables stand at first; `Err` where the memory was refused.
pub(crate) fn first_stands(
    alloc: Global,
    spare: &mut Spare,
    columns: &[Sides],
    n: usize,
) -> Result<Vec<Option<Stand>>, AllocError>
    ensures { IfOk result (λ standing. standing.items ≡ table n (stand_in columns.now)) }
{
    let mut standing = emptied(alloc, &mut spare.stands);
    for v in 0..n {
        let Ok(()) = standing.push(stand_of(columns, v)) else {
            drop(standing);
            return Err(AllocError);
        };
    }
    Ok(standing)
}

/// A row of zeros for a basic variable, and none for another.
fn empty_row(alloc: Global, spare: &mut Spare, standing: &[Option<Stand>], v: usize) -> Form
    requires { v < length standing.now }
    ensures { result ≡ replicate (row_length standing.now v) zeroℚ }
{
    if is_basic(standing, v) {
        Form::zeros(alloc, spare, standing.len())
    } else {
        Form {
            entries: Vec::new(alloc),
            wholes: Vec::new(alloc),
            below: 1,
            is_whole: true,
            len: 0,
        }
    }
}

/// A row of zeros for each basic variable, and none for the others; `Err` where the memory was refused.
fn empty_rows(
    alloc: Global,
    spare: &mut Spare,
    standing: &[Option<Stand>],
) -> Result<Vec<Form>, AllocError>
    ensures { IfOk result (λ rows. rows.items
        ≡ table (length standing.now) (λ v. replicate (row_length standing.now v) zeroℚ)) }
{
    let mut rows = emptied(alloc, &mut spare.forms);
    for v in 0..standing.len() {
        let row = empty_row(alloc, spare, standing, v);
        let Ok(()) = rows.push(row) else {
            drop(rows);
            return Err(AllocError);
        };
    }
    Ok(rows)
}

/// The costs of all n variables: those of the columns, and 0 for rows; `Err` where the memory was refused.
fn all_costs(alloc: Global, spare: &mut Spare, costs: &[Frac], n: usize) -> Result<Form, AllocError>
    requires few { n < 2 ^ 32 }
    requires columns { length costs.now ≤ n }
    ensures { IfOk result (λ all. all ≡ table n (cost_in costs.now)) }
{
    let mut all = Form::zeros(alloc, spare, n);
    for k in 0..costs.len() {
        all.set(k as u32, costs[k])?;
    }
    Ok(all)
}

/// Puts all entries into their rows, which are those of the variables past the columns by their numbers. The last that
/// names a row and a column counts. `Err` where the memory was refused.
fn put_entries(
    columns: usize,
    entries: &[(u32, u32, Frac)],
    rows: &mut [Form],
    m: usize,
) -> Result<(), AllocError>
    requires count { columns + m ≡ length rows.old }
    requires within { AreWithin m columns entries.now }
    requires long { (v : ℕ) → columns ≤ v → v < length rows.old → columns ≤ length (row_in rows.old v) }
    ensures put { OnOk result ((v k : ℕ) → columns ≤ v → v < length rows.old → value_at (row_in rows.new v) k
        ≡ entry_from (value_at (row_in rows.old v) k) entries.now (v - columns) k) }
    ensures rest { OnOk result ((v : ℕ) → v < columns → row_in rows.new v ≡ row_in rows.old v) }
    ensures count { length rows.new ≡ length rows.old }
    ensures long { OnOk result ((v : ℕ) → length (row_in rows.new v) ≡ length (row_in rows.old v)) }
{
    for entry in entries {
        let row = &mut rows[columns + entry.0 as usize];
        row.set(entry.1, entry.2)?;
    }
    Ok(())
}

/// The rows of all variables at first; `Err` where the memory was refused.
fn first_rows(
    alloc: Global,
    spare: &mut Spare,
    standing: &[Option<Stand>],
    columns: &[Sides],
    entries: &[(u32, u32, Frac)],
    m: usize,
) -> Result<Vec<Form>, AllocError>
    requires few { length columns.now + m < 2 ^ 32 }
    requires stands { standing.now ≡ table (length columns.now + m) (stand_in columns.now) }
    requires within { AreWithin m (length columns.now) entries.now }
    ensures { IfOk result (λ rows. rows.items
        ≡ table (length columns.now + m) (row_of_entries (length columns.now) m entries.now)) }
{
    let mut rows = empty_rows(alloc, spare, standing)?;
    put_entries(columns.len(), entries, rows.as_mut_slice(), m)?;
    Ok(rows)
}

/// Puts the values of the m rows at the end, and answers the cost; the columns have the values `at`.
fn rows_and_cost(
    columns: usize,
    m: usize,
    rows: &[Form],
    costs: &Form,
    at: &[Frac],
    values: &mut Vec<Frac>,
) -> Result<Frac, FirstFault>
    requires few { columns + m < 2 ^ 32 }
    requires count { length rows.now ≡ columns + m }
    requires long { (r : ℕ) → r < m → columns ≤ length (row_in rows.now (columns + r)) }
    requires costs_long { columns ≤ length costs.now }
    requires at_long { columns ≤ length at.now }
    ensures { let operations = value_operations_at columns m rows.now costs.now at.now in
        MatchResult result
        (λ cost. (first_overflow operations ≡ None)
        × (values.new.items ≡ values.old.items ++ table m (row_form columns rows.now at.now))
        × (cost ≡ form columns (value_at costs.now) (value_at at.now)))
        (IsRowFault operations) }
{
    for r in 0..m {
        let line = Line::Row((columns + r) as u32);
        let value = match rows[columns + r].value(line, columns, at) {
            Ok(value) => value,
            Err(fault) => return Err(FirstFault::OutOfRange { place: fault.place }),
        };
        match values.push(value) {
            Ok(()) => (),
            Err(_) => return Err(FirstFault::NoMemory),
        }
    }
    match costs.value(Line::Cost, columns, at) {
        Ok(cost) => Ok(cost),
        Err(fault) => Err(FirstFault::OutOfRange { place: fault.place }),
    }
}

/// All values at first, and the cost: those of the columns, of the rows and of the cost, in this order.
fn all_values(
    alloc: Global,
    spare: &mut Spare,
    columns: &[Sides],
    m: usize,
    rows: &[Form],
    costs: &Form,
) -> Result<(Vec<Frac>, Frac), FirstFault>
    requires few { length columns.now + m < 2 ^ 32 }
    requires count { length rows.now ≡ length columns.now + m }
    requires long { (r : ℕ) → r < m → length columns.now ≤ length (row_in rows.now (length columns.now + r)) }
    requires costs_long { length columns.now ≤ length costs.now }
    ensures { MatchResult result
        (λ all. (first_overflow (value_operations columns.now m rows.now costs.now) ≡ None)
        × (all.0.items ≡ table (length columns.now) (column_value columns.now)
        ++ table m (row_form (length columns.now) rows.now (column_values_of columns.now)))
        × (all.1 ≡ form (length columns.now) (value_at costs.now) (value_at (column_values_of columns.now))))
        (IsRowFault (value_operations columns.now m rows.now costs.now)) }
{
    let mut at = emptied(alloc, &mut spare.numbers);
    for k in 0..columns.len() {
        let sides = columns[k];
        let Ok(()) = at.push(value_at_stand(sides, first_stand(sides))) else {
            drop(at);
            return Err(FirstFault::NoMemory);
        };
    }
    let begun = at.as_slice();
    let mut values = emptied(alloc, &mut spare.numbers);
    values.extend_from_slice(begun)?;
    let found = rows_and_cost(columns.len(), m, rows, costs, begun, &mut values);
    keep(&mut spare.numbers, at);
    match found {
        Ok(cost) => Ok((values, cost)),
        Err(fault) => Err(fault),
    }
}

/// The sides of the columns and, after them, of the rows; `Err` where the memory was refused.
pub(crate) fn all_sides(
    alloc: Global,
    spare: &mut Spare,
    columns: &[Sides],
    rows: &[Sides],
) -> Result<Vec<Sides>, AllocError>
    ensures { IfOk result (λ sides. sides.items ≡ columns.now ++ rows.now) }
{
    let mut sides = emptied(alloc, &mut spare.sides);
    sides.extend_from_slice(columns)?;
    sides.extend_from_slice(rows)?;
    Ok(sides)
}

/// Room for what a move writes, beside these lists; `Err` where the memory was refused.
fn room_for(
    alloc: Global,
    spare: &mut Spare,
    standing: &[Option<Stand>],
    lists: &Lists,
) -> Result<Room, AllocError>
    ensures { IfOk result (λ room. HasRoom standing.now room) }
{
    let changed = filled(alloc, &mut spare.marks, standing.len(), false)?;
    let values = filled(alloc, &mut spare.numbers, standing.len(), Frac::zero())?;
    let entering = Form::zeros(alloc, spare, standing.len());
    let Ok(rows) = empty_rows(alloc, spare, standing) else {
        drop(entering);
        return Err(AllocError);
    };
    let costs = Form::zeros(alloc, spare, standing.len());
    let held = room_of(lists.rows.as_slice()).saturating_add(room_of(rows.as_slice()));
    let others = lists.costs.room().saturating_add(costs.room());
    let held = held.saturating_add(others).saturating_add(entering.room());
    let scratch = Scratch {
        entering: Spelled {
            entries: taken(alloc, &mut spare.entries, &mut spare.room),
            is_done: false,
        },
        row: taken(alloc, &mut spare.entries, &mut spare.room),
        sums: Vec::new(alloc),
        held,
    };
    Ok(Room {
        scratch,
        entering,
        rows,
        changed,
        costs,
        values,
    })
}

/// The lists of the first state of a linear program, where all stand as they do at first.
fn lists_for(
    alloc: Global,
    spare: &mut Spare,
    standing: &[Option<Stand>],
    system: &System,
) -> Result<Lists, FirstFault>
    requires few { length system.now.columns.now + length system.now.rows.now < 2 ^ 32 }
    requires stands { standing.now
        ≡ table (length system.now.columns.now + length system.now.rows.now) (stand_in system.now.columns.now) }
    requires within { AreWithin (length system.now.rows.now) (length system.now.columns.now) system.now.entries.now }
    requires costs_long { length system.now.costs.now ≡ length system.now.columns.now }
    ensures { let s = system.now in
        let p = system_in s.entries.now s.rows.now s.columns.now s.costs.now in
        MatchResult result
        (λ lists. (first_overflow (first_operations p) ≡ None)
        × (state (system.now.columns.now ++ system.now.rows.now) standing.now lists ≡ first p)
        × HasLists standing.now lists)
        (IsFirstFault p) }
{
    let m = system.rows.len();
    let columns = system.columns;
    let rows = first_rows(alloc, spare, standing, columns, system.entries, m)?;
    let all = all_costs(alloc, spare, system.costs, standing.len())?;
    let lines = rows.as_slice();
    match all_values(alloc, spare, columns, m, lines, &all) {
        Ok((values, cost)) => Ok(Lists {
            rows,
            costs: all,
            values,
            cost,
        }),
        Err(fault) => {
            drop(all);
            drop(rows);
            Err(fault)
        }
    }
}

/// The same lists, with lines of whole numbers, where they can be kept so, and room for what a move writes beside them.
pub(crate) fn first_lists(
    alloc: Global,
    spare: &mut Spare,
    standing: &[Option<Stand>],
    system: &System,
) -> Result<(Lists, Room), FirstFault>
    requires few { length system.now.columns.now + length system.now.rows.now < 2 ^ 32 }
    requires stands { standing.now
        ≡ table (length system.now.columns.now + length system.now.rows.now) (stand_in system.now.columns.now) }
    requires within { AreWithin (length system.now.rows.now) (length system.now.columns.now) system.now.entries.now }
    requires costs_long { length system.now.costs.now ≡ length system.now.columns.now }
    ensures { let s = system.now in
        let p = system_in s.entries.now s.rows.now s.columns.now s.costs.now in
        MatchResult result
        (λ found. (first_overflow (first_operations p) ≡ None)
        × (state (system.now.columns.now ++ system.now.rows.now) standing.now found.0 ≡ first p)
        × HasLists standing.now found.0
        × HasRoom standing.now found.1)
        (IsFirstFault p) }
{
    let mut lists = match lists_for(alloc, spare, standing, system) {
        Ok(lists) => lists,
        Err(fault) => return Err(fault),
    };
    let Ok(()) = settle_lists(&mut lists) else {
        drop(lists);
        return Err(FirstFault::NoMemory);
    };
    match room_for(alloc, spare, standing, &lists) {
        Ok(room) => Ok((lists, room)),
        Err(_) => {
            drop(lists);
            Err(FirstFault::NoMemory)
        }
    }
}
