//! Where the first state of a linear program is out of range.
ghost use Rattle.std.specs.Prelude.{◌≡◌, ℕ, ◌+◌, ◌<◌, ◌^◌, ◌++◌, length, map, true, IfOk};
ghost use Rattle.cip_problem.specs.RowTerms.{AreTerms};
ghost use Rattle.cip_problem.specs.Multipliers.{row_sides};
ghost use Rattle.cip_bland.specs.FirstState.{first_operations};
ghost use Rattle.cip_bland.specs.ProgramState.{terms_at, system_of};
ghost use Rattle.cip_bland.specs.MoveList.{is_out_of_range};
ghost use Rattle.cip_simplex.specs.LpEntries.{entry_of, entries_in};
ghost use Rattle.cip_simplex.specs.LpShape.{IsSolvable};
ghost use Rattle.cip_search.specs.WideLeaf.{FirstValueOverflows};
ghost use Rattle.cip_leaf.specs.FirstPlaces.{line_of, IsValueLine};
ghost use Rattle.cip_leaf.specs.LeafAnswers.{place_of};

use cip_frac::Frac;
use cip_lin::{Bounds, Row, Sides, Term};
use cip_model::Place;
use cip_simplex::{Dict, FirstFault, Line, Spare};
use std::alloc::{AllocError, Global};

/// Puts the entries of row r at the end; `Err` where a growth was refused.
fn put_entries(
    entries: &mut Vec<(u32, u32, Frac)>,
    r: u32,
    terms: &[Term],
) -> Result<(), AllocError>
    ensures { IfOk result (λ _. entries.new.items ≡ entries.old.items ++ map (entry_of r) terms.now) }
{
    for term in terms {
        entries.push((r, term.col, term.coef))?;
    }
    Ok(())
}

/// The entries of all rows, which have their terms by rising column; `Err` where the memory was refused.
fn entries_of(alloc: Global, rows: &[Row]) -> Result<Vec<(u32, u32, Frac)>, AllocError>
    requires { length rows.now < 2 ^ 32 }
    ensures { IfOk result (λ entries. (entries.items ≡ entries_in rows.now)
        × ((r : ℕ) → r < length rows.now → AreTerms (terms_at rows.now r))) }
{
    let mut entries = Vec::new(alloc);
    for r in 0..rows.len() {
        put_entries(&mut entries, r as u32, rows[r].terms())?;
    }
    Ok(entries)
}

/// The sides of all rows; `Err` where the memory was refused.
fn all_sides(alloc: Global, rows: &[Row]) -> Result<Vec<Sides>, AllocError>
    ensures { IfOk result (λ sides. sides.items ≡ map row_sides rows.now) }
{
    let mut sides = Vec::new(alloc);
    for row in rows {
        sides.push(Sides {
            low: row.low(),
            high: row.high(),
        })?;
    }
    Ok(sides)
}

/// The place of a line of the first state, in which variables behind the columns are rows.
fn place_in(line: Line, columns: u32) -> Place
    requires { IsValueLine columns line }
    ensures { line_of columns result ≡ line }
{
    match line {
        Line::Row(variable) => Place::Row(variable - columns),
        Line::Cost => Place::Cost,
    }
}

/// The place of the first operation that leaves the range in the first state of a linear program of which one does;
/// `Err` where memory was refused.
pub(crate) fn first_wide(
    alloc: Global,
    rows: &[Row],
    bounds: &Bounds,
    costs: &[Frac],
) -> Result<Place, AllocError>
    requires solvable { IsSolvable (record { rows = rows.now; bounds = bounds.now; costs = costs.now }) }
    requires wide { is_out_of_range (first_operations
        (system_of (record { rows = rows.now; bounds = bounds.now; costs = costs.now }))) ≡ true }
    ensures { IfOk result (λ place.
        FirstValueOverflows (record { rows = rows.now; bounds = bounds.now; costs = costs.now }) (place_of place)) }
{
    let entries = entries_of(alloc, rows)?;
    let sides = all_sides(alloc, rows)?;
    let mut spare = Spare::new(alloc);
    let first = Dict::first(
        alloc,
        &mut spare,
        entries.as_slice(),
        sides.as_slice(),
        bounds.as_slice(),
        costs,
    );
    drop(spare);
    match first {
        Ok(_) => unreachable!(),
        Err(fault) => match fault {
            FirstFault::OutOfRange { place } => Ok(place_in(place.line, bounds.len() as u32)),
            FirstFault::NoMemory => Err(AllocError),
        },
    }
}
