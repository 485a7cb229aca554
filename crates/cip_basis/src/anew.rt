//! The table of a basis, made anew from the rows.
use crate::fixed::UNIT;
use crate::given::Given;
use crate::lists::item_at;
use crate::stops::Stop;
use crate::table::Table;
use crate::variables::{Standing, Variables};
use std::alloc::Global;

// How often the columns that are to be basic are gone through.
const ROUNDS: u32 = 3;

// The least size of an entry at which a column becomes basic: in the first rounds, and in the last.
const GOOD: i64 = UNIT >> 8;

const POOR: i64 = 1 << 6;

/// The line of a row that is to be loose with the greatest entry at a place, above a least one.
fn greatest(
    table: &Table,
    variables: &Variables,
    place: usize,
    columns: usize,
    least: i64,
) -> Option<usize> {
    let mut found = None;
    let mut most = least;
    for (line, item) in table.lines.iter().enumerate() {
        let size = item_at(item.entries.as_slice(), place, 0).saturating_abs();
        let number = item.variable;
        let is_row = number as usize >= columns;
        if size > most && is_row && variables.get(number).standing != Standing::Basic {
            most = size;
            found = Some(line);
        }
    }
    found
}

/// Makes columns basic that are to be so, where an entry is above a least size; answers whether all are.
fn put_columns(
    table: &mut Table,
    variables: &Variables,
    columns: usize,
    least: i64,
) -> Result<bool, Stop> {
    let mut all = true;
    for place in 0..columns {
        let number = table.loose_at(place);
        if number as usize >= columns || variables.get(number).standing != Standing::Basic {
            continue;
        }
        match greatest(table, variables, place, columns, least) {
            Some(line) => table.swap(line, place)?,
            None => all = false,
        }
    }
    Ok(all)
}

/// Puts the variables where the table has them: a loose one that was to be basic goes to a side.
fn put_standings(table: &Table, variables: &mut Variables) {
    for number in &table.loose {
        if variables.get(*number).standing == Standing::Basic {
            variables.stand(*number, Standing::Low);
        }
    }
    for line in &table.lines {
        variables.stand(line.variable, Standing::Basic);
    }
}

/// The table of the basis in which the variables stand, from the rows: rounding starts anew.
pub(crate) fn make_anew(
    alloc: Global,
    given: &Given,
    table: &mut Table,
    variables: &mut Variables,
    cost_up: i32,
) -> Result<(), Stop> {
    table.fill(alloc, given, variables, cost_up)?;
    for round in 1..=ROUNDS {
        let least = if round == ROUNDS { POOR } else { GOOD };
        if put_columns(table, variables, given.columns(), least)? {
            break;
        }
    }
    put_standings(table, variables);
    Ok(())
}
