//! The table of a basis: each basic variable as a sum of the loose ones.
use crate::fixed::{BITS, MOST, UNIT, fixed, long_product, quotient, short_bit_length, step};
use crate::given::{Given, number_of};
use crate::lists::{item_at, put_at};
use crate::stops::Stop;
use crate::variables::Variables;
use std::alloc::Global;

/// A basic variable, and what it takes of each loose one.
#[derive(Drop)]
pub(crate) struct Line {
    pub(crate) variable: u32,
    pub(crate) entries: Vec<i64>,
}

/// The table: a line for each basic variable, what the cost takes of each loose one, and the loose variables.
#[derive(Drop)]
pub(crate) struct Table {
    pub(crate) lines: Vec<Line>,
    pub(crate) costs: Vec<i64>,
    pub(crate) loose: Vec<u32>,
    pivot: Vec<(usize, i64)>,
    /// How many entries may still be written.
    pub(crate) work: u64,
}

/// Solves a line for the loose variable at a place; leaves what it then takes of each loose one, and answers the bits
/// of the greatest.
fn solve_line(
    entries: &mut [i64],
    place: usize,
    pivot: &mut Vec<(usize, i64)>,
) -> Result<i32, Stop> {
    pivot.clear();
    let divisor = item_at(entries, place, 0);
    let mut seen = 0u64;
    for at in 0..entries.len() {
        let entry = entries[at];
        if entry == 0 {
            continue;
        }
        let mut number = quotient(if at == place { UNIT } else { entry }, divisor)?;
        if at != place {
            number = number.wrapping_neg();
        }
        entries[at] = number;
        seen |= number.unsigned_abs();
        pivot.push((at, number))?;
    }
    Ok(short_bit_length(seen))
}

/// Puts the solved line in the place of a loose variable in another line; answers how many entries were written.
fn put_in(
    entries: &mut [i64],
    place: usize,
    pivot: &[(usize, i64)],
    wide: i32,
) -> Result<u64, Stop> {
    let factor = item_at(entries, place, 0);
    if factor == 0 {
        return Ok(1);
    }
    let bits = short_bit_length(factor.unsigned_abs()).wrapping_add(wide);
    if bits.wrapping_sub(BITS as i32) > 59 {
        return Err(Stop::GaveUp);
    }
    put_at(entries, place, 0);
    let mut seen = 0u64;
    for item in pivot {
        let (at, number) = *item;
        if let Some(entry) = entries.get_mut(at) {
            let sum = step(*entry, factor, number);
            *entry = sum;
            seen |= sum.unsigned_abs();
        }
    }
    if seen >= MOST as u64 {
        return Err(Stop::GaveUp);
    }
    Ok(pivot.len() as u64)
}

/// Puts the solved line, which has this number, into all others and into the costs; answers how many entries were
/// written.
fn put_in_all(
    lines: &mut [Line],
    costs: &mut [i64],
    own: usize,
    place: usize,
    pivot: &[(usize, i64)],
    wide: i32,
) -> Result<u64, Stop> {
    let mut work = 0u64;
    for at in 0..lines.len() {
        if at != own {
            let line = &mut lines[at];
            let more = put_in(line.entries.as_mut_slice(), place, pivot, wide)?;
            work = work.wrapping_add(more);
        }
    }
    let more = put_in(costs, place, pivot, wide)?;
    Ok(work.wrapping_add(more))
}

/// Fills the line of a number by the row of that number; there is one, or it is the next.
fn fill_at(
    alloc: Global,
    lines: &mut Vec<Line>,
    number: usize,
    given: &Given,
    variables: &Variables,
) -> Result<(), Stop> {
    let Some(row) = given.row(number) else {
        return Err(Stop::GaveUp);
    };
    if number >= lines.len() {
        lines.push(Line {
            variable: 0,
            entries: Vec::new(alloc),
        })?;
    }
    let columns = given.columns();
    let variable = columns.wrapping_add(number);
    let up = variables.up(variable);
    let Some(line) = lines.get_mut(number) else {
        return Ok(());
    };
    line.variable = number_of(variable);
    line.entries.clear();
    line.entries.resize(columns, 0)?;
    for term in row.terms() {
        let column = term.col as usize;
        let entry = fixed(term.coef, up.wrapping_sub(variables.up(column)))?;
        put_at(line.entries.as_mut_slice(), column, entry);
    }
    Ok(())
}

/// Makes all columns loose, in their order, and fills the costs.
fn fill_costs(
    given: &Given,
    variables: &Variables,
    up: i32,
    loose: &mut Vec<u32>,
    costs: &mut Vec<i64>,
) -> Result<(), Stop> {
    loose.clear();
    costs.clear();
    for column in 0..given.columns() {
        loose.push(number_of(column))?;
        let cost = fixed(given.cost(column), up.wrapping_sub(variables.up(column)))?;
        costs.push(cost)?;
    }
    Ok(())
}

impl Table {
    /// A table without lines.
    pub(crate) fn new(alloc: Global) -> Table {
        Table {
            lines: Vec::new(alloc),
            costs: Vec::new(alloc),
            loose: Vec::new(alloc),
            pivot: Vec::new(alloc),
            work: 0,
        }
    }

    /// Takes so many entries off what may be written.
    pub(crate) fn spend(&mut self, work: u64) -> Result<(), Stop> {
        match self.work.checked_sub(work) {
            Some(left) => {
                self.work = left;
                Ok(())
            }
            None => Err(Stop::GaveUp),
        }
    }

    /// What a variable that is basic takes of each loose one.
    pub(crate) fn line_of(&self, variable: u32) -> Option<&[i64]> {
        for line in &self.lines {
            if line.variable == variable {
                return Some(line.entries.as_slice());
            }
        }
        None
    }

    /// The loose variable at a place.
    pub(crate) fn loose_at(&self, place: usize) -> u32 {
        item_at(self.loose.as_slice(), place, u32::MAX)
    }

    /// The table of the rows, in which no column is basic.
    pub(crate) fn fill(
        &mut self,
        alloc: Global,
        given: &Given,
        variables: &Variables,
        up: i32,
    ) -> Result<(), Stop> {
        self.lines.truncate(given.rows());
        for number in 0..given.rows() {
            fill_at(alloc, &mut self.lines, number, given, variables)?;
        }
        fill_costs(given, variables, up, &mut self.loose, &mut self.costs)
    }

    /// The variable of a line and the loose one at a place change places.
    pub(crate) fn swap(&mut self, line: usize, place: usize) -> Result<(), Stop> {
        let incoming = self.loose_at(place);
        let Some(own) = self.lines.get_mut(line) else {
            return Err(Stop::GaveUp);
        };
        let outgoing = own.variable;
        own.variable = incoming;
        let wide = solve_line(own.entries.as_mut_slice(), place, &mut self.pivot)?;
        let written = put_in_all(
            self.lines.as_mut_slice(),
            self.costs.as_mut_slice(),
            line,
            place,
            self.pivot.as_slice(),
            wide,
        )?;
        put_at(self.loose.as_mut_slice(), place, outgoing);
        self.spend(written)
    }
}

/// The sum of what a line takes of the loose variables at these values.
pub(crate) fn sum_at(entries: &[i64], values: &[i64]) -> i128 {
    let mut sum = 0i128;
    for (place, entry) in entries.iter().enumerate() {
        match values.get(place) {
            Some(value) => sum = sum.wrapping_add(long_product(*entry, *value)),
            None => break,
        }
    }
    sum
}

/// The sum of what a line takes of some loose variables, each by its place and with a number.
pub(crate) fn sum_of(entries: &[i64], ways: &[(usize, i64)]) -> i128 {
    let mut sum = 0i128;
    for item in ways {
        let (place, way) = *item;
        sum = sum.wrapping_add(long_product(item_at(entries, place, 0), way));
    }
    sum
}
