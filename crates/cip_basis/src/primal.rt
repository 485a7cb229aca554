//! Moves of the primal simplex method: the loose variable of the greatest rate enters.
use crate::dual::PIVOT;
use crate::fixed::{OPEN, ratio};
use crate::guesses::Outcome;
use crate::lists::item_at;
use crate::moves::{exchange, flip};
use crate::stops::Stop;
use crate::table::{Line, Table};
use crate::variables::{Standing, Variables};

/// A loose variable that enters: its place, and whether it rises.
#[derive(Clone, Copy)]
struct Entering {
    place: usize,
    rises: bool,
}

/// How far the loose variable may go, and which line stops it there, if it isn't itself.
#[derive(Clone, Copy)]
struct Reach {
    length: i64,
    size: i64,
    line: Option<usize>,
    standing: Standing,
}

/// The loose variable whose reduced cost is greatest among those that may go where it asks, and above a tolerance.
fn steepest(table: &Table, variables: &Variables, rate: i64) -> Option<Entering> {
    let mut found = None;
    let mut most = rate.unsigned_abs();
    for (place, item) in table.costs.iter().enumerate() {
        let size = item.unsigned_abs();
        if size <= most {
            continue;
        }
        let variable = variables.get(table.loose_at(place));
        let rises = *item < 0;
        if !variable.is_fixed() && variable.may_go(rises) {
            most = size;
            found = Some(Entering { place, rises });
        }
    }
    found
}

/// How far the basic variable of a line lets the loose one go, if it stops it.
fn reach_at(line: usize, item: &Line, variables: &Variables, entering: Entering) -> Option<Reach> {
    let entry = item_at(item.entries.as_slice(), entering.place, 0);
    if entry.unsigned_abs() < PIVOT {
        return None;
    }
    let variable = variables.get(item.variable);
    let (has_side, way, standing) = if (entry > 0) == entering.rises {
        let way = variable.high.saturating_sub(variable.value);
        (variable.has_high(), way, Standing::High)
    } else {
        let way = variable.value.saturating_sub(variable.low);
        (variable.has_low(), way, Standing::Low)
    };
    if !has_side {
        return None;
    }
    Some(Reach {
        length: if way <= 0 { 0 } else { ratio(way, entry) },
        size: entry.saturating_abs(),
        line: Some(line),
        standing,
    })
}

/// The shortest reach over all lines, and of equal ones that of the greatest entry, unless the variable itself ends it.
fn shortest(table: &Table, variables: &Variables, entering: Entering) -> Reach {
    let own = variables.get(table.loose_at(entering.place));
    let mut reach = Reach {
        length: own.width(),
        size: 0,
        line: None,
        standing: Standing::Low,
    };
    for (line, item) in table.lines.iter().enumerate() {
        if let Some(other) = reach_at(line, item, variables, entering) {
            let is_greater = reach.line.is_some() && other.size > reach.size;
            if other.length < reach.length || (other.length == reach.length && is_greater) {
                reach = other;
            }
        }
    }
    reach
}

/// A primal move; where none is made, since no reduced cost asks for one or nothing stops the variable that enters, how
/// the guess ends.
pub(crate) fn primal_move(
    table: &mut Table,
    variables: &mut Variables,
    rate: i64,
) -> Result<Option<Outcome>, Stop> {
    let Some(entering) = steepest(table, variables, rate) else {
        return Ok(Some(Outcome::Optimal));
    };
    let reach = shortest(table, variables, entering);
    match reach.line {
        Some(line) => exchange(table, variables, line, entering.place, reach.standing)?,
        None if reach.length >= OPEN => return Ok(Some(Outcome::Endless)),
        None => flip(table, variables, entering.place)?,
    }
    Ok(None)
}
