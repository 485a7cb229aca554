//! Which row is added to a sum: one that takes a continuous column between its sides out of it.
use crate::column_rows::ColumnRows;
use crate::numbers::{raised, rough};
use crate::shifts::place_of;
use crate::stops::Stop;
use crate::sums::{Standing, Sum};
use crate::tight::tight_at;
use cip_frac::{Frac, short_gcd};
use cip_lin::RowId;
use cip_plugin::View;

// The most rows of a column that are looked at.
const MOST_ROWS: usize = 64;

/// The shortest row of a column that stands at a side and isn't in the sum.
fn shortest_row(view: &View<'_>, standings: &[Standing], rows: &[u32], sum: &Sum) -> Option<u32> {
    let mut shortest = None;
    let mut least = usize::MAX;
    for number in rows.get(..MOST_ROWS).unwrap_or(rows) {
        let Some(row) = view.own.get(*number as usize) else {
            continue;
        };
        let is_tight = match standings.get(*number as usize) {
            Some(standing) => *standing != Standing::Between,
            None => false,
        };
        if is_tight && row.terms().len() < least && !sum.uses(RowId::Own(*number)) {
            least = row.terms().len();
            shortest = Some(*number);
        }
    }
    shortest
}

/// The continuous column of a sum that has a row that can take it out and is roughly farthest from its nearer side, as
/// far as can be where it has none; and the number of that row.
fn next_turn(
    view: &View<'_>,
    point: &[Frac],
    standings: &[Standing],
    columns: &ColumnRows,
    sum: &Sum,
) -> Option<(u32, u32)> {
    let mut best = None;
    let mut most = 0i64;
    for term in &sum.terms {
        let Some((sides, value, false)) = place_of(view, point, term.0) else {
            continue;
        };
        let at = rough(value);
        let below = match sides.low {
            Some(low) => at.wrapping_sub(rough(low)),
            None => i64::MAX,
        };
        let above = match sides.high {
            Some(high) => rough(high).wrapping_sub(at),
            None => i64::MAX,
        };
        let far = below.min(above);
        if far > most {
            if let Some(row) = shortest_row(view, standings, columns.rows_of(term.0), sum) {
                best = Some((term.0, row));
                most = far;
            }
        }
    }
    best
}

/// Adds a row to a sum that takes a continuous column out of it: each is taken so often that their coefficients cancel
/// out. The work gives up where there is none.
pub(crate) fn go_on(
    view: &View<'_>,
    point: &[Frac],
    standings: &[Standing],
    columns: &ColumnRows,
    sum: &mut Sum,
) -> Result<(), Stop> {
    let Some((col, number)) = next_turn(view, point, standings, columns, sum) else {
        return Err(Stop::GaveUp);
    };
    let Some(row) = tight_at(view, standings, number as usize) else {
        return Err(Stop::GaveUp);
    };
    let own = sum.coefficient(col);
    let mut other = 0;
    for term in row.terms {
        if term.col == col {
            other = raised(term.coef, row.common).unwrap_or(0);
            break;
        }
    }
    let divisor = short_gcd(own.unsigned_abs(), other.unsigned_abs());
    let by = i64::try_from(divisor).unwrap_or(0);
    let first = other.checked_div(by).unwrap_or(0);
    let second = own.checked_div(by).unwrap_or(0);
    if first == 0 {
        Err(Stop::GaveUp)
    } else if first < 0 {
        sum.add(first.wrapping_neg(), &row, second)
    } else {
        sum.add(first, &row, second.wrapping_neg())
    }
}
