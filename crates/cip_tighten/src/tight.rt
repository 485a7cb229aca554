//! Rows that stand at a side at the last point.
use crate::numbers::kept;
use crate::sums::{Standing, TightRow};
use cip_frac::{Frac, short_gcd};
use cip_lin::{Row, RowId, Term};
use cip_plugin::View;
use std::alloc::AllocError;

/// A number that counts rows or columns, of which there are fewer than 2^32; a greater one counts as 2^32 - 1.
pub fn short(number: usize) -> u32 {
    u32::try_from(number).unwrap_or(u32::MAX)
}

/// A row by its name; none where there is no such row, and of the cutoff row.
pub fn row_of<'a>(view: &View<'a>, id: RowId) -> Option<&'a Row> {
    match id {
        RowId::Own(number) => view.own.get(number as usize),
        RowId::Pool(id) => {
            let place = view.pool.partition_point(|kept| kept.id < id);
            let kept = view.pool.get(place)?;
            if kept.id == id { Some(&kept.row) } else { None }
        }
        RowId::Cutoff => None,
    }
}

/// What terms come to at a point; none where a column has no value there, or that leaves the range.
pub fn activity(terms: &[Term], point: &[Frac]) -> Option<Frac> {
    let mut sum = Frac::zero();
    for term in terms {
        match point.get(term.col as usize) {
            Some(value) if sum.add_product(&term.coef, value) => {}
            _ => return None,
        }
    }
    Some(sum)
}

/// A row with the side at which it stands; none where the row or the side isn't there, or the number that makes the row
/// whole is above 2^40.
pub fn tight_row<'a>(view: &View<'a>, id: RowId, standing: Standing) -> Option<TightRow<'a>> {
    let Some(row) = row_of(view, id) else {
        return None;
    };
    let side = match standing {
        Standing::Between => None,
        Standing::High => row.high(),
        _ => row.low(),
    };
    let Some(side) = side else {
        return None;
    };
    let terms = row.terms();
    let mut common = 1i64;
    for term in terms {
        if !term.coef.is_whole() {
            let size = common.unsigned_abs();
            let under = u64::try_from(term.coef.denominator()).unwrap_or(0);
            let part = under.checked_div(short_gcd(size, under)).unwrap_or(0);
            common = kept(i128::from(size).wrapping_mul(i128::from(part))).unwrap_or(0);
        }
    }
    if common == 0 {
        return None;
    }
    Some(TightRow {
        id,
        terms,
        standing,
        side,
        common,
    })
}

/// Lists at which of its sides each row stands at a point: the program's own, then those of the pool. `Err` where
/// memory was refused.
pub fn list_standings(
    view: &View<'_>,
    point: &[Frac],
    list: &mut Vec<Standing>,
) -> Result<(), AllocError> {
    list.clear();
    let own = view.own.len();
    for place in 0..own.saturating_add(view.pool.len()) {
        let row = match (view.own.get(place), view.pool.get(place.wrapping_sub(own))) {
            (Some(row), _) => row,
            (None, Some(kept)) => &kept.row,
            _ => break,
        };
        let (low, high) = (row.low(), row.high());
        let is_both = low.is_some() && low == high;
        let sum = if is_both {
            None
        } else {
            activity(row.terms(), point)
        };
        list.push(if is_both {
            Standing::Both
        } else if sum.is_none() {
            Standing::Between
        } else if sum == low {
            Standing::Low
        } else if sum == high {
            Standing::High
        } else {
            Standing::Between
        })?;
    }
    Ok(())
}

/// A row by its place, of the program and then of the pool, with the side at which it stands; none where `tight_row`
/// has none.
pub fn tight_at<'a>(view: &View<'a>, standings: &[Standing], place: usize) -> Option<TightRow<'a>> {
    let own = view.own.len();
    let id = if place < own {
        RowId::Own(short(place))
    } else {
        RowId::Pool(view.pool.get(place.wrapping_sub(own))?.id)
    };
    tight_row(view, id, *standings.get(place)?)
}
