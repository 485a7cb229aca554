//! Where the simplex method goes on from, as the master program has got weights.
ghost use Rattle.std.specs.Prelude.{◌≡◌, ◌+◌, ◌<◌, ◌^◌, length, IfOk};

use cip_bland::Stand;
use cip_simplex::Start;
use std::alloc::{AllocError, Global};

/// Where a variable is to stand by a start; basic past its end.
fn stand_at(start: &Start, v: usize) -> Option<Stand> {
    match u32::try_from(v) {
        Ok(number) if v < start.len() => start.stand(number),
        _ => None,
    }
}

/// Where a variable is to stand: one of the first columns where it stood, a column behind them at its low side, and a
/// row where it stood.
fn wish(start: &Start, before: usize, columns: usize, v: usize) -> Option<Stand>
    requires few { columns < 2 ^ 32 }
    requires before { before < 2 ^ 32 }
    requires v { v < 2 ^ 32 }
{
    if v < before && v < columns {
        return stand_at(start, v);
    }
    if v < columns {
        return Some(Stand::Low);
    }
    stand_at(start, v - columns + before)
}

/// The start of a program of so many columns and rows behind another one, which had the same rows and the first of the
/// columns: the columns that are new stand at their low sides. `Err` where memory was refused.
pub(crate) fn start_behind(
    alloc: Global,
    start: &Start,
    columns: usize,
    rows: usize,
) -> Result<Start, AllocError>
    requires { columns + rows < 2 ^ 32 }
    ensures { IfOk result (λ next. length next ≡ columns + rows) }
{
    let before = start.len().saturating_sub(rows).min(columns);
    let mut standing = Vec::with_capacity(alloc, columns + rows)?;
    for v in 0..columns + rows {
        standing.push(wish(start, before, columns, v))?;
    }
    Ok(Start::new(standing))
}
