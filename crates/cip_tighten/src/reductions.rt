//! Reductions that rows imply, and the combinations that prove them.
use crate::implied::{Implied, Narrowing, Region, Source, list_implied};
use cip_frac::Frac;
use cip_lin::{Combo, Row, RowId, RowMultiple};
use cip_plugin::{Reduction, View};
use std::alloc::{AllocError, Global};

/// The most reductions that a call brings.
pub const MOST_REDUCTIONS: usize = 64;

/// Adds a side that these rows imply to the reductions, with them as its combination. `Err` where memory was refused.
pub fn push_reduction(
    alloc: Global,
    implied: Implied,
    rows: &[RowMultiple],
    reductions: &mut Vec<Reduction>,
) -> Result<(), AllocError> {
    let combo = Combo {
        rows: rows.to_vec(alloc)?,
        lows: Vec::new(alloc),
        highs: Vec::new(alloc),
    };
    reductions.push(Reduction {
        col: implied.col,
        side: implied.side,
        value: implied.value,
        combo,
    })?;
    Ok(())
}

/// Adds the sides that a side of a row implies in a box to the reductions, and answers whether no point of the box
/// keeps it. What is implied is listed. The combination is the row once where it is at least that side, and minus once
/// where it is at most that.
pub(crate) fn add_side(
    alloc: Global,
    region: &Region<'_>,
    side: (RowId, Source),
    row: &Row,
    implied: &mut Vec<Implied>,
    reductions: &mut Vec<Reduction>,
) -> Result<bool, AllocError> {
    implied.clear();
    let (id, source) = side;
    let multiple = RowMultiple {
        row: id,
        factor: match source {
            Source::AtLeast => Frac::one(),
            Source::AtMost => Frac::one().neg(),
        },
    };
    let most = MOST_REDUCTIONS.saturating_sub(reductions.len());
    let narrowing = list_implied(row, source, region, most, implied)?;
    for item in implied.as_slice() {
        push_reduction(alloc, *item, &[multiple], reductions)?;
    }
    Ok(narrowing == Narrowing::Contradiction)
}

/// Adds the sides that a row implies in the node's box to the reductions, as long as there are fewer than 64. Answers
/// the side of the row that no point of the box keeps, where there is one. The list of what is implied is one to work
/// in. `Err` where memory was refused; what was added up to there stays.
pub fn add_reductions(
    alloc: Global,
    view: &View<'_>,
    id: RowId,
    row: &Row,
    implied: &mut Vec<Implied>,
    reductions: &mut Vec<Reduction>,
) -> Result<Option<Source>, AllocError> {
    let region = Region {
        sides: view.bounds.as_slice(),
        whole: view.whole,
        is_exact: false,
    };
    for source in [Source::AtLeast, Source::AtMost] {
        if add_side(alloc, &region, (id, source), row, implied, reductions)? {
            return Ok(Some(source));
        }
    }
    Ok(None)
}
