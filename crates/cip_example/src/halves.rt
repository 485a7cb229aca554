//! A separator: half of a row, rounded.
ghost use Rattle.std.specs.Prelude.{None, codes};

use cip_frac::Frac;
use cip_lin::{Combo, Row, RowId, RowMultiple};
use cip_plugin::{Cut, Plugin, Separator, View};
use std::alloc::{AllocError, Global};

/// Brings half of each row whose coefficients are even: where its columns are whole, so is the half's left side, and
/// its right side can be rounded.
#[derive(Drop)]
pub struct Halves;

/// Whether a row has a high side, and whole coefficients as it is halved.
fn is_even(row: &Row, half: Frac) -> bool {
    if row.high().is_none() {
        return false;
    }
    for term in row.terms() {
        match term.coef.mul(half) {
            Ok(coef) if coef.is_whole() => {}
            _ => return false,
        }
    }
    true
}

/// The high side of a row of the program by a factor below 0, rounded, and valid in the whole search.
fn rounded(alloc: Global, number: u32, factor: Frac) -> Result<Cut, AllocError> {
    let mut rows = Vec::new(alloc);
    rows.push(RowMultiple {
        row: RowId::Own(number),
        factor,
    })?;
    Ok(Cut {
        combo: Combo {
            rows,
            lows: Vec::new(alloc),
            highs: Vec::new(alloc),
        },
        round: true,
        local: false,
        split: None,
    })
}

impl Plugin for Halves {
    ghost told = { λ _. None };

    ghost label = { λ _. codes "halves" };

    fn name(&self) -> &str {
        "halves"
    }

    fn priority(&self) -> i32 {
        0
    }

    fn init(&mut self, _alloc: Global) -> Result<(), AllocError> {
        Ok(())
    }

    fn init_solve(&mut self, _alloc: Global, _view: &View<'_>) -> Result<(), AllocError> {
        Ok(())
    }

    fn exit_solve(&mut self) {}

    fn exit(&mut self) {}
}

impl Separator for Halves {
    fn separate(&mut self, alloc: Global, view: &View<'_>) -> Result<Vec<Cut>, AllocError> {
        let mut cuts = Vec::new(alloc);
        let Ok(half) = Frac::new(-1, 2) else {
            return Ok(cuts);
        };
        for (number, row) in (0..u32::MAX).zip(view.own) {
            if is_even(row, half) {
                cuts.push(rounded(alloc, number, half)?)?;
            }
        }
        Ok(cuts)
    }
}
