//! Where the extents of a row are open: hints, of which nothing is promised.
ghost use Rattle.std.specs.Prelude.{◌<◌, length};

use crate::drafts::Draft;
use cip_frac::Frac;
use cip_lin::Sides;

/// The places of the terms that leave the least activity of a row open, and the greatest one, where each is the only
/// one that does.
#[derive(Clone, Copy)]
pub struct OpenPlaces {
    low: Option<usize>,
    high: Option<usize>,
}

impl OpenPlaces {
    /// Whether it is this place.
    pub fn has(self, place: usize) -> bool {
        self.low == Some(place) || self.high == Some(place)
    }
}

/// Whether the least product of a coefficient and a value between two sides is open.
fn is_open_below(coef: Frac, sides: Sides) -> bool {
    if coef.is_negative() {
        sides.high.is_none()
    } else {
        sides.low.is_none()
    }
}

/// The places of the terms of a row that alone leave its least or its greatest activity open.
pub fn open_places(draft: &Draft, number: usize) -> OpenPlaces
    requires { number < length draft.now.rows }
{
    let bounds = draft.bounds();
    let terms = draft.row(number).terms();
    let mut low = None;
    let mut high = None;
    let mut lows = 0usize;
    let mut highs = 0usize;
    for at in 0..terms.len() {
        let term = terms[at];
        let sides = bounds.sides(term.col);
        if is_open_below(term.coef, sides) {
            low = Some(at);
            lows = lows.saturating_add(1);
        }
        if is_open_below(term.coef.neg(), sides) {
            high = Some(at);
            highs = highs.saturating_add(1);
        }
    }
    OpenPlaces {
        low: if lows == 1 { low } else { None },
        high: if highs == 1 { high } else { None },
    }
}
