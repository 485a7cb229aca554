//! What plugins do as they are asked.
use crate::fields::Fields;
use cip_frac::Frac;
use cip_lin::{ColumnMultiple, Combo, RowId, RowMultiple, Side};
use cip_plugin::Split;
use std::alloc::{AllocError, Global};

/// A combination of at most one row, one low side and one high side.
#[derive(Clone, Copy)]
pub struct Mix {
    pub row: Option<RowMultiple>,
    pub low: Option<ColumnMultiple>,
    pub high: Option<ColumnMultiple>,
}

/// A row with the factor that stands next.
fn row_by(row: RowId, fields: &mut Fields<'_>) -> Option<RowMultiple> {
    let factor = fields.fraction()?;
    Some(RowMultiple { row, factor })
}

/// A column with a factor.
fn column_in(fields: &mut Fields<'_>) -> Option<ColumnMultiple> {
    let col = fields.number()?;
    let factor = fields.fraction()?;
    Some(ColumnMultiple { col, factor })
}

impl Mix {
    /// No row and no side.
    pub const NOTHING: Mix = Mix {
        row: None,
        low: None,
        high: None,
    };

    /// Takes one part over; `None` where that is none.
    fn take(&mut self, part: &str, fields: &mut Fields<'_>) -> Option<()> {
        match part {
            "own" => {
                let number = fields.number()?;
                self.row = Some(row_by(RowId::Own(number), fields)?);
            }
            "pool" => {
                let number = fields.number()?;
                self.row = Some(row_by(RowId::Pool(u64::from(number)), fields)?);
            }
            "cutoff" => self.row = Some(row_by(RowId::Cutoff, fields)?),
            "low" => self.low = Some(column_in(fields)?),
            "high" => self.high = Some(column_in(fields)?),
            _ => return None,
        }
        Some(())
    }

    /// The combination of the fields that are left; `None` where these say none.
    pub fn read(fields: &mut Fields<'_>) -> Option<Mix> {
        let mut mix = Mix::NOTHING;
        for _ in 0..3 {
            let part = fields.word();
            if part.is_empty() {
                return Some(mix);
            }
            mix.take(part, fields)?;
        }
        Some(mix)
    }

    /// The combination as plugins give it.
    pub fn combo(&self, alloc: Global) -> Result<Combo, AllocError> {
        let mut combo = Combo {
            rows: Vec::new(alloc),
            lows: Vec::new(alloc),
            highs: Vec::new(alloc),
        };
        if self.put(&mut combo).is_err() {
            drop(combo);
            return Err(AllocError);
        }
        Ok(combo)
    }

    /// Puts its parts into a combination.
    fn put(&self, combo: &mut Combo) -> Result<(), AllocError> {
        if let Some(row) = self.row {
            combo.rows.push(row)?;
        }
        if let Some(low) = self.low {
            combo.lows.push(low)?;
        }
        if let Some(high) = self.high {
            combo.highs.push(high)?;
        }
        Ok(())
    }
}

/// What a plugin does each time it is asked for it.
#[derive(Clone, Copy)]
pub enum Act {
    /// It gives nothing.
    Nothing,
    /// It wants memory, at whatever call.
    WantsMemory,
    /// It gives something at random, right or wrong.
    Random,
    /// It gives a row so many times.
    Cuts {
        count: u32,
        round: bool,
        local: bool,
        mix: Mix,
    },
    /// It gives a side.
    Side {
        col: u32,
        side: Side,
        value: Frac,
        mix: Mix,
    },
    /// It gives a point of so many values, the first one and all others.
    Point {
        count: u32,
        first: Frac,
        rest: Frac,
    },
    /// It gives the point of the last linear program, rounded down.
    Floor,
    /// It gives a split.
    Split(Split),
    /// It says that the node has no improving point.
    Cutoff(Mix),
    /// It says that the point doesn't keep its rows.
    Infeasible,
}

/// Which of two words stands next; `None` where it is another.
fn is_first(fields: &mut Fields<'_>, first: &str, second: &str) -> Option<bool> {
    let word = fields.word();
    if word == first {
        return Some(true);
    }
    if word == second { Some(false) } else { None }
}

/// The rows that the fields say.
fn cuts_in(fields: &mut Fields<'_>) -> Option<Act> {
    Some(Act::Cuts {
        count: fields.number()?,
        round: is_first(fields, "round", "exact")?,
        local: is_first(fields, "node", "root")?,
        mix: Mix::read(fields)?,
    })
}

/// The side that the fields say.
fn side_in(fields: &mut Fields<'_>) -> Option<Act> {
    let col = fields.number()?;
    let is_low = is_first(fields, "low", "high")?;
    Some(Act::Side {
        col,
        side: if is_low { Side::Low } else { Side::High },
        value: fields.fraction()?,
        mix: Mix::read(fields)?,
    })
}

/// The point that the fields say.
fn point_in(fields: &mut Fields<'_>) -> Option<Act> {
    Some(Act::Point {
        count: fields.number()?,
        first: fields.fraction()?,
        rest: fields.fraction()?,
    })
}

/// The split that the fields say.
fn split_in(fields: &mut Fields<'_>) -> Option<Act> {
    let col = fields.number()?;
    let at = fields.word().parse::<i128>().ok()?;
    Some(Act::Split(Split { col, at }))
}

impl Act {
    /// What the fields behind a word say; `None` where they say nothing.
    pub fn read(word: &str, fields: &mut Fields<'_>) -> Option<Act> {
        match word {
            "nothing" => Some(Act::Nothing),
            "memory" => Some(Act::WantsMemory),
            "random" => Some(Act::Random),
            "cuts" => cuts_in(fields),
            "side" => side_in(fields),
            "point" => point_in(fields),
            "floor" => Some(Act::Floor),
            "split" => split_in(fields),
            "cutoff" => Some(Act::Cutoff(Mix::read(fields)?)),
            "infeasible" => Some(Act::Infeasible),
            _ => None,
        }
    }
}
