//! Proposals and wishes at random.
ghost use Rattle.std.specs.Prelude.{◌<◌};

use crate::acts::{Act, Mix};
use cip_frac::Frac;
use cip_lin::{ColumnMultiple, RowId, RowMultiple, Side};
use cip_plugin::{Split, Wish};

/// Numbers that look random, each from the one before it.
#[derive(Clone, Copy)]
pub struct Draws {
    pub seed: u64,
}

impl Draws {
    /// The next number, below another one.
    pub fn below(&mut self, limit: u32) -> u32
        requires { 0 < limit }
        ensures { result < limit }
    {
        self.seed = self
            .seed
            .wrapping_mul(6_364_136_223_846_793_005)
            .wrapping_add(1_442_695_040_888_963_407);
        (self.seed >> 33) as u32 % limit
    }

    /// A whole number from -3 to 8.
    fn small(&mut self) -> i64 {
        i64::from(self.below(12)) - 3
    }

    /// A fraction of few halves or thirds, on either side of 0, or 0.
    fn factor(&mut self) -> Frac {
        let numerator = i128::from(self.below(7)) - 3;
        let denominator = i128::from(self.below(3)) + 1;
        match Frac::new(numerator, denominator) {
            Ok(factor) => factor,
            Err(_) => Frac::zero(),
        }
    }

    /// The name of a row.
    fn row(&mut self) -> RowId {
        match self.below(10) {
            0 => RowId::Cutoff,
            1 => RowId::Pool(u64::from(self.below(4))),
            _ => RowId::Own(self.below(4)),
        }
    }

    /// A column with a factor, one time of three.
    fn column(&mut self) -> Option<ColumnMultiple> {
        if self.below(3) > 0 {
            return None;
        }
        Some(ColumnMultiple {
            col: self.below(5),
            factor: self.factor(),
        })
    }

    /// A combination.
    fn mix(&mut self) -> Mix {
        let row = RowMultiple {
            row: self.row(),
            factor: self.factor(),
        };
        Mix {
            row: if self.below(8) > 0 { Some(row) } else { None },
            low: self.column(),
            high: self.column(),
        }
    }

    /// Rows: at times one past those that are looked at.
    pub fn cuts(&mut self) -> Act {
        Act::Cuts {
            count: if self.below(20) > 0 {
                self.below(3)
            } else {
                65
            },
            round: self.below(2) > 0,
            local: self.below(2) > 0,
            mix: self.mix(),
        }
    }

    /// A side.
    pub fn side(&mut self) -> Act {
        Act::Side {
            col: self.below(5),
            side: if self.below(2) > 0 {
                Side::Low
            } else {
                Side::High
            },
            value: Frac::from(self.small()),
            mix: self.mix(),
        }
    }

    /// A point, as a rule of as many values as there are columns.
    pub fn point(&mut self, columns: u32) -> Act {
        match self.below(3) {
            0 => Act::Floor,
            one => Act::Point {
                count: if self.below(8) > 0 { columns } else { one },
                first: Frac::from(self.small()),
                rest: Frac::from(i64::from(self.below(3))),
            },
        }
    }

    /// A split.
    pub fn split(&mut self) -> Act {
        Act::Split(Split {
            col: self.below(5),
            at: i128::from(self.small()),
        })
    }

    /// What a handler says of a point.
    pub fn verdict(&mut self) -> Act {
        match self.below(8) {
            0 => Act::Cutoff(self.mix()),
            1 => self.side(),
            2 => self.cuts(),
            3 => self.split(),
            4 => Act::Infeasible,
            _ => Act::Nothing,
        }
    }

    /// A wish.
    pub fn wish(&mut self) -> Wish {
        let id = self.below(9);
        match self.below(5) {
            0 => Wish::Include(id),
            1 => Wish::Disable(id),
            2 => Wish::Enable(id),
            3 => Wish::Free(id),
            _ => Wish::Priority(id, self.below(3) as i32),
        }
    }
}
