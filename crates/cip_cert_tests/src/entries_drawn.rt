//! Linear programs and moves at random.
ghost use Rattle.std.specs.Prelude.{◌<◌};

use crate::entries::Program;
use crate::simplex_draws::Random;
use cip_dict::Stand;
use cip_frac::Frac;
use std::alloc::{AllocError, Global};

/// The rows and columns of a program.
pub(crate) const ROWS: u32 = 4;

pub(crate) const COLUMNS: u32 = 5;

impl Random {
    // 0 in a third of the cases, and else a whole number from -9 to 9, or one about 2^38 times as great if `great`
    fn number(&mut self, great: bool) -> Frac {
        if self.below(3) == 0 {
            return Frac::zero();
        }
        let small = self.below(19) as i64 - 9;
        if great {
            return Frac::from(small * 274877906944 + 1);
        }
        Frac::from(small)
    }

    pub(crate) fn stand(&mut self) -> Stand {
        match self.below(5) {
            0 => Stand::Zero,
            1 => Stand::High,
            2 => Stand::High,
            _ => Stand::Low,
        }
    }

    // appends a row, in which one number of `one_in` is great
    fn add_row(&mut self, program: &mut Program, row: u32, one_in: u32) -> Result<(), AllocError>
        requires { 0 < one_in }
    {
        program.rows.push(self.sides(4))?;
        for column in 0..COLUMNS {
            let great = self.below(one_in) == 0;
            program.entries.push((row, column, self.number(great)))?;
        }
        Ok(())
    }

    fn add_columns(&mut self, program: &mut Program) -> Result<(), AllocError> {
        for _ in 0..COLUMNS {
            program.columns.push(self.sides(4))?;
            program.costs.push(self.number(false))?;
        }
        Ok(())
    }

    // fills an empty program; one in ten has many great numbers
    pub(crate) fn fill_entries(&mut self, program: &mut Program) -> Result<(), AllocError> {
        let one_in = if self.below(10) == 0 { 2 } else { 40 };
        self.add_columns(program)?;
        for row in 0..ROWS {
            self.add_row(program, row, one_in)?;
        }
        Ok(())
    }
}
