//! The program that is drawn.
ghost use Rattle.std.specs.Prelude.{◌≡◌, ◌≤◌, true, map, replicate, IfOk};
ghost use Rattle.std.specs.List.{range_with_len};
ghost use Rattle.cip_input.specs.Generated.{generated, name_of, zero_to_three};

use crate::columns::{column_sides, drawn_costs, numbered_names};
use crate::draws::Draws;
use crate::rows::drawn_rows;
use cip_frac::Frac;
use cip_lin::{Bounds, Choices};
use cip_model::{Names, Parts, Program, Sense};
use std::alloc::{AllocError, Global};

/// The most columns, and the most rows, of a program that is drawn.
pub const MOST_DRAWN: usize = 256;

/// What is the same for each seed.
#[derive(Drop)]
struct Frame {
    column_names: Names,
    row_names: Names,
    bounds: Bounds,
    whole: Vec<bool>,
}

/// The names, and the sides of the columns, which are all whole.
fn frame_of(alloc: Global, cols: usize, rows: usize) -> Result<Frame, AllocError>
    ensures columns { IfOk result (λ frame. frame.column_names ≡ map (name_of 120) (range_with_len 0 cols)) }
    ensures rows { IfOk result (λ frame. frame.row_names ≡ map (name_of 114) (range_with_len 0 rows)) }
    ensures bounds { IfOk result (λ frame. frame.bounds ≡ replicate cols zero_to_three) }
    ensures whole { IfOk result (λ frame. frame.whole.items ≡ replicate cols true) }
{
    let Ok(whole) = vec![in alloc; true; cols] else {
        return Err(AllocError);
    };
    let Ok(bounds) = column_sides(alloc, cols) else {
        return Err(AllocError);
    };
    let Ok(column_names) = numbered_names(alloc, b'x', cols) else {
        drop(bounds);
        return Err(AllocError);
    };
    let Ok(row_names) = numbered_names(alloc, b'r', rows) else {
        drop(bounds);
        drop(column_names);
        return Err(AllocError);
    };
    Ok(Frame {
        column_names,
        row_names,
        bounds,
        whole,
    })
}

/// The program of a seed, with so many columns and rows, each at most `MOST_DRAWN`: whole columns `x0`, `x1`, .. from
/// 0 to 3 with costs from 1 to 20, whose sum is to be greatest, and rows `r0`, `r1`, .. with coefficients from 0 to 9,
/// each at most the sum of its coefficients. `Err` comes where a growth was refused.
pub fn generate(alloc: Global, seed: u64, cols: usize, rows: usize) -> Result<Program, AllocError>
    requires few_columns { cols ≤ MOST_DRAWN }
    requires few_rows { rows ≤ MOST_DRAWN }
    ensures { IfOk result (λ program. program ≡ generated seed cols rows) }
{
    let mut draws = Draws { state: seed };
    let costs = drawn_costs(alloc, &mut draws, cols)?;
    let drawn = drawn_rows(alloc, &mut draws, cols, rows)?;
    let Ok(frame) = frame_of(alloc, cols, rows) else {
        drop(drawn);
        return Err(AllocError);
    };
    let Frame {
        column_names,
        row_names,
        bounds,
        whole,
    } = frame;
    Ok(Program::new(Parts {
        column_names,
        row_names,
        rows: drawn,
        costs,
        constant: Frac::zero(),
        sense: Sense::Maximize,
        whole,
        bounds,
        choices: Choices::new(alloc),
    }))
}
