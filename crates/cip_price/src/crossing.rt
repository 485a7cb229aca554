//! Sides that cross.
ghost use Rattle.std.specs.Prelude.{◌≡◌, ◌<◌, [], length, All};
ghost use Rattle.cip_master.specs.MasterTasks.{IsTask};
ghost use Rattle.cip_price.specs.PriceTasks.{task_at};
ghost use Rattle.cip_lin.specs.MetSides.{is_past};
ghost use Rattle.cip_price.specs.CrossedSides.{crosses_column, crosses_row, has_crossed};

use crate::PriceTask;
use cip_lin::{Row, Sides};

/// Whether the sides of a column cross.
fn crosses_column(sides: &[Sides]) -> bool
    ensures { result ≡ crosses_column sides.now }
{
    for at in 0..sides.len() {
        if sides[at].cross() {
            return true;
        }
    }
    false
}

/// Whether those of a row cross.
fn is_crossed_row(row: &Row) -> bool
    ensures { result ≡ is_past row.now.low row.now.high }
{
    let sides = Sides {
        low: row.low(),
        high: row.high(),
    };
    sides.cross()
}

/// Whether those of a row with one of these numbers cross.
fn crosses_row(rows: &[Row], numbers: &[u32]) -> bool
    requires { All (λ number. number < length rows.now) numbers.now }
    ensures { result ≡ crosses_row rows.now numbers.now }
{
    for at in 0..numbers.len() {
        let number = numbers[at];
        if is_crossed_row(&rows[number as usize]) {
            return true;
        }
    }
    false
}

/// Whether the sides of a column in the box cross, or those of a master row.
pub(crate) fn has_crossed(task: &PriceTask<'_>) -> bool
    requires { IsTask (task_at task.now []) }
    ensures { result ≡ has_crossed (task_at task.entry.now []) }
{
    if crosses_column(task.bounds.as_slice()) {
        return true;
    }
    crosses_row(task.program.rows(), task.blocks.blocks.master_rows())
}
