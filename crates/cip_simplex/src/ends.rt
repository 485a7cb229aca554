//! What the ends of a list of moves answer.
ghost use Rattle.std.specs.Prelude.{◌≡◌, ◌+◌, ◌<◌, ◌≤◌, ◌^◌, true, IfOk};
ghost use Rattle.cip_bland.specs.Tables.{table};
ghost use Rattle.cip_bland.specs.Dictionary as def;
ghost use Rattle.cip_bland.specs.StateEnds.{IsEndAt};
ghost use Rattle.cip_bland.specs.EndAnswers as answers;
ghost use Rattle.cip_bland.specs.EndAnswers.{change_of, row_multiplier, answer_at};
ghost use Rattle.cip_simplex.specs.Certificates as certificates;
ghost use Rattle.cip_simplex.specs.Certificates.{certificate_on, crossed_on};
ghost use Rattle.cip_simplex.specs.LpShape.{variables};
ghost use Rattle.cip_simplex.specs.LpAnswers.{IsCombo, IsAnswer};

use crate::answers::LpAnswer;
use crate::choice::outside_heading;
use crate::combos::combination;
use crate::headings::{back_of, change_along};
use crate::lp::Lp;
use crate::ways::falling_heading;
use cip_bland::Step;
use cip_dict::{Dict, Frac};
use cip_lin::{ColumnMultiple, Combo, RowId, RowMultiple};
use std::alloc::{AllocError, Global};

/// The values of the first n variables; `Err` where memory was refused.
fn values_of(alloc: Global, dict: &Dict, n: usize) -> Result<Vec<Frac>, AllocError>
    requires few { def.size dict.now < 2 ^ 32 }
    requires within { n ≤ def.size dict.now }
    ensures { IfOk result (λ values. values.items ≡ table n (def.value dict.now)) }
{
    let mut values = Vec::with_capacity(alloc, n)?;
    for v in 0..n {
        values.push(dict.value(v as u32))?;
    }
    Ok(values)
}

/// The combination of the entries of the cost; `Err` where memory was refused.
fn cost_combo(alloc: Global, dict: &Dict, columns: usize, rows: usize) -> Result<Combo, AllocError>
    requires few { def.size dict.now < 2 ^ 32 }
    requires variables { def.size dict.now ≡ columns + rows }
    ensures { IfOk result (IsCombo (certificate_on columns rows (def.cost_entry dict.now))) }
{
    let mut multipliers = Vec::with_capacity(alloc, dict.len())?;
    let mut at = 0;
    for v in 0..dict.len() {
        let mut entry = Frac::zero();
        if at < dict.costs_len() {
            let (k, found) = dict.cost_at(at);
            if k == v as u32 {
                entry = found;
                at += 1;
            }
        }
        multipliers.push(entry)?;
    }
    combination(alloc, columns, multipliers.as_slice())
}

/// The combination of the row of i, which is outside its sides: that is 0 at each solution. `Err` where memory was
/// refused.
fn row_combo(
    alloc: Global,
    dict: &Dict,
    i: u32,
    columns: usize,
    rows: usize,
) -> Result<Combo, AllocError>
    requires few { def.size dict.now < 2 ^ 32 }
    requires variables { def.size dict.now ≡ columns + rows }
    requires leaving { i < def.size dict.now }
    requires basic { def.is_basic dict.now i ≡ true }
    ensures { IfOk result (IsCombo (certificate_on columns rows (row_multiplier dict.now i))) }
{
    let heading = outside_heading(dict, i);
    let mut multipliers = Vec::with_capacity(alloc, dict.len())?;
    let mut at = 0;
    for v in 0..dict.len() {
        let mut entry = Frac::zero();
        if at < dict.row_len(i) {
            let (k, found) = dict.row_entry(i, at);
            if k == v as u32 {
                entry = found;
                at += 1;
            }
        }
        let multiplier = if v as u32 == i {
            change_along(back_of(heading), Frac::one())
        } else {
            change_along(heading, entry)
        };
        multipliers.push(multiplier)?;
    }
    combination(alloc, columns, multipliers.as_slice())
}

/// The combination of the crossed sides of a column; `Err` where memory was refused.
fn crossed_column(alloc: Global, col: u32) -> Result<Combo, AllocError>
    ensures { IfOk result (IsCombo (certificates.crossed_column col)) }
{
    let one = Frac::one();
    let lows = vec![in alloc; ColumnMultiple { col, factor: one }]?;
    let highs = vec![in alloc;
        ColumnMultiple {
            col,
            factor: one.neg()
        },
    ]?;
    Ok(Combo {
        rows: Vec::new(alloc),
        lows,
        highs,
    })
}

/// The combination of the crossed sides of a row; `Err` where memory was refused.
fn crossed_row(alloc: Global, r: u32) -> Result<Combo, AllocError>
    ensures { IfOk result (IsCombo (certificates.crossed_row r)) }
{
    let one = Frac::one();
    let row = RowId::Own(r);
    let rows = vec![in alloc;
        RowMultiple { row, factor: one },
        RowMultiple {
            row,
            factor: one.neg()
        },
    ]?;
    Ok(Combo {
        rows,
        lows: Vec::new(alloc),
        highs: Vec::new(alloc),
    })
}

/// The combination of the crossed sides of a variable; `Err` where memory was refused.
fn crossed_combo(alloc: Global, v: u32, columns: usize) -> Result<Combo, AllocError>
    requires { columns < 2 ^ 32 }
    ensures { IfOk result (IsCombo (crossed_on columns v)) }
{
    if (v as usize) < columns {
        crossed_column(alloc, v)
    } else {
        crossed_row(alloc, v - columns as u32)
    }
}

/// What a ray answers: its point, and by how much the columns change as j goes one, so that the cost falls.
fn ray_answer(alloc: Global, dict: &Dict, j: u32, columns: usize) -> Result<LpAnswer, AllocError>
    requires few { def.size dict.now < 2 ^ 32 }
    requires within { columns ≤ def.size dict.now }
    requires entering { j < def.size dict.now }
    ensures { IfOk result (IsAnswer (answers.Unbounded (table columns (def.value dict.now))
        (table columns (change_of dict.now j)))) }
{
    let heading = falling_heading(dict, j);
    let mut ray = Vec::with_capacity(alloc, columns)?;
    for v in 0..columns {
        let v = v as u32;
        let change = if v == j {
            change_along(heading, Frac::one())
        } else if dict.stand(v).is_none() {
            change_along(heading, dict.entry(v, j))
        } else {
            Frac::zero()
        };
        ray.push(change)?;
    }
    let point = values_of(alloc, dict, columns)?;
    Ok(LpAnswer::Unbounded { point, ray })
}

/// What a state answers that is this end; `Err` where memory was refused.
pub(crate) fn end_answer(
    alloc: Global,
    lp: &Lp,
    dict: &Dict,
    step: Step,
) -> Result<LpAnswer, AllocError>
    requires variables { def.size dict.now ≡ variables lp.now }
    requires is_end { IsEndAt dict.now step }
    ensures { IfOk result (IsAnswer (answer_at lp.now dict.now step)) }
{
    let columns = lp.columns();
    let rows = lp.row_count();
    match step {
        Step::Crossed(v) => {
            let combo = crossed_combo(alloc, v, columns)?;
            Ok(LpAnswer::Infeasible { combo })
        }
        Step::Infeasible(i) => {
            let combo = row_combo(alloc, dict, i, columns, rows)?;
            Ok(LpAnswer::Infeasible { combo })
        }
        Step::Optimum => {
            let point = values_of(alloc, dict, columns)?;
            let combo = cost_combo(alloc, dict, columns, rows)?;
            let cost = dict.cost();
            Ok(LpAnswer::Optimal { point, combo, cost })
        }
        Step::Ray(j) => ray_answer(alloc, dict, j, columns),
        Step::Makes(_) => Ok(LpAnswer::Limit),
    }
}
