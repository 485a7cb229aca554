//! Moves of the dual simplex method: the variable that is outside its sides by most leaves.
use crate::fixed::{BITS, OPEN, long_product, ratio};
use crate::lists::item_at;
use crate::moves::{exchange, move_by};
use crate::stops::Stop;
use crate::table::{Table, sum_of};
use crate::variables::{Standing, Variables};

/// Entries of a lesser size are no pivots.
pub(crate) const PIVOT: u64 = 1 << 15;

/// A basic variable that is outside: its line, the side that it goes to, and how far that is.
#[derive(Clone, Copy)]
pub(crate) struct Leaving {
    pub(crate) variable: u32,
    pub(crate) line: usize,
    pub(crate) standing: Standing,
    gap: i64,
}

/// A loose variable that may enter: by the ratio of its reduced cost to its entry, then by place.
#[derive(Clone, Copy, PartialEq, Eq, PartialOrd, Ord)]
pub(crate) struct Pick {
    ratio: i64,
    pub(crate) place: usize,
    size: i64,
}

/// The basic variable that is outside its sides by most, and by more than a tolerance.
pub(crate) fn worst(table: &Table, variables: &Variables, outside: i64) -> Option<Leaving> {
    let mut found = None;
    let mut gap = outside;
    for (line, item) in table.lines.iter().enumerate() {
        let variable = variables.get(item.variable);
        let below = variable.low.saturating_sub(variable.value);
        let above = variable.value.saturating_sub(variable.high);
        let (way, standing) = if above > below {
            (above, Standing::High)
        } else {
            (below, Standing::Low)
        };
        if way > gap {
            gap = way;
            found = Some(Leaving {
                variable: item.variable,
                line,
                standing,
                gap,
            });
        }
    }
    found
}

/// Lists the loose variables that may enter where the basic one is to rise, or to fall, in the order of their ratios.
fn list_picks(
    table: &Table,
    variables: &Variables,
    leaving: Leaving,
    picks: &mut Vec<Pick>,
) -> Result<(), Stop> {
    picks.clear();
    let Some(line) = table.lines.get(leaving.line) else {
        return Ok(());
    };
    let rises = leaving.standing == Standing::Low;
    for (place, item) in line.entries.iter().enumerate() {
        let entry = *item;
        if entry.unsigned_abs() < PIVOT {
            continue;
        }
        let variable = variables.get(table.loose_at(place));
        if !variable.is_fixed() && variable.may_go((entry > 0) == rises) {
            picks.push(Pick {
                ratio: ratio(item_at(table.costs.as_slice(), place, 0), entry),
                place,
                size: entry.saturating_abs(),
            })?;
        }
    }
    picks.sort_unstable();
    Ok(())
}

/// How many of the picks go to their other sides before the gap is closed; the last one closes it but for rounding
/// where what is left is within four times a tolerance.
fn count_passed(
    table: &Table,
    variables: &Variables,
    picks: &[Pick],
    gap: i64,
    outside: i64,
) -> usize {
    let mut left = i128::from(gap);
    let mut passed = 0usize;
    for pick in picks {
        let width = variables.get(table.loose_at(pick.place)).width();
        let closed = long_product(pick.size, width);
        if width >= OPEN || closed >= left {
            return passed;
        }
        left = left.wrapping_sub(closed);
        passed = passed.saturating_add(1);
    }
    if left <= i128::from(outside).wrapping_mul(4) {
        passed.saturating_sub(1)
    } else {
        passed
    }
}

/// What ratios are within a tolerance of the first ones: the least ratio that may be reached with it.
fn reachable(picks: &[Pick], rate: i64) -> i64 {
    let mut most = OPEN;
    for pick in picks {
        if pick.ratio > most {
            return most;
        }
        let reach = pick.ratio.saturating_add(ratio(rate, pick.size));
        if reach < most {
            most = reach;
        }
    }
    most
}

/// Of the picks within a tolerance of the first, the one with the greatest entry.
fn best_pick(picks: &[Pick], rate: i64) -> Option<Pick> {
    let most = reachable(picks, rate);
    let mut best: Option<Pick> = None;
    for pick in picks {
        if pick.ratio > most {
            return best;
        }
        best = match best {
            Some(held) if held.size >= pick.size => Some(held),
            _ => Some(*pick),
        };
    }
    best
}

/// Puts the first picks at their other sides, and lists their ways.
fn turn_first(
    table: &Table,
    variables: &mut Variables,
    picks: &[Pick],
    ways: &mut Vec<(usize, i64)>,
) -> Result<(), Stop> {
    ways.clear();
    for pick in picks {
        let number = table.loose_at(pick.place);
        let mut variable = variables.get(number);
        let before = variable.value;
        variable.flip();
        variables.set(number, variable);
        ways.push((pick.place, variable.value.wrapping_sub(before)))?;
    }
    Ok(())
}

/// The lists that moves work in.
#[derive(Drop)]
pub(crate) struct Lists {
    pub(crate) picks: Vec<Pick>,
    pub(crate) ways: Vec<(usize, i64)>,
    pub(crate) values: Vec<i64>,
}

/// Tolerances: sizes of reduced costs, and of ways to a side, that count as none.
#[derive(Clone, Copy)]
pub(crate) struct Tolerances {
    pub(crate) rate: i64,
    pub(crate) outside: i64,
}

impl Tolerances {
    /// Those of a table that was made anew after a refusal, or of one on which nothing was refused yet.
    pub(crate) fn of_table(anew: bool) -> Tolerances {
        if anew {
            Tolerances {
                rate: 1 << (BITS - 24),
                outside: 1 << (BITS - 23),
            }
        } else {
            Tolerances {
                rate: 1 << (BITS - 20),
                outside: 1 << (BITS - 16),
            }
        }
    }
}

/// The first picks go to their other sides, and the basic variables follow.
fn turn_before(
    table: &Table,
    variables: &mut Variables,
    before: &[Pick],
    ways: &mut Vec<(usize, i64)>,
) -> Result<(), Stop> {
    if before.is_empty() {
        return Ok(());
    }
    turn_first(table, variables, before, ways)?;
    for line in &table.lines {
        let more = sum_of(line.entries.as_slice(), ways.as_slice());
        move_by(variables, line.variable, more)?;
    }
    Ok(())
}

/// A dual move: the variable that is outside leaves, after those that go to their other sides. Answers whether there is
/// one; where there isn't, that line can't be mended.
pub(crate) fn dual_move(
    table: &mut Table,
    variables: &mut Variables,
    lists: &mut Lists,
    leaving: Leaving,
    tolerances: Tolerances,
) -> Result<bool, Stop> {
    list_picks(table, variables, leaving, &mut lists.picks)?;
    let picks = lists.picks.as_slice();
    let passed = count_passed(table, variables, picks, leaving.gap, tolerances.outside);
    let Some((before, behind)) = picks.split_at_checked(passed) else {
        return Ok(false);
    };
    let Some(pick) = best_pick(behind, tolerances.rate) else {
        return Ok(false);
    };
    turn_before(table, variables, before, &mut lists.ways)?;
    exchange(table, variables, leaving.line, pick.place, leaving.standing)?;
    Ok(true)
}
