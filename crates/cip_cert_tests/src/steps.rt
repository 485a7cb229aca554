//! What is done with a state, and what it has then.
use crate::moves::{entry_at, exchange, flip, is_row_whole, value_of};
use cip_dict::{Dict, Stand};
use cip_frac::Frac;

/// A numerator and a denominator.
type Parts = (i128, i128);

/// A move that is made, or something that holds.
#[derive(Clone, Copy)]
pub(crate) enum Step {
    /// A row's variable goes out for a column's, to its low side.
    Lowers(u32, u32),
    /// The same, to its high side.
    Lifts(u32, u32),
    /// A column goes to its other side.
    Flips(u32),
    /// A column can't go there.
    StaysPut(u32),
    /// The entry of a row on a variable.
    Entry(u32, u32, Parts),
    /// A variable has no row.
    NoRow(u32),
    /// The value of a variable.
    Value(u32, Parts),
    /// The cost.
    Cost(Parts),
    /// The entries that a row keeps, by variable, in their order, and no others.
    Row(u32, &'static [(u32, Parts)]),
    /// The same of the cost.
    Costs(&'static [(u32, Parts)]),
    /// Whether a row has an entry on a variable, and whether that is above 0.
    Sign(u32, u32, (bool, bool)),
    /// Two rows and the cost are kept as whole numbers.
    AllWhole,
}

fn is_fraction(value: Frac, parts: Parts) -> bool {
    Frac::new(parts.0, parts.1) == Ok(value)
}

fn is_some_fraction(value: Option<Frac>, parts: Parts) -> bool {
    match value {
        Some(value) => is_fraction(value, parts),
        None => false,
    }
}

/// An entry, told with its sign, stands on this variable and is this fraction.
fn is_told((v, above): (u32, bool), (k, entry): (u32, Frac), (on, parts): (u32, Parts)) -> bool {
    v == on && k == on && above == (parts.0 > 0) && is_fraction(entry, parts)
}

fn has_row_of(dict: &Dict, i: u32, entries: &[(u32, Parts)]) -> bool {
    if (i as usize) >= dict.len() || dict.stand(i).is_some() || dict.row_len(i) != entries.len() {
        return false;
    }
    for at in 0..entries.len() {
        if !is_told(dict.row_sign(i, at), dict.row_entry(i, at), entries[at]) {
            return false;
        }
    }
    true
}

fn has_costs(dict: &Dict, entries: &[(u32, Parts)]) -> bool {
    if dict.costs_len() != entries.len() {
        return false;
    }
    for at in 0..entries.len() {
        if !is_told(dict.cost_sign(at), dict.cost_at(at), entries[at]) {
            return false;
        }
    }
    true
}

/// Whether the row of a variable has an entry on another one, and whether that is above 0.
fn sign(dict: &Dict, i: u32, j: u32) -> Option<(bool, bool)> {
    let len = dict.len();
    if (i as usize) >= len || (j as usize) >= len || dict.stand(i).is_some() {
        return None;
    }
    Some((dict.has_entry(i, j), dict.is_entry_positive(i, j)))
}

/// Whether two rows and the cost of four variables are kept as whole numbers.
fn are_whole(dict: &Dict) -> bool {
    let mut rows = 0_u32;
    for v in 0..4 {
        if is_row_whole(dict, v) {
            rows = rows.saturating_add(1);
        }
    }
    rows == 2 && dict.len() > 0 && dict.cost_number(0).is_some()
}

fn is_exchanged(dict: &mut Dict, i: u32, j: u32, to: Stand) -> bool {
    match exchange(dict, i, j, to) {
        Some(answer) => answer.is_ok(),
        None => false,
    }
}

fn is_flipped(dict: &mut Dict, j: u32) -> bool {
    match flip(dict, j) {
        Some(answer) => answer.is_ok(),
        None => false,
    }
}

/// What a state has.
fn has(dict: &Dict, step: Step) -> bool {
    match step {
        Step::Entry(i, j, parts) => is_some_fraction(entry_at(dict, i, j), parts),
        Step::NoRow(i) => (i as usize) < dict.len() && dict.stand(i).is_some(),
        Step::Value(v, parts) => is_some_fraction(value_of(dict, v), parts),
        Step::Cost(parts) => is_fraction(dict.cost(), parts),
        Step::Row(i, entries) => has_row_of(dict, i, entries),
        Step::Costs(entries) => has_costs(dict, entries),
        Step::Sign(i, j, want) => sign(dict, i, j) == Some(want),
        Step::AllWhole => are_whole(dict),
        _ => false,
    }
}

/// Makes a move, or asks whether something holds.
fn holds(dict: &mut Dict, step: Step) -> bool {
    match step {
        Step::Lowers(i, j) => is_exchanged(dict, i, j, Stand::Low),
        Step::Lifts(i, j) => is_exchanged(dict, i, j, Stand::High),
        Step::Flips(j) => is_flipped(dict, j),
        Step::StaysPut(j) => flip(dict, j).is_none(),
        _ => has(dict, step),
    }
}

/// The first of these steps that isn't so, in their order; their number where there is none.
pub(crate) fn first_wrong(dict: &mut Dict, steps: &[Step]) -> usize {
    for at in 0..steps.len() {
        if !holds(dict, steps[at]) {
            return at;
        }
    }
    steps.len()
}
