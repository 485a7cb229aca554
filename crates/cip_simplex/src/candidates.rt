//! Variables that may be chosen, and the best of them by a rule that makes few moves.
ghost use Rattle.std.specs.Prelude.{◌≡◌, ◌<◌, ◌^◌, true, length};
ghost use Rattle.cip_bland.specs.Dictionary as def;
ghost use Rattle.cip_bland.specs.Rule as rule;
ghost use Rattle.cip_dict.specs.SparseLines.{kept_of};
ghost use Rattle.cip_simplex.specs.FreeMoves as free;

use crate::choice::{is_outside, may_go};
use crate::headings::{heading_if, is_below, outside_way};
use cip_bland::Heading;
use cip_dict::{Dict, Frac};
use std::cmp::Ordering;

/// What a candidate is worth: by whole numbers where lines are kept as such over one denominator, else by fractions.
#[derive(Drop)]
pub(crate) enum Worth {
    /// The size of the number of the cost: the greater is better.
    Number(u64),
    /// The sizes of the numbers of the cost and of an entry: the lesser ratio is better, of equal ones the greater
    /// entry.
    Ratio { cost: u64, entry: u64 },
    /// By fractions: the greater rate is better, of equal ones the greater size; a rate out of range is below all
    /// others.
    Exact { rate: Option<Frac>, size: Frac },
}

/// A variable that may be chosen.
#[derive(Drop)]
pub(crate) struct Candidate {
    pub(crate) variable: u32,
    pub(crate) worth: Worth,
}

/// Whether a rate is above another.
fn is_above(rate: Option<Frac>, other: Option<Frac>) -> bool {
    match (rate, other) {
        (Some(rate), Some(other)) => is_below(other, rate),
        (Some(_), None) => true,
        (None, _) => false,
    }
}

/// Whether a candidate is better than another of one line. Ratios compare as the products of each cost and the other
/// entry do, which may have 128 bits.
fn is_better(candidate: &Candidate, other: &Candidate) -> bool {
    match (&candidate.worth, &other.worth) {
        (Worth::Number(number), Worth::Number(held)) => *number > *held,
        (Worth::Ratio { cost, entry }, Worth::Ratio { cost: c, entry: e }) => {
            let (low, high) = cost.carrying_mul(*e, 0);
            let (other_low, other_high) = c.carrying_mul(*entry, 0);
            match high.cmp(&other_high).then(low.cmp(&other_low)) {
                Ordering::Less => true,
                Ordering::Equal => *entry > *e,
                Ordering::Greater => false,
            }
        }
        (Worth::Exact { rate, size }, Worth::Exact { rate: r, size: s }) => {
            is_above(*rate, *r) || !is_above(*r, *rate) && is_below(*s, *size)
        }
        _ => false,
    }
}

/// The better of what was found and another candidate, the first of equal ones.
fn better_of(found: Option<Candidate>, other: Candidate) -> Candidate
    ensures { free.IsOneOf found (Some other) (Some result) }
{
    match found {
        None => other,
        Some(best) => {
            if is_better(&other, &best) {
                other
            } else {
                best
            }
        }
    }
}

/// The variable of a candidate.
fn variable_of(best: Option<Candidate>) -> Option<u32>
    ensures { result ≡ free.variable_of best }
{
    match best {
        Some(candidate) => Some(candidate.variable),
        None => None,
    }
}

/// Variable v, which is outside its sides, as one that may leave: the more it is worth, the farther outside it is.
fn leaving_candidate(dict: &Dict, v: u32) -> Candidate
    requires { v < def.size dict.now }
    ensures { result.variable ≡ v }
{
    let (sides, value) = (dict.sides(v), dict.value(v));
    let difference = match outside_way(sides, value) {
        Heading::Up => value.sub(sides.high.unwrap_or(value)),
        Heading::Down => sides.low.unwrap_or(value).sub(value),
    };
    let rate = difference.ok();
    let size = Frac::zero();
    Candidate {
        variable: v,
        worth: Worth::Exact { rate, size },
    }
}

/// The basic variable that is outside its sides by most, of equal ones the least.
pub(crate) fn worst_outside(dict: &Dict) -> Option<u32>
    requires { def.size dict.now < 2 ^ 32 }
    ensures { free.IsPicked dict.now (rule.is_outside dict.now) result }
{
    let mut worst = None;
    for v in 0..dict.len() {
        if !is_outside(dict, v as u32) {
            continue;
        }
        worst = Some(better_of(worst, leaving_candidate(dict, v as u32)));
    }
    variable_of(worst)
}

/// Variable k, on which the entry of i of this place stands, as one that may enter: the less the cost rises by it, the
/// more it is worth, and where that is the same, the greater the entry is.
fn entering_candidate(dict: &Dict, i: u32, at: usize, k: u32) -> Candidate
    requires leaving { i < def.size dict.now }
    requires basic { def.is_basic dict.now i ≡ true }
    requires there { at < length (kept_of (def.size dict.now) (def.entry dict.now i)) }
    requires within { k < def.size dict.now }
    ensures { result.variable ≡ k }
{
    if let (Some(number), Some(divisor)) = (dict.cost_number(k), dict.row_number(i, at)) {
        let cost = number.unsigned_abs();
        let entry = divisor.unsigned_abs();
        return Candidate {
            variable: k,
            worth: Worth::Ratio { cost, entry },
        };
    }
    let (_, entry) = dict.row_entry(i, at);
    let mut rate = None;
    if !entry.is_zero() {
        if let Ok(ratio) = dict.cost_entry(k).mul(entry.reciprocal()) {
            rate = Some(ratio.abs().neg());
        }
    }
    let size = entry.abs();
    Candidate {
        variable: k,
        worth: Worth::Exact { rate, size },
    }
}

/// The variable that takes i this way as it goes where it may, for which the cost rises by least; of equal ones that of
/// the greatest entry, of equal ones the least.
pub(crate) fn best_driving(dict: &Dict, i: u32, heading: Heading) -> Option<u32>
    requires few { def.size dict.now < 2 ^ 32 }
    requires leaving { i < def.size dict.now }
    requires basic { def.is_basic dict.now i ≡ true }
    ensures { free.IsPicked dict.now (rule.drives dict.now (def.entry dict.now i) heading) result }
{
    let mut best = None;
    for at in 0..dict.row_len(i) {
        let (k, above) = dict.row_sign(i, at);
        if !may_go(dict, k, heading_if(heading, above)) {
            continue;
        }
        best = Some(better_of(best, entering_candidate(dict, i, at, k)));
    }
    variable_of(best)
}

/// Variable k, on which the entry of the cost of this place stands, as one that may enter: the greater the size of the
/// entry, the more it is worth.
fn lowering_candidate(dict: &Dict, at: usize, k: u32) -> Candidate
    requires { at < length (kept_of (def.size dict.now) (def.cost_entry dict.now)) }
    ensures { result.variable ≡ k }
{
    if let Some(number) = dict.cost_number_at(at) {
        return Candidate {
            variable: k,
            worth: Worth::Number(number.unsigned_abs()),
        };
    }
    let (_, entry) = dict.cost_at(at);
    let rate = Some(entry.abs());
    let size = Frac::zero();
    Candidate {
        variable: k,
        worth: Worth::Exact { rate, size },
    }
}

/// The variable by which the cost falls fastest, of equal ones the least.
pub(crate) fn best_improving(dict: &Dict) -> Option<u32>
    requires { def.size dict.now < 2 ^ 32 }
    ensures { free.IsPicked dict.now (rule.improves dict.now) result }
{
    let mut best = None;
    for at in 0..dict.costs_len() {
        let (k, above) = dict.cost_sign(at);
        if !may_go(dict, k, heading_if(Heading::Down, above)) {
            continue;
        }
        best = Some(better_of(best, lowering_candidate(dict, at, k)));
    }
    variable_of(best)
}
