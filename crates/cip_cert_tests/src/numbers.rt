//! The whole numbers of a line, of which no clause says what they are, compare as its entries do: each entry is its
//! number times one positive scale.
use crate::moves::is_row_whole;
use cip_dict::Dict;
use cip_frac::Frac;

// an entry over its number
fn scale(entry: Frac, number: Option<i64>) -> Option<Frac> {
    let Some(number) = number else {
        return None;
    };
    let whole = Frac::from(number);
    if whole.is_zero() {
        return None;
    }
    match entry.div(whole) {
        Ok(scale) => Some(scale),
        Err(_) => None,
    }
}

fn row_scale(dict: &Dict, i: u32, at: usize) -> Option<Frac> {
    if (i as usize) >= dict.len() || dict.stand(i).is_some() || at >= dict.row_len(i) {
        return None;
    }
    scale(dict.row_entry(i, at).1, dict.row_number(i, at))
}

fn row_len(dict: &Dict, i: u32) -> usize {
    if (i as usize) >= dict.len() || dict.stand(i).is_some() {
        return 0;
    }
    dict.row_len(i)
}

// whether the numbers of a row that is whole compare as its entries do
fn row_compares(dict: &Dict, i: u32) -> bool {
    let Some(first) = row_scale(dict, i, 0) else {
        return !is_row_whole(dict, i);
    };
    for at in 1..row_len(dict, i) {
        if row_scale(dict, i, at) != Some(first) {
            return false;
        }
    }
    first.is_positive()
}

fn cost_scale(dict: &Dict, at: usize) -> Option<Frac> {
    if at >= dict.costs_len() {
        return None;
    }
    scale(dict.cost_at(at).1, dict.cost_number_at(at))
}

fn is_cost_whole(dict: &Dict) -> bool {
    dict.costs_len() > 0 && dict.cost_number_at(0).is_some()
}

fn cost_compares(dict: &Dict) -> bool {
    let Some(first) = cost_scale(dict, 0) else {
        return !is_cost_whole(dict);
    };
    for at in 1..dict.costs_len() {
        if cost_scale(dict, at) != Some(first) {
            return false;
        }
    }
    first.is_positive()
}

pub(crate) fn numbers_compare(dict: &Dict, variables: u32) -> bool {
    for i in 0..variables {
        if !row_compares(dict, i) {
            return false;
        }
    }
    cost_compares(dict)
}
