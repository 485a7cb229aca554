//! The one or two values of a line: tests of their numbers and names.
ghost use Rattle.std.specs.Prelude.{◌≡◌, ◌≤◌};
ghost use Rattle.std.specs.List.{list_any};
ghost use Rattle.cip_mps_lines.specs.MpsLines.{values_of};
ghost use Rattle.cip_text_rules.specs.MpsWords.{is_no_number, is_too_fine};
ghost use Rattle.cip_text_rules.specs.MpsRules.{has_twins};
ghost use Rattle.cip_text_rules.specs.MpsLineTests.{numbers_of, has_huge};
ghost use Rattle.cip_mps.specs.DraftLines.{entries_in};

use cip_mps_lines::Pairs;

/// Whether a value is no number.
pub(crate) fn has_no_number(values: &Pairs<'_>) -> bool
    ensures { result ≡ list_any is_no_number (numbers_of (values_of values.now)) }
{
    let second = match &values.second {
        None => false,
        Some(pair) => pair.number.is_no_number(),
    };
    values.first.number.is_no_number() || second
}

/// Whether a value is above the range.
pub(crate) fn has_huge_number(values: &Pairs<'_>) -> bool
    ensures { result ≡ has_huge (values_of values.now) }
{
    let second = match &values.second {
        None => false,
        Some(pair) => pair.number.is_huge(),
    };
    values.first.number.is_huge() || second
}

/// Whether a value needs too many digits.
pub(crate) fn has_fine_number(values: &Pairs<'_>) -> bool
    ensures { result ≡ list_any is_too_fine (numbers_of (values_of values.now)) }
{
    let second = match &values.second {
        None => false,
        Some(pair) => pair.number.is_too_fine(),
    };
    values.first.number.is_too_fine() || second
}

/// Whether the two values name one row.
pub(crate) fn are_twins(values: &Pairs<'_>) -> bool
    ensures { result ≡ has_twins (values_of values.now) }
{
    match &values.second {
        None => false,
        Some(pair) => values.first.row == pair.row,
    }
}

/// How many of the values aren't 0: at most two.
pub(crate) fn count_entries(values: &Pairs<'_>) -> usize
    ensures count { result ≡ entries_in (values_of values.now) }
    ensures few { result ≤ 2 }
{
    let first = if values.first.number.is_zero() { 0 } else { 1 };
    let second = match &values.second {
        None => 0,
        Some(pair) => { if pair.number.is_zero() { 0 } else { 1 } }
    };
    first + second
}
