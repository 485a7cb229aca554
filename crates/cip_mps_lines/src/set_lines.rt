//! What the lines of RHS, RANGES and BOUNDS say.
ghost use Rattle.std.specs.Prelude.{◌≡◌, Some, option_map};
ghost use Rattle.cip_text_rules.specs.MpsSayings as text;
ghost use Rattle.cip_mps_lines.specs.FirstWords.{texts};
ghost use Rattle.cip_mps_lines.specs.MpsKinds.{bound_kind_in};
ghost use Rattle.cip_mps_lines.specs.MpsLines.{saying_of, values_of};
ghost use Rattle.cip_mps_lines.specs.SetWords.{values_in_set, set_values, set_column};

use crate::bound_numbers::BoundNumber;
use crate::line::{Line, Pairs};
use crate::place::LinePlace;
use crate::values::{one_value, two_values};
use crate::words::{BoundKind, bound_kind_of};

/// This set and the values of `row value [row value]`, if the words have this form.
fn values_in_set<'a>(set_name: &'a [u8], words: &[&'a [u8]]) -> Option<(&'a [u8], Pairs<'a>)>
    ensures { option_map (λ said. (said.0.now, values_of said.1)) result
        ≡ values_in_set set_name.now (texts words.now) }
{
    match words {
        [row, number] => Some((set_name, one_value(row, number))),
        [row, number, other_row, other_number] => {
            Some((set_name, two_values(row, number, other_row, other_number)))
        }
        _ => None,
    }
}

/// The set and the values of `[set] row value [row value]`, if the words have this form; the set is empty where none is
/// named.
fn set_values<'a>(words: &[&'a [u8]]) -> Option<(&'a [u8], Pairs<'a>)>
    ensures { option_map (λ said. (said.0.now, values_of said.1)) result ≡ set_values (texts words.now) }
{
    if words.len() % 2 == 0 {
        return values_in_set(b"", words);
    }
    match words.split_first() {
        Some((set_name, others)) => values_in_set(set_name, others),
        None => None,
    }
}

/// A line of RHS with this set.
fn right_side_of_set<'a>(place: &LinePlace, set_name: &'a [u8], values: Pairs<'a>) -> Line<'a>
    ensures { saying_of result ≡ text.of_set place.now.set_name set_name.now
        (text.RightSideLine set_name.now (values_of values.entry)) }
{
    if place.skips(set_name) {
        Line::Skipped
    } else {
        Line::RightSideLine { set_name, values }
    }
}

/// A line of RHS: `[set] row value [row value]`.
pub(crate) fn right_side_said<'a>(place: &LinePlace, words: &[&'a [u8]]) -> Line<'a>
    ensures { saying_of result ≡ text.right_side_said place.now.set_name (texts words.now) }
{
    match set_values(words) {
        None => Line::Miscounted,
        Some((set_name, values)) => right_side_of_set(place, set_name, values),
    }
}

/// A line of RANGES with this set.
fn range_of_set<'a>(place: &LinePlace, set_name: &'a [u8], values: Pairs<'a>) -> Line<'a>
    ensures { saying_of result ≡ text.of_set place.now.set_name set_name.now
        (text.RangeLine set_name.now (values_of values.entry)) }
{
    if place.skips(set_name) {
        Line::Skipped
    } else {
        Line::RangeLine { set_name, values }
    }
}

/// A line of RANGES: `[set] row value [row value]`.
pub(crate) fn range_said<'a>(place: &LinePlace, words: &[&'a [u8]]) -> Line<'a>
    ensures { saying_of result ≡ text.range_said place.now.set_name (texts words.now) }
{
    match set_values(words) {
        None => Line::Miscounted,
        Some((set_name, values)) => range_of_set(place, set_name, values),
    }
}

/// A bound of this set.
fn bound_of_set<'a>(
    place: &LinePlace,
    kind: BoundKind,
    set_name: &'a [u8],
    column: &'a [u8],
    value: BoundNumber<'a>,
) -> Line<'a>
    ensures { saying_of result ≡ text.of_set place.now.set_name set_name.now
        (text.BoundLine (bound_kind_in kind) set_name.now column.now value.entry) }
{
    if place.skips(set_name) {
        return Line::Skipped;
    }
    Line::BoundLine {
        kind,
        set_name,
        column,
        value,
    }
}

/// A bound with a value, behind its type: `[set] column value`.
fn valued_bound<'a>(place: &LinePlace, kind: BoundKind, words: &[&'a [u8]]) -> Line<'a>
    ensures { saying_of result ≡ text.valued_bound place.now.set_name (bound_kind_in kind) (texts words.now) }
{
    match words {
        [column, number] => bound_of_set(place, kind, b"", column, BoundNumber::of(number)),
        [set_name, column, number] => {
            bound_of_set(place, kind, set_name, column, BoundNumber::of(number))
        }
        _ => Line::Miscounted,
    }
}

/// The set and the column of `[set] column`, or `set column value`, if the words have this form; the set is empty where
/// none is named.
fn set_column<'a>(words: &[&'a [u8]]) -> Option<(&'a [u8], &'a [u8])>
    ensures { option_map (λ said. (said.0.now, said.1.now)) result ≡ set_column (texts words.now) }
{
    match words {
        [column] => Some((b"", column)),
        [set_name, column] => Some((set_name, column)),
        [set_name, column, _] => Some((set_name, column)),
        _ => None,
    }
}

/// A bound without a value, behind its type: `[set] column`, or `set column value`.
fn plain_bound<'a>(place: &LinePlace, kind: BoundKind, words: &[&'a [u8]]) -> Line<'a>
    ensures { saying_of result ≡ text.plain_bound place.now.set_name (bound_kind_in kind) (texts words.now) }
{
    match set_column(words) {
        None => Line::Miscounted,
        Some((set_name, column)) => bound_of_set(
            place,
            kind,
            set_name,
            column,
            BoundNumber::none(),
        ),
    }
}

/// A bound of this type, behind which these words stand.
fn typed_bound<'a>(place: &LinePlace, kind: BoundKind, words: &[&'a [u8]]) -> Line<'a>
    ensures { saying_of result
        ≡ text.typed_bound place.now.set_name (Some (bound_kind_in kind)) (texts words.now) }
{
    if kind.has_value() {
        valued_bound(place, kind, words)
    } else {
        plain_bound(place, kind, words)
    }
}

/// A line of BOUNDS: a type, and what stands behind it.
pub(crate) fn bound_said<'a>(place: &LinePlace, words: &[&'a [u8]]) -> Line<'a>
    ensures { saying_of result ≡ text.bound_said place.now.set_name (texts words.now) }
{
    let Some((kind, others)) = words.split_first() else {
        return Line::Miscounted;
    };
    match bound_kind_of(kind) {
        None => Line::BadBound,
        Some(kind) => typed_bound(place, kind, others),
    }
}
