//! The values of a line.
ghost use Rattle.std.specs.Prelude.{◌≡◌};
ghost use Rattle.cip_text_rules.specs.MpsSayings as text;
ghost use Rattle.cip_mps_lines.specs.MpsLines.{values_of};

use crate::line::{Pair, Pairs};
use crate::numbers::Number;

/// A row and the number that a text says for it.
fn pair<'a>(row: &'a [u8], number: &'a [u8]) -> Pair<'a>
    ensures row_is { result.row.now ≡ row.now }
    ensures number_is { result.number ≡ (text.value_said row.now number.now).number }
{
    Pair {
        row,
        number: Number::of(number),
    }
}

/// The one value of a line.
pub(crate) fn one_value<'a>(row: &'a [u8], number: &'a [u8]) -> Pairs<'a>
    ensures { values_of result ≡ text.one_value row.now number.now }
{
    Pairs {
        first: pair(row, number),
        second: None,
    }
}

/// The two values of a line.
pub(crate) fn two_values<'a>(
    row: &'a [u8],
    number: &'a [u8],
    other_row: &'a [u8],
    other_number: &'a [u8],
) -> Pairs<'a>
    ensures { values_of result ≡ text.two_values row.now number.now other_row.now other_number.now }
{
    Pairs {
        first: pair(row, number),
        second: Some(pair(other_row, other_number)),
    }
}
