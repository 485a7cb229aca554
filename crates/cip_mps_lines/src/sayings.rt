//! What a line says at its place.
ghost use Rattle.std.specs.Prelude.{◌≡◌, ◌∷◌, []};
ghost use Rattle.cip_text.specs.TextLines.{fields_left, content_of};
ghost use Rattle.cip_text_rules.specs.MpsWords as words_of_text;
ghost use Rattle.cip_text_rules.specs.MpsSayings as text;
ghost use Rattle.cip_mps_lines.specs.FirstWords.{texts};
ghost use Rattle.cip_mps_lines.specs.MpsLines.{saying_of};

use crate::fields::Words;
use crate::line::Line;
use crate::place::LinePlace;
use crate::set_lines::{bound_said, range_said, right_side_said};
use crate::values::{one_value, two_values};
use crate::words::{Part, marker_of, row_kind_of, section_of};
use cip_text::{Fields, TextLine};

/// What a record says at this place.
pub fn said<'a>(place: &LinePlace, line: &TextLine<'a>) -> Line<'a>
    ensures { saying_of result ≡ text.said place.now (content_of line.now) }
{
    if line.is_section {
        return section_said(&line.fields);
    }
    let words = Words::first_of(&line.fields);
    fields_said(place, words.as_slice())
}

/// What the words of a section line say.
fn section_said<'a>(fields: &Fields<'a>) -> Line<'a>
    ensures { saying_of result ≡ text.section_said (fields_left fields.now) }
{
    let mut words = *fields;
    let Some(word) = words.next_field() else {
        return Line::UnknownSection;
    };
    match section_of(word) {
        None => Line::UnknownSection,
        Some(part) => Line::Opens { part, words },
    }
}

/// What the fields of a line say in the section of this place.
fn fields_said<'a>(place: &LinePlace, words: &[&'a [u8]]) -> Line<'a>
    ensures { saying_of result ≡ text.fields_said place.now.part place.now (texts words.now) }
{
    match place.part() {
        Part::NoPart | Part::Title | Part::End => Line::Misplaced,
        Part::Sense if place.has_sense() => Line::Misplaced,
        Part::Sense => sense_said(words),
        Part::Rows => row_said(words),
        Part::Columns => column_said(place.is_whole(), words),
        Part::RightSides => right_side_said(place, words),
        Part::Ranges => range_said(place, words),
        Part::Bounds => bound_said(place, words),
    }
}

/// A line of OBJSENSE.
fn sense_said<'a>(words: &[&'a [u8]]) -> Line<'a>
    ensures { saying_of result ≡ text.sense_said (texts words.now) }
{
    match words {
        [word] => Line::SenseLine { word },
        _ => Line::Miscounted,
    }
}

/// A line of ROWS: `type name`.
fn row_said<'a>(words: &[&'a [u8]]) -> Line<'a>
    ensures { saying_of result ≡ text.row_said (texts words.now) }
{
    match words {
        [kind, name] => Line::RowLine {
            kind: row_kind_of(kind),
            name,
        },
        _ => Line::Miscounted,
    }
}

/// Whether the second and the third of three fields make a marker.
fn is_marker(second: &[u8], third: &[u8]) -> bool
    ensures { result ≡ text.is_marker second.now third.now }
{
    second == b"'MARKER'".as_slice()
        || (second == b"MARKER".as_slice() && marker_of(third).is_some())
}

/// A marker with this third field.
fn marker_said<'a>(third: &[u8]) -> Line<'a>
    ensures { saying_of result ≡ text.marker_said (words_of_text.marker_of third.now) }
{
    match marker_of(third) {
        None => Line::BadMarker,
        Some(begins) => Line::Marker { begins },
    }
}

/// A line of COLUMNS with three fields: `column row value`, or a marker.
fn three_said<'a>(whole: bool, column: &'a [u8], row: &'a [u8], number: &'a [u8]) -> Line<'a>
    ensures { saying_of result ≡ text.column_said whole (column.now ∷ row.now ∷ number.now ∷ []) }
{
    if is_marker(row, number) {
        return marker_said(number);
    }
    Line::ColumnLine {
        column,
        whole,
        values: one_value(row, number),
    }
}

/// A line of COLUMNS: `column row value [row value]`, or a marker.
fn column_said<'a>(whole: bool, words: &[&'a [u8]]) -> Line<'a>
    ensures { saying_of result ≡ text.column_said whole (texts words.now) }
{
    match words {
        [column, row, number] => three_said(whole, column, row, number),
        [column, row, number, other_row, other_number] => Line::ColumnLine {
            column,
            whole,
            values: two_values(row, number, other_row, other_number),
        },
        _ => Line::Miscounted,
    }
}
