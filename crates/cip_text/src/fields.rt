//! The fields of one line.
ghost use Rattle.std.specs.Prelude.{◌≡◌, false, option_map};
ghost use Rattle.std.specs.List.{list_any};
ghost use Rattle.cip_text_rules.specs.Lines as text;
ghost use Rattle.cip_text.specs.TextLines.{fields_left};
ghost use Rattle.cip_text_rules.specs.LineTexts.{words_in};

use crate::{Fields, record_of};

/// The fields of a line without line feed; none where the line is empty, of blanks alone, or where its first byte is
/// `comment`.
pub fn fields_of(line: &[u8], comment: u8) -> Option<Fields<'_>>
    requires { list_any text.is_line_feed line.now ≡ false }
    ensures { option_map fields_left result ≡ option_map words_in (text.record_of comment line.now) }
{
    match record_of(line, comment) {
        None => None,
        Some(record) => Some(record.fields),
    }
}
