//! The record of one line.
ghost use Rattle.std.specs.Prelude.{◌≡◌, false, option_map};
ghost use Rattle.std.specs.List.{list_any};
ghost use Rattle.cip_text_rules.specs.Lines as text;
ghost use Rattle.cip_text.specs.TextLines.{content_of};

use crate::line_cuts::lines;
use crate::text_lines::TextLine;

/// The record of a line without line feed; none where the line is empty, of blanks alone, or where its first byte is
/// `comment`. Its number is 1.
pub fn record_of(line: &[u8], comment: u8) -> Option<TextLine<'_>>
    requires { list_any text.is_line_feed line.now ≡ false }
    ensures { option_map content_of result ≡ text.record_of comment line.now }
{
    let mut records = lines(line, comment);
    records.next_line()
}
