//! A text is cut into lines, and a line into fields.
ghost use Rattle.std.specs.Prelude.{◌≡◌, ◌==◌, ◌+◌, ◌<◌, ◌^◌, ◌∷◌, [], length, false, MatchOption, IfSome, option_map};
ghost use Rattle.std.specs.List.{position_or_len};
ghost use Rattle.cip_text_rules.specs.Lines as text;
ghost use Rattle.cip_text.specs.LineStarts.{begins_blank};
ghost use Rattle.cip_text.specs.TextLines.{records_with, content_of, numbered, fields_left, left};

use crate::parts::{cut, cut_at};
use crate::text_lines::{Fields, Lines, TextLine};

/// Blank, tab and carriage return.
fn is_blank(byte: u8) -> bool
    ensures { result ≡ text.is_blank byte }
{
    byte == b' ' || byte == b'\t' || byte == b'\r'
}

/// The place of the first blank; the length where there is none.
fn first_blank(bytes: &[u8]) -> usize
    ensures { result ≡ position_or_len text.is_blank bytes.now }
{
    for (i, byte) in bytes.iter().enumerate() {
        if is_blank(*byte) {
            return i;
        }
    }
    bytes.len()
}

/// What stands from the first byte on that is no blank.
fn without_blanks(bytes: &[u8]) -> &[u8]
    ensures same { text.fields result.now ≡ text.fields bytes.now }
    ensures starts { begins_blank result.now ≡ false }
{
    let mut rest = bytes;
    while let [first, others @ ..] = rest {
        if !is_blank(*first) {
            return rest;
        }
        rest = others;
    }
    rest
}

impl<'a> Fields<'a> {
    /// The next field, which is a part of the text; none where the line has no more, and then the fields stay as they
    /// are.
    pub fn next_field(&mut self) -> Option<&'a [u8]>
        ensures { MatchOption result ((fields_left self.old ≡ []) × (fields_left self.new ≡ []))
            (λ word. fields_left self.old ≡ word.now ∷ fields_left self.new) }
    {
        let rest = without_blanks(self.rest);
        if rest.is_empty() {
            self.rest = rest;
            return None;
        }
        let (word, after) = cut_at(rest, first_blank(rest));
        self.rest = after;
        Some(word)
    }
}

/// What a line says, with this number; none where it is empty, a comment or of blanks alone.
fn said_line(line: &[u8], number: usize, comment: u8) -> Option<TextLine<'_>>
    ensures says { option_map content_of result ≡ text.record_of comment line.now }
    ensures is_number { IfSome result (λ found. found.number ≡ number) }
{
    match line {
        [] => None,
        [first, ..] if *first == comment => None,
        [first, ..] if is_blank(*first) => {
            let rest = without_blanks(line);
            if rest.is_empty() {
                return None;
            }
            Some(TextLine {
                number,
                is_section: false,
                fields: Fields { rest },
            })
        }
        _ => Some(TextLine {
            number,
            is_section: true,
            fields: Fields { rest: line },
        }),
    }
}

/// The first line that says something, and what stands behind it. The first line of the text has this number.
fn first_said(bytes: &[u8], first_number: usize, comment: u8) -> Option<(TextLine<'_>, &[u8])>
    requires { first_number + length bytes.now < 2 ^ 64 }
    ensures says { MatchOption result (records_with comment first_number (text.lines bytes.now) ≡ [])
        (λ found. records_with comment first_number (text.lines bytes.now)
        ≡ numbered found.0 ∷ records_with comment (found.0.number + 1) (text.lines found.1.now)) }
    ensures counted { IfSome result (λ found. found.0.number + 1 + length found.1.now < 2 ^ 64) }
{
    let mut rest = bytes;
    let mut number = first_number;
    while !rest.is_empty() {
        let (line, behind, _) = cut(rest, b'\n');
        if let Some(found) = said_line(line, number, comment) {
            return Some((found, behind));
        }
        rest = behind;
        number += 1;
    }
    None
}

/// The lines of a text that say something: a text is cut at line feeds, and what stands behind the last one is a line
/// where it is not empty. Lines are numbered from 1. An empty line, one whose first byte is `comment` and one of
/// blanks alone say nothing.
pub fn lines(bytes: &[u8], comment: u8) -> Lines<'_>
    ensures { left result ≡ records_with comment 1 (text.lines bytes.now) }
{
    Lines {
        rest: bytes,
        number: 1,
        comment,
    }
}

impl<'a> Lines<'a> {
    /// The next line that says something; none where no more does, and then none comes later.
    pub fn next_line(&mut self) -> Option<TextLine<'a>>
        ensures { MatchOption result ((left self.old ≡ []) × (left self.new ≡ []))
            (λ line. left self.old ≡ numbered line ∷ left self.new) }
    {
        let Some((line, rest)) = first_said(self.rest, self.number, self.comment) else {
            self.rest = &[];
            return None;
        };
        self.rest = rest;
        self.number = line.number + 1;
        Some(line)
    }
}
