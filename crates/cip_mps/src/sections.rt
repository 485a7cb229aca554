//! Section lines and lines of OBJSENSE.
ghost use Rattle.std.specs.Prelude.{◌≡◌, ◌==◌, None, map, is_none};
ghost use Rattle.std.specs.List.{list_any};
ghost use Rattle.cip_text.specs.TextLines.{fields_left};
ghost use Rattle.cip_mps_lines.specs.MpsKinds.{part_of};
ghost use Rattle.cip_text_rules.specs.MpsWords as text;
ghost use Rattle.cip_text_rules.specs.MpsSayings.{Opens};
ghost use Rattle.cip_text_rules.specs.MpsFacts.{sense_words_in};
ghost use Rattle.cip_text_rules.specs.MpsBounds.{settled, lacks_sides};
ghost use Rattle.cip_text_rules.specs.MpsProgram.{is_free};
ghost use Rattle.cip_text_rules.specs.MpsRules.{least, stands_behind, is_opened, has_many_words};
ghost use Rattle.cip_text_rules.specs.MpsSteps.{or_else};
ghost use Rattle.cip_text_rules.specs.MpsLineTests.{end_tests};
ghost use Rattle.cip_mps.specs.DraftLines.{section_tests, sense_said_on};
ghost use Rattle.cip_mps.specs.DraftStates.{kept};

use crate::draft::Draft;
use cip_mps_lines::{Part, sense_of};
use cip_text::Fields;

/// A number of its own for each section.
fn number_of(part: Part) -> u8
    ensures { result ≡ text.part_number (part_of part) }
{
    match part {
        Part::NoPart => 0,
        Part::Title => 1,
        Part::Sense => 2,
        Part::Rows => 3,
        Part::Columns => 4,
        Part::RightSides => 5,
        Part::Ranges => 6,
        Part::Bounds => 7,
        Part::End => 8,
    }
}

/// A section's place in the order of sections; those with one number may stand in any order.
fn rank_of(part: Part) -> u8
    ensures { result ≡ text.rank (part_of part) }
{
    match part {
        Part::NoPart => 0,
        Part::Title | Part::Sense => 1,
        Part::Rows => 2,
        Part::Columns => 3,
        Part::RightSides | Part::Ranges | Part::Bounds => 4,
        Part::End => 5,
    }
}

/// Whether a section that was opened is this one, or has its place behind it.
fn is_behind(part: Part, before: Part) -> bool
    ensures { result ≡ stands_behind (part_of part) (part_of before) }
{
    number_of(before) == number_of(part) || rank_of(part) < rank_of(before)
}

/// Whether a section line has a wrong number of words behind its first.
fn is_miscounted(part: Part, words: &Fields<'_>) -> bool
    ensures { result ≡ has_many_words (part_of part) (fields_left words.now) }
{
    let mut rest = *words;
    let first = rest.next_field();
    match part {
        Part::Title => false,
        Part::Sense => first.is_some() && rest.next_field().is_some(),
        _ => first.is_some(),
    }
}

/// Whether a section line says a sense by a word that says none.
fn has_bad_sense(part: Part, words: &Fields<'_>) -> bool
    ensures { result ≡ list_any (λ word. is_none (text.sense_of word))
        (sense_words_in (Opens (part_of part) (fields_left words.now))) }
{
    let mut rest = *words;
    match part {
        Part::Sense => match rest.next_field() {
            None => false,
            Some(word) => sense_of(word).is_none(),
        },
        _ => false,
    }
}

/// The sense that a section line says.
pub(crate) fn sense_on(part: Part, words: &Fields<'_>) -> Option<bool>
    ensures { result ≡ sense_said_on (part_of part) (fields_left words.now) }
{
    let mut rest = *words;
    match part {
        Part::Sense => match rest.next_field() {
            None => None,
            Some(word) => sense_of(word),
        },
        _ => None,
    }
}

impl Draft {
    /// Whether a section that was opened is this one, or has its place behind it.
    fn is_late(&self, part: Part) -> bool
        ensures { result ≡ list_any (stands_behind (part_of part)) (map part_of self.now.opened.items) }
    {
        for before in &self.opened {
            if is_behind(part, *before) {
                return true;
            }
        }
        false
    }

    /// Whether a section was opened.
    fn was_opened(&self, part: Part) -> bool
        ensures { result ≡ is_opened (map part_of self.now.opened.items) (part_of part) }
    {
        for before in &self.opened {
            if number_of(*before) == number_of(part) {
                return true;
            }
        }
        false
    }

    /// Whether a row is of type N.
    fn has_objective(&self) -> bool
        ensures { result ≡ list_any is_free (map (λ row. row.kind) self.now.rows) }
    {
        for number in 0..self.rows.len() {
            if self.rows.head(number).is_free() {
                return true;
            }
        }
        false
    }

    /// Whether a semi-continuous column lacks one of the bounds that it must have.
    fn lacks_sides(&self) -> bool
        ensures { result ≡ list_any lacks_sides (map settled self.now.columns.items) }
    {
        for column in &self.columns {
            if column.lacks_sides() {
                return true;
            }
        }
        false
    }

    /// The least kind of fault of the line ENDATA.
    fn end_fault(&self, words: &Fields<'_>) -> Option<u32>
        ensures { result ≡ least (end_tests (kept self.now) (fields_left words.now)) }
    {
        if self.is_late(Part::End) {
            return Some(2);
        }
        if !(self.was_opened(Part::Rows) && self.was_opened(Part::Columns)) {
            return Some(3);
        }
        if is_miscounted(Part::End, words) {
            return Some(4);
        }
        if !self.has_objective() {
            return Some(16);
        }
        if self.lacks_sides() {
            return Some(21);
        }
        None
    }

    /// The least kind of fault of a section line.
    pub(crate) fn section_fault(&self, part: Part, words: &Fields<'_>) -> Option<u32>
        ensures { result ≡ least (section_tests (kept self.now) (part_of part) (fields_left words.now)) }
    {
        if let Part::End = part {
            return self.end_fault(words);
        }
        if self.is_late(part) {
            return Some(2);
        }
        if is_miscounted(part, words) {
            return Some(4);
        }
        if has_bad_sense(part, words) {
            return Some(21);
        }
        None
    }

    /// Keeps a sense, where there is none yet.
    pub(crate) fn put_sense(&mut self, sense: Option<bool>)
        ensures { kept self.new ≡ record (kept self.old) { sense = or_else self.old.sense sense } }
    {
        if self.sense.is_none() {
            self.sense = sense;
        }
    }
}
