//! Where a line stands.

use crate::line::Line;
use crate::words::Part;
use cip_text::Fields;
use std::alloc::{AllocError, Global};
use std::marker::Model;

/// Where the next line stands: the section, whether that has said a sense, whether markers make columns whole, and the
/// set that was met first in the section.
#[derive(Drop)]
pub struct LinePlace {
    part: Part,
    sensed: bool,
    whole: bool,
    has_set: bool,
    set_name: Vec<u8>,
}

impl Model for LinePlace {
    ghost use Rattle.std.specs.Prelude.{None, Some, if◌then◌else◌};
    ghost use Rattle.cip_text_rules.specs.MpsSayings as text;
    ghost use Rattle.cip_mps_lines.specs.MpsKinds.{part_of};

    ghost Value = { text.LinePlace };

    ghost view = { λ p. record {
      part = part_of p.part;
      sensed = p.sensed;
      whole = p.whole;
      set_name = if p.has_set then Some p.set_name.items else None;
    } };
}

impl LinePlace {
    ghost use Rattle.std.specs.Prelude.{◌≡◌, Some, OnOk, OnErr};
    ghost use Rattle.cip_text_rules.specs.MpsSayings.{no_place, place_after, has_words};
    ghost use Rattle.cip_text.specs.TextLines.{fields_left};
    ghost use Rattle.cip_mps_lines.specs.MpsKinds.{part_of};
    ghost use Rattle.cip_mps_lines.specs.MpsLines.{saying_of};
    ghost use Rattle.cip_mps_lines.specs.SkippedSets.{skips};

    /// Before the first line: in no section.
    pub fn new(alloc: Global) -> LinePlace
        ensures { result ≡ no_place }
    {
        LinePlace {
            part: Part::NoPart,
            sensed: false,
            whole: false,
            has_set: false,
            set_name: Vec::new(alloc),
        }
    }

    /// Makes the place that of the record behind this line. After an `Err` it is as it was.
    pub fn move_behind(&mut self, line: &Line<'_>) -> Result<(), AllocError>
        ensures ok { OnOk result (self.new ≡ place_after self.old (saying_of line.now)) }
        ensures err { OnErr result (self.new ≡ self.old) }
    {
        match line {
            Line::Opens { part, words } => {
                self.open(*part, words);
                Ok(())
            }
            Line::SenseLine { .. } => {
                self.sensed = true;
                Ok(())
            }
            Line::Marker { begins } => {
                self.whole = *begins;
                Ok(())
            }
            Line::RightSideLine { set_name, .. }
            | Line::RangeLine { set_name, .. }
            | Line::BoundLine { set_name, .. } => self.meet_set(set_name),
            _ => Ok(()),
        }
    }

    /// Behind a section line.
    fn open(&mut self, part: Part, words: &Fields<'_>)
        ensures { self.new ≡ record {
          part = part_of part;
          sensed = has_words (fields_left words.now);
          whole = self.old.whole;
          set_name = None;
        } }
    {
        let mut fields = *words;
        self.part = part;
        self.sensed = fields.next_field().is_some();
        self.has_set = false;
    }

    /// Behind a line of this set.
    fn meet_set(&mut self, name: &[u8]) -> Result<(), AllocError>
        ensures ok { OnOk result (self.new ≡ record self.old { set_name = Some name.now }) }
        ensures err { OnErr result (self.new ≡ self.old) }
    {
        self.set_name.reserve(name.len())?;
        self.set_name.clear();
        self.set_name.extend_from_slice(name)?;
        self.has_set = true;
        Ok(())
    }

    /// The section.
    pub(crate) fn part(&self) -> Part
        ensures { part_of result ≡ self.now.part }
    {
        self.part
    }

    /// Whether the section has said a sense.
    pub(crate) fn has_sense(&self) -> bool
        ensures { result ≡ self.now.sensed }
    {
        self.sensed
    }

    /// Whether markers make columns whole.
    pub(crate) fn is_whole(&self) -> bool
        ensures { result ≡ self.now.whole }
    {
        self.whole
    }

    /// Whether a line of this set is skipped, since another set was met first in the section.
    pub(crate) fn skips(&self, name: &[u8]) -> bool
        ensures { result ≡ skips self.now.set_name name.now }
    {
        self.has_set && self.set_name.as_slice() != name
    }
}
