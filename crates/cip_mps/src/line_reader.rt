//! Reading the lines of a text, one after another.
ghost use Rattle.std.specs.Prelude.{◌≡◌, ◌<◌, ◌≤◌, ℕ, false, IfOk, IfSome};
ghost use Rattle.std.specs.List.{list_any};
ghost use Rattle.cip_text_rules.specs.Lines.{is_line_feed};
ghost use Rattle.cip_text_rules.specs.LineStream.{Going, line_read};
ghost use Rattle.cip_text.specs.PieceStands.{progress_after};
ghost use Rattle.cip_mps.specs.MpsLines.{saying_of};
ghost use Rattle.cip_text_rules.specs.MpsRules as rules;
ghost use Rattle.cip_text_rules.specs.MpsSteps.{mps_steps};
ghost use Rattle.cip_mps.specs.LinesRead.{state_of_lines, stage_of, IsTaken};

use crate::laws::places_join;
use crate::{Draft, Line, LinePlace, Part, Program, RowTable, record_of, said};
use cip_mps_lines::NameIndex;
use std::alloc::{AllocError, Global};

/// What was read of the lines that have ended. Behind ENDATA no line is looked at.
#[derive(Drop)]
pub(crate) struct LineReader {
    pub(crate) place: LinePlace,
    pub(crate) draft: Draft,
    pub(crate) ended: bool,
}

/// Whether a line is ENDATA.
fn is_end(line: &Line<'_>) -> bool
    ensures { result ≡ rules.is_end (saying_of line.now) }
{
    match line {
        Line::Opens { part, .. } => matches!(part, Part::End),
        _ => false,
    }
}

impl LineReader {
    /// Before the first line.
    pub(crate) fn new(alloc: Global) -> LineReader
        ensures { stage_of result ≡ mps_steps.start }
    {
        LineReader {
            place: LinePlace::new(alloc),
            draft: Draft {
                alloc,
                opened: Vec::new(alloc),
                sense: None,
                row_names: NameIndex::new(alloc),
                rows: RowTable::new(alloc),
                column_names: NameIndex::new(alloc),
                columns: Vec::new(alloc),
                row_count: 0,
                entries: 0,
                near: 0,
            },
            ended: false,
        }
    }

    /// Reads one line more, and says the kind of its fault, if it has one.
    pub(crate) fn take_line(&mut self, line: &[u8]) -> Result<Option<u32>, AllocError>
        requires { list_any is_line_feed line.now ≡ false }
        ensures read { IfOk result (λ kind. (number : ℕ)
            → line_read mps_steps (Going (stage_of self.old)) number line.now
            ≡ progress_after number kind (stage_of self.new)) }
        ensures kinds { IfOk result (λ kind. IfSome kind (λ k. (0 < k) × (k ≤ 21))) }
    {
        if self.ended {
            return Ok(None);
        }
        match record_of(line, b'*') {
            None => Ok(None),
            Some(record) => {
                let line = said(&self.place, &record);
                self.take(&line)
            }
        }
    }

    /// Takes what a line says.
    fn take(&mut self, line: &Line<'_>) -> Result<Option<u32>, AllocError>
        ensures taken { IfOk result (IsTaken (state_of_lines self.old) (stage_of self.new) (saying_of line.now)) }
        ensures kinds { IfOk result (λ kind. IfSome kind (λ k. (0 < k) × (k ≤ 21))) }
    {
        places_join();
        let kind = self.draft.read(line)?;
        if kind.is_none() {
            self.place.move_behind(line)?;
            self.ended = is_end(line);
        }
        Ok(kind)
    }

    /// The program of the lines.
    pub(crate) fn into_program(self) -> Result<Program, AllocError>
        ensures { IfOk result (λ program. program ≡ mps_steps.result (stage_of self)) }
    {
        let LineReader { place, draft, .. } = self;
        drop(place);
        draft.into_program()
    }
}
