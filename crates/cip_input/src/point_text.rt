//! A text of a point, in whatever pieces it comes.
ghost use Rattle.std.specs.Prelude.{◌≡◌, ◌+◌, ◌<◌, ◌≤◌, ◌∷◌, ◌++◌, [], ℕ, List, Option, length, true, false, IfSome, OnOk, fold};
ghost use Rattle.std.specs.List.{list_any};
ghost use Rattle.cip_rational.specs.Rational.{ℚ};
ghost use Rattle.cip_problem.specs.Limits.{longest_text};
ghost use Rattle.cip_text_rules.specs.Lines.{is_line_feed};
ghost use Rattle.cip_text_rules.specs.LineTexts.{outcome_of};
ghost use Rattle.cip_text_rules.specs.LineStream.{Stream, byte_read, stream_of};
ghost use Rattle.cip_text.specs.PieceFaults.{has_kind_to};
ghost use Rattle.cip_text.specs.PieceCuts.{cut_of};
ghost use Rattle.cip_text.specs.PieceStands.{IsRead, outcome_with};
ghost use Rattle.cip_problem.specs.NamesOnce.{StandOnce};
ghost use Rattle.cip_text_rules.specs.PointRules.{point_reading};

use crate::kinds::PointKind;
use crate::point_lines::{PointLines, point_of};
use cip_frac::Frac;
use cip_model::Program;
use cip_text::{KnownFault, PieceText, Pieces, ReadFault, TextFault, cut_line, told};
use cip_text_rules::point_steps::{point_faults_of_ended_lines, points_are_read};
use std::alloc::{AllocError, Global};

/// The number of the kind of a text that is too long.
const TOO_LONG: u32 = 6;

/// A text of a point as far as it came.
#[derive(Drop)]
pub struct PointText<'a> {
    pub(crate) alloc: Global,
    pub(crate) pieces: Pieces,
    pub(crate) lines: PointLines<'a>,
    ghost kinds: { has_kind_to 6 (cut_of pieces).fault ≡ true },
}

impl<'a> PointText<'a> {
    ghost use Rattle.cip_input.specs.PointTexts.{kept_of, values_of, program_of, steps_of, StandsFor};

    /// Reads the line that has not ended, and says the kind of its fault, if it has one.
    fn read_unread(&mut self) -> Option<u32>
        ensures read { IsRead (steps_of self.old) (kept_of self.old) (values_of self.old) (values_of self.new) result }
        ensures kept { kept_of self.new ≡ kept_of self.old }
        ensures same { program_of self.new ≡ program_of self.old }
        ensures kinds { IfSome result (λ kind. (0 < kind) × (kind ≤ 6)) }
    {
        match self.pieces.unread() {
            None => None,
            Some(line) => self.lines.take_line(line),
        }
    }

    /// Takes the last bytes of a line, and the line feed behind them.
    fn end_line(&mut self, tail: &[u8]) -> Result<(), AllocError>
        requires no_feed { list_any is_line_feed tail.now ≡ false }
        requires few { (kept_of self.old).size + length tail.now ≤ longest_text }
        ensures reads { (s : Stream (List (Option ℚ))) → StandsFor self.old s
            → OnOk result (StandsFor self.new (fold (byte_read (steps_of self.old)) s (tail.now ++ 10 ∷ []))) }
        ensures size { OnOk result ((kept_of self.new).size ≡ (kept_of self.old).size + length tail.now + 1) }
        ensures same { program_of self.new ≡ program_of self.old }
    {
        self.pieces.keep(tail)?;
        let kind = self.read_unread();
        self.pieces.end_line(kind);
        Ok(())
    }

    /// The fault of the text that ends here, if it has one.
    fn close(&mut self) -> Option<KnownFault>
        requires { StandOnce (program_of self.old).column_names }
        ensures outcome { (text : List ℕ) → StandsFor self.old (stream_of (steps_of self.old) text)
            → outcome_of (point_reading (program_of self.old)) text
            ≡ outcome_with result ((steps_of self.new).result (values_of self.new)) }
        ensures kinds { has_kind_to 6 result ≡ true }
    {
        points_are_read();
        let last_kind = if self.pieces.is_filled() {
            self.read_unread()
        } else {
            None
        };
        let end_kind = self.lines.end_kind();
        self.pieces.fault_at_end(last_kind, end_kind, TOO_LONG)
    }
}

impl<'a> PieceText for PointText<'a> {
    ghost use Rattle.std.specs.Prelude.{◌≡◌, [], IfSome, MatchResult};
    ghost use Rattle.cip_text_rules.specs.LineTexts.{HasResult};
    ghost use Rattle.cip_text.specs.EndedFaults.{IsKnownFault};
    ghost use Rattle.cip_text.specs.TextFaults.{IsToldBy};
    ghost use Rattle.cip_text_rules.specs.PointRules.{point_reading};
    ghost use Rattle.cip_input.specs.PointKindTexts.{kind_number};
    ghost use Rattle.cip_input.specs.PointReaders.{HasCome, IsFaultOf};
    ghost use Rattle.cip_input.specs.PointTexts.{program_of};

    type Start = (Global, &'a Program);

    type Subject = Program;

    type Value = Vec<Frac>;

    type Kind = PointKind;

    ghost begins = { λ start made. IfSome made (λ text. HasCome text [] × (program_of text ≡ start.1.now)) };

    ghost subject = { program_of };

    ghost has_come = { HasCome };

    ghost is_told = { λ program bytes. IsToldBy kind_number (IsKnownFault (point_reading program) bytes) };

    ghost is_given = { λ program bytes answer. MatchResult answer
        (λ point. HasResult (point_reading program) bytes point.items) (IsFaultOf program bytes) };

    /// None where the room for the values was refused.
    fn begin(start: (Global, &'a Program)) -> Option<PointText<'a>> {
        let (alloc, program) = start;
        let Ok(lines) = PointLines::new(alloc, program) else {
            return None;
        };
        Some(PointText {
            alloc,
            pieces: Pieces::new(alloc),
            lines,
        })
    }

    fn take(&mut self, piece: &[u8]) -> Result<(), AllocError> {
        let mut rest = self.pieces.looked_at(piece);
        while let Some((tail, behind)) = cut_line(rest) {
            self.end_line(tail)?;
            rest = behind;
        }
        self.pieces.keep(rest)
    }

    /// A fault is known where a line that has ended is faulty.
    fn known(&self) -> Result<(), TextFault<PointKind>> {
        point_faults_of_ended_lines();
        self.lines.program.column_names().stand_once();
        told(self.pieces.known_fault(TOO_LONG))
    }

    /// A value for each column of the program.
    fn finish(self) -> Result<Vec<Frac>, ReadFault<PointKind>> {
        let mut text = self;
        text.lines.program.column_names().stand_once();
        if let Err(fault) = told::<PointKind>(text.close()) {
            drop(text);
            return Err(ReadFault::Faulty(fault));
        }
        let point = point_of(text.alloc, text.lines.values.as_slice());
        drop(text);
        Ok(point?)
    }
}
