//! A text of free MPS, in whatever pieces it comes.
ghost use Rattle.std.specs.Prelude.{◌≡◌, ◌<◌, ◌≤◌, [], ℕ, List, Option, true, false, IfSome, OnOk, IfOk, MatchResult};
ghost use Rattle.std.specs.List.{list_any};
ghost use Rattle.cip_text_rules.specs.Lines.{is_line_feed};
ghost use Rattle.cip_text_rules.specs.LineTexts.{outcome_of};
ghost use Rattle.cip_text_rules.specs.LineStream.{stream_of};
ghost use Rattle.cip_text.specs.PieceFaults.{has_kind_to};
ghost use Rattle.cip_text.specs.PieceCuts.{cut_of, with_bytes, with_feed, known_fault};
ghost use Rattle.cip_text.specs.PieceStands.{progress_after, IsRead, IsLastRead, outcome_with};
ghost use Rattle.cip_text_rules.specs.MpsOutcome.{mps_reading, HasProgram};
ghost use Rattle.cip_text_rules.specs.MpsSteps.{mps_steps};

use crate::Program;
use crate::kinds::MpsKind;
use crate::line_reader::LineReader;
use cip_text::{KnownFault, PieceText, Pieces, ReadFault, TextFault, cut_line, told};
use cip_text_rules::step_laws::{faults_of_ended_lines, texts_are_read};
use std::alloc::{AllocError, Global};
use std::mem;

/// The number of the kind of a text that is too long.
const TOO_MANY: u32 = 18;

/// The number of the kind of a text without ENDATA.
const NO_END: u32 = 17;

/// A text of free MPS as far as it came.
#[derive(Drop)]
pub struct MpsText {
    pub(crate) alloc: Global,
    pub(crate) pieces: Pieces,
    pub(crate) lines: LineReader,
    ghost kinds: { has_kind_to 21 (cut_of pieces).fault ≡ true },
}

impl MpsText {
    ghost use Rattle.cip_mps.specs.MpsReaders.{HasCome, IsFaultOf};
    ghost use Rattle.cip_mps.specs.MpsTexts.{kept_of, stage_of, StandsFor};

    /// Reads the line that has not ended, all of which is kept, and says the kind of its fault, if it has one.
    fn read_unread(&mut self) -> Result<Option<u32>, AllocError>
        ensures read { IfOk result (IsRead mps_steps (kept_of self.old) (stage_of self.old) (stage_of self.new)) }
        ensures kept { kept_of self.new ≡ kept_of self.old }
        ensures kinds { IfOk result (λ kind. IfSome kind (λ k. (0 < k) × (k ≤ 21))) }
    {
        match self.pieces.unread() {
            None => Ok(None),
            Some(line) => self.lines.take_line(line),
        }
    }

    /// Reads the line that these bytes end, and says the kind of its fault, if it has one. Where nothing of the line
    /// was kept, nothing is copied.
    fn read_line(&mut self, tail: &[u8]) -> Result<Option<u32>, AllocError>
        requires no_feed { list_any is_line_feed tail.now ≡ false }
        ensures read { IfOk result (IsRead mps_steps (with_bytes (kept_of self.old) tail.now)
            (stage_of self.old) (stage_of self.new)) }
        ensures kept { OnOk result ((kind : Option ℕ) → with_feed (with_bytes (kept_of self.new) tail.now) kind
            ≡ with_feed (with_bytes (kept_of self.old) tail.now) kind) }
        ensures size { OnOk result ((kept_of self.new).size ≡ (kept_of self.old).size) }
        ensures kinds { IfOk result (λ kind. IfSome kind (λ k. (0 < k) × (k ≤ 21))) }
    {
        if self.pieces.has_bytes() {
            self.pieces.join(tail)?;
            return self.read_unread();
        }
        match self.pieces.unread() {
            None => Ok(None),
            Some(_) => self.lines.take_line(tail),
        }
    }

    /// Lets go of what the lines have left, where one has a fault of this kind.
    fn let_go(&mut self, kind: Option<u32>)
        ensures kept { kept_of self.new ≡ kept_of self.old }
        ensures stage { (number : ℕ) → progress_after number kind (stage_of self.new)
            ≡ progress_after number kind (stage_of self.old) }
    {
        if let Some(_) = kind {
            drop(mem::replace(&mut self.lines, LineReader::new(self.alloc)));
        }
    }

    /// Reads the last line where it has no line feed, and says the kind of its fault, if it has one.
    fn read_last(&mut self) -> Result<Option<u32>, AllocError>
        ensures read { IfOk result (IsLastRead mps_steps (kept_of self.old) (stage_of self.old) (stage_of self.new)) }
        ensures kept { kept_of self.new ≡ kept_of self.old }
        ensures kinds { IfOk result (λ kind. IfSome kind (λ k. (0 < k) × (k ≤ 21))) }
    {
        if self.pieces.is_filled() {
            self.read_unread()
        } else {
            Ok(None)
        }
    }

    /// The fault of the text that ends here, if it has one.
    fn close(&mut self) -> Result<Option<KnownFault>, AllocError>
        ensures outcome { (text : List ℕ) → StandsFor self.old (stream_of mps_steps text)
            → IfOk result (λ fault. outcome_of mps_reading text
            ≡ outcome_with fault (mps_steps.result (stage_of self.new))) }
        ensures kinds { IfOk result (λ fault. has_kind_to 21 fault ≡ true) }
    {
        texts_are_read();
        let last_kind = self.read_last()?;
        let end_kind = if self.lines.ended { None } else { Some(NO_END) };
        Ok(self.pieces.fault_at_end(last_kind, end_kind, TOO_MANY))
    }

    /// Takes the end of the text, whose program the lines have said then; or answers its fault.
    fn end(&mut self) -> Result<(), ReadFault<MpsKind>>
        ensures { (bytes : List ℕ) → HasCome self.old bytes
            → MatchResult result (λ _. HasProgram bytes (mps_steps.result (stage_of self.new))) (IsFaultOf bytes) }
    {
        let known = self.close()?;
        told::<MpsKind>(known)?;
        Ok(())
    }
}

impl PieceText for MpsText {
    ghost use Rattle.std.specs.Prelude.{◌≡◌, [], IsSomeAnd, MatchResult};
    ghost use Rattle.cip_text.specs.EndedFaults.{IsKnownFault};
    ghost use Rattle.cip_text.specs.TextFaults.{IsToldBy};
    ghost use Rattle.cip_text_rules.specs.MpsOutcome.{mps_reading, HasProgram};
    ghost use Rattle.cip_mps.specs.MpsKindTexts.{kind_number};
    ghost use Rattle.cip_mps.specs.MpsReaders.{HasCome, IsFaultOf};

    type Start = Global;

    type Subject = ();

    type Value = Program;

    type Kind = MpsKind;

    ghost begins = { λ _ made. IsSomeAnd made (λ text. HasCome text []) };

    ghost subject = { λ _. tt };

    ghost has_come = { HasCome };

    ghost is_told = { λ _ bytes. IsToldBy kind_number (IsKnownFault mps_reading bytes) };

    ghost is_given = { λ _ bytes answer. MatchResult answer (HasProgram bytes) (IsFaultOf bytes) };

    fn begin(alloc: Global) -> Option<MpsText> {
        Some(MpsText {
            alloc,
            pieces: Pieces::new(alloc),
            lines: LineReader::new(alloc),
        })
    }

    /// What the lines have left is let go where one is faulty.
    fn take(&mut self, piece: &[u8]) -> Result<(), AllocError> {
        let mut rest = self.pieces.looked_at(piece);
        while let Some((tail, behind)) = cut_line(rest) {
            let kind = self.read_line(tail)?;
            self.pieces.end_line_with(tail, kind);
            self.let_go(kind);
            rest = behind;
        }
        self.pieces.keep(rest)
    }

    /// A fault is known where a line that has ended is faulty.
    fn known(&self) -> Result<(), TextFault<MpsKind>> {
        faults_of_ended_lines();
        told(self.pieces.known_fault(TOO_MANY))
    }

    fn finish(self) -> Result<Program, ReadFault<MpsKind>> {
        let mut text = self;
        match text.end() {
            Ok(()) => {
                let MpsText { pieces, lines, .. } = text;
                drop(pieces);
                Ok(lines.into_program()?)
            }
            Err(fault) => {
                drop(text);
                Err(fault)
            }
        }
    }
}
