//! A text of blocks, in whatever pieces it comes.
ghost use Rattle.std.specs.Prelude.{◌≡◌, ◌<◌, ◌≤◌, ℕ, List, true, IfSome, IfOk, MatchResult};
ghost use Rattle.cip_text_rules.specs.LineTexts.{HasResult};
ghost use Rattle.cip_text_rules.specs.LineStream.{stream_of};
ghost use Rattle.cip_text.specs.PieceFaults.{has_kind_to};
ghost use Rattle.cip_text.specs.PieceCuts.{cut_of, end_fault};
ghost use Rattle.cip_text.specs.PieceStands.{IsRead, IsLastRead};
ghost use Rattle.cip_problem.specs.NamesOnce.{StandOnce};
ghost use Rattle.cip_text_rules.specs.BlockRules.{block_reading};
ghost use Rattle.cip_blocks.specs.Endings.{IsEnding};

use crate::block_words::BlockWords;
use crate::ending::Ending;
use crate::kinds::BlockKind;
use cip_model::{Blocks, Program};
use cip_text::{KnownFault, PieceText, Pieces, ReadFault, TextFault, cut_line, told};
use cip_text_rules::block_steps::{block_faults_of_ended_lines, blocks_are_read};
use std::alloc::{AllocError, Global};

/// The number of the kind of a text that is too long.
const TOO_LONG: u32 = 9;

/// A text of blocks as far as it came.
#[derive(Drop)]
pub struct BlockText<'a> {
    pub(crate) pieces: Pieces,
    pub(crate) words: BlockWords<'a>,
    ghost kinds: { has_kind_to 9 (cut_of pieces).fault ≡ true },
}

impl<'a> BlockText<'a> {
    ghost use Rattle.cip_blocks.specs.BlockTexts.{kept_of, state_of, program_of, steps_of, StandsFor};
    ghost use Rattle.cip_blocks.specs.EndedBlocks.{IsFaultOf, IsEnded};

    /// Reads the line that has not ended, and says the kind of its fault, if it has one.
    fn read_unread(&mut self) -> Result<Option<u32>, AllocError>
        ensures read { IfOk result
            (IsRead (steps_of self.old) (kept_of self.old) (state_of self.old) (state_of self.new)) }
        ensures kept { kept_of self.new ≡ kept_of self.old }
        ensures same { program_of self.new ≡ program_of self.old }
        ensures kinds { IfOk result (λ kind. IfSome kind (λ k. (0 < k) × (k ≤ 9))) }
    {
        match self.pieces.unread() {
            None => Ok(None),
            Some(line) => self.words.take_line(line),
        }
    }

    /// Reads the last line where it has no line feed, and says the kind of its fault, if it has one.
    fn read_last(&mut self) -> Result<Option<u32>, AllocError>
        ensures read { IfOk result
            (IsLastRead (steps_of self.old) (kept_of self.old) (state_of self.old) (state_of self.new)) }
        ensures kept { kept_of self.new ≡ kept_of self.old }
        ensures same { program_of self.new ≡ program_of self.old }
        ensures kinds { IfOk result (λ kind. IfSome kind (λ k. (0 < k) × (k ≤ 9))) }
    {
        if self.pieces.is_filled() {
            self.read_unread()
        } else {
            Ok(None)
        }
    }

    /// What the text comes to, where the last line has a fault of this kind or none.
    fn answer(
        &self,
        last_kind: Option<u32>,
        ending: &Ending,
    ) -> Result<Blocks, ReadFault<BlockKind>>
        requires kinds { IfSome last_kind (λ kind. (0 < kind) × (kind ≤ 9)) }
        requires ending { IsEnding (program_of self.now) (state_of self.now) ending.now }
        ensures { IsEnded
            (end_fault 9 (kept_of self.now) last_kind ((steps_of self.now).end_fault (state_of self.now)))
            ((steps_of self.now).result (state_of self.now)) result }
    {
        let end_kind = self.words.end_kind(ending);
        told::<BlockKind>(self.pieces.fault_at_end(last_kind, end_kind, TOO_LONG))?;
        Ok(self.words.blocks(ending)?)
    }

    /// The blocks of the text that ends here, or its first fault.
    fn end(&mut self) -> Result<Blocks, ReadFault<BlockKind>>
        requires { StandOnce (program_of self.old).row_names }
        ensures { (text : List ℕ) → StandsFor self.old (stream_of (steps_of self.old) text)
            → MatchResult result (HasResult (block_reading (program_of self.old)) text)
            (IsFaultOf (program_of self.old) text) }
    {
        blocks_are_read();
        let last_kind = self.read_last()?;
        let ending = self.words.ending()?;
        self.answer(last_kind, &ending)
    }
}

impl<'a> PieceText for BlockText<'a> {
    ghost use Rattle.std.specs.Prelude.{◌≡◌, [], IfSome, MatchResult};
    ghost use Rattle.cip_text_rules.specs.LineTexts.{HasResult};
    ghost use Rattle.cip_text.specs.EndedFaults.{IsKnownFault};
    ghost use Rattle.cip_text.specs.TextFaults.{IsToldBy};
    ghost use Rattle.cip_text_rules.specs.BlockRules.{block_reading};
    ghost use Rattle.cip_blocks.specs.BlockKindTexts.{kind_number};
    ghost use Rattle.cip_blocks.specs.BlockReaders.{HasCome};
    ghost use Rattle.cip_blocks.specs.BlockTexts.{program_of};
    ghost use Rattle.cip_blocks.specs.EndedBlocks.{IsFaultOf};

    type Start = (Global, &'a Program);

    type Subject = Program;

    type Value = Blocks;

    type Kind = BlockKind;

    ghost begins = { λ start made. IfSome made (λ text. HasCome text [] × (program_of text ≡ start.1.now)) };

    ghost subject = { program_of };

    ghost has_come = { HasCome };

    ghost is_told = { λ program bytes. IsToldBy kind_number (IsKnownFault (block_reading program) bytes) };

    ghost is_given = { λ program bytes answer. MatchResult answer
        (HasResult (block_reading program) bytes) (IsFaultOf program bytes) };

    /// None where the room for the places of the rows was refused.
    fn begin(start: (Global, &'a Program)) -> Option<BlockText<'a>> {
        let (alloc, program) = start;
        let words = BlockWords::new(alloc, program).ok()?;
        Some(BlockText {
            pieces: Pieces::new(alloc),
            words,
        })
    }

    fn take(&mut self, piece: &[u8]) -> Result<(), AllocError> {
        let looked = self.pieces.looked_at(piece);
        let mut rest = looked;
        while let Some((tail, behind)) = cut_line(rest) {
            self.pieces.keep(tail)?;
            let kind = self.read_unread()?;
            self.pieces.end_line(kind);
            rest = behind;
        }
        self.pieces.keep(rest)
    }

    /// A fault is known where a line that has ended is faulty.
    fn known(&self) -> Result<(), TextFault<BlockKind>> {
        block_faults_of_ended_lines();
        self.words.program.row_names().stand_once();
        told(self.pieces.known_fault(TOO_LONG))
    }

    fn finish(self) -> Result<Blocks, ReadFault<BlockKind>> {
        let mut text = self;
        text.words.program.row_names().stand_once();
        let blocks = text.end();
        drop(text);
        blocks
    }
}
