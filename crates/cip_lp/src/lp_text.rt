//! An LP text, byte by byte.
ghost use Rattle.std.specs.Prelude.{◌≡◌, ◌+◌, ◌<◌, ◌≤◌, [], ℕ, List, None, true, false, OnOk, IfOk};
ghost use Rattle.cip_problem.specs.Limits.{longest_text};
ghost use Rattle.cip_text_rules.specs.Lines as text;
ghost use Rattle.cip_text_rules.specs.LineTexts.{outcome_of};
ghost use Rattle.cip_text.specs.PieceFaults.{has_kind_to, first_fault};
ghost use Rattle.cip_text.specs.PieceStands.{progress_of, outcome_with};
ghost use Rattle.cip_text_rules.specs.LpOutcome.{lp_reading};
ghost use Rattle.cip_text_rules.specs.LpBytes as taken;
ghost use Rattle.cip_text_rules.specs.LineStream.{Going};
ghost use Rattle.cip_text_rules.specs.LpBytes.{tokens_read, part_read, with_last, byte_taken, text_taken};
ghost use Rattle.cip_lp.specs.LpLines.{tokens_left};
ghost use Rattle.cip_lp.specs.LinesRead as read;
ghost use Rattle.cip_text_rules.specs.LpParts.{ends_with};
ghost use Rattle.cip_text_rules.specs.LpTakenTexts.{last_line};

use crate::faults::answer;
use crate::kinds::LpKind;
use crate::line_reader::LineReader;
use crate::{LineTokens, Program, ends_before, hangs};
use cip_text::{KnownFault, PieceText, ReadFault, TextFault};
use cip_text_rules::lp_taken::{taken_faults_stay, taken_texts_come_out};
use std::alloc::{AllocError, Global};
use std::mem;

/// The most bytes of a text.
const LONGEST_TEXT: usize = 67_108_864;

/// The number of the kind of a text without End.
const NO_END: u32 = 8;

/// The number that stands for a text that is too long.
const TOO_LONG: u32 = 12;

/// An LP text as far as it came: what its tokens have said that have ended, how many lines have ended, whether no token
/// of the line that has not ended was read, its bytes behind these tokens, how many bytes there are, and the fault.
#[derive(Drop)]
pub struct LpText {
    pub(crate) alloc: Global,
    pub(crate) lines: LineReader,
    pub(crate) ended: usize,
    pub(crate) front: bool,
    pub(crate) rest: Vec<u8>,
    pub(crate) size: usize,
    pub(crate) fault: Option<KnownFault>,
    ghost counted: { ended ≤ size },
    ghost few: { size ≤ longest_text },
    ghost kinds: { has_kind_to 12 fault ≡ true },
}

/// Whether a byte ends a line.
fn is_line_feed(byte: u8) -> bool
    ensures { result ≡ text.is_line_feed byte }
{
    byte == b'\n'
}

/// Reads tokens of the line of a number, and answers their first fault, if there is one; then all that tokens have said
/// is let go.
fn read_tokens(
    alloc: Global,
    lines: &mut LineReader,
    tokens: LineTokens<'_>,
    number: usize,
) -> Result<Option<KnownFault>, AllocError>
    ensures read { IfOk result (λ fault. progress_of fault (read.stage_of lines.new)
        ≡ tokens_read number (Going (read.stage_of lines.old)) (tokens_left tokens.entry)) }
    ensures kinds { IfOk result (λ fault. has_kind_to 12 fault ≡ true) }
{
    match lines.take_tokens(tokens) {
        Ok(Some(kind)) => {
            drop(mem::replace(lines, LineReader::new(alloc)));
            Ok(Some(KnownFault { line: number, kind }))
        }
        Ok(None) => Ok(None),
        Err(error) => Err(error),
    }
}

/// Whether bytes begin a comment.
fn in_comment(bytes: &[u8]) -> bool
    ensures { result ≡ taken.in_comment bytes.now }
{
    match bytes {
        [b'\\', ..] => true,
        _ => false,
    }
}

/// Whether a token has ended behind bytes, where this byte follows.
fn ends_with(bytes: &[u8], byte: u8) -> bool
    ensures { result ≡ ends_with bytes.now byte }
{
    match bytes.last() {
        Some(last) => ends_before(*last, byte),
        None => false,
    }
}

/// Keeps the first byte too many, where it is one of the line.
fn keep_last(rest: &mut Vec<u8>, byte: u8) -> Result<(), AllocError>
    ensures { OnOk result (rest.new.items ≡ with_last rest.old.items byte) }
{
    if is_line_feed(byte) {
        return Ok(());
    }
    rest.push(byte)?;
    Ok(())
}

impl LpText {
    ghost use Rattle.std.specs.Prelude.{MatchResult};
    ghost use Rattle.cip_text_rules.specs.LpOutcome.{HasLpProgram};
    ghost use Rattle.cip_lp.specs.LpReaders.{IsFaultOf};
    ghost use Rattle.cip_lp.specs.LpTexts.{stage_of, bytes_of, shown_of};

    /// Reads the tokens of the bytes that are kept, and keeps none.
    fn read_rest(&mut self) -> Result<(), AllocError>
        requires { self.old.fault ≡ None }
        ensures read { OnOk result (progress_of self.new.fault (stage_of self.new) ≡ part_read (bytes_of self.old)) }
        ensures rest { OnOk result (self.new.rest.items ≡ []) }
        ensures ended { self.new.ended ≡ self.old.ended }
        ensures size { self.new.size ≡ self.old.size }
    {
        let tokens = LineTokens::of(self.front, self.rest.as_slice());
        let Ok(fault) = read_tokens(self.alloc, &mut self.lines, tokens, self.ended + 1) else {
            return Err(AllocError);
        };
        self.fault = fault;
        self.rest.clear();
        Ok(())
    }

    /// Whether the tokens of the bytes that are kept have ended where this byte follows.
    fn is_cut(&self, byte: u8) -> bool
        ensures { result ≡ taken.is_cut (bytes_of self.now) byte }
    {
        let rest = self.rest.as_slice();
        byte == b'\\' || (ends_with(rest, byte) && !(self.front && hangs(rest)))
    }

    /// Takes a byte of the line.
    fn put(&mut self, byte: u8) -> Result<(), AllocError>
        requires going { self.old.fault ≡ None }
        requires few { self.old.size < longest_text }
        requires other { text.is_line_feed byte ≡ false }
        ensures { OnOk result (shown_of self.new ≡ byte_taken (shown_of self.old) byte) }
    {
        if in_comment(self.rest.as_slice()) {
            self.size += 1;
            return Ok(());
        }
        if self.is_cut(byte) {
            let Ok(()) = self.read_rest() else {
                return Err(AllocError);
            };
            self.front = false;
            self.size += 1;
            let Ok(()) = self.rest.push(byte) else {
                return Err(AllocError);
            };
            return Ok(());
        }
        self.size += 1;
        let Ok(()) = self.rest.push(byte) else {
            return Err(AllocError);
        };
        Ok(())
    }

    /// Takes the first byte too many.
    fn put_last(&mut self, byte: u8) -> Result<(), AllocError>
        requires going { self.old.fault ≡ None }
        requires full { longest_text ≤ self.old.size }
        ensures { OnOk result (shown_of self.new ≡ byte_taken (shown_of self.old) byte) }
    {
        let Ok(()) = keep_last(&mut self.rest, byte) else {
            return Err(AllocError);
        };
        let Ok(()) = self.read_rest() else {
            return Err(AllocError);
        };
        if self.fault.is_some() {
            return Ok(());
        }
        self.fault = Some(KnownFault {
            line: self.ended + 1,
            kind: TOO_LONG,
        });
        Ok(())
    }

    /// Takes one byte more. Behind a fault none is looked at.
    fn take_byte(&mut self, byte: u8) -> Result<(), AllocError>
        ensures { OnOk result (shown_of self.new ≡ byte_taken (shown_of self.old) byte) }
    {
        match self.fault {
            Some(_) => Ok(()),
            None => {
                if self.size >= LONGEST_TEXT {
                    return self.put_last(byte);
                }
                if is_line_feed(byte) {
                    self.read_rest()?;
                    self.ended += 1;
                    self.front = true;
                    self.size += 1;
                    return Ok(());
                }
                self.put(byte)
            }
        }
    }

    /// The number of the last line.
    fn last_line(&self) -> usize
        ensures line { result ≡ last_line (bytes_of self.now) }
        ensures few { result ≤ longest_text + 1 }
    {
        if self.rest.is_empty() {
            self.ended
        } else {
            self.ended + 1
        }
    }

    /// The fault of a text with this last line, all of whose tokens were read.
    fn fault_at_end(&self, last: usize) -> Option<KnownFault>
        requires { last ≤ longest_text + 1 }
        ensures fault { result ≡ first_fault self.now.fault (last + 1) (lp_reading.end_fault (stage_of self.now)) }
        ensures kinds { has_kind_to 12 result ≡ true }
    {
        if self.fault.is_some() || self.lines.ended {
            return self.fault;
        }
        Some(KnownFault {
            line: last + 1,
            kind: NO_END,
        })
    }

    /// The fault of the text that ends here, if it has one.
    fn close(&mut self) -> Result<Option<KnownFault>, AllocError>
        requires { self.old.fault ≡ None }
        ensures outcome { (text : List ℕ) → shown_of self.old ≡ text_taken text
            → IfOk result (λ fault. outcome_of lp_reading text
            ≡ outcome_with fault (lp_reading.result (stage_of self.new))) }
        ensures kinds { IfOk result (λ fault. has_kind_to 12 fault ≡ true) }
    {
        taken_texts_come_out();
        let last = self.last_line();
        self.read_rest()?;
        Ok(self.fault_at_end(last))
    }

    /// Takes the end of the text, whose program the tokens have said then; or answers its fault.
    fn end(&mut self) -> Result<(), ReadFault<LpKind>>
        ensures { (bytes : List ℕ) → shown_of self.old ≡ text_taken bytes
            → MatchResult result (λ _. HasLpProgram bytes (lp_reading.result (stage_of self.new))) (IsFaultOf bytes) }
    {
        taken_faults_stay();
        answer(self.fault)?;
        let known = self.close()?;
        answer(known)?;
        Ok(())
    }
}

impl PieceText for LpText {
    ghost use Rattle.std.specs.Prelude.{[], IsSomeAnd, MatchResult};
    ghost use Rattle.cip_text_rules.specs.LpOutcome.{HasLpProgram};
    ghost use Rattle.cip_lp.specs.LpReaders.{HasCome, IsAnswered, IsFaultOf};

    type Start = Global;

    type Subject = ();

    type Value = Program;

    type Kind = LpKind;

    ghost begins = { λ _ made. IsSomeAnd made (λ text. HasCome text []) };

    ghost subject = { λ _. tt };

    ghost has_come = { HasCome };

    ghost is_told = { λ _. IsAnswered };

    ghost is_given = { λ _ bytes answer. MatchResult answer (HasLpProgram bytes) (IsFaultOf bytes) };

    fn begin(alloc: Global) -> Option<LpText> {
        Some(LpText {
            alloc,
            lines: LineReader::new(alloc),
            ended: 0,
            front: true,
            rest: Vec::new(alloc),
            size: 0,
            fault: None,
        })
    }

    fn take(&mut self, piece: &[u8]) -> Result<(), AllocError> {
        for byte in piece {
            self.take_byte(*byte)?;
        }
        Ok(())
    }

    /// A fault is known where a token that has ended is faulty, or the text has over 67,108,864 bytes.
    fn known(&self) -> Result<(), TextFault<LpKind>> {
        taken_faults_stay();
        answer(self.fault)
    }

    fn finish(self) -> Result<Program, ReadFault<LpKind>> {
        let mut text = self;
        match text.end() {
            Ok(()) => {
                let LpText { lines, rest, .. } = text;
                drop(rest);
                Ok(lines.into_program()?)
            }
            Err(fault) => {
                drop(text);
                Err(fault)
            }
        }
    }
}
