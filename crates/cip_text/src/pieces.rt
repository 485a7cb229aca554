//! A text as far as it came.
ghost use Rattle.std.specs.Prelude.{◌≡◌, ◌≢◌, ◌+◌, ◌-◌, ◌≤◌, length, take, false, MatchOption, IfSome, OnOk};
ghost use Rattle.std.specs.List.{list_any};
ghost use Rattle.cip_problem.specs.Limits.{longest_text};
ghost use Rattle.cip_text_rules.specs.Lines.{is_line_feed, is_filled};

use crate::faults::{KnownFault, fault_when_long, first_fault};
use std::alloc::{AllocError, Global};

/// The most bytes of a text.
const LONGEST_TEXT: usize = 67_108_864;

/// A text as far as it came: the bytes of the line that has not ended, how many lines have ended and how many bytes
/// were looked at, and the first fault of a line that has ended. Behind a fault no bytes are kept.
#[derive(Drop)]
pub struct Pieces {
    pub(crate) line: Vec<u8>,
    pub(crate) filled: bool,
    pub(crate) ended: usize,
    pub(crate) size: usize,
    pub(crate) fault: Option<KnownFault>,
    ghost no_feed: { list_any is_line_feed line.items ≡ false },
    ghost counted: { ended ≤ size },
    ghost few: { size ≤ longest_text + 1 },
}

impl Pieces {
    ghost use Rattle.cip_text.specs.PieceCuts.{no_bytes, cut_of, with_bytes, with_tail, with_feed, known_fault, end_fault};

    /// Before the first byte.
    pub fn new(alloc: Global) -> Pieces
        ensures { cut_of result ≡ no_bytes }
    {
        Pieces {
            line: Vec::new(alloc),
            filled: false,
            ended: 0,
            size: 0,
            fault: None,
        }
    }

    /// The bytes of a piece that are looked at: those up to the first byte too many of the text.
    pub fn looked_at<'a>(&self, piece: &'a [u8]) -> &'a [u8]
        ensures { result.now ≡ take (longest_text + 1 - (cut_of self.now).size) piece.now }
    {
        let room = LONGEST_TEXT + 1 - self.size;
        if piece.len() > room {
            &piece[..room]
        } else {
            piece
        }
    }

    /// Takes bytes of a line that has not ended.
    pub fn keep(&mut self, bytes: &[u8]) -> Result<(), AllocError>
        requires no_feed { list_any is_line_feed bytes.now ≡ false }
        requires few { (cut_of self.old).size + length bytes.now ≤ longest_text + 1 }
        ensures kept { OnOk result (cut_of self.new ≡ with_bytes (cut_of self.old) bytes.now) }
        ensures fault { (cut_of self.new).fault ≡ (cut_of self.old).fault }
    {
        if self.fault.is_none() {
            self.line.extend_from_slice(bytes)?;
        }
        self.size += bytes.len();
        self.filled = self.filled || !bytes.is_empty();
        Ok(())
    }

    /// The bytes of the line that has not ended; none where a line that has ended is faulty.
    pub fn unread(&self) -> Option<&[u8]>
        ensures line { MatchOption result ((cut_of self.now).fault ≢ None)
            (λ line. ((cut_of self.now).fault ≡ None) × (line.now ≡ (cut_of self.now).line)) }
        ensures no_feed { IfSome result (λ line. list_any is_line_feed line.now ≡ false) }
    {
        match self.fault {
            Some(_) => None,
            None => Some(self.line.as_slice()),
        }
    }

    /// Whether bytes of the line that has not ended are kept.
    pub fn has_bytes(&self) -> bool
        ensures { result ≡ is_filled (cut_of self.now).line }
    {
        !self.line.is_empty()
    }

    /// Keeps the last bytes of the line that has not ended. They count once the line ends (`end_line_with`).
    pub fn join(&mut self, tail: &[u8]) -> Result<(), AllocError>
        requires { list_any is_line_feed tail.now ≡ false }
        ensures joined { OnOk result (cut_of self.new ≡ with_tail (cut_of self.old) tail.now) }
        ensures fault { (cut_of self.new).fault ≡ (cut_of self.old).fault }
    {
        self.line.extend_from_slice(tail)
    }

    /// Whether the line that has not ended has bytes.
    pub fn is_filled(&self) -> bool
        ensures { result ≡ (cut_of self.now).filled }
    {
        self.filled
    }

    /// Takes a line feed. The line that it ends has a fault of this kind, or none.
    pub fn end_line(&mut self, kind: Option<u32>)
        requires { (cut_of self.old).size ≤ longest_text }
        ensures { cut_of self.new ≡ with_feed (cut_of self.old) kind }
    {
        self.ended += 1;
        self.size += 1;
        self.fault = first_fault(self.fault, self.ended, kind);
        self.filled = false;
        self.line.clear();
    }

    /// Takes the last bytes of a line, and the line feed behind them. The line has a fault of this kind, or none.
    pub fn end_line_with(&mut self, tail: &[u8], kind: Option<u32>)
        requires { (cut_of self.old).size + length tail.now ≤ longest_text }
        ensures { cut_of self.new ≡ with_feed (with_bytes (cut_of self.old) tail.now) kind }
    {
        self.size += tail.len();
        self.end_line(kind);
    }

    /// The fault at a line that has ended; `long` is the kind of a text that is too long.
    pub fn known_fault(&self, long: u32) -> Option<KnownFault>
        ensures { result ≡ known_fault long (cut_of self.now) }
    {
        if self.size <= LONGEST_TEXT || self.filled {
            self.fault
        } else {
            Some(fault_when_long(self.fault, long, self.ended))
        }
    }

    /// The fault of the text that ends here: that of a line that has ended; else that of the last line, which has one
    /// of kind `last_kind` or none; else the one behind it, which is of kind `end_kind`, if there is one. `long` is the
    /// kind of a text that is too long.
    pub fn fault_at_end(
        &self,
        last_kind: Option<u32>,
        end_kind: Option<u32>,
        long: u32,
    ) -> Option<KnownFault>
        ensures { result ≡ end_fault long (cut_of self.now) last_kind end_kind }
    {
        let fault = first_fault(self.fault, self.ended + 1, last_kind);
        let last = if self.filled {
            self.ended + 1
        } else {
            self.ended
        };
        if self.size <= LONGEST_TEXT {
            first_fault(fault, last + 1, end_kind)
        } else {
            Some(fault_when_long(fault, long, last))
        }
    }
}
