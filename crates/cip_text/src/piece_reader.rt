//! A reader that takes a text in pieces, whatever its format.
ghost use Rattle.std.specs.Prelude.{◌≡◌, ◌++◌, ℕ, List, Option, Result, Err, OnOk};

use crate::text_faults::{ReadFault, TextFault};
use std::alloc::AllocError;

/// A text of a format as far as it came.
pub trait PieceText {
    ghost use Rattle.cip_text.specs.declared.text_faults.ReadFault.{ReadFault};
    ghost use Rattle.cip_text.specs.declared.text_faults.TextFault.{TextFault};

    /// What a text is begun with.
    type Start;

    /// What a text speaks of.
    type Subject;

    /// What a text gives.
    type Value;

    /// The kinds of its faults.
    type Kind;

    /// What comes of a start: a text of which nothing came, if there is room for one.
    ghost begins: { Self.Start → Option Self → Type 0 };

    /// What the text speaks of.
    ghost subject: { Self → Self.Subject };

    /// These bytes have come, no more and no less.
    ghost has_come: { Self → List ℕ → Type 0 };

    /// What is told of these bytes where more may follow: a fault that is known, or that there is none.
    ghost is_told: { Self.Subject → List ℕ → Result (Unit {0}) (TextFault Self.Kind) → Type 0 };

    /// What a text of these bytes comes to.
    ghost is_given: { Self.Subject → List ℕ → Result Self.Value (ReadFault Self.Kind) → Type 0 };

    /// Before the first byte; none where there is no room for what a text needs from the start.
    fn begin(start: Self::Start) -> Option<Self>
        ensures { begins start result };

    /// Takes one more piece of the text. An `Err` comes where a growth was refused.
    fn take(&mut self, piece: &[u8]) -> Result<(), AllocError>
        ensures reads { (bytes : List ℕ) → has_come self.old bytes
            → OnOk result (has_come self.new (bytes ++ piece.now)) }
        ensures same { subject self.new ≡ subject self.old };

    /// The fault that is known before the text ends, whatever follows.
    fn known(&self) -> Result<(), TextFault<Self::Kind>>
        ensures { (bytes : List ℕ) → has_come self.now bytes → is_told (subject self.now) bytes result };

    /// What the text gives that ends here, or its first fault.
    fn finish(self) -> Result<Self::Value, ReadFault<Self::Kind>>
        ensures { (bytes : List ℕ) → has_come self bytes → is_given (subject self) bytes result };
}

/// A reader of texts of a format: a text as far as it came, and nothing once a growth was refused.
#[derive(Drop)]
pub struct PieceReader<T> {
    pub(crate) text: Option<T>,
}

impl<T: PieceText + Drop> PieceReader<T> {
    ghost use Rattle.cip_text.specs.PieceReaders.{HasRead, IsSpent, IsFed};

    /// Before the first piece. Where there is no room for what the text needs from the start, every call answers
    /// `NoMemory`.
    pub fn new(start: T::Start) -> PieceReader<T>
        ensures { T.begins start result.text }
    {
        PieceReader {
            text: T::begin(start),
        }
    }

    /// Takes one more piece of the text. `Faulty` comes exactly where a fault is known before the text ends, and then
    /// every later call answers the same fault. After `NoMemory` every later call answers `NoMemory`. Behind the first
    /// 67,108,865 bytes of the text nothing is looked at.
    pub fn feed(&mut self, piece: &[u8]) -> Result<(), ReadFault<T::Kind>>
        ensures reads { (subject : T.Subject) (bytes : List ℕ) → HasRead T.has_come T.subject self.old subject bytes
            → IsFed (HasRead T.has_come T.subject self.new subject (bytes ++ piece.now)) (IsSpent self.new)
            (T.is_told subject (bytes ++ piece.now)) result }
        ensures spent { IsSpent self.old → (result ≡ Err ReadFault.NoMemory) × IsSpent self.new }
    {
        let Some(text) = &mut self.text else {
            return Err(ReadFault::NoMemory);
        };
        let Ok(()) = text.take(piece) else {
            drop(self.text.take());
            return Err(ReadFault::NoMemory);
        };
        match text.known() {
            Ok(()) => Ok(()),
            Err(fault) => Err(ReadFault::Faulty(fault)),
        }
    }

    /// What the text gives, where it has ended, or its first fault. `NoMemory` comes after any `NoMemory`, too.
    pub fn finish(self) -> Result<T::Value, ReadFault<T::Kind>>
        ensures reads { (subject : T.Subject) (bytes : List ℕ) → HasRead T.has_come T.subject self subject bytes
            → T.is_given subject bytes result }
        ensures spent { IsSpent self → result ≡ Err ReadFault.NoMemory }
    {
        let PieceReader { text } = self;
        match text {
            Some(text) => text.finish(),
            None => Err(ReadFault::NoMemory),
        }
    }
}
