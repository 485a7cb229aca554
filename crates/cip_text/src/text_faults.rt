//! The first fault of a text, as it is told, and why a reader gives nothing.
ghost use Rattle.std.specs.Prelude.{◌≡◌, ◌<◌, ◌≤◌, ℕ, true};
ghost use Rattle.cip_text.specs.PieceFaults.{has_kind_to};
ghost use Rattle.cip_text.specs.TextFaults.{IsSaid};

use crate::faults::KnownFault;
use std::alloc::AllocError;
use std::fmt;
use thiserror::Error;

/// The kinds of faults of a format of texts. A kind is known by its number, which counts from 1.
pub trait FaultKind {
    /// How many kinds there are.
    ghost most: { ℕ };

    /// The number of a kind.
    ghost number_of: { Self → ℕ };

    /// The kind of this number.
    fn of(number: u32) -> Self
        requires some { 0 < number }
        requires few { number ≤ most }
        ensures { number_of result ≡ number };
}

/// A faulty text: its first line that breaks a rule, and the least kind that is broken there. The kind says of which
/// format the text is.
#[derive(Clone, Copy, Debug, Error)]
#[error_bound(K: fmt::Display + Drop)]
#[error("line {line}, {kind}")]
pub struct TextFault<K> {
    /// The kind.
    pub kind: K,
    /// The line, counted from 1.
    pub line: usize,
}

/// Why a reader gives nothing.
#[derive(Clone, Copy, Debug, Error)]
#[error_bound(K: fmt::Display + Drop)]
pub enum ReadFault<K> {
    /// The text is faulty.
    #[error("{0}")]
    Faulty(TextFault<K>),
    /// A growth was refused.
    #[error("no memory")]
    NoMemory,
}

impl<K> From<AllocError> for ReadFault<K> {
    ghost use Rattle.std.specs.Prelude.{◌≡◌};
    ghost use Rattle.cip_text.specs.declared.text_faults.ReadFault.{ReadFault};

    ghost from_gives = { λ _ cause. cause ≡ ReadFault.NoMemory };

    fn from(_: AllocError) -> ReadFault<K> {
        ReadFault::NoMemory
    }
}

impl<K> From<TextFault<K>> for ReadFault<K> {
    ghost use Rattle.std.specs.Prelude.{◌≡◌};
    ghost use Rattle.cip_text.specs.declared.text_faults.ReadFault.{ReadFault};

    ghost from_gives = { λ fault cause. cause ≡ ReadFault.Faulty fault };

    fn from(fault: TextFault<K>) -> ReadFault<K> {
        ReadFault::Faulty(fault)
    }
}

/// What is told of a fault that is known, or of none: an `Err` comes exactly where there is one.
pub fn told<K: FaultKind>(known: Option<KnownFault>) -> Result<(), TextFault<K>>
    requires { has_kind_to K.most known ≡ true }
    ensures { IsSaid K.number_of known result }
{
    match known {
        None => Ok(()),
        Some(fault) => Err(TextFault {
            kind: K::of(fault.kind),
            line: fault.line,
        }),
    }
}
