//! The fault of a text that is known before the text ends, and which fault counts.
ghost use Rattle.std.specs.Prelude.{◌≡◌};
ghost use Rattle.cip_text.specs.PieceFaults.{first_fault, fault_when_long};

/// A fault of a text: its line, counted from 1, and the number of its kind.
#[derive(Clone, Copy)]
pub struct KnownFault {
    /// The line.
    pub line: usize,
    /// The number of the kind.
    pub kind: u32,
}

/// The first fault behind a line of this number, which has a fault of this kind or none.
pub(crate) fn first_fault(
    fault: Option<KnownFault>,
    line: usize,
    kind: Option<u32>,
) -> Option<KnownFault>
    ensures { result ≡ first_fault fault line kind }
{
    match (fault, kind) {
        (Some(fault), _) => Some(fault),
        (None, Some(kind)) => Some(KnownFault { line, kind }),
        (None, None) => None,
    }
}

/// The fault of a text that is too long, which is of kind `long`, with its first byte too many on line `last`: a fault
/// stays the first one where it stands before that line, or on it with a lesser kind.
pub(crate) fn fault_when_long(fault: Option<KnownFault>, long: u32, last: usize) -> KnownFault
    ensures { result ≡ fault_when_long long last fault }
{
    match fault {
        Some(fault) if fault.line < last || (fault.line == last && fault.kind < long) => fault,
        _ => KnownFault {
            line: last,
            kind: long,
        },
    }
}
