//! Why nothing was read of a text in a store.
use cip_blocks::{ReadFault, TextFault};
use cip_io::Failed;
use std::alloc::AllocError;

/// Why nothing was read of a text. Its faults are of the kinds `K`.
#[derive(Clone, Copy)]
pub enum Unread<K> {
    /// The store failed.
    StoreFailed,
    /// The text is faulty.
    Faulty(TextFault<K>),
    /// A growth was refused.
    NoMemory,
}

impl<K> From<Failed> for Unread<K> {
    ghost use Rattle.std.specs.Prelude.{◌≡◌};
    ghost use Rattle.cip_input.specs.declared.unread.Unread.{Unread};

    ghost from_gives = { λ _ cause. cause ≡ Unread.StoreFailed };

    fn from(_: Failed) -> Unread<K> {
        Unread::StoreFailed
    }
}

impl<K> From<AllocError> for Unread<K> {
    ghost use Rattle.std.specs.Prelude.{◌≡◌};
    ghost use Rattle.cip_input.specs.declared.unread.Unread.{Unread};

    ghost from_gives = { λ _ cause. cause ≡ Unread.NoMemory };

    fn from(_: AllocError) -> Unread<K> {
        Unread::NoMemory
    }
}

impl<K, L: From<K>> From<ReadFault<K>> for Unread<L> {
    ghost use Rattle.cip_input.specs.Unreads.{IsUnread};

    ghost from_gives = { IsUnread L.from_gives };

    fn from(fault: ReadFault<K>) -> Unread<L> {
        match fault {
            ReadFault::Faulty(TextFault { kind, line }) => Unread::Faulty(TextFault {
                kind: L::from(kind),
                line,
            }),
            ReadFault::NoMemory => Unread::NoMemory,
        }
    }
}
