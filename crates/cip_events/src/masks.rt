//! Sets of kinds of events.
ghost use Rattle.std.specs.Prelude.{◌≡◌, ◌≢◌, true, false};
ghost use Rattle.cip_events.specs.Events.{wants};
ghost use Rattle.cip_events.specs.declared.events.EventKind.{EventKind as Kind};

use crate::events::EventKind;

/// The kinds of events that are wanted.
#[derive(Clone, Copy, PartialEq, Eq)]
pub struct EventMask {
    wanted: [bool; 13],
}

impl EventMask {
    /// No kind at all.
    pub fn empty() -> EventMask
        ensures { (kind : Kind) → wants result kind ≡ false }
    {
        EventMask {
            wanted: [false; 13],
        }
    }

    /// This mask with one kind more.
    pub fn with(self, kind: EventKind) -> EventMask
        ensures wanted { wants result kind ≡ true }
        ensures others { (other : Kind) → other ≢ kind → wants result other ≡ wants self other }
    {
        let mut wanted = self.wanted;
        wanted[kind.place()] = true;
        EventMask { wanted }
    }

    /// Whether events of a kind are wanted.
    pub fn has(&self, kind: EventKind) -> bool
        ensures { result ≡ wants self.now kind }
    {
        self.wanted[kind.place()]
    }
}
