//! Events that wait to be delivered.
ghost use Rattle.std.specs.Prelude.{◌≡◌, ◌++◌, ◌↔◌, [], ◌∷◌, length, true, MatchOption, MatchResult};

use crate::events::Event;
use std::alloc::{AllocError, Global};
use std::collections::VecDeque;
use std::marker::Model;

/// Events in the order in which they were pushed. Contracts see the queue as their list.
#[derive(Drop)]
pub struct EventQueue {
    waiting: VecDeque<Event>,
}

impl Model for EventQueue {
    ghost use Rattle.std.specs.Prelude.{List};
    ghost use Rattle.cip_events.specs.declared.events.Event.{Event as Waiting};

    ghost Value = { List Waiting };

    ghost view = { λ q. q.waiting.items };
}

impl EventQueue {
    /// The queue of no event.
    pub fn new(alloc: Global) -> EventQueue
        ensures { result ≡ [] }
    {
        EventQueue {
            waiting: VecDeque::new(alloc),
        }
    }

    /// Puts an event at the end. `Err` comes where a growth was refused, and leaves the queue as it was.
    pub fn push(&mut self, event: Event) -> Result<(), AllocError>
        ensures { MatchResult result (λ _. self.new ≡ self.old ++ event ∷ []) (λ _. self.new ≡ self.old) }
    {
        self.waiting.push_back(event)?;
        Ok(())
    }

    /// Takes out the first event; `None` exactly where there is none.
    pub fn pop(&mut self) -> Option<Event>
        ensures { MatchOption result ((self.old ≡ []) × (self.new ≡ [])) (λ event. self.old ≡ event ∷ self.new) }
    {
        self.waiting.pop_front()
    }

    /// How many events wait.
    pub fn len(&self) -> usize
        ensures { result ≡ length self.now }
    {
        self.waiting.len()
    }

    /// Whether no event waits.
    pub fn is_empty(&self) -> bool
        ensures { (result ≡ true) ↔ (self.now ≡ []) }
    {
        self.waiting.is_empty()
    }
}
